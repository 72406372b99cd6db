//! Searches by halves through disjoint pixels in order, by positions (order-29 numbers).
ghost use Rattle.std.specs.Prelude.{◌<◌, ◌≤◌, length};
ghost use Rattle.std.specs.List.{AllWithin};
ghost use Rattle.hx_base.specs.Pixels.{AreDisjointInOrder, end_position, first_position};

use hx_base::Pixel;

/// How many of the pixels end at or before a position.
pub fn count_before(parts: &[Pixel], position: u64) -> usize
    requires { AreDisjointInOrder parts.now }
    ensures within { result ≤ length parts.now }
    ensures before { AllWithin (λ part. end_position part ≤ position) parts.now 0 result }
    ensures after { AllWithin (λ part. position < end_position part) parts.now result (length parts.now) }
{
    parts.partition_point(|part| part.ends_by(position))
}

/// How many of the pixels begin at or before a position.
pub fn count_begun(parts: &[Pixel], position: u64) -> usize
    requires { AreDisjointInOrder parts.now }
    ensures within { result ≤ length parts.now }
    ensures begun { AllWithin (λ part. first_position part ≤ position) parts.now 0 result }
    ensures later { AllWithin (λ part. position < first_position part) parts.now result (length parts.now) }
{
    parts.partition_point(|part| part.begins_by(position))
}
