//! Two histograms as one.
ghost use Rattle.std.specs.Prelude.{◌≡◌, ◌+◌, ◌^◌, ◌<◌, ◌≤◌, ℕ, IfOk};
ghost use Rattle.hx_hist.specs.Histograms.{IsHistogram, count_at, total_of};

use super::{Hist, Pair};
use std::alloc::{AllocError, Global};

/// The counts of two histograms of an order together, in one pass over both, in constant time a pair.
pub fn merged(alloc: Global, order: u8, left: &[Pair], right: &[Pair]) -> Result<Hist, AllocError>
    requires order { order ≤ 29 }
    requires left { IsHistogram order left.now }
    requires right { IsHistogram order right.now }
    requires total { total_of left.now + total_of right.now < 2 ^ 64 }
    ensures order { IfOk result (λ hist. hist.order ≡ order) }
    ensures counts { IfOk result (λ hist. (p : ℕ) → count_at p hist.pairs ≡ count_at p left.now + count_at p right.now) }
    ensures total { IfOk result (λ hist. total_of hist.pairs ≡ total_of left.now + total_of right.now) }
{
    let pairs = left.len().saturating_add(right.len());
    let mut all = Hist::with_capacity(alloc, order, pairs)?;
    let mut i = 0;
    let mut j = 0;
    while i < left.len() && j < right.len() {
        let one = left[i];
        let other = right[j];
        if one.pixel < other.pixel {
            all.push(one)?;
            i += 1;
        } else if other.pixel < one.pixel {
            all.push(other)?;
            j += 1;
        } else {
            let pixel = one.pixel;
            let count = one.count + other.count;
            all.push(Pair { pixel, count })?;
            i += 1;
            j += 1;
        }
    }
    while i < left.len() {
        all.push(left[i])?;
        i += 1;
    }
    while j < right.len() {
        all.push(right[j])?;
        j += 1;
    }
    Ok(all)
}
