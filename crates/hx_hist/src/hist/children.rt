//! The counts of a pixel's children.
ghost use Rattle.std.specs.Prelude.{◌≡◌, ◌==◌, ◌+◌, ◌*◌, ◌/◌, ◌^◌, ◌<◌, ◌≤◌, AllPairs, filter, length, slice_range};
ghost use Rattle.hx_hist.specs.Histograms.{total_of};

use super::Pair;
use super::index::index_of;

// The sum of the counts.
fn total(pairs: &[Pair]) -> u64
    requires { total_of pairs.now < 2 ^ 64 }
    ensures { result ≡ total_of pairs.now }
{
    pairs.iter().map(|pair| pair.count).sum()
}

// From where to where the pairs stand whose pixels lie in a pixel, so many orders above.
fn indices_of_children(pairs: &[Pair], steps: u8, number: u64) -> (usize, usize)
    requires ascending { AllPairs (λ a b. a.pixel < b.pixel) pairs.now }
    requires steps { steps ≤ 29 }
    requires range { (number + 1) * 4 ^ steps ≤ 12 * 4 ^ 29 }
    ensures order { result.0 ≤ result.1 }
    ensures within { result.1 ≤ length pairs.now }
    ensures children { filter (λ pair. pair.pixel / 4 ^ steps == number) pairs.now ≡ slice_range pairs.now result.0 result.1 }
{
    let start = index_of(pairs, number << (2 * steps));
    let end = index_of(pairs, (number + 1) << (2 * steps));
    (start, end)
}

/// The sum of the counts of the pixels that lie in a pixel, so many orders above.
pub fn total_of_children(pairs: &[Pair], steps: u8, number: u64) -> u64
    requires ascending { AllPairs (λ a b. a.pixel < b.pixel) pairs.now }
    requires total { total_of pairs.now < 2 ^ 64 }
    requires steps { steps ≤ 29 }
    requires range { (number + 1) * 4 ^ steps ≤ 12 * 4 ^ 29 }
    ensures { result ≡ total_of (filter (λ pair. pair.pixel / 4 ^ steps == number) pairs.now) }
{
    let (start, end) = indices_of_children(pairs, steps, number);
    total(&pairs[start..end])
}
