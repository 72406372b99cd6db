//! Where two histograms differ first.
ghost use Rattle.std.specs.Prelude.{◌≡◌, ◌≢◌, ◌<◌, ◌≤◌, AllPairs, IfNone, IfSome, drop, length, slice_index_or, take};
ghost use Rattle.std.specs.List.{AllWithin};
ghost use Rattle.hx_hist.specs.Histograms.{count_at};
ghost use Rattle.hx_hist.specs.Differences.{IsLeastFrom};
ghost use Rattle.hx_hist.specs.declared.hist.Pair.{Pair};

use super::Pair;

/// A pixel that two histograms count differently.
#[derive(Clone, Copy, Debug, PartialEq, Eq)]
pub struct Difference {
    /// The pixel's number, of the histograms' order.
    pub pixel: u64,
    /// Its count in the histogram that is compared, 0 where it has none.
    pub kept: u64,
    /// Its count in the other histogram, 0 where it has none.
    pub found: u64,
}

/// How many pairs two lists have in common at their fronts.
pub fn common_pairs(kept: &[Pair], found: &[Pair]) -> usize
    ensures in_kept { result ≤ length kept.now }
    ensures in_found { result ≤ length found.now }
    ensures same { take result kept.now ≡ take result found.now }
    ensures next { (d : Pair) → result < length kept.now → result < length found.now →
        slice_index_or kept.now result d ≢ slice_index_or found.now result d }
{
    let mut common = 0;
    while common < kept.len() && common < found.len() && kept[common] == found[common] {
        common += 1;
    }
    common
}

/// The least pixel of two lists from an index on.
pub fn least_from(kept: &[Pair], found: &[Pair], index: usize) -> Option<u64>
    requires kept { AllPairs (λ a b. a.pixel < b.pixel) kept.now }
    requires found { AllPairs (λ a b. a.pixel < b.pixel) found.now }
    ensures none { IfNone result ((length kept.now ≤ index) × (length found.now ≤ index)) }
    ensures least { IfSome result (IsLeastFrom index kept.now found.now) }
{
    match (kept.get(index), found.get(index)) {
        (Some(one), Some(other)) => Some(one.pixel.min(other.pixel)),
        (Some(one), None) => Some(one.pixel),
        (None, Some(other)) => Some(other.pixel),
        (None, None) => None,
    }
}

/// The count of a pixel from an index on, where no pixel from there on is below it.
pub fn count_from(pairs: &[Pair], index: usize, pixel: u64) -> u64
    requires ascending { AllPairs (λ a b. a.pixel < b.pixel) pairs.now }
    requires least { AllWithin (λ pair. pixel ≤ pair.pixel) pairs.now index (length pairs.now) }
    ensures { result ≡ count_at pixel (drop index pairs.now) }
{
    match pairs.get(index) {
        Some(pair) => { if pair.pixel == pixel { pair.count } else { 0 } }
        None => 0,
    }
}
