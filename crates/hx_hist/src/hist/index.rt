//! Where a pixel stands in a list of pairs.
ghost use Rattle.std.specs.Prelude.{◌≡◌, ◌+◌, ◌^◌, ◌<◌, ◌≤◌, length, AllPairs, OnOk, OnErr};
ghost use Rattle.std.specs.List.{AllWithin};
ghost use Rattle.hx_hist.specs.Histograms.{Adds, total_of};

use super::Pair;
use std::alloc::AllocError;

/// The index of the first pair whose pixel isn't below this one.
pub fn index_of(pairs: &[Pair], pixel: u64) -> usize
    requires { AllPairs (λ a b. a.pixel < b.pixel) pairs.now }
    ensures within { result ≤ length pairs.now }
    ensures before { AllWithin (λ pair. pair.pixel < pixel) pairs.now 0 result }
    ensures after { AllWithin (λ pair. pixel ≤ pair.pixel) pairs.now result (length pairs.now) }
{
    if let Some(last) = pairs.last() {
        if last.pixel < pixel {
            return pairs.len();
        }
        if last.pixel == pixel {
            return pairs.len() - 1;
        }
    }
    pairs.partition_point(|pair| pair.pixel < pixel)
}

/// Adds to the count of a pixel, or puts in a pair of its own for it.
pub fn add_to(pairs: &mut Vec<Pair>, pixel: u64, count: u64) -> Result<(), AllocError>
    requires ascending { AllPairs (λ a b. a.pixel < b.pixel) pairs.old.items }
    requires some { 0 < count }
    requires total { total_of pairs.old.items + count < 2 ^ 64 }
    ensures ok { OnOk result (Adds pixel count pairs.old.items pairs.new.items) }
    ensures err { OnErr result (pairs.new.items ≡ pairs.old.items) }
{
    let index = index_of(pairs, pixel);
    if index == pairs.len() {
        pairs.push(Pair { pixel, count })?;
        return Ok(());
    }
    if pairs[index].pixel == pixel {
        let pair = &mut pairs[index];
        pair.count += count;
        return Ok(());
    }
    pairs.insert(index, Pair { pixel, count })?;
    Ok(())
}
