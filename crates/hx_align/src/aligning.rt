//! The partitions of a histogram.
ghost use Rattle.std.specs.Prelude.{◌≡◌, ◌≤◌, All, IfNone, IfOk, IfSome, find, nat_lt};
ghost use Rattle.hx_base.specs.Limits.{highest_order, most_in_partition};
ghost use Rattle.hx_base.specs.Partitions.{IsFirstOverfull, NothingOverfull};
ghost use Rattle.hx_align.specs.Plans.{IsAligned, IsPlanOf, totals_of};

use crate::descent::append_partitions;
use crate::plan::{Plan, PlanRow};
use crate::refusal::AlignRefusal;
use hx_base::MOST_PARTITIONS;
use hx_hist::{Hist, Pair};
use std::alloc::{AllocError, Global};

// The first pair that counts more rows than the threshold.
fn first_above(pairs: &[Pair], threshold: u64) -> Option<Pair>
    ensures { result ≡ find (λ pair. nat_lt threshold pair.count) pairs.now }
{
    pairs.iter().copied().find(|pair| pair.count > threshold)
}

// The first pair whose pixel is overfull.
fn first_overfull(hist: &Hist, threshold: u64) -> Option<Pair>
    ensures found { IfSome result (λ pair.
        IsFirstOverfull (totals_of hist.now) hist.now.order threshold pair.pixel) }
    ensures count { IfSome result (λ pair.
        pair.count ≡ totals_of hist.now (record { order = hist.now.order; number = pair.pixel })) }
    ensures none { IfNone result (NothingOverfull (totals_of hist.now) hist.now.order threshold) }
    ensures fits { IfNone result (All (λ pair. pair.count ≤ threshold) hist.now.pairs) }
{
    first_above(hist.pairs(), threshold)
}

// All partitions with their counts, where no pair is above the threshold.
fn partitions_of(
    alloc: Global,
    hist: &Hist,
    lowest: u8,
    threshold: u64,
) -> Result<Vec<PlanRow>, AllocError>
    requires lowest { lowest ≤ hist.now.order }
    requires fits { All (λ pair. pair.count ≤ threshold) hist.now.pairs }
    ensures { IfOk result (λ rows.
        IsPlanOf (totals_of hist.now) lowest hist.now.order threshold rows.items) }
{
    let mut rows = Vec::new(alloc);
    append_partitions(&mut rows, hist.pairs(), lowest, hist.order(), threshold)?;
    Ok(rows)
}

/// The partitions of counted rows: the largest pixels of orders from the lowest to the highest that contain rows,
/// and no more of them than the threshold. The histogram is one of the highest order, at most 20, and the threshold is
/// from 1 to 1000000.
///
/// A pixel of the highest order with more rows than the threshold is refused as overfull, the first such one; then
/// more than 100000 partitions are refused. Each pair is summed up once at each order at most.
pub fn align(
    alloc: Global,
    hist: &Hist,
    lowest: u8,
    highest: u8,
    threshold: u64,
) -> Result<Plan, AlignRefusal>
    requires order { hist.now.order ≡ highest }
    requires lowest { lowest ≤ highest }
    requires highest { highest ≤ highest_order }
    requires threshold_least { 1 ≤ threshold }
    requires threshold_most { threshold ≤ most_in_partition }
    ensures { IsAligned (totals_of hist.now) lowest highest threshold result }
{
    if let Some(pair) = first_overfull(hist, threshold) {
        return Err(AlignRefusal::Overfull {
            pixel: pair.pixel,
            count: pair.count,
        });
    }
    let rows = partitions_of(alloc, hist, lowest, threshold)?;
    if rows.len() > MOST_PARTITIONS {
        return Err(AlignRefusal::TooMany {
            found: rows.len() as u64,
        });
    }
    Ok(Plan::new(alloc, rows)?)
}
