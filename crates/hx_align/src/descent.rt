//! Cutting counted pixels into partitions.
ghost use Rattle.std.specs.Prelude.{◌≡◌, ◌+◌, ◌-◌, ◌/◌, ◌^◌, ◌<◌, ◌≤◌, ◌≢◌, ◌↔◌, All, IsTrue, OnOk, length, take, slice_index_or};
ghost use Rattle.hx_hist.specs.Histograms.{IsHistogram, total_in, total_of};
ghost use Rattle.hx_hist.specs.declared.hist.Pair.{Pair};
ghost use Rattle.hx_align.specs.Plans.{AppendsPlan};

use crate::plan::PlanRow;
use hx_base::Pixel;
use hx_hist::Pair;
use std::alloc::AllocError;

// The pixel of the lowest order in which a pair of the highest one lies.
#[inline]
fn pixel_above(pair: &Pair, lowest: u8, highest: u8) -> Pixel
    requires lowest { lowest ≤ highest }
    requires highest { highest ≤ 29 }
    ensures order { result.order ≡ lowest }
    ensures number { result.number ≡ pair.now.pixel / 4 ^ (highest - lowest) }
{
    let pixel = Pixel {
        order: highest,
        number: pair.pixel,
    };
    pixel.ancestor(highest - lowest)
}

// The pairs at the head of a list that lie in one pixel.
#[derive(Clone, Copy)]
struct Run {
    pixel: Pixel,
    pairs: usize,
    count: u64,
}

impl Run {
    // Whether the run's pixel has no more rows than the threshold.
    fn fits(&self, threshold: u64) -> bool
        ensures { IsTrue result ↔ (self.now.count ≤ threshold) }
    {
        self.count <= threshold
    }
}

// The pairs at the head of a list, of the highest order, that lie in the first one's pixel of the lowest order.
fn first_run(pairs: &[Pair], lowest: u8, highest: u8) -> Run
    requires some { 0 < length pairs.now }
    requires lowest { lowest ≤ highest }
    requires highest { highest ≤ 29 }
    requires total { total_of pairs.now < 2 ^ 64 }
    ensures order { result.pixel.order ≡ lowest }
    ensures some { 0 < result.pairs }
    ensures within { result.pairs ≤ length pairs.now }
    ensures run { All (λ pair. pair.pixel / 4 ^ (highest - lowest) ≡ result.pixel.number)
        (take result.pairs pairs.now) }
    ensures end { (d : Pair) → result.pairs < length pairs.now →
        (slice_index_or pairs.now result.pairs d).pixel / 4 ^ (highest - lowest) ≢ result.pixel.number }
    ensures count { result.count ≡ total_of (take result.pairs pairs.now) }
{
    let pixel = pixel_above(&pairs[0], lowest, highest);
    let mut count = 0;
    for (i, pair) in pairs.iter().enumerate() {
        if pixel_above(pair, lowest, highest).number != pixel.number {
            return Run {
                pixel,
                pairs: i,
                count,
            };
        }
        count += pair.count;
    }
    Run {
        pixel,
        pairs: pairs.len(),
        count,
    }
}

/// Appends the partitions of orders from `lowest` on in which counted pixels of order `highest` lie.
///
/// A pixel of the lowest order with more rows than the threshold is cut into those of the next order, from its
/// own pairs alone.
pub fn append_partitions(
    rows: &mut Vec<PlanRow>,
    pairs: &[Pair],
    lowest: u8,
    highest: u8,
    threshold: u64,
) -> Result<(), AllocError>
    requires lowest { lowest ≤ highest }
    requires highest { highest ≤ 29 }
    requires histogram { IsHistogram highest pairs.now }
    requires total { total_of pairs.now < 2 ^ 64 }
    requires fits { All (λ pair. pair.count ≤ threshold) pairs.now }
    ensures { OnOk result (AppendsPlan (λ pixel. total_in pixel highest pairs.now) lowest highest threshold
        rows.old.items rows.new.items) }
{
    let mut start = 0;
    while start < pairs.len() {
        let run = first_run(&pairs[start..], lowest, highest);
        let end = start + run.pairs;
        if run.fits(threshold) {
            rows.push(PlanRow {
                pixel: run.pixel,
                count: run.count,
            })?;
        } else {
            append_partitions(rows, &pairs[start..end], lowest + 1, highest, threshold)?;
        }
        start = end;
    }
    Ok(())
}
