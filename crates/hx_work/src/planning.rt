//! The plan task: all inputs' counts are cut into partitions.
ghost use Rattle.std.specs.Prelude.{◌≡◌, List};
ghost use Rattle.hx_align.specs.Plans.{totals_of};
ghost use Rattle.hx_base.specs.Limits.{FitsLimits};
ghost use Rattle.hx_base.specs.declared.row.Row.{Row};
ghost use Rattle.hx_spill.specs.Values.{AreCountsOf};
ghost use Rattle.hx_work.specs.Work.{IsPlanned, IsPlannedFor};

use crate::refusal::WorkRefusal;
use hx_align::align;
use hx_base::Settings;
use hx_hist::Hist;
use hx_spill::plan_bytes;
use std::alloc::Global;

// The file of the partitions of counts.
fn plan_counts(alloc: Global, hist: &Hist, settings: &Settings) -> Result<Vec<u8>, WorkRefusal>
    requires order { hist.now.order ≡ settings.now.highest }
    requires fits { FitsLimits settings.now }
    ensures { IsPlanned (totals_of hist.now) settings.now.lowest settings.now.highest settings.now.threshold result }
{
    let plan = align(
        alloc,
        hist,
        settings.lowest,
        settings.highest,
        settings.threshold,
    )?;
    Ok(plan_bytes(alloc, &plan)?)
}

/// The file of the plan task: the partitions of counted rows. The histogram is one of the highest order, the sum of all
/// inputs' ones, and the settings fit their limits.
///
/// A pixel of the highest order with more rows than the threshold is refused as overfull, the first such one; then more
/// than 100000 partitions are refused.
pub fn plan_task(alloc: Global, hist: &Hist, settings: &Settings) -> Result<Vec<u8>, WorkRefusal>
    requires order { hist.now.order ≡ settings.now.highest }
    requires fits { FitsLimits settings.now }
    ensures counts { IsPlanned (totals_of hist.now) settings.now.lowest settings.now.highest settings.now.threshold result }
    ensures rows { (rows : List Row) → AreCountsOf settings.now.highest rows hist.now →
        IsPlannedFor settings.now.lowest settings.now.highest settings.now.threshold rows result }
{
    plan_counts(alloc, hist, settings)
}
