//! The plan task: the counts of all inputs are cut into partitions.
ghost use Rattle.std.specs.Prelude.{◌≡◌, ◌+◌, ◌^◌, ◌<◌, ◌≤◌, ℕ, IfErr, IfOk, Ok, OnOk, length};
ghost use Rattle.hx_base.specs.Limits.{FitsLimits, most_rows};
ghost use Rattle.hx_base.specs.declared.refusal.JobFile.TheVariants.{Map, Plan};
ghost use Rattle.hx_book.specs.Books.{job_of};
ghost use Rattle.hx_book.specs.Tasks.{task};
ghost use Rattle.hx_book.specs.Values.{IsFileOf};
ghost use Rattle.hx_hist.specs.Histograms.{total_of};
ghost use Rattle.hx_import.specs.Given.{CountsBetween, CountsFirst};
ghost use Rattle.hx_import.specs.Made.{IsRefused, IsUnread};
ghost use Rattle.hx_spill.specs.Maps.{map_in};

use crate::tasks::{damaged, refusal_of};
use hx_base::{JobFile, Refusal, Settings, SpillRefusal};
use hx_book::Job;
use hx_hist::Hist;
use hx_spill::read_map;
use hx_work::plan_task;
use std::alloc::{AllocError, Global};

/// The counts of an input by its map file, which are of the job's highest order.
///
/// # Errors
///
/// `Damaged`, which under the premises never comes, and `Memory`.
pub fn counts_in<J: Job>(
    alloc: Global,
    bytes: &[u8],
    number: u32,
    highest: u8,
) -> Result<Hist, Refusal>
    requires highest { highest ≡ J.of.settings.highest }
    requires file { J.of.premises → IsFileOf (job_of J.of) bytes.now (Map number) }
    ensures order { IfOk result (λ hist. hist.order ≡ J.of.settings.highest) }
    ensures total { IfOk result (λ hist. total_of hist.pairs ≤ most_rows) }
    ensures reads { IfOk result (λ hist. map_in bytes.now ≡ Ok hist) }
    ensures counts { IfOk result (λ hist. J.of.premises → CountsBetween (job_of J.of) number (number + 1) hist) }
    ensures cause { IfErr result (IsUnread J.of) }
{
    match read_map(alloc, bytes) {
        Ok(hist) => {
            if hist.order() != highest {
                return Err(damaged(JobFile::Map(number), 4));
            }
            Ok(hist)
        }
        Err(SpillRefusal::Damaged { place }) => Err(damaged(JobFile::Map(number), place)),
        Err(SpillRefusal::Memory) => Err(Refusal::Memory),
    }
}

/// Adds the counts of inputs to those of the inputs right before them.
///
/// # Errors
///
/// Want of memory.
pub fn add_counts<J: Job>(sum: &mut Hist, more: &Hist) -> Result<(), AllocError>
    requires order { sum.old.order ≡ J.of.settings.highest }
    requires same { more.now.order ≡ J.of.settings.highest }
    requires total { total_of sum.old.pairs + total_of more.now.pairs < 2 ^ 64 }
    ensures order { sum.new.order ≡ J.of.settings.highest }
    ensures total { OnOk result (total_of sum.new.pairs ≡ total_of sum.old.pairs + total_of more.now.pairs) }
    ensures counts { OnOk result ((from mid to : ℕ) → from ≤ mid → mid ≤ to → CountsBetween (job_of J.of) from mid sum.old →
        CountsBetween (job_of J.of) mid to more.now → CountsBetween (job_of J.of) from to sum.new) }
{
    sum.merge(more)?;
    let _pairs = sum.pairs();
    Ok(())
}

/// The file of the plan task, by the counts of all inputs' rows.
///
/// # Errors
///
/// `Overfull`: the first pixel of the highest order with more rows than the threshold, exactly where there is one; then
/// `TooMany`: how many partitions there are, where they are more than a catalogue may have. `Memory`.
pub fn plan_file<J: Job>(
    alloc: Global,
    counts: &Hist,
    settings: &Settings,
) -> Result<Vec<u8>, Refusal>
    requires settings { settings.now ≡ J.of.settings }
    requires fits { FitsLimits settings.now }
    requires order { counts.now.order ≡ J.of.settings.highest }
    requires counts { J.of.premises → CountsFirst (job_of J.of) (length J.of.origins) counts.now }
    ensures value { IfOk result (λ file. J.of.premises → IsFileOf (job_of J.of) file.items Plan) }
    ensures cause { IfErr result (IsRefused J.of (task 2 0)) }
{
    match plan_task(alloc, counts, settings) {
        Ok(file) => Ok(file),
        Err(refusal) => Err(refusal_of(0, refusal)),
    }
}
