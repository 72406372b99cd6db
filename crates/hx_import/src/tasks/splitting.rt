//! The split task: an input's rows are told by partition.
ghost use Rattle.std.specs.Prelude.{◌≡◌, ◌↔◌, IfErr, IfOk, IsTrue, List, Ok, length};
ghost use Rattle.hx_base.specs.Limits.{FitsLimits};
ghost use Rattle.hx_base.specs.declared.refusal.JobFile.TheVariants.{Map, Split};
ghost use Rattle.hx_book.specs.Books.{job_of};
ghost use Rattle.hx_book.specs.Tasks.{task};
ghost use Rattle.hx_book.specs.Values.{IsFileOf};
ghost use Rattle.hx_hist.specs.Histograms.{Histogram, total_of};
ghost use Rattle.hx_import.specs.Given.{AreOfInput, HasAllRows, IsCutFor};
ghost use Rattle.hx_import.specs.Made.{IsRefused};
ghost use Rattle.hx_spill.specs.Maps.{map_in};
ghost use Rattle.hx_spill.specs.Splits.{split_in};
ghost use Rattle.hx_spill.specs.declared.split.Placed.{Placed as PlacedRow};

use crate::tasks::cutting::Cut;
use crate::tasks::planning::counts_in;
use crate::tasks::{damaged, refusal_of};
use hx_base::{JobFile, Refusal, Settings, partitions_of_rows};
use hx_book::Job;
use hx_spill::{rows_in_map, rows_in_split};
use hx_work::split_task;
use std::alloc::Global;

// Whether a split file has as many rows as a map counts.
fn has_all(file: &[u8], map: &[u8]) -> bool
    ensures { (hist : Histogram) (placed : List PlacedRow) → map_in map.now ≡ Ok hist → split_in file.now ≡ Ok placed →
        (IsTrue result ↔ (length placed ≡ total_of hist.pairs)) }
{
    match (rows_in_split(file), rows_in_map(map)) {
        (Ok(placed), Ok(counted)) => placed == counted,
        _ => false,
    }
}

/// The file of the split task of an input, by the input's name and bytes, its map file and the job's partitions.
///
/// # Errors
///
/// `BadInput`: the first fault of the input, exactly where its bytes can't be read as rows. `InputChanged` where its rows
/// are counted otherwise than in its map file, and `Damaged` where that isn't one or where some row lies in no partition,
/// which under the premises never come. `Memory`.
pub fn split_file<J: Job>(
    alloc: Global,
    name: &str,
    bytes: &[u8],
    number: u32,
    settings: &Settings,
    map: &[u8],
    cut: &Cut,
) -> Result<Vec<u8>, Refusal>
    requires settings { settings.now ≡ J.of.settings }
    requires fits { FitsLimits J.of.settings }
    requires input { AreOfInput J.of number name.now bytes.now }
    requires map { J.of.premises → IsFileOf (job_of J.of) map.now (Map number) }
    requires cut { IsCutFor J.of cut.now.plan cut.now.tree }
    ensures value { IfOk result (λ file. J.of.premises → IsFileOf (job_of J.of) file.items (Split number)) }
    ensures all { IfOk result (λ file. HasAllRows name.now bytes.now file.items) }
    ensures cause { IfErr result (IsRefused J.of (task 3 number)) }
{
    partitions_of_rows();
    let counts = counts_in::<J>(alloc, map, number, settings.highest)?;
    let file = match split_task(alloc, name, bytes, &counts, &cut.plan) {
        Ok(file) => file,
        Err(refusal) => return Err(refusal_of(number, refusal)),
    };
    if !has_all(&file, map) {
        return Err(damaged(JobFile::Plan, 0));
    }
    Ok(file)
}
