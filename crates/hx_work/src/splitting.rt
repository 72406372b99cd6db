//! The split task: an input's rows are told by partition.
ghost use Rattle.std.specs.Prelude.{◌⊎◌, All, IsSorted, Ok};
ghost use Rattle.hx_align.specs.Plans.{pixels_of};
ghost use Rattle.hx_base.specs.FileWords.{IsCsvName, IsParquetName};
ghost use Rattle.hx_base.specs.Rows.{IsGood, row_cmp};
ghost use Rattle.hx_rows.specs.Reading.{rows_of};
ghost use Rattle.hx_work.specs.Work.{IsChecked, IsSplit};

use crate::counting::are_counted;
use crate::placing::placed_rows;
use crate::refusal::WorkRefusal;
use crate::sorting::sorted;
use hx_align::Plan;
use hx_base::Row;
use hx_hist::{Hist, count_rows};
use hx_rows::read_rows;
use hx_spill::split_bytes;
use std::alloc::Global;

// Whether rows are counted as the map has it.
fn check_counts(alloc: Global, map: &Hist, rows: &[Row]) -> Result<(), WorkRefusal>
    requires { All IsGood rows.now }
    ensures { IsChecked map.now rows.now result }
{
    if are_counted(map, rows) {
        return Ok(());
    }
    let _pairs = map.pairs();
    let found = count_rows(alloc, map.order(), rows)?;
    match map.first_difference(&found) {
        Some(difference) => Err(WorkRefusal::from(difference)),
        None => Ok(()),
    }
}

// The split file of sorted rows.
fn split_sorted(
    alloc: Global,
    rows: &[Row],
    map: &Hist,
    plan: &Plan,
) -> Result<Vec<u8>, WorkRefusal>
    requires sorted { IsSorted row_cmp rows.now }
    requires good { All IsGood rows.now }
    ensures { IsSplit (Ok rows.now) map.now (pixels_of plan.now) result }
{
    check_counts(alloc, map, rows)?;
    let placed = placed_rows(alloc, rows, plan)?;
    Ok(split_bytes(alloc, &placed)?)
}

/// The file of a split task: an input's rows by the partitions of the plan that contain them, sorted in each. The
/// input's name ends in `.csv` or `.parquet`. Rows that no partition contains would be left out, so the plan's
/// partitions are to hold every pixel of the input's map.
///
/// An input that can't be read as rows is refused by its first fault; then one whose rows are counted otherwise than its
/// map has it is refused by the first pixel whose counts differ.
pub fn split_task(
    alloc: Global,
    name: &str,
    bytes: &[u8],
    map: &Hist,
    plan: &Plan,
) -> Result<Vec<u8>, WorkRefusal>
    requires { IsCsvName name.now ⊎ IsParquetName name.now }
    ensures { IsSplit (rows_of name.now bytes.now) map.now (pixels_of plan.now) result }
{
    let rows = sorted(alloc, read_rows(alloc, name, bytes)?)?;
    split_sorted(alloc, &rows, map, plan)
}
