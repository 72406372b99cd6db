//! The map task: an input's rows are counted by pixel.
ghost use Rattle.std.specs.Prelude.{◌⊎◌, ◌≤◌, All, IfOk};
ghost use Rattle.hx_base.specs.FileWords.{IsCsvName, IsParquetName};
ghost use Rattle.hx_base.specs.Rows.{IsGood};
ghost use Rattle.hx_rows.specs.Reading.{rows_of};
ghost use Rattle.hx_spill.specs.Values.{AreCountsOf};
ghost use Rattle.hx_work.specs.Work.{IsMapped};

use crate::refusal::WorkRefusal;
use hx_base::Row;
use hx_hist::{Hist, count_rows};
use hx_rows::read_rows;
use hx_spill::map_bytes;
use std::alloc::{AllocError, Global};

// The counts of rows by pixel of an order.
fn counts_of(alloc: Global, order: u8, rows: &[Row]) -> Result<Hist, AllocError>
    requires order { order ≤ 29 }
    requires good { All IsGood rows.now }
    ensures { IfOk result (λ hist. AreCountsOf order rows.now hist) }
{
    let hist = count_rows(alloc, order, rows)?;
    let _pairs = hist.pairs();
    Ok(hist)
}

/// The file of a map task: how many rows of an input each pixel of the highest order contains. The input's name ends in
/// `.csv` or `.parquet`. An input that can't be read as rows is refused by its first fault.
pub fn map_task(
    alloc: Global,
    name: &str,
    bytes: &[u8],
    highest: u8,
) -> Result<Vec<u8>, WorkRefusal>
    requires name { IsCsvName name.now ⊎ IsParquetName name.now }
    requires highest { highest ≤ 29 }
    ensures { IsMapped highest (rows_of name.now bytes.now) result }
{
    let rows = read_rows(alloc, name, bytes)?;
    let hist = counts_of(alloc, highest, &rows)?;
    Ok(map_bytes(alloc, &hist)?)
}
