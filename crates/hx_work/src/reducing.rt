//! The reduce task: the rows that were gathered for a partition become its file.
ghost use Rattle.std.specs.Prelude.{◌≡◌, All, IfOk};
ghost use Rattle.hx_base.specs.Rows.{IsGood, sorted_rows};
ghost use Rattle.hx_pqwrite.specs.Files.{written_file};
ghost use Rattle.hx_work.specs.Work.{IsReduced};

use crate::refusal::WorkRefusal;
use crate::sorting::merged;
use hx_base::Row;
use hx_pqwrite::write;
use std::alloc::Global;

/// The file of a reduce task: the good rows of a partition, gathered from all inputs' split files, sorted, each as often
/// as it came. Only want of memory is refused.
pub fn reduce_task(alloc: Global, rows: Vec<Row>) -> Result<Vec<u8>, WorkRefusal>
    requires { All IsGood rows.items }
    ensures value { IsReduced rows.items result }
    ensures bytes { IfOk result (λ bytes. bytes.items ≡ written_file (sorted_rows rows.items)) }
{
    let sorted = merged(rows)?;
    Ok(write(alloc, &sorted)?)
}
