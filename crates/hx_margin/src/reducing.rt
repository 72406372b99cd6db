//! The file of a margin reduce task: a partition's margin.
ghost use Rattle.std.specs.Prelude.{◌≡◌, ◌≤◌, All, IfOk, Ok, length};
ghost use Rattle.hx_base.specs.Limits.{most_rows};
ghost use Rattle.hx_base.specs.Rows.{IsGood, sorted_rows};
ghost use Rattle.hx_pqwrite.specs.Files.{written_file};
ghost use Rattle.hx_rows.specs.Parquet.{parquet_rows};

use hx_base::{Row, sort_rows};
use hx_pqwrite::write;
use std::alloc::{AllocError, Global};

// Rows in order, each as often as it came.
fn sorted(rows: Vec<Row>) -> Vec<Row>
    ensures { result.items ≡ sorted_rows rows.items }
{
    let mut rows = rows;
    sort_rows(&mut rows);
    rows
}

/// The Parquet file of the sorted rows, each as often as it came. The rows are what the partitions around a partition have
/// of its margin, one after another; then they are its margin.
///
/// # Errors
///
/// Want of memory.
pub fn margin_reduce(alloc: Global, rows: Vec<Row>) -> Result<Vec<u8>, AllocError>
    requires { All IsGood rows.items }
    ensures bytes { IfOk result (λ bytes. bytes.items ≡ written_file (sorted_rows rows.items)) }
    ensures rows { IfOk result (λ bytes. length rows.items ≤ most_rows → parquet_rows bytes.items ≡ Ok (sorted_rows rows.items)) }
{
    let rows = sorted(rows);
    write(alloc, &rows)
}
