ghost use Rattle.std.specs.Prelude.{◌≡◌, ◌⊎◌, ◌≤◌, IfOk, All, length};
ghost use Rattle.hx_base.specs.FileWords.{IsCsvName, IsParquetName};
ghost use Rattle.hx_base.specs.Limits.{most_rows};
ghost use Rattle.hx_base.specs.Rows.{IsGood};
ghost use Rattle.hx_rows.specs.Reading.{Reads, rows_of};

use crate::parquet::parquet_rows;
use crate::table::csv_rows;
use hx_base::{Row, is_parquet_name};
use std::alloc::{AllocError, AllocFailed, Global};

/// Why an input could not be read as rows.
#[derive(Clone, Copy, Debug, PartialEq, Eq)]
pub enum RowRefusal {
    Memory,
    /// The first fault: its row (from 1; 0 is the file as a whole) and its number.
    Bad { row: u64, why: u8 },
}

impl From<AllocError> for RowRefusal {
    ghost use Rattle.hx_rows.specs.declared.read.RowRefusal.TheVariants.{Memory};

    ghost from_gives = { λ _ refusal. refusal ≡ Memory };

    fn from(_error: AllocError) -> RowRefusal {
        RowRefusal::Memory
    }
}

impl<T: Drop> From<AllocFailed<T>> for RowRefusal {
    ghost use Rattle.hx_rows.specs.declared.read.RowRefusal.TheVariants.{Memory};

    ghost from_gives = { λ _ refusal. refusal ≡ Memory };

    fn from(_error: AllocFailed<T>) -> RowRefusal {
        RowRefusal::Memory
    }
}

/// The rows of an input, in its order, or its first fault. The end of its name tells its format: `.csv`, `.parquet`.
#[tactic(auto, unfolding(crate::specs::Reading::rows_of))]
pub fn read_rows(alloc: Global, name: &str, bytes: &[u8]) -> Result<Vec<Row>, RowRefusal>
    requires { IsCsvName name.now ⊎ IsParquetName name.now }
    ensures exact { Reads result (rows_of name.now bytes.now) }
    ensures good { IfOk result (λ rows. All IsGood rows.items) }
    // The greatest number that a row may have.
    ensures few { IfOk result (λ rows. length rows.items ≤ most_rows) }
{
    if is_parquet_name(name) {
        parquet_rows(alloc, bytes)
    } else {
        csv_rows(alloc, bytes)
    }
}
