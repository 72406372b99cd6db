ghost use Rattle.std.specs.Prelude.{◌≡◌, ◌∷◌, ◌++◌, [], IfErr, OnOk, Ok};
ghost use Rattle.hx_base.specs.declared.row.Row.{Row};
ghost use Rattle.hx_rows.specs.Reading.{Tells};
ghost use Rattle.hx_rows.specs.Rows.{fault_number, numbered};

use crate::fault::Fault;
use crate::read::RowRefusal;
use hx_base::{MOST_ROWS, Row};

/// The refusal of a fault in a row.
pub(crate) fn refused(row: u64, fault: Fault) -> RowRefusal
    ensures { result ≡ RowRefusal.Bad row (fault_number fault) }
{
    RowRefusal::Bad {
        row,
        why: fault.number(),
    }
}

/// Puts a row behind others, or tells its fault, by the row's number, which may be too high.
#[inline]
pub(crate) fn push_row(
    rows: &mut Vec<Row>,
    number: u64,
    row: Result<Row, Fault>,
) -> Result<(), RowRefusal>
    ensures added { OnOk result ((added : Row) × (numbered number row ≡ Ok added) × (rows.new.items ≡ rows.old.items ++ added ∷ [])) }
    ensures refused { IfErr result (λ refusal. Tells refusal (numbered number row)) }
{
    if number > MOST_ROWS {
        return Err(refused(number, Fault::RowNumber));
    }
    match row {
        Ok(row) => {
            rows.push(row)?;
            Ok(())
        }
        Err(fault) => Err(refused(number, fault)),
    }
}
