ghost use Rattle.std.specs.Prelude.{◌≡◌};
ghost use Rattle.hx_rows.specs.Csv.{field, row_of_record, value_of};
ghost use Rattle.hx_rows.specs.Headers.{columns_in};

use crate::fault::Fault;
use crate::fields::Fields;
use crate::header::Header;
use crate::number::value_of;
use hx_base::{Row, row_of};

// The value of a record's field.
#[inline]
fn value_in<F: Fields>(line: &F, column: usize) -> Option<i64>
    ensures { result ≡ value_of (field (F.fields line.now) column) }
{
    value_of(line.at(column))
}

/// The row of a record, or the first of its faults.
#[inline]
#[tactic(auto, unfolding(crate::specs::Csv::row_of_record))]
pub(crate) fn row_of_record<F: Fields>(header: &Header, line: &F) -> Result<Row, Fault>
    ensures { result ≡ row_of_record (columns_in header.now) header.now.width (F.fields line.now) }
{
    if line.count() != header.width {
        return Err(Fault::Length);
    }
    let row = row_of(
        value_in(line, header.hp),
        value_in(line, header.id),
        value_in(line, header.x),
        value_in(line, header.y),
        value_in(line, header.z),
    )?;
    Ok(row)
}
