ghost use Rattle.std.specs.Prelude.{◌<◌, ◌^◌, All};
ghost use Rattle.hx_base.specs.declared.row.Row.{Row as RowRecord};
ghost use Rattle.hx_pqwrite.specs.Tables.{RowFits};

use hx_base::{Column, Row};

/// Each number of the rows has room in eight bytes, since each is read as an i64. The loop has no effect, and none is
/// compiled for it.
pub fn rows_fit(rows: &[Row])
    requires { All (λ (row : RowRecord). row.hp < 2 ^ 63) rows.now }
    ensures { All RowFits rows.now }
{
    for row in rows {
        row_fits(row);
    }
}

fn row_fits(row: &Row)
    requires { row.now.hp < 2 ^ 63 }
    ensures { RowFits row.now }
{
    row.value(Column::Position);
    row.value(Column::Id);
    row.value(Column::X);
    row.value(Column::Y);
    row.value(Column::Z);
}
