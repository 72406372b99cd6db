ghost use Rattle.std.specs.Prelude.{◌≡◌, ◌≤◌, All, List, Ok, length};
ghost use Rattle.hx_base.specs.Columns.{columns_of_rows};
ghost use Rattle.hx_base.specs.Limits.{most_rows};
ghost use Rattle.hx_base.specs.Rows.{IsGood};
ghost use Rattle.hx_base.specs.declared.row.Row.{Row};
ghost use Rattle.hx_rows.specs.Parquet.{rows_of_columns};

use hx_base::rows_of_values;

/// The columns of good rows, of which there are no more than an input may have, have these rows.
pub fn rows_of_their_columns()
    ensures { (rows : List Row) → All IsGood rows → length rows ≤ most_rows →
        rows_of_columns (columns_of_rows rows) ≡ Ok rows }
{
    rows_of_values();
}
