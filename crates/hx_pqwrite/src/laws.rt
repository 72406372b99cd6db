ghost use Rattle.hx_pqwrite.specs.Tables.{ReadsTables, ReadsRows};

use hx_base::rows_of_values;
use hx_pqmeta::{footers_read_back, page_headers_read_back};
use hx_pqread::reading_is_standing;
use hx_rows::rows_of_their_columns;

/// The file of a table of 1 to 64 columns, whose names differ and whose numbers are i64, has these columns.
pub fn written_tables_read_back()
    ensures { ReadsTables }
{
    footers_read_back();
    page_headers_read_back();
}

/// The file of good rows is read as these rows.
pub fn written_rows_read_back()
    ensures { ReadsRows }
{
    written_tables_read_back();
    page_headers_read_back();
    reading_is_standing();
    rows_of_their_columns();
}
