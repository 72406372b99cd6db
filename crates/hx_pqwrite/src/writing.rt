ghost use Rattle.std.specs.Prelude.{◌≡◌, ◌++◌, ◌<◌, ◌≤◌, ◌^◌, [], ◌∷◌, Ok, length, map, All, OnOk, IfOk};
ghost use Rattle.hx_base.specs.Columns.{column_names, columns_of_rows, name_in, value_in};
ghost use Rattle.hx_base.specs.Limits.{most_rows};
ghost use Rattle.hx_base.specs.Rows.{IsGood};
ghost use Rattle.hx_base.specs.declared.row.Row.{Row as RowRecord};
ghost use Rattle.hx_pqread.specs.Laws.{HasColumns};
ghost use Rattle.hx_rows.specs.Parquet.{parquet_rows};
ghost use Rattle.hx_pqwrite.specs.Files.{column_pages, all_pages, chunk_of, chunks_of, columns_of, file_of, written_file};

use crate::footer::{chunk_of, footer_of};
use crate::laws::{written_rows_read_back, written_tables_read_back};
use crate::pages::push_column;
use crate::ranges::rows_fit;
use hx_base::{Column, Row};
use hx_pqmeta::{Chunk, MAGIC, write_footer};
use std::alloc::{AllocError, Global};

/// Writes rows as a Parquet file of their five columns, each REQUIRED INT64, in plain pages of 65536 rows without
/// compression, in one row group, and none where there are no rows. Positions are below 2^63, as those of good rows are.
///
/// The file has these columns, and good rows are read back as they were. Only want of memory is refused.
pub fn write(alloc: Global, rows: &[Row]) -> Result<Vec<u8>, AllocError>
    requires { All (λ (row : RowRecord). row.hp < 2 ^ 63) rows.now }
    ensures bytes { IfOk result (λ bytes. bytes.items ≡ written_file rows.now) }
    ensures columns { IfOk result (λ bytes. HasColumns bytes.items column_names (columns_of_rows rows.now)) }
    ensures rows { IfOk result (λ bytes. All IsGood rows.now → length rows.now ≤ most_rows → parquet_rows bytes.items ≡ Ok rows.now) }
{
    written_tables_read_back();
    written_rows_read_back();
    rows_fit(rows);
    let bytes = write_columns(alloc, &Column::all(), rows)?;
    Ok(bytes)
}

/// The like for a list of 1 to 64 columns.
pub(crate) fn write_columns(
    alloc: Global,
    columns: &[Column],
    rows: &[Row],
) -> Result<Vec<u8>, AllocError>
    requires rows { All (λ (row : RowRecord). row.hp < 2 ^ 63) rows.now }
    requires some { 1 ≤ length columns.now }
    requires few { length columns.now ≤ 64 }
    ensures { IfOk result (λ bytes. bytes.items ≡ file_of (map name_in columns.now) (length rows.now) (columns_of columns.now rows.now)) }
{
    let mut bytes = Vec::with_capacity(alloc, room(columns.len(), rows.len()))?;
    bytes.extend_from_slice(&MAGIC)?;
    let mut chunks = Vec::with_capacity(alloc, columns.len())?;
    push_columns(alloc, &mut bytes, &mut chunks, columns, rows)?;
    let footer = footer_of(alloc, bytes.len(), columns, rows.len(), chunks)?;
    let tail = write_footer(alloc, &footer)?;
    bytes.extend_from_slice(&tail)?;
    Ok(bytes)
}

// Room for the file of so many rows: eight bytes a value, the headers of pages, and the footer.
fn room(columns: usize, rows: usize) -> usize {
    let values = columns.saturating_mul(rows);
    values
        .saturating_mul(8)
        .saturating_add(values / 1024)
        .saturating_add(columns.saturating_mul(256))
        .saturating_add(256)
}

// Adds the pages of columns, and their chunks.
fn push_columns(
    alloc: Global,
    bytes: &mut Vec<u8>,
    chunks: &mut Vec<Chunk>,
    columns: &[Column],
    rows: &[Row],
) -> Result<(), AllocError>
    requires { All (λ (row : RowRecord). row.hp < 2 ^ 63) rows.now }
    ensures bytes { OnOk result (bytes.new.items ≡ bytes.old.items ++ all_pages (columns_of columns.now rows.now)) }
    ensures chunks { OnOk result (chunks.new.items ≡ chunks.old.items ++ chunks_of (length bytes.old.items) (length rows.now) (columns_of columns.now rows.now)) }
{
    for column in columns {
        push_chunk(alloc, bytes, chunks, *column, rows)?;
    }
    Ok(())
}

// The like for one column.
fn push_chunk(
    alloc: Global,
    bytes: &mut Vec<u8>,
    chunks: &mut Vec<Chunk>,
    column: Column,
    rows: &[Row],
) -> Result<(), AllocError>
    requires { All (λ (row : RowRecord). row.hp < 2 ^ 63) rows.now }
    ensures bytes { OnOk result (bytes.new.items ≡ bytes.old.items ++ column_pages (map (value_in column) rows.now)) }
    ensures chunks { OnOk result (chunks.new.items ≡ chunks.old.items ++ chunk_of (length bytes.old.items) (length rows.now) (length (column_pages (map (value_in column) rows.now))) ∷ []) }
{
    let place = bytes.len();
    push_column(alloc, bytes, column, rows)?;
    let size = bytes.len() - place;
    chunks.push(chunk_of(place, rows.len(), size))?;
    Ok(())
}
