ghost use Rattle.std.specs.Prelude.{◌≡◌, ◌++◌, ◌<◌, ◌≤◌, ◌^◌, min, length, map, OnOk, All};
ghost use Rattle.hx_base.specs.Columns.{value_in};
ghost use Rattle.hx_base.specs.declared.row.Row.{Row as RowRecord};
ghost use Rattle.hx_pqwrite.specs.Files.{page_rows, page_count, head_of, number_bytes, body, page, column_pages};

use hx_base::{Column, Row};
use hx_pqmeta::{DATA_PAGE, PLAIN_ENCODING, PageHead, RLE_ENCODING, write_page_header};
use std::alloc::{AllocError, Global};

// How many rows a page has; the last one may have fewer.
const PAGE_ROWS: usize = 65536;

/// Adds all pages of a column.
pub fn push_column(
    alloc: Global,
    bytes: &mut Vec<u8>,
    column: Column,
    rows: &[Row],
) -> Result<(), AllocError>
    requires { All (λ (row : RowRecord). row.hp < 2 ^ 63) rows.now }
    ensures { OnOk result (bytes.new.items ≡ bytes.old.items ++ column_pages (map (value_in column) rows.now)) }
{
    let mut rest = rows;
    for _ in 0..rows.len().div_ceil(PAGE_ROWS) {
        let (now, later) = rest.split_at(rest.len().min(PAGE_ROWS));
        push_page(alloc, bytes, column, now)?;
        rest = later;
    }
    Ok(())
}

// Adds a page of rows in a column.
fn push_page(
    alloc: Global,
    bytes: &mut Vec<u8>,
    column: Column,
    rows: &[Row],
) -> Result<(), AllocError>
    requires good { All (λ (row : RowRecord). row.hp < 2 ^ 63) rows.now }
    requires few { length rows.now ≤ page_rows }
    ensures { OnOk result (bytes.new.items ≡ bytes.old.items ++ page (map (value_in column) rows.now)) }
{
    let head = head_of(rows.len());
    let header = write_page_header(alloc, &head)?;
    bytes.extend_from_slice(&header)?;
    push_body(bytes, column, rows)?;
    Ok(())
}

// The head of a page of so many numbers.
fn head_of(count: usize) -> PageHead
    requires { count ≤ page_rows }
    ensures { result ≡ head_of count }
{
    let size = (count * 8) as i32;
    PageHead {
        kind: DATA_PAGE,
        plain_size: size,
        stored_size: size,
        values: count as i32,
        encoding: PLAIN_ENCODING,
        levels: Some(RLE_ENCODING),
        next: 0,
    }
}

// Adds the values of rows in a column, each in eight bytes.
fn push_body(bytes: &mut Vec<u8>, column: Column, rows: &[Row]) -> Result<(), AllocError>
    requires { All (λ (row : RowRecord). row.hp < 2 ^ 63) rows.now }
    ensures { OnOk result (bytes.new.items ≡ bytes.old.items ++ body (map (value_in column) rows.now)) }
{
    for row in rows {
        push_value(bytes, column, row)?;
    }
    Ok(())
}

// Adds one of them.
fn push_value(bytes: &mut Vec<u8>, column: Column, row: &Row) -> Result<(), AllocError>
    requires { row.now.hp < 2 ^ 63 }
    ensures { OnOk result (bytes.new.items ≡ bytes.old.items ++ number_bytes (value_in column row.now)) }
{
    bytes.extend_from_slice(&row.value(column).to_le_bytes())?;
    Ok(())
}
