//! Rows in order.
ghost use Rattle.std.specs.Prelude.{◌≡◌, [], ◌<◌, ◌^◌, All, IfOk, IsSorted, map};
ghost use Rattle.hx_base.specs.Rows.{IsGood, row_cmp, sorted_rows};
ghost use Rattle.hx_base.specs.declared.row.Row.{Row as RowRecord};
ghost use Rattle.hx_work.specs.Sorting.{AreByPixel};

use hx_base::{Pixel, Row, sort_rows};
use std::alloc::{AllocError, Global};

// How many pixels of order 4 there are.
const PIXELS: usize = 3072;

// Fewer rows than these are sorted in one go.
const MANY: usize = 4096;

// A list without rows for each pixel of order 4, with room for so many.
fn no_rows(alloc: Global, room: usize) -> Result<Vec<Vec<Row>>, AllocError>
    ensures { IfOk result (λ lists. AreByPixel [] (map (λ list. list.items) lists.items)) }
{
    let mut lists = Vec::with_capacity(alloc, PIXELS)?;
    for _ in 0..PIXELS {
        lists.push(Vec::with_capacity(alloc, room)?)?;
    }
    Ok(lists)
}

// The rows of each pixel of order 4. There is room for half as many again as there are where they lie evenly.
fn by_pixel(alloc: Global, rows: &[Row]) -> Result<Vec<Vec<Row>>, AllocError>
    requires { All IsGood rows.now }
    ensures { IfOk result (λ lists. AreByPixel rows.now (map (λ list. list.items) lists.items)) }
{
    let room = rows.len() / PIXELS * 3 / 2;
    let mut lists = no_rows(alloc, room)?;
    for row in rows {
        let pixel = Pixel::holding(4, row.hp);
        lists[pixel.number as usize].push(*row)?;
    }
    Ok(lists)
}

// Rows in ascending order, each as often as it was there.
fn in_order(mut rows: Vec<Row>) -> Vec<Row>
    ensures { result.items ≡ sorted_rows rows.items }
{
    sort_rows(&mut rows);
    rows
}

// Rows in ascending order, sorted in each pixel of order 4 by themselves.
fn sorted_by_pixel(alloc: Global, rows: &[Row]) -> Result<Vec<Row>, AllocError>
    requires { All IsGood rows.now }
    ensures { IfOk result (λ sorted. sorted.items ≡ sorted_rows rows.now) }
{
    let mut sorted = Vec::with_capacity(alloc, rows.len())?;
    for list in by_pixel(alloc, rows)? {
        sorted.extend_from_slice(&in_order(list))?;
    }
    Ok(sorted)
}

// Good rows in ascending order. Many that don't ascend are told by their pixel of order 4 first, so that what is sorted
// is short.
fn all_in_order(alloc: Global, rows: Vec<Row>) -> Result<Vec<Row>, AllocError>
    requires { All IsGood rows.items }
    ensures { IfOk result (λ sorted. sorted.items ≡ sorted_rows rows.items) }
{
    if rows.len() < MANY || rows.is_sorted() {
        return Ok(in_order(rows));
    }
    sorted_by_pixel(alloc, &rows)
}

/// Good rows in ascending order, each as often as it was there.
pub fn sorted(alloc: Global, rows: Vec<Row>) -> Result<Vec<Row>, AllocError>
    requires { All IsGood rows.items }
    ensures rows { IfOk result (λ sorted. sorted.items ≡ sorted_rows rows.items) }
    ensures sorted { IfOk result (λ sorted. IsSorted row_cmp sorted.items) }
    ensures good { IfOk result (λ sorted. All IsGood sorted.items) }
{
    all_in_order(alloc, rows)
}

// Rows in ascending order, by merges of the runs in which they ascend.
fn runs_in_order(mut rows: Vec<Row>) -> Result<Vec<Row>, AllocError>
    ensures { IfOk result (λ merged. merged.items ≡ sorted_rows rows.items) }
{
    rows.sort()?;
    Ok(rows)
}

/// The same for rows that come as a few lists, each of which ascends: these are merged.
pub fn merged(rows: Vec<Row>) -> Result<Vec<Row>, AllocError>
    requires { All IsGood rows.items }
    ensures rows { IfOk result (λ merged. merged.items ≡ sorted_rows rows.items) }
    ensures good { IfOk result (λ merged. All IsGood merged.items) }
    ensures positions { IfOk result (λ merged. All (λ (row : RowRecord). row.hp < 2 ^ 63) merged.items) }
{
    runs_in_order(rows)
}
