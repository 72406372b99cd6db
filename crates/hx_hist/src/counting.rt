//! From rows to the histogram of their pixels.
ghost use Rattle.std.specs.Prelude.{◌≡◌, ◌==◌, ◌+◌, ◌*◌, ◌^◌, ◌<◌, ◌≤◌, ℕ, All, if◌then◌else◌, IfOk, IsSorted, OnOk, length, replicate, slice_index, vec_len, count_by};
ghost use Rattle.std.specs.List.{sum_by};
ghost use Rattle.std.specs.Ordering.{nat_cmp};
ghost use Rattle.hx_base.specs.Pixels.{count_in, pixel_of};
ghost use Rattle.hx_base.specs.Rows.{IsGood};
ghost use Rattle.hx_hist.specs.Histograms.{count_at, total_of};

#[cfg(test)]
mod tests;

use crate::{Hist, Pair};
use hx_base::{Pixel, Row, pixels_of_order};
use std::alloc::{AllocError, Global};

/// So many zeros.
pub fn zeros(alloc: Global, count: usize) -> Result<Vec<u64>, AllocError>
    ensures { IfOk result (λ v. v.items ≡ replicate count 0) }
{
    vec![in alloc; 0u64; count]
}

// The pixels of rows, ascending, each as often as there are rows in it.
fn sorted_pixels(alloc: Global, order: u8, rows: &[Row]) -> Result<Vec<u64>, AllocError>
    requires order { order ≤ 29 }
    requires good { All IsGood rows.now }
    ensures counts { IfOk result (λ pixels. (p : ℕ) →
        count_by (λ pixel. pixel == p) pixels.items ≡ count_in (record { order = order; number = p }) rows.now) }
    ensures length { IfOk result (λ pixels. vec_len pixels ≡ length rows.now) }
    ensures range { IfOk result (λ pixels. All (λ pixel. pixel < 12 * 4 ^ order) pixels.items) }
    ensures sorted { IfOk result (λ pixels. IsSorted nat_cmp pixels.items) }
{
    let mut pixels = Vec::with_capacity(alloc, rows.len())?;
    for row in rows {
        pixels.push(Pixel::holding(order, row.hp).number)?;
    }
    pixels.sort_unstable();
    Ok(pixels)
}

/// Counts rows into a table that has a count for each pixel of an order.
pub fn count_into(table: &mut [u64], order: u8, rows: &[Row])
    requires order { order ≤ 29 }
    requires good { All IsGood rows.now }
    requires length { length table.old ≡ 12 * 4 ^ order }
    requires room { sum_by (λ n. n) table.old + length rows.now < 2 ^ 64 }
    ensures length { length table.new ≡ length table.old }
    ensures counts { (p : ℕ) → slice_index table.new p
        ≡ slice_index table.old p + count_in (record { order = order; number = p }) rows.now }
    ensures sum { sum_by (λ n. n) table.new ≡ sum_by (λ n. n) table.old + length rows.now }
{
    for row in rows {
        table[Pixel::holding(order, row.hp).number as usize] += 1;
    }
}

// Counts rows of a pixel behind all others.
#[inline]
fn count_behind(hist: &mut Hist, pixel: u64, count: u64) -> Result<(), AllocError>
    requires below { All (λ other. other.pixel < pixel) hist.old.pairs }
    requires some { 0 < count }
    requires pixel { pixel < 12 * 4 ^ hist.old.order }
    requires total { total_of hist.old.pairs + count < 2 ^ 64 }
    ensures order { hist.new.order ≡ hist.old.order }
    ensures below { OnOk result (All (λ other. other.pixel < pixel + 1) hist.new.pairs) }
    ensures counts { OnOk result ((p : ℕ) → count_at p hist.new.pairs ≡ count_at p hist.old.pairs + (if p == pixel then count else 0)) }
    ensures total { OnOk result (total_of hist.new.pairs ≡ total_of hist.old.pairs + count) }
{
    hist.push(Pair { pixel, count })
}

/// The histogram of a table that has a count for each pixel of an order.
pub fn hist_of_table(alloc: Global, order: u8, table: &[u64]) -> Result<Hist, AllocError>
    requires order { order ≤ 29 }
    requires length { length table.now ≡ 12 * 4 ^ order }
    requires sum { sum_by (λ n. n) table.now < 2 ^ 64 }
    ensures order { IfOk result (λ hist. hist.order ≡ order) }
    ensures counts { IfOk result (λ hist. (p : ℕ) → count_at p hist.pairs ≡ slice_index table.now p) }
    ensures total { IfOk result (λ hist. total_of hist.pairs ≡ sum_by (λ n. n) table.now) }
{
    let mut hist = Hist::new(alloc, order);
    for (pixel, count) in table.iter().enumerate() {
        if *count > 0 {
            count_behind(&mut hist, pixel as u64, *count)?;
        }
    }
    Ok(hist)
}

// The histogram of rows by way of a table.
fn count_by_table(alloc: Global, order: u8, rows: &[Row]) -> Result<Hist, AllocError>
    requires order { order ≤ 29 }
    requires good { All IsGood rows.now }
    ensures order { IfOk result (λ hist. hist.order ≡ order) }
    ensures counts { IfOk result (λ hist. (p : ℕ) →
        count_at p hist.pairs ≡ count_in (record { order = order; number = p }) rows.now) }
    ensures total { IfOk result (λ hist. total_of hist.pairs ≡ length rows.now) }
{
    let mut table = zeros(alloc, pixels_of_order(order) as usize)?;
    count_into(&mut table, order, rows);
    hist_of_table(alloc, order, &table)
}

// The histogram of rows by way of their sorted pixels.
fn count_sorted(alloc: Global, order: u8, rows: &[Row]) -> Result<Hist, AllocError>
    requires order { order ≤ 29 }
    requires good { All IsGood rows.now }
    ensures order { IfOk result (λ hist. hist.order ≡ order) }
    ensures counts { IfOk result (λ hist. (p : ℕ) →
        count_at p hist.pairs ≡ count_in (record { order = order; number = p }) rows.now) }
    ensures total { IfOk result (λ hist. total_of hist.pairs ≡ length rows.now) }
{
    let pixels = sorted_pixels(alloc, order, rows)?;
    let mut hist = Hist::with_capacity(alloc, order, rows.len())?;
    for pixel in &pixels {
        hist.add(*pixel, 1)?;
    }
    Ok(hist)
}

// A table has at most so many pixels a row.
const PIXELS_A_ROW: u64 = 8;

/// The counts of rows by pixel of an order, by way of a table where it isn't too large for the rows.
pub fn count_rows(alloc: Global, order: u8, rows: &[Row]) -> Result<Hist, AllocError>
    requires order { order ≤ 29 }
    requires good { All IsGood rows.now }
    ensures order { IfOk result (λ hist. hist.order ≡ order) }
    ensures counts { IfOk result (λ hist. (p : ℕ) →
        count_at p hist.pairs ≡ count_in (record { order = order; number = p }) rows.now) }
    ensures total { IfOk result (λ hist. total_of hist.pairs ≡ length rows.now) }
{
    if pixels_of_order(order) / PIXELS_A_ROW <= rows.len() as u64 {
        return count_by_table(alloc, order, rows);
    }
    count_sorted(alloc, order, rows)
}
