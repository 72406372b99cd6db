//! The rows of a split file, part by part.
ghost use Rattle.std.specs.Prelude.{◌≡◌, ◌&&◌, ◌+◌, ◌*◌, ◌≤◌, ◌++◌, All, IsSorted, IfOk, List, Ok, OnOk, drop, length, true};
ghost use Rattle.std.specs.Int.{w32, w64, cast_signed};
ghost use Rattle.hx_spill.specs.declared.split.head.Entry.{Entry};
ghost use Rattle.byteorder.specs.Endian.{little_number};
ghost use Rattle.hx_base.specs.Rows.{IsGood, row_cmp};
ghost use Rattle.hx_spill.specs.Items.{Gives, each};
ghost use Rattle.hx_spill.specs.Splits.{IsHead, RowFits, bytes_of_row, bytes_of_rows, head_in, is_good, looked_at, may_follow, place_of_entry, place_of_row, rows_looked_at, rows_of, row_at, row_behind, row_from};

use super::Placed;
use super::head::{ENTRIES_PLACE, ENTRY_WIDTH, ROW_WIDTH, entry_at, place_of_entry};
use crate::items::{from_place, kept, push};
use byteorder::{ByteOrder, LittleEndian};
use hx_base::{Row, SpillRefusal, compare_rows};
use std::alloc::{AllocError, Global};

#[inline]
fn u64_from(bytes: &[u8]) -> u64
    requires { 8 ≤ length bytes.now }
    ensures { result ≡ little_number 8 bytes.now }
{
    LittleEndian::read_u64(bytes)
}

#[inline]
fn i64_at(bytes: &[u8], at: usize) -> i64
    requires { at + 8 ≤ length bytes.now }
    ensures { result ≡ cast_signed w64 (little_number 8 (drop at bytes.now)) }
{
    LittleEndian::read_i64(from_place(bytes, at))
}

#[inline]
fn i32_at(bytes: &[u8], at: usize) -> i32
    requires { at + 4 ≤ length bytes.now }
    ensures { result ≡ cast_signed w32 (little_number 4 (drop at bytes.now)) }
{
    LittleEndian::read_i32(from_place(bytes, at))
}

// The row that bytes begin with.
#[inline]
fn row_from(bytes: &[u8]) -> Row
    requires { 28 ≤ length bytes.now }
    ensures { result ≡ row_from bytes.now }
{
    let hp = u64_from(bytes);
    let id = i64_at(bytes, 8);
    let x = i32_at(bytes, 16);
    let y = i32_at(bytes, 20);
    let z = i32_at(bytes, 24);
    Row { hp, id, x, y, z }
}

#[inline]
fn is_good(row: &Row) -> bool
    ensures { result ≡ is_good row.now }
{
    row.is_good()
}

// Whether a row isn't below the last one.
#[inline]
fn may_follow(last: Option<Row>, row: &Row) -> bool
    ensures { result ≡ may_follow last row.now }
{
    match last {
        Some(last) => compare_rows(&last, row).is_le(),
        None => true,
    }
}

#[inline]
fn may_come(last: Option<Row>, row: &Row) -> bool
    ensures { result ≡ (is_good row.now && may_follow last row.now) }
{
    is_good(row) && may_follow(last, row)
}

// A good row at a place that isn't below the last one.
#[inline]
#[tactic(auto, unfolding(crate::specs::Splits::row_at))]
fn row_at(bytes: &[u8], at: usize, last: Option<Row>) -> Result<Row, SpillRefusal>
    requires { at ≤ length bytes.now }
    ensures value { result ≡ row_at (λ row. may_follow last row) at bytes.now }
    ensures follows { IfOk result (λ row. may_follow last row ≡ true) }
    ensures there { OnOk result (at + 28 ≤ length bytes.now) }
{
    if bytes.len() - at < ROW_WIDTH as usize {
        return Err(SpillRefusal::Damaged { place: at as u64 });
    }
    let row = row_from(from_place(bytes, at));
    kept(may_come(last, &row), row, at)
}

/// So many rows of a part, from a place on.
pub fn read_slice(
    alloc: Global,
    bytes: &[u8],
    start: usize,
    rows: u64,
) -> Result<Vec<Row>, SpillRefusal>
    requires { start ≤ length bytes.now }
    ensures value { Gives (λ found. found.items) result (each rows (row_behind start bytes.now)) }
    ensures good { IfOk result (λ found. All IsGood found.items) }
    ensures sorted { IfOk result (λ found. IsSorted row_cmp found.items) }
{
    let room = rows.min(bytes.len() as u64 / ROW_WIDTH) as usize;
    let mut found = Vec::with_capacity(alloc, room)?;
    let mut last = None;
    let mut at = start;
    for index in 0..rows {
        let row = row_at(bytes, at, last)?;
        push(&mut found, row)?;
        last = Some(row);
        at += ROW_WIDTH as usize;
    }
    Ok(found)
}

// Whether so many rows of a part stand from a place on.
fn check_slice(bytes: &[u8], start: usize, rows: u64) -> Result<(), SpillRefusal>
    requires { start ≤ length bytes.now }
    ensures value { result ≡ looked_at (each rows (row_behind start bytes.now)) }
    ensures there { OnOk result (start + 28 * rows ≤ length bytes.now) }
{
    let mut last = None;
    let mut at = start;
    for index in 0..rows {
        let row = row_at(bytes, at, last)?;
        last = Some(row);
        at += ROW_WIDTH as usize;
    }
    Ok(())
}

/// Whether the rows of all parts stand behind a head of n entries.
pub fn check_slices(bytes: &[u8], n: u64) -> Result<(), SpillRefusal>
    requires { IsHead n bytes.now }
    ensures value { result ≡ rows_looked_at bytes.now }
    ensures within { OnOk result ((entries : List Entry) → head_in bytes.now ≡ Ok entries →
        place_of_row n (rows_of entries) ≤ length bytes.now) }
{
    let mut row_place = place_of_entry(n) as usize;
    let mut at = ENTRIES_PLACE as usize;
    let mut least = 0;
    let mut before = 0;
    for index in 0..n {
        let entry = entry_at(bytes, n, at, least, before)?;
        check_slice(bytes, row_place, entry.rows)?;
        row_place += (ROW_WIDTH * entry.rows) as usize;
        at += ENTRY_WIDTH as usize;
        least = u64::from(entry.part) + 1;
        before += entry.rows;
    }
    Ok(())
}

#[inline]
fn bytes_of_row(row: Row) -> [u8; 28]
    ensures { result ≡ bytes_of_row row }
{
    let hp = row.hp.to_le_bytes();
    let id = row.id.to_le_bytes();
    let x = row.x.to_le_bytes();
    let y = row.y.to_le_bytes();
    let z = row.z.to_le_bytes();
    [
        hp[0], hp[1], hp[2], hp[3], hp[4], hp[5], hp[6], hp[7], id[0], id[1], id[2], id[3], id[4],
        id[5], id[6], id[7], x[0], x[1], x[2], x[3], y[0], y[1], y[2], y[3], z[0], z[1], z[2],
        z[3],
    ]
}

// A row's bytes, which have room for its numbers.
#[inline]
fn push_row(bytes: &mut Vec<u8>, row: Row) -> Result<(), AllocError>
    ensures bytes { OnOk result (bytes.new.items ≡ bytes.old.items ++ bytes_of_row row) }
    ensures fits { RowFits row }
{
    bytes.extend_from_slice(&bytes_of_row(row))
}

/// The bytes of rows.
pub fn push_rows(bytes: &mut Vec<u8>, rows: &[Placed]) -> Result<(), AllocError>
    ensures bytes { OnOk result (bytes.new.items ≡ bytes.old.items ++ bytes_of_rows rows.now) }
    ensures fit { OnOk result (All (λ placed. RowFits placed.row) rows.now) }
{
    for placed in rows {
        push_row(bytes, placed.row)?;
    }
    Ok(())
}
