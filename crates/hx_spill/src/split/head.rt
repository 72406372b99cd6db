//! The head of a split file: for each part how many rows are before its own, and how many these are.
ghost use Rattle.std.specs.Prelude.{◌≡◌, ◌==◌, ◌&&◌, ◌+◌, ◌*◌, ◌^◌, ◌<◌, ◌≤◌, IfOk, IfSome, OnOk, Some, None, length, nat_le, nat_lt, if◌then◌else◌};
ghost use Rattle.std.specs.Option.{option_or};
ghost use Rattle.hx_spill.specs.Splits.{HasEntries, IsHead, entry_at, place_of_entry, place_of_row, search_entries, search_head};

use crate::items::{kept, mark, u32_at, u64_at};
use hx_base::SpillRefusal;

pub const MARK: [u8; 4] = *b"HXS1";

pub const ENTRIES_PLACE: u64 = 12;

pub const ENTRY_WIDTH: u64 = 20;

pub const ROW_WIDTH: u64 = 28;

/// A part of a split file: its number, how many rows are before its rows, and how many these are.
#[derive(Clone, Copy, Debug, PartialEq, Eq)]
pub struct Entry {
    pub part: u32,
    pub first: u64,
    pub rows: u64,
}

/// What a head tells: how many entries and rows there are, and one part's entry.
#[derive(Clone, Copy, Debug, PartialEq, Eq)]
pub struct Head {
    pub entries: u64,
    pub rows: u64,
    pub found: Option<Entry>,
}

/// The place of an entry.
pub fn place_of_entry(index: u64) -> u64
    requires { place_of_entry index < 2 ^ 64 }
    ensures { result ≡ place_of_entry index }
{
    ENTRIES_PLACE + ENTRY_WIDTH * index
}

/// The place of a row behind so many, in a file of n entries.
pub fn place_of_row(n: u64, before: u64) -> u64
    requires { place_of_row n before < 2 ^ 64 }
    ensures { result ≡ place_of_row n before }
{
    place_of_entry(n) + ROW_WIDTH * before
}

// Whether so many rows end below 2^64 bytes.
#[inline]
fn rows_fit(n: u64, rows: u128) -> bool
    requires { rows < 2 ^ 66 }
    ensures { result ≡ nat_lt (place_of_row n rows) (2 ^ 64) }
{
    let head = u128::from(ENTRIES_PLACE) + u128::from(ENTRY_WIDTH) * u128::from(n);
    head + u128::from(ROW_WIDTH) * rows < 1 << 64
}

#[inline]
fn are_rows(n: u64, before: u64, rows: u64) -> bool
    ensures { result ≡ (nat_lt 0 rows && nat_lt (place_of_row n (before + rows)) (2 ^ 64)) }
{
    0 < rows && rows_fit(n, u128::from(before) + u128::from(rows))
}

/// An entry at a place, whose part is not below the least, behind some rows.
#[inline]
#[tactic(auto, unfolding(crate::specs::Splits::entry_at))]
pub fn entry_at(
    bytes: &[u8],
    n: u64,
    at: usize,
    least: u64,
    before: u64,
) -> Result<Entry, SpillRefusal>
    requires within { at ≤ length bytes.now }
    ensures value { result ≡ entry_at (λ part. nat_le least part) n before at bytes.now }
    ensures there { OnOk result (at + 20 ≤ length bytes.now) }
    ensures least { IfOk result (λ entry. least ≤ entry.part) }
    ensures first { IfOk result (λ entry. entry.first ≡ before) }
    ensures some { IfOk result (λ entry. 0 < entry.rows) }
    ensures fits { IfOk result (λ entry. place_of_row n (before + entry.rows) < 2 ^ 64) }
{
    let part = u32_at(bytes, at)?;
    let part = kept(least <= u64::from(part), part, at)?;
    let first = u64_at(bytes, at + 4)?;
    let first = kept(first == before, first, at + 4)?;
    let rows = u64_at(bytes, at + 12)?;
    let rows = kept(are_rows(n, before, rows), rows, at + 12)?;
    Ok(Entry { part, first, rows })
}

// The first entry of a part, of those before and one more.
#[inline]
fn first_of(part: u32, found: Option<Entry>, entry: Entry) -> Option<Entry>
    ensures { result ≡ option_or found (if entry.part == part then Some entry else None) }
{
    match found {
        None if entry.part == part => Some(entry),
        _ => found,
    }
}

fn read_entries(bytes: &[u8], n: u64, part: u32) -> Result<Head, SpillRefusal>
    requires { 12 ≤ length bytes.now }
    ensures value { result ≡ search_entries part n bytes.now }
    ensures entries { IfOk result (λ head. head.entries ≡ n) }
    ensures read { OnOk result (HasEntries n bytes.now) }
    ensures fits { IfOk result (λ head. place_of_row head.entries head.rows < 2 ^ 64) }
    ensures found { IfOk result (λ head. IfSome head.found (λ entry. entry.first + entry.rows ≤ head.rows)) }
{
    let mut head = Head {
        entries: n,
        rows: 0,
        found: None,
    };
    let mut least = 0;
    let mut at = ENTRIES_PLACE as usize;
    for index in 0..n {
        let entry = entry_at(bytes, n, at, least, head.rows)?;
        least = u64::from(entry.part) + 1;
        head.rows += entry.rows;
        head.found = first_of(part, head.found, entry);
        at += ENTRY_WIDTH as usize;
    }
    Ok(head)
}

/// What the head of a split file tells of it and of one part.
#[tactic(auto, unfolding(crate::specs::Splits::head_in))]
pub fn read_head(bytes: &[u8], part: u32) -> Result<Head, SpillRefusal>
    ensures value { result ≡ search_head part bytes.now }
    ensures within { IfOk result (λ head. place_of_entry head.entries ≤ length bytes.now) }
    ensures head { IfOk result (λ head. IsHead head.entries bytes.now) }
    ensures fits { IfOk result (λ head. place_of_row head.entries head.rows < 2 ^ 64) }
    ensures found { IfOk result (λ head. IfSome head.found (λ entry. entry.first + entry.rows ≤ head.rows)) }
{
    mark(&MARK, bytes)?;
    let n = u64_at(bytes, 4)?;
    let head = read_entries(bytes, n, part)?;
    Ok(head)
}
