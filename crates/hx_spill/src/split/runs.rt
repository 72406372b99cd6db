//! The entries of rows that are sorted by partition: one for each run of a partition's rows.
ghost use Rattle.std.specs.Prelude.{◌≡◌, ◌≢◌, ◌<◌, ◌≤◌, ◌++◌, ◌^◌, ℕ, All, IfOk, IsSorted, OnOk, length, slice_index_or};
ghost use Rattle.std.specs.List.{flat_map};
ghost use Rattle.hx_spill.specs.Splits.{AreEntries, bytes_of_entry, placed_cmp};
ghost use Rattle.hx_spill.specs.declared.split.Placed.{Placed};

use super::Placed;
use super::head::{ENTRIES_PLACE, ENTRY_WIDTH, Entry, ROW_WIDTH};
use crate::items::push;
use crate::writing::{push_u32, push_u64};
use std::alloc::{AllocError, Global};

/// How many bytes a file of so many entries and rows has, where that many can be had.
pub fn file_size(entries: usize, rows: usize) -> usize {
    let entries = entries.saturating_mul(ENTRY_WIDTH as usize);
    let rows = rows.saturating_mul(ROW_WIDTH as usize);
    rows.saturating_add(entries)
        .saturating_add(ENTRIES_PLACE as usize)
}

// The end of the run of a part's rows.
fn end_of_run(rows: &[Placed], first: usize) -> usize
    requires { first < length rows.now }
    ensures some { first < result }
    ensures within { result ≤ length rows.now }
    ensures same { (k : ℕ) (d : Placed) → first ≤ k → k < result →
        (slice_index_or rows.now k d).part ≡ (slice_index_or rows.now first d).part }
    ensures other { (d : Placed) → result < length rows.now →
        (slice_index_or rows.now result d).part ≢ (slice_index_or rows.now first d).part }
{
    let part = rows[first].part;
    let mut end = first + 1;
    while end < rows.len() && rows[end].part == part {
        end += 1;
    }
    end
}

/// The entries of rows that are sorted by part.
pub fn entries_of(alloc: Global, rows: &[Placed]) -> Result<Vec<Entry>, AllocError>
    requires { IsSorted placed_cmp rows.now }
    ensures { IfOk result (λ entries. AreEntries entries.items rows.now) }
{
    let mut entries = Vec::new(alloc);
    let mut first = 0;
    while first < rows.len() {
        let end = end_of_run(rows, first);
        let entry = Entry {
            part: rows[first].part,
            first: first as u64,
            rows: (end - first) as u64,
        };
        push(&mut entries, entry)?;
        first = end;
    }
    Ok(entries)
}

#[inline]
fn push_entry(bytes: &mut Vec<u8>, entry: Entry) -> Result<(), AllocError>
    ensures bytes { OnOk result (bytes.new.items ≡ bytes.old.items ++ bytes_of_entry entry) }
    ensures fits { entry.part < 2 ^ 32 }
{
    push_u32(bytes, entry.part)?;
    push_u64(bytes, entry.first)?;
    push_u64(bytes, entry.rows)
}

/// The bytes of entries.
pub fn push_entries(bytes: &mut Vec<u8>, entries: &[Entry]) -> Result<(), AllocError>
    ensures bytes { OnOk result (bytes.new.items ≡ bytes.old.items ++ flat_map bytes_of_entry entries.now) }
    ensures fit { OnOk result (All (λ entry. entry.part < 2 ^ 32) entries.now) }
{
    for entry in entries {
        push_entry(bytes, *entry)?;
    }
    Ok(())
}
