//! The file of a split or margin split task: rows by the partitions where they go.
ghost use Rattle.std.specs.Prelude.{◌≡◌, ◌+◌, ◌*◌, ◌^◌, ◌<◌, All, IfOk, IfSome, IsSorted, List, Ok, length};
ghost use Rattle.hx_spill.specs.Alone.{IsBelow, head_width, refused_at, rows_from};
ghost use Rattle.hx_spill.specs.Items.{Gives};
ghost use Rattle.hx_spill.specs.Splits.{placed_cmp, row_width, rows_in_head, slice_place, slice_read, split_in};
ghost use Rattle.hx_base.specs.Rows.{IsGood, row_cmp};
ghost use Rattle.hx_spill.specs.declared.split.Placed.{Placed};

mod head;
mod rows;
mod runs;

use crate::items::{ended, mark, u64_at};
use crate::writing::push_u64;
use head::{ENTRIES_PLACE, ENTRY_WIDTH, Head, MARK, place_of_entry, place_of_row, read_head};
use hx_base::{Row, SpillRefusal};
use rows::{check_slices, push_rows, read_slice};
use runs::{entries_of, file_size, push_entries};
use std::alloc::{AllocError, Global};

/// A row, and the number of the partition where it goes. They are ordered by partition, then as rows are.
#[derive(Clone, Copy, Debug, PartialEq, Eq, PartialOrd, Ord)]
pub struct Placed {
    pub part: u32,
    pub row: Row,
}

/// Where a partition's rows stand in a file: the place of the first, in bytes, and how many there are.
#[derive(Clone, Copy, Debug, PartialEq, Eq)]
pub struct SlicePlace {
    pub at: u64,
    pub rows: u64,
}

/// The file of good rows that are sorted by partition and row. It reads back as them.
pub fn split_bytes(alloc: Global, rows: &[Placed]) -> Result<Vec<u8>, AllocError>
    requires sorted { IsSorted placed_cmp rows.now }
    requires good { All (λ placed. IsGood placed.row) rows.now }
    ensures reads_back { IfOk result (λ bytes. split_in bytes.items ≡ Ok rows.now) }
{
    let entries = entries_of(alloc, rows)?;
    let size = file_size(entries.len(), rows.len());
    let mut bytes = Vec::with_capacity(alloc, size)?;
    bytes.extend_from_slice(&MARK)?;
    push_u64(&mut bytes, entries.len() as u64)?;
    push_entries(&mut bytes, &entries)?;
    push_rows(&mut bytes, rows)?;
    Ok(bytes)
}

/// The rows of a partition, sorted. All rows are looked at: the file is damaged where it isn't a mark, a number of
/// entries and these, by ascending parts, and the good rows that they tell, sorted in each part.
#[tactic(auto, unfolding(crate::specs::Splits::split_in))]
pub fn slice_of(alloc: Global, bytes: &[u8], part: u32) -> Result<Vec<Row>, SpillRefusal>
    ensures value { Gives (λ rows. rows.items) result (slice_read part bytes.now) }
    ensures good { IfOk result (λ rows. All IsGood rows.items) }
    ensures sorted { IfOk result (λ rows. IsSorted row_cmp rows.items) }
{
    let Head {
        entries,
        rows,
        found,
    } = read_head(bytes, part)?;
    check_slices(bytes, entries)?;
    ended(bytes, place_of_row(entries, rows))?;
    match found {
        Some(entry) => {
            let start = place_of_row(entries, entry.first);
            read_slice(alloc, bytes, start as usize, entry.rows)
        }
        None => Ok(Vec::new(alloc)),
    }
}

/// Where a partition's rows stand, by the head of the file alone; None exactly where no entry has the partition. It is
/// damaged where the bytes are cut short within the head, break one of its rules or go on behind its last entry. It
/// takes no memory.
#[tactic(auto, unfolding(crate::specs::Splits::slice_place))]
pub fn find_slice(head: &[u8], part: u32) -> Result<Option<SlicePlace>, SpillRefusal>
    ensures place { result ≡ slice_place part head.now }
    ensures fits { IfOk result (λ found. IfSome found (λ place. place.at + row_width * place.rows < 2 ^ 64)) }
{
    let Head { entries, found, .. } = read_head(head, part)?;
    ended(head, place_of_entry(entries))?;
    match found {
        Some(entry) => Ok(Some(SlicePlace {
            at: place_of_row(entries, entry.first),
            rows: entry.rows,
        })),
        None => Ok(None),
    }
}

#[tactic(auto, unfolding(crate::specs::Splits::rows_in_head))]
fn rows_told(bytes: &[u8]) -> Result<u64, SpillRefusal>
    ensures { result ≡ rows_in_head bytes.now }
{
    let head = read_head(bytes, 0)?;
    Ok(head.rows)
}

/// How many rows a split file has, as its head tells. It is damaged where its head is.
pub fn rows_in_split(bytes: &[u8]) -> Result<u64, SpillRefusal>
    ensures head { result ≡ rows_in_head bytes.now }
    ensures whole { (placed : List Placed) → split_in bytes.now ≡ Ok placed → result ≡ Ok (length placed) }
{
    rows_told(bytes)
}

/// How many bytes the head of a split file takes, by the file's first twelve bytes; 2^64 - 1 where these tell more. They
/// are damaged where they are cut short or aren't a split file's.
#[tactic(auto, unfolding(crate::specs::Alone::head_width))]
pub fn head_width(front: &[u8]) -> Result<u64, SpillRefusal>
    ensures { result ≡ head_width front.now }
{
    mark(&MARK, front)?;
    let n = u64_at(front, 4)?;
    Ok(ENTRIES_PLACE.saturating_add(ENTRY_WIDTH.saturating_mul(n)))
}

// A refusal of bytes that begin at a place of a file.
fn refused_at(place: SlicePlace, refused: SpillRefusal) -> SpillRefusal
    requires fits { place.at + row_width * place.rows < 2 ^ 64 }
    requires below { IsBelow (row_width * place.rows) refused }
    ensures { result ≡ refused_at place.at refused }
{
    match refused {
        SpillRefusal::Damaged { place: behind } => SpillRefusal::Damaged {
            place: place.at + behind,
        },
        SpillRefusal::Memory => SpillRefusal::Memory,
    }
}

/// The rows of a part, sorted, by the place where they stand in a file and the file's bytes from there on. These are
/// damaged at the first row, by its place in the file, that is cut short, isn't good or is below the one before it.
pub fn rows_of_slice(
    alloc: Global,
    place: SlicePlace,
    bytes: &[u8],
) -> Result<Vec<Row>, SpillRefusal>
    requires { place.at + row_width * place.rows < 2 ^ 64 }
    ensures value { Gives (λ rows. rows.items) result (rows_from place bytes.now) }
    ensures good { IfOk result (λ rows. All IsGood rows.items) }
    ensures sorted { IfOk result (λ rows. IsSorted row_cmp rows.items) }
{
    match read_slice(alloc, bytes, 0, place.rows) {
        Ok(rows) => Ok(rows),
        Err(refused) => Err(refused_at(place, refused)),
    }
}
