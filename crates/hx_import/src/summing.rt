//! What the records of a kind tell together.
ghost use Rattle.std.specs.Prelude.{◌≡◌};
ghost use Rattle.hx_book.specs.Books.{count_of_kind, rows_of_kind};

use hx_journal::Record;

/// How many rows the records of a kind tell, up to 2^64 - 1.
pub(crate) fn rows_of_kind(records: &[Record], kind: u8) -> u64
    ensures { result ≡ rows_of_kind kind records.now }
{
    let mut rows = 0u64;
    for entry in records {
        if entry.task.kind == kind {
            rows = rows.saturating_add(entry.rows);
        }
    }
    rows
}

/// How many records of a kind there are, up to 2^32 - 1.
pub(crate) fn count_of_kind(records: &[Record], kind: u8) -> u32
    ensures { result ≡ count_of_kind kind records.now }
{
    let mut count = 0u32;
    for entry in records {
        if entry.task.kind == kind {
            count = count.saturating_add(1);
        }
    }
    count
}
