//! The end of a book.
ghost use Rattle.std.specs.Prelude.{◌≡◌, ℕ, None, Some, IfSome, IsSome};
ghost use Rattle.hx_outside.specs.Folders.{Folder};
ghost use Rattle.hx_book.specs.Books.{AreBack, AreNumbers, IsClosedCause, IsGoodFor, IsUntouched, count_of_kind, job_of, kept_refusal, rows_of_kind};
ghost use Rattle.hx_book.specs.Resumable.{IsFiledWhole};

use crate::answers::{Closed, Kept};
use crate::book::Book;
use crate::job::Job;
use crate::laws::records_tell_numbers;
use crate::room::gather;
use crate::schedule::{MARGIN_REDUCE, REDUCE};
use hx_base::Refusal;
use hx_journal::Record;
use hx_outside::{Source, Store};

// The first refusal of the outside, or else that of the least task.
fn kept_refusal(first: Option<Refusal>, kept: Option<Kept>) -> Option<Refusal>
    ensures { result ≡ kept_refusal first kept }
{
    match first {
        Some(refusal) => Some(refusal),
        None => match kept {
            Some(kept) => Some(kept.refusal),
            None => None,
        },
    }
}

// The rows of the records of a kind, up to the last number.
fn rows_of_kind(records: &[Record], kind: u8) -> u64
    ensures { result ≡ rows_of_kind kind records.now }
{
    let mut rows = 0u64;
    for entry in records {
        if entry.task.kind == kind {
            rows = rows.saturating_add(entry.rows);
        }
    }
    rows
}

// How many records of a kind there are, up to the last number.
fn count_of_kind(records: &[Record], kind: u8) -> u32
    ensures { result ≡ count_of_kind kind records.now }
{
    let mut count = 0u32;
    for entry in records {
        if entry.task.kind == kind {
            count = count.saturating_add(1);
        }
    }
    count
}

impl<J: Job, Src: Source, S: Store> Book<J, Src, S> {
    /// Ends the import while no worker holds a task: why it was refused, if it was, and what the book was given.
    ///
    /// The refusal is the first kept one of the outside, or else that of the least task. Where there is none, the numbers
    /// are the rows of all partitions, how many partitions there are, and the rows of all margins, as the records tell;
    /// under the job's premises, once all tasks are recorded, the rows are those of all inputs.
    #[tactic(none)]
    pub fn close(self) -> Closed<Src, S>
        requires { self.held ≡ None }
        ensures back { AreBack J.of Src.source result.inputs.items }
        ensures refusal { result.refusal ≡ kept_refusal self.first self.kept }
        ensures cause { IfSome result.refusal (IsClosedCause J.of Src.source result.inputs.items (S.disk.faults result.store)) }
        ensures told { J.of.tells → S.disk.tells result.store }
        ensures good { J.of.premises → (f : Folder) → S.disk.left_since result.store J.of.moment f → IsGoodFor J.of f }
        ensures untouched { J.of.tells → (f : Folder) → S.disk.left_since result.store J.of.moment f → IsUntouched J.of f }
        ensures filed { J.of.premises → result.refusal ≡ None → self.stage ≡ 9 → (f : Folder) → S.disk.may_leave result.store f → IsFiledWhole (job_of J.of) f }
        ensures faults { S.disk.faults result.store ≡ self.faults }
        ensures totals { result.refusal ≡ None → (result.rows ≡ rows_of_kind 4 self.records) × (result.partitions ≡ count_of_kind 4 self.records) × (result.margin ≡ rows_of_kind 6 self.records) }
        ensures numbers { J.of.premises → result.refusal ≡ None → self.stage ≡ 9 → AreNumbers (job_of J.of) result.rows result.partitions result.margin }
        ensures nothing { IsSome result.refusal → (result.rows ≡ 0) × (result.partitions ≡ 0) × (result.margin ≡ 0) }
    {
        records_tell_numbers();
        let refusal = kept_refusal(self.first, self.kept);
        let records = self.journal.records();
        let rows = rows_of_kind(records, REDUCE);
        let partitions = count_of_kind(records, REDUCE);
        let margin = rows_of_kind(records, MARGIN_REDUCE);
        let inputs = gather(self.back, self.homes);
        let store = self.store;
        if refusal.is_some() {
            return Closed {
                refusal,
                rows: 0,
                partitions: 0,
                margin: 0,
                inputs,
                store,
            };
        }
        Closed {
            refusal,
            rows,
            partitions,
            margin,
            inputs,
            store,
        }
    }
}
