//! An import by one worker.
ghost use Rattle.std.specs.Prelude.{◌≡◌, ◌≤◌, ◌⊎◌, ℕ, List, All, None, Some, IfSome, IsSome, length, map};
ghost use Rattle.hx_base.specs.FileWords.{IsFileWord};
ghost use Rattle.hx_base.specs.Limits.{FitsLimits, most_inputs};
ghost use Rattle.hx_base.specs.declared.refusal.Refusal.TheVariants.{Memory, OtherJob};
ghost use Rattle.hx_book.specs.Books.{AreNamed, ShowsWhy, job_of as job_of_members};
ghost use Rattle.hx_book.specs.Resumable.{header_bytes};
ghost use Rattle.hx_inputs.specs.Causes.{IsInputsCause};
ghost use Rattle.hx_inputs.specs.Inputs.{too_long};
ghost use Rattle.hx_inputs.specs.Sources.{SameSources, Tell};
ghost use Rattle.hx_import.specs.Importing.{IsRun};
ghost use Rattle.hx_import.specs.Imports.{AreCounts, CanGoOn, HasOtherHeader, IsDecidedBy, IsEarly, IsFolderRefusal, IsImportCause, IsImportRefusal, LeavesOthers, LeavesWhole, ShownBy, job_of};
ghost use Rattle.hx_import.specs.Working.{IsAsked};

use crate::carrying::carry;
use hx_base::{Refusal, Settings};
use hx_book::{Book, Claim, Closed, Job, finished_is_catalogue};
use hx_outside::{Source, Store};
use std::alloc::Global;
use std::marker::Brand;

// An import that was refused.
fn refused<Src: Drop, S: Drop>(refusal: Refusal, inputs: Vec<Src>, store: S) -> Closed<Src, S>
    ensures refusal { result.refusal ≡ Some refusal }
    ensures numbers { (result.rows ≡ 0) × (result.partitions ≡ 0) × (result.margin ≡ 0) }
    ensures back { (result.inputs ≡ inputs) × (result.store ≡ store) }
{
    Closed {
        refusal: Some(refusal),
        rows: 0,
        partitions: 0,
        margin: 0,
        inputs,
        store,
    }
}

// An import that came to no end is refused by want of memory, where nothing else is kept.
fn given_up<Src: Drop, S: Drop>(closed: Closed<Src, S>) -> Closed<Src, S>
    ensures back { (result.inputs ≡ closed.inputs) × (result.store ≡ closed.store) }
    ensures kept { IsSome closed.refusal → (result.refusal ≡ closed.refusal) × (result.rows ≡ closed.rows) × (result.partitions ≡ closed.partitions) × (result.margin ≡ closed.margin) }
    ensures none { closed.refusal ≡ None → (result.refusal ≡ Some Memory) × (result.rows ≡ 0) × (result.partitions ≡ 0) × (result.margin ≡ 0) }
{
    match closed.refusal {
        Some(_) => closed,
        None => refused(Refusal::Memory, closed.inputs, closed.store),
    }
}

// The end of an import of which all tasks are recorded.
fn ended<J: Job, Src: Source, S: Store>(book: Book<J, Src, S>) -> Closed<Src, S>
    requires free { book.held ≡ None }
    requires whole { book.stage ≡ 9 }
    requires later { J.of.before ≤ book.faults }
    ensures run { IsRun J.of Src.source S.disk result.refusal result.rows result.partitions result.margin result.inputs.items result.store }
    ensures late { IfSome result.refusal (λ r. IsEarly r → ⊥) }
{
    book.close()
}

// The end of an import of which a task is left.
fn stopped<J: Job, Src: Source, S: Store>(book: Book<J, Src, S>) -> Closed<Src, S>
    requires free { book.held ≡ None }
    requires later { J.of.before ≤ book.faults }
    ensures run { IsRun J.of Src.source S.disk result.refusal result.rows result.partitions result.margin result.inputs.items result.store }
    ensures late { IfSome result.refusal (λ r. IsEarly r → ⊥) }
{
    given_up(book.close())
}

// Does the tasks of a book, one after another.
fn work<J: Job, Src: Source, S: Store>(alloc: Global, book: Book<J, Src, S>) -> Closed<Src, S>
    requires asked { IsAsked J.of }
    requires settings { book.settings ≡ J.of.settings }
    requires free { book.held ≡ None }
    requires later { J.of.before ≤ book.faults }
    ensures run { IsRun J.of Src.source S.disk result.refusal result.rows result.partitions result.margin result.inputs.items result.store }
    ensures late { IfSome result.refusal (λ r. IsEarly r → ⊥) }
{
    let mut book = book;
    let settings = match book.settings().copy() {
        Ok(settings) => settings,
        Err(_) => return stopped(book),
    };
    let mut known = None;
    for _ in 0..u64::MAX {
        match book.claim(0) {
            Claim::Take(claimed) => carry(alloc, &mut book, &mut known, claimed, &settings),
            Claim::Done => return ended(book),
            Claim::Stopped => return stopped(book),
            Claim::Idle => return stopped(book),
        }
    }
    stopped(book)
}

// Opens the book of an import and does its tasks.
fn within<J: Job, Src: Source, S: Store>(
    alloc: Global,
    settings: Settings,
    inputs: Vec<Src>,
    store: S,
) -> Closed<Src, S>
    requires named { AreNamed J.of Src.source S.disk settings inputs.items store }
    requires some { 1 ≤ length inputs.items }
    requires few { length inputs.items ≤ most_inputs }
    requires words { All IsFileWord (map Src.source.label inputs.items) }
    requires limits { FitsLimits settings }
    ensures run { IsRun J.of Src.source S.disk result.refusal result.rows result.partitions result.margin result.inputs.items result.store }
    ensures other { (bytes : List (List ℕ)) (place kept asked : ℕ) → Tell Src.source inputs.items bytes → J.of.tells → result.refusal ≡ Some (OtherJob place kept asked) →
        ShowsWhy J.of.settings.name (header_bytes (job_of_members J.of)) (S.disk.reads store) (OtherJob place kept asked) }
    ensures folder { (bytes : List (List ℕ)) → Tell Src.source inputs.items bytes → too_long bytes ≡ None → J.of.tells →
        IsDecidedBy (IsFolderRefusal (job_of_members J.of) (S.disk.reads store)) result.refusal }
{
    match Book::<J, Src, S>::open(alloc, settings, inputs, store) {
        Ok(book) => work(alloc, book),
        Err(back) => refused(back.refusal, back.inputs, back.store),
    }
}

/// Imports all inputs as the catalogue of the asked name and settings, with its margin catalogue, or goes on with such an
/// import that an earlier run left. It takes no lock.
///
/// Where the inputs and the store tell their bytes, and this import can go on in each folder that a crash at the start
/// might have left, an answer without a refusal means: each folder that a crash now may leave reads as the catalogue of
/// all inputs' rows, each row as often as it came, in the partition that all rows give it, with exactly the margins that
/// touch; and the numbers are those of all rows, of the partitions, and of the rows of the margins.
///
/// At every answer this import can go on in each folder that a crash since the start might have left, which has the tasks
/// recorded that were recorded at the start; files outside the folders `NAME`, `NAME_margin` and `NAME.work` are as they
/// were; and the inputs come back in their order.
///
/// # Errors
///
/// `refusal` tells why there is no catalogue; then the numbers are 0. An input is too long, the name is taken or another
/// job's, an input can't be read as rows, a pixel is overfull, or there are too many partitions; an input has changed, or
/// a file is damaged, which never come where the import can go on; a call of the store or of an input failed, or memory
/// ran out.
///
/// Where no input is too long and the store tells, the name is answered as taken, or as another job's by the first place
/// where the journal's header differs, exactly where the folder shows it; only a fault, damage and want of memory may come
/// instead. And where the import can go on, the refusal is the first: of the inputs in their order, or else of all rows;
/// only a fault and want of memory may come instead.
pub fn import_one<Src: Source, S: Store>(
    alloc: Global,
    settings: Settings,
    inputs: Vec<Src>,
    store: S,
) -> Closed<Src, S>
    requires some { 1 ≤ length inputs.items }
    requires few { length inputs.items ≤ most_inputs }
    requires words { All IsFileWord (map Src.source.label inputs.items) }
    requires limits { FitsLimits settings }
    // The inputs come back.
    ensures inputs { SameSources Src.source inputs.items result.inputs.items }
    ensures faults { S.disk.faults store ≤ S.disk.faults result.store }
    // What is left, whatever stood there.
    ensures others { S.disk.tells store → LeavesOthers S.disk store result.store settings.name result.refusal }
    // The catalogue.
    ensures whole { let names = map Src.source.label inputs.items in
        (bytes : List (List ℕ)) → Tell Src.source inputs.items bytes → CanGoOn S.disk store (job_of settings names bytes) →
        LeavesWhole S.disk store result.store (job_of settings names bytes) result.refusal }
    ensures counts { let names = map Src.source.label inputs.items in
        (bytes : List (List ℕ)) → Tell Src.source inputs.items bytes → CanGoOn S.disk store (job_of settings names bytes) → result.refusal ≡ None →
        AreCounts (job_of settings names bytes) result.rows result.partitions result.margin }
    ensures none { IsSome result.refusal → (result.rows ≡ 0) × (result.partitions ≡ 0) × (result.margin ≡ 0) }
    // What is refused first, where no input is too long.
    ensures folder { let names = map Src.source.label inputs.items in
        (bytes : List (List ℕ)) → Tell Src.source inputs.items bytes → too_long bytes ≡ None → S.disk.tells store →
        IsDecidedBy (IsFolderRefusal (job_of settings names bytes) (S.disk.reads store)) result.refusal }
    ensures first { let names = map Src.source.label inputs.items in
        (bytes : List (List ℕ)) → Tell Src.source inputs.items bytes → too_long bytes ≡ None → CanGoOn S.disk store (job_of settings names bytes) →
        ShownBy (IsImportRefusal (job_of settings names bytes) (S.disk.reads store)) result.refusal }
    // Every refusal has its cause.
    ensures cause { let names = map Src.source.label inputs.items in
        IfSome result.refusal (λ r. IsInputsCause Src.source inputs.items result.inputs.items r
        ⊎ IsImportCause S.disk store result.store settings.name
        (λ place kept asked. (bytes : List (List ℕ)) → Tell Src.source inputs.items bytes → S.disk.tells store → HasOtherHeader (job_of settings names bytes) (S.disk.reads store) place kept asked)
        ((bytes : List (List ℕ)) × Tell Src.source inputs.items bytes × CanGoOn S.disk store (job_of settings names bytes)) r) }
{
    finished_is_catalogue();
    let _name = settings.name.as_str();
    within::<Brand, Src, S>(alloc, settings, inputs, store)
}
