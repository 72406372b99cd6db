//! The work files of an import removed.
ghost use Rattle.std.specs.Prelude.{◌≡◌, ◌≢◌, ◌≤◌, ◌⊎◌, ◌↔◌, ℕ, List, All, Err, None, IfErr, IfOk, IsErrOf, IsTrue, MatchOption, OnOk, string_bytes};
ghost use Rattle.hx_base.specs.Paths.{folder_of, path_of};
ghost use Rattle.hx_base.specs.declared.pixel.Pixel.{Pixel};
ghost use Rattle.hx_base.specs.declared.refusal.JobFile.{JobFile};
ghost use Rattle.hx_base.specs.declared.refusal.Refusal.TheVariants.{NoCatalogue, StoreFault};
ghost use Rattle.hx_journal.specs.Journal.{journal_file};
ghost use Rattle.hx_outside.specs.Disk.{Passes};
ghost use Rattle.hx_outside.specs.Faults.{HasFailed, HasStoreCause};
ghost use Rattle.hx_outside.specs.Folders.{Folder, Same, SameBut};
ghost use Rattle.hx_outside.specs.declared.store.StoreError.TheVariants.{Failed};
ghost use Rattle.hx_import.specs.Cleaning.{CleansInOrder, HasNoWorkOf, IsCleaned, IsNotCleaned, KeepsJournal, KeepsOutside, LeavesWork, MayRefuseCleaning, RemovesInOrder, properties_file, work_folder};

use hx_base::{JobFile, Name, Pixel, Refusal, Task, job_path};
use hx_journal::{JournalRefusal, Record, a_file_is_one_journal, open};
use hx_outside::{Store, StoreError};
use std::alloc::{AllocError, Global};

// What stands for a pixel where a file has none.
const NO_PIXEL: Pixel = Pixel {
    order: 0,
    number: 0,
};

fn refusal_of(error: StoreError) -> Refusal
    ensures store { (result ≡ StoreFault) ↔ (error ≡ Failed) }
    ensures refused { (folder : Folder) (name : List ℕ) → IsNotCleaned folder name result }
    ensures kinds { MayRefuseCleaning result }
{
    match error {
        StoreError::Failed => Refusal::StoreFault,
        StoreError::Memory => Refusal::Memory,
    }
}

// Removes a file, so that no crash brings it back.
fn remove_for_good<S: Store>(store: &mut S, path: &str) -> Result<(), StoreError>
    ensures passes { S.disk.tells store.old → Passes S.disk store.old store.new (SameBut path.now) }
    ensures gone { S.disk.tells store.old → OnOk result ((n : List ℕ) → (n ≡ path.now) ⊎ ((f : Folder) → S.disk.may_leave store.old f → f n ≡ None) →
        (f : Folder) → S.disk.may_leave store.new f → f n ≡ None) }
    ensures cause { HasStoreCause S.disk.faults store.old store.new result }
{
    store.sync(path)?;
    store.remove(path)
}

fn is_in_work(file: JobFile) -> bool
    ensures { IsTrue result ↔ (folder_of file ≡ work_folder) }
{
    match file {
        JobFile::Journal
        | JobFile::Map(_)
        | JobFile::Plan
        | JobFile::Split(_)
        | JobFile::MarginSplit(_) => true,
        JobFile::Part(_)
        | JobFile::Margin(_)
        | JobFile::List
        | JobFile::MarginList
        | JobFile::MarginProperties
        | JobFile::Properties => false,
    }
}

// The work file that a task leaves.
fn work_of(task: Task) -> Option<JobFile>
    ensures { MatchOption result ((left : JobFile) → ¬ (LeavesWork task left)) (LeavesWork task) }
{
    let file = task.file()?;
    if !is_in_work(file) {
        return None;
    }
    Some(file)
}

// Removes the work file of a task, if it leaves one.
fn remove_work_of<S: Store>(
    alloc: Global,
    store: &mut S,
    name: &Name,
    entry: &Record,
) -> Result<(), StoreError>
    ensures passes { S.disk.tells store.old → Passes S.disk store.old store.new (KeepsOutside name.now) }
    ensures journal { S.disk.tells store.old → Passes S.disk store.old store.new (KeepsJournal name.now) }
    ensures gone { S.disk.tells store.old → OnOk result ((f : Folder) → S.disk.may_leave store.new f → HasNoWorkOf name.now f entry.now) }
    ensures still { S.disk.tells store.old → OnOk result ((n : List ℕ) → ((f : Folder) → S.disk.may_leave store.old f → f n ≡ None) →
        (f : Folder) → S.disk.may_leave store.new f → f n ≡ None) }
    ensures cause { HasStoreCause S.disk.faults store.old store.new result }
{
    let Some(file) = work_of(entry.task) else {
        return Ok(());
    };
    let path = job_path(alloc, name, file, NO_PIXEL)?;
    remove_for_good(store, path.as_str())
}

// Removes the work files of some tasks.
fn remove_work<S: Store>(
    alloc: Global,
    store: &mut S,
    name: &Name,
    records: &[Record],
) -> Result<(), StoreError>
    ensures passes { S.disk.tells store.old → Passes S.disk store.old store.new (KeepsOutside name.now) }
    ensures journal { S.disk.tells store.old → Passes S.disk store.old store.new (KeepsJournal name.now) }
    ensures gone { S.disk.tells store.old → OnOk result ((f : Folder) → S.disk.may_leave store.new f → All (HasNoWorkOf name.now f) records.now) }
    ensures cause { HasStoreCause S.disk.faults store.old store.new result }
{
    for entry in records {
        remove_work_of(alloc, store, name, entry)?;
    }
    Ok(())
}

// Whether a folder has the properties of a catalogue.
fn has_properties<S: Store>(alloc: Global, store: &mut S, name: &Name) -> Result<bool, StoreError>
    ensures passes { S.disk.tells store.old → Passes S.disk store.old store.new Same }
    ensures there { S.disk.tells store.old → IfOk result (λ there. IsTrue there ↔ (S.disk.reads store.old (properties_file name.now) ≢ None)) }
    ensures cause { HasStoreCause S.disk.faults store.old store.new result }
{
    let path = job_path(alloc, name, JobFile::Properties, NO_PIXEL)?;
    let len = store.len(path.as_str())?;
    Ok(len.is_some())
}

// Removes the work files that a journal names, and the journal.
fn remove_all<S: Store>(
    alloc: Global,
    store: &mut S,
    name: &Name,
    records: &[Record],
) -> Result<(), StoreError>
    ensures passes { S.disk.tells store.old → Passes S.disk store.old store.new (KeepsOutside name.now) }
    ensures in_order { S.disk.tells store.old → Passes S.disk store.old store.new (RemovesInOrder name.now records.now) }
    ensures gone { S.disk.tells store.old → OnOk result ((f : Folder) → S.disk.may_leave store.new f → All (HasNoWorkOf name.now f) records.now) }
    ensures journal { S.disk.tells store.old → OnOk result ((f : Folder) → S.disk.may_leave store.new f → f (journal_file name.now) ≡ None) }
    ensures cause { HasStoreCause S.disk.faults store.old store.new result }
{
    remove_work(alloc, store, name, records)?;
    let journal = job_path(alloc, name, JobFile::Journal, NO_PIXEL)?;
    remove_for_good(store, journal.as_str())
}

/// Removes the work files of the tasks that a catalogue's journal has recorded, each so that no crash brings it back,
/// and then the journal. Where there is no journal nothing changes. At each moment a crash leaves all files outside
/// the folder `NAME.work` as they were, and the journal with its header and records for as long as one of these files
/// may be there, so that the next cleaning goes on.
///
/// Over a store that tells, `NoCatalogue` of side 1 comes exactly where the catalogue's properties are absent, and
/// `Damaged` of side 1 where the journal is damaged, at its first damaged place. `StoreFault` comes only where the
/// store's count of faults rose; it and `Memory` may come in place of each other answer.
pub fn clean<S: Store>(alloc: Global, store: &mut S, name: &Name) -> Result<(), Refusal>
    ensures passes { S.disk.tells store.old → Passes S.disk store.old store.new (KeepsOutside name.now) }
    ensures in_order { S.disk.tells store.old → Passes S.disk store.old store.new (CleansInOrder name.now) }
    ensures cleaned { S.disk.tells store.old → OnOk result ((f : Folder) → S.disk.may_leave store.new f → IsCleaned name.now (S.disk.reads store.old) f) }
    ensures idle { S.disk.tells store.old → S.disk.reads store.old (journal_file name.now) ≡ None → S.disk.reads store.new ≡ S.disk.reads store.old }
    ensures there { S.disk.tells store.old → OnOk result (S.disk.reads store.old (properties_file name.now) ≢ None) }
    ensures refused { S.disk.tells store.old → IfErr result (IsNotCleaned (S.disk.reads store.old) name.now) }
    ensures kinds { IfErr result MayRefuseCleaning }
    ensures later { S.disk.faults store.old ≤ S.disk.faults store.new }
    ensures failed { (result ≡ Err StoreFault) → HasFailed S.disk.faults store.old store.new }
{
    a_file_is_one_journal();
    match has_properties(alloc, store, name) {
        Ok(true) => {}
        Ok(false) => return Err(Refusal::NoCatalogue { side: 1 }),
        Err(error) => return Err(refusal_of(error)),
    }
    let journal = match open(alloc, store, name) {
        Ok(journal) => journal,
        Err(JournalRefusal::Absent) => return Ok(()),
        Err(JournalRefusal::Damaged { place }) => {
            return Err(Refusal::Damaged {
                side: 1,
                file: JobFile::Journal,
                place,
            });
        }
        Err(JournalRefusal::StoreFault) => return Err(Refusal::StoreFault),
        Err(JournalRefusal::Memory) => return Err(Refusal::Memory),
    };
    match remove_all(alloc, store, name, journal.records()) {
        Ok(()) => Ok(()),
        Err(error) => Err(refusal_of(error)),
    }
}
