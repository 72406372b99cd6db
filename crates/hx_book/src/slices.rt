//! The rows of one partition in a split or margin split file, read alone: the file's head and these rows, and no others.
ghost use Rattle.std.specs.Prelude.{◌≡◌, ◌*◌, ◌+◌, ◌<◌, ◌^◌, ◌≤◌, All, Contains, Err, IfErr, IfOk, None, Some, drop, take};
ghost use Rattle.hx_base.specs.Rows.{IsGood};
ghost use Rattle.hx_base.specs.Tasks.{file_of};
ghost use Rattle.hx_base.specs.declared.refusal.SpillRefusal.TheVariants.{Memory as SpillMemory};
ghost use Rattle.hx_base.specs.declared.task.Task.{Task as TaskData};
ghost use Rattle.hx_outside.specs.Disk.{Passes};
ghost use Rattle.hx_outside.specs.Faults.{HasStoreCause, Rose};
ghost use Rattle.hx_outside.specs.Folders.{Same, contents};
ghost use Rattle.hx_outside.specs.declared.store.StoreError.TheVariants.{Failed};
ghost use Rattle.hx_book.specs.Books.{job_of};
ghost use Rattle.hx_book.specs.Resumable.{done_of};
ghost use Rattle.hx_book.specs.Slices.{Answers, HasParts, IsSliceCause, IsSliceOf, of_slice, read_alone, read_by_head};
ghost use Rattle.hx_book.specs.declared.slices.SliceError.TheVariants.{Spill, Store as StoreFailed};

#[cfg(test)]
mod tests;

use crate::book::Book;
use crate::files::file_path;
use crate::job::Job;
use hx_base::{JobFile, Refusal, Row, SpillRefusal};
use hx_outside::{Source, Store, StoreError};
use hx_publish::read_range;
use hx_spill::{find_slice, head_width, rows_of_slice};
use std::alloc::Global;

// The bytes that are read at first: the head of a file of few partitions fits.
const FRONT: u64 = 1024;

// The first bytes of a split file, which tell how long its head is.
const TELLS_WIDTH: u64 = 12;

const ROW_WIDTH: u64 = 28;

// Why a part wasn't read.
#[derive(Clone, Copy, Debug, PartialEq, Eq)]
enum SliceError {
    Store(StoreError),
    Spill(SpillRefusal),
}

impl From<StoreError> for SliceError {
    ghost from_gives = { λ why error. error ≡ StoreFailed why };

    fn from(why: StoreError) -> Self {
        SliceError::Store(why)
    }
}

impl From<SpillRefusal> for SliceError {
    ghost from_gives = { λ refused error. error ≡ Spill refused };

    fn from(refused: SpillRefusal) -> Self {
        SliceError::Spill(refused)
    }
}

// So many of some bytes, or as many as there are.
fn first_of(bytes: &[u8], count: u64) -> &[u8]
    ensures { result.now ≡ take count bytes.now }
{
    &bytes[..count.min(bytes.len() as u64) as usize]
}

// The rows of a part of a file, by the bytes of its head: its own bytes are read, where it has any.
fn read_by_head<S: Store>(
    alloc: Global,
    store: &mut S,
    name: &str,
    part: u32,
    head: &[u8],
) -> Result<Vec<Row>, SliceError>
    ensures passes { S.disk.tells store.old → Passes S.disk store.old store.new Same }
    ensures answers { S.disk.tells store.old → Answers result (read_by_head part head.now (contents (S.disk.reads store.old name.now))) }
    ensures good { IfOk result (λ rows. All IsGood rows.items) }
    ensures later { S.disk.faults store.old ≤ S.disk.faults store.new }
    ensures failed { result ≡ Err (StoreFailed Failed) → Rose (S.disk.faults store.old) (S.disk.faults store.new) }
{
    let Some(place) = find_slice(head, part)? else {
        return Ok(Vec::new(alloc));
    };
    let bytes = read_range(alloc, store, name, place.at, ROW_WIDTH * place.rows)?;
    Ok(rows_of_slice(alloc, place, &bytes)?)
}

// The rows of a part of a file, by its head and their own bytes alone.
fn read_alone<S: Store>(
    alloc: Global,
    store: &mut S,
    name: &str,
    part: u32,
) -> Result<Vec<Row>, SliceError>
    ensures passes { S.disk.tells store.old → Passes S.disk store.old store.new Same }
    ensures answers { S.disk.tells store.old → Answers result (read_alone part (contents (S.disk.reads store.old name.now))) }
    ensures good { IfOk result (λ rows. All IsGood rows.items) }
    ensures later { S.disk.faults store.old ≤ S.disk.faults store.new }
    ensures failed { result ≡ Err (StoreFailed Failed) → Rose (S.disk.faults store.old) (S.disk.faults store.new) }
{
    let front = read_range(alloc, store, name, 0, FRONT)?;
    let width = head_width(first_of(&front, TELLS_WIDTH))?;
    if width <= FRONT {
        return read_by_head(alloc, store, name, part, first_of(&front, width));
    }
    let head = read_range(alloc, store, name, 0, width)?;
    read_by_head(alloc, store, name, part, &head)
}

// It as a refusal of the file that was asked for.
fn of_slice(file: JobFile, error: SliceError) -> Refusal
    ensures { result ≡ of_slice file error }
{
    match error {
        SliceError::Store(StoreError::Failed) => Refusal::StoreFault,
        SliceError::Store(StoreError::Memory) => Refusal::Memory,
        SliceError::Spill(SpillRefusal::Damaged { place }) => Refusal::Damaged {
            side: 1,
            file,
            place,
        },
        SliceError::Spill(SpillRefusal::Memory) => Refusal::Memory,
    }
}

impl<J: Job, Src: Source, S: Store> Book<J, Src, S> {
    /// The rows that the file of a recorded split or margin split task has for the partition of a number, sorted, while a
    /// task of a kind below the last is left. Only the file's head and these rows are read.
    ///
    /// Under the job's premises they are the rows of the task's input that this partition contains, or the rows of the
    /// task's partition that are in this one's margin. `Damaged` comes at the first fault of what is read, by its place
    /// in bytes, and under the premises never; `StoreFault` only where the store's count of faults rose.
    pub fn read_slice(&mut self, file: JobFile, part: u32) -> Result<Vec<Row>, Refusal>
        requires recorded { J.of.premises → (t : TaskData) × (file_of t ≡ Some file) × Contains (done_of self.old.records) t }
        requires parts { HasParts file }
        requires unfinished { self.old.stage ≤ 7 }
        requires clear { self.old.first ≡ None }
        ensures value { IfOk result (λ rows. J.of.premises → IsSliceOf (job_of J.of) file part rows.items) }
        ensures good { IfOk result (λ rows. All IsGood rows.items) }
        ensures cause { IfErr result (IsSliceCause J.of file self.new.faults) }
        ensures same { (self.new.records ≡ self.old.records) × (self.new.held ≡ self.old.held) × (self.new.kept ≡ self.old.kept) × (self.new.first ≡ self.old.first) × (self.new.stage ≡ self.old.stage) }
        ensures shape { (self.new.inputs ≡ self.old.inputs) × (self.new.partitions ≡ self.old.partitions) × (self.new.settings ≡ self.old.settings) × (self.new.from ≡ self.old.from) }
        ensures later { self.old.faults ≤ self.new.faults }
    {
        let path = match file_path(self.alloc, &self.settings.name, &self.parts, file) {
            Ok(path) => path,
            Err(_) => return Err(Refusal::Memory),
        };
        match read_alone(self.alloc, &mut self.store, path.as_str(), part) {
            Ok(rows) => Ok(rows),
            Err(error) => Err(of_slice(file, error)),
        }
    }
}
