//! The book of an import, whose type keeps what is true of the job that it was opened for.
ghost use Rattle.std.specs.Prelude.{◌≡◌, ◌≢◌, ◌≤◌, ◌<◌, ◌⊎◌, ◌++◌, ◌∷◌, [], ℕ, List, Contains, IfErr, IfOk, IfSome, IsSome, MatchOption, Option, Some, None, length, true, false};
ghost use Rattle.hx_base.specs.Limits.{most_inputs};
ghost use Rattle.hx_base.specs.Tasks.{file_of};
ghost use Rattle.hx_base.specs.declared.refusal.Refusal.{Refusal as RefusalData};
ghost use Rattle.hx_base.specs.declared.refusal.Refusal.TheVariants.{Memory, StoreFault};
ghost use Rattle.hx_base.specs.declared.task.Task.{Task as TaskData};
ghost use Rattle.hx_journal.specs.declared.record.Record.{Record as RecordData};
ghost use Rattle.hx_outside.specs.Faults.{Rose};
ghost use Rattle.hx_outside.specs.Folders.{Folder};
ghost use Rattle.hx_book.specs.Answers.{IfTake, IsDone, IsIdle, IsStopped, IsTake, most_claims};
ghost use Rattle.hx_book.specs.Books.{HasReady, IsHome, IsKept as Keeps, IsOutsideCause, IsOwn, IsTaskCause, TakesInput, count_in_stage, is_outside, job_of};
ghost use Rattle.hx_book.specs.Recordings.{IsReadCause, Recorded};
ghost use Rattle.hx_book.specs.Tasks.{AreParts, Follow, IsNext, count_of, task};
ghost use Rattle.hx_book.specs.Resumable.{HasNumber, done_of};
ghost use Rattle.hx_book.specs.Values.{IsFileOf, IsValue, rows_told};

use crate::answers::{Claim, Claimed, Kept, Receipt};
use crate::files::{Prepared, file_path, of_store, prepare};
use crate::job::Job;
use crate::room::Room;
use crate::schedule::{PLAN, count_of, next_ready, stage_after, takes_input};
use crate::sources::{put_source, take_source};
use hx_base::{JobFile, Pixel, Refusal, Settings, Task};
use hx_journal::{Journal, Record, record_task};
use hx_outside::{Source, Store, StoreError};
use hx_publish::read_file;
use std::alloc::Global;
use std::marker::{Model, PhantomData};

/// The book of an import: its journal, its inputs' sources and the store, and which task comes next.
#[derive(Drop)]
pub struct Book<J: Job, Src: Source, S: Store> {
    pub(crate) alloc: Global,
    pub(crate) settings: Settings,
    pub(crate) homes: Vec<Option<Src>>,
    // The room in which the sources are handed back.
    pub(crate) back: Room<J, Src>,
    pub(crate) store: S,
    pub(crate) journal: Journal,
    // The partitions, from the moment that the plan is recorded on.
    pub(crate) parts: Vec<Pixel>,
    pub(crate) partitions: u32,
    // The kind of the open stage, the first of its ready tasks, and which tasks were recorded when it opened.
    pub(crate) stage: u8,
    pub(crate) from: u32,
    pub(crate) flags: Vec<bool>,
    pub(crate) held: Option<u32>,
    // The kept refusal of the least task, and the first of the outside.
    pub(crate) kept: Option<Kept>,
    pub(crate) first: Option<Refusal>,
    pub(crate) of: PhantomData<J>,
}

impl<J: Job, Src: Source, S: Store> Model for Book<J, Src, S> {
    ghost use Rattle.std.specs.Prelude.{length};
    ghost use Rattle.hx_book.specs.Books as Books;

    ghost Value = { Books.Shown };

    ghost view = { λ b. record { settings = b.settings; records = b.journal.records; inputs = length b.homes.items; partitions = b.partitions; stage = b.stage; from = b.from; held = b.held; kept = b.kept; first = b.first; faults = S.disk.faults b.store } };

    ghost invariant = { λ b. Books.IsKept J.of Src.source S.disk (record { settings = b.settings; homes = b.homes.items; store = b.store; journal = b.journal; parts = b.parts.items; partitions = b.partitions; stage = b.stage; from = b.from; flags = b.flags.items; held = b.held; kept = b.kept; first = b.first }) };
}

impl<J: Job, Src: Source, S: Store> Book<J, Src, S> {
    /// The job's settings.
    pub fn settings(&self) -> &Settings
        ensures { result.now ≡ self.now.settings }
    {
        &self.settings
    }

    /// How many inputs the job has.
    pub fn inputs(&self) -> u32
        ensures here { result ≡ self.now.inputs }
        ensures all { result ≡ length (job_of J.of).inputs }
    {
        self.homes.len() as u32
    }

    /// The journal's records. Under the job's premises each task follows its turn, none twice, and each record has the
    /// number of its task's value, where no refusal of the outside is kept.
    pub fn records(&self) -> &[Record]
        ensures records { result.now ≡ self.now.records }
        ensures follow { J.of.premises → self.now.first ≡ None → Follow (job_of J.of) [] (done_of result.now) }
        ensures numbers { J.of.premises → self.now.first ≡ None → (r : RecordData) → Contains result.now r → HasNumber (job_of J.of) r }
    {
        self.journal.records()
    }

    /// The partitions, by number: under the job's premises they are the job's, from the moment that the plan is recorded
    /// while a task of a kind below the last is left.
    pub fn parts(&self) -> &[Pixel]
        ensures { J.of.premises → self.now.first ≡ None → 3 ≤ self.now.stage → self.now.stage ≤ 7 → AreParts (job_of J.of) result.now }
    {
        &self.parts
    }

    /// The task that the worker holds, None exactly where it holds none.
    pub fn held_by(&self, _worker: u32) -> Option<Task>
        ensures some { IfSome result (λ t. (self.now.held ≡ Some t.number) × (t.kind ≡ self.now.stage)) }
        ensures none { result ≡ None → self.now.held ≡ None }
    {
        let Some(number) = self.held else {
            return None;
        };
        Some(Task {
            kind: self.stage,
            number,
        })
    }

    /// How many tasks are held.
    pub fn held(&self) -> u32
        ensures none { result ≡ 0 → self.now.held ≡ None }
        ensures some { self.now.held ≡ None → result ≡ 0 }
    {
        match self.held {
            Some(_) => 1,
            None => 0,
        }
    }

    /// Gives a worker that holds none the first of the ready tasks, with the source of its input where it is a map or a
    /// split. It takes no memory.
    ///
    /// It is a task exactly where no refusal of the outside is kept and one is ready; else it is stopped where a refusal
    /// is kept, and else all tasks are recorded.
    pub fn claim(&mut self, worker: u32) -> Claim<Src>
        requires worker { worker ≡ 0 }
        requires free { self.old.held ≡ None }
        ensures takes { self.old.first ≡ None → HasReady self.old → IsTake result }
        ensures take { IfTake result (λ c. (self.old.first ≡ None) × HasReady self.old × (c.task ≡ task self.old.stage self.old.from)) }
        ensures held { IfTake result (λ c. self.new.held ≡ Some c.task.number) }
        ensures next { IfTake result (λ c. J.of.premises → IsNext (job_of J.of) (done_of self.old.records) c.task) }
        ensures source { IfTake result (λ c. IsOwn J.of Src.source c.task c.source) }
        ensures fewer { IfTake result (λ c. most_claims self.new < most_claims self.old) }
        ensures stopped { IsStopped result → (IsSome self.old.first ⊎ IsSome self.old.kept) × (self.new ≡ self.old) }
        ensures done { IsDone result → (self.old.first ≡ None) × (self.old.kept ≡ None) × (self.old.stage ≡ 9) × (self.new ≡ self.old) }
        ensures idle { IsIdle result → ⊥ }
        ensures same { (self.new.records ≡ self.old.records) × (self.new.kept ≡ self.old.kept) × (self.new.first ≡ self.old.first) × (self.new.stage ≡ self.old.stage) × (self.new.faults ≡ self.old.faults) }
        ensures shape { (self.new.inputs ≡ self.old.inputs) × (self.new.partitions ≡ self.old.partitions) × (self.new.settings ≡ self.old.settings) }
    {
        match self.first {
            Some(_) => return Claim::Stopped,
            None => {}
        }
        let count = count_of(self.homes.len() as u32, self.partitions, self.stage);
        if self.from >= count {
            match self.kept {
                Some(_) => return Claim::Stopped,
                None => return Claim::Done,
            }
        }
        let number = self.from;
        let kind = self.stage;
        let task = Task { kind, number };
        self.from = next_ready(&self.flags, number + 1, count);
        self.held = Some(number);
        if !takes_input(kind) {
            return Claim::Take(Claimed { task, source: None });
        }
        let source = take_source(&mut self.homes, number);
        Claim::Take(Claimed { task, source })
    }

    /// The bytes of a recorded task's file, while a task of a kind below the last is left.
    ///
    /// Under the job's premises they read as the task's value. `Damaged` comes where the file is absent, and under the
    /// premises never; `StoreFault` only where the store's count of faults rose.
    pub fn read_file(&mut self, file: JobFile) -> Result<Vec<u8>, Refusal>
        requires recorded { J.of.premises → (t : TaskData) × (file_of t ≡ Some file) × Contains (done_of self.old.records) t }
        requires unfinished { self.old.stage ≤ 7 }
        requires clear { self.old.first ≡ None }
        ensures value { IfOk result (λ bytes. J.of.premises → IsFileOf (job_of J.of) bytes.items file) }
        ensures cause { IfErr result (IsReadCause J.of file self.new.faults) }
        ensures same { (self.new.records ≡ self.old.records) × (self.new.held ≡ self.old.held) × (self.new.kept ≡ self.old.kept) × (self.new.first ≡ self.old.first) × (self.new.stage ≡ self.old.stage) }
        ensures shape { (self.new.inputs ≡ self.old.inputs) × (self.new.partitions ≡ self.old.partitions) × (self.new.settings ≡ self.old.settings) × (self.new.from ≡ self.old.from) }
        ensures later { self.old.faults ≤ self.new.faults }
    {
        let path = match file_path(self.alloc, &self.settings.name, &self.parts, file) {
            Ok(path) => path,
            Err(_) => return Err(Refusal::Memory),
        };
        match read_file(self.alloc, &mut self.store, path.as_str()) {
            Ok(Some(bytes)) => Ok(bytes),
            Ok(None) => Err(Refusal::Damaged {
                side: 1,
                file,
                place: 0,
            }),
            Err(StoreError::Failed) => Err(Refusal::StoreFault),
            Err(StoreError::Memory) => Err(Refusal::Memory),
        }
    }

    /// Publishes the file of a task that the worker holds, and records the task.
    ///
    /// Under the job's premises the bytes read as the task's value. It is refused where a refusal of the outside is kept,
    /// by `Memory`, or by `StoreFault` where the store's count of faults rose; then this refusal is kept, and the task is
    /// given back. In each case the source is at home.
    pub fn finish(
        &mut self,
        worker: u32,
        claimed: Claimed<Src>,
        bytes: &[u8],
    ) -> Result<Receipt<J>, Refusal>
        requires worker { worker ≡ 0 }
        requires held { self.old.held ≡ Some claimed.task.number }
        requires kind { claimed.task.kind ≡ self.old.stage }
        requires source { IsOwn J.of Src.source claimed.task claimed.source }
        requires value { J.of.premises → IsValue (job_of J.of) claimed.task bytes.now }
        ensures receipt { IfOk result (λ r. (r.task ≡ claimed.task) × (r.number ≡ length self.old.records)) }
        ensures recorded { IfOk result (λ _. Recorded self.old.records claimed.task (length bytes.now) self.new.records) }
        ensures clear { IfOk result (λ _. (self.old.first ≡ None) × (self.new.first ≡ None) × (self.new.kept ≡ self.old.kept)) }
        ensures refused { IfErr result (λ r. self.new.first ≡ Some r) }
        ensures free { self.new.held ≡ None }
        ensures fewer { most_claims self.new ≤ most_claims self.old }
        ensures settings { self.new.settings ≡ self.old.settings }
        ensures later { self.old.faults ≤ self.new.faults }
    {
        let Claimed { task, source } = claimed;
        put_source(&mut self.homes, task.number, source);
        self.held = None;
        match self.first {
            Some(refusal) => return Err(refusal),
            None => {}
        }
        let prepared = prepare(self.alloc, &self.settings.name, &self.parts, task, bytes);
        let Prepared {
            path,
            tmp,
            rows,
            parts,
        } = match prepared {
            Ok(prepared) => prepared,
            Err(refusal) => {
                self.first = Some(refusal);
                return Err(refusal);
            }
        };
        let number = self.journal.records().len() as u64;
        let entry = Record {
            task,
            len: bytes.len() as u64,
            rows,
        };
        match record_task(
            &mut self.journal,
            &mut self.store,
            tmp.as_str(),
            path.as_str(),
            bytes,
            entry,
        ) {
            Ok(()) => {}
            Err(error) => {
                let refusal = of_store(error);
                self.first = Some(refusal);
                return Err(refusal);
            }
        }
        let inputs = self.homes.len() as u32;
        let receipt = Receipt {
            number,
            task,
            of: PhantomData,
        };
        if task.kind == PLAN {
            let partitions = parts.len() as u32;
            self.stage = stage_after(PLAN, inputs, partitions);
            self.from = 0;
            self.flags = Vec::new(self.alloc);
            self.partitions = partitions;
            self.parts = parts;
            return Ok(receipt);
        }
        let count = count_of(inputs, self.partitions, self.stage);
        if self.from < count || self.kept.is_some() {
            return Ok(receipt);
        }
        self.stage = stage_after(self.stage, inputs, self.partitions);
        self.from = 0;
        self.flags = Vec::new(self.alloc);
        Ok(receipt)
    }

    /// Keeps the refusal of a task that the worker holds, and takes its source home. It takes no memory.
    ///
    /// Where none of the outside is kept, a refusal by what the task works on is kept unless one of an earlier task is,
    /// and one of the outside as the first.
    pub fn refuse(&mut self, worker: u32, claimed: Claimed<Src>, refusal: Refusal)
        requires worker { worker ≡ 0 }
        requires held { self.old.held ≡ Some claimed.task.number }
        requires kind { claimed.task.kind ≡ self.old.stage }
        requires source { IsOwn J.of Src.source claimed.task claimed.source }
        requires task_cause { is_outside refusal ≡ false → IsTaskCause J.of claimed.task refusal }
        requires outside_cause { is_outside refusal ≡ true → IsOutsideCause J.of Src.source (λ n s. (n ≡ claimed.task.number) × (claimed.source ≡ Some s)) self.old.faults refusal }
        ensures free { self.new.held ≡ None }
        ensures fewer { most_claims self.new ≤ most_claims self.old }
        ensures kept { IsSome self.new.first ⊎ IsSome self.new.kept }
        ensures same { (self.new.records ≡ self.old.records) × (self.new.stage ≡ self.old.stage) × (self.new.settings ≡ self.old.settings) × (self.new.faults ≡ self.old.faults) }
    {
        let Claimed { task, source } = claimed;
        put_source(&mut self.homes, task.number, source);
        self.held = None;
        match self.first {
            Some(_) => return,
            None => {}
        }
        if is_outside(refusal) {
            self.first = Some(refusal);
            return;
        }
        match self.kept {
            Some(_) => {}
            None => {
                self.kept = Some(Kept {
                    number: task.number,
                    refusal,
                });
            }
        }
    }
}

// Whether a refusal is one of the outside: a fault, or want of memory.
fn is_outside(refusal: Refusal) -> bool
    ensures { result ≡ is_outside refusal }
{
    match refusal {
        Refusal::StoreFault => true,
        Refusal::InputFault { .. } => true,
        Refusal::Memory => true,
        _ => false,
    }
}
