//! How far the records of a journal go.
ghost use Rattle.std.specs.Prelude.{◌≡◌, ◌↔◌, ◌⊎◌, ◌<◌, ◌≤◌, ◌++◌, ◌∷◌, [], ℕ, List, IfErr, IfOk, IsTrue, OnOk, None, length, true, false, slice_index_or};
ghost use Rattle.hx_base.specs.declared.refusal.Refusal.TheVariants.{Memory};
ghost use Rattle.hx_base.specs.declared.task.Task.{Task as TaskData};
ghost use Rattle.hx_book.specs.Books.{AreInTurn, IsOpenTask, IsPlanned, IsScheduled, IsWalkCause, job_of};
ghost use Rattle.hx_book.specs.Resumable.{done_of};
ghost use Rattle.hx_book.specs.Tasks.{count_of};

use crate::job::Job;
use crate::schedule::{MAP, PLAN, count_of, is_flagged, next_ready, stage_after};
use hx_base::{JobFile, MOST_PARTITIONS, Refusal, Task};
use hx_journal::Record;
use std::alloc::{AllocError, Global};

// The bytes of a gate and a body.
const BLOCK: u64 = 33;

/// The open stage after some records: the first of its ready tasks, and which later ones are recorded.
#[derive(Drop)]
pub(crate) struct Progress {
    pub inputs: u32,
    pub partitions: u32,
    pub stage: u8,
    pub from: u32,
    pub flags: Vec<bool>,
}

// Flags a number, and no other.
fn mark(flags: &mut Vec<bool>, number: u32) -> Result<(), AllocError>
    ensures marked { OnOk result (slice_index_or flags.new.items number false ≡ true) }
    ensures others { OnOk result ((n : ℕ) → (n ≡ number → ⊥) → slice_index_or flags.new.items n false ≡ slice_index_or flags.old.items n false) }
{
    while flags.len() <= number as usize {
        flags.push(false)?;
    }
    flags[number as usize] = true;
    Ok(())
}

impl Progress {
    // No task is recorded.
    fn new(alloc: Global, inputs: u32) -> Progress
        requires { 1 ≤ inputs }
        ensures scheduled { IsScheduled inputs result.partitions [] result.stage result.from result.flags.items None None }
        ensures inputs { result.inputs ≡ inputs }
        ensures stage { result.stage ≡ 1 }
        ensures few { result.partitions ≡ 0 }
    {
        Progress {
            inputs,
            partitions: 0,
            stage: MAP,
            from: 0,
            flags: Vec::new(alloc),
        }
    }

    // Whether a task is one of the open stage that isn't recorded.
    fn is_open(&self, task: Task) -> bool
        ensures { IsTrue result ↔ IsOpenTask self.now.inputs self.now.partitions self.now.stage self.now.from self.now.flags.items task }
    {
        if task.kind != self.stage || task.number < self.from {
            return false;
        }
        let count = count_of(self.inputs, self.partitions, self.stage);
        task.number < count && !is_flagged(&self.flags, task.number)
    }

    // Opens the next stage that has tasks.
    fn open_next(&mut self)
        requires { self.old.stage < 9 }
        ensures later { self.old.stage < self.new.stage }
        ensures most { self.new.stage ≤ 9 }
        ensures empty { (kind : ℕ) → self.old.stage < kind → kind < self.new.stage → count_of self.old.inputs self.old.partitions kind ≡ 0 }
        ensures some { self.new.stage < 9 → 0 < count_of self.old.inputs self.old.partitions self.new.stage }
        ensures start { (self.new.from ≡ 0) × (self.new.flags.items ≡ []) }
        ensures same { (self.new.inputs ≡ self.old.inputs) × (self.new.partitions ≡ self.old.partitions) }
    {
        self.stage = stage_after(self.stage, self.inputs, self.partitions);
        self.from = 0;
        self.flags.clear();
    }

    // Notes that the plan is recorded, with so many partitions.
    fn add_plan(&mut self, task: Task, partitions: u32)
        requires plan { task.kind ≡ 2 }
        requires is_open { IsOpenTask self.old.inputs self.old.partitions self.old.stage self.old.from self.old.flags.items task }
        ensures scheduled { (done : List TaskData) → IsScheduled self.old.inputs self.old.partitions done self.old.stage self.old.from self.old.flags.items None None →
            IsScheduled self.new.inputs self.new.partitions (done ++ task ∷ []) self.new.stage self.new.from self.new.flags.items None None }
        ensures partitions { self.new.partitions ≡ partitions }
        ensures inputs { self.new.inputs ≡ self.old.inputs }
    {
        self.partitions = partitions;
        self.open_next();
    }

    // Notes that a task of another kind is recorded.
    fn add_other(&mut self, task: Task) -> Result<(), AllocError>
        requires other { task.kind ≡ 2 → ⊥ }
        requires is_open { IsOpenTask self.old.inputs self.old.partitions self.old.stage self.old.from self.old.flags.items task }
        ensures scheduled { (done : List TaskData) → IsScheduled self.old.inputs self.old.partitions done self.old.stage self.old.from self.old.flags.items None None →
            OnOk result (IsScheduled self.new.inputs self.new.partitions (done ++ task ∷ []) self.new.stage self.new.from self.new.flags.items None None) }
        ensures early { self.old.stage ≤ 2 → OnOk result (self.new.stage ≤ 2) }
        ensures same { OnOk result ((self.new.inputs ≡ self.old.inputs) × (self.new.partitions ≡ self.old.partitions)) }
    {
        if task.number != self.from {
            return mark(&mut self.flags, task.number);
        }
        let count = count_of(self.inputs, self.partitions, self.stage);
        self.from = next_ready(&self.flags, task.number + 1, count);
        if self.from >= count {
            self.open_next();
        }
        Ok(())
    }

    // Notes a record; false where its task isn't one of the open stage that isn't recorded, or where a plan has too many
    // partitions.
    fn add(&mut self, entry: &Record) -> Result<bool, AllocError>
        ensures scheduled { (done : List TaskData) → IsScheduled self.old.inputs self.old.partitions done self.old.stage self.old.from self.old.flags.items None None →
            IfOk result (λ noted. noted ≡ true → IsScheduled self.new.inputs self.new.partitions (done ++ entry.now.task ∷ []) self.new.stage self.new.from self.new.flags.items None None) }
        ensures plan { IfOk result (λ noted. noted ≡ true → entry.now.task.kind ≡ 2 → (self.new.partitions ≡ entry.now.rows) × (entry.now.rows ≤ 100000)) }
        ensures other { IfOk result (λ noted. noted ≡ true → (entry.now.task.kind ≡ 2 → ⊥) → (self.new.partitions ≡ self.old.partitions) × (self.old.stage ≤ 2 → self.new.stage ≤ 2)) }
        ensures was_open { IfOk result (λ noted. noted ≡ true → IsOpenTask self.old.inputs self.old.partitions self.old.stage self.old.from self.old.flags.items entry.now.task) }
        ensures refused { IfOk result (λ noted. noted ≡ false → IsOpenTask self.old.inputs self.old.partitions self.old.stage self.old.from self.old.flags.items entry.now.task →
            (entry.now.task.kind ≡ 2) × (100000 < entry.now.rows)) }
        ensures inputs { IfOk result (λ noted. noted ≡ true → self.new.inputs ≡ self.old.inputs) }
    {
        let task = entry.task;
        if !self.is_open(task) {
            return Ok(false);
        }
        if task.kind != PLAN {
            self.add_other(task)?;
            return Ok(true);
        }
        if entry.rows > MOST_PARTITIONS as u64 {
            return Ok(false);
        }
        self.add_plan(task, entry.rows as u32);
        Ok(true)
    }
}

/// How far the records go of a journal whose header has so many bytes. `Damaged` comes at the gate of the first record
/// whose task doesn't follow the stages, was recorded before or isn't one of the job's, or of a plan with more than
/// 100000 partitions; of a job that is under way it never comes.
pub(crate) fn walk<J: Job>(
    alloc: Global,
    inputs: u32,
    header: u64,
    records: &[Record],
) -> Result<Progress, Refusal>
    requires some { 1 ≤ inputs }
    requires inputs { inputs ≡ length J.of.origins }
    ensures scheduled { IfOk result (λ p. IsScheduled inputs p.partitions (done_of records.now) p.stage p.from p.flags.items None None) }
    ensures few { IfOk result (λ p. p.partitions ≤ 100000) }
    ensures planned { AreInTurn (job_of J.of) records.now → IfOk result (λ p. 3 ≤ p.stage → IsPlanned J.of p.partitions) }
    ensures cause { IfErr result IsWalkCause }
    ensures never { AreInTurn (job_of J.of) records.now → IfErr result (λ r. r ≡ Memory) }
{
    let mut progress = Progress::new(alloc, inputs);
    for (index, entry) in records.iter().enumerate() {
        if !progress.add(entry)? {
            return Err(Refusal::Damaged {
                side: 1,
                file: JobFile::Journal,
                place: header.saturating_add(BLOCK.saturating_mul(index as u64)),
            });
        }
    }
    Ok(progress)
}
