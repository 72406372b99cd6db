//! A task that a worker holds: its file is made and handed in, or why there is none.
ghost use Rattle.std.specs.Prelude.{◌≡◌, ◌≤◌, ℕ, None, Some, IfErr, IfOk, IfSome};
ghost use Rattle.hx_base.specs.declared.refusal.JobFile.TheVariants.{Map, Split};
ghost use Rattle.hx_book.specs.Books.{IsHome, IsOwn, job_of};
ghost use Rattle.hx_book.specs.Tasks.{task};
ghost use Rattle.hx_book.specs.Values.{IsFileOf, IsValue};
ghost use Rattle.hx_import.specs.Given.{AreOfInput, IsCutFor};
ghost use Rattle.hx_import.specs.Working.{IsAsked, IsAtWork, IsFailed, IsStill};

use crate::making::{
    known_cut, make_list, make_margin, make_margin_split, make_part, make_plan, make_properties,
};
use crate::tasks::{Cut, map_file, split_file};
use hx_base::{JobFile, Refusal, Settings, Task};
use hx_book::{Book, Claimed, Job};
use hx_inputs::read_all;
use hx_outside::{Source, Store};
use std::alloc::Global;

// All bytes of the source of an input.
fn read_source<J: Job, Src: Source>(
    alloc: Global,
    source: &mut Src,
    of: Task,
) -> Result<Vec<u8>, Refusal>
    requires asked { IsAsked J.of }
    requires home { IsHome J.of Src.source of.number source.old }
    ensures home { IsHome J.of Src.source of.number source.new }
    ensures bytes { IfOk result (λ bytes. AreOfInput J.of of.number (Src.source.label source.new) bytes.items) }
    ensures cause { (faults : ℕ) → IfErr result (IsFailed J.of Src.source of (Some source.new) faults) }
{
    read_all(alloc, source, of.number)
}

// The file of a map task.
fn map_input<J: Job, Src: Source>(
    alloc: Global,
    source: &mut Src,
    number: u32,
    settings: &Settings,
) -> Result<Vec<u8>, Refusal>
    requires asked { IsAsked J.of }
    requires settings { settings.now ≡ J.of.settings }
    requires home { IsHome J.of Src.source number source.old }
    ensures home { IsHome J.of Src.source number source.new }
    ensures value { IfOk result (λ file. J.of.premises → IsFileOf (job_of J.of) file.items (Map number)) }
    ensures cause { (faults : ℕ) → IfErr result (IsFailed J.of Src.source (task 1 number) (Some source.new) faults) }
{
    let bytes = read_source::<J, Src>(alloc, source, Task { kind: 1, number })?;
    map_file::<J>(alloc, source.name(), &bytes, number, settings)
}

// The file of a split task.
fn split_input<J: Job, Src: Source, S: Store>(
    alloc: Global,
    book: &mut Book<J, Src, S>,
    cut: &Cut,
    source: &mut Src,
    number: u32,
    settings: &Settings,
) -> Result<Vec<u8>, Refusal>
    requires asked { IsAsked J.of }
    requires settings { settings.now ≡ J.of.settings }
    requires home { IsHome J.of Src.source number source.old }
    requires work { IsAtWork J.of book.old (task 3 number) }
    requires cut { IsCutFor J.of cut.now.plan cut.now.tree }
    ensures home { IsHome J.of Src.source number source.new }
    ensures value { IfOk result (λ file. J.of.premises → IsFileOf (job_of J.of) file.items (Split number)) }
    ensures cause { IfErr result (IsFailed J.of Src.source (task 3 number) (Some source.new) book.new.faults) }
    ensures still { IsStill book.old book.new }
{
    let bytes = read_source::<J, Src>(alloc, source, Task { kind: 3, number })?;
    let map = book.read_file(JobFile::Map(number))?;
    split_file::<J>(alloc, source.name(), &bytes, number, settings, &map, cut)
}

// The file of a task of an input. The partitions stay known.
fn make_of_input<J: Job, Src: Source, S: Store>(
    alloc: Global,
    book: &mut Book<J, Src, S>,
    known: &mut Option<Cut>,
    source: &mut Src,
    of: Task,
    settings: &Settings,
) -> Result<Vec<u8>, Refusal>
    requires asked { IsAsked J.of }
    requires settings { settings.now ≡ J.of.settings }
    requires home { IsHome J.of Src.source of.number source.old }
    requires work { IsAtWork J.of book.old of }
    requires known { IfSome known.old (λ cut. IsCutFor J.of cut.plan cut.tree) }
    ensures home { IsHome J.of Src.source of.number source.new }
    ensures value { IfOk result (λ file. J.of.premises → IsValue (job_of J.of) of file.items) }
    ensures cause { IfErr result (IsFailed J.of Src.source of (Some source.new) book.new.faults) }
    ensures still { IsStill book.old book.new }
    ensures known { IfSome known.new (λ cut. IsCutFor J.of cut.plan cut.tree) }
{
    if of.kind == 1 {
        return map_input::<J, Src>(alloc, source, of.number, settings);
    }
    if of.kind != 3 {
        return Err(Refusal::Memory);
    }
    let cut = known_cut(alloc, book, known.take(), settings, of)?;
    let made = split_input(alloc, book, &cut, source, of.number, settings);
    *known = Some(cut);
    made
}

// The file of a task of which the partitions are to be known.
fn make_by_cut<J: Job, Src: Source, S: Store>(
    alloc: Global,
    book: &mut Book<J, Src, S>,
    cut: &Cut,
    of: Task,
    settings: &Settings,
) -> Result<Vec<u8>, Refusal>
    requires asked { IsAsked J.of }
    requires settings { settings.now ≡ J.of.settings }
    requires work { IsAtWork J.of book.old of }
    requires cut { IsCutFor J.of cut.now.plan cut.now.tree }
    ensures value { IfOk result (λ file. J.of.premises → IsValue (job_of J.of) of file.items) }
    ensures cause { IfErr result (IsFailed J.of Src.source of None book.new.faults) }
    ensures still { IsStill book.old book.new }
{
    if of.kind == 4 {
        return make_part(alloc, book, cut, of.number);
    }
    if of.kind == 5 {
        return make_margin_split(alloc, book, cut, of.number, settings);
    }
    if of.kind == 6 {
        return make_margin(alloc, book, cut, of.number);
    }
    if of.kind == 7 {
        return make_list(alloc, book, cut, of.number, settings);
    }
    Err(Refusal::Memory)
}

// The file of a task without an input. The partitions stay known.
fn make<J: Job, Src: Source, S: Store>(
    alloc: Global,
    book: &mut Book<J, Src, S>,
    known: &mut Option<Cut>,
    of: Task,
    settings: &Settings,
) -> Result<Vec<u8>, Refusal>
    requires asked { IsAsked J.of }
    requires settings { settings.now ≡ J.of.settings }
    requires work { IsAtWork J.of book.old of }
    requires known { IfSome known.old (λ cut. IsCutFor J.of cut.plan cut.tree) }
    ensures value { IfOk result (λ file. J.of.premises → IsValue (job_of J.of) of file.items) }
    ensures cause { IfErr result (IsFailed J.of Src.source of None book.new.faults) }
    ensures still { IsStill book.old book.new }
    ensures known { IfSome known.new (λ cut. IsCutFor J.of cut.plan cut.tree) }
{
    if of.kind == 2 && of.number == 0 {
        return make_plan(alloc, book, settings);
    }
    if of.kind == 8 && of.number == 0 {
        return make_properties(alloc, book, settings);
    }
    if of.kind < 4 || of.kind > 7 {
        return Err(Refusal::Memory);
    }
    let cut = known_cut(alloc, book, known.take(), settings, of)?;
    let made = make_by_cut(alloc, book, &cut, of, settings);
    *known = Some(cut);
    made
}

// Hands in the file of a held task, or why there is none.
fn hand_in<J: Job, Src: Source, S: Store>(
    book: &mut Book<J, Src, S>,
    claimed: Claimed<Src>,
    made: Result<Vec<u8>, Refusal>,
)
    requires work { IsAtWork J.of book.old claimed.task }
    requires source { IsOwn J.of Src.source claimed.task claimed.source }
    requires value { IfOk made (λ file. J.of.premises → IsValue (job_of J.of) claimed.task file.items) }
    requires cause { IfErr made (IsFailed J.of Src.source claimed.task claimed.source book.old.faults) }
    ensures free { book.new.held ≡ None }
    ensures settings { book.new.settings ≡ book.old.settings }
    ensures later { book.old.faults ≤ book.new.faults }
{
    match made {
        Ok(file) => {
            let _ = book.finish(0, claimed, &file);
        }
        Err(refusal) => book.refuse(0, claimed, refusal),
    }
}

// Does a task of an input.
fn carry_input<J: Job, Src: Source, S: Store>(
    alloc: Global,
    book: &mut Book<J, Src, S>,
    known: &mut Option<Cut>,
    source: Src,
    of: Task,
    settings: &Settings,
)
    requires asked { IsAsked J.of }
    requires settings { settings.now ≡ J.of.settings }
    requires work { IsAtWork J.of book.old of }
    requires source { IsOwn J.of Src.source of (Some source) }
    requires known { IfSome known.old (λ cut. IsCutFor J.of cut.plan cut.tree) }
    ensures free { book.new.held ≡ None }
    ensures settings { book.new.settings ≡ book.old.settings }
    ensures known { IfSome known.new (λ cut. IsCutFor J.of cut.plan cut.tree) }
    ensures later { book.old.faults ≤ book.new.faults }
{
    let mut source = source;
    let made = make_of_input(alloc, book, known, &mut source, of, settings);
    hand_in(
        book,
        Claimed {
            task: of,
            source: Some(source),
        },
        made,
    );
}

// Does a task without an input.
fn carry_files<J: Job, Src: Source, S: Store>(
    alloc: Global,
    book: &mut Book<J, Src, S>,
    known: &mut Option<Cut>,
    of: Task,
    settings: &Settings,
)
    requires asked { IsAsked J.of }
    requires settings { settings.now ≡ J.of.settings }
    requires work { IsAtWork J.of book.old of }
    requires source { IsOwn J.of Src.source of None }
    requires known { IfSome known.old (λ cut. IsCutFor J.of cut.plan cut.tree) }
    ensures free { book.new.held ≡ None }
    ensures settings { book.new.settings ≡ book.old.settings }
    ensures known { IfSome known.new (λ cut. IsCutFor J.of cut.plan cut.tree) }
    ensures later { book.old.faults ≤ book.new.faults }
{
    let made = make(alloc, book, known, of, settings);
    hand_in(
        book,
        Claimed {
            task: of,
            source: None,
        },
        made,
    );
}

/// Does a task that the worker holds, and hands in its file or its refusal. The partitions stay known.
pub(crate) fn carry<J: Job, Src: Source, S: Store>(
    alloc: Global,
    book: &mut Book<J, Src, S>,
    known: &mut Option<Cut>,
    claimed: Claimed<Src>,
    settings: &Settings,
)
    requires asked { IsAsked J.of }
    requires settings { settings.now ≡ J.of.settings }
    requires work { IsAtWork J.of book.old claimed.task }
    requires source { IsOwn J.of Src.source claimed.task claimed.source }
    requires known { IfSome known.old (λ cut. IsCutFor J.of cut.plan cut.tree) }
    ensures free { book.new.held ≡ None }
    ensures settings { book.new.settings ≡ book.old.settings }
    ensures known { IfSome known.new (λ cut. IsCutFor J.of cut.plan cut.tree) }
    ensures later { book.old.faults ≤ book.new.faults }
{
    let Claimed { task, source } = claimed;
    match source {
        Some(source) => carry_input(alloc, book, known, source, task, settings),
        None => carry_files(alloc, book, known, task, settings),
    }
}
