//! Books that open over a store in memory, and those that don't.
ghost use Rattle.std.specs.Prelude.{◌≡◌, ◌≤◌, All, IfOk, None, length, map};
ghost use Rattle.hx_base.specs.FileWords.{IsFileWord};
ghost use Rattle.hx_base.specs.Limits.{FitsLimits, most_inputs};
ghost use Rattle.hx_book.specs.Books.{AreNamed};

use crate::{Back, Book, Claim, Closed, Job};
use hx_base::{JobFile, Name, Refusal, Settings, Task, is_file_word};
use hx_mem::{MemSource, MemStore};
use hx_outside::{Source, Store};
use std::alloc::Global;
use std::marker::Brand;
use std::test::Fail;

const JOURNAL: &str = "t.work/journal";

const HEADER: &[u8] =
    b"hats-journal 1\nname t\nlowest 0\nhighest 1\nthreshold 2\nmargin_order 10\ninputs 1\ninput 40 a.csv\nend\n";

// The record of the map task, whose file has 40 bytes, and of the plan, whose file has 32, over one row.
const MAP: &[u8] = &[
    1, 1, 0, 0, 0, 0, 40, 0, 0, 0, 0, 0, 0, 0, 1, 0, 0, 0, 0, 0, 0, 0, 0, 0, 0, 0, 0, 0, 0, 0, 0,
    0, 0,
];

const PLAN: &[u8] = &[
    1, 2, 0, 0, 0, 0, 32, 0, 0, 0, 0, 0, 0, 0, 1, 0, 0, 0, 0, 0, 0, 0, 0, 0, 0, 0, 0, 0, 0, 0, 0,
    0, 0,
];

// One partition, of order 1, with a row.
const PLAN_FILE: &[u8] = &[
    b'H', b'X', b'P', b'1', 1, 0, 0, 0, 0, 0, 0, 0, 1, 0, 0, 0, 3, 0, 0, 0, 0, 0, 0, 0, 1, 0, 0, 0,
    0, 0, 0, 0,
];

// What came of a book: why it was refused, the task that it gave, how many sources came back, and the store.
#[derive(Drop)]
struct Asked<S> {
    refusal: Option<Refusal>,
    task: Option<Task>,
    inputs: usize,
    store: S,
}

// Asks for a task, and gives it back for want of memory.
fn ask<J: Job, Src: Source, S: Store>(book: &mut Book<J, Src, S>) -> Option<Task>
    requires { book.old.held ≡ None }
    ensures { book.new.held ≡ None }
{
    match book.claim(0) {
        Claim::Take(claimed) => {
            let task = claimed.task;
            book.refuse(0, claimed, Refusal::Memory);
            Some(task)
        }
        Claim::Idle => None,
        Claim::Stopped => None,
        Claim::Done => None,
    }
}

// Opens a book, asks for a task and closes the book.
fn open_in<J: Job, Src: Source, S: Store>(
    alloc: Global,
    settings: Settings,
    inputs: Vec<Src>,
    store: S,
) -> Asked<S>
    requires named { AreNamed J.of Src.source S.disk settings inputs.items store }
    requires some { 1 ≤ length inputs.items }
    requires few { length inputs.items ≤ most_inputs }
    requires words { All IsFileWord (map Src.source.label inputs.items) }
    requires limits { FitsLimits settings }
{
    let mut book = match Book::<J, Src, S>::open(alloc, settings, inputs, store) {
        Ok(book) => book,
        Err(back) => {
            let Back {
                refusal,
                inputs,
                store,
            } = back;
            return Asked {
                refusal: Some(refusal),
                task: None,
                inputs: inputs.len(),
                store,
            };
        }
    };
    let task = ask(&mut book);
    let Closed {
        refusal,
        inputs,
        store,
        ..
    } = book.close();
    Asked {
        refusal,
        task,
        inputs: inputs.len(),
        store,
    }
}

// It with the names of these arguments.
fn open_named<Src: Source, S: Store>(
    alloc: Global,
    settings: Settings,
    inputs: Vec<Src>,
    store: S,
) -> Asked<S>
    requires some { 1 ≤ length inputs.items }
    requires few { length inputs.items ≤ most_inputs }
    requires words { All IsFileWord (map Src.source.label inputs.items) }
    requires limits { FitsLimits settings }
{
    open_in::<Brand, Src, S>(alloc, settings, inputs, store)
}

// The one input of a job.
fn only<Src: Source>(alloc: Global, source: Src) -> Result<Vec<Src>, Fail>
    ensures one { IfOk result (λ inputs. length inputs.items ≡ 1) }
    ensures words { IfOk result (λ inputs. All IsFileWord (map Src.source.label inputs.items)) }
{
    if !is_file_word(source.name()) {
        return Err("no file word".into());
    }
    let mut inputs = Vec::new(alloc);
    inputs.push(source)?;
    Ok(inputs)
}

fn settings_with(alloc: Global, threshold: u64) -> Result<Settings, Fail>
    ensures { IfOk result FitsLimits }
{
    let settings = Settings {
        name: Name::new(alloc, "t")?.ok_or("no name")?,
        lowest: 0,
        highest: 1,
        threshold,
        margin_order: 10,
    };
    if !settings.fits() {
        return Err("settings".into());
    }
    Ok(settings)
}

// Opens the book of a job with an input of 40 bytes over a store.
fn open_over(alloc: Global, threshold: u64, store: MemStore) -> Result<Asked<MemStore>, Fail> {
    let settings = settings_with(alloc, threshold)?;
    let source = MemSource::new(alloc, "a.csv", &[b'x'; 40])?;
    let inputs = only(alloc, source)?;
    Ok(open_named(alloc, settings, inputs, store))
}

// A journal of the job with threshold 2: these blocks behind its header, and a closed gate.
fn journal(alloc: Global, blocks: &[&[u8]]) -> Result<Vec<u8>, Fail> {
    let mut bytes = Vec::new(alloc);
    bytes.extend_from_slice(HEADER)?;
    for block in blocks {
        bytes.extend_from_slice(block)?;
    }
    bytes.push(0)?;
    Ok(bytes)
}

fn store_with(alloc: Global, blocks: &[&[u8]]) -> Result<MemStore, Fail> {
    let mut store = MemStore::new(alloc);
    store.put(JOURNAL, &journal(alloc, blocks)?)?;
    store.put("t.work/plan", PLAN_FILE)?;
    Ok(store)
}

fn damaged(file: JobFile, place: u64) -> Refusal {
    Refusal::Damaged {
        side: 1,
        file,
        place,
    }
}

const fn task(kind: u8, number: u32) -> Task {
    Task { kind, number }
}

#[test]
fn a_new_journal(rt: HostRuntime) -> Result<(), Fail> {
    let alloc = rt.alloc();
    let asked = open_over(alloc, 2, MemStore::new(alloc))?;
    assert_eq!(rt; asked.task, Some(task(1, 0)));
    assert_eq!(rt; asked.refusal, Some(Refusal::Memory));
    assert_eq!(rt; asked.inputs, 1);
    let kept = asked.store.file(JOURNAL).ok_or("no journal")?;
    assert!(rt; kept == journal(alloc, &[])?.as_slice());
    Ok(())
}

#[test]
fn journals_that_are_taken_up(rt: HostRuntime) -> Result<(), Fail> {
    let alloc = rt.alloc();
    let cases: [(&[&[u8]], Option<Task>, Option<Refusal>); 5] = [
        (&[MAP], Some(task(2, 0)), Some(Refusal::Memory)),
        (&[MAP, PLAN], Some(task(3, 0)), Some(Refusal::Memory)),
        (&[PLAN], None, Some(damaged(JobFile::Journal, 97))),
        (&[MAP, MAP], None, Some(damaged(JobFile::Journal, 130))),
        (
            &[MAP, PLAN, PLAN],
            None,
            Some(damaged(JobFile::Journal, 163)),
        ),
    ];
    for (blocks, wanted, refusal) in cases {
        let asked = open_over(alloc, 2, store_with(alloc, blocks)?)?;
        assert_eq!(rt; asked.task, wanted);
        assert_eq!(rt; asked.refusal, refusal);
        assert_eq!(rt; asked.inputs, 1);
    }
    Ok(())
}

#[test]
fn names_of_others(rt: HostRuntime) -> Result<(), Fail> {
    let alloc = rt.alloc();
    let mut taken = MemStore::new(alloc);
    taken.put("t/hats.properties", b"x")?;
    let asked = open_over(alloc, 2, taken)?;
    assert_eq!(rt; asked.refusal, Some(Refusal::NameTaken));
    assert_eq!(rt; asked.inputs, 1);
    assert!(rt; asked.store.file(JOURNAL).is_none());
    let asked = open_over(alloc, 3, store_with(alloc, &[MAP])?)?;
    let other = Refusal::OtherJob {
        place: 51,
        kept: 50,
        asked: 51,
    };
    assert_eq!(rt; asked.refusal, Some(other));
    assert_eq!(rt; asked.inputs, 1);
    Ok(())
}

#[test]
fn plans_that_are_gone(rt: HostRuntime) -> Result<(), Fail> {
    let alloc = rt.alloc();
    let mut store = MemStore::new(alloc);
    store.put(JOURNAL, &journal(alloc, &[MAP, PLAN])?)?;
    let asked = open_over(alloc, 2, store)?;
    assert_eq!(rt; asked.refusal, Some(damaged(JobFile::Plan, 0)));
    let mut store = store_with(alloc, &[MAP, PLAN])?;
    store.fail_calls(&[0])?;
    let asked = open_over(alloc, 2, store)?;
    assert_eq!(rt; asked.refusal, Some(Refusal::StoreFault));
    Ok(())
}
