//! Folders cleaned, with and without a journal, and crashes within.
mod damaging;
mod importing;
mod journals;
mod refusing;
mod skies;
mod stopping;

use crate::clean;
use hx_base::{JobFile, Name, Refusal};
use hx_mem::MemStore;
use std::alloc::Global;
use std::test::Fail;

const JOURNAL: &str = "t.work/journal";

const HEADER: &[u8] =
    b"hats-journal 1\nname t\nlowest 0\nhighest 1\nthreshold 2\nmargin_order 10\ninputs 1\ninput 40 a.csv\nend\n";

// Each file beside the journal of an import of one input into one partition, whether a task of the journal left it,
// and whether it stands in the folder for work.
const FILES: &[(&str, u8, u8)] = &[
    ("t.work/map-0", 1, 0),
    ("t.work/plan", 2, 0),
    ("t.work/split-0", 3, 0),
    ("t/dataset/Norder=0/Dir=0/Npix=0.parquet", 4, 0),
    ("t.work/msplit-0", 5, 0),
    ("t_margin/dataset/Norder=0/Dir=0/Npix=0.parquet", 6, 0),
    ("t/partition_info.csv", 7, 0),
    ("t_margin/partition_info.csv", 7, 1),
    ("t_margin/hats.properties", 7, 2),
    ("t/hats.properties", 8, 0),
];

fn name_of(alloc: Global, text: &str) -> Result<Name, Fail> {
    Ok(Name::new(alloc, text)?.ok_or("no name")?)
}

fn is_work(path: &str) -> bool {
    path.starts_with("t.work/")
}

// An open gate, and the body of a record of a file of three bytes and no rows.
fn push_record(bytes: &mut Vec<u8>, kind: u8, number: u8) -> Result<(), Fail> {
    bytes.extend_from_slice(&[1, kind, number, 0, 0, 0, 3])?;
    for _ in 0..26 {
        bytes.push(0)?;
    }
    Ok(())
}

// The folder of a finished import, whose journal has the tasks of the first so many files recorded.
fn folder(alloc: Global, recorded: usize) -> Result<MemStore, Fail> {
    let mut store = MemStore::new(alloc);
    let mut journal = Vec::new(alloc);
    journal.extend_from_slice(HEADER)?;
    for (at, (path, kind, number)) in FILES.iter().enumerate() {
        store.put(path, b"abc")?;
        if at < recorded {
            push_record(&mut journal, *kind, *number)?;
        }
    }
    journal.push(0)?;
    store.put(JOURNAL, &journal)?;
    store.put("u.work/map-0", b"abc")?;
    Ok(store)
}

#[test]
fn work_files_go_and_the_catalogue_stays(rt: HostRuntime) -> Result<(), Fail> {
    let name = name_of(rt.alloc(), "t")?;
    let mut store = folder(rt.alloc(), 10)?;
    assert_eq!(rt; clean(rt.alloc(), &mut store, &name), Ok(()));
    for (path, _, _) in FILES {
        assert_eq!(rt; store.file(path).is_none(), is_work(path), "{path}");
    }
    assert!(rt; store.file(JOURNAL).is_none());
    assert!(rt; store.file("u.work/map-0").is_some());
    assert_eq!(rt; clean(rt.alloc(), &mut store, &name), Ok(()));
    Ok(())
}

#[test]
fn work_files_of_tasks_that_are_not_recorded_stay(rt: HostRuntime) -> Result<(), Fail> {
    let name = name_of(rt.alloc(), "t")?;
    let mut store = folder(rt.alloc(), 2)?;
    assert_eq!(rt; clean(rt.alloc(), &mut store, &name), Ok(()));
    for (at, (path, _, _)) in FILES.iter().enumerate() {
        assert_eq!(rt; store.file(path).is_none(), at < 2, "{path}");
    }
    assert!(rt; store.file(JOURNAL).is_none());
    Ok(())
}

#[test]
fn folders_that_are_not_cleaned(rt: HostRuntime) -> Result<(), Fail> {
    let name = name_of(rt.alloc(), "t")?;
    let other = name_of(rt.alloc(), "u")?;
    let mut store = folder(rt.alloc(), 10)?;
    let calls = store.calls();
    assert_eq!(rt;
        clean(rt.alloc(), &mut store, &other),
        Err(Refusal::NoCatalogue { side: 1 })
    );
    assert_eq!(rt; store.calls().checked_sub(calls), Some(1));
    assert!(rt; store.file("u.work/map-0").is_some());
    // A journal that ends in its header.
    store.put(JOURNAL, &HEADER[..20])?;
    let damaged = Refusal::Damaged {
        side: 1,
        file: JobFile::Journal,
        place: 0,
    };
    assert_eq!(rt; clean(rt.alloc(), &mut store, &name), Err(damaged));
    // And one that ends where its first gate should stand.
    store.put(JOURNAL, HEADER)?;
    let damaged = Refusal::Damaged {
        side: 1,
        file: JobFile::Journal,
        place: 97,
    };
    assert_eq!(rt; clean(rt.alloc(), &mut store, &name), Err(damaged));
    for (path, _, _) in FILES {
        assert!(rt; store.file(path).is_some(), "{path}");
    }
    Ok(())
}

#[test]
fn without_a_journal_nothing_changes(rt: HostRuntime) -> Result<(), Fail> {
    let name = name_of(rt.alloc(), "t")?;
    let mut store = MemStore::new(rt.alloc());
    for (path, _, _) in FILES {
        store.put(path, b"abc")?;
    }
    assert_eq!(rt; clean(rt.alloc(), &mut store, &name), Ok(()));
    for (path, _, _) in FILES {
        assert!(rt; store.file(path).is_some(), "{path}");
    }
    Ok(())
}

// Stopped after each of its calls, and the folder read as a crash may leave it: the catalogue stands, and the next run
// removes the rest.
#[test]
fn each_crash_within(rt: HostRuntime) -> Result<(), Fail> {
    let name = name_of(rt.alloc(), "t")?;
    let mut whole = folder(rt.alloc(), 10)?;
    assert_eq!(rt; clean(rt.alloc(), &mut whole, &name), Ok(()));
    for stop in 0..whole.calls() {
        for choice in 0..4 {
            let mut store = folder(rt.alloc(), 10)?;
            store.stop_after(stop);
            assert_eq!(rt;
                clean(rt.alloc(), &mut store, &name),
                Err(Refusal::StoreFault)
            );
            let mut store = store.reboot(choice)?;
            for (path, _, _) in FILES {
                assert!(rt;
                    is_work(path) || store.file(path).is_some(),
                    "{path} after {stop}"
                );
            }
            assert_eq!(rt; clean(rt.alloc(), &mut store, &name), Ok(()));
            assert!(rt; store.file(JOURNAL).is_none());
        }
    }
    Ok(())
}
