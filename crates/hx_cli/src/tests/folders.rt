//! Catalogues imported, taken up again and cleaned, over folders in memory.
use super::{ALL, Given, Shown, run_in, text_of};
use hx_base::{JobFile, Refusal};
use hx_mem::MemStore;
use std::alloc::{AllocError, Global};
use std::process::Abort;
use std::test::Fail;

const HEADER: &[u8] = b"id,_healpix_29,cx,cy,cz\n";

pub(super) const SEVEN: &[u8] = b"id,_healpix_29,cx,cy,cz\n7,0,1000000000,0,0\n";

pub(super) const SEVEN_TWICE: &[u8] =
    b"id,_healpix_29,cx,cy,cz\n7,0,1000000000,0,0\n7,0,1000000000,0,0\n";

// Order-1 pixels 3, 7 and 4.
pub(super) const THREE: &[u8] =
    b"id,_healpix_29,cx,cy,cz\n1,216172782113783808,1000000000,0,0\n2,504403158265495552,1000000000,0,0\n3,288230376151711744,1000000000,0,0\n";

pub(super) const IMPORT_THREE: &str = "import --highest 0 --margin-order 1 t a.csv";

/// Runs a line over these inputs and a folder.
pub(super) fn run_line(
    alloc: Global,
    line: &str,
    contents: &[&[u8]],
    store: MemStore,
) -> Result<(Shown, MemStore), AllocError> {
    let given = Given {
        contents,
        most: ALL,
        failing: &[],
        room: 200,
    };
    run_in(alloc, line, &given, store)
}

/// The folder after a line that isn't refused and writes this text.
pub(super) fn after(
    rt: &impl Abort,
    alloc: Global,
    line: &str,
    contents: &[&[u8]],
    store: MemStore,
    text: &[u8],
) -> Result<MemStore, Fail> {
    let (shown, store) = run_line(alloc, line, contents, store)?;
    assert_eq!(rt; shown.refusal, None, "{line}");
    assert_eq!(rt; shown.status, 0, "{line}");
    assert_eq!(rt; shown.written.as_slice(), text, "{line}");
    Ok(store)
}

/// The folder after a line that is refused so.
pub(super) fn refused(
    rt: &impl Abort,
    alloc: Global,
    line: &str,
    contents: &[&[u8]],
    store: MemStore,
    refusal: Refusal,
) -> Result<MemStore, Fail> {
    let (shown, store) = run_line(alloc, line, contents, store)?;
    assert_eq!(rt; shown.refusal, Some(refusal), "{line}");
    assert_eq!(rt; shown.status, refusal.status(), "{line}");
    assert!(rt; shown.written.is_empty(), "{line}");
    Ok(store)
}

fn has_text(rt: &impl Abort, store: &MemStore, file: &str, text: &[u8]) {
    assert!(rt;
        store.file(file).is_some_and(|bytes| bytes == text),
        "{file}"
    );
}

#[test]
fn no_rows(rt: HostRuntime) -> Result<(), Fail> {
    let alloc = rt.alloc();
    let text = b"t rows 0 partitions 0 margin 0\n";
    let store = after(
        &rt,
        alloc,
        "import t a.csv",
        &[HEADER],
        MemStore::new(alloc),
        text,
    )?;
    has_text(&rt, &store, "t/partition_info.csv", b"Norder,Npix\n");
    has_text(&rt, &store, "t_margin/partition_info.csv", b"Norder,Npix\n");
    let bad = Refusal::BadInput {
        input: 0,
        row: 0,
        why: 1,
    };
    let _store = refused(
        &rt,
        alloc,
        "import t a.csv",
        &[b""],
        MemStore::new(alloc),
        bad,
    )?;
    Ok(())
}

#[test]
fn rows_that_come_again(rt: HostRuntime) -> Result<(), Fail> {
    let alloc = rt.alloc();
    let inputs = [SEVEN_TWICE, SEVEN];
    let text = b"t rows 3 partitions 1 margin 0\n";
    let store = after(
        &rt,
        alloc,
        "import t a.csv b.csv",
        &inputs,
        MemStore::new(alloc),
        text,
    )?;
    has_text(&rt, &store, "t/partition_info.csv", b"Norder,Npix\n0,0\n");
    has_text(
        &rt,
        &store,
        "t/hats.properties",
        b"format=hats-profile-1\nname=t\nkind=object\nrows=3\nlowest=0\nhighest=7\nthreshold=1000000\nmargin_order=10\npartitions=1\n",
    );
    has_text(
        &rt,
        &store,
        "t_margin/hats.properties",
        b"format=hats-profile-1\nname=t\nkind=margin\nrows=0\nlowest=0\nhighest=7\nthreshold=1000000\nmargin_order=10\npartitions=1\n",
    );
    Ok(())
}

#[test]
fn partitions_and_margins(rt: HostRuntime) -> Result<(), Fail> {
    let alloc = rt.alloc();
    let text = b"t rows 3 partitions 2 margin 2\n";
    let store = after(
        &rt,
        alloc,
        IMPORT_THREE,
        &[THREE],
        MemStore::new(alloc),
        text,
    )?;
    has_text(
        &rt,
        &store,
        "t/partition_info.csv",
        b"Norder,Npix\n0,0\n0,1\n",
    );
    has_text(
        &rt,
        &store,
        "t_margin/partition_info.csv",
        b"Norder,Npix\n0,0\n0,1\n",
    );
    // The same line again: it is answered from the journal.
    let calls = store.calls();
    let store = after(&rt, alloc, IMPORT_THREE, &[THREE], store, text)?;
    assert!(&rt; store.calls().wrapping_sub(calls) < 100);
    Ok(())
}

#[test]
fn cleaned(rt: HostRuntime) -> Result<(), Fail> {
    let alloc = rt.alloc();
    let text = b"t rows 3 partitions 2 margin 2\n";
    let store = after(
        &rt,
        alloc,
        IMPORT_THREE,
        &[THREE],
        MemStore::new(alloc),
        text,
    )?;
    let store = after(&rt, alloc, "clean t", &[], store, b"t clean\n")?;
    assert!(&rt; store.file("t.work/journal").is_none());
    assert!(&rt; store.file("t.work/map-0").is_none());
    assert!(&rt; store.file("t/hats.properties").is_some());
    // A cleaning without a journal changes nothing.
    let store = after(&rt, alloc, "clean t", &[], store, b"t clean\n")?;
    let store = refused(
        &rt,
        alloc,
        IMPORT_THREE,
        &[THREE],
        store,
        Refusal::NameTaken,
    )?;
    let none = Refusal::NoCatalogue { side: 1 };
    let _store = refused(&rt, alloc, "clean u", &[], store, none)?;
    Ok(())
}

#[test]
fn cleaned_with_a_damaged_journal(rt: HostRuntime) -> Result<(), Fail> {
    let alloc = rt.alloc();
    let mut store = MemStore::new(alloc);
    store.put("t/hats.properties", b"")?;
    store.put("t.work/journal", b"no journal")?;
    let damaged = Refusal::Damaged {
        side: 1,
        file: JobFile::Journal,
        place: 0,
    };
    let store = refused(&rt, alloc, "clean t", &[], store, damaged)?;
    has_text(&rt, &store, "t.work/journal", b"no journal");
    Ok(())
}

#[test]
fn another_job(rt: HostRuntime) -> Result<(), Fail> {
    let alloc = rt.alloc();
    let line = "import --highest 1 --threshold 2 t a.csv";
    let (_shown, store) = run_line(alloc, line, &[THREE], MemStore::new(alloc))?;
    let other = Refusal::OtherJob {
        place: 51,
        kept: 50,
        asked: 51,
    };
    let line = "import --highest 1 --threshold 3 t a.csv";
    let _store = refused(&rt, alloc, line, &[THREE], store, other)?;
    let text = text_of(alloc, &other)?;
    assert_eq!(&rt;
        text.as_slice(),
        b"other job at 51 kept 50 asked 51".as_slice()
    );
    Ok(())
}

#[test]
fn too_many_inputs_come_before_a_taken_name(rt: HostRuntime) -> Result<(), Fail> {
    let alloc = rt.alloc();
    let mut line = String::from_str(alloc, "import t")?;
    for _ in 0..10_001 {
        line.push_str(" a.csv")?;
    }
    let mut store = MemStore::new(alloc);
    store.put("t/hats.properties", b"")?;
    let many = Refusal::TooMany {
        what: 1,
        found: 10_001,
        limit: 10_000,
    };
    let store = refused(&rt, alloc, line.as_str(), &[], store, many)?;
    let _store = refused(
        &rt,
        alloc,
        "import t a.csv",
        &[SEVEN],
        store,
        Refusal::NameTaken,
    )?;
    Ok(())
}

// A call of the store and one of an input that fail, and a sink that is full: the same line again goes on.
#[test]
fn faults(rt: HostRuntime) -> Result<(), Fail> {
    let alloc = rt.alloc();
    let line = "import t a.csv";
    let text = b"t rows 1 partitions 1 margin 0\n";
    let mut store = MemStore::new(alloc);
    store.fail_calls(&[1])?;
    let store = refused(&rt, alloc, line, &[SEVEN], store, Refusal::StoreFault)?;
    let _store = after(&rt, alloc, line, &[SEVEN], store, text)?;
    let given = Given {
        contents: &[SEVEN],
        most: ALL,
        failing: &[&[1]],
        room: 200,
    };
    let (shown, store) = run_in(alloc, line, &given, MemStore::new(alloc))?;
    assert_eq!(&rt; shown.refusal, Some(Refusal::InputFault { input: 0 }));
    let store = after(&rt, alloc, line, &[SEVEN], store, text)?;
    let given = Given {
        contents: &[SEVEN],
        most: ALL,
        failing: &[],
        room: 3,
    };
    let (shown, store) = run_in(alloc, line, &given, store)?;
    assert_eq!(&rt; shown.refusal, Some(Refusal::SinkFault));
    assert_eq!(&rt; shown.written.as_slice(), b"t r".as_slice());
    let _store = after(&rt, alloc, line, &[SEVEN], store, text)?;
    Ok(())
}

// An import that is stopped after each number of calls of the store, over a folder as a crash may leave it, and done
// again.
#[test]
fn stopped_and_done_again(rt: HostRuntime) -> Result<(), Fail> {
    let alloc = rt.alloc();
    let text = b"t rows 3 partitions 2 margin 2\n";
    let whole = after(
        &rt,
        alloc,
        IMPORT_THREE,
        &[THREE],
        MemStore::new(alloc),
        text,
    )?;
    for calls in 0..whole.calls() {
        let mut store = MemStore::new(alloc);
        store.stop_after(calls);
        let store = refused(
            &rt,
            alloc,
            IMPORT_THREE,
            &[THREE],
            store,
            Refusal::StoreFault,
        )?;
        let store = store.reboot(calls)?;
        let store = after(&rt, alloc, IMPORT_THREE, &[THREE], store, text)?;
        for file in [
            "t/dataset/Norder=0/Dir=0/Npix=0.parquet",
            "t/dataset/Norder=0/Dir=0/Npix=1.parquet",
            "t_margin/dataset/Norder=0/Dir=0/Npix=0.parquet",
            "t_margin/dataset/Norder=0/Dir=0/Npix=1.parquet",
            "t/hats.properties",
        ] {
            assert_eq!(&rt; store.file(file), whole.file(file), "{file}");
        }
    }
    Ok(())
}
