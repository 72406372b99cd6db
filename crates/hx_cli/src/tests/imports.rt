//! What the files of imports read as.
use super::folders::{IMPORT_THREE, SEVEN, SEVEN_TWICE, THREE, after, refused, run_line};
use super::written::written_file;
use super::{ALL, Given, run_in};
use hx_base::{Refusal, Row};
use hx_mem::MemStore;
use hx_rows::read_rows;
use std::alloc::Global;
use std::process::Abort;
use std::test::Fail;

// The rows of three sources, in the pixels 3, 7 and 4 of order 1, by their ids and positions.
const A: (i64, u64) = (1, 216_172_782_113_783_808);

const B: (i64, u64) = (2, 504_403_158_265_495_552);

const C: (i64, u64) = (3, 288_230_376_151_711_744);

const TEXT: &[u8] = b"t rows 3 partitions 2 margin 2\n";

// All files of an import of the three.
const FILES: [&str; 14] = [
    "t/hats.properties",
    "t/partition_info.csv",
    "t/dataset/Norder=0/Dir=0/Npix=0.parquet",
    "t/dataset/Norder=0/Dir=0/Npix=1.parquet",
    "t_margin/hats.properties",
    "t_margin/partition_info.csv",
    "t_margin/dataset/Norder=0/Dir=0/Npix=0.parquet",
    "t_margin/dataset/Norder=0/Dir=0/Npix=1.parquet",
    "t.work/journal",
    "t.work/map-0",
    "t.work/plan",
    "t.work/split-0",
    "t.work/msplit-0",
    "t.work/msplit-1",
];

// A Parquet file reads as rows of these ids and positions.
fn has_rows(
    rt: &impl Abort,
    alloc: Global,
    store: &MemStore,
    path: &str,
    expected: &[(i64, u64)],
) -> Result<(), Fail> {
    let bytes = store.file(path).ok_or("no file")?;
    let Ok(rows) = read_rows(alloc, ".parquet", bytes) else {
        return Err("no rows".into());
    };
    let mut shown = Vec::new(alloc);
    for row in &rows {
        let Row { id, hp, x, y, z } = *row;
        assert_eq!(rt; (x, y, z), (1_000_000_000, 0, 0), "{path}");
        shown.push((id, hp))?;
    }
    assert_eq!(rt; shown.as_slice(), expected, "{path}");
    Ok(())
}

// The partitions and margins of the three rows.
fn has_three(rt: &impl Abort, alloc: Global, store: &MemStore) -> Result<(), Fail> {
    let cases: [(&str, &[(i64, u64)]); 4] = [
        (FILES[2], &[A]),
        (FILES[3], &[C, B]),
        (FILES[6], &[B]),
        (FILES[7], &[A]),
    ];
    for (path, rows) in cases {
        has_rows(rt, alloc, store, path, rows)?;
    }
    Ok(())
}

#[test]
fn three_equal_rows(rt: HostRuntime) -> Result<(), Fail> {
    let alloc = rt.alloc();
    let store = after(
        &rt,
        alloc,
        "import t a.csv b.csv",
        &[SEVEN_TWICE, SEVEN],
        MemStore::new(alloc),
        b"t rows 3 partitions 1 margin 0\n",
    )?;
    let part = "t/dataset/Norder=0/Dir=0/Npix=0.parquet";
    has_rows(&rt, alloc, &store, part, &[(7, 0), (7, 0), (7, 0)])?;
    let margin = "t_margin/dataset/Norder=0/Dir=0/Npix=0.parquet";
    has_rows(&rt, alloc, &store, margin, &[])
}

// The same line again changes no file, nor where bytes stand behind the journal's first closed gate, but for these.
#[test]
fn two_partitions_and_again(rt: HostRuntime) -> Result<(), Fail> {
    let alloc = rt.alloc();
    let inputs = [THREE];
    let whole = after(
        &rt,
        alloc,
        IMPORT_THREE,
        &inputs,
        MemStore::new(alloc),
        TEXT,
    )?;
    has_three(&rt, alloc, &whole)?;
    let mut store = after(
        &rt,
        alloc,
        IMPORT_THREE,
        &inputs,
        MemStore::new(alloc),
        TEXT,
    )?;
    for behind in [b"".as_slice(), b"rubbish".as_slice()] {
        let mut journal = whole
            .file("t.work/journal")
            .ok_or("no journal")?
            .to_vec(alloc)?;
        journal.extend_from_slice(behind)?;
        store.put("t.work/journal", &journal)?;
        store = after(&rt, alloc, IMPORT_THREE, &inputs, store, TEXT)?;
        for path in FILES {
            assert!(&rt; whole.file(path).is_some(), "{path}");
            assert_eq!(&rt; store.file(path), whole.file(path), "{path}");
        }
    }
    Ok(())
}

#[test]
fn a_table_of_a_common_writer(rt: HostRuntime) -> Result<(), Fail> {
    let alloc = rt.alloc();
    let table = written_file(alloc)?;
    let store = after(
        &rt,
        alloc,
        "import --highest 0 --margin-order 1 t a.parquet",
        &[&table],
        MemStore::new(alloc),
        TEXT,
    )?;
    has_three(&rt, alloc, &store)
}

// The journal behind its header once the map of an input of a row is recorded: a record of a file of 40 bytes with a
// row, and a closed gate. Twelve calls open a new journal, eight publish and record a file.
#[test]
fn journal_of_a_map(rt: HostRuntime) -> Result<(), Fail> {
    let alloc = rt.alloc();
    let mut store = MemStore::new(alloc);
    store.stop_after(20);
    let fault = Refusal::StoreFault;
    let store = refused(&rt, alloc, "import t a.csv", &[SEVEN], store, fault)?;
    let journal = store.file("t.work/journal").ok_or("no journal")?;
    let header =
        b"hats-journal 1\nname t\nlowest 0\nhighest 7\nthreshold 1000000\nmargin_order 10\ninputs 1\ninput 43 a.csv\nend\n";
    let blocks = journal.strip_prefix(header.as_slice()).ok_or("header")?;
    assert_eq!(&rt;
        blocks,
        b"\x01\x01\0\0\0\0\x28\0\0\0\0\0\0\0\x01\0\0\0\0\0\0\0\0\0\0\0\0\0\0\0\0\0\0\0".as_slice()
    );
    Ok(())
}

// The first read of an input fails, behind its length at the opening and at the reading: the same line goes on.
#[test]
fn first_read_that_fails(rt: HostRuntime) -> Result<(), Fail> {
    let alloc = rt.alloc();
    let given = Given {
        contents: &[SEVEN],
        most: ALL,
        failing: &[&[2]],
        room: 200,
    };
    let line = "import t a.csv";
    let (shown, store) = run_in(alloc, line, &given, MemStore::new(alloc))?;
    assert_eq!(&rt; shown.refusal, Some(Refusal::InputFault { input: 0 }));
    assert_eq!(&rt; shown.status, 6);
    let text = b"t rows 1 partitions 1 margin 0\n";
    let _store = after(&rt, alloc, line, &[SEVEN], store, text)?;
    Ok(())
}

// The journal of another line stands, and an input that can't be read is asked for: it isn't read. A clean of it is
// refused, since there is no catalogue.
#[test]
fn another_line_before_a_bad_input(rt: HostRuntime) -> Result<(), Fail> {
    let alloc = rt.alloc();
    let line = "import --highest 1 --threshold 2 t a.csv";
    let mut store = MemStore::new(alloc);
    store.stop_after(30);
    let (shown, store) = run_line(alloc, line, &[THREE], store)?;
    assert_eq!(&rt; shown.refusal, Some(Refusal::StoreFault));
    let store = store.reboot(0)?;
    let other = Refusal::OtherJob {
        place: 51,
        kept: 50,
        asked: 51,
    };
    let asked = "import --highest 1 --threshold 3 t a.csv";
    let store = refused(&rt, alloc, asked, &[b"no header"], store, other)?;
    let none = Refusal::NoCatalogue { side: 1 };
    let store = refused(&rt, alloc, "clean t", &[], store, none)?;
    let text = b"t rows 3 partitions 2 margin 0\n";
    let (shown, _store) = run_line(alloc, line, &[THREE], store)?;
    assert_eq!(&rt; shown.status, 0);
    assert_eq!(&rt; shown.written.as_slice(), text.as_slice());
    Ok(())
}
