//! Imports over the folder of another job, or of none.
ghost use Rattle.std.specs.Prelude.{IfOk};
ghost use Rattle.hx_base.specs.Limits.{FitsLimits};

use super::skies::{JOURNAL, input, settings_of, with, with_byte};
use crate::{clean, import_one};
use hx_base::{JobFile, Name, Refusal, Settings};
use hx_book::Closed;
use hx_mem::{MemSource, MemStore};
use std::alloc::Global;
use std::process::Abort;
use std::test::Fail;

const PROPERTIES: &str = "t/hats.properties";

// What is asked for: the lowest and the highest order, the threshold, the margin order, and whether there are two inputs.
#[derive(Clone, Copy, Debug, PartialEq, Eq)]
struct Asked {
    lowest: u8,
    highest: u8,
    threshold: u64,
    margin_order: u8,
    name: &'static str,
    rows: &'static [(u32, u64)],
    twice: bool,
}

// An input of one row, of 43 bytes.
const JOB: Asked = Asked {
    lowest: 0,
    highest: 1,
    threshold: 2,
    margin_order: 10,
    name: "a.csv",
    rows: &[(7, 0)],
    twice: false,
};

// The journal of this job, with nothing recorded. Its lines begin at 0, 15, 22, 31, 41, 53, 69, 78 and 93, and its first
// gate stands at 97.
const KEPT: &[u8] =
    b"hats-journal 1\nname t\nlowest 0\nhighest 1\nthreshold 2\nmargin_order 10\ninputs 1\ninput 43 a.csv\nend\n\0";

fn settings(alloc: Global, asked: Asked) -> Result<Settings, Fail>
    ensures { IfOk result FitsLimits }
{
    settings_of(
        alloc,
        asked.lowest,
        asked.highest,
        asked.threshold,
        asked.margin_order,
    )
}

// Imports what is asked for.
fn import(
    alloc: Global,
    asked: Asked,
    store: MemStore,
) -> Result<Closed<MemSource, MemStore>, Fail> {
    let settings = settings(alloc, asked)?;
    let inputs = with(Vec::new(alloc), input(alloc, asked.name, asked.rows)?)?;
    if !asked.twice {
        return Ok(import_one(alloc, settings, inputs, store));
    }
    let both = with(inputs, input(alloc, asked.name, asked.rows)?)?;
    Ok(import_one(alloc, settings, both, store))
}

fn store_with(alloc: Global, path: &str, bytes: &[u8]) -> Result<MemStore, Fail> {
    let mut store = MemStore::new(alloc);
    store.put(path, bytes)?;
    Ok(store)
}

// Whether a file is absent, unless it is the one of this path.
fn is_absent(store: &MemStore, path: &str, other: &str) -> bool {
    if other == path {
        return true;
    }
    store.file(other).is_none()
}

// Over a folder with one file alone it is refused, and nothing changes.
fn is_refused(
    rt: &impl Abort,
    alloc: Global,
    asked: Asked,
    path: &str,
    bytes: &[u8],
    refusal: Refusal,
) -> Result<(), Fail> {
    let refused = import(alloc, asked, store_with(alloc, path, bytes)?)?;
    assert_eq!(rt; refused.refusal, Some(refusal));
    assert_eq!(rt;
        (refused.rows, refused.partitions, refused.margin),
        (0, 0, 0)
    );
    assert_eq!(rt; refused.inputs.len(), if asked.twice { 2 } else { 1 });
    assert_eq!(rt; refused.store.file(path), Some(bytes));
    for other in [JOURNAL, PROPERTIES, "t.work/tmp", "t.work/map-0"] {
        assert!(rt; is_absent(&refused.store, path, other), "{other}");
    }
    Ok(())
}

#[test]
fn journals_of_other_lines(rt: HostRuntime) -> Result<(), Fail> {
    let bad = &[(1, 3_458_764_513_820_540_928)];
    let cases: [(Asked, u64, u8, u8); 11] = [
        (Asked { lowest: 1, ..JOB }, 29, b'0', b'1'),
        (Asked { highest: 2, ..JOB }, 39, b'1', b'2'),
        (
            Asked {
                threshold: 3,
                ..JOB
            },
            51,
            b'2',
            b'3',
        ),
        (
            Asked {
                threshold: 20,
                ..JOB
            },
            52,
            b'\n',
            b'0',
        ),
        (
            Asked {
                margin_order: 9,
                ..JOB
            },
            66,
            b'1',
            b'9',
        ),
        (Asked { twice: true, ..JOB }, 76, b'1', b'2'),
        // Inputs of 62 and of 44 bytes.
        (
            Asked {
                rows: &[(7, 0), (7, 0)],
                ..JOB
            },
            84,
            b'4',
            b'6',
        ),
        (
            Asked {
                rows: &[(17, 0)],
                ..JOB
            },
            85,
            b'3',
            b'4',
        ),
        (
            Asked {
                name: "b.csv",
                ..JOB
            },
            87,
            b'a',
            b'b',
        ),
        (
            Asked {
                name: "a.parquet",
                ..JOB
            },
            89,
            b'c',
            b'p',
        ),
        // It comes before an input that can't be read.
        (
            Asked {
                threshold: 3,
                rows: bad,
                ..JOB
            },
            51,
            b'2',
            b'3',
        ),
    ];
    for (asked, place, kept, found) in cases {
        let other = Refusal::OtherJob {
            place,
            kept,
            asked: found,
        };
        is_refused(&rt, rt.alloc(), asked, JOURNAL, KEPT, other)?;
    }
    Ok(())
}

// A header's version and name are compared too, and a folder with properties is another job's as one without.
#[test]
fn journals_of_other_versions_and_names(rt: HostRuntime) -> Result<(), Fail> {
    for (place, kept, asked) in [(13, b'0', b'1'), (20, b'u', b't')] {
        let journal = with_byte(rt.alloc(), KEPT, place, kept)?;
        let other = Refusal::OtherJob {
            place: place as u64,
            kept,
            asked,
        };
        is_refused(&rt, rt.alloc(), JOB, JOURNAL, &journal, other)?;
        let mut store = store_with(rt.alloc(), JOURNAL, &journal)?;
        store.put(PROPERTIES, b"x")?;
        let refused = import(rt.alloc(), JOB, store)?;
        assert_eq!(rt; refused.refusal, Some(other));
        assert_eq!(rt; refused.store.file(PROPERTIES), Some(b"x".as_slice()));
    }
    Ok(())
}

// What stands behind the first closed gate counts for nothing, and is cut.
#[test]
fn another_line_and_then_the_first_again(rt: HostRuntime) -> Result<(), Fail> {
    let alloc = rt.alloc();
    let closed = with_byte(alloc, KEPT, 97, 0x37)?;
    let mut torn = closed.to_vec(alloc)?;
    torn.extend_from_slice(b"rubbish")?;
    let asked = Asked {
        threshold: 3,
        ..JOB
    };
    let refused = import(alloc, asked, store_with(alloc, JOURNAL, &torn)?)?;
    let other = Refusal::OtherJob {
        place: 51,
        kept: 50,
        asked: 51,
    };
    assert_eq!(rt; refused.refusal, Some(other));
    assert_eq!(rt; refused.store.file(JOURNAL), Some(closed.as_slice()));
    let done = import(alloc, JOB, refused.store)?;
    assert_eq!(rt; done.refusal, None);
    assert_eq!(rt; (done.rows, done.partitions, done.margin), (1, 1, 0));
    Ok(())
}

// Whatever they are, and whatever is asked for.
#[test]
fn properties_without_a_journal(rt: HostRuntime) -> Result<(), Fail> {
    let bad = &[(1, 3_458_764_513_820_540_928)];
    for bytes in [b"".as_slice(), b"format=hats-profile-1\n".as_slice()] {
        for asked in [
            JOB,
            Asked { rows: bad, ..JOB },
            Asked { twice: true, ..JOB },
        ] {
            is_refused(
                &rt,
                rt.alloc(),
                asked,
                PROPERTIES,
                bytes,
                Refusal::NameTaken,
            )?;
        }
    }
    Ok(())
}

#[test]
fn a_cleaned_import_is_taken(rt: HostRuntime) -> Result<(), Fail> {
    let alloc = rt.alloc();
    let name = Name::new(alloc, "t")?.ok_or("no name")?;
    let done = import(alloc, JOB, MemStore::new(alloc))?;
    assert_eq!(rt; done.refusal, None);
    let mut store = done.store;
    assert_eq!(rt; clean(alloc, &mut store, &name), Ok(()));
    let refused = import(alloc, JOB, store)?;
    assert_eq!(rt; refused.refusal, Some(Refusal::NameTaken));
    assert!(rt; refused.store.file(JOURNAL).is_none());
    Ok(())
}

// The kind and the number of a task behind an open gate, and how many rows its file has.
fn push_record(journal: &mut Vec<u8>, kind: u8, number: u8, rows: u32) -> Result<(), Fail> {
    journal.extend_from_slice(&[1, kind, number, 0, 0, 0, 40, 0, 0, 0, 0, 0, 0, 0])?;
    journal.extend_from_slice(&rows.to_le_bytes())?;
    journal.extend_from_slice(&[0; 15])?;
    Ok(())
}

// The journal of the job with these records: kind, number and rows.
fn journal_of(alloc: Global, records: &[(u8, u8, u32)]) -> Result<Vec<u8>, Fail> {
    let mut journal = KEPT.to_vec(alloc)?;
    journal.truncate(97);
    for (kind, number, rows) in records {
        push_record(&mut journal, *kind, *number, *rows)?;
    }
    journal.push(0)?;
    Ok(journal)
}

fn damaged_at(place: u64) -> Refusal {
    Refusal::Damaged {
        side: 1,
        file: JobFile::Journal,
        place,
    }
}

// By the place of the first gate whose record doesn't follow; a record takes 33 bytes.
#[test]
fn journals_whose_records_do_not_follow(rt: HostRuntime) -> Result<(), Fail> {
    let map = (1, 0, 1);
    let plan = (2, 0, 1);
    let cases: [(&[(u8, u8, u32)], u64); 10] = [
        (&[plan], 97),
        (&[(1, 1, 1)], 97),
        (&[(0, 0, 0)], 97),
        (&[(9, 0, 0)], 97),
        (&[(7, 0, 1)], 97),
        (&[map, map], 130),
        (&[map, (3, 0, 1)], 130),
        (&[map, (2, 0, 100_001)], 130),
        (&[map, plan, (4, 0, 1)], 163),
        (&[map, plan, (3, 0, 1), (4, 1, 1)], 196),
    ];
    for (records, place) in cases {
        let journal = journal_of(rt.alloc(), records)?;
        is_refused(&rt, rt.alloc(), JOB, JOURNAL, &journal, damaged_at(place))?;
    }
    Ok(())
}

#[test]
fn journals_that_are_none(rt: HostRuntime) -> Result<(), Fail> {
    let whole = journal_of(rt.alloc(), &[(1, 0, 1)])?;
    let cases: [(usize, u64); 6] = [
        // No header, or a part of it; no gate; an open gate with 32 bytes behind it, and with fewer.
        (0, 0),
        (96, 0),
        (97, 97),
        (130, 97),
        (129, 97),
        (98, 97),
    ];
    for (len, place) in cases {
        let mut journal = whole.to_vec(rt.alloc())?;
        journal.truncate(len);
        is_refused(&rt, rt.alloc(), JOB, JOURNAL, &journal, damaged_at(place))?;
    }
    // A version that isn't known, and a record with a byte behind its rows.
    for (at, byte, place) in [(13, b'2', 0), (120, 1, 97)] {
        let journal = with_byte(rt.alloc(), &whole, at, byte)?;
        is_refused(&rt, rt.alloc(), JOB, JOURNAL, &journal, damaged_at(place))?;
    }
    Ok(())
}
