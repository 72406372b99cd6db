//! Imports that go on over damaged files.
use super::journals::left_behind;
use super::skies::{Sky, finished, have_same_files, import, whole, with_byte};
use hx_base::{JobFile, Refusal};
use hx_mem::MemStore;
use hx_outside::Store;
use std::alloc::Global;
use std::process::Abort;
use std::test::Fail;

// The numbers of tasks up to the end of a stage.
const MAPPED: usize = 2;

const PLANNED: usize = 3;

const SPLIT: usize = 5;

const REDUCED: usize = 8;

const MARGINS_SPLIT: usize = 11;

const MARGINS_REDUCED: usize = 14;

const LISTED: usize = 17;

// The partitions' files.
const PART_0: &str = "t/dataset/Norder=0/Dir=0/Npix=0.parquet";

const PART_1: &str = "t/dataset/Norder=0/Dir=0/Npix=1.parquet";

const PART_2: &str = "t/dataset/Norder=0/Dir=0/Npix=3.parquet";

// What is done to a file.
#[derive(Clone, Copy, Debug, PartialEq, Eq)]
enum Harm {
    // It is removed.
    Gone,
    // It has this byte at this place.
    Byte(usize, u8),
    // It has so many bytes of its own alone.
    Cut(usize),
    // It has a byte more.
    More,
    // It has these bytes.
    Bytes(&'static [u8]),
    // It has the bytes of another file.
    As(&'static str),
}

// A plan of the partitions 0 and 1 of order 0, with a row and with two.
const SHORT_PLAN: &[u8] = b"HXP1\x02\0\0\0\0\0\0\0\
    \0\0\0\0\0\0\0\0\0\0\0\0\x01\0\0\0\0\0\0\0\
    \0\0\0\0\x01\0\0\0\0\0\0\0\x02\0\0\0\0\0\0\0";

// The plan, but that the last partition is a quarter of the pixel 3.
const DEEP_PLAN: &[u8] = b"HXP1\x03\0\0\0\0\0\0\0\
    \0\0\0\0\0\0\0\0\0\0\0\0\x01\0\0\0\0\0\0\0\
    \0\0\0\0\x01\0\0\0\0\0\0\0\x02\0\0\0\0\0\0\0\
    \x01\0\0\0\x0d\0\0\0\0\0\0\0\x01\0\0\0\0\0\0\0";

// A map of the first input that counts both rows in the pixel 0.
const OTHER_MAP: &[u8] = b"HXM1\0\0\0\0\x02\0\0\0\0\0\0\0\x01\0\0\0\0\0\0\0\
    \0\0\0\0\0\0\0\0\x02\0\0\0\0\0\0\0";

// Maps: magic 0, order 4, rows 8, pixels 16; the pixels 24 and 40, their counts behind them; 56 bytes.
const MAPS: &[(JobFile, Harm, u64)] = &[
    (JobFile::Map(0), Harm::Gone, 0),
    (JobFile::Map(1), Harm::Gone, 0),
    (JobFile::Map(0), Harm::Cut(0), 0),
    (JobFile::Map(0), Harm::Byte(3, b'2'), 0),
    // Another order than the job's, and none.
    (JobFile::Map(1), Harm::Byte(4, 1), 4),
    (JobFile::Map(1), Harm::Byte(4, 30), 4),
    // A wrong sum.
    (JobFile::Map(0), Harm::Byte(8, 3), 8),
    (JobFile::Map(0), Harm::Cut(20), 16),
    (JobFile::Map(0), Harm::Byte(24, 12), 24),
    (JobFile::Map(0), Harm::Byte(32, 0), 32),
    (JobFile::Map(0), Harm::Byte(40, 0), 40),
    (JobFile::Map(0), Harm::Cut(50), 48),
    // So many pixels that the next is cut short.
    (JobFile::Map(0), Harm::Byte(23, 255), 56),
    (JobFile::Map(1), Harm::More, 56),
];

// Plans: magic 0, partitions 4; the partitions 12, 32 and 52, each order, pixel 4 behind it, count 12; 72 bytes.
const PLANS: &[(JobFile, Harm, u64)] = &[
    (JobFile::Plan, Harm::Gone, 0),
    (JobFile::Plan, Harm::Cut(0), 0),
    (JobFile::Plan, Harm::Byte(0, b'h'), 0),
    (JobFile::Plan, Harm::Byte(4, 2), 52),
    (JobFile::Plan, Harm::Byte(10, 255), 4),
    (JobFile::Plan, Harm::Byte(12, 21), 12),
    (JobFile::Plan, Harm::Byte(16, 12), 16),
    (JobFile::Plan, Harm::Byte(24, 0), 24),
    (JobFile::Plan, Harm::Byte(27, 1), 24),
    // A partition that comes twice.
    (JobFile::Plan, Harm::Byte(36, 0), 36),
    (JobFile::Plan, Harm::Cut(70), 64),
    (JobFile::Plan, Harm::More, 72),
    // Fewer partitions than were recorded, and an order above the highest.
    (JobFile::Plan, Harm::Bytes(SHORT_PLAN), 0),
    (JobFile::Plan, Harm::Bytes(DEEP_PLAN), 0),
    // A partition of another pixel, so that none contains a row of the first input.
    (JobFile::Plan, Harm::Byte(56, 2), 0),
];

// Split files: magic 0, parts 4; the parts 12 and 32, each its number, the rows before it 4 behind, its rows 12 behind;
// the rows 52 and 80, each 28 bytes.
const SPLITS: &[(JobFile, Harm, u64)] = &[
    (JobFile::Split(0), Harm::Gone, 0),
    (JobFile::Split(1), Harm::Gone, 0),
    (JobFile::Split(1), Harm::Cut(0), 0),
    (JobFile::Split(0), Harm::Byte(1, b'x'), 0),
    // More parts than there are bytes, so that a row stands for the next; and more than bytes can be counted.
    (JobFile::Split(0), Harm::Byte(10, 1), 52),
    (JobFile::Split(0), Harm::Byte(11, 255), 24),
    (JobFile::Split(0), Harm::Byte(24, 0), 24),
    (JobFile::Split(0), Harm::Byte(32, 0), 32),
    (JobFile::Split(0), Harm::Byte(36, 2), 36),
    (JobFile::Split(0), Harm::Cut(60), 52),
    // A position that is too high, and a vector that is too long.
    (JobFile::Split(0), Harm::Byte(59, 255), 52),
    (JobFile::Split(0), Harm::Byte(103, 1), 80),
];

const PARTS: &[(JobFile, Harm, u64)] = &[
    (JobFile::Part(0), Harm::Gone, 0),
    (JobFile::Part(1), Harm::Gone, 0),
    (JobFile::Part(0), Harm::Byte(0, b'p'), 0),
    (JobFile::Part(2), Harm::Cut(11), 0),
    // The header of the first page.
    (JobFile::Part(0), Harm::Byte(4, 0x1d), 4),
    // Rows that lie in another partition.
    (JobFile::Part(0), Harm::As(PART_1), 0),
];

// They are as split files, but that the last has one part, whose row stands at 32.
const MARGIN_SPLITS: &[(JobFile, Harm, u64)] = &[
    (JobFile::MarginSplit(1), Harm::Gone, 0),
    (JobFile::MarginSplit(0), Harm::Byte(3, b'2'), 0),
    (JobFile::MarginSplit(0), Harm::Byte(32, 1), 32),
    (JobFile::MarginSplit(1), Harm::Cut(100), 80),
    (JobFile::MarginSplit(2), Harm::Byte(39, 255), 32),
    (JobFile::MarginSplit(2), Harm::Cut(12), 12),
];

// What no later task reads again, behind so many tasks.
const SPARED: &[(usize, &str, Harm)] = &[
    (SPLIT, "t.work/map-0", Harm::Gone),
    (SPLIT, "t.work/map-1", Harm::Cut(0)),
    // Of a split file what stands behind its rows.
    (SPLIT, "t.work/split-0", Harm::More),
    (REDUCED, "t.work/split-0", Harm::Gone),
    (REDUCED, "t.work/split-1", Harm::Byte(0, b'h')),
    (MARGINS_REDUCED, "t.work/msplit-0", Harm::Gone),
    (MARGINS_REDUCED, "t.work/msplit-2", Harm::Cut(0)),
    (LISTED, "t.work/plan", Harm::Gone),
    // Files of tasks that aren't recorded.
    (MAPPED, "t.work/plan", Harm::Bytes(b"HXP1")),
    (PLANNED, "t.work/split-0", Harm::Bytes(b"HXS1")),
    (SPLIT, PART_0, Harm::Bytes(b"PAR1")),
    (SPLIT, "t.work/tmp", Harm::Bytes(b"PAR1")),
];

fn path_of(file: JobFile) -> &'static str {
    match file {
        JobFile::Map(0) => "t.work/map-0",
        JobFile::Map(_) => "t.work/map-1",
        JobFile::Plan => "t.work/plan",
        JobFile::Split(0) => "t.work/split-0",
        JobFile::Split(_) => "t.work/split-1",
        JobFile::Part(0) => PART_0,
        JobFile::Part(1) => PART_1,
        JobFile::Part(_) => PART_2,
        JobFile::MarginSplit(0) => "t.work/msplit-0",
        JobFile::MarginSplit(1) => "t.work/msplit-1",
        JobFile::MarginSplit(_) => "t.work/msplit-2",
        _ => "",
    }
}

// The bytes of a file.
fn bytes_of<'a>(store: &'a MemStore, path: &str) -> Result<&'a [u8], Fail> {
    Ok(store.file(path).ok_or("no file")?)
}

// Bytes up to a place.
fn cut_at(alloc: Global, bytes: &[u8], place: usize) -> Result<Vec<u8>, Fail> {
    if place >= bytes.len() {
        return Err("no such place".into());
    }
    Ok(bytes[..place].to_vec(alloc)?)
}

// Bytes with one more.
fn with_more(alloc: Global, bytes: &[u8]) -> Result<Vec<u8>, Fail> {
    let mut more = bytes.to_vec(alloc)?;
    more.push(0)?;
    Ok(more)
}

// Does it to a file.
fn do_to(alloc: Global, store: &mut MemStore, path: &str, how: Harm) -> Result<(), Fail> {
    let bytes = match how {
        Harm::Gone => return remove(store, path),
        Harm::Byte(place, byte) => with_byte(alloc, bytes_of(store, path)?, place, byte)?,
        Harm::Cut(place) => cut_at(alloc, bytes_of(store, path)?, place)?,
        Harm::More => with_more(alloc, bytes_of(store, path)?)?,
        Harm::Bytes(bytes) => bytes.to_vec(alloc)?,
        Harm::As(other) => bytes_of(store, other)?.to_vec(alloc)?,
    };
    store.put(path, &bytes)?;
    Ok(())
}

fn remove(store: &mut MemStore, path: &str) -> Result<(), Fail> {
    if store.file(path).is_none() {
        return Err("no file".into());
    }
    match store.remove(path) {
        Ok(()) => Ok(()),
        Err(_) => Err("not removed".into()),
    }
}

// Stopped behind so many tasks, with a file that is harmed then: the next run is refused by it, ends no catalogue, and
// leaves the file as it is.
fn is_refused(
    rt: &impl Abort,
    alloc: Global,
    tasks: usize,
    path: &str,
    how: Harm,
    refusal: Refusal,
) -> Result<(), Fail> {
    let mut store = left_behind(rt, alloc, Sky::ThreeParts, tasks)?;
    do_to(alloc, &mut store, path, how)?;
    let was = match store.file(path) {
        Some(bytes) => Some(bytes.to_vec(alloc)?),
        None => None,
    };
    let refused = import(alloc, Sky::ThreeParts, store)?;
    assert_eq!(rt; refused.refusal, Some(refusal), "{path} {how:?}");
    assert_eq!(rt;
        (refused.rows, refused.partitions, refused.margin),
        (0, 0, 0)
    );
    assert_eq!(rt; refused.inputs.len(), 2);
    assert!(rt; refused.store.file("t/hats.properties").is_none());
    assert_eq!(rt; refused.store.file(path), was.as_deref(), "{path} {how:?}");
    Ok(())
}

// It is refused by that file, from that place on.
fn is_damaged(
    rt: &impl Abort,
    alloc: Global,
    tasks: usize,
    how: Harm,
    file: JobFile,
    place: u64,
) -> Result<(), Fail> {
    let damaged = Refusal::Damaged {
        side: 1,
        file,
        place,
    };
    is_refused(rt, alloc, tasks, path_of(file), how, damaged)
}

fn are_damaged(
    rt: &impl Abort,
    alloc: Global,
    tasks: usize,
    cases: &[(JobFile, Harm, u64)],
) -> Result<(), Fail> {
    for (file, how, place) in cases {
        is_damaged(rt, alloc, tasks, *how, *file, *place)?;
    }
    Ok(())
}

#[test]
fn damaged_maps(rt: HostRuntime) -> Result<(), Fail> {
    are_damaged(&rt, rt.alloc(), MAPPED, MAPS)?;
    // Each split reads its map again.
    is_damaged(&rt, rt.alloc(), PLANNED, Harm::Gone, JobFile::Map(0), 0)?;
    is_damaged(&rt, rt.alloc(), PLANNED, Harm::More, JobFile::Map(1), 56)
}

#[test]
fn damaged_plans(rt: HostRuntime) -> Result<(), Fail> {
    are_damaged(&rt, rt.alloc(), PLANNED, PLANS)?;
    // It is read until the lists are made.
    for tasks in [SPLIT, REDUCED, MARGINS_SPLIT, MARGINS_REDUCED] {
        is_damaged(&rt, rt.alloc(), tasks, Harm::Gone, JobFile::Plan, 0)?;
        is_damaged(&rt, rt.alloc(), tasks, Harm::Cut(70), JobFile::Plan, 64)?;
    }
    Ok(())
}

#[test]
fn damaged_splits(rt: HostRuntime) -> Result<(), Fail> {
    are_damaged(&rt, rt.alloc(), SPLIT, SPLITS)
}

#[test]
fn damaged_partitions(rt: HostRuntime) -> Result<(), Fail> {
    are_damaged(&rt, rt.alloc(), REDUCED, PARTS)
}

#[test]
fn damaged_margin_splits(rt: HostRuntime) -> Result<(), Fail> {
    are_damaged(&rt, rt.alloc(), MARGINS_SPLIT, MARGIN_SPLITS)
}

// A split file with a row of another partition is one: the partition's file is damaged where it is read.
#[test]
fn splits_with_other_rows(rt: HostRuntime) -> Result<(), Fail> {
    let damaged = Refusal::Damaged {
        side: 1,
        file: JobFile::Part(0),
        place: 0,
    };
    is_refused(
        &rt,
        rt.alloc(),
        SPLIT,
        "t.work/split-0",
        Harm::Byte(59, 5),
        damaged,
    )
}

// So does a plan with a partition of another pixel, once the rows are told by partition.
#[test]
fn plans_of_other_pixels(rt: HostRuntime) -> Result<(), Fail> {
    let damaged = Refusal::Damaged {
        side: 1,
        file: JobFile::Part(2),
        place: 0,
    };
    is_refused(
        &rt,
        rt.alloc(),
        SPLIT,
        "t.work/plan",
        Harm::Byte(56, 2),
        damaged,
    )
}

// A map with other counts is one: its input is told as changed.
#[test]
fn maps_with_other_counts(rt: HostRuntime) -> Result<(), Fail> {
    let changed = Refusal::InputChanged {
        input: 0,
        pixel: 0,
        kept: 2,
        found: 1,
    };
    is_refused(
        &rt,
        rt.alloc(),
        PLANNED,
        "t.work/map-0",
        Harm::Bytes(OTHER_MAP),
        changed,
    )
}

#[test]
fn files_that_are_not_read_again(rt: HostRuntime) -> Result<(), Fail> {
    let done = whole(&rt, rt.alloc(), Sky::ThreeParts)?;
    for (tasks, path, how) in SPARED {
        let mut store = left_behind(&rt, rt.alloc(), Sky::ThreeParts, *tasks)?;
        do_to(rt.alloc(), &mut store, path, *how)?;
        let store = finished(&rt, rt.alloc(), Sky::ThreeParts, store)?;
        have_same_files(&rt, Sky::ThreeParts, &done, &store);
    }
    Ok(())
}

// Once all tasks are recorded nothing is asked of the work files but the journal.
#[test]
fn work_files_of_a_finished_import(rt: HostRuntime) -> Result<(), Fail> {
    let done = whole(&rt, rt.alloc(), Sky::ThreeParts)?;
    let mut store = whole(&rt, rt.alloc(), Sky::ThreeParts)?;
    for path in [
        "t.work/map-0",
        "t.work/map-1",
        "t.work/plan",
        "t.work/split-0",
        "t.work/split-1",
        "t.work/msplit-0",
        "t.work/msplit-1",
        "t.work/msplit-2",
    ] {
        do_to(rt.alloc(), &mut store, path, Harm::Gone)?;
    }
    let store = finished(&rt, rt.alloc(), Sky::ThreeParts, store)?;
    have_same_files(&rt, Sky::ThreeParts, &done, &store);
    Ok(())
}
