//! Journals byte by byte, damaged ones, and crashes within notes.
ghost use Rattle.std.specs.Prelude.{◌≤◌, IfOk};
ghost use Rattle.hx_journal.specs.Headers.{IsHeader};
ghost use Rattle.hx_journal.specs.Journal.{IsEntry};

use crate::{
    Difference, JournalRefusal, Record, create, header_difference, header_text, open, record_task,
};
use hx_base::{FileWord, Name, Settings, Task};
use hx_mem::MemStore;
use std::alloc::Global;
use std::test::Fail;

const FILE: &str = "t.work/journal";

const HEADER: &[u8] =
    b"hats-journal 1\nname t\nlowest 0\nhighest 1\nthreshold 2\nmargin_order 10\ninputs 1\ninput 40 a.csv\nend\n";

// The first record: map task 0, whose file has 40 bytes, over an input of one row.
const BODY: &[u8] = &[
    1, 0, 0, 0, 0, 40, 0, 0, 0, 0, 0, 0, 0, 1, 0, 0, 0, 0, 0, 0, 0, 0, 0, 0, 0, 0, 0, 0, 0, 0, 0, 0,
];

fn name_of(alloc: Global) -> Result<Name, Fail> {
    Ok(Name::new(alloc, "t")?.ok_or("no name")?)
}

const fn record(kind: u8, number: u32, len: u64, rows: u64) -> Record {
    Record {
        task: Task { kind, number },
        len,
        rows,
    }
}

// The record of a map task whose file has 40 bytes.
fn map_record(number: u32) -> Record
    ensures { IsEntry result }
{
    Record {
        task: Task { kind: 1, number },
        len: 40,
        rows: 1,
    }
}

fn joined(alloc: Global, parts: &[&[u8]]) -> Result<Vec<u8>, Fail> {
    let mut bytes = Vec::new(alloc);
    for part in parts {
        bytes.extend_from_slice(part)?;
    }
    Ok(bytes)
}

fn holds(store: &MemStore, name: &str, bytes: &[u8]) -> bool {
    match store.file(name) {
        Some(file) => file == bytes,
        None => false,
    }
}

// The header of a job with that threshold.
fn header_with(alloc: Global, threshold: u64) -> Result<Vec<u8>, Fail>
    requires { (1 ≤ threshold) × (threshold ≤ 1000000) }
    ensures { IfOk result (λ text. IsHeader text.items) }
{
    let settings = Settings {
        name: name_of(alloc)?,
        lowest: 0,
        highest: 1,
        threshold,
        margin_order: 10,
    };
    let mut words = Vec::new(alloc);
    words.push(FileWord::new(alloc, "a.csv")?.ok_or("no word")?)?;
    let text = header_text(alloc, &settings, &words, &[40])?;
    Ok(text)
}

#[test]
fn text_of_a_header(rt: HostRuntime) -> Result<(), Fail> {
    let text = header_with(rt.alloc(), 2)?;
    assert_eq!(rt; text.as_slice(), HEADER);
    Ok(())
}

#[test]
fn headers_of_two_jobs(rt: HostRuntime) -> Result<(), Fail> {
    let kept = header_with(rt.alloc(), 2)?;
    let asked = header_with(rt.alloc(), 3)?;
    let longer = header_with(rt.alloc(), 20)?;
    let other = Difference {
        place: 51,
        kept: b'2',
        asked: b'3',
    };
    assert_eq!(rt; header_difference(&kept, &asked), Some(other));
    assert_eq!(rt; header_difference(&kept, &kept), None);
    let end = Difference {
        place: 52,
        kept: b'\n',
        asked: b'0',
    };
    assert_eq!(rt; header_difference(&kept, &longer), Some(end));
    Ok(())
}

#[test]
fn bytes_of_a_noted_record(rt: HostRuntime) -> Result<(), Fail> {
    let name = name_of(rt.alloc())?;
    let mut store = MemStore::new(rt.alloc());
    assert!(rt;
        matches!(
            open(rt.alloc(), &mut store, &name),
            Err(JournalRefusal::Absent)
        )
    );
    create(rt.alloc(), &mut store, &name, HEADER)?;
    let new = joined(rt.alloc(), &[HEADER, &[0]])?;
    assert!(rt; holds(&store, FILE, &new));
    assert!(rt; store.file("t.work/tmp").is_none());
    let Ok(mut journal) = open(rt.alloc(), &mut store, &name) else {
        return Err(Fail::from("not opened"));
    };
    let calls = store.calls();
    journal.note(&mut store, map_record(0))?;
    assert_eq!(rt; store.calls().saturating_sub(calls), 4);
    let noted = joined(rt.alloc(), &[HEADER, &[1], BODY, &[0]])?;
    assert!(rt; holds(&store, FILE, &noted));
    assert_eq!(rt; journal.records(), [record(1, 0, 40, 1)].as_slice());
    Ok(())
}

// Opens the journal and notes one record more, where the store's calls go so far.
fn opened_and_noted(
    alloc: Global,
    store: &mut MemStore,
    number: u32,
) -> Result<usize, JournalRefusal> {
    let Ok(Some(name)) = Name::new(alloc, "t") else {
        return Err(JournalRefusal::Memory);
    };
    let mut journal = open(alloc, store, &name)?;
    let count = journal.records().len();
    journal.note(store, map_record(number))?;
    Ok(count)
}

// Opens the journal and notes three records, and tells how many of them were noted before a fault.
fn three_noted(alloc: Global, store: &mut MemStore) -> Result<usize, Fail> {
    let name = name_of(alloc)?;
    let Ok(mut journal) = open(alloc, store, &name) else {
        return Ok(0);
    };
    if journal.note(store, map_record(0)).is_err() {
        return Ok(0);
    }
    if journal.note(store, map_record(1)).is_err() {
        return Ok(1);
    }
    if journal.note(store, map_record(2)).is_err() {
        return Ok(2);
    }
    Ok(3)
}

#[test]
fn each_crash_within_three_notes(rt: HostRuntime) -> Result<(), Fail> {
    let new = joined(rt.alloc(), &[HEADER, &[0]])?;
    // Opening makes five calls, and each note four.
    for stop in 0..18 {
        for choice in 0..16 {
            let mut store = MemStore::new(rt.alloc());
            store.put(FILE, &new)?;
            store.stop_after(stop);
            let done = three_noted(rt.alloc(), &mut store)?;
            let calls = (stop as usize).saturating_sub(5);
            assert_eq!(rt; done, calls / 4, "stopped after {stop}");
            let mut left = store.reboot(choice)?;
            let again = opened_and_noted(rt.alloc(), &mut left, 3);
            let next = again == Ok(done) || done < 3 && again == Ok(done.saturating_add(1));
            assert!(rt; next, "stopped after {stop}, choice {choice}");
        }
    }
    Ok(())
}

const TASK_FILE: &str = "t.work/map-0";

// Opens the journal and records the first task, whose file has some bytes.
fn opened_and_recorded(alloc: Global, store: &mut MemStore) -> Result<bool, Fail> {
    let name = name_of(alloc)?;
    let Ok(mut journal) = open(alloc, store, &name) else {
        return Ok(false);
    };
    let tmp = "t.work/tmp";
    let recorded = record_task(
        &mut journal,
        store,
        tmp,
        TASK_FILE,
        b"forty bytes",
        map_record(0),
    );
    Ok(recorded.is_ok())
}

#[test]
fn each_crash_within_a_task(rt: HostRuntime) -> Result<(), Fail> {
    let name = name_of(rt.alloc())?;
    let new = joined(rt.alloc(), &[HEADER, &[0]])?;
    // Opening makes five calls, and publishing and noting four each.
    for stop in 0..14 {
        for choice in 0..16 {
            let mut store = MemStore::new(rt.alloc());
            store.put(FILE, &new)?;
            store.stop_after(stop);
            let done = opened_and_recorded(rt.alloc(), &mut store)?;
            assert_eq!(rt; done, stop == 13, "stopped after {stop}");
            let mut left = store.reboot(choice)?;
            let Ok(journal) = open(rt.alloc(), &mut left, &name) else {
                return Err(Fail::from("not opened"));
            };
            let whole = holds(&left, TASK_FILE, b"forty bytes");
            let recorded = !journal.records().is_empty();
            assert!(rt;
                whole || !recorded && !done,
                "stopped after {stop}, choice {choice}"
            );
            assert!(rt; whole || left.file(TASK_FILE).is_none());
            assert!(rt; recorded || !done, "stopped after {stop}, choice {choice}");
        }
    }
    Ok(())
}

// What opening answers where the file has these bytes: the number of records, or the damaged place.
fn found(alloc: Global, bytes: &[u8]) -> Result<Result<usize, u64>, Fail> {
    let name = name_of(alloc)?;
    let mut store = MemStore::new(alloc);
    store.put(FILE, bytes)?;
    match open(alloc, &mut store, &name) {
        Ok(journal) => Ok(Ok(journal.records().len())),
        Err(JournalRefusal::Damaged { place }) => Ok(Err(place)),
        Err(_) => Err(Fail::from("another refusal")),
    }
}

#[test]
fn rubbish_behind_the_closed_gate_is_cut(rt: HostRuntime) -> Result<(), Fail> {
    let name = name_of(rt.alloc())?;
    let mut store = MemStore::new(rt.alloc());
    let file = joined(rt.alloc(), &[HEADER, &[1], BODY, &[0x37], b"rubbish"])?;
    let kept = joined(rt.alloc(), &[HEADER, &[1], BODY, &[0x37]])?;
    store.put(FILE, &file)?;
    let Ok(journal) = open(rt.alloc(), &mut store, &name) else {
        return Err(Fail::from("not opened"));
    };
    assert_eq!(rt; journal.header(), HEADER);
    assert_eq!(rt; journal.records(), [record(1, 0, 40, 1)].as_slice());
    assert!(rt; holds(&store, FILE, &kept));
    Ok(())
}

#[test]
fn headers_that_are_damaged(rt: HostRuntime) -> Result<(), Fail> {
    // One byte of the header is changed, or it is cut.
    for at in 0..HEADER.len() {
        let mut bytes = joined(rt.alloc(), &[HEADER, &[0]])?;
        if at < bytes.len() {
            bytes[at] ^= 0x80;
        }
        assert_eq!(rt; found(rt.alloc(), &bytes)?, Err(0), "byte {at} changed");
        assert_eq!(rt; found(rt.alloc(), &HEADER[..at])?, Err(0), "cut at {at}");
    }
    let headers: [(&str, bool); 16] = [
        (
            "hats-journal 0\nname t\nlowest 0\nhighest 1\nthreshold 2\nmargin_order 10\ninputs 0\nend\n",
            true,
        ),
        (
            "hats-journal 2\nname t\nlowest 0\nhighest 1\nthreshold 2\nmargin_order 10\ninputs 0\nend\n",
            false,
        ),
        (
            "hats-journal 01\nname t\nlowest 0\nhighest 1\nthreshold 2\nmargin_order 10\ninputs 0\nend\n",
            false,
        ),
        (
            "hats-journal 1\nname T\nlowest 0\nhighest 1\nthreshold 2\nmargin_order 10\ninputs 0\nend\n",
            false,
        ),
        (
            "hats-journal 1\nname t\nlowest 00\nhighest 1\nthreshold 2\nmargin_order 10\ninputs 0\nend\n",
            false,
        ),
        (
            "hats-journal 1\nname t\nlowest 2\nhighest 1\nthreshold 2\nmargin_order 10\ninputs 0\nend\n",
            false,
        ),
        (
            "hats-journal 1\nname t\nlowest 0\nhighest 21\nthreshold 2\nmargin_order 24\ninputs 0\nend\n",
            false,
        ),
        (
            "hats-journal 1\nname t\nlowest 0\nhighest 1\nthreshold 0\nmargin_order 10\ninputs 0\nend\n",
            false,
        ),
        (
            "hats-journal 1\nname t\nlowest 0\nhighest 1\nthreshold 1000001\nmargin_order 10\ninputs 0\nend\n",
            false,
        ),
        (
            "hats-journal 1\nname t\nlowest 0\nhighest 1\nthreshold 2\nmargin_order 1\ninputs 0\nend\n",
            false,
        ),
        (
            "hats-journal 1\nname t\nlowest 0\nhighest 1\nthreshold 2\nmargin_order 25\ninputs 0\nend\n",
            false,
        ),
        (
            "hats-journal 1\nname t\nlowest 0\nhighest 1\nthreshold 2\nmargin_order 10\ninputs 1\nend\n",
            false,
        ),
        (
            "hats-journal 1\nname t\nlowest 0\nhighest 1\nthreshold 2\nmargin_order 10\ninputs 1\ninput 18446744073709551616 a.csv\nend\n",
            false,
        ),
        (
            "hats-journal 1\nname t\nlowest 0\nhighest 1\nthreshold 2\nmargin_order 10\ninputs 1\ninput 040 a.csv\nend\n",
            false,
        ),
        (
            "hats-journal 1\nname t\nlowest 0\nhighest 1\nthreshold 2\nmargin_order 10\ninputs 1\ninput 40 a.txt\nend\n",
            false,
        ),
        (
            "hats-journal 1\nname t\nlowest 0\nhighest 1\nthreshold 2\nmargin_order 10\ninputs 1\ninput 18446744073709551615 a b.csv\nend\n",
            true,
        ),
    ];
    for (header, is_one) in headers {
        let bytes = joined(rt.alloc(), &[header.as_bytes(), &[0]])?;
        let answer = if is_one { Ok(0) } else { Err(0) };
        assert_eq!(rt; found(rt.alloc(), &bytes)?, answer, "{header}");
    }
    Ok(())
}

// A body with another byte at a place.
fn body_with(alloc: Global, at: usize, value: u8) -> Result<Vec<u8>, Fail> {
    let mut bytes = joined(alloc, &[BODY])?;
    if at < bytes.len() {
        bytes[at] = value;
    }
    Ok(bytes)
}

#[test]
fn gates_that_are_damaged(rt: HostRuntime) -> Result<(), Fail> {
    let gate = HEADER.len() as u64;
    // One byte of the first record is changed.
    let changes: [(usize, u8, bool); 9] = [
        (0, 0, false),
        (0, 9, false),
        (0, 7, false),
        (0, 6, true),
        (4, 255, true),
        (20, 255, true),
        (21, 1, false),
        (26, 128, false),
        (31, 1, false),
    ];
    for (at, value, is_one) in changes {
        let body = body_with(rt.alloc(), at, value)?;
        let bytes = joined(rt.alloc(), &[HEADER, &[1], &body, &[0]])?;
        let answer = if is_one { Ok(1) } else { Err(gate) };
        assert_eq!(rt; found(rt.alloc(), &bytes)?, answer, "byte {at} is {value}");
    }
    let bytes = joined(rt.alloc(), &[HEADER])?;
    assert_eq!(rt; found(rt.alloc(), &bytes)?, Err(gate), "no gate");
    let bytes = joined(rt.alloc(), &[HEADER, &[1], BODY])?;
    assert_eq!(rt; found(rt.alloc(), &bytes)?, Err(gate), "32 bytes behind");
    let bytes = joined(rt.alloc(), &[HEADER, &[1], BODY, &[1], BODY])?;
    assert_eq!(rt;
        found(rt.alloc(), &bytes)?,
        Err(gate + 33),
        "the second gate"
    );
    let bytes = joined(rt.alloc(), &[HEADER, &[1], BODY, &[1], BODY, &[2], BODY])?;
    assert_eq!(rt; found(rt.alloc(), &bytes)?, Ok(2), "two records");
    assert_eq!(rt; found(rt.alloc(), b"")?, Err(0), "an empty file");
    Ok(())
}
