//! What the journal of an import has recorded, and by how many calls of the store.
use super::skies::{JOURNAL, Sky, import};
use hx_base::Refusal;
use hx_mem::MemStore;
use std::alloc::Global;
use std::process::Abort;
use std::test::Fail;

/// The calls by which a new journal is opened: its sync and its length, the length of the properties, four that publish
/// it, and five that open it then.
pub(super) const NEW: u64 = 12;

/// The calls by which a journal that stands is opened: its sync, its length, a read, its cut, its sync.
pub(super) const OPENED: u64 = 5;

/// The calls by which a file is read that one read gives whole: its length and the read.
pub(super) const READ: u64 = 2;

/// The most calls of a task.
pub(super) const MOST: u64 = 16;

// The calls of each task, in the tasks' order. Each publishes its file by 4 calls and notes its record by 4. A plan reads
// each map file, a split its map file, a margin split its partition's file, and the first split reads the plan too. A
// partition and a margin read the front of each split file that may have rows of theirs, which has its head, and the rows
// if there are any.
const OF_ONE_PART: &[u64] = &[8, 10, 12, 12, 10, 8, 8, 8, 8, 8];

const OF_THREE_PARTS: &[u64] = &[
    8, 8, 12, 12, 10, 14, 16, 14, 10, 10, 10, 16, 14, 16, 8, 8, 8, 8,
];

fn calls_of_tasks(sky: Sky) -> &'static [u64] {
    match sky {
        Sky::OnePart => OF_ONE_PART,
        Sky::ThreeParts => OF_THREE_PARTS,
    }
}

/// How many tasks a sky's import has.
pub(super) fn tasks_of(sky: Sky) -> usize {
    calls_of_tasks(sky).len()
}

/// The calls of the first so many tasks.
pub(super) fn calls_before(sky: Sky, tasks: usize) -> u64 {
    let mut sum = 0u64;
    for calls in calls_of_tasks(sky).iter().take(tasks) {
        sum = sum.saturating_add(*calls);
    }
    sum
}

/// The calls of all tasks but the first so many.
pub(super) fn calls_behind(sky: Sky, tasks: usize) -> u64 {
    calls_before(sky, tasks_of(sky)).saturating_sub(calls_before(sky, tasks))
}

// The header of a sky's journal.
fn header_of(sky: Sky) -> &'static [u8] {
    match sky {
        Sky::OnePart => {
            b"hats-journal 1\nname t\nlowest 0\nhighest 0\nthreshold 1000000\nmargin_order 1\ninputs 1\ninput 81 a.csv\nend\n"
        }
        Sky::ThreeParts => {
            b"hats-journal 1\nname t\nlowest 0\nhighest 0\nthreshold 1000000\nmargin_order 1\ninputs 2\ninput 96 a.csv\ninput 96 b.csv\nend\n"
        }
    }
}

/// The journal behind its header, None where there is no journal.
pub(super) fn blocks_in<'a>(rt: &impl Abort, sky: Sky, store: &'a MemStore) -> Option<&'a [u8]> {
    let journal = store.file(JOURNAL)?;
    let blocks = journal.strip_prefix(header_of(sky));
    assert!(rt; blocks.is_some(), "another header");
    blocks
}

/// How many tasks the journal has recorded: the open gates before the first closed one, each with 32 bytes behind it.
pub(super) fn recorded(rt: &impl Abort, sky: Sky, store: &MemStore) -> usize {
    let Some(blocks) = blocks_in(rt, sky, store) else {
        return 0;
    };
    let mut count = 0usize;
    for block in blocks.chunks(33) {
        if block.first() != Some(&1) {
            break;
        }
        count = count.saturating_add(1);
    }
    count
}

/// The folder as a crash may leave it after so many calls of a sky's import.
pub(super) fn stopped(
    rt: &impl Abort,
    alloc: Global,
    sky: Sky,
    calls: u64,
    choice: u64,
) -> Result<MemStore, Fail> {
    let mut store = MemStore::new(alloc);
    store.stop_after(calls);
    let left = import(alloc, sky, store)?;
    assert_eq!(rt; left.refusal, Some(Refusal::StoreFault), "after {calls}");
    // The call that fails is the last.
    assert_eq!(rt; Some(left.store.calls()), calls.checked_add(1));
    Ok(left.store.reboot(choice)?)
}

/// The folder that a sky's import leaves when it is stopped behind its first so many tasks.
pub(super) fn left_behind(
    rt: &impl Abort,
    alloc: Global,
    sky: Sky,
    tasks: usize,
) -> Result<MemStore, Fail> {
    let calls = NEW.saturating_add(calls_before(sky, tasks));
    let store = stopped(rt, alloc, sky, calls, 0)?;
    assert_eq!(rt; recorded(rt, sky, &store), tasks);
    Ok(store)
}
