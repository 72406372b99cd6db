//! Imports that are stopped or fail, and go on.
use super::journals::{
    MOST, NEW, OPENED, READ, blocks_in, calls_before, calls_behind, left_behind, recorded, stopped,
    tasks_of,
};
use super::skies::{
    JOURNAL, Sky, finished, have_same_files, import, import_failing, rows_in, whole,
};
use hx_base::Refusal;
use hx_mem::MemStore;
use std::alloc::Global;
use std::process::Abort;
use std::test::Fail;

// What a crash leaves: all as it reads; nothing that wasn't stable; and mixtures of both, with other bytes too.
const CHOICES: [u64; 4] = [0, 1, 0x9e37_79b9_7f4a_7c15, 0xd1b5_4a32_d192_ed03];

// The calls of a source: its length at the opening, and its length and its bytes for each of its two tasks.
const OF_A_SOURCE: u64 = 5;

#[test]
fn three_equal_rows(rt: HostRuntime) -> Result<(), Fail> {
    let store = whole(&rt, rt.alloc(), Sky::OnePart)?;
    let part = rows_in(
        rt.alloc(),
        &store,
        "t/dataset/Norder=0/Dir=0/Npix=0.parquet",
    )?;
    assert_eq!(rt; part.as_slice(), [(7, 0), (7, 0), (7, 0)].as_slice());
    let margin = rows_in(
        rt.alloc(),
        &store,
        "t_margin/dataset/Norder=0/Dir=0/Npix=0.parquet",
    )?;
    assert!(rt; margin.is_empty());
    Ok(())
}

#[test]
fn three_partitions(rt: HostRuntime) -> Result<(), Fail> {
    let store = whole(&rt, rt.alloc(), Sky::ThreeParts)?;
    let a = (1, 216_172_782_113_783_808);
    let b = (2, 504_403_158_265_495_552);
    let c = (3, 288_230_376_151_711_744);
    let d = (4, 936_748_722_493_063_168);
    let cases: [(&str, &[(i64, u64)]); 6] = [
        ("t/dataset/Norder=0/Dir=0/Npix=0.parquet", &[a]),
        ("t/dataset/Norder=0/Dir=0/Npix=1.parquet", &[c, b]),
        ("t/dataset/Norder=0/Dir=0/Npix=3.parquet", &[d]),
        ("t_margin/dataset/Norder=0/Dir=0/Npix=0.parquet", &[b, d]),
        ("t_margin/dataset/Norder=0/Dir=0/Npix=1.parquet", &[a]),
        ("t_margin/dataset/Norder=0/Dir=0/Npix=3.parquet", &[a, b]),
    ];
    for (path, rows) in cases {
        let found = rows_in(rt.alloc(), &store, path)?;
        assert_eq!(rt; found.as_slice(), rows, "{path}");
    }
    Ok(())
}

// Stopped after each number of calls, rebooted, and run again: it ends with the same catalogue. No call is made for a
// recorded task, but to read the plan, at the opening and for the tasks that go by it; so both runs make no more calls
// than one, those of an opening and of these, and those of the task that was cut short.
fn each_stop(rt: &impl Abort, alloc: Global, sky: Sky, choice: u64) -> Result<(), Fail> {
    let done = whole(rt, alloc, sky)?;
    let again = OPENED + READ + READ;
    for calls in 0..done.calls() {
        let store = stopped(rt, alloc, sky, calls, choice)?;
        let left = match store.file(JOURNAL) {
            Some(_) => calls_behind(sky, recorded(rt, sky, &store)).saturating_add(again),
            None => done.calls(),
        };
        let store = finished(rt, alloc, sky, store)?;
        have_same_files(rt, sky, &done, &store);
        assert!(rt; store.calls() <= left, "after {calls}");
        let both = calls.saturating_add(1).saturating_add(store.calls());
        let most = done.calls().saturating_add(again + MOST);
        assert!(rt; both <= most, "after {calls}");
    }
    Ok(())
}

#[test]
fn stops_of_one_partition(rt: HostRuntime) -> Result<(), Fail> {
    for choice in CHOICES {
        each_stop(&rt, rt.alloc(), Sky::OnePart, choice)?;
    }
    Ok(())
}

// One test for each choice, since they take their time.
#[test]
fn stops_of_three_partitions(rt: HostRuntime) -> Result<(), Fail> {
    each_stop(&rt, rt.alloc(), Sky::ThreeParts, CHOICES[0])
}

#[test]
fn stops_that_lose_all(rt: HostRuntime) -> Result<(), Fail> {
    each_stop(&rt, rt.alloc(), Sky::ThreeParts, CHOICES[1])
}

#[test]
fn stops_that_tear(rt: HostRuntime) -> Result<(), Fail> {
    each_stop(&rt, rt.alloc(), Sky::ThreeParts, CHOICES[2])
}

#[test]
fn stops_that_tear_otherwise(rt: HostRuntime) -> Result<(), Fail> {
    each_stop(&rt, rt.alloc(), Sky::ThreeParts, CHOICES[3])
}

#[test]
fn calls_of_whole_imports(rt: HostRuntime) -> Result<(), Fail> {
    for sky in [Sky::OnePart, Sky::ThreeParts] {
        let store = whole(&rt, rt.alloc(), sky)?;
        let calls = store.calls();
        let all = NEW.saturating_add(calls_before(sky, tasks_of(sky)));
        assert_eq!(rt; calls, all);
        // It is answered from the journal.
        let store = finished(&rt, rt.alloc(), sky, store)?;
        assert_eq!(rt; store.calls().checked_sub(calls), Some(OPENED));
    }
    Ok(())
}

// The more tasks are recorded, the fewer calls are left.
#[test]
fn calls_that_are_left(rt: HostRuntime) -> Result<(), Fail> {
    for sky in [Sky::OnePart, Sky::ThreeParts] {
        let mut before = u64::MAX;
        for tasks in 0..tasks_of(sky) {
            let store = left_behind(&rt, rt.alloc(), sky, tasks)?;
            let store = finished(&rt, rt.alloc(), sky, store)?;
            assert!(rt; store.calls() < before, "behind {tasks}");
            before = store.calls();
        }
    }
    Ok(())
}

// The journal of a map task: its kind and number, its file of 40 bytes with three rows; and a closed gate.
#[test]
fn journal_of_a_map(rt: HostRuntime) -> Result<(), Fail> {
    let store = left_behind(&rt, rt.alloc(), Sky::OnePart, 1)?;
    let blocks = blocks_in(&rt, Sky::OnePart, &store).ok_or("no journal")?;
    assert_eq!(rt;
        blocks,
        b"\x01\x01\0\0\0\0\x28\0\0\0\0\0\0\0\x03\0\0\0\0\0\0\0\0\0\0\0\0\0\0\0\0\0\0\0".as_slice()
    );
    Ok(())
}

// Each call of the store fails in turn; the next run goes on over the same store.
fn each_failing_call(rt: &impl Abort, alloc: Global, sky: Sky) -> Result<(), Fail> {
    let done = whole(rt, alloc, sky)?;
    for call in 0..done.calls() {
        let mut store = MemStore::new(alloc);
        store.fail_calls(&[call])?;
        let failed = import(alloc, sky, store)?;
        assert_eq!(rt; failed.refusal, Some(Refusal::StoreFault), "call {call}");
        assert_eq!(rt; Some(failed.store.calls()), call.checked_add(1));
        let store = finished(rt, alloc, sky, failed.store)?;
        have_same_files(rt, sky, &done, &store);
    }
    Ok(())
}

#[test]
fn calls_that_fail(rt: HostRuntime) -> Result<(), Fail> {
    each_failing_call(&rt, rt.alloc(), Sky::OnePart)?;
    each_failing_call(&rt, rt.alloc(), Sky::ThreeParts)
}

// A call of an input fails; the next run goes on over the same store.
fn failing_input(
    rt: &impl Abort,
    alloc: Global,
    done: &MemStore,
    failing: &[u64],
    failing_second: &[u64],
    input: u32,
) -> Result<(), Fail> {
    let failed = import_failing(
        alloc,
        Sky::ThreeParts,
        failing,
        failing_second,
        MemStore::new(alloc),
    )?;
    assert_eq!(rt;
        failed.refusal,
        Some(Refusal::InputFault { input }),
        "{failing:?} {failing_second:?}"
    );
    assert_eq!(rt; (failed.rows, failed.partitions, failed.margin), (0, 0, 0));
    assert_eq!(rt; failed.inputs.len(), 2);
    let store = finished(rt, alloc, Sky::ThreeParts, failed.store)?;
    have_same_files(rt, Sky::ThreeParts, done, &store);
    Ok(())
}

#[test]
fn inputs_that_fail(rt: HostRuntime) -> Result<(), Fail> {
    let done = whole(&rt, rt.alloc(), Sky::ThreeParts)?;
    for call in 0..OF_A_SOURCE {
        failing_input(&rt, rt.alloc(), &done, &[call], &[], 0)?;
        failing_input(&rt, rt.alloc(), &done, &[], &[call], 1)?;
    }
    // No further call is made.
    let ended = import_failing(
        rt.alloc(),
        Sky::ThreeParts,
        &[OF_A_SOURCE],
        &[OF_A_SOURCE],
        MemStore::new(rt.alloc()),
    )?;
    assert_eq!(rt; ended.refusal, None);
    Ok(())
}
