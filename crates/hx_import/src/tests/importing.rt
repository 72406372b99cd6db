//! Imports by one worker: their catalogues, their refusals, and crashes within.
ghost use Rattle.std.specs.Prelude.{IfOk};
ghost use Rattle.hx_base.specs.Limits.{FitsLimits};

use super::skies::{input, settings_of, with};
use crate::import_one;
use hx_base::{Refusal, Settings};
use hx_book::Closed;
use hx_mem::{MemSource, MemStore};
use std::alloc::Global;
use std::test::Fail;

// The files of a catalogue of two partitions.
const FILES: [&str; 8] = [
    "t/hats.properties",
    "t/partition_info.csv",
    "t/dataset/Norder=0/Dir=0/Npix=0.parquet",
    "t/dataset/Norder=0/Dir=0/Npix=1.parquet",
    "t_margin/hats.properties",
    "t_margin/partition_info.csv",
    "t_margin/dataset/Norder=0/Dir=0/Npix=0.parquet",
    "t_margin/dataset/Norder=0/Dir=0/Npix=1.parquet",
];

fn settings(alloc: Global, highest: u8, threshold: u64) -> Result<Settings, Fail>
    ensures { IfOk result FitsLimits }
{
    settings_of(alloc, 0, highest, threshold, highest.saturating_add(1))
}

// An input with one row of the partition 0 that lies next to the other partition, and one next to it there.
fn near(alloc: Global) -> Result<MemSource, Fail> {
    input(
        alloc,
        "a.csv",
        &[(1, 216_172_782_113_783_808), (2, 504_403_158_265_495_552)],
    )
}

// An input with one row far away.
fn far(alloc: Global) -> Result<MemSource, Fail> {
    input(alloc, "b.csv", &[(3, 288_230_376_151_711_744)])
}

fn import(alloc: Global, store: MemStore) -> Result<Closed<MemSource, MemStore>, Fail> {
    let asked = settings(alloc, 0, 1_000_000)?;
    let inputs = with(Vec::new(alloc), near(alloc)?)?;
    let inputs = with(inputs, far(alloc)?)?;
    Ok(import_one(alloc, asked, inputs, store))
}

#[test]
fn three_rows_of_two_partitions(rt: HostRuntime) -> Result<(), Fail> {
    let done = import(rt.alloc(), MemStore::new(rt.alloc()))?;
    assert_eq!(rt; done.refusal, None);
    assert_eq!(rt; (done.rows, done.partitions, done.margin), (3, 2, 2));
    let list = done.store.file("t/partition_info.csv").ok_or("list")?;
    assert_eq!(rt; list, b"Norder,Npix\n0,0\n0,1\n".as_slice());
    // A finished import is answered from its journal.
    let again = import(rt.alloc(), done.store)?;
    assert_eq!(rt; again.refusal, None);
    assert_eq!(rt; (again.rows, again.partitions, again.margin), (3, 2, 2));
    Ok(())
}

#[test]
fn no_rows(rt: HostRuntime) -> Result<(), Fail> {
    let none = input(rt.alloc(), "a.csv", &[])?;
    let inputs = with(Vec::new(rt.alloc()), none)?;
    let asked = settings(rt.alloc(), 7, 1)?;
    let done = import_one(rt.alloc(), asked, inputs, MemStore::new(rt.alloc()));
    assert_eq!(rt; done.refusal, None);
    assert_eq!(rt; (done.rows, done.partitions, done.margin), (0, 0, 0));
    Ok(())
}

#[test]
fn imports_that_are_refused(rt: HostRuntime) -> Result<(), Fail> {
    let alloc = rt.alloc();
    let third = input(alloc, "c.csv", &[(1, 3_458_764_513_820_540_928)])?;
    let bad = with(Vec::new(alloc), near(alloc)?)?;
    let bad = with(with(bad, far(alloc)?)?, third)?;
    let refused = import_one(alloc, settings(alloc, 1, 2)?, bad, MemStore::new(alloc));
    let why = Refusal::BadInput {
        input: 2,
        row: 1,
        why: 3,
    };
    assert_eq!(rt; refused.refusal, Some(why));
    assert_eq!(rt;
        (refused.rows, refused.partitions, refused.margin),
        (0, 0, 0)
    );
    assert_eq!(rt; refused.inputs.len(), 3);
    let three = input(alloc, "a.csv", &[(7, 0), (8, 0), (9, 0)])?;
    let full = with(Vec::new(alloc), three)?;
    let refused = import_one(alloc, settings(alloc, 1, 2)?, full, MemStore::new(alloc));
    assert_eq!(rt;
        refused.refusal,
        Some(Refusal::Overfull { pixel: 0, count: 3 })
    );
    Ok(())
}

// Stopped after each of its calls, and the folder read as a crash may leave it: the next run ends with the same files.
#[test]
fn each_crash_within(rt: HostRuntime) -> Result<(), Fail> {
    let whole = import(rt.alloc(), MemStore::new(rt.alloc()))?;
    assert_eq!(rt; whole.refusal, None);
    for stop in 0..whole.store.calls() {
        let mut store = MemStore::new(rt.alloc());
        store.stop_after(stop);
        let stopped = import(rt.alloc(), store)?;
        assert_eq!(rt; stopped.refusal, Some(Refusal::StoreFault));
        let resumed = import(rt.alloc(), stopped.store.reboot(stop)?)?;
        assert_eq!(rt; resumed.refusal, None, "after {stop}");
        for path in FILES {
            assert_eq!(rt;
                resumed.store.file(path),
                whole.store.file(path),
                "{path} after {stop}"
            );
        }
    }
    Ok(())
}
