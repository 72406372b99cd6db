//! Publishing that is stopped after each call, and files that are read.
use crate::{publish, read_file, read_range};
use hx_mem::MemStore;
use hx_outside::{Store, StoreError};
use std::alloc::Global;
use std::test::Fail;

const CALLS: u64 = 4;

// A store with another file, an old temporary one and, where it is asked for, an old file of the name.
fn store_with(alloc: Global, old: Option<&[u8]>) -> Result<MemStore, Fail> {
    let mut store = MemStore::new(alloc);
    store.put("other", b"same")?;
    store.put("tmp", b"left here")?;
    if let Some(bytes) = old {
        store.put("a", bytes)?;
    }
    Ok(store)
}

#[test]
fn each_crash_leaves_the_old_or_the_new(rt: HostRuntime) -> Result<(), Fail> {
    for old in [None, Some(b"old".as_slice())] {
        for stop in 0..CALLS + 1 {
            for choice in 0..16 {
                let mut store = store_with(rt.alloc(), old)?;
                store.stop_after(stop);
                let done = publish(&mut store, "tmp", "a", b"new bytes").is_ok();
                assert_eq!(rt; done, stop == CALLS, "stopped after {stop}");
                let left = store.reboot(choice)?;
                let found = left.file("a");
                let whole = found == Some(b"new bytes".as_slice());
                assert!(rt;
                    whole || found == old && !done,
                    "stopped after {stop}, choice {choice}"
                );
                assert_eq!(rt; left.file("other"), Some(b"same".as_slice()));
            }
        }
    }
    Ok(())
}

fn holds(store: &MemStore, name: &str, bytes: &[u8]) -> bool {
    match store.file(name) {
        Some(file) => file == bytes,
        None => false,
    }
}

#[test]
fn a_file_is_published(rt: HostRuntime) -> Result<(), Fail> {
    let mut store = store_with(rt.alloc(), None)?;
    assert_eq!(rt; publish(&mut store, "tmp", "a", b"abc"), Ok(()));
    assert_eq!(rt; store.calls(), CALLS);
    assert!(rt; holds(&store, "a", b"abc"));
    assert_eq!(rt; publish(&mut store, "tmp", "a", b""), Ok(()));
    assert!(rt; holds(&store, "a", b""));
    assert!(rt; store.file("tmp").is_none());
    store.fail_calls(&[10])?;
    assert_eq!(rt;
        publish(&mut store, "tmp", "a", b"abc"),
        Err(StoreError::Failed)
    );
    assert!(rt; holds(&store, "a", b""));
    Ok(())
}

// So many bytes, all of them different from those beside them.
fn bytes_of(alloc: Global, len: u32) -> Result<Vec<u8>, Fail> {
    let mut bytes = Vec::new(alloc);
    for at in 0..len {
        bytes.push((at % 251) as u8)?;
    }
    Ok(bytes)
}

#[test]
fn files_are_read_whole(rt: HostRuntime) -> Result<(), Fail> {
    let mut store = MemStore::new(rt.alloc());
    let lens: [u32; 7] = [0, 1, 4095, 4096, 4097, 8192, 9000];
    for len in lens {
        let bytes = bytes_of(rt.alloc(), len)?;
        store.put("a", &bytes)?;
        let found = read_file(rt.alloc(), &mut store, "a")?;
        let found = found.ok_or("absent")?;
        assert_eq!(rt; found.as_slice(), bytes.as_slice(), "{len} bytes");
    }
    assert!(rt; read_file(rt.alloc(), &mut store, "b")?.is_none());
    let calls = store.calls();
    store.fail_calls(&[calls])?;
    let found = read_file(rt.alloc(), &mut store, "a");
    assert!(rt; matches!(found, Err(StoreError::Failed)));
    Ok(())
}

#[test]
fn ranges_are_read(rt: HostRuntime) -> Result<(), Fail> {
    let bytes = bytes_of(rt.alloc(), 9000)?;
    let mut store = MemStore::new(rt.alloc());
    store.put("a", &bytes)?;
    for from in [0, 1, 4000, 8999, 9000, 9001, u64::MAX] {
        for most in [0, 1, 4096, 5000, 9000, u64::MAX] {
            let found = read_range(rt.alloc(), &mut store, "a", from, most)?;
            let start = from.min(9000);
            let end = start + most.min(9000 - start);
            let there = bytes.get(start as usize..end as usize);
            assert_eq!(rt; Some(found.as_slice()), there, "{most} from {from}");
        }
    }
    let found = read_range(rt.alloc(), &mut store, "b", 0, 12)?;
    assert!(rt; found.is_empty());
    Ok(())
}

#[test]
fn a_range_asks_twice(rt: HostRuntime) -> Result<(), Fail> {
    let bytes = bytes_of(rt.alloc(), 9000)?;
    let mut store = MemStore::new(rt.alloc());
    store.put("a", &bytes)?;
    for call in 0..2 {
        store.fail_calls(&[store.calls().saturating_add(call)])?;
        let found = read_range(rt.alloc(), &mut store, "a", 10, 8900);
        assert!(rt; matches!(found, Err(StoreError::Failed)), "call {call}");
    }
    let calls = store.calls();
    let found = read_range(rt.alloc(), &mut store, "a", 10, 8900)?;
    assert_eq!(rt; found.len(), 8900);
    assert_eq!(rt; store.calls(), calls.saturating_add(2));
    Ok(())
}
