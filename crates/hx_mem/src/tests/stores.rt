//! Calls of a store in memory, with what each answers and leaves.
use crate::MemStore;
use hx_outside::{Store, StoreError};
use std::test::Fail;

const FAILED: StoreError = StoreError::Failed;

#[test]
fn calls_that_change_files(rt: HostRuntime) -> Result<(), Fail> {
    let mut store = MemStore::new(rt.alloc());
    store.put("b", b"old")?;
    assert_eq!(rt; store.file("a"), None);
    assert_eq!(rt; store.len("a"), Ok(None));
    assert_eq!(rt; store.len("b"), Ok(Some(3)));

    // An absent file is made, and stays absent where it is synced, cut, set, renamed or removed.
    assert_eq!(rt; store.sync("a"), Ok(()));
    assert_eq!(rt; store.cut("a", 0), Ok(()));
    assert_eq!(rt; store.set_byte("a", 0, 1), Ok(()));
    assert_eq!(rt; store.rename("a", "b"), Ok(()));
    assert_eq!(rt; store.remove("a"), Ok(()));
    assert_eq!(rt; store.file("a"), None);
    assert_eq!(rt; store.file("b"), Some(b"old".as_slice()));
    assert_eq!(rt; store.append("a", b""), Ok(()));
    assert_eq!(rt; store.file("a"), Some(b"".as_slice()));
    assert_eq!(rt; store.append("a", b"abc"), Ok(()));
    assert_eq!(rt; store.append("a", b"de"), Ok(()));
    assert_eq!(rt; store.file("a"), Some(b"abcde".as_slice()));

    // Nothing changes past the end, or where a file isn't longer.
    assert_eq!(rt; store.set_byte("a", 4, b'E'), Ok(()));
    assert_eq!(rt; store.set_byte("a", 5, b'F'), Ok(()));
    assert_eq!(rt; store.set_byte("a", u64::MAX, b'F'), Ok(()));
    assert_eq!(rt; store.cut("a", 5), Ok(()));
    assert_eq!(rt; store.cut("a", u64::MAX), Ok(()));
    assert_eq!(rt; store.file("a"), Some(b"abcdE".as_slice()));
    assert_eq!(rt; store.cut("a", 2), Ok(()));
    assert_eq!(rt; store.file("a"), Some(b"ab".as_slice()));

    // A rename onto itself changes nothing; onto another it takes that one's place.
    assert_eq!(rt; store.rename("a", "a"), Ok(()));
    assert_eq!(rt; store.file("a"), Some(b"ab".as_slice()));
    assert_eq!(rt; store.rename("a", "b"), Ok(()));
    assert_eq!(rt; store.file("a"), None);
    assert_eq!(rt; store.file("b"), Some(b"ab".as_slice()));
    assert_eq!(rt; store.remove("b"), Ok(()));
    assert_eq!(rt; store.file("b"), None);
    assert_eq!(rt; store.len("b"), Ok(None));
    assert_eq!(rt; store.calls(), 20);
    Ok(())
}

#[test]
fn reads_of_a_file(rt: HostRuntime) -> Result<(), Fail> {
    // Where a call reads, how many bytes it wants, how many it gives, and the buffer afterwards.
    let reads: [(&str, u64, usize, Result<usize, StoreError>, &[u8]); 7] = [
        ("a", 0, 4, Ok(4), b"abcd...."),
        ("a", 4, 4, Ok(2), b"ef......"),
        ("a", 6, 8, Ok(0), b"........"),
        ("a", u64::MAX, 8, Ok(0), b"........"),
        ("b", 0, 8, Ok(0), b"........"),
        ("a", 0, 8, Err(FAILED), b"........"),
        ("a", 0, 8, Ok(6), b"abcdef.."),
    ];
    let mut store = MemStore::new(rt.alloc());
    store.put("a", b"abcdef")?;
    store.fail_calls(&[5])?;
    for (number, (name, at, wanted, answer, left)) in reads.into_iter().enumerate() {
        let mut buf = [b'.'; 8];
        assert_eq!(rt;
            store.read(name, at, &mut buf[..wanted.min(8)]),
            answer,
            "call {number}"
        );
        assert_eq!(rt; buf.as_slice(), left, "call {number}");
    }
    assert_eq!(rt; store.reads_of("a"), 6);
    assert_eq!(rt; store.reads_of("b"), 1);
    assert_eq!(rt; store.reads_of("c"), 0);
    Ok(())
}

#[test]
fn calls_that_fail(rt: HostRuntime) -> Result<(), Fail> {
    let mut store = MemStore::new(rt.alloc());
    store.fail_calls(&[0])?;
    store.fail_calls(&[2, 4])?;
    store.stop_after(6);
    let mut buf = [b'.'; 1];
    assert_eq!(rt; store.append("a", b"x"), Err(FAILED));
    store.put("a", b"yz")?;
    assert_eq!(rt; store.append("a", b"x"), Ok(()));
    assert_eq!(rt; store.cut("a", 0), Err(FAILED));
    assert_eq!(rt; store.set_byte("a", 0, b'Y'), Ok(()));
    assert_eq!(rt; store.len("a"), Err(FAILED));
    assert_eq!(rt; store.sync("a"), Ok(()));
    for _ in 0..3 {
        assert_eq!(rt; store.sync("a"), Err(FAILED));
        assert_eq!(rt; store.rename("a", "b"), Err(FAILED));
        assert_eq!(rt; store.remove("a"), Err(FAILED));
        assert_eq!(rt; store.read("a", 0, &mut buf), Err(FAILED));
    }
    assert_eq!(rt; store.file("a"), Some(b"Yzx".as_slice()));
    assert_eq!(rt; store.file("b"), None);
    assert_eq!(rt; store.calls(), 18);
    assert_eq!(rt; store.reads_of("a"), 3);

    // Nothing is to fail after a reboot. The choice 0 gives it as it reads.
    let mut store = store.reboot(0)?;
    assert_eq!(rt; store.calls(), 0);
    assert_eq!(rt; store.reads_of("a"), 0);
    for _ in 0..8 {
        assert_eq!(rt; store.len("a"), Ok(Some(3)));
    }
    assert_eq!(rt; store.remove("a"), Ok(()));
    Ok(())
}
