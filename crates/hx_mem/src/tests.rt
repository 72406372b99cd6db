//! Calls by their numbers, with what each answers and leaves.
mod crashes;
mod gates;
mod stores;

use crate::{MemSink, MemSource};
use hx_outside::{Failed, Sink, Source};
use std::test::Fail;

#[test]
fn reads_of_a_source(rt: HostRuntime) -> Result<(), Fail> {
    // Where a call reads, how many bytes it wants, how many it gives, and the buffer afterwards.
    let reads: [(u64, usize, Result<usize, Failed>, &[u8]); 9] = [
        (0, 3, Err(Failed), b"........"),
        (0, 3, Ok(3), b"abc....."),
        (0, 3, Err(Failed), b"........"),
        (0, 3, Ok(3), b"abc....."),
        (2, 3, Ok(3), b"cde....."),
        (4, 8, Ok(2), b"ef......"),
        (6, 8, Ok(0), b"........"),
        (u64::MAX, 8, Ok(0), b"........"),
        (0, 8, Ok(6), b"abcdef.."),
    ];
    let mut source = MemSource::new(rt.alloc(), "a.csv", b"abcdef")?;
    source.fail_calls(&[0])?;
    source.fail_calls(&[2, 10])?;
    for (number, (at, wanted, answer, left)) in reads.into_iter().enumerate() {
        let mut buf = [b'.'; 8];
        let given = source.read_at(at, &mut buf[..wanted.min(8)]);
        assert_eq!(rt; given, answer, "call {number}");
        assert_eq!(rt; buf.as_slice(), left, "call {number}");
    }
    for answer in [Ok(6), Err(Failed), Ok(6)] {
        assert_eq!(rt; source.len(), answer);
    }
    assert_eq!(rt; source.name(), "a.csv");
    Ok(())
}

#[test]
fn writes_to_a_sink(rt: HostRuntime) -> Result<(), Fail> {
    // What a call writes, what it answers, and what was written by then.
    let writes: [(&[u8], Result<(), Failed>, &[u8]); 8] = [
        (b"ab", Err(Failed), b""),
        (b"ab", Ok(()), b"ab"),
        (b"cd", Err(Failed), b"ab"),
        (b"cd", Ok(()), b"abcd"),
        (b"", Ok(()), b"abcd"),
        (b"efg", Err(Failed), b"abcde"),
        (b"", Ok(()), b"abcde"),
        (b"h", Err(Failed), b"abcde"),
    ];
    let mut sink = MemSink::new(rt.alloc(), 5)?;
    sink.fail_calls(&[0])?;
    sink.fail_calls(&[2])?;
    for (number, (bytes, answer, written)) in writes.into_iter().enumerate() {
        assert_eq!(rt; sink.write(bytes), answer, "call {number}");
        assert_eq!(rt; sink.bytes(), written, "call {number}");
    }
    let mut full = MemSink::new(rt.alloc(), 0)?;
    assert_eq!(rt; full.write(b""), Ok(()));
    assert_eq!(rt; full.write(b"a"), Err(Failed));
    assert_eq!(rt; full.bytes(), b"".as_slice());
    Ok(())
}
