//! A file that gives few bytes at a time, is interrupted and fails.
use super::fill;
use std::cell::Cell;
use std::io;
use std::io::ErrorKind;
use std::os::unix::fs::FileExt;

// Gives at most two bytes at a time, and fails or has none left behind the seventh; each other call is interrupted.
#[derive(Drop)]
struct Slow {
    is_interrupted: Cell<bool>,
    fails: bool,
}

impl FileExt for Slow {
    fn read_at(&self, buf: &mut [u8], offset: u64) -> io::Result<usize> {
        let is_interrupted = !self.is_interrupted.get();
        self.is_interrupted.set(is_interrupted);
        if is_interrupted {
            return Err(io::Error::from(ErrorKind::Interrupted));
        }
        let left = &b"abcdefg"[offset.min(7) as usize..];
        if left.is_empty() && self.fails {
            return Err(io::Error::from(ErrorKind::TimedOut));
        }
        let count = left.len().min(buf.len()).min(2);
        buf[..count].copy_from_slice(&left[..count]);
        Ok(count)
    }

    fn write_at(&self, _buf: &[u8], _offset: u64) -> io::Result<usize> {
        Ok(0)
    }
}

#[test]
fn a_buffer_is_filled_as_far_as_there_are_bytes(rt: HostRuntime) {
    let cases: [(bool, u64, usize, Option<usize>, &[u8]); 7] = [
        (false, 0, 3, Some(3), b"abc....."),
        (false, 0, 7, Some(7), b"abcdefg."),
        (false, 1, 8, Some(6), b"bcdefg.."),
        (false, 7, 8, Some(0), b"........"),
        (false, 0, 0, Some(0), b"........"),
        (true, 2, 5, Some(5), b"cdefg..."),
        (true, 2, 6, None, b"cdefg..."),
    ];
    for (fails, at, room, count, held) in cases {
        let file = Slow {
            is_interrupted: Cell::new(false),
            fails,
        };
        let mut buf = [b'.'; 8];
        let read = fill(&file, at, &mut buf[..room.min(8)]);
        assert_eq!(rt; read.ok(), count, "{at} {room}");
        assert_eq!(rt; buf.as_slice(), held, "{at} {room}");
    }
}
