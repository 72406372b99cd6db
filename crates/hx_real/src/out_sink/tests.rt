//! A writer that takes few bytes at a time, is interrupted and runs full.
use super::OutSink;
use hx_outside::{Failed, Sink};
use std::io;
use std::io::{ErrorKind, Write};
use std::test::Fail;

// Takes so many bytes, at most two at a time; each other call is interrupted.
#[derive(Drop)]
struct Narrow {
    room: usize,
    written: Vec<u8>,
    is_interrupted: bool,
}

impl Write for Narrow {
    fn write(&mut self, buf: &[u8]) -> io::Result<usize> {
        self.is_interrupted = !self.is_interrupted;
        if self.is_interrupted {
            return Err(io::Error::from(ErrorKind::Interrupted));
        }
        if self.written.len() >= self.room {
            return Err(io::Error::from(ErrorKind::StorageFull));
        }
        let count = buf.len().min(2);
        self.written.extend_from_slice(&buf[..count])?;
        Ok(count)
    }

    fn flush(&mut self) -> io::Result<()> {
        Ok(())
    }
}

#[test]
fn all_is_written_as_far_as_it_is_taken(rt: HostRuntime) -> Result<(), Fail> {
    let cases: [(usize, Result<(), Failed>, &[u8]); 3] = [
        (9, Ok(()), b"abcdefg"),
        (4, Err(Failed), b"abcd"),
        (0, Err(Failed), b""),
    ];
    for (room, answer, written) in cases {
        let mut sink = OutSink::new(Narrow {
            room,
            written: Vec::with_capacity(rt.alloc(), 16)?,
            is_interrupted: false,
        });
        assert_eq!(rt; sink.write(b"abcdefg"), answer, "room {room}");
        assert_eq!(rt; sink.writer.written.as_slice(), written, "room {room}");
    }
    Ok(())
}
