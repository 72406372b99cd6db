//! Bytes are written whole.
ghost use Rattle.std.specs.Prelude.{◌≤◌, ◌<◌, IfOk, OnErr, length, take};
ghost use Rattle.std.specs.Io.KnownBytes.{Appends, Keeps};
ghost use Rattle.hx_real.specs.Writes.{WritesOn};

use std::io;
use std::io::{Error, ErrorKind, Write};

// Writes some of the bytes, again where a signal interrupts it. A writer that takes none has failed.
fn write_some<W: Write>(writer: &mut W, bytes: &[u8]) -> io::Result<usize>
    ensures some { IfOk result (λ count. 0 < count) }
    ensures bound { IfOk result (λ count. count ≤ length bytes.now) }
    ensures ok { IfOk result (λ count. Appends (W.contents writer.old) (W.contents writer.new) (take count bytes.now)) }
    ensures err { OnErr result (Keeps (W.contents writer.old) (W.contents writer.new)) }
{
    for _ in 0..u64::MAX {
        match writer.write(bytes) {
            Ok(0) => return Err(Error::from(ErrorKind::WriteZero)),
            Ok(count) => return Ok(count),
            Err(error) if error.kind() == ErrorKind::Interrupted => {}
            Err(error) => return Err(error),
        }
    }
    Err(Error::from(ErrorKind::TimedOut))
}

/// Writes all bytes, as many at a time as are taken.
pub(crate) fn write_all<W: Write>(writer: &mut W, bytes: &[u8]) -> io::Result<()>
    ensures { WritesOn (W.contents writer.old) (W.contents writer.new) bytes.now result }
{
    let mut at = 0;
    while at < bytes.len() {
        at += write_some(writer, &bytes[at..])?;
    }
    writer.flush()
}
