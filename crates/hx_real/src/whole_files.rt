//! Calls on one file of the system, which is open only within the call.
ghost use Rattle.std.specs.Prelude.{◌≤◌, IfOk, length};

#[cfg(test)]
mod tests;

use crate::folders::is_absence;
use crate::writing::write_all;
use std::fs::{File, OpenOptions};
use std::io::{Error, ErrorKind, Seek, SeekFrom};
use std::os::unix::fs::FileExt;
use std::rt::Files;
use std::{fs, io};

/// How many bytes a file has, None where it is absent. A folder or a pipe is no file.
pub(crate) fn len_of<R: Files>(rt: &R, path: &str) -> io::Result<Option<u64>> {
    match fs::metadata(rt, path) {
        Ok(metadata) if metadata.is_file() => Ok(Some(metadata.len())),
        Ok(_) => Err(Error::from(ErrorKind::InvalidInput)),
        Err(error) if is_absence(&error) => Ok(None),
        Err(error) => Err(error),
    }
}

/// Fills the buffer from `at` on, as far as there are bytes, and says how many.
pub(crate) fn fill<F: FileExt>(file: &F, at: u64, buf: &mut [u8]) -> io::Result<usize>
    ensures { IfOk result (λ count. count ≤ length buf.old) }
{
    let mut count = 0;
    for _ in 0..u64::MAX {
        if count >= buf.len() {
            return Ok(count);
        }
        match file.read_at(&mut buf[count..], at.saturating_add(count as u64)) {
            Ok(0) => return Ok(count),
            Ok(more) => count += more,
            Err(error) if error.kind() == ErrorKind::Interrupted => {}
            Err(error) => return Err(error),
        }
    }
    Err(Error::from(ErrorKind::TimedOut))
}

/// Opens a file to add bytes at its end. It is made where it is absent, and its folder isn't.
pub(crate) fn open_end<R: Files<File = File>>(rt: &R, path: &str) -> io::Result<File> {
    OpenOptions::new().append(true).create(true).open(rt, path)
}

/// Syncs what a file holds.
pub(crate) fn sync_bytes<R: Files<File = File>>(rt: &R, path: &str) -> io::Result<()> {
    File::open(rt, path)?.sync_data()
}

/// Sets the byte of a file at a place that it has.
pub(crate) fn set_byte_of<R: Files<File = File>>(
    rt: &R,
    path: &str,
    at: u64,
    value: u8,
) -> io::Result<()> {
    let mut file = OpenOptions::new().write(true).open(rt, path)?;
    file.seek(SeekFrom::Start(at))?;
    write_all(&mut file, &[value])
}

/// Shortens a file to a length in bytes.
pub(crate) fn cut_file<R: Files<File = File>>(rt: &R, path: &str, len: u64) -> io::Result<()> {
    OpenOptions::new().write(true).open(rt, path)?.set_len(len)
}
