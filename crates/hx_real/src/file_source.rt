//! A source over a real file.
ghost use Rattle.std.specs.Prelude.{◌≡◌, ◌≤◌, ◌<◌, ◌-◌, Ok, Some, IfOk, IfSome, OnErr, length, false};
ghost use Rattle.hx_real.specs.Files.{ReadsWithin, file_source};
ghost use Rattle.hx_outside.specs.Faults.{HasCause};
ghost use Rattle.hx_outside.specs.Sources.{GivesLength, Gives, SameSource};

#[cfg(test)]
mod tests;

use hx_outside::{Failed, Source};
use std::alloc::{AllocError, Global};
use std::fs;
use std::fs::File;
use std::io::ErrorKind;
use std::marker::Model;
use std::os::unix::fs::FileExt;
use std::rt::Files;

/// A file. Its size is asked once; so many bytes are read and no more, and a file that ends before them has failed.
/// It is open only from a first read to the one that reaches the size or fails. It tells nothing of its bytes.
#[derive(Drop)]
pub struct FileSource<R> {
    rt: R,
    path: String,
    size: Option<u64>,
    file: Option<File>,
    faults: u64,
}

impl<R> Model for FileSource<R> {
    ghost use Rattle.std.specs.Prelude.{is_some, string_bytes};
    ghost use Rattle.hx_real.specs.Files as files;

    ghost Value = { files.Opened };

    ghost view = { λ source. record { path = string_bytes source.path; size = source.size; is_open = is_some source.file; faults = source.faults } };
}

impl<R: Clone + Drop> FileSource<R> {
    ghost use Rattle.std.specs.Prelude.{None};

    /// The file of this path. It is not opened yet.
    pub fn new(rt: &R, alloc: Global, path: &str) -> Result<FileSource<R>, AllocError>
        ensures { IfOk result (λ source. source ≡ record { path = path.now; size = None; is_open = false; faults = 0 }) }
    {
        Ok(FileSource {
            rt: rt.clone()?,
            path: String::from_str(alloc, path)?,
            size: None,
            file: None,
            faults: 0,
        })
    }
}

impl<R: Files<File = File>> FileSource<R> {
    // Its size, which is asked once.
    fn size(&mut self) -> Result<u64, Failed>
        ensures ok { IfOk result (λ size. self.new ≡ record self.old { size = Some size }) }
        ensures once { IfSome self.old.size (λ size. result ≡ Ok size) }
        ensures err { OnErr result (self.new ≡ self.old) }
    {
        if let Some(size) = self.size {
            return Ok(size);
        }
        let size = size_of(&self.rt, self.path.as_str())?;
        self.size = Some(size);
        Ok(size)
    }

    // Opens the file where it isn't open yet, and reads some of its bytes before the size.
    fn read_some(&mut self, at: u64, buf: &mut [u8]) -> Result<usize, Failed>
        ensures bound { IfOk result (λ count. count ≤ length buf.old) }
        ensures within { IfOk result (λ count. IfSome self.new.size (λ size. ReadsWithin size at (length buf.old) count)) }
        ensures path { self.new.path ≡ self.old.path }
        ensures faults { self.new.faults ≡ self.old.faults }
        ensures size { IfSome self.old.size (λ size. self.new.size ≡ Some size) }
    {
        let left = self.size()?.saturating_sub(at);
        let wanted = left.min(buf.len() as u64) as usize;
        if wanted == 0 {
            return Ok(0);
        }
        if self.file.is_none() {
            self.file = Some(opened(&self.rt, self.path.as_str())?);
        }
        match self.file.as_ref() {
            Some(file) => read_of(file, at, &mut buf[..wanted]),
            None => Err(Failed),
        }
    }

    // Closes the file where a read reached the size or failed, and counts a fault.
    fn settle(&mut self, at: u64, read: Result<usize, Failed>)
        ensures path { self.new.path ≡ self.old.path }
        ensures size { self.new.size ≡ self.old.size }
        ensures closes { IfOk read (λ count. IfSome self.old.size (λ size. size - at ≤ count → self.new.is_open ≡ false)) }
        ensures failed { OnErr read (self.new.is_open ≡ false) }
        ensures cause { HasCause file_source.faults self.old self.new read }
    {
        let is_done = match (read, self.size) {
            (Ok(count), Some(size)) => size.saturating_sub(at) <= count as u64,
            _ => true,
        };
        if is_done {
            self.file = None;
        }
        if read.is_err() {
            self.faults = self.faults.saturating_add(1);
        }
    }
}

impl<R: Files<File = File> + Drop> Source for FileSource<R> {
    ghost source = { file_source };

    fn name(&self) -> &str {
        self.path.as_str()
    }

    fn len(&mut self) -> Result<u64, Failed>
        ensures length { GivesLength (file_source.told self.old) result }
        ensures same { SameSource file_source self.old self.new }
        ensures cause { HasCause file_source.faults self.old self.new result }

        // The size is asked once, and the file closed again.
        ensures once { IfSome self.old.size (λ size. result ≡ Ok size) }
        ensures kept { IfOk result (λ size. self.new.size ≡ Some size) }
        ensures closed { self.new.is_open ≡ self.old.is_open }
    {
        let size = self.size();
        if size.is_err() {
            self.faults = self.faults.saturating_add(1);
        }
        size
    }

    fn read_at(&mut self, at: u64, buf: &mut [u8]) -> Result<usize, Failed>
        ensures bound { IfOk result (λ count. count ≤ length buf.old) }
        ensures bytes { Gives (file_source.told self.old) at (length buf.old) buf.new result }
        ensures same { SameSource file_source self.old self.new }
        ensures cause { HasCause file_source.faults self.old self.new result }

        // The size bounds what is read; the file is closed where it is reached or the read failed.
        ensures once { IfSome self.old.size (λ size. self.new.size ≡ Some size) }
        ensures within { IfOk result (λ count. IfSome self.new.size (λ size. ReadsWithin size at (length buf.old) count)) }
        ensures closes { IfOk result (λ count. IfSome self.new.size (λ size. size - at ≤ count → self.new.is_open ≡ false)) }
        ensures failed { OnErr result (self.new.is_open ≡ false) }
    {
        let read = self.read_some(at, buf);
        self.settle(at, read);
        read
    }
}

fn opened<R: Files<File = File>>(rt: &R, path: &str) -> Result<File, Failed> {
    match File::open(rt, path) {
        Ok(file) => Ok(file),
        Err(_) => Err(Failed),
    }
}

// Whether a path names a file, and no folder or pipe. To open a pipe may take forever.
fn is_file<R: Files<File = File>>(rt: &R, path: &str) -> bool {
    match fs::metadata(rt, path) {
        Ok(metadata) => metadata.is_file(),
        Err(_) => false,
    }
}

// How many bytes a file has. It is closed again.
fn size_of<R: Files<File = File>>(rt: &R, path: &str) -> Result<u64, Failed> {
    if !is_file(rt, path) {
        return Err(Failed);
    }
    match opened(rt, path)?.metadata() {
        Ok(metadata) => Ok(metadata.len()),
        Err(_) => Err(Failed),
    }
}

// Reads some bytes of a file, again where a signal interrupts it. A file that has none left has failed.
fn read_of<F: FileExt>(file: &F, at: u64, buf: &mut [u8]) -> Result<usize, Failed>
    ensures bound { IfOk result (λ count. count ≤ length buf.old) }
    ensures some { IfOk result (λ count. 0 < count) }
{
    for _ in 0..u64::MAX {
        match file.read_at(buf, at) {
            Ok(0) => return Err(Failed),
            Ok(count) => return Ok(count),
            Err(error) if error.kind() == ErrorKind::Interrupted => {}
            Err(_) => return Err(Failed),
        }
    }
    Err(Failed)
}
