//! Calls on the files below a folder, with what makes the names in it last.
ghost use Rattle.std.specs.Prelude.{◌≤◌, IfOk, length};

#[cfg(test)]
mod tests;

use crate::folders::{folder_of, is_absence, make_folders, sync_folder, sync_folders};
use crate::known::Known;
use crate::lasting::Lasting;
use crate::whole_files::{cut_file, fill, len_of, open_end, set_byte_of, sync_bytes};
use crate::writing::write_all;
use std::alloc::Global;
use std::fs::File;
use std::rt::Files;
use std::{fs, io};

/// The system's files below a root. Each is named by a path that begins with the root's.
#[derive(Drop)]
pub(crate) struct System<R> {
    rt: R,
    /// The length of the root's path in bytes.
    root: usize,
    known: Known,
    lasting: Lasting,
}

impl<R: Files<File = File>> System<R> {
    pub(crate) fn new(rt: R, root: usize, alloc: Global) -> System<R> {
        System {
            rt,
            root,
            known: Known::new(alloc),
            lasting: Lasting::new(alloc),
        }
    }

    /// How many bytes a file has, None where it is absent. A folder or a pipe is no file.
    pub(crate) fn len(&mut self, path: &str) -> io::Result<Option<u64>> {
        if let Some(len) = self.known.len(path) {
            return Ok(len);
        }
        let len = len_of(&self.rt, path)?;
        self.known.set_len(path, len);
        Ok(len)
    }

    // Reads the bytes of a file that is there. It stays open.
    fn read_there(&mut self, path: &str, at: u64, buf: &mut [u8]) -> io::Result<usize>
        ensures { IfOk result (λ count. count ≤ length buf.old) }
    {
        if let Some(file) = self.known.file(path) {
            return fill(file, at, buf);
        }
        let file = File::open(&self.rt, path)?;
        let read = fill(&file, at, buf);
        self.known.keep_file(path, file);
        read
    }

    /// Reads the bytes from `at` on that fit the buffer or are left, and says how many. The file stays open.
    pub(crate) fn read(&mut self, path: &str, at: u64, buf: &mut [u8]) -> io::Result<usize>
        ensures { IfOk result (λ count. count ≤ length buf.old) }
    {
        match self.len(path)? {
            Some(len) if at < len => self.read_there(path, at, buf),
            _ => Ok(0),
        }
    }

    // Makes the absent folders of a path.
    fn make_folders(&mut self, path: &str) -> io::Result<()> {
        self.lasting.forget();
        make_folders(&self.rt, path, self.root)
    }

    // Syncs the folder of a path, so that a crash leaves its names, and those above it where their names may not last.
    fn sync_names(&mut self, path: &str) -> io::Result<()> {
        let folder = folder_of(path);
        if self.lasting.is_settled(folder) {
            return Ok(());
        }
        if self.lasting.is_known(folder) {
            sync_folder(&self.rt, folder)?;
        } else {
            sync_folders(&self.rt, path, self.root)?;
        }
        self.lasting.settle(folder);
        Ok(())
    }

    // Opens a file to add bytes at its end, unless it is open. One that is absent is made, with its folders.
    fn open_end(&mut self, path: &str) -> io::Result<File> {
        if let Some(file) = self.known.take_end(path) {
            return Ok(file);
        }
        match open_end(&self.rt, path) {
            Err(error) if is_absence(&error) => {
                self.make_folders(path)?;
                open_end(&self.rt, path)
            }
            opened => opened,
        }
    }

    /// Adds bytes at the end of a file, which stays open. One that is absent is made, with its folders.
    pub(crate) fn append(&mut self, path: &str, bytes: &[u8]) -> io::Result<()> {
        let len = self.len(path)?;
        if len.is_none() {
            self.lasting.unsettle(folder_of(path));
        }
        let mut file = self.open_end(path)?;
        self.known.forget(path);
        write_all(&mut file, bytes)?;
        let len = len.unwrap_or(0).saturating_add(bytes.len() as u64);
        self.known.set_len(path, Some(len));
        self.known.keep_end(path, file);
        Ok(())
    }

    // Syncs what a file holds that is there.
    fn sync_there(&mut self, path: &str) -> io::Result<()> {
        match self.known.end(path) {
            Some(file) => file.sync_data(),
            None => sync_bytes(&self.rt, path),
        }
    }

    /// Syncs a file and the folders of its path. Where it is absent, it stays so after a crash.
    pub(crate) fn sync(&mut self, path: &str) -> io::Result<()> {
        if self.len(path)?.is_some() {
            self.sync_there(path)?;
        }
        self.sync_names(path)
    }

    /// Sets the byte at `at`, where there is one.
    pub(crate) fn set_byte(&mut self, path: &str, at: u64, value: u8) -> io::Result<()> {
        match self.len(path)? {
            Some(len) if at < len => set_byte_of(&self.rt, path, at, value),
            _ => Ok(()),
        }
    }

    /// Shortens a file to a length in bytes, where it is longer.
    pub(crate) fn cut(&mut self, path: &str, len: u64) -> io::Result<()> {
        match self.len(path)? {
            Some(now) if len < now => {
                self.known.forget(path);
                cut_file(&self.rt, path, len)
            }
            _ => Ok(()),
        }
    }

    // Renames a file; the folders of the new name are made where they are absent.
    fn move_file(&mut self, from: &str, to: &str) -> io::Result<()> {
        match fs::rename(&self.rt, from, to) {
            Err(error) if is_absence(&error) => {
                self.make_folders(to)?;
                fs::rename(&self.rt, from, to)
            }
            moved => moved,
        }
    }

    /// Gives a file another name, whose folders are made, and syncs the folder of that name. A rename is one step of the
    /// system: once the new name lasts, the old one is gone. Where it is absent, or both names are one, nothing changes.
    pub(crate) fn rename(&mut self, from: &str, to: &str) -> io::Result<()> {
        let len = self.len(from)?;
        if len.is_none() || from == to {
            return Ok(());
        }
        self.known.forget(from);
        self.known.forget(to);
        self.lasting.unsettle(folder_of(to));
        self.move_file(from, to)?;
        self.known.set_len(from, None);
        self.known.set_len(to, len);
        self.sync_names(to)
    }

    /// Removes a file and syncs the folder of its path. Where it is absent, nothing changes.
    pub(crate) fn remove(&mut self, path: &str) -> io::Result<()> {
        if self.len(path)?.is_none() {
            return Ok(());
        }
        self.known.forget(path);
        self.lasting.unsettle(folder_of(path));
        fs::remove_file(&self.rt, path)?;
        self.known.set_len(path, None);
        self.sync_names(path)
    }
}
