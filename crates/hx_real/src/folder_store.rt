//! A store over a real folder.
ghost use Rattle.std.specs.Prelude.{◌≡◌, ◌≤◌, ◌⊎◌, Err, IfErr, IfOk, Ok, OnErr, OnOk, length, string_bytes};
ghost use Rattle.std.specs.IoError.{error_kind};
ghost use Rattle.hx_outside.specs.Faults.{HasFailed, HasStoreCause};
ghost use Rattle.hx_outside.specs.declared.store.StoreError.TheVariants.{Failed};
ghost use Rattle.hx_real.specs.Folders.{fault_of, folder_store};
ghost use Rattle.hx_real.specs.Names.{StaysInside, path_in, root_of};

#[cfg(test)]
mod tests;

use crate::names::{path_in, root_of, stays_inside};
use crate::system::System;
use hx_outside::{Store, StoreError};
use std::alloc::{AllocError, Global};
use std::fs::File;
use std::io;
use std::io::ErrorKind;
use std::marker::Model;
use std::rt::Files;

/// A folder of the system, its root. A name is the path of a file inside it; one that is empty or absolute, has a
/// NUL, or has a part between its slashes that is empty, `.` or `..`, has failed, and so has a name of a folder.
/// Folders are made as needed. Symbolic links are followed. At most 128 files that were read stay open. It tells
/// nothing of its files.
#[derive(Drop)]
pub struct FolderStore<R> {
    system: System<R>,
    root: String,
    faults: u64,
}

impl<R> Model for FolderStore<R> {
    ghost use Rattle.std.specs.Prelude.{string_bytes};
    ghost use Rattle.hx_real.specs.Folders as folders;

    ghost Value = { folders.Kept };

    ghost view = { λ store. record { root = string_bytes store.root; faults = store.faults } };
}

impl<R: Files<File = File> + Clone + Drop + Send> FolderStore<R> {
    /// The folder of this path, the current one where it is empty. It isn't looked at yet.
    pub fn new(rt: &R, alloc: Global, root: &str) -> Result<FolderStore<R>, AllocError>
        ensures { IfOk result (λ store. store ≡ record { root = root_of root.now; faults = 0 }) }
    {
        let root = root_of(alloc, root)?;
        Ok(FolderStore {
            system: System::new(rt.clone()?, root.len(), alloc),
            root,
            faults: 0,
        })
    }
}

impl<R> FolderStore<R> {
    // Counts a fault.
    fn failed(&mut self) -> StoreError
        ensures failed { result ≡ Failed }
        ensures root { self.new.root ≡ self.old.root }
        ensures later { self.old.faults ≤ self.new.faults }
        ensures rose { HasFailed folder_store.faults self.old self.new }
    {
        self.faults = self.faults.saturating_add(1);
        StoreError::Failed
    }

    // Whether a name stays inside the root. One that leaves it has failed.
    fn look(&mut self, name: &str) -> Result<(), StoreError>
        ensures inside { OnOk result (StaysInside name.now) }
        ensures outside { OnErr result (¬ (StaysInside name.now)) }
        ensures failed { OnErr result (result ≡ Err Failed) }
        ensures root { self.new.root ≡ self.old.root }
        ensures cause { HasStoreCause folder_store.faults self.old self.new result }
    {
        if stays_inside(name) {
            return Ok(());
        }
        Err(self.failed())
    }

    // The path of a file. A name that leaves the root has failed.
    fn path(&mut self, name: &str) -> Result<String, StoreError>
        ensures inside { IfOk result (λ path. StaysInside name.now × (string_bytes path ≡ path_in self.old.root name.now)) }
        ensures outside { ¬ (StaysInside name.now) → result ≡ Err Failed }
        ensures root { self.new.root ≡ self.old.root }
        ensures cause { HasStoreCause folder_store.faults self.old self.new result }
    {
        self.look(name)?;
        Ok(path_in(&self.root, name)?)
    }

    // Counts a fault where a call did not succeed.
    fn counted<T>(&mut self, called: io::Result<T>) -> Result<T, StoreError>
        ensures ok { IfOk called (λ value. result ≡ Ok value) }
        ensures failed { OnErr called (result ≡ Err Failed) }
        ensures root { self.new.root ≡ self.old.root }
        ensures cause { HasStoreCause folder_store.faults self.old self.new result }
    {
        match called {
            Ok(value) => Ok(value),
            Err(_) => Err(self.failed()),
        }
    }

    // The same of a call that changes nothing, whose want of memory is told.
    fn counted_look<T>(&mut self, called: io::Result<T>) -> Result<T, StoreError>
        ensures ok { IfOk called (λ value. result ≡ Ok value) }
        ensures failed { IfErr called (λ error. result ≡ Err (fault_of (error_kind error))) }
        ensures root { self.new.root ≡ self.old.root }
        ensures cause { HasStoreCause folder_store.faults self.old self.new result }
    {
        match called {
            Ok(value) => Ok(value),
            Err(error) if error.kind() == ErrorKind::OutOfMemory => Err(StoreError::Memory),
            Err(_) => Err(self.failed()),
        }
    }
}

impl<R: Files<File = File> + Drop> Store for FolderStore<R> {
    // It tells nothing, and so owes no more than the causes.
    ghost disk = { folder_store };

    fn len(&mut self, name: &str) -> Result<Option<u64>, StoreError>
        ensures root { self.new.root ≡ self.old.root }
        ensures cause { HasStoreCause folder_store.faults self.old self.new result }
        ensures outside { ¬ (StaysInside name.now) → result ≡ Err Failed }
    {
        let path = self.path(name)?;
        let len = self.system.len(path.as_str());
        self.counted_look(len)
    }

    fn read(&mut self, name: &str, at: u64, buf: &mut [u8]) -> Result<usize, StoreError>
        ensures bound { IfOk result (λ count. count ≤ length buf.old) }
        ensures root { self.new.root ≡ self.old.root }
        ensures cause { HasStoreCause folder_store.faults self.old self.new result }
        ensures outside { ¬ (StaysInside name.now) → result ≡ Err Failed }
    {
        let path = self.path(name)?;
        let read = self.system.read(path.as_str(), at, buf);
        self.counted_look(read)
    }

    fn append(&mut self, name: &str, bytes: &[u8]) -> Result<(), StoreError>
        ensures root { self.new.root ≡ self.old.root }
        ensures cause { HasStoreCause folder_store.faults self.old self.new result }
        ensures outside { ¬ (StaysInside name.now) → result ≡ Err Failed }
    {
        let path = self.path(name)?;
        let appended = self.system.append(path.as_str(), bytes);
        self.counted(appended)
    }

    fn sync(&mut self, name: &str) -> Result<(), StoreError>
        ensures root { self.new.root ≡ self.old.root }
        ensures cause { HasStoreCause folder_store.faults self.old self.new result }
        ensures outside { ¬ (StaysInside name.now) → result ≡ Err Failed }
    {
        let path = self.path(name)?;
        let synced = self.system.sync(path.as_str());
        self.counted(synced)
    }

    fn set_byte(&mut self, name: &str, at: u64, value: u8) -> Result<(), StoreError>
        ensures root { self.new.root ≡ self.old.root }
        ensures cause { HasStoreCause folder_store.faults self.old self.new result }
        ensures outside { ¬ (StaysInside name.now) → result ≡ Err Failed }
    {
        let path = self.path(name)?;
        let set = self.system.set_byte(path.as_str(), at, value);
        self.counted(set)
    }

    fn cut(&mut self, name: &str, len: u64) -> Result<(), StoreError>
        ensures root { self.new.root ≡ self.old.root }
        ensures cause { HasStoreCause folder_store.faults self.old self.new result }
        ensures outside { ¬ (StaysInside name.now) → result ≡ Err Failed }
    {
        let path = self.path(name)?;
        let cut = self.system.cut(path.as_str(), len);
        self.counted(cut)
    }

    fn rename(&mut self, from: &str, to: &str) -> Result<(), StoreError>
        ensures root { self.new.root ≡ self.old.root }
        ensures cause { HasStoreCause folder_store.faults self.old self.new result }
        ensures outside { (¬ (StaysInside from.now)) ⊎ (¬ (StaysInside to.now)) → result ≡ Err Failed }
    {
        self.look(from)?;
        self.look(to)?;
        let old = path_in(&self.root, from)?;
        let new = path_in(&self.root, to)?;
        let renamed = self.system.rename(old.as_str(), new.as_str());
        self.counted(renamed)
    }

    fn remove(&mut self, name: &str) -> Result<(), StoreError>
        ensures root { self.new.root ≡ self.old.root }
        ensures cause { HasStoreCause folder_store.faults self.old self.new result }
        ensures outside { ¬ (StaysInside name.now) → result ≡ Err Failed }
    {
        let path = self.path(name)?;
        let removed = self.system.remove(path.as_str());
        self.counted(removed)
    }
}
