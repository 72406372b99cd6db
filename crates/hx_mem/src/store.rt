ghost use Rattle.std.specs.Prelude.{◌≡◌, ◌≤◌, ◌++◌, ◌∷◌, [], ℕ, List, length, true, false, Some, None, option_map, IfOk, OnOk, OnErr, IsErrOf};
ghost use Rattle.hx_outside.specs.Disk.{Acts, IsStable, IsDoneToAll, ReadsBytes};
ghost use Rattle.hx_outside.specs.Faults.{HasStoreCause};
ghost use Rattle.hx_outside.specs.Folders.{Folder, Same, MayAppend, MaySetByte, MayCut, MayRename, MayRemove, written, appended, byte_set, cut_to, renamed, removed};
ghost use Rattle.hx_mem.specs.Logs.{logged};
ghost use Rattle.hx_mem.specs.Stores.{FailsAsAsked, IsFresh, after_call, after_change, after_read, count_of, is_past, is_to_fail, mem_disk};
ghost use Rattle.hx_mem.specs.declared.change.Change.TheVariants.{Put, Append, SetByte, Cut, Sync, Rename, Remove};

use crate::bytes::Bytes;
use crate::calls::Calls;
use crate::change::{Call, Change, carry};
use crate::crash::image_of;
use crate::files::{File, bytes_in, copy, len_in, read_in};
use hx_outside::{Store, StoreError};
use std::alloc::{AllocError, Global};
use std::marker::Model;

/// A store in memory. It tells what it holds and what a crash may leave, and fails at the calls that were named, and
/// at all from the stop on, where there is one. A call that fails changes nothing as it reads.
#[derive(Drop)]
pub struct MemStore {
    alloc: Global,
    files: Vec<File>,
    start: Vec<File>,
    log: Vec<Call>,
    looked: Vec<Bytes>,
    calls: Calls,
    stop: Option<u64>,
}

impl Model for MemStore {
    ghost use Rattle.std.specs.Prelude.{◌≡◌};
    ghost use Rattle.hx_mem.specs.Files.{folder_of};
    ghost use Rattle.hx_mem.specs.Logs.{reads_after};
    ghost use Rattle.hx_mem.specs.Stores as Stores;

    ghost Value = { Stores.Held };

    ghost view = { λ store. record { start = store.start.items; log = store.log.items; looked = store.looked.items; count = store.calls; stop = store.stop } };

    ghost invariant = { λ store. folder_of store.files.items ≡ reads_after store.log.items (folder_of store.start.items) };
}

impl MemStore {
    /// An empty store. None of its calls is to fail.
    pub fn new(alloc: Global) -> MemStore
        ensures { result ≡ record { start = []; log = []; looked = []; count = record { named = []; calls = 0; faults = 0 }; stop = None } }
    {
        MemStore {
            alloc,
            files: Vec::new(alloc),
            start: Vec::new(alloc),
            log: Vec::new(alloc),
            looked: Vec::new(alloc),
            calls: Calls::new(alloc),
            stop: None,
        }
    }

    /// Places a stable file. This counts as no call.
    pub fn put(&mut self, name: &str, bytes: &[u8]) -> Result<(), AllocError>
        ensures ok { OnOk result (self.new ≡ record self.old { log = self.old.log ++ record { change = Put name.now bytes.now; done = true } ∷ [] }) }
        ensures err { OnErr result (self.new ≡ self.old) }
        ensures reads { OnOk result (mem_disk.reads self.new ≡ written name.now (Some bytes.now) (mem_disk.reads self.old)) }
        ensures images { OnOk result (IsDoneToAll mem_disk self.old self.new (written name.now (Some bytes.now))) }
    {
        let name = Bytes::copied(self.alloc, name.as_bytes())?;
        let bytes = Bytes::copied(self.alloc, bytes)?;
        match self.make(Change::Put { name, bytes }, false) {
            Ok(()) => Ok(()),
            Err(_) => Err(AllocError),
        }
    }

    /// The bytes of a file, None where it is absent.
    pub fn file(&self, name: &str) -> Option<&[u8]>
        ensures { option_map (λ bytes. bytes.now) result ≡ mem_disk.reads self.now name.now }
    {
        bytes_in(&self.files, name.as_bytes())
    }

    /// Names further calls that fail, by their numbers from 0. The number stands still at 2^64 - 1, so that all
    /// later calls have it.
    pub fn fail_calls(&mut self, numbers: &[u64]) -> Result<(), AllocError>
        ensures ok { OnOk result (self.new ≡ record self.old { count = record self.old.count { named = self.old.count.named ++ numbers.now } }) }
        ensures err { OnErr result (self.new ≡ self.old) }
    {
        self.calls.fail(numbers)
    }

    /// Makes every call from that number on fail.
    pub fn stop_after(&mut self, calls: u64)
        ensures { self.new ≡ record self.old { stop = Some calls } }
    {
        self.stop = Some(calls);
    }

    /// How many calls there were.
    pub fn calls(&self) -> u64
        ensures { result ≡ self.now.count.calls }
    {
        self.calls.calls()
    }

    /// How often a file was read, with the reads that failed.
    pub fn reads_of(&self, name: &str) -> u64
        ensures { result ≡ count_of name.now self.now.looked }
    {
        let mut count = 0;
        for at in 0..self.looked.len() {
            if self.looked[at].as_slice() == name.as_bytes() {
                count += 1;
            }
        }
        count
    }

    /// The store as a crash now may leave it, all of it stable, with no faults to come. Which of the folders that a
    /// crash may leave is picked by the choice: 0 gives it as it reads, others lose or change more.
    pub fn reboot(self, choice: u64) -> Result<MemStore, AllocError>
        ensures image { IfOk result (λ store. mem_disk.may_leave self (mem_disk.reads store)) }
        ensures stable { IfOk result (λ store. (name : List ℕ) → IsStable mem_disk store name) }
        ensures fresh { IfOk result IsFresh }
    {
        let alloc = self.alloc;
        let files = image_of(alloc, &self.log, &self.start, choice)?;
        let start = copy(alloc, &files)?;
        let calls = Calls::new(alloc);
        Ok(MemStore {
            alloc,
            files,
            start,
            log: Vec::new(alloc),
            looked: Vec::new(alloc),
            calls,
            stop: None,
        })
    }

    // Counts a call, and says whether it fails.
    fn call_fails(&mut self) -> bool
        ensures value { result ≡ is_to_fail self.old }
        ensures after { self.new ≡ after_call self.old }
        ensures later { self.old.count.faults ≤ self.new.count.faults }
    {
        let fails = self.calls.is_next_named() || is_stopped(self.stop, self.calls.calls());
        self.calls.count(fails);
        fails
    }

    // Makes a change, which fails or is done.
    fn make(&mut self, change: Change, fails: bool) -> Result<(), StoreError>
        ensures after { self.new ≡ record self.old { log = logged change result self.old.log } }
        ensures failed { IsErrOf result StoreError.Failed → fails ≡ true }
        ensures done { OnOk result (fails ≡ false) }
    {
        carry(self.alloc, &mut self.files, &mut self.log, change, fails)
    }
}

fn is_stopped(stop: Option<u64>, number: u64) -> bool
    ensures { result ≡ is_past stop number }
{
    match stop {
        Some(stop) => number >= stop,
        None => false,
    }
}

impl Store for MemStore {
    ghost disk = { mem_disk };

    fn len(&mut self, name: &str) -> Result<Option<u64>, StoreError>
        ensures acts { mem_disk.tells self.old → Acts mem_disk self.old self.new Same result }
        ensures gives { mem_disk.tells self.old → IfOk result (λ len. len ≡ option_map length (mem_disk.reads self.old name.now)) }
        ensures cause { HasStoreCause mem_disk.faults self.old self.new result }

        // Exactly when it fails, and what it leaves.
        ensures fails { FailsAsAsked (is_to_fail self.old) result }
        ensures after { self.new ≡ after_call self.old }
    {
        if self.call_fails() {
            return Err(StoreError::Failed);
        }
        Ok(len_in(&self.files, name.as_bytes()))
    }

    fn read(&mut self, name: &str, at: u64, buf: &mut [u8]) -> Result<usize, StoreError>
        ensures bound { IfOk result (λ count. count ≤ length buf.old) }
        ensures acts { mem_disk.tells self.old → Acts mem_disk self.old self.new Same result }
        ensures gives { mem_disk.tells self.old → IfOk result (ReadsBytes (mem_disk.reads self.old name.now) at buf.old buf.new) }
        ensures cause { HasStoreCause mem_disk.faults self.old self.new result }

        // Exactly when it fails, and what it leaves.
        ensures fails { FailsAsAsked (is_to_fail self.old) result }
        ensures after { self.new ≡ after_read name.now result self.old }
    {
        let fails = self.call_fails();
        self.looked
            .push(Bytes::copied(self.alloc, name.as_bytes())?)?;
        if fails {
            return Err(StoreError::Failed);
        }
        Ok(read_in(&self.files, name.as_bytes(), at, buf))
    }

    fn append(&mut self, name: &str, bytes: &[u8]) -> Result<(), StoreError>
        ensures acts { mem_disk.tells self.old → Acts mem_disk self.old self.new (MayAppend name.now bytes.now (mem_disk.reads self.old)) result }
        ensures done { mem_disk.tells self.old → OnOk result (mem_disk.reads self.new ≡ appended name.now bytes.now (mem_disk.reads self.old)) }
        ensures cause { HasStoreCause mem_disk.faults self.old self.new result }

        // Exactly when it fails, and what it leaves.
        ensures fails { FailsAsAsked (is_to_fail self.old) result }
        ensures after { self.new ≡ after_change (Append name.now bytes.now) result self.old }
    {
        let fails = self.call_fails();
        let name = Bytes::copied(self.alloc, name.as_bytes())?;
        let bytes = Bytes::copied(self.alloc, bytes)?;
        self.make(Change::Append { name, bytes }, fails)
    }

    fn sync(&mut self, name: &str) -> Result<(), StoreError>
        ensures acts { mem_disk.tells self.old → Acts mem_disk self.old self.new Same result }
        ensures done { mem_disk.tells self.old → OnOk result (IsStable mem_disk self.new name.now) }
        ensures cause { HasStoreCause mem_disk.faults self.old self.new result }

        // Exactly when it fails, and what it leaves.
        ensures fails { FailsAsAsked (is_to_fail self.old) result }
        ensures after { self.new ≡ after_change (Sync name.now) result self.old }
    {
        let fails = self.call_fails();
        let name = Bytes::copied(self.alloc, name.as_bytes())?;
        self.make(Change::Sync { name }, fails)
    }

    fn set_byte(&mut self, name: &str, at: u64, value: u8) -> Result<(), StoreError>
        ensures acts { mem_disk.tells self.old → Acts mem_disk self.old self.new (MaySetByte name.now at (mem_disk.reads self.old)) result }
        ensures done { mem_disk.tells self.old → OnOk result (mem_disk.reads self.new ≡ byte_set name.now at value (mem_disk.reads self.old)) }
        ensures cause { HasStoreCause mem_disk.faults self.old self.new result }

        // Exactly when it fails, and what it leaves.
        ensures fails { FailsAsAsked (is_to_fail self.old) result }
        ensures after { self.new ≡ after_change (SetByte name.now at value) result self.old }
    {
        let fails = self.call_fails();
        let name = Bytes::copied(self.alloc, name.as_bytes())?;
        self.make(Change::SetByte { name, at, value }, fails)
    }

    fn cut(&mut self, name: &str, len: u64) -> Result<(), StoreError>
        ensures acts { mem_disk.tells self.old → Acts mem_disk self.old self.new (MayCut name.now len (mem_disk.reads self.old)) result }
        ensures done { mem_disk.tells self.old → OnOk result (mem_disk.reads self.new ≡ cut_to name.now len (mem_disk.reads self.old)) }
        ensures cause { HasStoreCause mem_disk.faults self.old self.new result }

        // Exactly when it fails, and what it leaves.
        ensures fails { FailsAsAsked (is_to_fail self.old) result }
        ensures after { self.new ≡ after_change (Cut name.now len) result self.old }
    {
        let fails = self.call_fails();
        let name = Bytes::copied(self.alloc, name.as_bytes())?;
        self.make(Change::Cut { name, len }, fails)
    }

    fn rename(&mut self, from: &str, to: &str) -> Result<(), StoreError>
        ensures acts { mem_disk.tells self.old → Acts mem_disk self.old self.new (MayRename from.now to.now (mem_disk.reads self.old)) result }
        ensures done { mem_disk.tells self.old → OnOk result (mem_disk.reads self.new ≡ renamed from.now to.now (mem_disk.reads self.old)) }
        ensures whole { mem_disk.tells self.old → IsStable mem_disk self.old from.now → OnOk result (IsDoneToAll mem_disk self.old self.new (renamed from.now to.now)) }
        ensures cause { HasStoreCause mem_disk.faults self.old self.new result }

        // Exactly when it fails, and what it leaves.
        ensures fails { FailsAsAsked (is_to_fail self.old) result }
        ensures after { self.new ≡ after_change (Rename from.now to.now) result self.old }
    {
        let fails = self.call_fails();
        let from = Bytes::copied(self.alloc, from.as_bytes())?;
        let to = Bytes::copied(self.alloc, to.as_bytes())?;
        self.make(Change::Rename { from, to }, fails)
    }

    fn remove(&mut self, name: &str) -> Result<(), StoreError>
        ensures acts { mem_disk.tells self.old → Acts mem_disk self.old self.new (MayRemove name.now) result }
        ensures done { mem_disk.tells self.old → OnOk result (mem_disk.reads self.new ≡ removed name.now (mem_disk.reads self.old)) }
        ensures whole { mem_disk.tells self.old → IsStable mem_disk self.old name.now → OnOk result (IsDoneToAll mem_disk self.old self.new (removed name.now)) }
        ensures cause { HasStoreCause mem_disk.faults self.old self.new result }

        // Exactly when it fails, and what it leaves.
        ensures fails { FailsAsAsked (is_to_fail self.old) result }
        ensures after { self.new ≡ after_change (Remove name.now) result self.old }
    {
        let fails = self.call_fails();
        let name = Bytes::copied(self.alloc, name.as_bytes())?;
        self.make(Change::Remove { name }, fails)
    }
}
