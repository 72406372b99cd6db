ghost use Rattle.std.specs.Prelude.{◌≡◌, ◌≤◌, length, option_map, IfOk, OnOk};
ghost use Rattle.hx_outside.specs.Disk.{DiskMembers, Acts, IsStable, IsDoneToAll, ReadsBytes};
ghost use Rattle.hx_outside.specs.Faults.{HasStoreCause};
ghost use Rattle.hx_outside.specs.Folders.{Same, MayAppend, MaySetByte, MayCut, MayRename, MayRemove, appended, byte_set, cut_to, renamed, removed};
ghost use Rattle.hx_outside.specs.declared.store.StoreError.TheVariants.{Memory};

use std::alloc::{AllocError, AllocFailed};

/// Why a call of a store did not succeed.
#[derive(Clone, Copy, Debug, PartialEq, Eq)]
pub enum StoreError {
    /// The store failed, and its count of faults rose, or stands at 2^64 - 1 or above. What the call would have
    /// done may stand or not.
    Failed,
    /// Memory ran out, and nothing changed.
    Memory,
}

impl From<AllocError> for StoreError {
    ghost from_gives = { λ _ error. error ≡ Memory };

    fn from(_: AllocError) -> Self {
        StoreError::Memory
    }
}

impl<T: Drop> From<AllocFailed<T>> for StoreError {
    ghost from_gives = { λ _ error. error ≡ Memory };

    fn from(_: AllocFailed<T>) -> Self {
        StoreError::Memory
    }
}

/// A folder of files by name, on a disk that may crash at any moment.
///
/// A store may tell how it reads and which folders a crash may leave. Whatever a call answers, a crash leaves a
/// folder that it might have left before, in which at most the files that the call names are changed, as far as the
/// call allows. Files that it doesn't name read as before.
pub trait Store: Drop {
    /// How it reads, what a crash may leave, where it tells it, and how often it has failed.
    ghost disk: { DiskMembers Self };

    /// The length of a file in bytes, None where it is absent.
    fn len(&mut self, name: &str) -> Result<Option<u64>, StoreError>
        ensures acts { disk.tells self.old → Acts disk self.old self.new Same result }
        ensures gives { disk.tells self.old → IfOk result (λ len. len ≡ option_map length (disk.reads self.old name.now)) }
        ensures cause { HasStoreCause disk.faults self.old self.new result };

    /// Reads a file from `at` on into the front of the buffer, and says how many bytes: as many as fit or are left,
    /// none of an absent file.
    fn read(&mut self, name: &str, at: u64, buf: &mut [u8]) -> Result<usize, StoreError>
        ensures bound { IfOk result (λ count. count ≤ length buf.old) }
        ensures acts { disk.tells self.old → Acts disk self.old self.new Same result }
        ensures gives { disk.tells self.old → IfOk result (ReadsBytes (disk.reads self.old name.now) at buf.old buf.new) }
        ensures cause { HasStoreCause disk.faults self.old self.new result };

    /// Adds bytes at a file's end; a file that is absent is made. Until its next sync a crash may leave any bytes in
    /// their place, as many or fewer, and a file that was never synced may be absent.
    fn append(&mut self, name: &str, bytes: &[u8]) -> Result<(), StoreError>
        ensures acts { disk.tells self.old → Acts disk self.old self.new (MayAppend name.now bytes.now (disk.reads self.old)) result }
        ensures done { disk.tells self.old → OnOk result (disk.reads self.new ≡ appended name.now bytes.now (disk.reads self.old)) }
        ensures cause { HasStoreCause disk.faults self.old self.new result };

    /// Makes a file stable, so that a crash leaves it as it reads. An absent file stays absent.
    fn sync(&mut self, name: &str) -> Result<(), StoreError>
        ensures acts { disk.tells self.old → Acts disk self.old self.new Same result }
        ensures done { disk.tells self.old → OnOk result (IsStable disk self.new name.now) }
        ensures cause { HasStoreCause disk.faults self.old self.new result };

    /// Sets one byte of a file. Where the file has no such place, nothing changes. Until its next sync a crash may
    /// leave any byte there.
    fn set_byte(&mut self, name: &str, at: u64, value: u8) -> Result<(), StoreError>
        ensures acts { disk.tells self.old → Acts disk self.old self.new (MaySetByte name.now at (disk.reads self.old)) result }
        ensures done { disk.tells self.old → OnOk result (disk.reads self.new ≡ byte_set name.now at value (disk.reads self.old)) }
        ensures cause { HasStoreCause disk.faults self.old self.new result };

    /// Shortens a file to a length in bytes, where it is longer. Until its next sync a crash may leave any bytes past
    /// that length, as many as there were or fewer.
    fn cut(&mut self, name: &str, len: u64) -> Result<(), StoreError>
        ensures acts { disk.tells self.old → Acts disk self.old self.new (MayCut name.now len (disk.reads self.old)) result }
        ensures done { disk.tells self.old → OnOk result (disk.reads self.new ≡ cut_to name.now len (disk.reads self.old)) }
        ensures cause { HasStoreCause disk.faults self.old self.new result };

    /// Gives a file another name, in place of the file of that name. Where it is absent, or both names are one,
    /// nothing changes. A stable file is under its new name after a crash too.
    fn rename(&mut self, from: &str, to: &str) -> Result<(), StoreError>
        ensures acts { disk.tells self.old → Acts disk self.old self.new (MayRename from.now to.now (disk.reads self.old)) result }
        ensures done { disk.tells self.old → OnOk result (disk.reads self.new ≡ renamed from.now to.now (disk.reads self.old)) }
        ensures whole { disk.tells self.old → IsStable disk self.old from.now → OnOk result (IsDoneToAll disk self.old self.new (renamed from.now to.now)) }
        ensures cause { HasStoreCause disk.faults self.old self.new result };

    /// Removes a file. A stable file is absent after a crash too.
    fn remove(&mut self, name: &str) -> Result<(), StoreError>
        ensures acts { disk.tells self.old → Acts disk self.old self.new (MayRemove name.now) result }
        ensures done { disk.tells self.old → OnOk result (disk.reads self.new ≡ removed name.now (disk.reads self.old)) }
        ensures whole { disk.tells self.old → IsStable disk self.old name.now → OnOk result (IsDoneToAll disk self.old self.new (removed name.now)) }
        ensures cause { HasStoreCause disk.faults self.old self.new result };
}
