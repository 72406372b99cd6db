//! Calls that change a store or make it stable. A store keeps them, so that it can tell what a crash may leave.
ghost use Rattle.std.specs.Prelude.{◌≡◌, true, false, OnOk, OnErr, IsErrOf};
ghost use Rattle.hx_outside.specs.Folders.{Folder};
ghost use Rattle.hx_mem.specs.Files.{folder_of};
ghost use Rattle.hx_mem.specs.Logs.{effect, logged, name_of, reads_after};

use crate::bytes::Bytes;
use crate::files::{File, append_in, cut_in, put_in, rename_in, set_in, take_in};
use hx_outside::StoreError;
use std::alloc::{AllocError, Global};

/// What is changed.
#[derive(Drop)]
pub enum Change {
    Put { name: Bytes, bytes: Bytes },
    Append { name: Bytes, bytes: Bytes },
    SetByte { name: Bytes, at: u64, value: u8 },
    Cut { name: Bytes, len: u64 },
    Sync { name: Bytes },
    Rename { from: Bytes, to: Bytes },
    Remove { name: Bytes },
}

/// A change that was done, or whose call failed.
#[derive(Drop)]
pub struct Call {
    pub change: Change,
    pub done: bool,
}

impl Change {
    /// The file that it names; of a rename the one that gets another name.
    pub fn name(&self) -> &[u8]
        ensures { result.now ≡ name_of self.now }
    {
        match self {
            Change::Put { name, bytes: _ } => name.as_slice(),
            Change::Append { name, bytes: _ } => name.as_slice(),
            Change::SetByte { name, .. } => name.as_slice(),
            Change::Cut { name, len: _ } => name.as_slice(),
            Change::Sync { name } => name.as_slice(),
            Change::Rename { from, to: _ } => from.as_slice(),
            Change::Remove { name } => name.as_slice(),
        }
    }

    /// Does it to files.
    pub fn apply(&self, alloc: Global, files: &mut Vec<File>) -> Result<(), AllocError>
        ensures ok { OnOk result (folder_of files.new.items ≡ effect self.now (folder_of files.old.items)) }
        ensures err { OnErr result (folder_of files.new.items ≡ folder_of files.old.items) }
    {
        match self {
            Change::Put { name, bytes } => {
                let bytes = Bytes::copied(alloc, bytes.as_slice())?;
                return put_in(alloc, files, name.as_slice(), bytes);
            }
            Change::Append { name, bytes } => {
                return append_in(alloc, files, name.as_slice(), bytes.as_slice());
            }
            Change::SetByte { name, at, value } => set_in(files, name.as_slice(), *at, *value),
            Change::Cut { name, len } => cut_in(files, name.as_slice(), *len),
            Change::Sync { name: _ } => {}
            Change::Rename { from, to } => {
                return rename_in(alloc, files, from.as_slice(), to.as_slice());
            }
            Change::Remove { name } => {
                take_in(files, name.as_slice());
            }
        }
        Ok(())
    }
}

/// Makes a call, which is told to fail or is done, and keeps it.
pub fn carry(
    alloc: Global,
    files: &mut Vec<File>,
    log: &mut Vec<Call>,
    change: Change,
    fails: bool,
) -> Result<(), StoreError>
    ensures after { log.new.items ≡ logged change result log.old.items }
    ensures shows { (start : Folder) → folder_of files.old.items ≡ reads_after log.old.items start → folder_of files.new.items ≡ reads_after log.new.items start }
    ensures failed { IsErrOf result StoreError.Failed → fails ≡ true }
    ensures done { OnOk result (fails ≡ false) }
{
    let at = log.len();
    log.push(Call {
        change,
        done: !fails,
    })?;
    if fails {
        return Err(StoreError::Failed);
    }
    if log[at].change.apply(alloc, files).is_err() {
        log.pop();
        return Err(StoreError::Memory);
    }
    Ok(())
}
