//! Writing the file of a match by way of a temporary file.
ghost use Rattle.std.specs.Prelude.{◌≡◌, ◌≢◌, ◌++◌, ℕ, IfErr, IfOk, IsErrOf, List, OnOk, Some, [], string_bytes};
ghost use Rattle.hx_base.specs.declared.refusal.Refusal.TheVariants as refusal;
ghost use Rattle.hx_catalog.specs.Answers.{HasFaultCause, IsOutside};
ghost use Rattle.hx_outside.specs.Disk.{Passes};
ghost use Rattle.hx_outside.specs.Faults.{HasStoreCause};
ghost use Rattle.hx_outside.specs.Folders.{SameBut, contents};
ghost use Rattle.hx_outside.specs.declared.store.StoreError.TheVariants as error;
ghost use Rattle.hx_publish.specs.Publishing.{HasInEach, Publishes};
ghost use Rattle.hx_xmatch.specs.Output.{HasNoFolder, output_file, temporary_file};

use hx_base::{Name, Refusal};
use hx_outside::{Store, StoreError};
use std::alloc::{AllocError, Global};

/// The file of an output's name.
pub(crate) fn output_file(alloc: Global, name: &Name) -> Result<String, AllocError>
    ensures { IfOk result (λ path. string_bytes path ≡ output_file name.now) }
{
    let mut path = String::from_str(alloc, name.as_str())?;
    path.push_str(".csv")?;
    Ok(path)
}

/// The temporary file of an output's name, which is another one, in no folder.
pub(crate) fn temporary_file(alloc: Global, name: &Name) -> Result<String, AllocError>
    ensures path { IfOk result (λ path. string_bytes path ≡ temporary_file name.now) }
    ensures apart { IfOk result (λ path. string_bytes path ≢ output_file name.now) }
    ensures no_folder { IfOk result (λ path. HasNoFolder (string_bytes path)) }
{
    let mut path = String::from_str(alloc, name.as_str())?;
    path.push_str(".csv.tmp")?;
    Ok(path)
}

/// Adds bytes at the end of the temporary file.
pub(crate) fn add<S: Store>(store: &mut S, tmp: &str, bytes: &[u8]) -> Result<(), Refusal>
    ensures passes { S.disk.tells store.old → Passes S.disk store.old store.new (SameBut tmp.now) }
    ensures added { S.disk.tells store.old → OnOk result (S.disk.reads store.new tmp.now ≡ Some (contents (S.disk.reads store.old tmp.now) ++ bytes.now)) }
    ensures kinds { IfErr result IsOutside }
    ensures cause { HasFaultCause S.disk.faults store.old store.new result }
{
    match store.append(tmp, bytes) {
        Ok(()) => Ok(()),
        Err(StoreError::Failed) => Err(Refusal::StoreFault),
        Err(StoreError::Memory) => Err(Refusal::Memory),
    }
}

// Empties the temporary file, where it is there.
fn empty<S: Store>(store: &mut S, tmp: &str) -> Result<(), Refusal>
    ensures passes { S.disk.tells store.old → Passes S.disk store.old store.new (SameBut tmp.now) }
    ensures emptied { S.disk.tells store.old → OnOk result (contents (S.disk.reads store.new tmp.now) ≡ []) }
    ensures kinds { IfErr result IsOutside }
    ensures cause { HasFaultCause S.disk.faults store.old store.new result }
{
    match store.cut(tmp, 0) {
        Ok(()) => Ok(()),
        Err(StoreError::Failed) => Err(Refusal::StoreFault),
        Err(StoreError::Memory) => Err(Refusal::Memory),
    }
}

/// Makes the temporary file one of these bytes.
pub(crate) fn begin<S: Store>(store: &mut S, tmp: &str, bytes: &[u8]) -> Result<(), Refusal>
    ensures passes { S.disk.tells store.old → Passes S.disk store.old store.new (SameBut tmp.now) }
    ensures begun { S.disk.tells store.old → OnOk result (S.disk.reads store.new tmp.now ≡ Some bytes.now) }
    ensures kinds { IfErr result IsOutside }
    ensures cause { HasFaultCause S.disk.faults store.old store.new result }
{
    empty(store, tmp)?;
    add(store, tmp, bytes)
}

// Syncs the temporary file and renames it.
fn sync_and_rename<S: Store>(store: &mut S, tmp: &str, name: &str) -> Result<(), StoreError>
    requires { tmp.now ≢ name.now }
    ensures passes { S.disk.tells store.old → (bytes : List ℕ) → S.disk.reads store.old tmp.now ≡ Some bytes →
        Passes S.disk store.old store.new (Publishes tmp.now name.now bytes) }
    ensures done { S.disk.tells store.old → (bytes : List ℕ) → S.disk.reads store.old tmp.now ≡ Some bytes →
        OnOk result (HasInEach S.disk store.new name.now bytes) }
    ensures memory { S.disk.tells store.old → IsErrOf result error.Memory → Passes S.disk store.old store.new (SameBut tmp.now) }
    ensures cause { HasStoreCause S.disk.faults store.old store.new result }
{
    store.sync(tmp)?;
    store.rename(tmp, name)
}

/// Gives the file the bytes that the temporary one reads as: they are there after a crash too. Want of memory leaves the
/// file as it was; after a fault it is as it was or has the bytes.
pub(crate) fn finish<S: Store>(store: &mut S, tmp: &str, name: &str) -> Result<(), Refusal>
    requires { tmp.now ≢ name.now }
    ensures passes { S.disk.tells store.old → (bytes : List ℕ) → S.disk.reads store.old tmp.now ≡ Some bytes →
        Passes S.disk store.old store.new (Publishes tmp.now name.now bytes) }
    ensures done { S.disk.tells store.old → (bytes : List ℕ) → S.disk.reads store.old tmp.now ≡ Some bytes →
        OnOk result (HasInEach S.disk store.new name.now bytes) }
    ensures memory { S.disk.tells store.old → IsErrOf result refusal.Memory → Passes S.disk store.old store.new (SameBut tmp.now) }
    ensures kinds { IfErr result IsOutside }
    ensures cause { HasFaultCause S.disk.faults store.old store.new result }
{
    match sync_and_rename(store, tmp, name) {
        Ok(()) => Ok(()),
        Err(StoreError::Failed) => Err(Refusal::StoreFault),
        Err(StoreError::Memory) => Err(Refusal::Memory),
    }
}
