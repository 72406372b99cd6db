//! A new journal.
ghost use Rattle.std.specs.Prelude.{◌≡◌, ◌++◌, ◌∷◌, [], IfOk, OnOk, string_bytes};
ghost use Rattle.hx_outside.specs.Disk.{Passes};
ghost use Rattle.hx_outside.specs.Faults.{HasStoreCause};
ghost use Rattle.hx_publish.specs.Publishing.{Publishes};
ghost use Rattle.hx_journal.specs.Journal.{IsAtRest, journal_file, temporary_file};

use hx_base::{JobFile, Name, Pixel, job_path};
use hx_outside::{Store, StoreError};
use hx_publish::publish;
use std::alloc::{AllocError, Global};

// The name of a catalogue's journal.
pub(crate) fn journal_path(alloc: Global, name: &Name) -> Result<String, AllocError>
    ensures { IfOk result (λ path. string_bytes path ≡ journal_file name.now) }
{
    let pixel = Pixel {
        order: 0,
        number: 0,
    };
    job_path(alloc, name, JobFile::Journal, pixel)
}

fn temporary_path(alloc: Global, name: &Name) -> Result<String, AllocError>
    ensures { IfOk result (λ path. string_bytes path ≡ temporary_file name.now) }
{
    let mut path = String::from_str(alloc, name.as_str())?;
    path.push_str(".work/tmp")?;
    Ok(path)
}

/// Publishes a journal without records, `NAME.work/journal`, by way of `NAME.work/tmp`: the header and one closed
/// gate. At each moment a crash leaves the journal as before, or new and whole.
pub fn create<S: Store>(
    alloc: Global,
    store: &mut S,
    name: &Name,
    header: &[u8],
) -> Result<(), StoreError>
    ensures passes { S.disk.tells store.old → Passes S.disk store.old store.new (Publishes (temporary_file name.now) (journal_file name.now) (header.now ++ 0 ∷ [])) }
    ensures rest { S.disk.tells store.old → OnOk result (IsAtRest S.disk store.new (journal_file name.now) header.now []) }
    ensures cause { HasStoreCause S.disk.faults store.old store.new result }
{
    let path = journal_path(alloc, name)?;
    let tmp = temporary_path(alloc, name)?;
    let mut bytes = Vec::with_capacity(alloc, header.len().saturating_add(1))?;
    bytes.extend_from_slice(header)?;
    bytes.push(0)?;
    publish(store, tmp.as_str(), path.as_str(), &bytes)
}
