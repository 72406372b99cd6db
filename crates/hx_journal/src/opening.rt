//! Opening the journal that a crash may have left.
ghost use Rattle.std.specs.Prelude.{◌≡◌, ◌≤◌, ◌-◌, ◌+◌, ◌*◌, length, string_bytes, None, Some, OnOk, IfOk, IfErr, IsErrOf, MatchOption};
ghost use Rattle.hx_outside.specs.Disk.{IsStable, Passes};
ghost use Rattle.hx_outside.specs.Faults.{HasFailed, HasStoreCause};
ghost use Rattle.hx_outside.specs.Folders.{Folder, Same};
ghost use Rattle.hx_journal.specs.Headers.{IsHeader};
ghost use Rattle.hx_journal.specs.Journal.{IsAtRest, IsFirstDamage, IsJournal, IsReady, Stands, Trims, journal_file};
ghost use Rattle.hx_journal.specs.Refusals.{IsOpened, IsRefusedFor, IsUnread};
ghost use Rattle.hx_journal.specs.declared.refusal.JournalRefusal.TheVariants.{Absent, Damaged, StoreFault};

use crate::creating::journal_path;
use crate::heading::behind_header;
use crate::noting::OPEN;
use crate::record::record_at;
use crate::{Journal, JournalRefusal};
use hx_base::Name;
use hx_outside::{Store, StoreError};
use hx_publish::read_file;
use std::alloc::Global;

// The place where the rest of some bytes begins.
fn place_of(rest: &[u8], bytes: &[u8]) -> u64
    ensures { result ≡ length bytes.now - length rest.now }
{
    bytes.len().saturating_sub(rest.len()) as u64
}

// Damage where the rest of some bytes begins.
fn damaged(bytes: &[u8], rest: &[u8]) -> JournalRefusal
    ensures { result ≡ Damaged (length bytes.now - length rest.now) }
{
    JournalRefusal::Damaged {
        place: place_of(rest, bytes),
    }
}

/// The first damaged place of some bytes, None exactly where they are a journal.
pub(crate) fn first_damage(bytes: &[u8]) -> Option<u64>
    ensures { MatchOption result (IsJournal bytes.now) (IsFirstDamage bytes.now) }
{
    let Some(mut rest) = behind_header(bytes) else {
        return Some(0);
    };
    while !rest.is_empty() {
        let gate = rest[0];
        if gate != OPEN {
            return None;
        }
        let Some((_entry, after)) = record_at(&rest[1..]) else {
            return Some(place_of(rest, bytes));
        };
        rest = after;
    }
    Some(place_of(rest, bytes))
}

// Reads the bytes of a journal of that name up to its first closed gate.
fn read_journal(alloc: Global, file: String, bytes: &[u8]) -> Result<Journal, JournalRefusal>
    ensures opened { IfOk result (IsOpened (string_bytes file) (Some bytes.now)) }
    ensures refused { IfErr result (IsUnread bytes.now) }
{
    let Some(mut rest) = behind_header(bytes) else {
        return Err(JournalRefusal::Damaged { place: 0 });
    };
    let mut header = Vec::new(alloc);
    header.extend_from_slice(&bytes[..bytes.len() - rest.len()])?;
    let mut records = Vec::new(alloc);
    while !rest.is_empty() {
        if rest[0] != OPEN {
            let gate = (bytes.len() - rest.len()) as u64;
            return Ok(Journal {
                file,
                header,
                records,
                gate,
            });
        }
        let Some((entry, after)) = record_at(&rest[1..]) else {
            return Err(damaged(bytes, rest));
        };
        records.push(entry)?;
        rest = after;
    }
    Err(damaged(bytes, rest))
}

// Reads the journal that is on the disk, once it is stable.
fn load<S: Store>(alloc: Global, store: &mut S, file: String) -> Result<Journal, JournalRefusal>
    ensures passes { S.disk.tells store.old → Passes S.disk store.old store.new Same }
    ensures stable { S.disk.tells store.old → OnOk result (IsStable S.disk store.new (string_bytes file)) }
    ensures opened { S.disk.tells store.old → IfOk result (IsOpened (string_bytes file) (S.disk.reads store.old (string_bytes file))) }
    ensures named { IfOk result (λ journal. journal.file ≡ string_bytes file) }
    ensures refused { S.disk.tells store.old → IfErr result (IsRefusedFor (S.disk.reads store.old (string_bytes file))) }
    ensures absent { S.disk.tells store.old → IsErrOf result Absent → (f : Folder) → S.disk.may_leave store.new f → f (string_bytes file) ≡ None }
    ensures later { S.disk.faults store.old ≤ S.disk.faults store.new }
    ensures failed { IsErrOf result StoreFault → HasFailed S.disk.faults store.old store.new }
{
    store.sync(file.as_str())?;
    let Some(bytes) = read_file(alloc, store, file.as_str())? else {
        return Err(JournalRefusal::Absent);
    };
    read_journal(alloc, file, &bytes)
}

// Cuts what stands behind the first closed gate.
fn trim<S: Store>(store: &mut S, name: &str, len: u64) -> Result<(), StoreError>
    ensures passes { (header : _) (rs : _) → IsHeader header → len ≡ length header + 33 * length rs + 1 → S.disk.tells store.old → IsStable S.disk store.old name.now → Stands header rs (S.disk.reads store.old name.now) → Passes S.disk store.old store.new (Trims name.now) }
    ensures rest { (header : _) (rs : _) → IsHeader header → len ≡ length header + 33 * length rs + 1 → S.disk.tells store.old → IsStable S.disk store.old name.now → Stands header rs (S.disk.reads store.old name.now) → OnOk result (IsAtRest S.disk store.new name.now header rs) }
    ensures cause { HasStoreCause S.disk.faults store.old store.new result }
{
    store.cut(name, len)?;
    store.sync(name)
}

/// Opens the journal of a catalogue, `NAME.work/journal`: it is synced and read, what stands behind its first closed
/// gate is cut, and it is synced again. At each moment a crash leaves the journal as before but for what stands behind
/// its first closed gate, and all other files. After `Ok` it is as `note` asks.
///
/// Over a store that tells, `Absent` comes where there is no such file, and `Damaged` where the file is no journal, at
/// the first damaged place. `StoreFault` comes only where the store's count of faults rose.
pub fn open<S: Store>(alloc: Global, store: &mut S, name: &Name) -> Result<Journal, JournalRefusal>
    ensures passes { S.disk.tells store.old → Passes S.disk store.old store.new (Trims (journal_file name.now)) }
    ensures opened { S.disk.tells store.old → IfOk result (IsOpened (journal_file name.now) (S.disk.reads store.old (journal_file name.now))) }
    ensures named { IfOk result (λ journal. journal.file ≡ journal_file name.now) }
    ensures ready { S.disk.tells store.old → IfOk result (IsReady S.disk store.new) }
    ensures refused { S.disk.tells store.old → IfErr result (IsRefusedFor (S.disk.reads store.old (journal_file name.now))) }
    ensures absent { S.disk.tells store.old → IsErrOf result Absent → (f : Folder) → S.disk.may_leave store.new f → f (journal_file name.now) ≡ None }
    ensures later { S.disk.faults store.old ≤ S.disk.faults store.new }
    ensures failed { IsErrOf result StoreFault → HasFailed S.disk.faults store.old store.new }
{
    let file = journal_path(alloc, name)?;
    let journal = match load(alloc, store, file) {
        Ok(journal) => journal,
        Err(refusal) => return Err(refusal),
    };
    let Some(len) = journal.gate.checked_add(1) else {
        return Err(JournalRefusal::Memory);
    };
    match trim(store, journal.file.as_str(), len) {
        Ok(()) => Ok(journal),
        Err(StoreError::Failed) => Err(JournalRefusal::StoreFault),
        Err(StoreError::Memory) => Err(JournalRefusal::Memory),
    }
}
