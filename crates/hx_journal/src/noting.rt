//! An open journal, and one record more.
ghost use Rattle.std.specs.Prelude.{◌≡◌, ◌+◌, ◌*◌, ◌++◌, ◌∷◌, [], OnOk, length};
ghost use Rattle.hx_outside.specs.Disk.{Passes};
ghost use Rattle.hx_outside.specs.Faults.{HasStoreCause};
ghost use Rattle.hx_journal.specs.Headers.{IsHeader};
ghost use Rattle.hx_journal.specs.Journal.{AreRecords, IsAtRest, IsEntry, IsReady, IsRecord, Notes, body};

use crate::Record;
use hx_outside::{Store, StoreError};
use std::marker::Model;

// The bytes of a gate and a body.
const BLOCK: u64 = 33;

// The byte of an open gate, and of a new closed one.
pub(crate) const OPEN: u8 = 1;

const CLOSED: u8 = 0;

/// An open journal. It is seen as its file's name, its header and its records.
#[derive(Drop)]
pub struct Journal {
    pub(crate) file: String,
    pub(crate) header: Vec<u8>,
    pub(crate) records: Vec<Record>,
    // The place of the closed gate.
    pub(crate) gate: u64,
}

impl Model for Journal {
    ghost use Rattle.std.specs.Prelude.{string_bytes};
    ghost use Rattle.hx_journal.specs.Journal as Specs;

    ghost Value = { Specs.Opened };

    ghost view = { λ journal. record { file = string_bytes journal.file; header = journal.header.items; records = journal.records.items } };

    ghost invariant = { λ journal. Specs.IsSound journal.gate journal.header.items journal.records.items };
}

impl Journal {
    /// The bytes of its header.
    pub fn header(&self) -> &[u8]
        ensures bytes { result.now ≡ self.now.header }
        ensures heading { IsHeader self.now.header }
    {
        &self.header
    }

    /// Its records, in the order in which they were noted.
    pub fn records(&self) -> &[Record]
        ensures items { result.now ≡ self.now.records }
        ensures entries { AreRecords self.now.records }
    {
        &self.records
    }

    /// Adds a record, of a kind from 1 to 8, and with no rows for lists and properties. After an error the journal is
    /// spent, and is to be opened again. `Failed` comes only where the store's count of faults rose.
    ///
    /// Over a store that tells, and has the journal as this one was left (each folder that a crash may leave has the
    /// header, the records, and a closed gate with nothing behind it): at each moment a crash leaves the records before,
    /// or these and the new one, and changes no other file. After `Ok` each crash leaves the new one too, and the store is
    /// as the next note asks.
    pub fn note<S: Store>(&mut self, store: &mut S, entry: Record) -> Result<(), StoreError>
        requires { IsEntry entry }
        ensures passes { IsReady S.disk store.old self.old → Passes S.disk store.old store.new (Notes self.old.file self.old.header self.old.records entry) }
        ensures done { IsReady S.disk store.old self.old → OnOk result (IsReady S.disk store.new (record self.old { records = self.old.records ++ entry ∷ [] })) }
        ensures kept { OnOk result (self.new ≡ record self.old { records = self.old.records ++ entry ∷ [] }) }
        ensures cause { HasStoreCause S.disk.faults store.old store.new result }
    {
        let gate = self.gate;
        let Some(next) = gate.checked_add(BLOCK) else {
            return Err(StoreError::Memory);
        };
        let mut bytes = Vec::with_capacity(*self.records.allocator(), BLOCK as usize)?;
        entry.push_body(&mut bytes)?;
        bytes.push(CLOSED)?;
        self.records.push(entry)?;
        self.gate = next;
        note_in(store, self.file.as_str(), gate, &bytes)
    }
}

// Adds a body and a closed gate, and opens the gate before it: each is synced before the next counts.
fn note_in<S: Store>(store: &mut S, name: &str, gate: u64, bytes: &[u8]) -> Result<(), StoreError>
    ensures passes { (header : _) (rs : _) (r : _) → IsRecord r → gate ≡ length header + 33 * length rs → bytes.now ≡ body r ++ 0 ∷ [] → S.disk.tells store.old → IsAtRest S.disk store.old name.now header rs → Passes S.disk store.old store.new (Notes name.now header rs r) }
    ensures done { (header : _) (rs : _) (r : _) → IsRecord r → gate ≡ length header + 33 * length rs → bytes.now ≡ body r ++ 0 ∷ [] → S.disk.tells store.old → IsAtRest S.disk store.old name.now header rs → OnOk result (IsAtRest S.disk store.new name.now header (rs ++ r ∷ [])) }
    ensures cause { HasStoreCause S.disk.faults store.old store.new result }
{
    store.append(name, bytes)?;
    store.sync(name)?;
    store.set_byte(name, gate, OPEN)?;
    store.sync(name)
}
