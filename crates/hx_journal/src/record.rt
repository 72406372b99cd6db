//! Records and their bytes.
ghost use Rattle.std.specs.Prelude.{◌≡◌, ◌≢◌, ◌≤◌, ◌++◌, ◌↔◌, ℕ, List, IsTrue, MatchOption, OnOk, length};
ghost use Rattle.hx_journal.specs.Journal.{BeginsByBody, HasNoBody, IsEntry, body, candidate};

use crate::fronts::behind;
use hx_base::Task;
use std::alloc::AllocError;

// The bytes of a body.
const BODY: usize = 32;

/// A task that was done.
#[derive(Clone, Copy, Debug, PartialEq, Eq)]
pub struct Record {
    /// The task.
    pub task: Task,
    /// The length of its file in bytes.
    pub len: u64,
    /// The rows in its file; the partitions for a plan; 0 for lists and properties.
    pub rows: u64,
}

// The kinds from which on records have no rows, and the last.
const LISTS: u8 = 7;

const LAST_KIND: u8 = 8;

impl Record {
    // Whether it has a kind from 1 to 8, and no rows for lists and properties.
    pub(crate) fn is_entry(&self) -> bool
        ensures { IsTrue result ↔ IsEntry self.now }
    {
        let kind = self.task.kind;
        if kind == 0 || kind > LAST_KIND {
            return false;
        }
        kind < LISTS || self.rows == 0
    }

    #[tactic(auto, unfolding(crate::specs::Journal::body))]
    // Adds its 32 bytes.
    pub(crate) fn push_body(&self, bytes: &mut Vec<u8>) -> Result<(), AllocError>
        ensures { OnOk result (bytes.new.items ≡ bytes.old.items ++ body self.now) }
    {
        bytes.push(self.task.kind)?;
        bytes.extend_from_slice(&self.task.number.to_le_bytes())?;
        bytes.extend_from_slice(&self.len.to_le_bytes())?;
        bytes.extend_from_slice(&self.rows.to_le_bytes())?;
        bytes.extend_from_slice(&[0; 11])?;
        Ok(())
    }
}

// The record that 32 bytes spell, if they are a body.
fn candidate(bytes: &[u8]) -> Record
    requires { 32 ≤ length bytes.now }
    ensures { result ≡ candidate bytes.now }
{
    let number = u32::from_le_bytes([bytes[1], bytes[2], bytes[3], bytes[4]]);
    let len = u64::from_le_bytes([
        bytes[5], bytes[6], bytes[7], bytes[8], bytes[9], bytes[10], bytes[11], bytes[12],
    ]);
    let rows = u64::from_le_bytes([
        bytes[13], bytes[14], bytes[15], bytes[16], bytes[17], bytes[18], bytes[19], bytes[20],
    ]);
    let kind = bytes[0];
    Record {
        task: Task { kind, number },
        len,
        rows,
    }
}

// What follows a record's 32 bytes at the front of others.
fn behind_bytes<'a>(bytes: &'a [u8], entry: &Record) -> Option<&'a [u8]>
    ensures { MatchOption result ((rest : List ℕ) → bytes.now ≢ body entry.now ++ rest) (λ rest. bytes.now ≡ body entry.now ++ rest.now) }
{
    let kind = behind(bytes, &[entry.task.kind])?;
    let number = behind(kind, &entry.task.number.to_le_bytes())?;
    let len = behind(number, &entry.len.to_le_bytes())?;
    let rows = behind(len, &entry.rows.to_le_bytes())?;
    behind(rows, &[0; 11])
}

/// The record whose body stands at the front of some bytes, and what follows it, at least a gate.
pub(crate) fn record_at(bytes: &[u8]) -> Option<(Record, &[u8])>
    ensures { MatchOption result (HasNoBody bytes.now) (λ read. BeginsByBody bytes.now read.0 read.1.now) }
{
    if bytes.len() <= BODY {
        return None;
    }
    let entry = candidate(bytes);
    if !entry.is_entry() {
        return None;
    }
    let after = behind_bytes(bytes, &entry)?;
    if after.is_empty() {
        return None;
    }
    Some((entry, after))
}
