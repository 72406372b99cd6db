//! A task whose file is done.
ghost use Rattle.std.specs.Prelude.{◌≡◌, ◌++◌, ◌∷◌, [], OnOk};
ghost use Rattle.hx_outside.specs.Disk.{Passes};
ghost use Rattle.hx_outside.specs.Faults.{HasStoreCause};
ghost use Rattle.hx_publish.specs.Publishing.{HasInEach};
ghost use Rattle.hx_journal.specs.Journal.{IsEntry, IsReady};
ghost use Rattle.hx_journal.specs.Recording.{AreApart, Records};

use crate::{Journal, Record};
use hx_outside::{Store, StoreError};
use hx_publish::publish;

/// Gives a task's file its bytes, whole or not at all, by way of a temporary file, and then notes the task's record.
/// The three files have three names, and the record is as `Journal::note` asks. After an error the journal is spent, and
/// is to be opened again. `Failed` comes only where the store's count of faults rose.
///
/// Over a store that tells, and has the journal as this one was left: at each moment a crash leaves the records before,
/// or these and the new one, and the new one only beside the file with its bytes; no other file but the temporary one is
/// changed. After `Ok` each crash leaves both, and the store is as the next record asks.
pub fn record_task<S: Store>(
    journal: &mut Journal,
    store: &mut S,
    tmp: &str,
    name: &str,
    bytes: &[u8],
    entry: Record,
) -> Result<(), StoreError>
    requires apart { AreApart tmp.now name.now journal.old.file }
    requires entry { IsEntry entry }
    ensures passes { IsReady S.disk store.old journal.old → Passes S.disk store.old store.new (Records tmp.now name.now bytes.now journal.old entry) }
    ensures there { IsReady S.disk store.old journal.old → OnOk result (HasInEach S.disk store.new name.now bytes.now) }
    ensures done { IsReady S.disk store.old journal.old → OnOk result (IsReady S.disk store.new (record journal.old { records = journal.old.records ++ entry ∷ [] })) }
    ensures kept { OnOk result (journal.new ≡ record journal.old { records = journal.old.records ++ entry ∷ [] }) }
    ensures cause { HasStoreCause S.disk.faults store.old store.new result }
{
    publish(store, tmp, name, bytes)?;
    journal.note(store, entry)
}
