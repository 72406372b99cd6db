//! Publishing a file.
ghost use Rattle.std.specs.Prelude.{◌≡◌, ◌≢◌, Some, OnOk};
ghost use Rattle.hx_outside.specs.Disk.{Passes, IsStable};
ghost use Rattle.hx_outside.specs.Faults.{HasStoreCause};
ghost use Rattle.hx_publish.specs.Publishing.{Publishes, HasInEach};

use hx_outside::{Store, StoreError};

/// Gives a file these bytes, whole or not at all, by way of a temporary file: that one is emptied, filled, synced and
/// renamed. At each moment a crash leaves the file as before or with all of the bytes, and no other file but the
/// temporary one is changed. After `Ok` each crash leaves the bytes. `Failed` comes only where the store's count of
/// faults rose, `Memory` only where the store wants memory.
pub fn publish<S: Store>(
    store: &mut S,
    tmp: &str,
    name: &str,
    bytes: &[u8],
) -> Result<(), StoreError>
    requires { tmp.now ≢ name.now }
    ensures passes { S.disk.tells store.old → Passes S.disk store.old store.new (Publishes tmp.now name.now bytes.now) }
    ensures done { S.disk.tells store.old → OnOk result (HasInEach S.disk store.new name.now bytes.now) }
    ensures reads { S.disk.tells store.old → OnOk result (S.disk.reads store.new name.now ≡ Some bytes.now) }
    ensures stable { S.disk.tells store.old → OnOk result (IsStable S.disk store.new name.now) }
    ensures cause { HasStoreCause S.disk.faults store.old store.new result }
{
    store.cut(tmp, 0)?;
    store.append(tmp, bytes)?;
    store.sync(tmp)?;
    store.rename(tmp, name)
}
