//! Reading a file, whole or a part of it.
ghost use Rattle.std.specs.Prelude.{◌≡◌, ◌+◌, ◌<◌, ◌^◌, IfOk, drop, length, option_map, take, vec_len};
ghost use Rattle.hx_outside.specs.Disk.{Passes};
ghost use Rattle.hx_outside.specs.Faults.{HasStoreCause};
ghost use Rattle.hx_outside.specs.Folders.{Same, contents};

use hx_outside::{Store, StoreError};
use std::alloc::{AllocError, Global};

fn zeros(alloc: Global, count: usize) -> Result<Vec<u8>, AllocError>
    ensures { IfOk result (λ v. vec_len v ≡ count) }
{
    vec![in alloc; 0u8; count]
}

// Reads a file from a place on into a buffer until it is full or no byte comes, and says how many came.
fn fill<S: Store>(store: &mut S, name: &str, from: u64, buf: &mut [u8]) -> Result<usize, StoreError>
    requires { from + length buf.old < 2 ^ 64 }
    ensures passes { S.disk.tells store.old → Passes S.disk store.old store.new Same }
    ensures gives { S.disk.tells store.old → IfOk result (λ count. take count buf.new ≡ take (length buf.old) (drop from (contents (S.disk.reads store.old name.now)))) }
    ensures cause { HasStoreCause S.disk.faults store.old store.new result }
{
    let mut at = 0;
    while at < buf.len() {
        let count = store.read(name, from + at as u64, &mut buf[at..])?;
        if count == 0 {
            break;
        }
        at += count;
    }
    Ok(at)
}

// So many bytes of a file from a place on, or as many as there are. The store reads straight into the room for them.
fn read_bytes<S: Store>(
    alloc: Global,
    store: &mut S,
    name: &str,
    from: u64,
    count: u64,
) -> Result<Vec<u8>, StoreError>
    requires { from + count < 2 ^ 64 }
    ensures passes { S.disk.tells store.old → Passes S.disk store.old store.new Same }
    ensures gives { S.disk.tells store.old → IfOk result (λ bytes. bytes.items ≡ take count (drop from (contents (S.disk.reads store.old name.now)))) }
    ensures cause { HasStoreCause S.disk.faults store.old store.new result }
{
    let mut bytes = zeros(alloc, count as usize)?;
    let came = fill(store, name, from, &mut bytes)?;
    bytes.truncate(came);
    Ok(bytes)
}

/// All bytes of a file, None where it is absent. Room for them is taken once, at the length that the store gives. No
/// file changes. `Failed` comes only where the store's count of faults rose.
pub fn read_file<S: Store>(
    alloc: Global,
    store: &mut S,
    name: &str,
) -> Result<Option<Vec<u8>>, StoreError>
    ensures passes { S.disk.tells store.old → Passes S.disk store.old store.new Same }
    ensures gives { S.disk.tells store.old → IfOk result (λ file. option_map (λ bytes. bytes.items) file ≡ S.disk.reads store.old name.now) }
    ensures cause { HasStoreCause S.disk.faults store.old store.new result }
{
    let Some(len) = store.len(name)? else {
        return Ok(None);
    };
    let bytes = read_bytes(alloc, store, name, 0, len)?;
    Ok(Some(bytes))
}

/// The bytes of a file from a place on, so many or as many as there are; none of an absent file. Room for them is taken
/// once, by the length that the store gives. No file changes. `Failed` comes only where the store's count of faults rose.
pub fn read_range<S: Store>(
    alloc: Global,
    store: &mut S,
    name: &str,
    from: u64,
    most: u64,
) -> Result<Vec<u8>, StoreError>
    ensures passes { S.disk.tells store.old → Passes S.disk store.old store.new Same }
    ensures gives { S.disk.tells store.old → IfOk result (λ bytes. bytes.items ≡ take most (drop from (contents (S.disk.reads store.old name.now)))) }
    ensures cause { HasStoreCause S.disk.faults store.old store.new result }
{
    let Some(len) = store.len(name)? else {
        return Ok(Vec::new(alloc));
    };
    if from >= len {
        return Ok(Vec::new(alloc));
    }
    read_bytes(alloc, store, name, from, most.min(len - from))
}
