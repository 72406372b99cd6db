//! Numbers as a file has them, the lowest byte first.
ghost use Rattle.std.specs.Prelude.{◌≡◌, ◌++◌, OnOk};
ghost use Rattle.byteorder.specs.Endian.{little_bytes};

use std::alloc::AllocError;

#[inline]
pub fn push_u32(bytes: &mut Vec<u8>, n: u32) -> Result<(), AllocError>
    ensures { OnOk result (bytes.new.items ≡ bytes.old.items ++ little_bytes 4 n) }
{
    bytes.extend_from_slice(&n.to_le_bytes())
}

#[inline]
pub fn push_u64(bytes: &mut Vec<u8>, n: u64) -> Result<(), AllocError>
    ensures { OnOk result (bytes.new.items ≡ bytes.old.items ++ little_bytes 8 n) }
{
    bytes.extend_from_slice(&n.to_le_bytes())
}
