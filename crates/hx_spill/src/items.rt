//! The items of a file, of which each has its place, in bytes.
ghost use Rattle.std.specs.Prelude.{◌≡◌, ◌+◌, ◌≤◌, ◌++◌, ◌∷◌, [], drop, length, OnOk};
ghost use Rattle.byteorder.specs.Endian.{little_number};
ghost use Rattle.hx_spill.specs.Items.{ended, kept, mark, whole};

use byteorder::{ByteOrder, LittleEndian};
use hx_base::SpillRefusal;
use std::alloc::AllocError;

/// A value that keeps its rule, or the damage at its place.
#[inline]
pub fn kept<T: Copy>(keeps: bool, value: T, at: usize) -> Result<T, SpillRefusal>
    ensures { result ≡ kept keeps value at }
{
    if keeps {
        Ok(value)
    } else {
        Err(SpillRefusal::Damaged { place: at as u64 })
    }
}

/// The bytes from a place on.
#[inline]
pub fn from_place(bytes: &[u8], at: usize) -> &[u8]
    requires { at ≤ length bytes.now }
    ensures { result.now ≡ drop at bytes.now }
{
    &bytes[at..]
}

/// The number of four bytes at a place, the lowest first.
#[inline]
pub fn u32_at(bytes: &[u8], at: usize) -> Result<u32, SpillRefusal>
    requires { at ≤ length bytes.now }
    ensures value { result ≡ whole 4 (little_number 4) at bytes.now }
    ensures there { OnOk result (at + 4 ≤ length bytes.now) }
{
    if bytes.len() - at < 4 {
        return Err(SpillRefusal::Damaged { place: at as u64 });
    }
    Ok(LittleEndian::read_u32(from_place(bytes, at)))
}

/// The number of eight bytes at a place, the lowest first.
#[inline]
pub fn u64_at(bytes: &[u8], at: usize) -> Result<u64, SpillRefusal>
    requires { at ≤ length bytes.now }
    ensures value { result ≡ whole 8 (little_number 8) at bytes.now }
    ensures there { OnOk result (at + 8 ≤ length bytes.now) }
{
    if bytes.len() - at < 8 {
        return Err(SpillRefusal::Damaged { place: at as u64 });
    }
    Ok(LittleEndian::read_u64(from_place(bytes, at)))
}

/// The four bytes by which a format is known, as a number.
pub fn mark(word: &[u8; 4], bytes: &[u8]) -> Result<u32, SpillRefusal>
    ensures value { result ≡ mark word.now bytes.now }
    ensures there { OnOk result (4 ≤ length bytes.now) }
{
    let found = u32_at(bytes, 0)?;
    let wanted = LittleEndian::read_u32(word);
    kept(found == wanted, found, 0)
}

/// Whether the bytes end at a place.
pub fn ended(bytes: &[u8], at: u64) -> Result<(), SpillRefusal>
    ensures { result ≡ ended at bytes.now }
{
    if bytes.len() as u64 <= at {
        Ok(())
    } else {
        Err(SpillRefusal::Damaged { place: at })
    }
}

/// Puts what was read behind what was read before.
#[inline]
pub fn push<T: Copy>(list: &mut Vec<T>, value: T) -> Result<(), AllocError>
    ensures { OnOk result (list.new.items ≡ list.old.items ++ value ∷ []) }
{
    list.push(value)?;
    Ok(())
}
