ghost use Rattle.std.specs.Prelude.{◌≡◌, ◌+◌, ◌*◌, ◌≤◌, ◌++◌, ◌==◌, true, false, length, take, drop, OnOk};
ghost use Rattle.hx_pqread.specs.Numbers.{size, number, numbers_at};

use std::alloc::AllocError;

/// The bytes of a number: 8 where it is wide, else 4.
pub fn size(is_wide: bool) -> usize
    ensures { result ≡ size is_wide }
{
    if is_wide { 8 } else { 4 }
}

/// Whether `len` is `count` parts of `part` bytes.
pub fn is_multiple(len: usize, count: usize, part: usize) -> bool
    ensures { result ≡ (len == count * part) }
{
    count.checked_mul(part) == Some(len)
}

// The number at the front, and the bytes behind it.
#[inline]
#[tactic(auto, unfolding(crate::specs::Numbers::number))]
fn wide_number(bytes: &[u8]) -> (i64, &[u8])
    requires { 8 ≤ length bytes.now }
    ensures number { result.0 ≡ number true (take 8 bytes.now) }
    ensures rest { result.1.now ≡ drop 8 bytes.now }
    ensures left { length result.1.now + 8 ≡ length bytes.now }
{
    let (front, rest) = bytes.split_at(8);
    let number = i64::from_le_bytes([
        front[0], front[1], front[2], front[3], front[4], front[5], front[6], front[7],
    ]);
    (number, rest)
}

// The like for a number of four bytes.
#[inline]
#[tactic(auto, unfolding(crate::specs::Numbers::number))]
fn narrow_number(bytes: &[u8]) -> (i64, &[u8])
    requires { 4 ≤ length bytes.now }
    ensures number { result.0 ≡ number false (take 4 bytes.now) }
    ensures rest { result.1.now ≡ drop 4 bytes.now }
{
    let (front, rest) = bytes.split_at(4);
    let number = i32::from_le_bytes([front[0], front[1], front[2], front[3]]);
    (i64::from(number), rest)
}

// The first eight numbers of eight bytes each, and the bytes behind them.
#[inline]
#[tactic(auto, unfolding(crate::specs::Numbers::numbers_at))]
fn eight_numbers(bytes: &[u8]) -> ([i64; 8], &[u8])
    requires { 64 ≤ length bytes.now }
    ensures numbers { result.0 ≡ numbers_at true 8 bytes.now }
    ensures rest { result.1.now ≡ drop 64 bytes.now }
{
    let (_, rest) = bytes.split_at(64);
    let (a, left) = wide_number(bytes);
    let (b, left) = wide_number(left);
    let (c, left) = wide_number(left);
    let (d, left) = wide_number(left);
    let (e, left) = wide_number(left);
    let (f, left) = wide_number(left);
    let (g, left) = wide_number(left);
    let (h, _) = wide_number(left);
    ([a, b, c, d, e, f, g, h], rest)
}

// Adds the first `count` numbers of eight bytes each, one by one.
fn push_few(numbers: &mut Vec<i64>, count: usize, bytes: &[u8]) -> Result<(), AllocError>
    requires { count * 8 ≤ length bytes.now }
    ensures { OnOk result (numbers.new.items ≡ numbers.old.items ++ numbers_at true count bytes.now) }
{
    let mut left = bytes;
    for _ in 0..count {
        let (number, rest) = wide_number(left);
        numbers.push(number)?;
        left = rest;
    }
    Ok(())
}

// The like, eight at a time.
fn push_wide(numbers: &mut Vec<i64>, count: usize, bytes: &[u8]) -> Result<(), AllocError>
    requires { count * 8 ≤ length bytes.now }
    ensures { OnOk result (numbers.new.items ≡ numbers.old.items ++ numbers_at true count bytes.now) }
{
    let mut left = bytes;
    for _ in 0..count / 8 {
        let (eight, rest) = eight_numbers(left);
        numbers.extend_from_slice(&eight)?;
        left = rest;
    }
    push_few(numbers, count % 8, left)?;
    Ok(())
}

// Adds the first `count` numbers of four bytes each.
fn push_narrow(numbers: &mut Vec<i64>, count: usize, bytes: &[u8]) -> Result<(), AllocError>
    requires { count * 4 ≤ length bytes.now }
    ensures { OnOk result (numbers.new.items ≡ numbers.old.items ++ numbers_at false count bytes.now) }
{
    let mut left = bytes;
    for _ in 0..count {
        let (number, rest) = narrow_number(left);
        numbers.push(number)?;
        left = rest;
    }
    Ok(())
}

/// Adds the first `count` numbers.
pub fn push_numbers(
    numbers: &mut Vec<i64>,
    is_wide: bool,
    count: usize,
    bytes: &[u8],
) -> Result<(), AllocError>
    requires { count * size is_wide ≤ length bytes.now }
    ensures { OnOk result (numbers.new.items ≡ numbers.old.items ++ numbers_at is_wide count bytes.now) }
{
    numbers.reserve(count)?;
    if is_wide {
        push_wide(numbers, count, bytes)
    } else {
        push_narrow(numbers, count, bytes)
    }
}
