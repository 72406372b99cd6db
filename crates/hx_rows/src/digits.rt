ghost use Rattle.std.specs.Prelude.{if◌then◌else◌, ◌≡◌, ◌≤◌, ◌<◌, ◌+◌, ◌-◌, ◌^◌, IfSome, List, ℕ, length, map, true};
ghost use Rattle.std.specs.Char.{digit_value, is_ascii_digit};
ghost use Rattle.std.specs.List.{list_all};
ghost use Rattle.std.specs.Str.Parse.{digits_value};
ghost use Rattle.hx_rows.specs.Csv.{natural_of};
ghost use Rattle.hx_rows.specs.Numbers.{IsWordOf, number_after};

// The most digits of a number: any number of so many fits a u64.
const MOST_DIGITS: usize = 19;

// The code of `0`, and the same in each byte of a word.
const ZERO: u64 = 0x30;

const ZEROS: u64 = 0x3030_3030_3030_3030;

/// The highest bit of each byte, and what takes a byte from 10 on up to that bit.
pub(crate) const HIGH_BITS: u64 = 0x8080_8080_8080_8080;

const TO_HIGH_BITS: u64 = 0x7676_7676_7676_7676;

// The values of eight digits, in the places of their codes, or None where a byte is no digit.
#[inline]
fn digits_in(word: u64) -> Option<u64>
    ensures { IfSome result (λ digits. (bytes : List ℕ) → IsWordOf word bytes →
        (list_all is_ascii_digit bytes ≡ true) × IsWordOf digits (map digit_value bytes)) }
{
    let digits = word ^ ZEROS;
    if digits & HIGH_BITS != 0 {
        return None;
    }
    if digits.wrapping_add(TO_HIGH_BITS) & HIGH_BITS != 0 {
        return None;
    }
    Some(digits)
}

// The number that eight digits' values spell, the first in the lowest byte: it joins them to numbers of two
// digits in 16 bits, of four in 32, and of eight.
#[inline]
fn value_of(digits: u64) -> u64
    ensures { (bytes : List ℕ) → list_all is_ascii_digit bytes ≡ true → IsWordOf digits (map digit_value bytes) →
        result ≡ digits_value 10 bytes }
{
    let twos = digits.wrapping_mul(10).wrapping_add(digits >> 8) & 0x00FF_00FF_00FF_00FF;
    let fours = (twos.wrapping_mul(100 * 0x1_0000 + 1) >> 16) & 0x0000_FFFF_0000_FFFF;
    fours.wrapping_mul(10_000 * 0x1_0000_0000 + 1) >> 32
}

// The number of eight digits, which may be None where it could be told.
#[inline]
fn eight_digits(text: &[u8; 8]) -> Option<u64>
    ensures { IfSome result (λ number. (list_all is_ascii_digit text.now ≡ true) × (number ≡ digits_value 10 text.now)) }
{
    let digits = digits_in(u64::from_le_bytes(*text))?;
    Some(value_of(digits))
}

// Puts eight digits from the front of a text behind those of a value, where it can.
#[inline]
fn take_eight(value: u64, text: &[u8]) -> (u64, &[u8])
    requires short { length text.now ≤ 19 }
    requires room { value < 10 ^ (19 - length text.now) }
    ensures same { number_after result.0 result.1.now ≡ number_after value text.now }
    ensures short { length result.1.now ≤ 19 }
    ensures room { result.0 < 10 ^ (19 - length result.1.now) }
{
    let Some((front, rest)) = text.split_first_chunk::<8>() else {
        return (value, text);
    };
    let Some(number) = eight_digits(front) else {
        return (value, text);
    };
    (value * 100_000_000 + number, rest)
}

// The value of a digit.
#[inline]
fn digit(byte: u8) -> Option<u64>
    ensures { result ≡ (if is_ascii_digit byte then Some (digit_value byte) else None) }
{
    let value = u64::from(byte).wrapping_sub(ZERO);
    if value > 9 { None } else { Some(value) }
}

// The number of digits behind those of a value, if all of them are digits.
#[inline]
fn take_each(start: u64, text: &[u8]) -> Option<u64>
    requires short { length text.now ≤ 19 }
    requires room { start < 10 ^ (19 - length text.now) }
    ensures { result ≡ number_after start text.now }
{
    let mut value = start;
    for &byte in text {
        let Some(digit) = digit(byte) else {
            return None;
        };
        value = value * 10 + digit;
    }
    Some(value)
}

/// The number that 1 to 19 decimal digits spell.
#[inline]
pub(crate) fn natural(text: &[u8]) -> Option<u64>
    ensures { result ≡ natural_of text.now }
{
    if text.is_empty() || text.len() > MOST_DIGITS {
        return None;
    }
    let (value, rest) = take_eight(0, text);
    let (value, rest) = take_eight(value, rest);
    take_each(value, rest)
}
