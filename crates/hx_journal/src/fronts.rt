//! What stands at the front of a text.
ghost use Rattle.std.specs.Prelude.{◌≡◌, ◌≢◌, ◌↔◌, ◌<◌, ◌≤◌, ◌⊎◌, ◌*◌, ◌+◌, ◌^◌, ◌++◌, ℕ, List, IsTrue, MatchOption};
ghost use Rattle.std.specs.Char.{digit_value};
ghost use Rattle.std.specs.Fmt.{decimal};
ghost use Rattle.hx_journal.specs.Fronts.{Begins, BeginsByNone, FitsWord, HasNoLeadingZero, HasNoNewline};
ghost use Rattle.hx_journal.specs.Headers.{numbered};

/// What follows a front.
pub(crate) fn behind<'a>(text: &'a [u8], front: &[u8]) -> Option<&'a [u8]>
    ensures { MatchOption result ((rest : List ℕ) → text.now ≢ front.now ++ rest) (λ rest. text.now ≡ front.now ++ rest.now) }
{
    text.strip_prefix(front)
}

// A number with one more digit, if the byte is one and the number fits.
fn with_digit(number: u64, byte: u8) -> Option<u64>
    ensures { MatchOption result ((10 ≤ digit_value byte) ⊎ (2 ^ 64 ≤ number * 10 + digit_value byte))
        (λ more. (digit_value byte < 10) × (more ≡ number * 10 + digit_value byte) × (more < 2 ^ 64)) }
{
    let digit = byte.wrapping_sub(b'0');
    if digit > 9 {
        return None;
    }
    number.checked_mul(10)?.checked_add(u64::from(digit))
}

// Whether `0` stands first only alone.
fn has_no_leading_zero(digits: &[u8]) -> bool
    ensures { IsTrue result ↔ HasNoLeadingZero digits.now }
{
    match digits {
        [] => false,
        [b'0', rest @ ..] => rest.is_empty(),
        _ => true,
    }
}

/// The number at the front of a text, up to a byte that ends it, and what follows.
pub(crate) fn number_until(text: &[u8], end: u8) -> Option<(u64, &[u8])>
    requires { end < 48 }
    ensures { MatchOption result (BeginsByNone FitsWord decimal end text.now)
        (λ read. Begins FitsWord decimal end text.now read.0 read.1.now) }
{
    let mut number: u64 = 0;
    for i in 0..text.len() {
        if text[i] == end {
            if !has_no_leading_zero(&text[..i]) {
                return None;
            }
            return Some((number, &text[i + 1..]));
        }
        number = with_digit(number, text[i])?;
    }
    None
}

/// What stands before the first newline, and what follows it.
pub(crate) fn until_newline(text: &[u8]) -> Option<(&[u8], &[u8])>
    ensures { MatchOption result (BeginsByNone HasNoNewline (λ line. line) 10 text.now)
        (λ read. Begins HasNoNewline (λ line. line) 10 text.now read.0.now read.1.now) }
{
    for i in 0..text.len() {
        if text[i] == b'\n' {
            return Some((&text[..i], &text[i + 1..]));
        }
    }
    None
}

/// The value of a key's line, and what follows the line.
pub(crate) fn value_line<'a>(text: &'a [u8], key: &[u8]) -> Option<(&'a [u8], &'a [u8])>
    ensures { MatchOption result (BeginsByNone HasNoNewline (λ line. key.now ++ line) 10 text.now)
        (λ read. Begins HasNoNewline (λ line. key.now ++ line) 10 text.now read.0.now read.1.now) }
{
    let value = behind(text, key)?;
    until_newline(value)
}

/// The number of a key's line, and what follows the line.
pub(crate) fn number_line<'a>(text: &'a [u8], key: &[u8]) -> Option<(u64, &'a [u8])>
    ensures { MatchOption result (BeginsByNone FitsWord (numbered key.now) 10 text.now)
        (λ read. Begins FitsWord (numbered key.now) 10 text.now read.0 read.1.now) }
{
    let value = behind(text, key)?;
    number_until(value, b'\n')
}
