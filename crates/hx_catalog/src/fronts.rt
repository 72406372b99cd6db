//! What stands at the front of a text.
ghost use Rattle.std.specs.Prelude.{◌≡◌, ◌≢◌, ◌↔◌, ◌<◌, ◌≤◌, ◌⊎◌, ◌*◌, ◌+◌, ◌^◌, ◌++◌, ◌∷◌, ℕ, List, IsTrue, MatchOption, length};
ghost use Rattle.std.specs.Char.{digit_value};
ghost use Rattle.std.specs.Fmt.{decimal};
ghost use Rattle.hx_catalog.specs.Fronts.{Begins, BeginsByNone, FitsWord, HasNoLeadingZero};
ghost use Rattle.hx_catalog.specs.Lines.{field};

/// What follows a front.
pub(crate) fn behind<'a>(text: &'a [u8], front: &[u8]) -> Option<&'a [u8]>
    ensures { MatchOption result ((rest : List ℕ) → text.now ≢ front.now ++ rest) (λ rest. text.now ≡ front.now ++ rest.now) }
{
    text.strip_prefix(front)
}

/// What follows a key and its `=`.
pub(crate) fn behind_key<'a>(text: &'a [u8], key: &[u8]) -> Option<&'a [u8]>
    ensures { MatchOption result ((rest : List ℕ) → text.now ≢ field key.now rest) (λ rest. text.now ≡ field key.now rest.now) }
{
    let rest = behind(text, key)?;
    behind(rest, b"=")
}

// A number with one more digit, if the byte is one and the number fits.
fn with_digit(number: u64, byte: u8) -> Option<u64>
    ensures { MatchOption result ((10 ≤ digit_value byte) ⊎ (2 ^ 64 ≤ number * 10 + digit_value byte))
        (λ more. (digit_value byte < 10) × (more ≡ number * 10 + digit_value byte) × (more < 2 ^ 64)) }
{
    let digit = byte.wrapping_sub(b'0');
    if digit > 9 {
        return None;
    }
    number.checked_mul(10)?.checked_add(u64::from(digit))
}

// Whether `0` stands first only alone.
fn has_no_leading_zero(digits: &[u8]) -> bool
    ensures { IsTrue result ↔ HasNoLeadingZero digits.now }
{
    match digits {
        [] => false,
        [b'0', rest @ ..] => rest.is_empty(),
        _ => true,
    }
}

/// The number at the front of a text, up to a byte that ends it, and what follows.
pub(crate) fn number_until(text: &[u8], end: u8) -> Option<(u64, &[u8])>
    requires { end < 48 }
    ensures { MatchOption result (BeginsByNone FitsWord decimal end text.now)
        (λ read. Begins FitsWord decimal end text.now read.0 read.1.now) }
{
    let mut number: u64 = 0;
    for i in 0..text.len() {
        if text[i] == end {
            if !has_no_leading_zero(&text[..i]) {
                return None;
            }
            return Some((number, &text[i + 1..]));
        }
        number = with_digit(number, text[i])?;
    }
    None
}
