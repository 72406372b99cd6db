//! Numbers of the command line.
ghost use Rattle.std.specs.Prelude.{◌≡◌, ◌≢◌, ◌≤◌, ◌<◌, ◌*◌, ◌^◌, ℕ, MatchOption, IsTrue, ◌↔◌};
ghost use Rattle.std.specs.Fmt.{decimal};
ghost use Rattle.hx_words.specs.Words.{BeginsNumber, most_radius};

use hx_base::pixels_of_order;

// The order of positions is the highest.
const POSITIONS: u64 = 29;

// The chord of two opposite points, in 10^-9.
const MOST_RADIUS: u64 = 2_000_000_000;

// Whether a text may be a number by its first byte: `0` stands alone, and there is no sign.
fn begins_a_number(digits: &[u8]) -> bool
    ensures { IsTrue result ↔ BeginsNumber digits.now }
{
    match digits {
        [] => false,
        [b'0', rest @ ..] => rest.is_empty(),
        [first, ..] => *first != b'+',
    }
}

/// A number of the command line: decimal digits without a sign or a leading zero.
pub fn number(word: &str) -> Option<u64>
    ensures { MatchOption result ((n : ℕ) → n < 2 ^ 64 → word.now ≢ decimal n) (λ n. (n < 2 ^ 64) × (word.now ≡ decimal n)) }
{
    if !begins_a_number(word.as_bytes()) {
        return None;
    }
    word.parse::<u64>().ok()
}

/// An order of pixels.
pub fn order(word: &str) -> Option<u8>
    ensures { MatchOption result ((k : ℕ) → k ≤ 29 → word.now ≢ decimal k) (λ k. (k ≤ 29) × (word.now ≡ decimal k)) }
{
    let order = number(word)?;
    if order > POSITIONS {
        return None;
    }
    Some(order as u8)
}

/// A pixel of an order.
pub fn pixel(order: u8, word: &str) -> Option<u64>
    requires { order ≤ 29 }
    ensures { MatchOption result ((p : ℕ) → p < 12 * 4 ^ order → word.now ≢ decimal p)
        (λ p. (p < 12 * 4 ^ order) × (word.now ≡ decimal p)) }
{
    let pixel = number(word)?;
    if pixel >= pixels_of_order(order) {
        return None;
    }
    Some(pixel)
}

/// A chord within which rows are looked for, in 10^-9.
pub fn radius(word: &str) -> Option<u64>
    ensures { MatchOption result ((n : ℕ) → n ≤ most_radius → word.now ≢ decimal n) (λ n. (n ≤ most_radius) × (word.now ≡ decimal n)) }
{
    let radius = number(word)?;
    if radius > MOST_RADIUS {
        return None;
    }
    Some(radius)
}
