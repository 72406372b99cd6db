ghost use Rattle.std.specs.Prelude.{◌≡◌, ◌≤◌, ◌^◌, Some, neg_ℤ, option_and_then, pos};
ghost use Rattle.hx_rows.specs.Csv.{fitting, natural_of, number_of, value_of};
ghost use Rattle.hx_rows.specs.Numbers.{signed};

use crate::digits::natural;

/// The magnitude of the least number that an i64 holds.
const MOST_NEGATIVE: u64 = 9_223_372_036_854_775_808;

// Whether a number has a `-` before its digits, and what stands behind the `-`.
#[inline]
fn sign_and_digits(text: &[u8]) -> (bool, &[u8])
    ensures { number_of text.now ≡ signed result.0 (natural_of result.1.now) }
{
    match text.split_first() {
        Some((first, digits)) if *first == b'-' => (true, digits),
        _ => (false, text),
    }
}

#[inline]
fn negated(magnitude: u64) -> i64
    requires { magnitude ≤ 2 ^ 63 }
    ensures { result ≡ neg_ℤ (pos magnitude) }
{
    0i64.wrapping_sub_unsigned(magnitude)
}

// The number of a magnitude, with a `-` before it or none, where an i64 holds it.
#[inline]
fn fitting(negative: bool, magnitude: u64) -> Option<i64>
    ensures { result ≡ option_and_then fitting (signed negative (Some magnitude)) }
{
    if negative {
        if magnitude > MOST_NEGATIVE {
            return None;
        }
        return Some(negated(magnitude));
    }
    if magnitude >= MOST_NEGATIVE {
        return None;
    }
    Some(magnitude as i64)
}

/// The value of a field: 1 to 19 digits, with a `-` before them or none. It is None where the field spells no number
/// that an i64 holds.
#[inline]
pub(crate) fn value_of(text: &[u8]) -> Option<i64>
    ensures { result ≡ value_of text.now }
{
    let (negative, digits) = sign_and_digits(text);
    let magnitude = natural(digits)?;
    fitting(negative, magnitude)
}
