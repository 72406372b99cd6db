//! Reading a header.
ghost use Rattle.std.specs.Prelude.{◌≡◌, ◌↔◌, IsTrue, MatchOption};
ghost use Rattle.std.specs.Str.{IsUtf8};
ghost use Rattle.hx_base.specs.FileWords.{IsFileWord};
ghost use Rattle.hx_base.specs.Limits.{FitsLimits};
ghost use Rattle.hx_base.specs.Names.{IsName};
ghost use Rattle.hx_journal.specs.Fronts.{Begins, BeginsByNone};
ghost use Rattle.hx_journal.specs.Headers.{BeginsByInputs, BeginsByTail, HasNoInputs, HasNoTail, IsListed, Listed, input_line, settings_of};
ghost use Rattle.hx_journal.specs.Journal.{BeginsByHeader, HasNoHeader};

use crate::fronts::{behind, number_line, number_until, until_newline, value_line};
use hx_base::{HIGHEST_MARGIN_ORDER, HIGHEST_ORDER, MOST_IN_PARTITION, is_file_word};

// The highest version that is read.
const HIGHEST_VERSION: u64 = 1;

fn is_word(value: &[u8]) -> bool
    ensures { IsTrue result ↔ (IsUtf8 value.now × IsFileWord value.now) }
{
    let Ok(text) = str::from_utf8(value) else {
        return false;
    };
    is_file_word(text)
}

fn is_name(value: &[u8]) -> bool
    ensures { IsTrue result ↔ IsName value.now }
{
    let Ok(text) = str::from_utf8(value) else {
        return false;
    };
    hx_base::is_name(text)
}

// What follows the line of an input.
fn behind_input(text: &[u8]) -> Option<&[u8]>
    ensures { MatchOption result (BeginsByNone IsListed input_line 10 text.now)
        (λ after. (input : Listed) × Begins IsListed input_line 10 text.now input after.now) }
{
    let rest = behind(text, b"input ")?;
    let (_len, value) = number_until(rest, b' ')?;
    let (word, after) = until_newline(value)?;
    if !is_word(word) {
        return None;
    }
    Some(after)
}

// What follows the lines of so many inputs.
fn behind_inputs(text: &[u8], count: u64) -> Option<&[u8]>
    ensures { MatchOption result (HasNoInputs count text.now) (λ after. BeginsByInputs count text.now after.now) }
{
    let mut rest = text;
    let mut left = count;
    while left > 0 {
        rest = behind_input(rest)?;
        left -= 1;
    }
    Some(rest)
}

// Whether settings of these numbers fit.
fn fit(lowest: u64, highest: u64, threshold: u64, margin_order: u64) -> bool
    ensures { IsTrue result ↔ FitsLimits (settings_of lowest highest threshold margin_order) }
{
    let orders = lowest <= highest && highest <= u64::from(HIGHEST_ORDER);
    let margin = highest < margin_order && margin_order <= u64::from(HIGHEST_MARGIN_ORDER);
    let threshold = 1 <= threshold && threshold <= MOST_IN_PARTITION;
    orders && margin && threshold
}

// What follows the lines behind the name.
fn behind_tail(text: &[u8]) -> Option<&[u8]>
    ensures { MatchOption result (HasNoTail text.now) (λ after. BeginsByTail text.now after.now) }
{
    let (lowest, rest) = number_line(text, b"lowest ")?;
    let (highest, rest) = number_line(rest, b"highest ")?;
    let (threshold, rest) = number_line(rest, b"threshold ")?;
    let (margin_order, rest) = number_line(rest, b"margin_order ")?;
    let (count, rest) = number_line(rest, b"inputs ")?;
    if !fit(lowest, highest, threshold, margin_order) {
        return None;
    }
    let end = behind_inputs(rest, count)?;
    behind(end, b"end\n")
}

/// What follows the header at the front of some bytes, if one stands there.
pub(crate) fn behind_header(bytes: &[u8]) -> Option<&[u8]>
    ensures { MatchOption result (HasNoHeader bytes.now) (λ after. BeginsByHeader bytes.now after.now) }
{
    let (version, rest) = number_line(bytes, b"hats-journal ")?;
    if version > HIGHEST_VERSION {
        return None;
    }
    let (name, rest) = value_line(rest, b"name ")?;
    if !is_name(name) {
        return None;
    }
    behind_tail(rest)
}
