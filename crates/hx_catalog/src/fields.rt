//! Lines of a key and a value, read off the rest of a text.
ghost use Rattle.std.specs.Prelude.{◌≡◌, ◌<◌, ◌^◌, IfOk, MatchOption, MatchResult, Bool};
ghost use Rattle.std.specs.Fmt.{decimal};
ghost use Rattle.hx_base.specs.Names.{IsName};
ghost use Rattle.hx_catalog.specs.Fronts.{Begins, BeginsByNone, HasNoNewline, IsFrom, IsNoLine, ReadsLine};
ghost use Rattle.hx_catalog.specs.Lines.{field};
ghost use Rattle.hx_catalog.specs.Properties.{IsKind, kind_line};

use crate::fronts::{behind, behind_key, number_until};
use crate::refused::damaged;
use hx_base::{Name, SpillRefusal};
use std::alloc::{AllocError, Global};

// What stands before the first newline, and what follows it.
fn until_newline(text: &[u8]) -> Option<(&[u8], &[u8])>
    ensures { MatchOption result (BeginsByNone HasNoNewline (λ line. line) 10 text.now)
        (λ read. Begins HasNoNewline (λ line. line) 10 text.now read.0.now read.1.now) }
{
    for i in 0..text.len() {
        if text[i] == b'\n' {
            return Some((&text[..i], &text[i + 1..]));
        }
    }
    None
}

fn value_at<'a>(text: &'a [u8], key: &[u8]) -> Option<(&'a [u8], &'a [u8])>
    ensures { MatchOption result (BeginsByNone HasNoNewline (field key.now) 10 text.now)
        (λ read. Begins HasNoNewline (field key.now) 10 text.now read.0.now read.1.now) }
{
    let value = behind_key(text, key)?;
    until_newline(value)
}

/// The name that a value is, if it is one.
pub(crate) fn name_of(alloc: Global, value: &[u8]) -> Result<Option<Name>, AllocError>
    ensures { IfOk result (λ name. MatchOption name (IsName value.now → ⊥) (λ kept. (kept ≡ value.now) × IsName value.now)) }
{
    let Ok(text) = str::from_utf8(value) else {
        return Ok(None);
    };
    Name::new(alloc, text)
}

/// The value of a key's line, whatever it is.
pub(crate) fn value_line<'a>(
    text: &[u8],
    rest: &'a [u8],
    key: &[u8],
) -> Result<(&'a [u8], &'a [u8]), SpillRefusal>
    ensures { MatchResult result (λ read. Begins HasNoNewline (field key.now) 10 rest.now read.0.now read.1.now)
        (λ given. IsNoLine HasNoNewline (field key.now) text.now rest.now given) }
{
    value_at(rest, key).ok_or(damaged(text, rest))
}

fn kind_at(text: &[u8]) -> Option<(bool, &[u8])>
    ensures { MatchOption result (BeginsByNone IsKind kind_line 10 text.now)
        (λ read. Begins IsKind kind_line 10 text.now read.0 read.1.now) }
{
    if let Some(rest) = behind(text, b"kind=object\n") {
        return Some((false, rest));
    }
    let rest = behind(text, b"kind=margin\n")?;
    Some((true, rest))
}

/// Whether the line of the kind says that the catalogue is a margin catalogue.
pub(crate) fn kind_line<'a>(text: &[u8], rest: &'a [u8]) -> Result<(bool, &'a [u8]), SpillRefusal>
    ensures { ReadsLine IsKind kind_line text.now rest.now result }
{
    kind_at(rest).ok_or(damaged(text, rest))
}

fn number_at<'a>(text: &'a [u8], key: &[u8], least: u64, most: u64) -> Option<(u64, &'a [u8])>
    ensures { MatchOption result (BeginsByNone (IsFrom least most) (λ n. field key.now (decimal n)) 10 text.now)
        (λ read. Begins (IsFrom least most) (λ n. field key.now (decimal n)) 10 text.now read.0 read.1.now) }
{
    let value = behind_key(text, key)?;
    let (number, rest) = number_until(value, b'\n')?;
    if number < least || number > most {
        return None;
    }
    Some((number, rest))
}

/// The number of a key's line, where it lies in a range.
pub(crate) fn number_line<'a>(
    text: &[u8],
    rest: &'a [u8],
    key: &[u8],
    least: u64,
    most: u64,
) -> Result<(u64, &'a [u8]), SpillRefusal>
    ensures { ReadsLine (IsFrom least most) (λ n. field key.now (decimal n)) text.now rest.now result }
{
    number_at(rest, key, least, most).ok_or(damaged(text, rest))
}
