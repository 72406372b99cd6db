//! The lines of left rows and their matches.
ghost use Rattle.std.specs.Prelude.{◌≡◌, ◌++◌, ◌∷◌, ◌≤◌, [], All, IfOk, OnOk, length};
ghost use Rattle.std.specs.Fmt.{decimal};
ghost use Rattle.hx_base.specs.Rows.{IsGood};
ghost use Rattle.hx_kd.specs.Found.{HasChord, row_of};
ghost use Rattle.hx_xmatch.specs.MatchText.{found_text, key_text, match_line, match_lines, matched_rows};

use hx_base::Row;
use hx_kd::{Kd, Near};
use itoa::Buffer;
use std::alloc::AllocError;

// A number, and the byte that ends it.
fn push_number(text: &mut Vec<u8>, number: u64, end: u8) -> Result<(), AllocError>
    ensures { OnOk result (text.new.items ≡ text.old.items ++ decimal number ++ end ∷ []) }
{
    let mut buffer = Buffer::new();
    text.extend_from_slice(buffer.format(number).as_bytes())?;
    text.push(end)?;
    Ok(())
}

// A row's id and position, and the byte that ends them.
fn push_key(text: &mut Vec<u8>, row: &Row, end: u8) -> Result<(), AllocError>
    ensures { OnOk result (text.new.items ≡ text.old.items ++ key_text row.now ++ end ∷ []) }
{
    let mut buffer = Buffer::new();
    text.extend_from_slice(buffer.format(row.id).as_bytes())?;
    text.push(b',')?;
    push_number(text, row.hp, end)
}

// A match, or three empty fields, and the line's end.
fn push_found(text: &mut Vec<u8>, left: &Row, found: &Option<Near>) -> Result<(), AllocError>
    requires { HasChord left.now found.now }
    ensures { OnOk result (text.new.items ≡ text.old.items ++ found_text left.now (row_of found.now) ++ 10 ∷ []) }
{
    match found {
        None => {
            text.extend_from_slice(b",,\n")?;
            Ok(())
        }
        Some(near) => {
            push_key(text, &near.row, b',')?;
            push_number(text, near.chord2, b'\n')
        }
    }
}

fn push_line(text: &mut Vec<u8>, left: &Row, found: &Option<Near>) -> Result<(), AllocError>
    requires { HasChord left.now found.now }
    ensures { OnOk result (text.new.items ≡ text.old.items ++ match_line left.now (row_of found.now)) }
{
    push_key(text, left, b',')?;
    push_found(text, left, found)
}

// Adds the line of a row that is searched for in a tree, and says how many matches it has, one or none.
fn push_match(text: &mut Vec<u8>, left: &Row, tree: &Kd, r2: u64) -> Result<u64, AllocError>
    requires { IsGood left.now }
    ensures line { OnOk result (text.new.items ≡ text.old.items ++ match_lines r2 tree.now (left.now ∷ [])) }
    ensures matched { IfOk result (λ matched. matched ≡ matched_rows r2 tree.now (left.now ∷ [])) }
{
    let found = tree.nearest(left, r2);
    push_line(text, left, &found)?;
    match found {
        None => Ok(0),
        Some(_) => Ok(1),
    }
}

/// Adds the lines of rows that are searched for in a tree, and says how many have a match.
pub(crate) fn push_matches(
    text: &mut Vec<u8>,
    left: &[Row],
    tree: &Kd,
    r2: u64,
) -> Result<u64, AllocError>
    requires { All IsGood left.now }
    ensures lines { OnOk result (text.new.items ≡ text.old.items ++ match_lines r2 tree.now left.now) }
    ensures matched { IfOk result (λ matched. matched ≡ matched_rows r2 tree.now left.now) }
{
    let mut matched = 0;
    for row in left {
        matched += push_match(text, row, tree, r2)?;
    }
    Ok(matched)
}
