//! The text of a header.
ghost use Rattle.std.specs.Prelude.{◌≡◌, ◌++◌, ◌∷◌, [], IfOk, OnOk, codes, length, map};
ghost use Rattle.std.specs.Fmt.{decimal};
ghost use Rattle.std.specs.Str.{IsUtf8};
ghost use Rattle.hx_base.specs.Limits.{FitsLimits};
ghost use Rattle.hx_base.specs.Names.{IsName};
ghost use Rattle.hx_journal.specs.Headers.{AreListed, IsHeader, IsHeading, head_lines, header_of, heading_of, input_line, listed, text_of, written_version};

use hx_base::{FileWord, Settings};
use itoa::Buffer;
use std::alloc::{AllocError, Global};

// The version of the format that is written.
const VERSION: u64 = 1;

// The bytes of the lines but those of the inputs, and of an input's line, of a usual length.
const USUAL_HEAD: usize = 160;

const USUAL_LINE: usize = 40;

fn push_number_line(text: &mut Vec<u8>, key: &[u8], number: u64) -> Result<(), AllocError>
    ensures { OnOk result (text.new.items ≡ text.old.items ++ (key.now ++ decimal number) ++ 10 ∷ []) }
{
    let mut buffer = Buffer::new();
    text.extend_from_slice(key)?;
    text.extend_from_slice(buffer.format(number).as_bytes())?;
    text.push(b'\n')?;
    Ok(())
}

fn push_name_line(text: &mut Vec<u8>, name: &str) -> Result<(), AllocError>
    ensures { OnOk result (text.new.items ≡ text.old.items ++ (codes "name " ++ name.now) ++ 10 ∷ []) }
{
    text.extend_from_slice(b"name ")?;
    text.extend_from_slice(name.as_bytes())?;
    text.push(b'\n')?;
    Ok(())
}

fn push_input_line(text: &mut Vec<u8>, len: u64, word: &str) -> Result<(), AllocError>
    ensures line { OnOk result (text.new.items ≡ text.old.items ++ input_line (record { len = len; word = word.now }) ++ 10 ∷ []) }
    ensures utf8 { OnOk result (IsUtf8 word.now) }
{
    let mut buffer = Buffer::new();
    text.extend_from_slice(b"input ")?;
    text.extend_from_slice(buffer.format(len).as_bytes())?;
    text.push(b' ')?;
    text.extend_from_slice(word.as_bytes())?;
    text.push(b'\n')?;
    Ok(())
}

// The lines of the settings and of the number of inputs, with room for so many bytes.
fn head_text(
    alloc: Global,
    settings: &Settings,
    count: u64,
    room: usize,
) -> Result<Vec<u8>, AllocError>
    ensures lines { IfOk result (λ text. text.items ≡ text_of (head_lines written_version settings.now count)) }
    ensures name { IfOk result (λ _. IsName settings.now.name) }
{
    let mut text = Vec::with_capacity(alloc, room)?;
    push_number_line(&mut text, b"hats-journal ", VERSION)?;
    push_name_line(&mut text, settings.name.as_str())?;
    push_number_line(&mut text, b"lowest ", u64::from(settings.lowest))?;
    push_number_line(&mut text, b"highest ", u64::from(settings.highest))?;
    push_number_line(&mut text, b"threshold ", settings.threshold)?;
    push_number_line(
        &mut text,
        b"margin_order ",
        u64::from(settings.margin_order),
    )?;
    push_number_line(&mut text, b"inputs ", count)?;
    Ok(text)
}

fn push_input_lines(text: &mut Vec<u8>, words: &[FileWord], lens: &[u64]) -> Result<(), AllocError>
    requires { length words.now ≡ length lens.now }
    ensures lines { OnOk result (text.new.items ≡ text.old.items ++ text_of (map input_line (listed lens.now words.now))) }
    ensures inputs { OnOk result (AreListed (listed lens.now words.now)) }
{
    for i in 0..lens.len() {
        push_input_line(text, lens[i], words[i].as_str())?;
    }
    Ok(())
}

/// The header of an import's journal: its settings, and its inputs by their file words and their lengths in bytes. Two
/// jobs have one header exactly where these are the same. Where the settings fit it is a header that `open` reads.
pub fn header_text(
    alloc: Global,
    settings: &Settings,
    words: &[FileWord],
    lens: &[u64],
) -> Result<Vec<u8>, AllocError>
    requires { length words.now ≡ length lens.now }
    ensures text { IfOk result (λ text. text.items ≡ header_of (heading_of settings.now lens.now words.now)) }
    ensures heading { FitsLimits settings.now → IfOk result (λ text. IsHeading (heading_of settings.now lens.now words.now) × IsHeader text.items) }
{
    let room = lens
        .len()
        .saturating_mul(USUAL_LINE)
        .saturating_add(USUAL_HEAD);
    let mut text = head_text(alloc, settings, lens.len() as u64, room)?;
    push_input_lines(&mut text, words, lens)?;
    text.extend_from_slice(b"end\n")?;
    Ok(text)
}
