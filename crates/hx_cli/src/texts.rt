//! The texts of the refusals.
ghost use Rattle.std.specs.Prelude.{◌≡◌, ◌++◌, [], IfOk, OnOk, string_bytes};
ghost use Rattle.hx_cli.specs.Texts.{file_kind, file_number, refusal_text};

use hx_base::{JobFile, Refusal};
use std::alloc::{AllocError, Global};

// The place of a kind of file among the kinds, from 0.
fn kind_of(file: JobFile) -> u8
    ensures { result ≡ file_kind file }
{
    match file {
        JobFile::Journal => 0,
        JobFile::Map(_) => 1,
        JobFile::Plan => 2,
        JobFile::Split(_) => 3,
        JobFile::Part(_) => 4,
        JobFile::MarginSplit(_) => 5,
        JobFile::Margin(_) => 6,
        JobFile::List => 7,
        JobFile::MarginList => 8,
        JobFile::MarginProperties => 9,
        JobFile::Properties => 10,
    }
}

// The number of the file's input or partition, or 0.
fn number_of(file: JobFile) -> u32
    ensures { result ≡ file_number file }
{
    match file {
        JobFile::Map(number)
        | JobFile::Split(number)
        | JobFile::Part(number)
        | JobFile::MarginSplit(number)
        | JobFile::Margin(number) => number,
        _ => 0,
    }
}

// Writes a refusal's text behind another.
fn write_text(text: &mut String, refusal: Refusal) -> Result<(), AllocError>
    ensures { OnOk result (string_bytes text.new ≡ string_bytes text.old ++ refusal_text refusal) }
{
    match refusal {
        Refusal::Usage => write!(text, "usage"),
        Refusal::BadInput { input, row, why } => {
            write!(text, "bad input {input} row {row} why {why}")
        }
        Refusal::Overfull { pixel, count } => {
            write!(text, "overfull pixel {pixel} count {count}")
        }
        Refusal::TooNarrow { left, right, gap2 } => {
            write!(
                text,
                "margin too narrow left {left} right {right} gap2 {gap2}"
            )
        }
        Refusal::StoreFault => write!(text, "store fault"),
        Refusal::InputFault { input } => write!(text, "input fault {input}"),
        Refusal::SinkFault => write!(text, "output fault"),
        Refusal::Memory => write!(text, "out of memory"),
        Refusal::NoCatalogue { side } => write!(text, "no catalogue {side}"),
        Refusal::OtherJob { place, kept, asked } => {
            write!(text, "other job at {place} kept {kept} asked {asked}")
        }
        Refusal::Damaged { side, file, place } => {
            let kind = kind_of(file);
            let number = number_of(file);
            write!(text, "damaged {side} {kind} {number} at {place}")
        }
        Refusal::InputChanged {
            input,
            pixel,
            kept,
            found,
        } => {
            write!(
                text,
                "input {input} changed pixel {pixel} kept {kept} found {found}"
            )
        }
        Refusal::TooMany { what, found, limit } => {
            write!(text, "too many {what} found {found} limit {limit}")
        }
        Refusal::NameTaken => write!(text, "name taken"),
    }
}

/// The text of a refusal, without a newline.
pub fn text_of(alloc: Global, refusal: &Refusal) -> Result<Vec<u8>, AllocError>
    ensures { IfOk result (λ text. text.items ≡ refusal_text refusal.now) }
{
    let mut text = String::new(alloc);
    write_text(&mut text, *refusal)?;
    Ok(text.into_bytes())
}
