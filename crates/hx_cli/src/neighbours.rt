//! The text of the pixels round a pixel.
ghost use Rattle.std.specs.Prelude.{◌≡◌, ◌*◌, ◌^◌, ◌<◌, ◌≤◌, ◌++◌, ◌∷◌, [], IfOk, OnOk};
ghost use Rattle.std.specs.Fmt.{decimal};
ghost use Rattle.hx_cli.specs.Neighbours.{IsAroundText, spaced, with_blank};

use hx_nest::{Around, neighbours};
use itoa::Buffer;
use std::alloc::{AllocError, Global};

// Eight numbers of at most 20 digits, each with a blank or the newline.
const LONGEST_LINE: usize = 168;

fn push_blank(text: &mut Vec<u8>) -> Result<(), AllocError>
    ensures { OnOk result (text.new.items ≡ with_blank text.old.items) }
{
    if text.is_empty() {
        return Ok(());
    }
    text.push(b' ')?;
    Ok(())
}

// A number behind those that are there.
fn push_number(text: &mut Vec<u8>, number: u64) -> Result<(), AllocError>
    ensures { OnOk result (text.new.items ≡ with_blank text.old.items ++ decimal number) }
{
    push_blank(text)?;
    let mut buffer = Buffer::new();
    text.extend_from_slice(buffer.format(number).as_bytes())?;
    Ok(())
}

// The numbers of pixels, with a blank between.
fn spaced_numbers(alloc: Global, around: &Around) -> Result<Vec<u8>, AllocError>
    ensures { IfOk result (λ text. text.items ≡ spaced around.now) }
{
    let mut text = Vec::with_capacity(alloc, LONGEST_LINE)?;
    for i in 0..around.count() {
        push_number(&mut text, around.get(i))?;
    }
    Ok(text)
}

/// The line of the pixels that touch one, ascending.
pub fn line_around(alloc: Global, order: u8, pixel: u64) -> Result<Vec<u8>, AllocError>
    requires order { order ≤ 29 }
    requires pixel { pixel < 12 * 4 ^ order }
    ensures { IfOk result (λ text. IsAroundText order pixel text.items) }
{
    let around = neighbours(order, pixel);
    let mut text = spaced_numbers(alloc, &around)?;
    text.push(b'\n')?;
    Ok(text)
}
