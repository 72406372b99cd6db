//! The list of a catalogue's partitions, `partition_info.csv`: a line `Norder,Npix`, and for each partition the order
//! and the number of its pixel.
ghost use Rattle.std.specs.Prelude.{◌≡◌, ◌↔◌, ◌≤◌, ◌++◌, ◌∷◌, [], ℕ, List, All, IfErr, IfOk, IsTrue, MatchOption, OnOk, length};
ghost use Rattle.hx_base.specs.Limits.{highest_order, most_partitions};
ghost use Rattle.hx_base.specs.Pixels.{IsPixel, end_position, first_position};
ghost use Rattle.hx_base.specs.declared.pixel.Pixel.{Pixel};
ghost use Rattle.hx_catalog.specs.Fronts.{Begins, BeginsByNone};
ghost use Rattle.hx_catalog.specs.Lines.{IsFirstBroken, IsRefusedFor, OnlyDamagedAt, OnlyRead};
ghost use Rattle.hx_catalog.specs.Lists.{AreListLines, IsList, IsPixelOfLine, MayFollow, header, list_text, pixel_line};

use crate::fronts::{behind, number_until};
use crate::refused::damaged;
use crate::writing::push_number;
use hx_base::{HIGHEST_ORDER, MOST_PARTITIONS, Pixel, SpillRefusal};
use std::alloc::{AllocError, Global};

// The bytes of the shortest line, and of one of a usual length.
const SHORTEST_LINE: usize = 4;

const USUAL_LINE: usize = 10;

fn push_line(text: &mut Vec<u8>, pixel: Pixel) -> Result<(), AllocError>
    ensures { OnOk result (text.new.items ≡ text.old.items ++ pixel_line pixel ++ 10 ∷ []) }
{
    push_number(text, u64::from(pixel.order), b',')?;
    push_number(text, pixel.number, b'\n')
}

/// The text of the list of partitions.
pub fn list_text(alloc: Global, parts: &[Pixel]) -> Result<Vec<u8>, AllocError>
    ensures { IfOk result (λ text. text.items ≡ list_text parts.now) }
{
    let mut text = Vec::with_capacity(alloc, parts.len().saturating_mul(USUAL_LINE))?;
    text.extend_from_slice(b"Norder,Npix\n")?;
    for pixel in parts {
        push_line(&mut text, *pixel)?;
    }
    Ok(text)
}

// The pixel of the line at the front of a text, of whatever number, and what follows the line.
fn pixel_at(text: &[u8]) -> Option<(Pixel, &[u8])>
    ensures { MatchOption result (BeginsByNone IsPixelOfLine pixel_line 10 text.now)
        (λ read. Begins IsPixelOfLine pixel_line 10 text.now read.0 read.1.now) }
{
    let (order, rest) = number_until(text, b',')?;
    if order > u64::from(HIGHEST_ORDER) {
        return None;
    }
    let (number, rest) = number_until(rest, b'\n')?;
    let order = order as u8;
    Some((Pixel { order, number }, rest))
}

// Whether all pixels of a list end before another begins.
fn end_before(pixels: &[Pixel], pixel: &Pixel) -> bool
    requires list { IsList pixels.now }
    requires exists { IsPixel pixel.now }
    ensures { IsTrue result ↔ All (λ earlier. end_position earlier ≤ first_position pixel.now) pixels.now }
{
    match pixels.last() {
        Some(last) => last.end_position() <= pixel.first_position(),
        None => true,
    }
}

// Whether a pixel may be a partition's.
fn may_be_listed(pixel: &Pixel) -> bool
    ensures { IsTrue result ↔ ((pixel.now.order ≤ highest_order) × IsPixel pixel.now) }
{
    pixel.order <= HIGHEST_ORDER && pixel.exists()
}

// Whether a list has as many partitions as a catalogue may have.
fn is_full(pixels: &[Pixel]) -> bool
    ensures { IsTrue result ↔ (most_partitions ≤ length pixels.now) }
{
    pixels.len() >= MOST_PARTITIONS
}

// Whether a list of partitions can go on with a pixel.
fn may_follow(pixels: &[Pixel], pixel: &Pixel) -> bool
    requires { IsList pixels.now }
    ensures { IsTrue result ↔ MayFollow pixels.now pixel.now }
{
    if is_full(pixels) {
        return false;
    }
    may_be_listed(pixel) && end_before(pixels, pixel)
}

// The pixel of the line at the front of a text with which a list goes on, and what follows the line.
fn next_pixel<'a>(pixels: &[Pixel], text: &'a [u8]) -> Option<(Pixel, &'a [u8])>
    requires { IsList pixels.now }
    ensures { MatchOption result (BeginsByNone (MayFollow pixels.now) pixel_line 10 text.now)
        (λ read. Begins (MayFollow pixels.now) pixel_line 10 text.now read.0 read.1.now) }
{
    let (pixel, rest) = pixel_at(text)?;
    if !may_follow(pixels, &pixel) {
        return None;
    }
    Some((pixel, rest))
}

fn push_pixel(pixels: &mut Vec<Pixel>, pixel: Pixel) -> Result<(), AllocError>
    ensures { OnOk result (pixels.new.items ≡ pixels.old.items ++ pixel ∷ []) }
{
    pixels.push(pixel)?;
    Ok(())
}

// The pixels of a text that is a list of partitions, or the first line that breaks a rule.
fn pixels_of(alloc: Global, bytes: &[u8]) -> Result<Vec<Pixel>, SpillRefusal>
    ensures read { IfOk result (λ pixels. IsList pixels.items × (bytes.now ≡ list_text pixels.items)) }
    ensures refused { IfErr result (IsRefusedFor AreListLines bytes.now) }
{
    let Some(mut rest) = behind(bytes, b"Norder,Npix\n") else {
        return Err(SpillRefusal::Damaged { place: 0 });
    };
    let room = (rest.len() / SHORTEST_LINE).min(MOST_PARTITIONS);
    let mut pixels = Vec::with_capacity(alloc, room)?;
    while !rest.is_empty() {
        let Some((pixel, behind)) = next_pixel(&pixels, rest) else {
            return Err(damaged(bytes, rest));
        };
        push_pixel(&mut pixels, pixel)?;
        rest = behind;
    }
    Ok(pixels)
}

/// The pixels of a text that is a list of partitions: at most 100000, of orders up to 20, disjoint and by their first
/// positions. Else it is `Damaged` at the first line that breaks a rule, by the place of its first byte.
pub fn read_list(alloc: Global, bytes: &[u8]) -> Result<Vec<Pixel>, SpillRefusal>
    ensures read { IfOk result (λ pixels. IsList pixels.items × (bytes.now ≡ list_text pixels.items)) }
    ensures refused { IfErr result (IsRefusedFor AreListLines bytes.now) }
    ensures only_read { (pixels : List Pixel) → IsList pixels → bytes.now ≡ list_text pixels → OnlyRead (λ read. read.items ≡ pixels) result }
    ensures only_damaged { (place : ℕ) → IsFirstBroken AreListLines bytes.now place → OnlyDamagedAt place result }
{
    pixels_of(alloc, bytes)
}
