ghost use Rattle.std.specs.Prelude.{◌≡◌, ◌+◌, ◌-◌, ◌*◌, ◌<◌, ◌≤◌, ◌^◌, length, IfOk, IfSome, IsTrue};
ghost use Rattle.std.specs.Option.{option_map};
ghost use Rattle.hx_pqmeta.specs.Naturals.{natural};
ghost use Rattle.hx_pqmeta.specs.Refusals.{AnswersOrWants};
ghost use Rattle.hx_pqread.specs.Levels.{IsWithin};
ghost use Rattle.hx_pqread.specs.Bodies.{levels_len, optional_parts, body_parts, told_parts, body_values};
ghost use Rattle.hx_pqread.specs.Pages.{runs_checked, head_checked, are_sizes, body_at, page_behind, page_at, pages_at};
ghost use Rattle.hx_pqread.specs.Keeping.{KeepsBody, KeepsPage, KeepsPages};

use crate::kept::Kept;
use crate::layout::{Asked, Layout};
use crate::levels::{Told, equal, read_levels};
use crate::numbers::{is_multiple, size};
use hx_pqmeta::{
    DATA_PAGE, PLAIN_ENCODING, PageHead, PqRefusal, RLE_ENCODING, natural, read_page_header,
};
use std::alloc::AllocError;

// The length of the levels of a body.
fn levels_len(body: &[u8]) -> u32
    requires { 4 ≤ length body.now }
    ensures { result ≡ levels_len body.now }
{
    let (front, _) = body.split_at(4);
    u32::from_le_bytes([front[0], front[1], front[2], front[3]])
}

// What the levels say of the values of an OPTIONAL body, and the bytes of its numbers.
#[tactic(auto, unfolding(crate::specs::Bodies::optional_parts))]
fn optional_parts(count: usize, body: &[u8]) -> Option<(Told, &[u8])>
    requires { count < 2 ^ 31 }
    ensures within { IfSome result (λ parts. IsWithin parts.0 × (parts.0.count ≡ count)) }
    ensures value { option_map (λ parts. (parts.0, parts.1.now)) result ≡ told_parts (optional_parts count body.now) }
{
    if body.len() < 4 {
        return None;
    }
    let len = levels_len(body) as usize;
    let (_, rest) = body.split_at(4);
    if rest.len() < len {
        return None;
    }
    let (runs, _) = rest.split_at(len);
    let (_, numbers) = body.split_at(4 + len);
    let told = read_levels(runs, count)?;
    Some((told, numbers))
}

// The like for any body of so many values.
fn body_parts(is_optional: bool, count: usize, body: &[u8]) -> Option<(Told, &[u8])>
    requires { count < 2 ^ 31 }
    ensures within { IfSome result (λ parts. IsWithin parts.0 × (parts.0.count ≡ count)) }
    ensures value { option_map (λ parts. (parts.0, parts.1.now)) result ≡ told_parts (body_parts is_optional count body.now) }
{
    if is_optional {
        optional_parts(count, body)
    } else {
        Some((equal(1, count), body))
    }
}

// Keeps the values of a body of so many, and answers whether the body is as it has to be.
#[tactic(auto, unfolding(crate::specs::Bodies::body_values, crate::specs::Bodies::spread_at))]
fn keep_body(kept: &mut Kept, layout: Layout, count: usize, body: &[u8]) -> Result<bool, AllocError>
    requires small { count < 2 ^ 31 }
    requires few { kept.old.count + count < 2 ^ 64 }
    ensures { IfOk result (λ is_right. KeepsBody kept.old kept.new is_right (body_values layout count body.now)) }
{
    match body_parts(layout.is_optional, count, body) {
        None => Ok(false),
        Some((told, numbers)) => {
            if !is_multiple(numbers.len(), told.given, size(layout.is_wide)) {
                return Ok(false);
            }
            kept.keep(told, layout.is_wide, numbers)?;
            Ok(true)
        }
    }
}

// A head that is read further.
#[tactic(auto, unfolding(crate::specs::Pages::head_checked))]
fn head_checked(column: u32, layout: Layout, head: PageHead) -> Result<PageHead, PqRefusal>
    ensures same { IfOk result (λ checked. checked ≡ head) }
    ensures value { result ≡ head_checked column layout head }
{
    if head.kind != DATA_PAGE || head.encoding != PLAIN_ENCODING {
        return Err(PqRefusal::Encoding { column });
    }
    if layout.is_optional {
        runs_checked(column, head)
    } else {
        Ok(head)
    }
}

fn runs_checked(column: u32, head: PageHead) -> Result<PageHead, PqRefusal>
    ensures same { IfOk result (λ checked. checked ≡ head) }
    ensures value { result ≡ runs_checked column head }
{
    match head.levels {
        None => Err(PqRefusal::Missing { field: 703 }),
        Some(RLE_ENCODING) => Ok(head),
        Some(_) => Err(PqRefusal::Encoding { column }),
    }
}

// Whether a head's counts fit where `room` bytes stand behind it and `left` values are to come.
fn are_sizes(left: u64, room: u64, plain_size: i32, stored_size: i32, values: i32) -> bool
    ensures room { IsTrue result → natural stored_size ≤ room }
    ensures few { IsTrue result → natural values ≤ left }
    ensures value { result ≡ are_sizes left room plain_size stored_size values }
{
    0 <= plain_size
        && plain_size == stored_size
        && 0 <= values
        && stored_size as u64 <= room
        && values as u64 <= left
}

// A count or size of a page.
fn small(number: i32) -> usize
    ensures small { result < 2 ^ 31 }
    ensures value { result ≡ natural number }
{
    natural(i64::from(number)) as usize
}

// The body behind a head.
#[tactic(auto, unfolding(crate::specs::Pages::body_at))]
fn body_at<'a>(
    asked: Asked,
    left: u64,
    head: PageHead,
    file: &'a [u8],
) -> Result<&'a [u8], PqRefusal>
    requires { (head.next ≤ asked.end) × (asked.end ≤ length file.now) }
    ensures room { IfOk result (λ _. head.next + natural head.stored_size ≤ asked.end) }
    ensures few { IfOk result (λ _. natural head.values ≤ left) }
    ensures value { AnswersOrWants (λ body. body.now) result (body_at asked left head file.now) }
{
    if !are_sizes(
        left,
        asked.end - head.next,
        head.plain_size,
        head.stored_size,
        head.values,
    ) {
        return Err(PqRefusal::Bounds {
            column: asked.column,
        });
    }
    let (_, rest) = file.split_at(head.next as usize);
    let (body, _) = rest.split_at(small(head.stored_size));
    Ok(body)
}

// Keeps the values of the page with this head, and gives the place behind it.
#[tactic(auto, unfolding(crate::specs::Pages::page_behind))]
fn page_behind(
    kept: &mut Kept,
    asked: Asked,
    left: u64,
    head: PageHead,
    file: &[u8],
) -> Result<u64, PqRefusal>
    requires inside { (head.next ≤ asked.end) × (asked.end ≤ length file.now) }
    requires few { kept.old.count + left < 2 ^ 64 }
    ensures { KeepsPage kept.old kept.new result (page_behind asked left head file.now) }
{
    let head = head_checked(asked.column, asked.layout, head)?;
    let body = body_at(asked, left, head, file)?;
    if keep_body(kept, asked.layout, small(head.values), body)? {
        Ok(head.next + small(head.stored_size) as u64)
    } else {
        Err(PqRefusal::Bounds {
            column: asked.column,
        })
    }
}

// Keeps the values of the page at a place, and gives the place behind it.
#[tactic(auto, unfolding(crate::specs::Pages::page_at))]
fn page_at(
    kept: &mut Kept,
    asked: Asked,
    left: u64,
    place: u64,
    file: &[u8],
) -> Result<u64, PqRefusal>
    requires inside { asked.end ≤ length file.now }
    requires few { kept.old.count + left < 2 ^ 64 }
    ensures { KeepsPage kept.old kept.new result (page_at asked left place file.now) }
{
    if place < 4 || asked.end <= place {
        return Err(PqRefusal::Bounds {
            column: asked.column,
        });
    }
    let (_, rest) = file.split_at(place as usize);
    let (text, _) = rest.split_at((asked.end - place) as usize);
    let head = read_page_header(text, place)?;
    page_behind(kept, asked, left, head, file)
}

/// Keeps `count` values, from pages one after another, the first of which stands at `place`.
pub fn read_pages(
    kept: &mut Kept,
    asked: Asked,
    count: u64,
    place: u64,
    file: &[u8],
) -> Result<(), PqRefusal>
    requires inside { asked.end ≤ length file.now }
    requires few { kept.old.count + count < 2 ^ 64 }
    ensures { KeepsPages kept.old kept.new result (pages_at asked asked.end count place file.now) }
{
    let total = kept.count + count;
    let mut next = place;
    for _ in 0..asked.end {
        if kept.count == total {
            return Ok(());
        }
        let left = total - kept.count;
        next = page_at(kept, asked, left, next, file)?;
    }
    if kept.count == total {
        Ok(())
    } else {
        Err(PqRefusal::Bounds {
            column: asked.column,
        })
    }
}
