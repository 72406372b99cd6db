//! Reads plain CSV text, as most is: bytes above the comma, commas and line feeds alone, and no blank line. It needs no
//! record of its own for each line. Any other text is left to the crate `csv`.
ghost use Rattle.std.specs.Prelude.{◌≡◌, ◌<◌, ◌≤◌, ◌-◌, [], IfSome, Some, drop, length, take};
ghost use Rattle.std.specs.List.{AllByRecursion};
ghost use Rattle.csv.specs.Machine.{next_record};
ghost use Rattle.csv.specs.Reading.{default_config};
ghost use Rattle.csv.specs.declared.parser.State.TheVariants as st;
ghost use Rattle.hx_rows.specs.Csv.{csv_rows, row_of_record};
ghost use Rattle.hx_rows.specs.Headers.{columns_in, fields_now};
ghost use Rattle.hx_rows.specs.Reading.{Reads};
ghost use Rattle.hx_rows.specs.Rows.{rows_from};
ghost use Rattle.hx_rows.specs.Unread.{unread_from};

use crate::digits::HIGH_BITS;
use crate::header::Header;
use crate::read::RowRefusal;
use crate::record::row_of_record;
use crate::rows::{push_row, refused};
use hx_base::Row;
use std::alloc::Global;

// The low seven bits of each byte, and what takes those of a byte above the comma up to the highest.
const LOW_BITS: u64 = 0x7F7F_7F7F_7F7F_7F7F;

const ABOVE_COMMA: u64 = 0x5353_5353_5353_5353;

// How many bytes above the comma stand at the front of eight.
#[inline(always)]
fn first_above(text: &[u8; 8]) -> usize
    ensures few { result ≤ 8 }
    ensures run { AllByRecursion (λ byte. 44 < byte) (take result text.now) }
{
    let word = u64::from_le_bytes(*text);
    let above = (word & LOW_BITS).wrapping_add(ABOVE_COMMA) | word;
    let ends = (above & HIGH_BITS) ^ HIGH_BITS;
    ends.trailing_zeros() as usize / 8
}

// Where the bytes above the comma end that stand from a place on.
#[inline(always)]
fn run_end(text: &[u8], from: usize) -> usize
    requires { from ≤ length text.now }
    ensures start { from ≤ result }
    ensures end { result ≤ length text.now }
    ensures run { AllByRecursion (λ byte. 44 < byte) (take (result - from) (drop from text.now)) }
{
    let mut end = from;
    'words: while let Some(front) = text[end..].first_chunk::<8>() {
        let above = first_above(front);
        end += above;
        if above < 8 {
            return end;
        }
    }
    'run: for i in end..text.len() {
        if text[i] <= b',' {
            return i;
        }
    }
    text.len()
}

// Reads the fields of a line, if it is plain, and says where the next one starts.
#[inline(always)]
fn take_line<'a>(text: &'a [u8], at: usize, fields: &mut Vec<&'a [u8]>) -> Option<usize>
    requires { at ≤ length text.now }
    ensures next { IfSome result (λ next. next ≤ length text.now) }
    ensures record { IfSome result (λ next. next_record default_config st.StartRecord [] [] (drop at text.now)
        ≡ Some (fields_now fields.new.items, st.StartRecord, drop next text.now)) }
{
    fields.clear();
    if at >= text.len() || text[at] == b'\n' || text[at] == b'\r' {
        return None;
    }
    let mut from = at;
    'fields: while from < text.len() {
        let end = run_end(text, from);
        let field = &text[from..end];
        let Ok(()) = fields.push(field) else {
            return None;
        };
        if end == text.len() {
            return Some(end);
        }
        match text[end] {
            b',' => from = end + 1,
            b'\n' => return Some(end + 1),
            _ => return None,
        }
    }
    None
}

// The rows of lines under a header, from a place on, if all of them are plain.
fn rows_under<'a>(
    alloc: Global,
    header: &Header,
    text: &'a [u8],
    start: usize,
    fields: &mut Vec<&'a [u8]>,
) -> Option<Result<Vec<Row>, RowRefusal>>
    requires { start ≤ length text.now }
    ensures { IfSome result (λ read. Reads read (rows_from (row_of_record (columns_in header.now) header.now.width) 1
        (unread_from st.StartRecord (Some (drop start text.now))))) }
{
    let mut rows = Vec::new(alloc);
    let mut at = start;
    for turn in 0..u64::MAX {
        if at == text.len() {
            return Some(Ok(rows));
        }
        let next = take_line(text, at, fields)?;
        if let Err(refusal) = push_row(&mut rows, turn + 1, row_of_record(header, fields)) {
            return Some(Err(refusal));
        }
        at = next;
    }
    None
}

/// The rows of a plain CSV text, or its first fault; None of any other text.
#[tactic(auto, unfolding(crate::specs::Csv::table_rows))]
pub(crate) fn plain_rows(alloc: Global, text: &[u8]) -> Option<Result<Vec<Row>, RowRefusal>>
    ensures { IfSome result (λ read. Reads read (csv_rows text.now)) }
{
    if text.is_empty() || text[0] == 0xEF {
        return None;
    }
    let mut fields = Vec::new(alloc);
    let start = take_line(text, 0, &mut fields)?;
    match Header::of(&fields) {
        Ok(header) => rows_under(alloc, &header, text, start, &mut fields),
        Err(fault) => Some(Err(refused(0, fault))),
    }
}
