ghost use Rattle.std.specs.Prelude.{◌≡◌, ◌<◌, ◌^◌, ℤ, slice_get, IfOk};
ghost use Rattle.hx_pqmeta.specs.Refusals.{AnswersOrWants, each};
ghost use Rattle.hx_pqmeta.specs.Footers.{is_above_zero, rows_of};
ghost use Rattle.hx_pqread.specs.Columns.{span_with, chunk_span, group_span, values_of};

use hx_pqmeta::{Chunk, Group, PqRefusal, UNCOMPRESSED, natural, needed};
use std::alloc::Global;

/// Where the values of a chunk stand.
#[derive(Clone, Copy, Debug, PartialEq, Eq)]
pub struct Span {
    /// The place of the first page.
    pub place: u64,
    /// How many values, with those that are absent.
    pub count: u64,
}

fn is_above_zero(number: Option<i64>) -> bool
    ensures { result ≡ is_above_zero number }
{
    match number {
        None => false,
        Some(number) => 0 < number,
    }
}

// The span of a chunk whose meta data has these fields.
fn span_with(
    column: u32,
    rows: i64,
    codec: i32,
    values: i64,
    data_page: i64,
    dictionary_page: Option<i64>,
) -> Result<Span, PqRefusal>
    ensures { result ≡ span_with column rows codec values data_page dictionary_page }
{
    if codec != UNCOMPRESSED {
        return Err(PqRefusal::Codec { column });
    }
    if is_above_zero(dictionary_page) {
        return Err(PqRefusal::Encoding { column });
    }
    if values != rows {
        return Err(PqRefusal::Bounds { column });
    }
    Ok(Span {
        place: natural(data_page),
        count: natural(values),
    })
}

// The span of a chunk of a row group with so many rows.
#[tactic(auto, unfolding(crate::specs::Columns::chunk_span))]
fn chunk_span(column: u32, rows: i64, chunk: &Chunk) -> Result<Span, PqRefusal>
    ensures { result ≡ chunk_span column rows chunk.now }
{
    if chunk.has_path {
        return Err(PqRefusal::Bounds { column });
    }
    if !chunk.has_meta {
        return Err(PqRefusal::Missing { field: 403 });
    }
    let codec = needed(chunk.codec, 504)?;
    let values = needed(chunk.values, 505)?;
    let data_page = needed(chunk.data_page, 509)?;
    span_with(
        column,
        rows,
        codec,
        values,
        data_page,
        chunk.dictionary_page,
    )
}

// The span of the chunk of the leaf at a place.
#[tactic(auto, unfolding(crate::specs::Columns::group_span))]
fn group_span(column: u32, place: usize, group: &Group) -> Result<Span, PqRefusal>
    ensures { result ≡ group_span column place group.now }
{
    match group.chunks().get(place) {
        None => Err(PqRefusal::Bounds { column }),
        Some(chunk) => chunk_span(column, group.rows(), chunk),
    }
}

/// The spans of the chunks of the leaf at a place, in each row group.
pub fn spans_of(
    alloc: Global,
    column: u32,
    place: usize,
    groups: &[Group],
) -> Result<Vec<Span>, PqRefusal>
    ensures rows { IfOk result (λ spans. values_of spans.items ≡ rows_of groups.now) }
    ensures value { AnswersOrWants (λ spans. spans.items) result (each (group_span column place) groups.now) }
{
    let mut spans = Vec::new(alloc);
    for group in groups {
        let span = group_span(column, place, group)?;
        spans.push(span)?;
    }
    Ok(spans)
}
