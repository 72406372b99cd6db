//! Parquet files made for tests, from what stands in their columns.
use std::alloc::{AllocError, Global};

// Kinds of Thrift's fields.
const I32: u8 = 5;

const I64: u8 = 6;

const BINARY: u8 = 8;

const LIST: u8 = 9;

const STRUCT: u8 = 12;

/// A data page of plain numbers: how many values it has, and its body.
#[derive(Clone, Copy)]
pub struct Page {
    pub values: i64,
    pub body: &'static [u8],
    /// The sizes before and after compression, where they aren't the body's.
    pub sizes: Option<(i64, i64)>,
}

/// A chunk, whose pages stand one after another.
#[derive(Clone, Copy)]
pub struct Chunk<'a> {
    pub pages: &'a [Page],
    /// The number of values, where it isn't that of the group's rows.
    pub values: Option<i64>,
    /// The place of the first page, where it isn't that of `pages`.
    pub place: Option<i64>,
    pub dictionary_place: Option<i64>,
    pub codec: i64,
    pub has_path: bool,
}

/// An uncompressed chunk without pages.
pub const CHUNK: Chunk<'static> = Chunk {
    pages: &[],
    values: None,
    place: None,
    dictionary_place: None,
    codec: 0,
    has_path: false,
};

/// A row group: its number of rows and its chunks.
#[derive(Clone, Copy)]
pub struct Group<'a, 'b>(pub i64, pub &'b [Chunk<'a>]);

/// A leaf: its name, its type and its repetition.
#[derive(Clone, Copy)]
pub struct Leaf(pub &'static str, pub Option<i64>, pub i64);

fn varint(out: &mut Vec<u8>, number: u64) -> Result<(), AllocError> {
    let mut rest = number;
    for _ in 0..10 {
        if rest < 128 {
            out.push(rest as u8)?;
            return Ok(());
        }
        out.push((rest % 128) as u8 + 128)?;
        rest /= 128;
    }
    Ok(())
}

// The numbers 0, -1, 1, -2, 2 and so on, counted from 0.
fn zigzag(number: i64) -> u64 {
    let double = number.unsigned_abs().wrapping_mul(2);
    if number < 0 {
        double.wrapping_sub(1)
    } else {
        double
    }
}

// A field's header, `step` above the field before it.
fn field(out: &mut Vec<u8>, step: u8, kind: u8) -> Result<(), AllocError> {
    out.push(step << 4 | kind)?;
    Ok(())
}

// A field of an integer.
fn integer(out: &mut Vec<u8>, step: u8, kind: u8, number: i64) -> Result<(), AllocError> {
    field(out, step, kind)?;
    varint(out, zigzag(number))
}

fn binary(out: &mut Vec<u8>, step: u8, text: &str) -> Result<(), AllocError> {
    field(out, step, BINARY)?;
    varint(out, text.len() as u64)?;
    out.extend_from_slice(text.as_bytes())
}

// A field of a list with so many parts, at most 14, which follow.
fn list(out: &mut Vec<u8>, step: u8, kind: u8, count: usize) -> Result<(), AllocError> {
    field(out, step, LIST)?;
    field(out, (count % 15) as u8, kind)
}

fn stop(out: &mut Vec<u8>) -> Result<(), AllocError> {
    out.push(0)?;
    Ok(())
}

// A data page.
fn push_page(out: &mut Vec<u8>, page: &Page) -> Result<(), AllocError> {
    let len = page.body.len() as i64;
    let (plain_size, stored_size) = page.sizes.unwrap_or((len, len));
    integer(out, 1, I32, 0)?;
    integer(out, 1, I32, plain_size)?;
    integer(out, 1, I32, stored_size)?;
    field(out, 2, STRUCT)?;
    integer(out, 1, I32, page.values)?;
    integer(out, 1, I32, 0)?;
    integer(out, 1, I32, 3)?;
    integer(out, 1, I32, 3)?;
    stop(out)?;
    stop(out)?;
    out.extend_from_slice(page.body)
}

fn push_leaf(out: &mut Vec<u8>, leaf: &Leaf) -> Result<(), AllocError> {
    let Leaf(name, kind, repetition) = *leaf;
    match kind {
        Some(kind) => {
            integer(out, 1, I32, kind)?;
            integer(out, 2, I32, repetition)?;
        }
        None => integer(out, 3, I32, repetition)?,
    }
    binary(out, 1, name)?;
    stop(out)
}

// A chunk of so many rows, whose pages stand at a place.
fn push_chunk(out: &mut Vec<u8>, chunk: &Chunk, rows: i64, place: i64) -> Result<(), AllocError> {
    if chunk.has_path {
        binary(out, 1, "other.parquet")?;
        field(out, 2, STRUCT)?;
    } else {
        field(out, 3, STRUCT)?;
    }
    integer(out, 4, I32, chunk.codec)?;
    integer(out, 1, I64, chunk.values.unwrap_or(rows))?;
    integer(out, 4, I64, chunk.place.unwrap_or(place))?;
    if let Some(place) = chunk.dictionary_place {
        integer(out, 2, I64, place)?;
    }
    stop(out)?;
    stop(out)
}

// The pages of a group, and what the footer says of it.
fn push_group(file: &mut Vec<u8>, footer: &mut Vec<u8>, group: &Group) -> Result<(), AllocError> {
    let Group(rows, chunks) = *group;
    list(footer, 1, STRUCT, chunks.len())?;
    for made in chunks {
        push_chunk(footer, made, rows, file.len() as i64)?;
        for made in made.pages {
            push_page(file, made)?;
        }
    }
    integer(footer, 2, I64, rows)?;
    stop(footer)
}

// The rows of all groups.
fn rows(groups: &[Group]) -> i64 {
    let mut rows = 0i64;
    for group in groups {
        rows = rows.saturating_add(group.0);
    }
    rows
}

/// A file with these leaves and groups.
pub fn file(alloc: Global, leaves: &[Leaf], groups: &[Group]) -> Result<Vec<u8>, AllocError> {
    let mut file = Vec::new(alloc);
    let mut footer = Vec::new(alloc);
    file.extend_from_slice(b"PAR1")?;
    integer(&mut footer, 1, I32, 1)?;
    list(&mut footer, 1, STRUCT, leaves.len() + 1)?;
    push_leaf(&mut footer, &Leaf("schema", None, 0))?;
    for made in leaves {
        push_leaf(&mut footer, made)?;
    }
    integer(&mut footer, 1, I64, rows(groups))?;
    list(&mut footer, 1, STRUCT, groups.len())?;
    for made in groups {
        push_group(&mut file, &mut footer, made)?;
    }
    stop(&mut footer)?;
    file.extend_from_slice(&footer)?;
    file.extend_from_slice(&(footer.len().min(0xffff) as u32).to_le_bytes())?;
    file.extend_from_slice(b"PAR1")?;
    Ok(file)
}
