//! A Parquet file in the form in which tables are mostly written: two row groups with a page for each column,
//! optional columns, a schema with logical types, statistics, an entry of keys and values. Its five columns of
//! integers are uncompressed. `mag` has doubles, and `name` has texts under Snappy; both are passed over.
use std::alloc::{AllocError, Global};

// Kinds of Thrift's fields.
const I16: u8 = 4;

const I32: u8 = 5;

const I64: u8 = 6;

const BINARY: u8 = 8;

const LIST: u8 = 9;

const STRUCT: u8 = 12;

// Each column with its type and its codec: INT64 is 2, DOUBLE 5, BYTE_ARRAY 6; Snappy is 1.
const COLUMNS: [(&str, u32, u32); 7] = [
    ("id", 2, 0),
    ("_healpix_29", 2, 0),
    ("cx", 2, 0),
    ("cy", 2, 0),
    ("cz", 2, 0),
    ("mag", 5, 0),
    ("name", 6, 1),
];

const ONE: u64 = 1_000_000_000;

// The double 21.5.
const MAG: u64 = 0x4035_8000_0000_0000;

// The first six columns of each row group.
const GROUPS: [[&[u64]; 6]; 2] = [
    [
        &[1, 2],
        &[216_172_782_113_783_808, 504_403_158_265_495_552],
        &[ONE, ONE],
        &[0, 0],
        &[0, 0],
        &[MAG, MAG],
    ],
    [&[3], &[288_230_376_151_711_744], &[ONE], &[0], &[0], &[MAG]],
];

// The page of the last column in each row group as Snappy stores it: the number of plain bytes, a literal's length,
// and the bytes: levels, and each text behind its length.
const NAMES: [&[u8]; 2] = [
    b"\x10\x3c\x02\0\0\0\x04\x01\x01\0\0\0a\x01\0\0\0b",
    b"\x0b\x28\x02\0\0\0\x02\x01\x01\0\0\0c",
];

fn varint(out: &mut Vec<u8>, number: u64) -> Result<(), AllocError> {
    let mut rest = number;
    for _ in 0..9 {
        if rest < 128 {
            break;
        }
        out.push((rest % 128) as u8 + 128)?;
        rest /= 128;
    }
    out.push((rest % 128) as u8)?;
    Ok(())
}

// A field's header, `step` above the field before it.
fn field(out: &mut Vec<u8>, step: u8, kind: u8) -> Result<(), AllocError> {
    out.push(step << 4 | kind)?;
    Ok(())
}

fn integer(out: &mut Vec<u8>, step: u8, kind: u8, number: u32) -> Result<(), AllocError> {
    field(out, step, kind)?;
    varint(out, u64::from(number) * 2)
}

fn binary(out: &mut Vec<u8>, step: u8, text: &str) -> Result<(), AllocError> {
    field(out, step, BINARY)?;
    element(out, text)
}

// A text in a list.
fn element(out: &mut Vec<u8>, text: &str) -> Result<(), AllocError> {
    varint(out, text.len() as u64)?;
    out.extend_from_slice(text.as_bytes())
}

// A field of a list with so many parts, at most 14, which follow.
fn list(out: &mut Vec<u8>, step: u8, kind: u8, count: u8) -> Result<(), AllocError> {
    field(out, step, LIST)?;
    field(out, count, kind)
}

fn stop(out: &mut Vec<u8>) -> Result<(), AllocError> {
    out.push(0)?;
    Ok(())
}

// Statistics: no absent value, a greatest and a least value.
fn statistics(out: &mut Vec<u8>, step: u8) -> Result<(), AllocError> {
    field(out, step, STRUCT)?;
    integer(out, 3, I64, 0)?;
    binary(out, 2, "\x09\0\0\0\0\0\0\0")?;
    binary(out, 1, "\x01\0\0\0\0\0\0\0")?;
    stop(out)
}

fn len_of(bytes: &[u8]) -> u32 {
    bytes.len().min(0xffff) as u32
}

// A data page with this body, whose bytes before compression are so many.
fn page(out: &mut Vec<u8>, rows: u32, plain_size: u32, body: &[u8]) -> Result<(), AllocError> {
    integer(out, 1, I32, 0)?;
    integer(out, 1, I32, plain_size)?;
    integer(out, 1, I32, len_of(body))?;
    field(out, 2, STRUCT)?;
    integer(out, 1, I32, rows)?;
    integer(out, 1, I32, 0)?;
    integer(out, 1, I32, 3)?;
    integer(out, 1, I32, 3)?;
    statistics(out, 1)?;
    stop(out)?;
    stop(out)?;
    out.extend_from_slice(body)
}

// The body of numbers that are all there: one run of levels, at most 63, then the numbers.
fn numbers(alloc: Global, values: &[u64]) -> Result<Vec<u8>, AllocError> {
    let mut body = Vec::new(alloc);
    body.extend_from_slice(b"\x02\0\0\0")?;
    body.push((values.len() % 64) as u8 * 2)?;
    body.push(1)?;
    for value in values {
        body.extend_from_slice(&value.to_le_bytes())?;
    }
    Ok(body)
}

// What the footer says of a column in a row group, whose page stands at a place.
fn chunk(
    out: &mut Vec<u8>,
    column: (&str, u32, u32),
    rows: u32,
    place: u32,
    size: u32,
) -> Result<(), AllocError> {
    let (name, kind, codec) = column;
    integer(out, 2, I64, place)?;
    field(out, 1, STRUCT)?;
    integer(out, 1, I32, kind)?;
    list(out, 1, I32, 2)?;
    out.extend_from_slice(b"\0\x06")?;
    list(out, 1, BINARY, 1)?;
    element(out, name)?;
    integer(out, 1, I32, codec)?;
    integer(out, 1, I64, rows)?;
    integer(out, 1, I64, size)?;
    integer(out, 1, I64, size)?;
    integer(out, 2, I64, place)?;
    statistics(out, 3)?;
    stop(out)?;
    stop(out)
}

// A column of a row group: its page, and what the footer says of it.
fn column(
    file: &mut Vec<u8>,
    footer: &mut Vec<u8>,
    column: (&str, u32, u32),
    rows: u32,
    plain_size: u32,
    body: &[u8],
) -> Result<(), AllocError> {
    let place = len_of(file);
    page(file, rows, plain_size, body)?;
    chunk(
        footer,
        column,
        rows,
        place,
        len_of(file).saturating_sub(place),
    )
}

fn group(
    alloc: Global,
    file: &mut Vec<u8>,
    footer: &mut Vec<u8>,
    values: [&[u64]; 6],
    names: &[u8],
) -> Result<(), AllocError> {
    let rows = values[0].len().min(0xff) as u32;
    list(footer, 1, STRUCT, 7)?;
    for i in 0..6 {
        let body = numbers(alloc, values[i])?;
        column(file, footer, COLUMNS[i], rows, len_of(&body), &body)?;
    }
    column(file, footer, COLUMNS[6], rows, len_of(names), names)?;
    integer(footer, 1, I64, len_of(file))?;
    integer(footer, 1, I64, rows)?;
    integer(footer, 2, I64, 4)?;
    integer(footer, 1, I64, len_of(file))?;
    integer(footer, 1, I16, 0)?;
    stop(footer)
}

// A leaf; one of texts has a logical type too.
fn leaf(out: &mut Vec<u8>, column: (&str, u32, u32)) -> Result<(), AllocError> {
    let (name, kind, _) = column;
    integer(out, 1, I32, kind)?;
    integer(out, 2, I32, 1)?;
    binary(out, 1, name)?;
    if kind == 6 {
        integer(out, 2, I32, 0)?;
        field(out, 4, STRUCT)?;
        field(out, 1, STRUCT)?;
        stop(out)?;
        stop(out)?;
    }
    stop(out)
}

// The version, the schema and the number of rows.
fn schema(out: &mut Vec<u8>) -> Result<(), AllocError> {
    integer(out, 1, I32, 2)?;
    list(out, 1, STRUCT, 8)?;
    binary(out, 4, "schema")?;
    integer(out, 1, I32, 7)?;
    stop(out)?;
    for column in COLUMNS {
        leaf(out, column)?;
    }
    integer(out, 1, I64, 3)
}

// An entry of a key and a value, and the writer's name.
fn written_by(out: &mut Vec<u8>) -> Result<(), AllocError> {
    list(out, 1, STRUCT, 1)?;
    binary(out, 1, "pandas")?;
    binary(out, 1, "{\"index_columns\": []}")?;
    stop(out)?;
    binary(out, 1, "a writer of tables 1.0")
}

/// The file.
pub fn written_file(alloc: Global) -> Result<Vec<u8>, AllocError> {
    let mut file = Vec::new(alloc);
    let mut footer = Vec::new(alloc);
    file.extend_from_slice(b"PAR1")?;
    schema(&mut footer)?;
    list(&mut footer, 1, STRUCT, 2)?;
    for i in 0..2 {
        group(alloc, &mut file, &mut footer, GROUPS[i], NAMES[i])?;
    }
    written_by(&mut footer)?;
    stop(&mut footer)?;
    file.extend_from_slice(&footer)?;
    file.extend_from_slice(&len_of(&footer).to_le_bytes())?;
    file.extend_from_slice(b"PAR1")?;
    Ok(file)
}
