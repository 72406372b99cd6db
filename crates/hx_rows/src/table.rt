ghost use Rattle.std.specs.Prelude.{◌≡◌, IfErr, IfOk};
ghost use Rattle.csv.specs.Records.{fields_of};
ghost use Rattle.hx_rows.specs.Csv.{csv_rows, row_of_record};
ghost use Rattle.hx_rows.specs.Headers.{columns_in};
ghost use Rattle.hx_rows.specs.Reading.{Reads};
ghost use Rattle.hx_rows.specs.Rows.{rows_from};
ghost use Rattle.hx_rows.specs.Unread.{Stands, TakesNext, unread};

use crate::fault::Fault;
use crate::header::Header;
use crate::plain::plain_rows;
use crate::read::RowRefusal;
use crate::record::row_of_record;
use crate::rows::{push_row, refused};
use csv::{ByteRecord, Reader, ReaderBuilder};
use hx_base::Row;
use std::alloc::Global;

// Reads the next record, if there is one.
fn read_next(reader: &mut Reader<&[u8]>, fields: &mut ByteRecord) -> Result<bool, RowRefusal>
    requires { Stands reader.old }
    ensures next { IfOk result (λ found. TakesNext found reader.old reader.new (fields_of fields.new)) }
    ensures memory { IfErr result (λ refusal. refusal ≡ RowRefusal.Memory) }
{
    let Ok(found) = reader.read_byte_record(fields) else {
        return Err(RowRefusal::Memory);
    };
    Ok(found)
}

// The rows under a header, read with one record's room.
fn rows_under(
    alloc: Global,
    header: &Header,
    reader: &mut Reader<&[u8]>,
    line: &mut ByteRecord,
) -> Result<Vec<Row>, RowRefusal>
    requires { Stands reader.old }
    ensures { Reads result (rows_from (row_of_record (columns_in header.now) header.now.width) 1 (unread reader.old)) }
{
    let mut rows = Vec::new(alloc);
    for turn in 0..u64::MAX {
        if !read_next(reader, line)? {
            return Ok(rows);
        }
        push_row(&mut rows, turn + 1, row_of_record(header, line))?;
    }
    Err(RowRefusal::Memory)
}

// The rows of a CSV text, as the crate `csv` reads it.
#[tactic(auto, unfolding(crate::specs::Csv::table_rows))]
fn any_rows(alloc: Global, bytes: &[u8]) -> Result<Vec<Row>, RowRefusal>
    ensures { Reads result (csv_rows bytes.now) }
{
    let mut reader = ReaderBuilder::new()
        .has_headers(false)
        .flexible(true)
        .from_reader(alloc, bytes);
    let mut line = ByteRecord::new(alloc);
    if !read_next(&mut reader, &mut line)? {
        return Err(refused(0, Fault::Header));
    }
    match Header::of(&line) {
        Ok(header) => rows_under(alloc, &header, &mut reader, &mut line),
        Err(fault) => Err(refused(0, fault)),
    }
}

/// The rows of a CSV input, or its first fault.
pub(crate) fn csv_rows(alloc: Global, bytes: &[u8]) -> Result<Vec<Row>, RowRefusal>
    ensures { Reads result (csv_rows bytes.now) }
{
    match plain_rows(alloc, bytes) {
        Some(read) => read,
        None => any_rows(alloc, bytes),
    }
}
