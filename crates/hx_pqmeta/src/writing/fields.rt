ghost use Rattle.std.specs.Prelude.{◌≡◌, ◌++◌, ◌≤◌, pos, ◌≤ℤ◌, ◌<ℤ◌, length, OnOk};
ghost use Rattle.hx_thrift.specs.Kinds.{i32_kind, i64_kind, binary_kind, max_size, zigzag};
ghost use Rattle.hx_thrift.specs.Writing.{Appends, varint, header, counted};
ghost use Rattle.hx_pqmeta.specs.WrittenFields.{or_zero};

use hx_thrift::Writer;
use hx_thrift::kind::{BINARY, I32, I64};
use std::alloc::AllocError;

/// Writes the field `id`, an i32, behind the field `last`. The like for an i64 and a binary.
///
/// Numbers are taken by reference, so that a clause sees a struct's field itself.
pub fn write_int32(writer: &mut Writer, last: i16, id: i16, number: &i32) -> Result<(), AllocError>
    requires { (pos 0 ≤ℤ last) × (last <ℤ id) }
    ensures { OnOk result (Appends writer.old writer.new (header last id i32_kind ++ varint (zigzag number.now))) }
{
    writer.field(last, id, I32)?;
    writer.int(i64::from(*number))?;
    Ok(())
}

pub fn write_int64(writer: &mut Writer, last: i16, id: i16, number: &i64) -> Result<(), AllocError>
    requires { (pos 0 ≤ℤ last) × (last <ℤ id) }
    ensures { OnOk result (Appends writer.old writer.new (header last id i64_kind ++ varint (zigzag number.now))) }
{
    writer.field(last, id, I64)?;
    writer.int(*number)?;
    Ok(())
}

pub fn write_bytes(writer: &mut Writer, last: i16, id: i16, bytes: &[u8]) -> Result<(), AllocError>
    requires order { (pos 0 ≤ℤ last) × (last <ℤ id) }
    requires length { length bytes.now ≤ max_size }
    ensures { OnOk result (Appends writer.old writer.new (header last id binary_kind ++ counted bytes.now)) }
{
    writer.field(last, id, BINARY)?;
    writer.binary(bytes)?;
    Ok(())
}

/// Writes the field `id`, an i32, behind the field `last`; 0 where there is none. The like for an i64.
pub fn write_int32_or_zero(
    writer: &mut Writer,
    last: i16,
    id: i16,
    number: &Option<i32>,
) -> Result<(), AllocError>
    requires { (pos 0 ≤ℤ last) × (last <ℤ id) }
    ensures { OnOk result (Appends writer.old writer.new (header last id i32_kind ++ varint (zigzag (or_zero number.now)))) }
{
    match number {
        None => write_int32(writer, last, id, &0),
        Some(number) => write_int32(writer, last, id, number),
    }
}

pub fn write_int64_or_zero(
    writer: &mut Writer,
    last: i16,
    id: i16,
    number: &Option<i64>,
) -> Result<(), AllocError>
    requires { (pos 0 ≤ℤ last) × (last <ℤ id) }
    ensures { OnOk result (Appends writer.old writer.new (header last id i64_kind ++ varint (zigzag (or_zero number.now)))) }
{
    match number {
        None => write_int64(writer, last, id, &0),
        Some(number) => write_int64(writer, last, id, number),
    }
}
