ghost use Rattle.std.specs.Prelude.{◌≡◌, IfOk, OnOk, IsSome};
ghost use Rattle.hx_thrift.specs.Writing.{Appends};
ghost use Rattle.hx_pqmeta.specs.Enumerations.{data_page};
ghost use Rattle.hx_pqmeta.specs.Writing.{data_page_bytes, page_header_bytes};

use super::fields::{write_int32, write_int32_or_zero};
use crate::enumerations::RLE_ENCODING;
use crate::ids::{
    DATA_ENCODING, DATA_LEVELS, DATA_REPETITION_LEVELS, DATA_VALUES, PAGE_DATA, PAGE_PLAIN_SIZE,
    PAGE_STORED_SIZE, PAGE_TYPE,
};
use crate::page::PageHead;
use hx_thrift::Writer;
use hx_thrift::kind::STRUCT;
use std::alloc::{AllocError, Global};

/// Writes the header of a data page with levels. The place behind it isn't written.
///
/// At every place it is read as this header (`page_headers_read_back`).
pub fn write_page_header(alloc: Global, head: &PageHead) -> Result<Vec<u8>, AllocError>
    requires kind { head.now.kind ≡ data_page }
    requires levels { IsSome head.now.levels }
    ensures { IfOk result (λ bytes. bytes.items ≡ page_header_bytes head.now) }
{
    let mut writer = Writer::new(alloc);
    write_int32(&mut writer, 0, PAGE_TYPE, &head.kind)?;
    write_int32(&mut writer, PAGE_TYPE, PAGE_PLAIN_SIZE, &head.plain_size)?;
    write_int32(
        &mut writer,
        PAGE_PLAIN_SIZE,
        PAGE_STORED_SIZE,
        &head.stored_size,
    )?;
    writer.field(PAGE_STORED_SIZE, PAGE_DATA, STRUCT)?;
    write_data_page(&mut writer, head)?;
    writer.stop()?;
    Ok(writer.into_bytes())
}

fn write_data_page(writer: &mut Writer, head: &PageHead) -> Result<(), AllocError>
    ensures { OnOk result (Appends writer.old writer.new (data_page_bytes head.now)) }
{
    write_int32(writer, 0, DATA_VALUES, &head.values)?;
    write_int32(writer, DATA_VALUES, DATA_ENCODING, &head.encoding)?;
    write_int32_or_zero(writer, DATA_ENCODING, DATA_LEVELS, &head.levels)?;
    write_int32(writer, DATA_LEVELS, DATA_REPETITION_LEVELS, &RLE_ENCODING)?;
    writer.stop()?;
    Ok(())
}
