ghost use Rattle.std.specs.Prelude.{◌≡◌, ◌++◌, ◌<◌, ◌≤◌, ◌^◌, ℤ, pos, length, IfOk, OnOk};
ghost use Rattle.std.specs.List.{AllByRecursion};
ghost use Rattle.hx_thrift.specs.Writing.{Appends};
ghost use Rattle.hx_pqmeta.specs.Naturals.{natural};
ghost use Rattle.hx_pqmeta.specs.WrittenFields.{or_zero, total_size};
ghost use Rattle.hx_pqmeta.specs.Writing.{group_bytes, groups_bytes, footer_bytes, footer_tail, IsColumnLeaf, IsColumnGroup, IsColumnFooter};

use super::chunk::write_chunks;
use super::fields::{write_bytes, write_int32, write_int64};
use super::schema::write_schema;
use crate::chunk::Chunk;
use crate::footer::{Footer, Group, Leaf};
use crate::ids::{
    FILE_CREATED_BY, FILE_GROUPS, FILE_ROWS, FILE_SCHEMA, FILE_VERSION, GROUP_CHUNKS, GROUP_ROWS,
    GROUP_SIZE,
};
use crate::numbers::natural;
use crate::reading::MAGIC;
use hx_thrift::Writer;
use hx_thrift::kind::{LIST, STRUCT};
use std::alloc::{AllocError, Global};

/// Writes a footer, its length in four bytes, and the last mark.
///
/// Behind a mark and pages, of which the footer's start tells the length, they make a file that is read as this footer
/// (`footers_read_back`).
pub fn write_footer(alloc: Global, footer: &Footer) -> Result<Vec<u8>, AllocError>
    requires { IsColumnFooter footer.now }
    ensures { IfOk result (λ bytes. bytes.items ≡ footer_tail footer.now) }
{
    let mut writer = Writer::new(alloc);
    write_file_meta_data(&mut writer, footer)?;
    let mut bytes = writer.into_bytes();
    let len = bytes.len() as u32;
    bytes.extend_from_slice(&len.to_le_bytes())?;
    bytes.extend_from_slice(&MAGIC)?;
    Ok(bytes)
}

fn write_file_meta_data(writer: &mut Writer, footer: &Footer) -> Result<(), AllocError>
    requires { IsColumnFooter footer.now }
    ensures { OnOk result (Appends writer.old writer.new (footer_bytes footer.now)) }
{
    let rows = footer.rows();
    write_int32(writer, 0, FILE_VERSION, &1)?;
    write_schema(writer, footer.leaves())?;
    write_int64(writer, FILE_SCHEMA, FILE_ROWS, &rows)?;
    writer.field(FILE_ROWS, FILE_GROUPS, LIST)?;
    writer.list(STRUCT, footer.groups().len() as u32)?;
    write_groups(writer, footer.leaves(), footer.groups())?;
    write_bytes(writer, FILE_GROUPS, FILE_CREATED_BY, b"hats profile 1")?;
    writer.stop()?;
    Ok(())
}

fn write_groups(writer: &mut Writer, leaves: &[Leaf], groups: &[Group]) -> Result<(), AllocError>
    requires leaves { AllByRecursion IsColumnLeaf leaves.now }
    requires few { length leaves.now ≤ 64 }
    requires groups { AllByRecursion (IsColumnGroup leaves.now) groups.now }
    ensures { OnOk result (Appends writer.old writer.new (groups_bytes leaves.now groups.now)) }
{
    for group in groups {
        write_group(writer, leaves, group)?;
    }
    Ok(())
}

fn write_group(writer: &mut Writer, leaves: &[Leaf], group: &Group) -> Result<(), AllocError>
    requires leaves { AllByRecursion IsColumnLeaf leaves.now }
    requires few { length leaves.now ≤ 64 }
    requires group { IsColumnGroup leaves.now group.now }
    ensures { OnOk result (Appends writer.old writer.new (group_bytes leaves.now group.now)) }
{
    let rows = group.rows();
    let size = total_size(group.chunks()) as i64;
    writer.field(0, GROUP_CHUNKS, LIST)?;
    writer.list(STRUCT, leaves.len() as u32)?;
    write_chunks(writer, leaves, group.chunks())?;
    write_int64(writer, GROUP_CHUNKS, GROUP_SIZE, &size)?;
    write_int64(writer, GROUP_SIZE, GROUP_ROWS, &rows)?;
    writer.stop()?;
    Ok(())
}

// The bytes of all pages of chunks with their headers.
fn total_size(chunks: &[Chunk]) -> u64
    requires { total_size chunks.now < 2 ^ 63 }
    ensures { result ≡ total_size chunks.now }
{
    let mut size = 0;
    for chunk in chunks {
        size += size_of(chunk);
    }
    size
}

// Those of one chunk.
fn size_of(chunk: &Chunk) -> u64
    ensures { result ≡ natural (or_zero chunk.now.plain_size) }
{
    natural(chunk.plain_size.unwrap_or(0))
}
