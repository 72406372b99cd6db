ghost use Rattle.std.specs.Prelude.{◌≡◌, ◌++◌, ◌≤◌, pos, [], ◌∷◌, length, OnOk};
ghost use Rattle.std.specs.List.{AllByRecursion};
ghost use Rattle.hx_thrift.specs.Kinds.{i32_kind, binary_kind, list_kind, zigzag};
ghost use Rattle.hx_thrift.specs.Writing.{Appends, varint, header, list_head, counted};
ghost use Rattle.hx_pqmeta.specs.Enumerations.{plain_encoding, rle_encoding};
ghost use Rattle.hx_pqmeta.specs.Ids.{meta_type, meta_encodings, meta_path};
ghost use Rattle.hx_pqmeta.specs.Writing.{meta_data_bytes, chunk_bytes, chunks_bytes, IsColumnLeaf};

use super::fields::{write_int32_or_zero, write_int64_or_zero};
use crate::chunk::Chunk;
use crate::enumerations::{PLAIN_ENCODING, RLE_ENCODING};
use crate::footer::Leaf;
use crate::ids::{
    CHUNK_META, CHUNK_OFFSET, META_CODEC, META_DATA_PAGE, META_ENCODINGS, META_PATH,
    META_PLAIN_SIZE, META_STORED_SIZE, META_TYPE, META_VALUES,
};
use hx_thrift::Writer;
use hx_thrift::kind::{BINARY, I32, LIST, STRUCT};
use std::alloc::AllocError;

/// Writes the chunks of leaves.
pub fn write_chunks(
    writer: &mut Writer,
    leaves: &[Leaf],
    chunks: &[Chunk],
) -> Result<(), AllocError>
    requires leaves { AllByRecursion IsColumnLeaf leaves.now }
    requires count { length chunks.now ≡ length leaves.now }
    ensures { OnOk result (Appends writer.old writer.new (chunks_bytes leaves.now chunks.now)) }
{
    for i in 0..chunks.len() {
        write_chunk(writer, &leaves[i], &chunks[i])?;
    }
    Ok(())
}

fn write_chunk(writer: &mut Writer, leaf: &Leaf, chunk: &Chunk) -> Result<(), AllocError>
    requires { length leaf.now.name ≤ 64 }
    ensures { OnOk result (Appends writer.old writer.new (chunk_bytes leaf.now chunk.now)) }
{
    write_int64_or_zero(writer, 0, CHUNK_OFFSET, &chunk.data_page)?;
    writer.field(CHUNK_OFFSET, CHUNK_META, STRUCT)?;
    write_meta_data(writer, leaf, chunk)?;
    writer.stop()?;
    Ok(())
}

fn write_meta_data(writer: &mut Writer, leaf: &Leaf, chunk: &Chunk) -> Result<(), AllocError>
    requires { length leaf.now.name ≤ 64 }
    ensures { OnOk result (Appends writer.old writer.new (meta_data_bytes leaf.now chunk.now)) }
{
    let kind = leaf.kind();
    write_int32_or_zero(writer, 0, META_TYPE, &kind)?;
    write_encodings(writer)?;
    write_path(writer, leaf.name())?;
    write_int32_or_zero(writer, META_PATH, META_CODEC, &chunk.codec)?;
    write_int64_or_zero(writer, META_CODEC, META_VALUES, &chunk.values)?;
    write_int64_or_zero(writer, META_VALUES, META_PLAIN_SIZE, &chunk.plain_size)?;
    write_int64_or_zero(
        writer,
        META_PLAIN_SIZE,
        META_STORED_SIZE,
        &chunk.stored_size,
    )?;
    write_int64_or_zero(writer, META_STORED_SIZE, META_DATA_PAGE, &chunk.data_page)?;
    writer.stop()?;
    Ok(())
}

// The field of the encodings: PLAIN and RLE.
fn write_encodings(writer: &mut Writer) -> Result<(), AllocError>
    ensures { OnOk result (Appends writer.old writer.new (header (pos meta_type) (pos meta_encodings) list_kind ++ (list_head i32_kind 2 ++ (varint (zigzag plain_encoding) ++ (varint (zigzag rle_encoding) ++ []))))) }
{
    writer.field(META_TYPE, META_ENCODINGS, LIST)?;
    writer.list(I32, 2)?;
    write_encoding(writer, &PLAIN_ENCODING)?;
    write_encoding(writer, &RLE_ENCODING)?;
    Ok(())
}

fn write_encoding(writer: &mut Writer, encoding: &i32) -> Result<(), AllocError>
    ensures { OnOk result (Appends writer.old writer.new (varint (zigzag encoding.now))) }
{
    writer.int(i64::from(*encoding))?;
    Ok(())
}

// The field of a column's path, which is its name.
fn write_path(writer: &mut Writer, name: &[u8]) -> Result<(), AllocError>
    requires { length name.now ≤ 64 }
    ensures { OnOk result (Appends writer.old writer.new (header (pos meta_encodings) (pos meta_path) list_kind ++ (list_head binary_kind 1 ++ (counted name.now ++ [])))) }
{
    writer.field(META_ENCODINGS, META_PATH, LIST)?;
    writer.list(BINARY, 1)?;
    writer.binary(name)?;
    Ok(())
}
