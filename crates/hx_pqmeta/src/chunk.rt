ghost use Rattle.std.specs.Prelude.{◌≡◌, Some};
ghost use Rattle.hx_pqmeta.specs.Fields.{meta_data_of, chunk_with, chunk_of};

use crate::ids::{
    CHUNK_META, CHUNK_PATH, META_CODEC, META_DATA_PAGE, META_DICTIONARY_PAGE, META_PLAIN_SIZE,
    META_STORED_SIZE, META_VALUES,
};
use crate::refusal::PqRefusal;
use crate::structs::{Element, Struct, read_struct};
use crate::values::{binary, int32, int64, pass};
use hx_thrift::kind::{BINARY, I32, I64, STRUCT};
use hx_thrift::{Field, Reader};
use std::alloc::Global;

/// The values of a column in a row group.
#[derive(Clone, Copy, Debug, Default, PartialEq, Eq)]
pub struct Chunk {
    /// Whether the values stand in another file.
    pub has_path: bool,
    /// Whether there is meta data. Where there is none, each of the other fields is `None`.
    pub has_meta: bool,
    /// The compression, 0 where there is none.
    pub codec: Option<i32>,
    /// How many values, with those that are null.
    pub values: Option<i64>,
    /// The bytes of all pages with their headers before compression.
    pub plain_size: Option<i64>,
    /// The bytes of all pages with their headers in the file.
    pub stored_size: Option<i64>,
    /// The place of the first data page.
    pub data_page: Option<i64>,
    /// The place of the dictionary page.
    pub dictionary_page: Option<i64>,
}

/// The fields of the struct ColumnMetaData.
#[derive(Clone, Copy, Default)]
pub struct ColumnMetaData {
    pub codec: Option<i32>,
    pub values: Option<i64>,
    pub plain_size: Option<i64>,
    pub stored_size: Option<i64>,
    pub data_page: Option<i64>,
    pub dictionary_page: Option<i64>,
}

impl<'a> Struct<'a> for ColumnMetaData {
    ghost levels = { 26 };

    ghost wants = { ⊥ };

    ghost said = { λ es. meta_data_of es };

    fn read_entry(
        &mut self,
        reader: &mut Reader<'a>,
        field: Field,
        depth: u32,
    ) -> Result<(), PqRefusal> {
        match (field.id, field.kind) {
            (META_CODEC, I32) => self.codec = int32(reader)?,
            (META_VALUES, I64) => self.values = int64(reader)?,
            (META_PLAIN_SIZE, I64) => self.plain_size = int64(reader)?,
            (META_STORED_SIZE, I64) => self.stored_size = int64(reader)?,
            (META_DATA_PAGE, I64) => self.data_page = int64(reader)?,
            (META_DICTIONARY_PAGE, I64) => self.dictionary_page = int64(reader)?,
            (_, kind) => pass(reader, kind, depth)?,
        }
        Ok(())
    }
}

impl Chunk {
    // With this meta data in place of what it had.
    fn with_meta(&self, meta: ColumnMetaData) -> Chunk
        ensures { result ≡ chunk_with self.now.has_path (Some meta) }
    {
        Chunk {
            has_path: self.has_path,
            has_meta: true,
            codec: meta.codec,
            values: meta.values,
            plain_size: meta.plain_size,
            stored_size: meta.stored_size,
            data_page: meta.data_page,
            dictionary_page: meta.dictionary_page,
        }
    }
}

impl<'a> Struct<'a> for Chunk {
    ghost levels = { 27 };

    ghost wants = { ⊥ };

    ghost said = { λ es. chunk_of es };

    #[tactic(auto, unfolding(crate::specs::Fields::last))]
    fn read_entry(
        &mut self,
        reader: &mut Reader<'a>,
        field: Field,
        depth: u32,
    ) -> Result<(), PqRefusal> {
        let empty = ColumnMetaData::default();
        match (field.id, field.kind) {
            (CHUNK_PATH, BINARY) => self.has_path = binary(reader)?.is_some(),
            (CHUNK_META, STRUCT) => *self = self.with_meta(read_struct(reader, empty, depth)?),
            (_, kind) => pass(reader, kind, depth)?,
        }
        Ok(())
    }
}

impl<'a> Element<'a> for Chunk {
    #[tactic(auto, unfolding(crate::specs::Fields::last))]
    fn empty(_alloc: Global) -> Chunk {
        Chunk::default()
    }
}
