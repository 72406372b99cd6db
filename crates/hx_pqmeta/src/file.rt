ghost use Rattle.std.specs.Option.{option_map};
ghost use Rattle.hx_pqmeta.specs.Records.{FileFields};
ghost use Rattle.hx_pqmeta.specs.Fields.{file_of};

use crate::ids::{FILE_GROUPS, FILE_ROWS, FILE_SCHEMA};
use crate::refusal::PqRefusal;
use crate::row_group::RowGroup;
use crate::schema::SchemaElement;
use crate::structs::{Element, Struct, read_list};
use crate::values::{int64, pass};
use hx_thrift::kind::{I64, LIST};
use hx_thrift::{Field, Reader};
use std::alloc::Global;
use std::marker::Model;

/// The fields of the struct FileMetaData.
#[derive(Drop)]
pub struct FileMetaData<'a> {
    alloc: Global,
    pub schema: Option<Vec<SchemaElement<'a>>>,
    pub rows: Option<i64>,
    pub groups: Option<Vec<RowGroup>>,
}

impl<'a> Model for FileMetaData<'a> {
    ghost Value = { FileFields };

    ghost view = { λ s. record { schema = option_map (λ v. v.items) s.schema; rows = s.rows; groups = option_map (λ v. v.items) s.groups } };
}

impl<'a> Struct<'a> for FileMetaData<'a> {
    ghost levels = { 31 };

    ghost wants = { Unit {0} };

    ghost said = { λ es. file_of es };

    fn read_entry(
        &mut self,
        reader: &mut Reader<'a>,
        field: Field,
        depth: u32,
    ) -> Result<(), PqRefusal> {
        match (field.id, field.kind) {
            (FILE_SCHEMA, LIST) => read_list(self.alloc, reader, &mut self.schema, depth)?,
            (FILE_ROWS, I64) => self.rows = int64(reader)?,
            (FILE_GROUPS, LIST) => read_list(self.alloc, reader, &mut self.groups, depth)?,
            (_, kind) => pass(reader, kind, depth)?,
        }
        Ok(())
    }
}

impl<'a> Element<'a> for FileMetaData<'a> {
    #[tactic(auto, unfolding(crate::specs::Fields::last))]
    fn empty(alloc: Global) -> FileMetaData<'a> {
        FileMetaData {
            alloc,
            schema: None,
            rows: None,
            groups: None,
        }
    }
}
