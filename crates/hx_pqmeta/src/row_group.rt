ghost use Rattle.std.specs.Option.{option_map};
ghost use Rattle.hx_pqmeta.specs.Records.{RowGroupFields};
ghost use Rattle.hx_pqmeta.specs.Fields.{row_group_of};

use crate::chunk::Chunk;
use crate::ids::{GROUP_CHUNKS, GROUP_ROWS};
use crate::refusal::PqRefusal;
use crate::structs::{Element, Struct, read_list};
use crate::values::{int64, pass};
use hx_thrift::kind::{I64, LIST};
use hx_thrift::{Field, Reader};
use std::alloc::Global;
use std::marker::Model;

/// The fields of the struct RowGroup.
#[derive(Drop)]
pub struct RowGroup {
    alloc: Global,
    pub chunks: Option<Vec<Chunk>>,
    pub rows: Option<i64>,
}

impl Model for RowGroup {
    ghost Value = { RowGroupFields };

    ghost view = { λ s. record { chunks = option_map (λ v. v.items) s.chunks; rows = s.rows } };
}

impl<'a> Struct<'a> for RowGroup {
    ghost levels = { 29 };

    ghost wants = { Unit {0} };

    ghost said = { λ es. row_group_of es };

    fn read_entry(
        &mut self,
        reader: &mut Reader<'a>,
        field: Field,
        depth: u32,
    ) -> Result<(), PqRefusal> {
        match (field.id, field.kind) {
            (GROUP_CHUNKS, LIST) => read_list(self.alloc, reader, &mut self.chunks, depth)?,
            (GROUP_ROWS, I64) => self.rows = int64(reader)?,
            (_, kind) => pass(reader, kind, depth)?,
        }
        Ok(())
    }
}

impl<'a> Element<'a> for RowGroup {
    #[tactic(auto, unfolding(crate::specs::Fields::last))]
    fn empty(alloc: Global) -> RowGroup {
        RowGroup {
            alloc,
            chunks: None,
            rows: None,
        }
    }
}
