ghost use Rattle.std.specs.Option.{option_map};
ghost use Rattle.hx_pqmeta.specs.Records.{ElementFields};
ghost use Rattle.hx_pqmeta.specs.Fields.{element_of};

use crate::ids::{ELEMENT_CHILDREN, ELEMENT_NAME, ELEMENT_REPETITION, ELEMENT_TYPE};
use crate::refusal::PqRefusal;
use crate::structs::{Element, Struct};
use crate::values::{binary, int32, pass};
use hx_thrift::kind::{BINARY, I32};
use hx_thrift::{Field, Reader};
use std::alloc::Global;
use std::marker::Model;

/// The fields of the struct SchemaElement.
#[derive(Default, Drop)]
pub struct SchemaElement<'a> {
    pub kind: Option<i32>,
    pub repetition: Option<i32>,
    pub name: Option<&'a [u8]>,
    pub children: Option<i32>,
}

impl<'a> Model for SchemaElement<'a> {
    ghost Value = { ElementFields };

    ghost view = { λ s. record { kind = s.kind; repetition = s.repetition; name = option_map (λ b. b.now) s.name; children = s.children } };
}

impl<'a> Struct<'a> for SchemaElement<'a> {
    ghost levels = { 29 };

    ghost wants = { ⊥ };

    ghost said = { λ es. element_of es };

    fn read_entry(
        &mut self,
        reader: &mut Reader<'a>,
        field: Field,
        depth: u32,
    ) -> Result<(), PqRefusal> {
        match (field.id, field.kind) {
            (ELEMENT_TYPE, I32) => self.kind = int32(reader)?,
            (ELEMENT_REPETITION, I32) => self.repetition = int32(reader)?,
            (ELEMENT_NAME, BINARY) => self.name = binary(reader)?,
            (ELEMENT_CHILDREN, I32) => self.children = int32(reader)?,
            (_, kind) => pass(reader, kind, depth)?,
        }
        Ok(())
    }
}

impl<'a> Element<'a> for SchemaElement<'a> {
    #[tactic(auto, unfolding(crate::specs::Fields::last))]
    fn empty(_alloc: Global) -> SchemaElement<'a> {
        SchemaElement::default()
    }
}
