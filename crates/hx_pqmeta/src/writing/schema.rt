ghost use Rattle.std.specs.Prelude.{◌≡◌, ◌++◌, ◌+◌, ◌≤◌, pos, length, OnOk};
ghost use Rattle.std.specs.List.{AllByRecursion};
ghost use Rattle.hx_thrift.specs.Kinds.{list_kind, struct_kind};
ghost use Rattle.hx_thrift.specs.Writing.{Appends, header, list_head};
ghost use Rattle.hx_pqmeta.specs.Ids.{file_version, file_schema};
ghost use Rattle.hx_pqmeta.specs.Writing.{root_bytes, leaf_bytes, leaves_bytes, IsColumnLeaf};

use super::fields::{write_bytes, write_int32, write_int32_or_zero};
use crate::footer::Leaf;
use crate::ids::{
    ELEMENT_CHILDREN, ELEMENT_NAME, ELEMENT_REPETITION, ELEMENT_TYPE, FILE_SCHEMA, FILE_VERSION,
};
use hx_thrift::Writer;
use hx_thrift::kind::{LIST, STRUCT};
use std::alloc::AllocError;

/// Writes the field of the schema: the root, and the leaves.
pub fn write_schema(writer: &mut Writer, leaves: &[Leaf]) -> Result<(), AllocError>
    requires leaves { AllByRecursion IsColumnLeaf leaves.now }
    requires few { length leaves.now ≤ 64 }
    ensures { OnOk result (Appends writer.old writer.new (header (pos file_version) (pos file_schema) list_kind ++ (list_head struct_kind (length leaves.now + 1) ++ (root_bytes (pos (length leaves.now)) ++ leaves_bytes leaves.now)))) }
{
    writer.field(FILE_VERSION, FILE_SCHEMA, LIST)?;
    writer.list(STRUCT, leaves.len() as u32 + 1)?;
    let count = leaves.len() as i32;
    write_root(writer, &count)?;
    write_leaves(writer, leaves)?;
    Ok(())
}

// The root of a schema with so many leaves.
fn write_root(writer: &mut Writer, count: &i32) -> Result<(), AllocError>
    ensures { OnOk result (Appends writer.old writer.new (root_bytes count.now)) }
{
    write_bytes(writer, 0, ELEMENT_NAME, b"schema")?;
    write_int32(writer, ELEMENT_NAME, ELEMENT_CHILDREN, count)?;
    writer.stop()?;
    Ok(())
}

fn write_leaves(writer: &mut Writer, leaves: &[Leaf]) -> Result<(), AllocError>
    requires { AllByRecursion IsColumnLeaf leaves.now }
    ensures { OnOk result (Appends writer.old writer.new (leaves_bytes leaves.now)) }
{
    for leaf in leaves {
        write_leaf(writer, leaf)?;
    }
    Ok(())
}

fn write_leaf(writer: &mut Writer, leaf: &Leaf) -> Result<(), AllocError>
    requires { length leaf.now.name ≤ 64 }
    ensures { OnOk result (Appends writer.old writer.new (leaf_bytes leaf.now)) }
{
    let kind = leaf.kind();
    let repetition = leaf.repetition();
    write_int32_or_zero(writer, 0, ELEMENT_TYPE, &kind)?;
    write_int32(writer, ELEMENT_TYPE, ELEMENT_REPETITION, &repetition)?;
    write_bytes(writer, ELEMENT_REPETITION, ELEMENT_NAME, leaf.name())?;
    writer.stop()?;
    Ok(())
}
