//! The right rows that are searched together.
ghost use Rattle.std.specs.Prelude.{◌≡◌, ◌↔◌, ◌++◌, ◌<◌, [], All, IfErr, IfOk, IsTrue, OnOk, false, length};
ghost use Rattle.hx_base.specs.Rows.{IsGood};
ghost use Rattle.hx_catalog.specs.Answers.{HasFaultCause};
ghost use Rattle.hx_outside.specs.Disk.{Passes};
ghost use Rattle.hx_outside.specs.Folders.{Same};
ghost use Rattle.hx_xmatch.specs.Fields.{IsFieldOf};
ghost use Rattle.hx_xmatch.specs.Files.{HasRowsAt, IsLoadRefusal, MayRefuseRows};
ghost use Rattle.hx_xmatch.specs.Pieces.{AddsFile, AddsPart};
ghost use Rattle.hx_xmatch.specs.Runs.{AreIndices};

use crate::files::load;
use hx_base::{Refusal, Row};
use hx_catalog::Catalogue;
use hx_kd::Kd;
use hx_outside::Store;
use std::alloc::{AllocError, Global};

/// Right rows to be searched: those of some partitions, and where it is asked those of their margins.
#[derive(Drop)]
pub(crate) struct Field {
    /// The partitions' indices.
    pub(crate) parts: Vec<u32>,
    /// Whether the rows of their margins are there too.
    pub(crate) margin: bool,
    /// The rows.
    pub(crate) tree: Kd,
}

// Adds rows to some. Where there are none yet, they are taken as they are.
fn add_rows(rows: &mut Vec<Row>, mut more: Vec<Row>) -> Result<(), AllocError>
    ensures { OnOk result (rows.new.items ≡ rows.old.items ++ more.items) }
{
    if rows.is_empty() {
        *rows = more;
        return Ok(());
    }
    rows.append(&mut more)
}

// Adds the rows of a file.
fn add_file<S: Store>(
    rows: &mut Vec<Row>,
    store: &mut S,
    right: &Catalogue,
    part: u32,
    margin: bool,
) -> Result<(), Refusal>
    requires part { part < length right.now.parts }
    requires good { All IsGood rows.old.items }
    ensures unchanged { S.disk.tells store.old → Passes S.disk store.old store.new Same }
    ensures added { S.disk.tells store.old → OnOk result (AddsFile (HasRowsAt (S.disk.reads store.old) right.now part margin) rows.old.items rows.new.items) }
    ensures good { OnOk result (All IsGood rows.new.items) }
    ensures refused { S.disk.tells store.old → IfErr result (IsLoadRefusal (S.disk.reads store.old) right.now) }
    ensures kinds { IfErr result (MayRefuseRows right.now.side) }
    ensures cause { HasFaultCause S.disk.faults store.old store.new result }
{
    let file = load(right, store, part, margin)?;
    add_rows(rows, file)?;
    Ok(())
}

// Adds the rows of a partition, and where it is asked those of its margin.
fn add_part<S: Store>(
    rows: &mut Vec<Row>,
    store: &mut S,
    right: &Catalogue,
    part: u32,
    margin: bool,
) -> Result<(), Refusal>
    requires part { part < length right.now.parts }
    requires good { All IsGood rows.old.items }
    ensures unchanged { S.disk.tells store.old → Passes S.disk store.old store.new Same }
    ensures added { S.disk.tells store.old → OnOk result (AddsPart (HasRowsAt (S.disk.reads store.old) right.now) part margin rows.old.items rows.new.items) }
    ensures good { OnOk result (All IsGood rows.new.items) }
    ensures refused { S.disk.tells store.old → IfErr result (IsLoadRefusal (S.disk.reads store.old) right.now) }
    ensures kinds { IfErr result (MayRefuseRows right.now.side) }
    ensures cause { HasFaultCause S.disk.faults store.old store.new result }
{
    add_file(rows, store, right, part, false)?;
    if margin {
        return add_file(rows, store, right, part, true);
    }
    Ok(())
}

// The rows of some partitions, and where it is asked those of their margins.
fn load_rows<S: Store>(
    alloc: Global,
    store: &mut S,
    right: &Catalogue,
    parts: &[u32],
    margin: bool,
) -> Result<Vec<Row>, Refusal>
    requires { AreIndices right.now.parts parts.now }
    ensures unchanged { S.disk.tells store.old → Passes S.disk store.old store.new Same }
    ensures loaded { S.disk.tells store.old → IfOk result (λ rows. IsFieldOf (HasRowsAt (S.disk.reads store.old) right.now) parts.now margin rows.items) }
    ensures good { IfOk result (λ rows. All IsGood rows.items) }
    ensures refused { S.disk.tells store.old → IfErr result (IsLoadRefusal (S.disk.reads store.old) right.now) }
    ensures kinds { IfErr result (MayRefuseRows right.now.side) }
    ensures cause { HasFaultCause S.disk.faults store.old store.new result }
{
    let mut rows = Vec::new(alloc);
    for part in parts {
        add_part(&mut rows, store, right, *part, margin)?;
    }
    Ok(rows)
}

impl Field {
    /// The field of no rows.
    pub(crate) fn none(alloc: Global) -> Result<Field, AllocError>
        ensures { IfOk result (λ field. (field.parts.items ≡ []) × (field.margin ≡ false) × (field.tree ≡ [])) }
    {
        Ok(Field {
            parts: Vec::new(alloc),
            margin: false,
            tree: Kd::new(alloc, Vec::new(alloc))?,
        })
    }

    // The field of some partitions.
    fn load<S: Store>(
        alloc: Global,
        store: &mut S,
        right: &Catalogue,
        parts: Vec<u32>,
        margin: bool,
    ) -> Result<Field, Refusal>
        requires { AreIndices right.now.parts parts.items }
        ensures unchanged { S.disk.tells store.old → Passes S.disk store.old store.new Same }
        ensures parts { IfOk result (λ field. (field.parts.items ≡ parts.items) × (field.margin ≡ margin)) }
        ensures loaded { S.disk.tells store.old → IfOk result (λ field. IsFieldOf (HasRowsAt (S.disk.reads store.old) right.now) parts.items margin field.tree) }
        ensures refused { S.disk.tells store.old → IfErr result (IsLoadRefusal (S.disk.reads store.old) right.now) }
        ensures kinds { IfErr result (MayRefuseRows right.now.side) }
        ensures cause { HasFaultCause S.disk.faults store.old store.new result }
    {
        let rows = load_rows(alloc, store, right, &parts, margin)?;
        Ok(Field {
            parts,
            margin,
            tree: Kd::new(alloc, rows)?,
        })
    }

    // Whether the field is that of some partitions.
    fn is_of(&self, parts: &[u32], margin: bool) -> bool
        ensures { IsTrue result ↔ ((self.now.parts.items ≡ parts.now) × (self.now.margin ≡ margin)) }
    {
        self.margin == margin && self.parts.as_slice() == parts
    }

    /// Becomes the field of some partitions, which it may be already.
    pub(crate) fn turn_to<S: Store>(
        &mut self,
        alloc: Global,
        store: &mut S,
        right: &Catalogue,
        parts: Vec<u32>,
        margin: bool,
    ) -> Result<(), Refusal>
        requires { AreIndices right.now.parts parts.items }
        ensures unchanged { S.disk.tells store.old → Passes S.disk store.old store.new Same }
        ensures parts { OnOk result ((self.new.parts.items ≡ parts.items) × (self.new.margin ≡ margin)) }
        ensures field { S.disk.tells store.old →
            IsFieldOf (HasRowsAt (S.disk.reads store.old) right.now) self.old.parts.items self.old.margin self.old.tree →
            OnOk result (IsFieldOf (HasRowsAt (S.disk.reads store.old) right.now) parts.items margin self.new.tree) }
        ensures refused { S.disk.tells store.old → IfErr result (IsLoadRefusal (S.disk.reads store.old) right.now) }
        ensures kinds { IfErr result (MayRefuseRows right.now.side) }
        ensures cause { HasFaultCause S.disk.faults store.old store.new result }
    {
        if self.is_of(&parts, margin) {
            return Ok(());
        }
        *self = Field::none(alloc)?;
        *self = Field::load(alloc, store, right, parts, margin)?;
        Ok(())
    }
}
