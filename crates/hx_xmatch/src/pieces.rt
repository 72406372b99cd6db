//! The lines of the rows of a left partition.
ghost use Rattle.std.specs.Prelude.{◌≡◌, ◌<◌, ◌≤◌, ◌*◌, All, IfErr, IfOk, List, OnOk, length};
ghost use Rattle.hx_base.specs.Rows.{IsGood};
ghost use Rattle.hx_base.specs.declared.row.Row.{Row};
ghost use Rattle.hx_catalog.specs.Answers.{HasFaultCause};
ghost use Rattle.hx_outside.specs.Disk.{Passes};
ghost use Rattle.hx_outside.specs.Folders.{Same};
ghost use Rattle.hx_xmatch.specs.Fields.{IsFieldOf};
ghost use Rattle.hx_xmatch.specs.Files.{HasRowsAt, IsLoadRefusal, MayRefuseRows};
ghost use Rattle.hx_xmatch.specs.Pieces.{AddsLines, FindsAll};

use crate::fields::Field;
use crate::lines::push_matches;
use crate::runs::next_run;
use hx_base::{Refusal, Row};
use hx_catalog::Catalogue;
use hx_outside::Store;
use std::alloc::Global;

/// Adds the lines of left rows, and says how many of them have a match. Rows of one right partition are searched in
/// its rows and its margin's, rows of none in the partitions around them; where the rows behind are searched in the same
/// partitions, the field stays.
pub(crate) fn push_piece<S: Store>(
    alloc: Global,
    store: &mut S,
    right: &Catalogue,
    field: &mut Field,
    left: &[Row],
    r2: u64,
    text: &mut Vec<u8>,
) -> Result<u64, Refusal>
    requires { All IsGood left.now }
    ensures unchanged { S.disk.tells store.old → Passes S.disk store.old store.new Same }
    ensures field { S.disk.tells store.old →
        IsFieldOf (HasRowsAt (S.disk.reads store.old) right.now) field.old.parts.items field.old.margin field.old.tree → OnOk result
        (IsFieldOf (HasRowsAt (S.disk.reads store.old) right.now) field.new.parts.items field.new.margin field.new.tree) }
    ensures lines { S.disk.tells store.old →
        IsFieldOf (HasRowsAt (S.disk.reads store.old) right.now) field.old.parts.items field.old.margin field.old.tree → IfOk result (λ matched. (rows : List Row) →
        FindsAll (S.disk.reads store.old) right.now r2 rows left.now → AddsLines r2 rows left.now text.old.items text.new.items matched) }
    ensures few { IfOk result (λ matched. matched ≤ length left.now) }
    ensures refused { S.disk.tells store.old → IfErr result (IsLoadRefusal (S.disk.reads store.old) right.now) }
    ensures kinds { IfErr result (MayRefuseRows right.now.side) }
    ensures cause { HasFaultCause S.disk.faults store.old store.new result }
{
    let margin_order = right.properties().settings.margin_order;
    let mut matched = 0;
    let mut at = 0;
    while at < left.len() {
        let rest = &left[at..];
        let run = next_run(alloc, rest, right.parts(), right.tree(), margin_order)?;
        let count = run.count;
        field.turn_to(alloc, store, right, run.parts, run.margin)?;
        matched += push_matches(text, &rest[..count], &field.tree, r2)?;
        at += count;
    }
    Ok(matched)
}
