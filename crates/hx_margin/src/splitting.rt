//! The file of a margin split task: a partition's rows by the partitions whose margins have them.
ghost use Rattle.std.specs.Prelude.{◌≡◌, ◌++◌, ◌*◌, ◌^◌, ◌<◌, ◌≤◌, ◌↔◌, Some, All, IfOk, IsTrue, OnOk, length, map, slice_index_or};
ghost use Rattle.hx_base.specs.declared.row.Row.{Row as RowRecord};
ghost use Rattle.hx_base.specs.Pixels.{AreDisjointInOrder};
ghost use Rattle.hx_base.specs.Rows.{IsGood};
ghost use Rattle.hx_ptree.specs.Searches.{IsHolder};
ghost use Rattle.hx_spill.specs.Splits.{placed_at};
ghost use Rattle.hx_spill.specs.Values.{IsMarginSplitFile};
ghost use Rattle.hx_margin.specs.Beside.{AreBeside, AreBesideLast};
ghost use Rattle.hx_margin.specs.Steps.{AreCollected, IsIn};

use crate::finding::{find_beside, order_holding};
use hx_base::Row;
use hx_nest::at_order;
use hx_ptree::PixelTree;
use hx_spill::{Placed, split_bytes};
use std::alloc::{AllocError, Global};

// The partitions beside the pixel that was looked at last, if any was.
#[derive(Drop)]
struct Looked {
    pixel: Option<u64>,
    numbers: Vec<u32>,
}

// Whether a pixel was looked at last.
#[inline]
fn was_last(last: Option<u64>, pixel: u64) -> bool
    ensures { IsTrue result ↔ (last ≡ Some pixel) }
{
    match last {
        Some(last) => last == pixel,
        None => false,
    }
}

// Looks round a pixel of the margin order, unless it was looked at last.
#[inline]
fn look_at(
    looked: &mut Looked,
    tree: &PixelTree,
    own: u32,
    order: u8,
    margin_order: u8,
    pixel: u64,
) -> Result<(), AllocError>
    requires order { margin_order ≤ 29 }
    requires list { AreDisjointInOrder tree.now }
    requires orders { All (λ part. part.order ≤ margin_order) tree.now }
    requires pixel { pixel < 12 * 4 ^ margin_order }
    requires own { IsIn tree.now own order margin_order pixel }
    requires known { AreBesideLast tree.now margin_order looked.old.pixel looked.old.numbers.items }
    ensures pixel { OnOk result (looked.new.pixel ≡ Some pixel) }
    ensures beside { OnOk result (AreBeside tree.now margin_order pixel looked.new.numbers.items) }
{
    if was_last(looked.pixel, pixel) {
        return Ok(());
    }
    find_beside(&mut looked.numbers, tree, own, order, margin_order, pixel)?;
    looked.pixel = Some(pixel);
    Ok(())
}

// Places a row at partitions.
#[inline]
fn place_row(placed: &mut Vec<Placed>, numbers: &[u32], row: Row) -> Result<(), AllocError>
    ensures { OnOk result (placed.new.items ≡ placed.old.items ++ map (λ number. placed_at number row) numbers.now) }
{
    for number in numbers {
        placed.push(Placed { part: *number, row })?;
    }
    Ok(())
}

// The first row's position, if there is a row.
fn first_hp(rows: &[Row]) -> u64
    requires { All IsGood rows.now }
    ensures first { (d : RowRecord) → 0 < length rows.now → result ≡ (slice_index_or rows.now 0 d).hp }
    ensures range { result < 12 * 4 ^ 29 }
{
    if rows.is_empty() { 0 } else { rows[0].hp }
}

// A partition's rows at the partitions whose margins have them, in the rows' own order.
fn placed_rows(
    alloc: Global,
    rows: &[Row],
    part: u32,
    tree: &PixelTree,
    margin_order: u8,
) -> Result<Vec<Placed>, AllocError>
    requires good { All IsGood rows.now }
    requires part { All (λ row. IsHolder tree.now row.hp (Some part)) rows.now }
    requires orders { All (λ p. p.order < margin_order) tree.now }
    requires margin_order { margin_order ≤ 24 }
    ensures collected { IfOk result (λ placed. AreCollected tree.now margin_order rows.now placed.items) }
    ensures good { IfOk result (λ placed. All (λ p. IsGood p.row) placed.items) }
{
    let mut placed = Vec::new(alloc);
    let mut looked = Looked {
        pixel: None,
        numbers: Vec::new(alloc),
    };
    let order = order_holding(tree, first_hp(rows));
    for row in rows {
        let pixel = at_order(row.hp, margin_order);
        look_at(&mut looked, tree, part, order, margin_order, pixel)?;
        place_row(&mut placed, &looked.numbers, *row)?;
    }
    Ok(placed)
}

/// The margin split file of the partition of the number `part`: each of its rows at exactly the other partitions whose margin
/// has it, each as often as it came, sorted. The tree has all partitions; the margin order is above each one's order.
///
/// A row's neighbours are looked at only where its pixel of the margin order lies at the partition's edge, and once for rows
/// of one pixel that follow one another.
///
/// # Errors
///
/// Want of memory.
pub fn margin_split(
    alloc: Global,
    rows: &[Row],
    part: u32,
    tree: &PixelTree,
    margin_order: u8,
) -> Result<Vec<u8>, AllocError>
    requires good { All IsGood rows.now }
    requires part { All (λ row. IsHolder tree.now row.hp (Some part)) rows.now }
    requires orders { All (λ p. p.order < margin_order) tree.now }
    requires margin_order { margin_order ≤ 24 }
    ensures { IfOk result (λ bytes. IsMarginSplitFile tree.now margin_order rows.now bytes.items) }
{
    let mut placed = placed_rows(alloc, rows, part, tree, margin_order)?;
    placed.sort_unstable();
    split_bytes(alloc, &placed)
}
