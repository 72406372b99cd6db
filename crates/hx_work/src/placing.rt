//! Rows by the partitions that contain them.
ghost use Rattle.std.specs.Prelude.{◌≡◌, ◌*◌, ◌++◌, ◌^◌, ◌<◌, All, IfOk, IsSorted, IsTrue, OnOk, Some, true};
ghost use Rattle.hx_align.specs.Plans.{pixels_of};
ghost use Rattle.hx_base.specs.Rows.{IsGood, row_cmp};
ghost use Rattle.hx_ptree.specs.Searches.{IsHolder};
ghost use Rattle.hx_spill.specs.Values.{AreSplit};
ghost use Rattle.hx_work.specs.Places.{placed_by};

use hx_align::Plan;
use hx_base::{Pixel, Row};
use hx_ptree::PixelTree;
use hx_spill::Placed;
use std::alloc::{AllocError, Global};

// Whether a partition of the list holds a position.
#[inline]
fn holds(parts: &[Pixel], part: u32, hp: u64) -> bool
    ensures { result ≡ true → IsHolder parts.now hp (Some part) }
{
    match parts.get(part as usize) {
        Some(pixel) => pixel.holds(hp),
        None => false,
    }
}

// The partition that holds a position, which is looked for only where the last one doesn't.
#[inline]
fn part_of(tree: &PixelTree, parts: &[Pixel], last: Option<u32>, hp: u64) -> Option<u32>
    requires position { hp < 12 * 4 ^ 29 }
    requires parts { tree.now ≡ parts.now }
    ensures { IsHolder parts.now hp result }
{
    if let Some(part) = last {
        if holds(parts, part, hp) {
            return Some(part);
        }
    }
    tree.holder(hp)
}

// Puts a row behind those that were placed before, where a partition holds it.
#[inline]
fn place(placed: &mut Vec<Placed>, part: Option<u32>, row: Row) -> Result<(), AllocError>
    ensures { OnOk result (placed.new.items ≡ placed.old.items ++ placed_by part row) }
{
    if let Some(part) = part {
        placed.push(Placed { part, row })?;
    }
    Ok(())
}

/// Sorted rows by the partitions of a plan that contain them. A partition is a range of positions, so they are sorted
/// by partition too, and each run of a partition's rows is one search.
pub fn placed_rows(alloc: Global, rows: &[Row], plan: &Plan) -> Result<Vec<Placed>, AllocError>
    requires sorted { IsSorted row_cmp rows.now }
    requires good { All IsGood rows.now }
    ensures split { IfOk result (λ placed. AreSplit (pixels_of plan.now) rows.now placed.items) }
    ensures good { IfOk result (λ placed. All (λ p. IsGood p.row) placed.items) }
{
    let _rows = plan.rows();
    let parts = plan.pixels();
    let tree = PixelTree::build(alloc, parts)?;
    let mut placed = Vec::with_capacity(alloc, rows.len())?;
    let mut part = None;
    for row in rows {
        part = part_of(&tree, parts, part, row.hp);
        place(&mut placed, part, *row)?;
    }
    Ok(placed)
}
