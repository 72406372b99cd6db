//! Runs of left rows that are searched for in the same right partitions.
ghost use Rattle.std.specs.Prelude.{◌≡◌, ◌+◌, ◌*◌, ◌^◌, ◌<◌, ◌≤◌, ◌⊎◌, ◌∷◌, [], ℕ, All, Contains, IfOk, IfSome, OnOk, Some, false, true, length, slice_get};
ghost use Rattle.std.specs.List.{AllWithin};
ghost use Rattle.hx_base.specs.Pixels.{IsPixel, LiesIn, PixelContains, pixel_of};
ghost use Rattle.hx_base.specs.Rows.{IsGood};
ghost use Rattle.hx_base.specs.declared.pixel.Pixel.{Pixel};
ghost use Rattle.hx_base.specs.declared.row.Row.{Row};
ghost use Rattle.hx_ptree.specs.Searches.{IsHolder};
ghost use Rattle.hx_xmatch.specs.Runs.{AreIndices, HasAround, IsRunOf, IsServedBy, IsUncovered};

use hx_base::{Pixel, Row};
use hx_nest::{at_order, neighbours};
use hx_ptree::PixelTree;
use std::alloc::{AllocError, Global};

/// The first rows of some, and the right partitions in which they are searched for.
#[derive(Drop)]
pub(crate) struct Run {
    /// How many rows.
    pub(crate) count: usize,
    /// The partitions' indices.
    pub(crate) parts: Vec<u32>,
    /// Whether the partitions' margins are searched too.
    pub(crate) margin: bool,
}

// How many of the first rows a pixel contains.
fn count_in(rows: &[Row], part: &Pixel) -> usize
    ensures within { result ≤ length rows.now }
    ensures inside { AllWithin (PixelContains part.now) rows.now 0 result }
    ensures behind { (row : Row) → slice_get rows.now result ≡ Some row → ¬ (PixelContains part.now row) }
{
    for (i, row) in rows.iter().enumerate() {
        if !part.holds(row.hp) {
            return i;
        }
    }
    rows.len()
}

// How many of the first rows no partition contains.
fn count_uncovered(rows: &[Row], tree: &PixelTree) -> usize
    requires { All IsGood rows.now }
    ensures within { result ≤ length rows.now }
    ensures outside { AllWithin (IsUncovered tree.now) rows.now 0 result }
    ensures behind { (row : Row) → slice_get rows.now result ≡ Some row → ¬ (IsUncovered tree.now row) }
{
    for (i, row) in rows.iter().enumerate() {
        if tree.holder(row.hp).is_some() {
            return i;
        }
    }
    rows.len()
}

// Puts an index into ascending ones, where it isn't there already.
fn add_index(indices: &mut Vec<u32>, index: u32) -> Result<(), AllocError>
    ensures added { OnOk result (Contains indices.new.items index) }
    ensures kept { OnOk result ((other : ℕ) → Contains indices.old.items other → Contains indices.new.items other) }
    ensures only { OnOk result ((other : ℕ) → Contains indices.new.items other → Contains indices.old.items other ⊎ (other ≡ index)) }
{
    if let Err(at) = indices.as_slice().binary_search(&index) {
        indices.insert(at, index)?;
    }
    Ok(())
}

// Adds the partition that contains a pixel.
fn add_holder(indices: &mut Vec<u32>, tree: &PixelTree, pixel: Pixel) -> Result<(), AllocError>
    requires pixel { IsPixel pixel }
    requires indices { AreIndices tree.now indices.old.items }
    ensures indices { OnOk result (AreIndices tree.now indices.new.items) }
    ensures added { OnOk result ((index : ℕ) (part : Pixel) → slice_get tree.now index ≡ Some part → LiesIn pixel part →
        Contains indices.new.items index) }
    ensures kept { OnOk result ((other : ℕ) → Contains indices.old.items other → Contains indices.new.items other) }
{
    if let Some(index) = tree.holder(pixel.first_position()) {
        add_index(indices, index)?;
    }
    Ok(())
}

// Adds the partitions that contain a neighbour of a pixel of the margin order.
fn add_around(
    indices: &mut Vec<u32>,
    tree: &PixelTree,
    margin_order: u8,
    pixel: u64,
) -> Result<(), AllocError>
    requires order { margin_order ≤ 29 }
    requires pixel { pixel < 12 * 4 ^ margin_order }
    requires indices { AreIndices tree.now indices.old.items }
    ensures indices { OnOk result (AreIndices tree.now indices.new.items) }
    ensures around { OnOk result (HasAround tree.now margin_order pixel indices.new.items) }
    ensures kept { OnOk result ((other : ℕ) → Contains indices.old.items other → Contains indices.new.items other) }
{
    let around = neighbours(margin_order, pixel);
    for i in 0..around.count() {
        let neighbour = Pixel {
            order: margin_order,
            number: around.get(i),
        };
        add_holder(indices, tree, neighbour)?;
    }
    Ok(())
}

// The same, where the pixel isn't that of the row before.
fn add_next(
    indices: &mut Vec<u32>,
    last: Option<u64>,
    tree: &PixelTree,
    margin_order: u8,
    pixel: u64,
) -> Result<(), AllocError>
    requires order { margin_order ≤ 29 }
    requires pixel { pixel < 12 * 4 ^ margin_order }
    requires last { IfSome last (λ before. HasAround tree.now margin_order before indices.old.items) }
    requires indices { AreIndices tree.now indices.old.items }
    ensures indices { OnOk result (AreIndices tree.now indices.new.items) }
    ensures around { OnOk result (HasAround tree.now margin_order pixel indices.new.items) }
    ensures kept { OnOk result ((other : ℕ) → Contains indices.old.items other → Contains indices.new.items other) }
{
    if last == Some(pixel) {
        return Ok(());
    }
    add_around(indices, tree, margin_order, pixel)
}

// The partitions that contain a neighbour of the pixel of some of the rows.
fn around_all(
    alloc: Global,
    rows: &[Row],
    tree: &PixelTree,
    margin_order: u8,
) -> Result<Vec<u32>, AllocError>
    requires order { margin_order ≤ 29 }
    requires good { All IsGood rows.now }
    ensures indices { IfOk result (λ indices. AreIndices tree.now indices.items) }
    ensures around { IfOk result (λ indices. All (λ row. HasAround tree.now margin_order (pixel_of margin_order row.hp) indices.items) rows.now) }
{
    let mut indices = Vec::new(alloc);
    let mut last = None;
    for row in rows {
        let pixel = at_order(row.hp, margin_order);
        add_next(&mut indices, last, tree, margin_order, pixel)?;
        last = Some(pixel);
    }
    Ok(indices)
}

/// The run at the front of some rows: those that the partition of the first one contains, or that none contains.
/// `parts` are the right catalogue's partitions, and `tree` searches them.
pub(crate) fn next_run(
    alloc: Global,
    rows: &[Row],
    parts: &[Pixel],
    tree: &PixelTree,
    margin_order: u8,
) -> Result<Run, AllocError>
    requires order { margin_order ≤ 29 }
    requires good { All IsGood rows.now }
    requires parts { parts.now ≡ tree.now }
    requires some { 0 < length rows.now }
    ensures { IfOk result (IsRunOf parts.now margin_order rows.now) }
{
    match tree.holder(rows[0].hp) {
        Some(index) => Ok(Run {
            count: count_in(rows, &parts[index as usize]),
            parts: vec![in alloc; index; 1]?,
            margin: true,
        }),
        None => {
            let count = count_uncovered(rows, tree);
            Ok(Run {
                count,
                parts: around_all(alloc, &rows[..count], tree, margin_order)?,
                margin: false,
            })
        }
    }
}
