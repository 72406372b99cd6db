//! The partitions beside a pixel of the margin order.
ghost use Rattle.std.specs.Prelude.{◌≡◌, ◌*◌, ◌^◌, ◌<◌, ◌≤◌, ◌⊎◌, ◌↔◌, All, Contains, IsTrue, OnOk};
ghost use Rattle.hx_base.specs.declared.pixel.Pixel.{Pixel as PixelRecord};
ghost use Rattle.hx_base.specs.Pixels.{AreDisjointInOrder, HoldsPosition};
ghost use Rattle.hx_margin.specs.Beside.{AreBeside};
ghost use Rattle.hx_margin.specs.Steps.{AddsOther, IsIn};

use crate::edges::is_inner;
use crate::laws::inner_pixels;
use hx_base::Pixel;
use hx_nest::neighbours;
use hx_ptree::PixelTree;
use std::alloc::AllocError;

/// The order of the partition that holds a position, if one does.
pub fn order_holding(tree: &PixelTree, position: u64) -> u8
    requires { position < 12 * 4 ^ 29 }
    ensures order { (part : PixelRecord) → Contains tree.now part → HoldsPosition part position → part.order ≡ result }
    ensures list { AreDisjointInOrder tree.now }
{
    match tree.part(position) {
        Some(part) => part.order,
        None => 0,
    }
}

// Whether a partition's number is one's own or is there already.
fn is_known(numbers: &[u32], own: u32, number: u32) -> bool
    ensures { IsTrue result ↔ ((number ≡ own) ⊎ Contains numbers.now number) }
{
    number == own || numbers.contains(&number)
}

// Adds the number of the partition that holds a position, if it is another than one's own and isn't there already.
fn add_other(
    numbers: &mut Vec<u32>,
    tree: &PixelTree,
    own: u32,
    position: u64,
) -> Result<(), AllocError>
    requires { position < 12 * 4 ^ 29 }
    ensures { OnOk result (AddsOther tree.now own position numbers.old.items numbers.new.items) }
{
    if let Some(holder) = tree.holder(position) {
        if !is_known(numbers, own, holder) {
            numbers.push(holder)?;
        }
    }
    Ok(())
}

/// Finds the numbers of the partitions beside a pixel of the margin order, each once. The pixel lies in the partition of the
/// number `own`, which is of an order.
///
/// # Errors
///
/// Want of memory.
pub fn find_beside(
    numbers: &mut Vec<u32>,
    tree: &PixelTree,
    own: u32,
    order: u8,
    margin_order: u8,
    pixel: u64,
) -> Result<(), AllocError>
    requires order { margin_order ≤ 29 }
    requires list { AreDisjointInOrder tree.now }
    requires orders { All (λ part. part.order ≤ margin_order) tree.now }
    requires pixel { pixel < 12 * 4 ^ margin_order }
    requires own { IsIn tree.now own order margin_order pixel }
    ensures { OnOk result (AreBeside tree.now margin_order pixel numbers.new.items) }
{
    inner_pixels();
    numbers.clear();
    if is_inner(margin_order, margin_order - order, pixel) {
        return Ok(());
    }
    let around = neighbours(margin_order, pixel);
    for i in 0..around.count() {
        let edge = Pixel {
            order: margin_order,
            number: around.get(i),
        };
        add_other(numbers, tree, own, edge.first_position())?;
    }
    Ok(())
}
