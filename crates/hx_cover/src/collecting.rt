//! The boxes of rows, one pixel after another.
ghost use Rattle.std.specs.Prelude.{◌≡◌, ◌++◌, ◌∷◌, [], ◌-◌, ◌≤◌, ◌↔◌, List, All, IfOk, OnOk, IsTrue, length};
ghost use Rattle.std.specs.List.Sorted.{IsSorted};
ghost use Rattle.hx_base.specs.Pixels.{pixel_of};
ghost use Rattle.hx_base.specs.Rows.{IsGood, row_cmp};
ghost use Rattle.hx_base.specs.declared.row.Row.{Row};
ghost use Rattle.hx_cover.specs.CoverBoxes.{IsSound, box_seen, row_box};
ghost use Rattle.hx_cover.specs.Collected.{AddsTo, AreUpTo, EndsWith};
ghost use Rattle.hx_cover.specs.Tested.{AreCoverBoxes};
ghost use Rattle.hx_cover.specs.TooNear.{AreBoxes};

use crate::bounds::{CoverBox, joined};
use hx_base::{Pixel, Row};
use std::alloc::{AllocError, Global};

// The box of one row.
fn box_of_row(pixel: u64, row: &Row) -> CoverBox
    requires { IsGood row.now }
    ensures pixel { result.pixel ≡ pixel }
    ensures sound { IsSound result }
    ensures seen { box_seen result ≡ row_box row.now }
{
    let at = [row.x, row.y, row.z];
    CoverBox {
        pixel,
        lo: at,
        hi: at,
    }
}

// Whether the last of some boxes is that of a pixel.
fn ends_with(boxes: &[CoverBox], pixel: u64) -> bool
    ensures { IsTrue result ↔ EndsWith boxes.now pixel }
{
    match boxes.last() {
        Some(last) => last.pixel == pixel,
        None => false,
    }
}

// Adds a row that isn't in a pixel before the last box's: that box grows, or the row begins one.
fn add_row(boxes: &mut Vec<CoverBox>, row: &Row, order: u8) -> Result<(), AllocError>
    requires order { order ≤ 29 }
    requires good { IsGood row.now }
    requires boxes { AreCoverBoxes order boxes.old.items }
    requires behind { AreUpTo (pixel_of order row.now.hp) boxes.old.items }
    ensures boxes { OnOk result (AreCoverBoxes order boxes.new.items) }
    ensures behind { OnOk result (AreUpTo (pixel_of order row.now.hp) boxes.new.items) }
    ensures added { OnOk result (AddsTo order boxes.old.items (row.now ∷ []) boxes.new.items) }
{
    let pixel = Pixel::holding(order, row.hp).number;
    let one = box_of_row(pixel, row);
    if ends_with(boxes, pixel) {
        let index = boxes.len() - 1;
        let last = &mut boxes[index];
        *last = joined(last, &one);
    } else {
        boxes.push(one)?;
    }
    Ok(())
}

/// Adds sorted rows, none in a pixel before the last box's, to the boxes of an order.
///
/// So the rows of one pixel that stand in several files, one after another, have one box.
///
/// # Errors
///
/// Want of memory, after which the boxes are those of some of the rows.
pub fn add_boxes(boxes: &mut Vec<CoverBox>, rows: &[Row], order: u8) -> Result<(), AllocError>
    requires order { order ≤ 29 }
    requires good { All IsGood rows.now }
    requires sorted { IsSorted row_cmp rows.now }
    requires boxes { AreCoverBoxes order boxes.old.items }
    requires behind { All (λ row. AreUpTo (pixel_of order row.hp) boxes.old.items) rows.now }
    ensures boxes { OnOk result (AreCoverBoxes order boxes.new.items) }
    ensures added { OnOk result (AddsTo order boxes.old.items rows.now boxes.new.items) }
{
    for row in rows {
        add_row(boxes, row, order)?;
    }
    Ok(())
}

/// The boxes of all pixels of an order that contain some of the rows, ascending.
///
/// # Errors
///
/// Want of memory.
pub fn boxes(alloc: Global, rows: &[Row], order: u8) -> Result<Vec<CoverBox>, AllocError>
    requires order { order ≤ 29 }
    requires good { All IsGood rows.now }
    requires sorted { IsSorted row_cmp rows.now }
    ensures boxes { IfOk result (λ boxes. AreBoxes order rows.now boxes.items) }
    ensures cover { IfOk result (λ boxes. AreCoverBoxes order boxes.items) }
{
    let mut boxes = Vec::new(alloc);
    add_boxes(&mut boxes, rows, order)?;
    Ok(boxes)
}
