//! The coverage test: whether each left row's search reads all right rows within the radius.
ghost use Rattle.std.specs.Prelude.{◌≡◌, ◌+◌, ◌≤◌, ◌⊎◌, List, IfErr, IfOk, OnOk};
ghost use Rattle.hx_base.specs.declared.row.Row.{Row};
ghost use Rattle.hx_catalog.specs.Answers.{HasFaultCause};
ghost use Rattle.hx_cover.specs.Tested.{AreCoverBoxes};
ghost use Rattle.hx_cover.specs.TooNear.{AreBoxes};
ghost use Rattle.hx_outside.specs.Disk.{Passes};
ghost use Rattle.hx_outside.specs.Folders.{Same};
ghost use Rattle.hx_xmatch.specs.Files.{AreAllRows, IsLoadRefusal, MayRefuseRows};
ghost use Rattle.hx_xmatch.specs.Tested.{IsCovered, IsTestRefusal, MayRefuseTest};

use crate::files::load;
use hx_base::Refusal;
use hx_catalog::Catalogue;
use hx_cover::{CoverBox, CoverTree, TooNear, add_boxes};
use hx_outside::Store;
use std::alloc::Global;

// The boxes of all pixels of an order that contain rows of a catalogue. Rows of a pixel that stand in several files have
// one box.
fn boxes_of<S: Store>(
    alloc: Global,
    store: &mut S,
    catalogue: &Catalogue,
    order: u8,
) -> Result<Vec<CoverBox>, Refusal>
    requires { order ≤ 29 }
    ensures unchanged { S.disk.tells store.old → Passes S.disk store.old store.new Same }
    ensures cover { IfOk result (λ boxes. AreCoverBoxes order boxes.items) }
    ensures boxes { S.disk.tells store.old → IfOk result (λ boxes. (rows : List Row) × AreAllRows (S.disk.reads store.old) catalogue.now rows × AreBoxes order rows boxes.items) }
    ensures refused { S.disk.tells store.old → IfErr result (IsLoadRefusal (S.disk.reads store.old) catalogue.now) }
    ensures kinds { IfErr result (MayRefuseRows catalogue.now.side) }
    ensures cause { HasFaultCause S.disk.faults store.old store.new result }
{
    let mut boxes = Vec::new(alloc);
    for part in 0..catalogue.parts().len() {
        let rows = load(catalogue, store, part as u32, false)?;
        add_boxes(&mut boxes, &rows, order)?;
    }
    Ok(boxes)
}

/// Refuses by the least pair of pixels that are too near, where there is one.
pub(crate) fn check_coverage<S: Store>(
    alloc: Global,
    store: &mut S,
    left: &Catalogue,
    right: &Catalogue,
    r2: u64,
) -> Result<(), Refusal>
    requires left { left.now.side ≡ 1 }
    requires right { right.now.side ≡ 2 }
    ensures unchanged { S.disk.tells store.old → Passes S.disk store.old store.new Same }
    ensures covered { S.disk.tells store.old → OnOk result (IsCovered (S.disk.reads store.old) left.now right.now r2) }
    ensures refused { S.disk.tells store.old → IfErr result (IsTestRefusal (S.disk.reads store.old) left.now right.now r2) }
    ensures kinds { IfErr result MayRefuseTest }
    ensures cause { HasFaultCause S.disk.faults store.old store.new result }
{
    let margin_order = right.properties().settings.margin_order;
    let rights = boxes_of(alloc, store, right, margin_order + 2)?;
    let rights = CoverTree::new(alloc, rights)?;
    let lefts = boxes_of(alloc, store, left, margin_order + 2)?;
    match rights.first_too_near(&lefts, right.tree(), margin_order, r2) {
        None => Ok(()),
        Some(TooNear { left, right, gap2 }) => Err(Refusal::TooNarrow { left, right, gap2 }),
    }
}
