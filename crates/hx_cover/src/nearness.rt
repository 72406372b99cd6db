//! The coverage test over all pairs of boxes.
ghost use Rattle.std.specs.Prelude.{◌≡◌, ◌+◌, ◌*◌, ◌/◌, ◌^◌, ◌<◌, ◌≤◌, ◌⊎◌, ◌∷◌, [], ◌↔◌, IsTrue};
ghost use Rattle.hx_base.specs.Coverage.{AreNear, cover_pixel};
ghost use Rattle.hx_base.specs.Pixels.{first_position};
ghost use Rattle.hx_base.specs.Touching.{Touch};
ghost use Rattle.hx_ptree.specs.Searches.{IsPartitionList};
ghost use Rattle.hx_cover.specs.Tested.{AreCoverBoxes, HaveOneHolder, IsCoverBox};
ghost use Rattle.hx_cover.specs.TooNear.{IsFirstTooNear};

use crate::bounds::{CoverBox, TooNear, gap2};
use hx_base::Pixel;
use hx_nest::touch;
use hx_ptree::PixelTree;

// The first position of a pixel of the cover order.
pub fn first_position(margin_order: u8, number: u64) -> u64
    requires order { margin_order ≤ 27 }
    requires pixel { number < 12 * 4 ^ (margin_order + 2) }
    ensures value { result ≡ first_position (cover_pixel margin_order number) }
    ensures range { result < 12 * 4 ^ 29 }
{
    let pixel = Pixel {
        order: margin_order + 2,
        number,
    };
    pixel.first_position()
}

// Whether one partition holds two positions.
fn have_one_holder(tree: &PixelTree, a: u64, b: u64) -> bool
    requires a { a < 12 * 4 ^ 29 }
    requires b { b < 12 * 4 ^ 29 }
    ensures holder { IsTrue result ↔ HaveOneHolder tree.now a b }
    ensures list { IsPartitionList tree.now }
{
    match (tree.holder(a), tree.holder(b)) {
        (Some(first), Some(second)) => first == second,
        _ => false,
    }
}

// Whether two pixels of the margin order are equal or touch.
fn ancestors_meet(margin_order: u8, p: u64, q: u64) -> bool
    requires order { margin_order ≤ 27 }
    requires p { p < 12 * 4 ^ margin_order }
    requires q { q < 12 * 4 ^ margin_order }
    ensures { IsTrue result ↔ ((p ≡ q) ⊎ Touch margin_order p q) }
{
    p == q || touch(margin_order, p, q)
}

// Whether two pixels of the cover order are near.
pub fn are_near(tree: &PixelTree, margin_order: u8, p: u64, q: u64) -> bool
    requires order { margin_order ≤ 27 }
    requires p { p < 12 * 4 ^ (margin_order + 2) }
    requires q { q < 12 * 4 ^ (margin_order + 2) }
    ensures { IsTrue result ↔ AreNear tree.now margin_order p q }
{
    ancestors_meet(margin_order, p / 16, q / 16)
        || have_one_holder(
            tree,
            first_position(margin_order, p),
            first_position(margin_order, q),
        )
}

// The first of the right boxes that is too near to a left box.
fn first_too_near_to(
    a: &CoverBox,
    right: &[CoverBox],
    tree: &PixelTree,
    margin_order: u8,
    r2: u64,
) -> Option<TooNear>
    requires order { margin_order ≤ 27 }
    requires a { IsCoverBox (margin_order + 2) a.now }
    requires right { AreCoverBoxes (margin_order + 2) right.now }
    ensures { IsFirstTooNear tree.now margin_order r2 (a.now ∷ []) right.now result }
{
    for b in right {
        let gap2 = gap2(a, b);
        if gap2 <= r2 && !are_near(tree, margin_order, a.pixel, b.pixel) {
            return Some(TooNear {
                left: a.pixel,
                right: b.pixel,
                gap2,
            });
        }
    }
    None
}

/// The least pair, by the left, then the right pixel, of a left and a right box that are too near: their gap is within the
/// radius, of which `r2` is the square in 10^-18, and their pixels aren't near. None exactly where no pair is.
///
/// `tree` has the right catalogue's partitions, `margin_order` is its margin order. It looks at all pairs, and takes no
/// memory.
pub fn first_too_near(
    left: &[CoverBox],
    right: &[CoverBox],
    tree: &PixelTree,
    margin_order: u8,
    r2: u64,
) -> Option<TooNear>
    requires order { margin_order ≤ 27 }
    requires left { AreCoverBoxes (margin_order + 2) left.now }
    requires right { AreCoverBoxes (margin_order + 2) right.now }
    ensures { IsFirstTooNear tree.now margin_order r2 left.now right.now result }
{
    for a in left {
        if let Some(found) = first_too_near_to(a, right, tree, margin_order, r2) {
            return Some(found);
        }
    }
    None
}
