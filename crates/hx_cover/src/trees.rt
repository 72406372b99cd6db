//! The coverage test by boxes round runs of boxes.
//!
//! Over the right boxes, in their order, stand levels: the first has a box round each 4 of them, the next one round each
//! 16, and so on. A search goes along the right boxes and passes over each run whose box is further than the radius.
//! Left boxes are taken in runs too, with a box round the run: mostly none of a run is within the radius of a right box,
//! but for the right boxes of its own partition, and these are near.
ghost use Rattle.std.specs.Prelude.{◌≡◌, ◌+◌, ◌*◌, ◌/◌, ◌^◌, ◌<◌, ◌≤◌, ◌⊎◌, ◌∷◌, [], ℕ, List, All, AllPairs, IfOk, length, slice_get, slice_index_or, None, Some, false};
ghost use Rattle.std.specs.List.{AllWithin};
ghost use Rattle.hx_base.specs.Pixels.{first_position, pixel_of};
ghost use Rattle.hx_base.specs.Coverage.{cover_pixel};
ghost use Rattle.hx_cover.specs.CoverBoxes.{IsSound, box_seen};
ghost use Rattle.hx_cover.specs.Tested.{AreCoverBoxes, IsCoverBox};
ghost use Rattle.hx_cover.specs.TooNear.{IsFirstTooNear};
ghost use Rattle.hx_cover.specs.declared.bounds.CoverBox.{CoverBox};
ghost use Rattle.hx_cover.specs.Trees.{AreAllNear, AreFar, AreFarOrIn, AreOver, HasRound, IsLevel};
ghost use Rattle.hx_cover.specs.Bounds.{IsInside};

use crate::bounds::{CoverBox, TooNear, gap2, joined};
use crate::nearness::{are_near, first_position};
use hx_ptree::PixelTree;
use std::alloc::{AllocError, Global};
use std::marker::Model;

// A box round each `width` consecutive boxes, the last round those that are left. `width` is 2^`shift`.
#[derive(Drop)]
struct Level {
    shift: u32,
    width: usize,
    boxes: Vec<CoverBox>,
}

/// The right catalogue's boxes, ascending by their pixels, to be searched for those within a radius. It is seen as the list
/// of its boxes.
#[derive(Drop)]
pub struct CoverTree {
    right: Vec<CoverBox>,
    levels: Vec<Level>,
}

impl Model for CoverTree {
    ghost use Rattle.std.specs.Prelude.{List, All, AllPairs, ◌<◌};
    ghost use Rattle.hx_cover.specs.declared.bounds.CoverBox as seen;
    ghost use Rattle.hx_cover.specs.CoverBoxes as CoverBoxes;
    ghost use Rattle.hx_cover.specs.Trees as Trees;

    ghost Value = { List seen.CoverBox };

    ghost view = { λ tree. tree.right.items };

    ghost invariant = { λ tree. All CoverBoxes.IsSound tree.right.items × All (Trees.IsLevel tree.right.items) tree.levels.items };
}

// A run of right boxes, by indices.
#[derive(Clone, Copy, Debug)]
struct Run {
    first: usize,
    end: usize,
}

// A box round each four boxes.
fn over_four(alloc: Global, boxes: &[CoverBox]) -> Result<Vec<CoverBox>, AllocError>
    requires { All IsSound boxes.now }
    ensures sound { IfOk result (λ above. All IsSound above.items) }
    ensures over { IfOk result (λ above. AreOver boxes.now 4 above.items) }
{
    let mut above: Vec<CoverBox> = Vec::new(alloc);
    for (i, under) in boxes.iter().enumerate() {
        if i % 4 == 0 {
            above.push(*under)?;
        } else {
            let last = &mut above[i / 4];
            *last = joined(last, under);
        }
    }
    Ok(above)
}

// The index behind the run that an index is in, where the run's box is further than the radius; else that index.
fn passed(level: &Level, seen: &CoverBox, at: usize, r2: u64) -> usize
    requires seen { IsSound seen.now }
    requires level { All IsSound level.now.boxes.items }
    requires shift { level.now.shift < 64 }
    requires width { level.now.width ≡ 2 ^ level.now.shift }
    ensures forward { at ≤ result }
    ensures far { (right : List CoverBox) → AreOver right level.now.width level.now.boxes.items →
        AreFar seen.now r2 right at result }
{
    let run = at >> level.shift;
    let Some(node) = level.boxes.get(run) else {
        return at;
    };
    if gap2(seen, node) <= r2 {
        return at;
    }
    (run + 1).saturating_mul(level.width).max(at)
}

// The highest level that has a run that begins at an index, 0 for the boxes themselves.
fn level_at(at: usize, top: usize) -> usize
    ensures { result ≤ top }
{
    top.min((at.trailing_zeros() / 2) as usize)
}

// How many right boxes lie before a pixel, `shift / 2` orders up.
fn count_before(right: &[CoverBox], shift: u32, number: u64) -> usize
    requires shift { shift < 64 }
    requires ordered { AllPairs (λ a b. a.pixel < b.pixel) right.now }
    ensures { AllWithin (λ b. number ≤ b.pixel / 2 ^ shift) right.now result (length right.now) }
{
    right.partition_point(|b| b.pixel >> shift < number)
}

// How many right boxes lie before a pixel, `shift / 2` orders up, or in it.
fn count_begun(right: &[CoverBox], shift: u32, number: u64) -> usize
    requires shift { shift < 64 }
    requires ordered { AllPairs (λ a b. a.pixel < b.pixel) right.now }
    ensures { AllWithin (λ b. b.pixel / 2 ^ shift ≤ number) right.now 0 result }
{
    right.partition_point(|b| b.pixel >> shift <= number)
}

// The box round some boxes, of which one is handed in beside them.
fn round(first: &CoverBox, run: &[CoverBox]) -> CoverBox
    requires first { IsSound first.now }
    requires run { All IsSound run.now }
    ensures sound { IsSound result }
    ensures round { All (λ seen. IsInside (box_seen seen) (box_seen result)) run.now }
{
    let mut all = *first;
    for seen in run {
        all = joined(&all, seen);
    }
    all
}

impl CoverTree {
    // The index behind the run of a level that an index is in, where all of it is further than the radius; else that index.
    fn step(&self, level: usize, seen: &CoverBox, at: usize, r2: u64) -> usize
        requires seen { IsSound seen.now }
        ensures forward { at ≤ result }
        ensures far { AreFar seen.now r2 self.now at result }
    {
        if level == 0 {
            match self.right.get(at) {
                Some(b) if gap2(seen, b) > r2 => at + 1,
                _ => at,
            }
        } else {
            match self.levels.get(level - 1) {
                Some(level) => passed(level, seen, at, r2),
                None => at,
            }
        }
    }

    // The next index at which a box may be within the radius, but for those of a run that is left out.
    fn next_within(&self, seen: &CoverBox, out: Run, from: usize, r2: u64) -> usize
        requires seen { IsSound seen.now }
        ensures forward { from ≤ result }
        ensures passed { AreFarOrIn seen.now r2 self.now out.first out.end from result }
    {
        let top = self.levels.len().min(32);
        let mut at = from;
        let mut level = level_at(at, top);
        while at < self.right.len() {
            if out.first <= at && at < out.end {
                at = out.end;
                level = top;
            } else {
                let next = self.step(level, seen, at, r2);
                if next > at {
                    at = next;
                    level = level_at(at, top);
                } else if level == 0 {
                    return at;
                } else {
                    level -= 1;
                }
            }
        }
        at
    }

    // The right boxes in the partition that contains two pixels, so all between them; none where no partition does.
    fn near_run(&self, tree: &PixelTree, margin_order: u8, first: u64, last: u64) -> Run
        requires order { margin_order ≤ 27 }
        requires first { first < 12 * 4 ^ (margin_order + 2) }
        requires right { AreCoverBoxes (margin_order + 2) self.now }
        ensures { AreAllNear tree.now margin_order self.now result.first result.end first last }
    {
        let none = Run { first: 0, end: 0 };
        let Some(part) = tree.part(first_position(margin_order, first)) else {
            return none;
        };
        if part.order > margin_order + 2 {
            return none;
        }
        let shift = 2 * u32::from(margin_order + 2 - part.order);
        if first >> shift != part.number || last >> shift != part.number {
            return none;
        }
        let right = self.right.as_slice();
        Run {
            first: count_before(right, shift, part.number),
            end: count_begun(right, shift, part.number),
        }
    }

    // The first of the right boxes that is too near to a left box.
    fn first_too_near_to(
        &self,
        a: &CoverBox,
        tree: &PixelTree,
        margin_order: u8,
        r2: u64,
    ) -> Option<TooNear>
        requires order { margin_order ≤ 27 }
        requires a { IsCoverBox (margin_order + 2) a.now }
        requires right { AreCoverBoxes (margin_order + 2) self.now }
        ensures { IsFirstTooNear tree.now margin_order r2 (a.now ∷ []) self.now result }
    {
        let near = self.near_run(tree, margin_order, a.pixel, a.pixel);
        let mut at = 0;
        while at < self.right.len() {
            let next = self.next_within(a, near, at, r2);
            let Some(b) = self.right.get(next) else {
                return None;
            };
            let gap2 = gap2(a, b);
            if gap2 <= r2 && !are_near(tree, margin_order, a.pixel, b.pixel) {
                return Some(TooNear {
                    left: a.pixel,
                    right: b.pixel,
                    gap2,
                });
            }
            at = next + 1;
        }
        None
    }

    // The least pair of some left boxes, taken one by one.
    fn first_of_each(
        &self,
        run: &[CoverBox],
        tree: &PixelTree,
        margin_order: u8,
        r2: u64,
    ) -> Option<TooNear>
        requires order { margin_order ≤ 27 }
        requires run { AreCoverBoxes (margin_order + 2) run.now }
        requires right { AreCoverBoxes (margin_order + 2) self.now }
        ensures { IsFirstTooNear tree.now margin_order r2 run.now self.now result }
    {
        for a in run {
            if let Some(found) = self.first_too_near_to(a, tree, margin_order, r2) {
                return Some(found);
            }
        }
        None
    }

    // Whether a left box of a run may be too near to a right box.
    fn may_meet(&self, run: &[CoverBox], tree: &PixelTree, margin_order: u8, r2: u64) -> bool
        requires order { margin_order ≤ 27 }
        requires some { 0 < length run.now }
        requires run { AreCoverBoxes (margin_order + 2) run.now }
        requires right { AreCoverBoxes (margin_order + 2) self.now }
        ensures { result ≡ false → IsFirstTooNear tree.now margin_order r2 run.now self.now None }
    {
        let first = &run[0];
        let last = &run[run.len() - 1];
        let near = self.near_run(tree, margin_order, first.pixel, last.pixel);
        let all = round(first, run);
        self.next_within(&all, near, 0, r2) < self.right.len()
    }

    // The least pair of some left boxes. They are taken in runs of a size, and a run that may have a pair in shorter ones.
    fn first_by_runs(
        &self,
        left: &[CoverBox],
        size: usize,
        tree: &PixelTree,
        margin_order: u8,
        r2: u64,
    ) -> Option<TooNear>
        requires size { 0 < size }
        requires order { margin_order ≤ 27 }
        requires left { AreCoverBoxes (margin_order + 2) left.now }
        requires right { AreCoverBoxes (margin_order + 2) self.now }
        ensures { IsFirstTooNear tree.now margin_order r2 left.now self.now result }
    {
        if size < 4 {
            return self.first_of_each(left, tree, margin_order, r2);
        }
        let mut at = 0;
        while at < left.len() {
            let end = at + size.min(left.len() - at);
            let run = &left[at..end];
            if self.may_meet(run, tree, margin_order, r2) {
                if let Some(found) = self.first_by_runs(run, size / 4, tree, margin_order, r2) {
                    return Some(found);
                }
            }
            at = end;
        }
        None
    }

    /// The least pair of a left and a right box that are too near, as the free function `first_too_near` answers it for the
    /// same boxes. It takes no memory.
    ///
    /// Left boxes may be asked in parts, one after another: the first part that has a pair gives it. A part of some hundred
    /// boxes costs for each box much less than a single box does.
    pub fn first_too_near(
        &self,
        left: &[CoverBox],
        tree: &PixelTree,
        margin_order: u8,
        r2: u64,
    ) -> Option<TooNear>
        requires order { margin_order ≤ 27 }
        requires left { AreCoverBoxes (margin_order + 2) left.now }
        requires right { AreCoverBoxes (margin_order + 2) self.now }
        ensures { IsFirstTooNear tree.now margin_order r2 left.now self.now result }
    {
        self.first_by_runs(left, 64, tree, margin_order, r2)
    }

    /// The boxes of the right catalogue, ascending by their pixels, as `boxes` gives them.
    ///
    /// # Errors
    ///
    /// Want of memory.
    pub fn new(alloc: Global, right: Vec<CoverBox>) -> Result<CoverTree, AllocError>
        requires { All IsSound right.items }
        ensures { IfOk result (λ tree. tree ≡ right.items) }
    {
        let levels = levels_over(alloc, &right)?;
        Ok(CoverTree { right, levels })
    }
}

// The level over a list of boxes that is a level itself, or the right boxes.
fn next_level(alloc: Global, shift: u32, boxes: &[CoverBox]) -> Result<Level, AllocError>
    requires shift { shift < 60 }
    requires boxes { All IsSound boxes.now }
    ensures level { IfOk result (λ level. (right : List CoverBox) → AreOver right (2 ^ shift) boxes.now →
        IsLevel right level) }
    ensures shift { IfOk result (λ level. level.shift ≡ shift + 2) }
{
    Ok(Level {
        shift: shift + 2,
        width: 1_usize << (shift + 2),
        boxes: over_four(alloc, boxes)?,
    })
}

// The levels over the right boxes, up to one of few boxes.
fn levels_over(alloc: Global, right: &[CoverBox]) -> Result<Vec<Level>, AllocError>
    requires { All IsSound right.now }
    ensures { IfOk result (λ levels. All (IsLevel right.now) levels.items) }
{
    let mut levels = Vec::new(alloc);
    let mut level = next_level(alloc, 0, right)?;
    while level.shift < 60 && level.boxes.len() > 4 {
        let above = next_level(alloc, level.shift, &level.boxes)?;
        levels.push(level)?;
        level = above;
    }
    levels.push(level)?;
    Ok(levels)
}
