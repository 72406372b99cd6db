//! Two lists of partitions walked side by side.
ghost use Rattle.std.specs.Prelude.{◌≡◌, ◌<◌, ◌≤◌, ◌-◌, ◌++◌, ◌∷◌, [], IfOk, OnOk, length};
ghost use Rattle.std.specs.List.{AllWithin};
ghost use Rattle.hx_base.specs.Limits.{most_partitions};
ghost use Rattle.hx_base.specs.Pixels.{AreDisjointInOrder, IsPixel, end_position, first_position};
ghost use Rattle.hx_ptree.specs.Pieces.{ArePieces, HasWalkedTo};
ghost use Rattle.hx_ptree.specs.Searches.{IsSpan};

use crate::tree::PixelTree;
use hx_base::Pixel;
use std::alloc::{AllocError, Global};

/// A left partition, by its index, and the right partitions that overlap it: they are consecutive. Where there are none,
/// `first` is the number of the right partitions before it.
#[derive(Clone, Copy, Debug, PartialEq, Eq)]
pub struct Piece {
    pub left: u32,
    pub first: u32,
    pub count: u32,
}

// How many of the pixels end at or before a position, of which so many are known to.
fn ended_by(parts: &[Pixel], known: usize, position: u64) -> usize
    requires disjoint { AreDisjointInOrder parts.now }
    requires within { known ≤ length parts.now }
    requires known { AllWithin (λ part. end_position part ≤ position) parts.now 0 known }
    ensures within { result ≤ length parts.now }
    ensures before { AllWithin (λ part. end_position part ≤ position) parts.now 0 result }
    ensures after { AllWithin (λ part. position < end_position part) parts.now result (length parts.now) }
{
    for index in known..parts.len() {
        if !parts[index].ends_by(position) {
            return index;
        }
    }
    parts.len()
}

// How many of the pixels begin at or before a position, of which so many are known to.
fn begun_by(parts: &[Pixel], known: usize, position: u64) -> usize
    requires disjoint { AreDisjointInOrder parts.now }
    requires within { known ≤ length parts.now }
    requires known { AllWithin (λ part. first_position part ≤ position) parts.now 0 known }
    ensures within { result ≤ length parts.now }
    ensures begun { AllWithin (λ part. first_position part ≤ position) parts.now 0 result }
    ensures later { AllWithin (λ part. position < first_position part) parts.now result (length parts.now) }
{
    for index in known..parts.len() {
        if !parts[index].begins_by(position) {
            return index;
        }
    }
    parts.len()
}

// Where a walk stands among the partitions: how many of them have ended before a pixel, and how many have begun by its
// end.
#[derive(Clone, Copy)]
struct Walked {
    ended: usize,
    begun: usize,
}

impl Walked {
    // Goes on to a pixel that doesn't stand before the one that was walked to.
    fn on_to(self, parts: &[Pixel], pixel: &Pixel) -> Walked
        requires disjoint { AreDisjointInOrder parts.now }
        requires exists { IsPixel pixel.now }
        requires stands { HasWalkedTo parts.now pixel.now self }
        ensures stands { HasWalkedTo parts.now pixel.now result }
        ensures order { result.ended ≤ result.begun }
        ensures span { IsSpan parts.now pixel.now result.ended (result.begun - result.ended) }
    {
        Walked {
            ended: ended_by(parts, self.ended, pixel.first_position()),
            begun: begun_by(parts, self.begun, pixel.end_position() - 1),
        }
    }
}

fn push_piece(pieces: &mut Vec<Piece>, piece: Piece) -> Result<(), AllocError>
    ensures { OnOk result (pieces.new.items ≡ pieces.old.items ++ piece ∷ []) }
{
    pieces.push(piece)?;
    Ok(())
}

fn pieces_of(alloc: Global, left: &[Pixel], right: &[Pixel]) -> Result<Vec<Piece>, AllocError>
    requires most_left { length left.now ≤ most_partitions }
    requires most_right { length right.now ≤ most_partitions }
    requires left { AreDisjointInOrder left.now }
    requires right { AreDisjointInOrder right.now }
    ensures { IfOk result (λ pieces. ArePieces left.now right.now pieces.items) }
{
    let mut pieces = Vec::with_capacity(alloc, left.len())?;
    let mut walked = Walked { ended: 0, begun: 0 };
    for index in 0..left.len() {
        walked = walked.on_to(right, &left[index]);
        let piece = Piece {
            left: index as u32,
            first: walked.ended as u32,
            count: (walked.begun - walked.ended) as u32,
        };
        push_piece(&mut pieces, piece)?;
    }
    Ok(pieces)
}

/// For each left partition, in order, the right partitions that overlap it. It takes a time that grows with the number
/// of the left and of the right partitions together.
pub fn pieces(alloc: Global, left: &PixelTree, right: &PixelTree) -> Result<Vec<Piece>, AllocError>
    ensures { IfOk result (λ pieces. ArePieces left.now right.now pieces.items) }
{
    pieces_of(alloc, left.parts(), right.parts())
}
