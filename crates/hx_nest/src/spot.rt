//! The spot of a pixel on its face.
ghost use Rattle.std.specs.Prelude.{◌≡◌, ◌*◌, ◌^◌, ◌<◌, ◌≤◌, ℕ};
ghost use Rattle.hx_base.specs.Touching.{IsAt, interleave};

use crate::bits::{gathered, spread};

/// A spot on one of the twelve faces: x counts pixels to the north-east and y to the north-west, both from
/// the face's south corner.
#[derive(Clone, Copy, Debug, PartialEq, Eq)]
pub struct FaceXy {
    /// The face, 0 to 11.
    pub face: u8,
    /// Below 2^k at order k.
    pub x: u32,
    /// Below 2^k at order k.
    pub y: u32,
}

// The coordinates whose bits take turns in a number, x first.
fn separated(number: u64) -> (u32, u32)
    ensures number { (k : ℕ) → k ≤ 32 → number < 4 ^ k → interleave k result.0 result.1 ≡ number }
    ensures range { (k : ℕ) → k ≤ 32 → number < 4 ^ k → (result.0 < 2 ^ k) × (result.1 < 2 ^ k) }
{
    (gathered(number), gathered(number >> 1))
}

// The number in which the bits of the coordinates take turns, x first.
fn interleaved(x: u32, y: u32) -> u64
    ensures { (k : ℕ) → k ≤ 32 → x < 2 ^ k → y < 2 ^ k → result ≡ interleave k x y }
{
    spread(x) | spread(y) << 1
}

/// The spot of a pixel of order k. Its number is 4^k times the face plus the bits of x and y in turn, x first.
pub fn split(k: u8, p: u64) -> FaceXy
    requires order { k ≤ 29 }
    requires pixel { p < 12 * 4 ^ k }
    ensures { IsAt k p result.face result.x result.y }
{
    let face = (p >> (2 * k)) as u8;
    let (x, y) = separated(p - (u64::from(face) << (2 * k)));
    FaceXy { face, x, y }
}

/// The number of the pixel of order k at a spot.
pub fn join_xy(k: u8, at: FaceXy) -> u64
    requires order { k ≤ 29 }
    requires face { at.face < 12 }
    requires x { at.x < 2 ^ k }
    requires y { at.y < 2 ^ k }
    ensures spot { IsAt k result at.face at.x at.y }
    ensures range { result < 12 * 4 ^ k }
{
    (u64::from(at.face) << (2 * k)) + interleaved(at.x, at.y)
}
