//! Steps from a pixel to the pixels next to it, also over the sides of its face.
ghost use Rattle.std.specs.Prelude.{◌≡◌, ◌≢◌, ◌<◌, ◌≤◌, ◌^◌, ℕ};
ghost use Rattle.hx_nest.specs.Sides.{beyond};
ghost use Rattle.hx_nest.specs.Steps.{IsNear, across, after, before, pixel_at};

use crate::side::{NONE, Side};
use crate::spot::FaceXy;

/// A coordinate on a face, or the end of the face that a step leaves by.
#[derive(Clone, Copy, Debug, PartialEq, Eq)]
pub enum Coordinate {
    Below,
    Within(u32),
    Above,
}

/// One step back.
pub fn before(x: u32) -> Coordinate
    ensures value { result ≡ before x }
    ensures near { (last : ℕ) → x ≤ last → IsNear last x result }
    ensures moved { result ≢ Coordinate.Within x }
{
    if x == 0 {
        Coordinate::Below
    } else {
        Coordinate::Within(x - 1)
    }
}

/// One step on, on a grid whose coordinates go up to the last.
pub fn after(last: u32, x: u32) -> Coordinate
    requires last { last < 2 ^ 29 }
    requires x { x ≤ last }
    ensures value { result ≡ after last x }
    ensures near { IsNear last x result }
    ensures moved { result ≢ Coordinate.Within x }
{
    if x == last {
        Coordinate::Above
    } else {
        Coordinate::Within(x + 1)
    }
}

// What the coordinates at a side or vertex of a face become on the face beyond. Between two faces at one pole
// the side is one of x on the one face and of y on the other, at the same end: there they are exchanged.
fn turned(last: u32, side: Side, face: u8, x: u32, y: u32) -> (u32, u32)
    ensures { result ≡ beyond last side face x y }
{
    match side {
        Side::South if face < 8 => (last, last),
        Side::South => (0, 0),
        Side::SouthEast if face < 8 => (x, last),
        Side::SouthEast => (0, x),
        Side::East => (0, last),
        Side::SouthWest if face < 8 => (last, y),
        Side::SouthWest => (y, 0),
        Side::NorthEast if face < 4 => (y, last),
        Side::NorthEast => (0, y),
        Side::West => (last, 0),
        Side::NorthWest if face < 4 => (last, x),
        Side::NorthWest => (x, 0),
        Side::North if face < 4 => (last, last),
        Side::North => (0, 0),
    }
}

// The pixel beyond a side or vertex from one that lies there.
fn across(last: u32, side: Side, at: FaceXy) -> Option<FaceXy>
    requires { at.face < 12 }
    ensures { result ≡ across last side at.face at.x at.y }
{
    let face = side.faces_beyond()[at.face as usize];
    if face == NONE {
        return None;
    }
    let (x, y) = turned(last, side, at.face, at.x, at.y);
    Some(FaceXy { face, x, y })
}

/// The pixel at coordinates next to those of a pixel of a face, if there is one.
pub fn pixel_at(last: u32, face: u8, x: Coordinate, y: Coordinate) -> Option<FaceXy>
    requires { face < 12 }
    ensures { result ≡ pixel_at last face x y }
{
    let (side, x, y) = match (x, y) {
        (Coordinate::Within(x), Coordinate::Within(y)) => return Some(FaceXy { face, x, y }),
        (Coordinate::Below, Coordinate::Below) => (Side::South, 0, 0),
        (Coordinate::Within(x), Coordinate::Below) => (Side::SouthEast, x, 0),
        (Coordinate::Above, Coordinate::Below) => (Side::East, last, 0),
        (Coordinate::Below, Coordinate::Within(y)) => (Side::SouthWest, 0, y),
        (Coordinate::Above, Coordinate::Within(y)) => (Side::NorthEast, last, y),
        (Coordinate::Below, Coordinate::Above) => (Side::West, 0, last),
        (Coordinate::Within(x), Coordinate::Above) => (Side::NorthWest, x, last),
        (Coordinate::Above, Coordinate::Above) => (Side::North, last, last),
    };
    across(last, side, FaceXy { face, x, y })
}
