//! The pixels that touch a pixel.
ghost use Rattle.std.specs.Prelude.{◌≡◌, ◌↔◌, ◌+◌, ◌*◌, ◌^◌, ◌<◌, ◌≤◌, ℕ, AllPairs, Contains, IsTrue, length};
ghost use Rattle.hx_base.specs.Touching.{Touch};
ghost use Rattle.hx_nest.specs.Lists.{Ascends};
ghost use Rattle.hx_nest.specs.Steps.{AddsStep, IsNear, IsOnGrid, pixel_at};

use crate::around::Around;
use crate::spot::{FaceXy, join_xy, split};
use crate::step::{Coordinate, after, before, pixel_at};

// The greatest coordinate on a face.
fn last_of(k: u8) -> u32
    requires { k ≤ 29 }
    ensures value { result + 1 ≡ 2 ^ k }
    ensures range { result < 2 ^ 29 }
{
    (1 << k) - 1
}

// Adds the pixel that coordinates next to those of a pixel lead to, if there is one.
fn add_step(around: &mut Around, k: u8, last: u32, at: FaceXy, x: Coordinate, y: Coordinate)
    requires order { k ≤ 29 }
    requires last { last + 1 ≡ 2 ^ k }
    requires at { IsOnGrid last at }
    requires x { IsNear last at.x x }
    requires y { IsNear last at.y y }
    requires moved { x ≡ Coordinate.Within at.x → y ≡ Coordinate.Within at.y → ⊥ }
    requires ascending { Ascends around.old }
    requires room { length around.old < 8 }
    ensures { AddsStep k (pixel_at last at.face x y) around.old around.new }
{
    if let Some(next) = pixel_at(last, at.face, x, y) {
        around.insert(join_xy(k, next));
    }
}

/// The pixels of order k that touch one, ascending: those that share a side or only a corner with it. It takes
/// constant time, by the table of sides.
pub fn neighbours(k: u8, p: u64) -> Around
    requires order { k ≤ 29 }
    requires pixel { p < 12 * 4 ^ k }
    ensures ascending { AllPairs (λ a b. a < b) result }
    ensures touching { (q : ℕ) → Contains result q ↔ Touch k p q }
{
    let at = split(k, p);
    let last = last_of(k);
    let (x, x_before, x_after) = (Coordinate::Within(at.x), before(at.x), after(last, at.x));
    let (y, y_before, y_after) = (Coordinate::Within(at.y), before(at.y), after(last, at.y));
    let mut around = Around::new();
    add_step(&mut around, k, last, at, x_before, y_before);
    add_step(&mut around, k, last, at, x_before, y);
    add_step(&mut around, k, last, at, x_before, y_after);
    add_step(&mut around, k, last, at, x, y_before);
    add_step(&mut around, k, last, at, x, y_after);
    add_step(&mut around, k, last, at, x_after, y_before);
    add_step(&mut around, k, last, at, x_after, y);
    add_step(&mut around, k, last, at, x_after, y_after);
    around
}

/// Whether two pixels of order k are different and have a corner in common.
pub fn touch(k: u8, p: u64, q: u64) -> bool
    requires order { k ≤ 29 }
    requires left { p < 12 * 4 ^ k }
    requires right { q < 12 * 4 ^ k }
    ensures { IsTrue result ↔ Touch k p q }
{
    neighbours(k, p).contains(q)
}
