//! Pixels away from the edge of a larger pixel.
ghost use Rattle.std.specs.Prelude.{◌↔◌, ◌*◌, ◌^◌, ◌<◌, ◌≤◌, IsTrue};
ghost use Rattle.hx_margin.specs.Inner.{IsInBlock, IsInner};

use hx_nest::split;

// Whether a coordinate is neither the first nor the last of its block of 2^steps.
#[inline]
fn is_in_block(steps: u8, x: u32) -> bool
    requires { steps ≤ 29 }
    ensures { IsTrue result ↔ IsInBlock steps x }
{
    let last = (1 << steps) - 1;
    let place = x & last;
    0 < place && place < last
}

/// Whether a pixel of an order isn't at the edge of the pixel so many orders up in which it lies.
#[inline]
pub fn is_inner(order: u8, steps: u8, pixel: u64) -> bool
    requires order { order ≤ 29 }
    requires steps { steps ≤ order }
    requires pixel { pixel < 12 * 4 ^ order }
    ensures { IsTrue result ↔ IsInner order steps pixel }
{
    let at = split(order, pixel);
    is_in_block(steps, at.x) && is_in_block(steps, at.y)
}
