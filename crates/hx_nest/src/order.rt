//! A pixel at other orders.
ghost use Rattle.std.specs.Prelude.{◌≡◌, ◌*◌, ◌/◌, ◌^◌, ◌<◌, ◌≤◌};
ghost use Rattle.hx_base.specs.Pixels.{pixel_of};

use hx_base::Pixel;

/// The pixel of the order before that a pixel lies in. One of order 0 has no parent.
pub fn parent(p: u64) -> u64
    ensures { result ≡ p / 4 }
{
    p / 4
}

/// The first of the four pixels of the next order that lie in a pixel; the other three follow it. The pixel is
/// of order 28 at most.
pub fn first_child(p: u64) -> u64
    requires { p < 12 * 4 ^ 28 }
    ensures { result ≡ 4 * p }
{
    4 * p
}

/// The pixel of order k that a pixel of order 29 lies in.
pub fn at_order(hp: u64, k: u8) -> u64
    requires order { k ≤ 29 }
    requires pixel { hp < 12 * 4 ^ 29 }
    ensures value { result ≡ pixel_of k hp }
    ensures range { result < 12 * 4 ^ k }
{
    Pixel::holding(k, hp).number
}
