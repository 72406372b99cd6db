//! Bounding boxes of the vectors of the rows in a pixel.
ghost use Rattle.std.specs.Prelude.{◌≡◌, ◌*◌, ◌≤◌, ◌≤ℤ◌};
ghost use Rattle.std.specs.Int.RustNames.{unsigned_abs};
ghost use Rattle.hx_base.specs.Boxes.{gap2_of, gap_of};
ghost use Rattle.hx_cover.specs.Bounds.{joined_box};
ghost use Rattle.hx_cover.specs.CoverBoxes.{IsSound, box_seen};

/// The bounding box of the vectors of the rows in a pixel of the cover order.
#[derive(Clone, Copy, Debug, PartialEq, Eq)]
pub struct CoverBox {
    /// The pixel's nested number at the cover order.
    pub pixel: u64,
    /// The least x, y and z, in 10^-9.
    pub lo: [i32; 3],
    /// The greatest x, y and z, in 10^-9.
    pub hi: [i32; 3],
}

// How far two extents of one axis are apart, 0 where they meet.
fn gap(a_low: i32, a_high: i32, b_low: i32, b_high: i32) -> u64
    requires a { a_low ≤ℤ a_high }
    requires b { b_low ≤ℤ b_high }
    requires a_low { unsigned_abs a_low ≤ 1000000001 }
    requires a_high { unsigned_abs a_high ≤ 1000000001 }
    requires b_low { unsigned_abs b_low ≤ 1000000001 }
    requires b_high { unsigned_abs b_high ≤ 1000000001 }
    ensures value { result ≡ gap_of (record { low = a_low; high = a_high }) (record { low = b_low; high = b_high }) }
    ensures bound { result ≤ 2000000002 }
{
    if a_low > b_high {
        u64::from(a_low.abs_diff(b_high))
    } else if b_low > a_high {
        u64::from(b_low.abs_diff(a_high))
    } else {
        0
    }
}

fn squared(gap: u64) -> u64
    requires { gap ≤ 2000000002 }
    ensures value { result ≡ gap * gap }
    ensures bound { result ≤ 4000000008000000004 }
{
    gap * gap
}

/// The squared gap of two boxes, in 10^-18: the sum of the squares of their gaps on the three axes. It takes no memory.
pub fn gap2(a: &CoverBox, b: &CoverBox) -> u64
    requires a { IsSound a.now }
    requires b { IsSound b.now }
    ensures { result ≡ gap2_of (box_seen a.now) (box_seen b.now) }
{
    let x = gap(a.lo[0], a.hi[0], b.lo[0], b.hi[0]);
    let y = gap(a.lo[1], a.hi[1], b.lo[1], b.hi[1]);
    let z = gap(a.lo[2], a.hi[2], b.lo[2], b.hi[2]);
    squared(x) + squared(y) + squared(z)
}

// The least box that has two in it, with the number of the first.
pub fn joined(a: &CoverBox, b: &CoverBox) -> CoverBox
    requires a { IsSound a.now }
    requires b { IsSound b.now }
    ensures pixel { result.pixel ≡ a.now.pixel }
    ensures sound { IsSound result }
    ensures joined { box_seen result ≡ joined_box (box_seen a.now) (box_seen b.now) }
{
    let lo = [
        a.lo[0].min(b.lo[0]),
        a.lo[1].min(b.lo[1]),
        a.lo[2].min(b.lo[2]),
    ];
    let hi = [
        a.hi[0].max(b.hi[0]),
        a.hi[1].max(b.hi[1]),
        a.hi[2].max(b.hi[2]),
    ];
    CoverBox {
        pixel: a.pixel,
        lo,
        hi,
    }
}

/// A left and a right pixel of the cover order that are not near, and whose boxes have a gap within the radius.
#[derive(Clone, Copy, Debug, PartialEq, Eq)]
pub struct TooNear {
    /// The nested number of the pixel with left rows.
    pub left: u64,
    /// The nested number of the pixel with right rows.
    pub right: u64,
    /// The squared gap of their boxes, in 10^-18.
    pub gap2: u64,
}
