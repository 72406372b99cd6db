ghost use Rattle.std.specs.Prelude.{◌≡◌, ◌↔◌, IsTrue};
ghost use Rattle.std.specs.Prelude.{◌*◌, ◌+◌, ◌^◌, ◌<◌, ◌≤◌};
ghost use Rattle.hx_base.specs.Rows.{IsGood, row_cmp, sorted_rows, square, tolerance, unit};

use crate::pixel::pixels_of_order;
use std::cmp::Ordering;

/// A row of a catalogue: the position of a source on the sky, its number, and its unit vector.
///
/// Rows are ordered by `hp`, then `id`, `x`, `y` and `z`.
#[derive(Clone, Copy, Debug, PartialEq, Eq, PartialOrd, Ord)]
pub struct Row {
    /// The nested number of the order-29 pixel that holds the source (the column `_healpix_29`).
    pub hp: u64,
    /// The source's number (the column `id`).
    pub id: i64,
    /// The unit vector's coordinates, in 10^-9 (the columns `cx`, `cy`, `cz`).
    pub x: i32,
    pub y: i32,
    pub z: i32,
}

// The squared length of a unit vector, in 10^-18.
const UNIT: u64 = 1_000_000_000_000_000_000;

// By how much rounding or truncation may change it.
const TOLERANCE: u64 = 4_000_000_000;

fn squared(a: i32) -> u64
    ensures { result ≡ square a }
{
    let magnitude = u64::from(a.unsigned_abs());
    magnitude * magnitude
}

fn is_about_one(squared_length: u64) -> bool
    requires { squared_length ≤ 3 * 2 ^ 62 }
    ensures { IsTrue result ↔ ((squared_length ≤ unit + tolerance) × (unit ≤ squared_length + tolerance)) }
{
    squared_length <= UNIT + TOLERANCE && UNIT <= squared_length + TOLERANCE
}

impl Row {
    /// Whether the pixel is one of order 29 and the vector is of unit length, up to rounding.
    pub fn is_good(&self) -> bool
        ensures { IsTrue result ↔ IsGood self.now }
    {
        let squared_length = squared(self.x) + squared(self.y) + squared(self.z);
        self.hp < pixels_of_order(29) && is_about_one(squared_length)
    }
}

/// How a row compares with another: by `hp`, then `id`, `x`, `y` and `z`. It is the order of `Row` itself.
pub fn compare_rows(a: &Row, b: &Row) -> Ordering
    ensures { result ≡ row_cmp a.now b.now }
{
    a.cmp(b)
}

/// Puts rows in ascending order, each as often as it was there. It takes no memory.
pub fn sort_rows(rows: &mut [Row])
    ensures { rows.new ≡ sorted_rows rows.old }
{
    rows.sort_unstable();
}

#[cfg(test)]
mod tests {
    use super::*;

    fn at(hp: u64, x: i32, y: i32, z: i32) -> Row {
        Row { hp, id: 1, x, y, z }
    }

    #[test]
    fn good_rows(rt: HostRuntime) {
        let cases = [
            (at(0, 1_000_000_000, 0, 0), true),
            (at(0, 1_000_000_001, 0, 0), true),
            (at(0, 1_000_000_002, 0, 0), false),
            (at(0, 999_999_998, 0, 0), true),
            (at(0, 999_999_997, 0, 0), false),
            (at(0, 600_000_000, 800_000_000, 0), true),
            (at(0, 0, -600_000_000, -800_000_000), true),
            (at(0, 0, 0, 0), false),
            (at(3_458_764_513_820_540_927, 0, 0, 1_000_000_000), true),
            (at(3_458_764_513_820_540_928, 0, 0, 1_000_000_000), false),
        ];
        for (row, good) in cases {
            assert_eq!(rt; row.is_good(), good, "{row:?}");
        }
    }

    #[test]
    fn order_goes_by_the_fields(rt: HostRuntime) {
        let rows = [
            at(0, 5, 9, 9),
            at(0, 6, 0, 9),
            at(0, 6, 1, 0),
            at(0, 6, 1, 1),
            at(1, 0, 0, 0),
        ];
        for i in 0..4 {
            assert_eq!(rt; compare_rows(&rows[i], &rows[i + 1]), Ordering::Less);
            assert_eq!(rt; compare_rows(&rows[i + 1], &rows[i]), Ordering::Greater);
        }
    }

    #[test]
    fn rows_are_sorted(rt: HostRuntime) {
        let (a, b, c) = (at(0, 6, 0, 9), at(0, 6, 1, 0), at(1, 0, 0, 0));
        let first = Row { id: -1, ..a };
        let mut rows = [c, b, a, first, b];
        sort_rows(&mut rows);
        assert_eq!(rt; rows, [first, a, b, b, c]);
        sort_rows(&mut []);
    }
}
