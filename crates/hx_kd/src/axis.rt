//! The three axes of space.
ghost use Rattle.std.specs.Prelude.{◌≡◌, ◌<◌};
ghost use Rattle.hx_kd.specs.Axes.{coordinate, index_of};

use hx_base::Row;

#[derive(Clone, Copy, Debug, PartialEq, Eq)]
pub enum Axis {
    X,
    Y,
    Z,
}

impl Axis {
    /// The axis's number.
    pub fn index(self) -> usize
        ensures number { result ≡ index_of self }
        ensures bound { result < 3 }
    {
        match self {
            Axis::X => 0,
            Axis::Y => 1,
            Axis::Z => 2,
        }
    }

    /// A row's coordinate on this axis.
    pub fn of(self, row: &Row) -> i32
        ensures { result ≡ coordinate self row.now }
    {
        match self {
            Axis::X => row.x,
            Axis::Y => row.y,
            Axis::Z => row.z,
        }
    }
}
