//! The row that a search starts from.
ghost use Rattle.std.specs.Prelude.{◌≡◌};
ghost use Rattle.hx_kd.specs.Axes.{coordinate, coordinates, index_of};

use crate::axis::Axis;
use hx_base::Row;

/// A row, with its coordinates by the number of the axis: so a search reads one without asking which axis it is.
#[derive(Clone, Copy, Debug)]
pub struct Origin {
    pub row: Row,
    at: [i32; 3],
    ghost same: { at ≡ coordinates row },
}

impl Origin {
    pub fn new(row: &Row) -> Origin
        ensures { result.row ≡ row.now }
    {
        Origin {
            row: *row,
            at: [row.x, row.y, row.z],
        }
    }

    /// The row's coordinate on an axis.
    pub fn on(&self, axis: Axis) -> i32
        ensures { result ≡ coordinate axis self.now.row }
    {
        self.at[axis.index()]
    }
}
