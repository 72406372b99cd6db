//! Which faces meet at the sides and vertices of a face.
ghost use Rattle.std.specs.Prelude.{◌≡◌};
ghost use Rattle.hx_nest.specs.Sides.{faces_beyond};

/// A side or a vertex of a face, by its direction from the face's middle.
#[derive(Clone, Copy, Debug, PartialEq, Eq)]
pub enum Side {
    South,
    SouthEast,
    East,
    SouthWest,
    NorthEast,
    West,
    NorthWest,
    North,
}

/// Stands in the table where no face meets a vertex but those beyond the sides.
pub const NONE: u8 = 12;

impl Side {
    /// The faces beyond this side or vertex of each face.
    pub fn faces_beyond(self) -> [u8; 12]
        ensures { result ≡ faces_beyond self }
    {
        match self {
            Side::South => [8, 9, 10, 11, NONE, NONE, NONE, NONE, 10, 11, 8, 9],
            Side::SouthEast => [5, 6, 7, 4, 8, 9, 10, 11, 9, 10, 11, 8],
            Side::East => [NONE, NONE, NONE, NONE, 5, 6, 7, 4, NONE, NONE, NONE, NONE],
            Side::SouthWest => [4, 5, 6, 7, 11, 8, 9, 10, 11, 8, 9, 10],
            Side::NorthEast => [1, 2, 3, 0, 0, 1, 2, 3, 5, 6, 7, 4],
            Side::West => [NONE, NONE, NONE, NONE, 7, 4, 5, 6, NONE, NONE, NONE, NONE],
            Side::NorthWest => [3, 0, 1, 2, 3, 0, 1, 2, 4, 5, 6, 7],
            Side::North => [2, 3, 0, 1, NONE, NONE, NONE, NONE, 0, 1, 2, 3],
        }
    }
}
