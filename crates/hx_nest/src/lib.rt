//! HEALPix's nested pixels: where they stand on their faces, their parents and children, and which touch.
#![tactic(auto)]

mod around;
mod bits;
mod laws;
mod order;
mod side;
mod spot;
mod step;
#[cfg(test)]
mod tests;
mod touching;

pub use around::Around;
pub use laws::{
    ancestors_of_touching, corners_of_faces, parents_of_touching, spots_of_pixels,
    touching_is_decided, touching_is_symmetric,
};
pub use order::{at_order, first_child, parent};
pub use spot::{FaceXy, join_xy, split};
pub use touching::{neighbours, touch};
