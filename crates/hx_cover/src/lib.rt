//! Coverage: whether the search for each left row reads all right rows within the radius.
//!
//! The right catalogue's margin order is `m`; its cover order is `m + 2`. A search reads the partition of a left row and its
//! margin. So two pixels of the cover order that are not near, but whose rows may lie within the radius, are looked for.
#![tactic(auto)]

mod bounds;
mod collecting;
mod laws;
mod nearness;
#[cfg(test)]
mod tests;
mod trees;

pub use bounds::{CoverBox, TooNear, gap2};
pub use collecting::{add_boxes, boxes};
pub use laws::{boxes_of_parts, boxes_of_pixels, coverage, first_pairs, gaps_of_boxes};
pub use nearness::first_too_near;
pub use trees::CoverTree;
