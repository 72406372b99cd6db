//! The list of partitions as a search: the partition that holds a position, those that overlap a pixel, and those that
//! overlap each partition of another list.
#![tactic(auto)]

mod laws;
mod search;
#[cfg(test)]
mod tests;
mod tree;
mod walk;

pub use laws::overlaps_are_consecutive;
pub use tree::{PixelTree, Span};
pub use walk::{Piece, pieces};
