//! The margins of partitions: the rows that others contain and that lie next to one.
//!
//! A margin split places the rows of a partition at the partitions whose margins have them. A margin reduce gathers a
//! partition's margin from the splits of the partitions around it.
#![tactic(auto)]

mod collecting;
mod edges;
mod finding;
mod laws;
mod reducing;
mod splitting;
#[cfg(test)]
mod tests;

pub use collecting::parts_around;
pub use laws::{
    inner_pixels, margins_by_holders, margins_of_rows, margins_reach, margins_whole,
    rows_of_a_partition,
};
pub use reducing::margin_reduce;
pub use splitting::margin_split;
