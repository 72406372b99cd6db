//! Histograms: how many rows each pixel of an order contains.
#![tactic(auto)]

mod counting;
mod hist;
mod laws;
#[cfg(test)]
mod samples;
mod tally;

pub use counting::count_rows;
pub use hist::{Difference, Hist, Pair};
pub use laws::histograms_are_counts;
pub use tally::Tally;
