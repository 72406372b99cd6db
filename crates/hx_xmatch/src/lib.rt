//! The cross-match of two catalogues: each left row's nearest right row of the whole sky within a radius.
#![tactic(auto)]

mod coverage;
mod fields;
mod files;
mod laws;
mod lines;
mod matching;
mod output;
mod pieces;
mod query;
mod runs;
#[cfg(test)]
mod tests;
mod writing;

pub use laws::{finished_catalogues_are_matched, match_of_what_is_read, matches_are_nearest};
pub use matching::match_one;
pub use query::{Matched, Query};
