//! The inputs of a job, over their sources: whether they keep to the limits, their bytes, their rows, and the
//! counts of their rows.
#![tactic(auto)]

mod counting;
mod input;
mod inputs;
#[cfg(test)]
mod tests;

pub use counting::{count_input, count_inputs};
pub use input::{read_all, read_input};
pub use inputs::check_inputs;
