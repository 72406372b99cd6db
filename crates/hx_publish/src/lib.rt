//! Files that are published whole or not at all, and read whole.
#![tactic(auto)]

mod publishing;
mod reading;
#[cfg(test)]
mod tests;

pub use publishing::publish;
pub use reading::{read_file, read_range};
