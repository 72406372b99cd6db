//! The nearest of some rows to a row, within a radius, by a k-d tree.
#![tactic(auto)]

mod axis;
mod closest;
mod halves;
mod origin;
#[cfg(test)]
mod tests;
mod tree;
mod walk;

pub use tree::{Kd, Near};
