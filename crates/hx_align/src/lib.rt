//! Alignment: the partitions of a catalogue, from a histogram of its rows.
#![tactic(auto)]

mod aligning;
mod descent;
mod laws;
mod plan;
mod refusal;
#[cfg(test)]
mod tests;

pub use aligning::align;
pub use laws::alignments_have_one_answer;
pub use plan::{Plan, PlanRow};
pub use refusal::AlignRefusal;
