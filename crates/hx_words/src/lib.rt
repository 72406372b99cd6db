//! What the words of a command line mean.
//!
//! The form of each command, its options and its ranges stand in `specs/Words` and `specs/Options`.
#![tactic(auto)]

mod laws;
mod names;
mod number;
mod options;
mod request;

pub use laws::words_have_one_meaning;
pub use names::input_names;
pub use request::{Action, Request, request_of};

#[cfg(test)]
mod tests;
