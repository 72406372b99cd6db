//! What `hats` does, from the words of the command line to the text that it prints.
#![tactic(auto)]

mod commands;
mod folder_lines;
mod folders;
mod lines;
mod names;
mod neighbours;
mod planning;
mod run;
#[cfg(test)]
mod tests;
mod texts;

pub use hx_words::input_names;
pub use run::{Ran, run_plain};
pub use texts::text_of;
