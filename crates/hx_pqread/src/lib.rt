//! The columns of a Parquet file, as lists of numbers.
//!
//! What is read, and which refusal comes first, is exactly what the definitions in `specs/` say.
#![tactic(auto)]

mod chunk;
mod column;
mod file;
mod kept;
mod laws;
mod layout;
mod leaf;
mod levels;
mod lists;
mod numbers;
mod page;
mod rows;

pub use file::columns;
pub use laws::reading_is_standing;
pub use lists::Columns;
pub use rows::rows_in_footer;

#[cfg(test)]
mod tests;
