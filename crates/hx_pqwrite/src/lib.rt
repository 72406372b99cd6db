//! Rows as a Parquet file of REQUIRED INT64 columns.
//!
//! The bytes are exactly those that the definitions in `specs/` say, and they are read back as the rows.
#![tactic(auto)]

mod footer;
mod laws;
mod pages;
mod ranges;
mod writing;

pub use laws::{written_rows_read_back, written_tables_read_back};
pub use writing::write;

#[cfg(test)]
mod tests;
