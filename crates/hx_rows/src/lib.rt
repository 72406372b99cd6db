//! Reads an input's bytes as rows, or finds its first fault.
#![tactic(auto)]

mod digits;
mod fault;
mod fields;
mod header;
mod laws;
mod number;
mod parquet;
mod plain;
mod read;
mod record;
mod rows;
mod table;
#[cfg(test)]
mod tests;

pub use fault::Fault;
pub use laws::rows_of_their_columns;
pub use parquet::{parquet_rows, rows_in_parquet, rows_of_columns};
pub use read::{RowRefusal, read_rows};
