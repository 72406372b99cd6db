//! Imports of sky catalogues: what each task makes, an import by one worker, and its work files removed.
#![tactic(auto)]

mod carrying;
mod cleaning;
mod making;
mod serial;
mod summing;
mod tasks;

pub use cleaning::clean;
pub use serial::import_one;
pub use tasks::{
    Cut, add_counts, add_margin_slice, add_slice, counts_in, list_file, map_file, margin_file,
    margin_properties_file, margin_split_file, numbers_around, part_of, plan_file, properties_file,
    read_cut, reduce_file, split_file,
};

#[cfg(test)]
mod tests;
