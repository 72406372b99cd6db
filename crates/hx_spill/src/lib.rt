//! Work files: the bytes in which the tasks of an import leave histograms, plans and rows for one another.
#![tactic(auto)]

mod items;
mod laws;
mod map;
mod plan;
mod split;
#[cfg(test)]
mod tests;
mod writing;

pub use laws::{
    alignments_are_of_rows, counts_of_inputs, heads_tell_slices, slices_are_read_alone,
    slices_of_inputs, values_are_one,
};
pub use map::{map_bytes, read_map, rows_in_map};
pub use plan::{plan_bytes, read_plan};
pub use split::{
    Placed, SlicePlace, find_slice, head_width, rows_in_split, rows_of_slice, slice_of, split_bytes,
};
