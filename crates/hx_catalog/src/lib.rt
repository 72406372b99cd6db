//! A catalogue in the HATS layout: its texts both ways, the list of its partitions, `partition_info.csv`, and its
//! properties, `hats.properties`; and the catalogue that is opened by them, whose partitions and margins are loaded.
#![tactic(auto)]

mod fields;
mod files;
mod finished;
mod fronts;
mod laws;
mod lists;
mod loading;
mod opening;
mod parquet;
mod properties;
mod refused;
mod writing;

pub use finished::{
    answers_are_one, catalogues_are_cut, catalogues_are_finished, catalogues_are_read,
    finished_catalogues_keep_sentences,
};
pub use laws::{lines_that_break_no_rule, lists_have_one_reading, properties_have_one_reading};
pub use lists::{list_text, read_list};
pub use opening::{Catalogue, open_catalogue};
pub use parquet::{ascend, damaged_at};
pub use properties::{Properties, properties_text, read_properties};

#[cfg(test)]
mod tests;
