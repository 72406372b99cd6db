//! The words that all of `hats` shares: rows and their order, pixels of the nested scheme, partitions, names
//! and words that name a file, an import's settings, tasks and files, and the refusals with their exit statuses.
#![tactic(auto)]

mod chord;
mod columns;
mod file_word;
mod laws;
mod limits;
mod name;
mod nearest;
mod paths;
mod pixel;
mod pixels;
mod refusal;
mod row;
mod settings;
mod task;

pub use chord::chord2;
pub use columns::{Column, RowFault, column_names, row_of, rows_of_values};
pub use file_word::{FileWord, is_csv_name, is_file_word, is_parquet_name};
pub use laws::{
    order_of_rows, partitions_of_rows, ranges_of_pixels, rows_in_a_pixel, sorted_rows_of_lists,
};
pub use limits::{
    HIGHEST_MARGIN_ORDER, HIGHEST_ORDER, MOST_BYTES, MOST_IN_PARTITION, MOST_INPUTS,
    MOST_PARTITIONS, MOST_ROWS,
};
pub use name::{Name, is_name};
pub use nearest::{nearest_rows, order_of_matches};
pub use paths::job_path;
pub use pixel::{Pixel, pixels_of_order};
pub use pixels::are_disjoint_in_order;
pub use refusal::{JobFile, Refusal, SpillRefusal};
pub use row::{Row, compare_rows, sort_rows};
pub use settings::Settings;
pub use task::Task;
