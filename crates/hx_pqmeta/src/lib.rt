//! The metadata of a Parquet file: its footer, and the headers of its pages.
//!
//! What is read, and which refusal comes first, is exactly what the definitions in `specs/` say; so are the bytes that are
//! written, and these read back.
#![tactic(auto)]

mod chunk;
mod enumerations;
mod file;
mod footer;
mod ids;
mod laws;
mod numbers;
mod page;
mod reading;
mod refusal;
mod row_group;
mod schema;
mod structs;
mod values;
mod writing;

pub use chunk::Chunk;
pub use enumerations::{
    DATA_PAGE, INT32_TYPE, INT64_TYPE, OPTIONAL, PLAIN_ENCODING, REQUIRED, RLE_ENCODING,
    UNCOMPRESSED,
};
pub use footer::{Footer, Group, Leaf};
pub use laws::{footers_are_framed, footers_read_back, page_headers_read_back};
pub use numbers::natural;
pub use page::{PageHead, read_page_header};
pub use reading::{MAGIC, read_footer};
pub use refusal::{PqRefusal, needed};
pub use writing::{write_footer, write_page_header};

#[cfg(test)]
mod tests;
