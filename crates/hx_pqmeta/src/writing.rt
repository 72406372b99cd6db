//! The header of a data page and the footer, written by the fields that the definitions in `specs/` list.
mod chunk;
mod fields;
mod footer;
mod page;
mod schema;

pub use footer::write_footer;
pub use page::write_page_header;

#[cfg(test)]
mod tests;
