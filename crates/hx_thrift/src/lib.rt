//! Apache Thrift's compact protocol, read from a slice of bytes without taking memory, and written.
//!
//! `Reader` reads items one by one and passes over values; each call gives exactly what the definitions in `specs/`
//! read, or their first refusal with its place. `Writer` writes items one by one; each call adds exactly the shortest
//! bytes that spell its item.
#![tactic(auto)]

mod header;
pub mod kind;
mod laws;
mod reader;
mod refusal;
mod writer;

pub use header::{Field, ListHead};
pub use laws::{reading_is_spelling, writing_is_spelling};
pub use reader::Reader;
pub use refusal::ThriftRefusal;
pub use writer::Writer;

#[cfg(test)]
mod tests;
#[cfg(test)]
mod writer_tests;
