//! The world outside as traits: sources of bytes, a store of files, and a sink. Each counts its faults, and its count
//! never falls. An object may tell what it holds, and the clauses on content speak of those that do. A store that
//! tells also tells what a crash may leave.
#![tactic(auto)]

mod gate;
mod laws;
mod sink;
mod source;
mod store;

pub use gate::{Gate, NoGate};
pub use laws::{one_file_twice, stable_files_stay, unchanged_twice};
pub use sink::Sink;
pub use source::{Failed, Source};
pub use store::{Store, StoreError};
