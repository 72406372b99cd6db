//! Sources, sinks and stores in memory, for tests. They tell all that they hold, and fail at the calls that a test
//! names. Calls are numbered from 0. A store can be stopped and started again as a crash may leave it.
#![tactic(auto)]

mod bytes;
mod calls;
mod change;
mod content;
mod crash;
mod dice;
mod files;
mod laws;
mod sink;
mod source;
mod store;
#[cfg(test)]
mod tests;
mod turns;

pub use laws::images_are_exact;
pub use sink::MemSink;
pub use source::MemSource;
pub use store::MemStore;
pub use turns::TurnGate;
