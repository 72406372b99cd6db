//! The journal of an import: which of its tasks are done. A record counts from the moment that its gate is open on the
//! disk, so that a crash leaves the records before, or these and the new one.
#![tactic(auto)]

mod creating;
mod difference;
mod fronts;
mod header;
mod heading;
mod laws;
mod noting;
mod opening;
mod record;
mod recording;
mod refusal;
#[cfg(test)]
mod tests;

pub use creating::create;
pub use difference::{Difference, header_difference};
pub use header::header_text;
pub use laws::{
    a_file_is_one_journal, a_header_names_one_job, a_journal_opens_as_it_stands, a_journal_rests,
    damage_is_exact, no_header_begins_another,
};
pub use noting::Journal;
pub use opening::open;
pub use record::Record;
pub use recording::record_task;
pub use refusal::JournalRefusal;
