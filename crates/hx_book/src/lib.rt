//! The book of an import: its tasks, their values, and the folders from which it can be taken up again.
#![tactic(auto)]

mod answers;
mod book;
mod closing;
mod files;
mod finding;
mod job;
mod laws;
mod listing;
mod opening;
mod progress;
mod room;
mod schedule;
mod slices;
mod sources;
#[cfg(test)]
mod tests;

pub use answers::{Back, Claim, Claimed, Closed, Kept, Receipt};
pub use book::Book;
pub use job::Job;
pub use laws::{
    files_tell_tasks, finished_is_catalogue, jobs_have_one_plan, records_tell_numbers,
    steps_are_resumable,
};
