//! The real things: files as sources, a folder as a store, and streams as sinks. They tell nothing of what they hold.
#![tactic(auto)]

mod file_source;
mod folder_store;
mod folders;
mod known;
mod lasting;
mod names;
mod out_sink;
mod system;
mod whole_files;
mod writing;

pub use file_source::FileSource;
pub use folder_store::FolderStore;
pub use out_sink::OutSink;
