//! The record of a file with its parts by index: messages, enums, extensions and services, and their full names, found without memory.
#![tactic(auto)]

mod entry;
mod table;
mod walk;

pub use entry::{Entries, file_entries};
pub use table::FileTable;
