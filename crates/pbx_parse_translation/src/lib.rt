//! From the syntax tree of a file to its descriptor record.
#![tactic(auto)]

mod enums;
mod fields;
mod file;
mod laws;
mod messages;
mod passes;
mod scope;
mod services;
mod settings;
mod synthetic;
mod texts;

pub use file::translate;
pub use laws::{indexes_name_own_oneofs, synthetic_names_are_free};
