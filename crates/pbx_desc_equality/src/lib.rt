//! Whether descriptor records are equal, in depth: all that they hold, options, unknown records and places in the source among it.
#![tactic(auto)]

mod enumeration;
mod equals;
mod field;
mod file;
mod message;
mod recs;
mod service;
mod source;

pub use equals::Equals;
