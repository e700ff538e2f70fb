//! Why files are not found, not read or not taken, and the lines that say so.
#![tactic(auto)]

mod error;
mod lines;

pub use error::{Error, ErrorKind};
