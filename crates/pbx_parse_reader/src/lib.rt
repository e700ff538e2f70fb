//! The syntax tree of a source file, read from its tokens.
#![tactic(auto)]

mod blocks;
mod cursor;
mod enums;
mod error;
mod fields;
mod many;
mod messages;
mod parts;
mod ranges;
mod reading;
mod services;
mod tops;
mod words;

pub use error::ReadError;
pub use reading::read_file;
