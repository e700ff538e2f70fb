//! From the text of a source file to its descriptor record.
#![tactic(auto)]

mod error;
mod found;
mod reading;
mod refusal;

pub use error::ParseError;
pub use reading::{at_most_one, parse};
