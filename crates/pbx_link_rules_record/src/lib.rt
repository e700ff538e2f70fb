//! The rules on the records of a file that need no other file, but for those on fields: on its syntax and names, on enums, on options,
//! on ranges and on the entries of maps. Each is a search for a place at which it is broken.
#![tactic(auto)]

mod entries;
mod enums;
mod file_rules;
mod number_set;
mod options;
mod places;
mod range_rules;
mod ranges;
mod spans;
mod uninterpreted;

pub use entries::bad_entries;
pub use enums::bad_enums;
pub use file_rules::{bad_names, unknown_syntax};
pub use options::message_sets;
pub use range_rules::bad_ranges;
pub use uninterpreted::uninterpreted_options;
