//! The parts of descriptor records with their full names and places, and all that a file defines; and why a file is not linked.
#![tactic(auto)]

mod absent;
mod definitions;
mod error;
mod file_parts;
mod laws;
mod named;
mod names;
mod numbers;
mod parts;
mod ranges;

pub use absent::{is_named, number_or_zero, text_or_empty};
pub use definitions::{Definition, Sort};
pub use error::DescriptorError;
pub use file_parts::FileParts;
pub use laws::nested_are_told;
pub use named::Named;
pub use names::is_ident;
pub use numbers::is_field_number;
pub use parts::{Part, PartRef, name_in, place_at, place_copy, place_in, place_in_item};
pub use ranges::NumberRanges;
