//! The rules on the fields of a file taken alone: numbers, reserved names, types, oneofs and labels.
#![tactic(auto)]

mod labels;
mod numbers;
mod oneofs;
mod places;
mod types;

pub use labels::bad_labels;
pub use numbers::bad_field_numbers;
pub use oneofs::bad_oneofs;
pub use types::bad_types;
