//! The record that linking makes of the record of a file: names are exact, fields have the types of their names and JSON names, and each
//! record is as its own encoding gives it back.
#![tactic(auto)]

mod copying;
mod fields;
mod files;
mod json_names;
mod laws;
mod messages;
mod references;
mod services;
mod settling;
mod unknown;

pub use files::linked_without_source_code_info;
pub use laws::linked_is_alike;
pub use settling::settled_source_code_info;
