//! Contents of messages written as JSON trees by the canonical mapping (ProtoJSON Format): values of one part and keys of maps; members of
//! objects with their defaults; messages of well-known types; and messages, lists, maps and payloads inside one another.
//!
//! Which tree is written, and which rule a content breaks, is defined in `pbx_json_meaning`, apart from this code.
#![tactic(auto)]

mod any;
mod defaults;
mod enums;
mod fields;
mod forms;
mod indexes;
mod members;
mod refusal;
mod scalars;
mod writing;

pub(crate) use defaults::with_defaults;
pub(crate) use fields::{field_numbered, keeps_no_float, key_of_field, message_type};
pub(crate) use forms::{is_passed_form, number_of_value, own_tree};
pub use indexes::Indexes;
pub(crate) use members::{add_item, add_member, put};
pub(crate) use refusal::Refusal;
pub(crate) use scalars::{key_text, scalar_tree, string_tree, zero_tree};
pub use writing::{write_content, write_content_by};
