//! What the canonical JSON mapping says of messages (ProtoJSON Format): which content
//! a tree stands for, which rule a tree breaks and where, and the tree that is written for a content.
//! Definitions with laws, and the types and options that they speak of.
#![tactic(auto)]

mod error;
mod kind;
mod laws;
mod names_fault;
mod options;
mod place;

pub use error::JsonError;
pub use kind::JsonKind;
pub use laws::{
    canonical_is_plain, first_fault_at_key, first_fault_below, first_fault_here,
    first_fault_is_one_place, read_when_allowed, stands_for_one,
};
pub use names_fault::NameFault;
pub use options::{DeserializeOptions, SerializeOptions};
pub use place::{Place, Step};
