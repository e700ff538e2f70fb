//! What a reader of JSON trees answers, one key and one element after another (ProtoJSON Format), and the laws that say what its answers
//! are. The reader is a crate of its own.
#![tactic(auto)]

mod laws;

pub use laws::{fault_is_first, message_is_told};
