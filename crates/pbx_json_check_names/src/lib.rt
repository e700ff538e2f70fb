//! Whether the messages of a schema can all be carried to JSON and back: no key of a message's JSON has two meanings, and
//! each message of a well-known name has the shape of that name.
#![tactic(auto)]

mod clash;
mod names;
mod uses;

pub use names::first_fault;
