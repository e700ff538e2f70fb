//! Whether a message nests no deeper than is read, and the payloads of its `google.protobuf.Any` messages are read again.
#![tactic(auto)]

mod types;
mod walk;

pub use walk::{fits, fits_by};
