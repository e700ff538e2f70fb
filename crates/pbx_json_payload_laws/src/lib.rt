//! What holds of bytes inside bytes: they are shorter, more levels read them alike, and what is encoded reads as itself. And of payloads
//! of `google.protobuf.Any` in JSON: a payload is written as the content that its bytes mean, and is read again where that content's
//! payloads are. The laws are the contracts of functions that do nothing.
#![tactic(auto)]

mod laws;
mod payload_laws;

pub use laws::{fits_by_content, payloads_by_content};
pub use payload_laws::{encoded_is_read, meaning_shrinks, more_levels};
