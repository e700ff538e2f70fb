//! What rules and linking look at, the content of a record alone; that a linked record is linked to itself; and what the bytes of a
//! pool's set are read back as. Laws that no code calls: they are the contracts of functions that do nothing.
#![tactic(auto)]

mod content_laws;
mod same_laws;
mod set_laws;

pub use content_laws::{contents_decide, linking_ends};
pub use same_laws::{alike_are_linked, settled_is_content};
pub use set_laws::sets_are_read_back;
