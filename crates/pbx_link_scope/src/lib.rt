//! What a file sees of a pool, and what the names in it are bound to, over look-ups of full names; and the files of a pool as such
//! look-ups.
#![tactic(auto)]

mod binding;
mod pooled;
mod types;
mod visible;

pub use binding::{bound, bound_if, extendee_of, type_of};
pub use pooled::Pooled;
pub use types::{Bound, is_message};
pub use visible::Visible;
