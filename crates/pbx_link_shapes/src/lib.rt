//! The shape of the types of a pool: what its linked records say of the meaning of bytes and of JSON.
#![tactic(auto)]

mod enums;
mod extensions;
mod fields;
mod kinds;
mod messages;
mod records;
mod shaped;
mod shapes;
mod starts;
mod type_names;
mod types;

pub use shaped::ShapedPool;
pub use shapes::{message_place, shape_of};
pub use type_names::number_named;
