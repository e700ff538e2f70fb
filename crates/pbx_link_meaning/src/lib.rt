//! What descriptors stand for, parts of the linked records of a pool, and the shape of a pool's types with what holds of it.
#![tactic(auto)]

mod laws;

pub use laws::{keys_are_valid, numbers_are_distinct, numbers_are_valid, shape_is_proper};
