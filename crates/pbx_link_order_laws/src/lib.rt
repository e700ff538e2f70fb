//! Linking is free of the order of files. Laws that no code calls: they are the contracts of functions that do nothing.
#![tactic(auto)]

mod order_laws;

pub use order_laws::{order_is_free, parts_link_alike};
