//! The shapes of the descriptor records, as `google/protobuf/descriptor.proto` declares their types, and of the records of
//! well-known types and wrappers: a table of types and fields each.
#![tactic(auto)]

pub mod descriptor_place;
mod descriptor_table;
mod descriptors;
mod well_known;
pub mod well_known_place;
mod well_known_table;

pub use descriptors::descriptor_shape;
pub use well_known::types_shape;
