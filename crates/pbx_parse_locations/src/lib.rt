//! Where the parts of a source file stand, from its tokens and its syntax tree.
#![tactic(auto)]

mod block;
mod count;
mod enumeration;
mod field;
mod file;
mod message;
mod place;
mod service;
mod tag;

pub use file::{Extent, file_extent, locations, locations_ascend};
