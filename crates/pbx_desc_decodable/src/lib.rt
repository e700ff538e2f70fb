//! Sets of which each file can be read again, options included, and the first file that cannot: whether bytes mean something as a
//! message of `descriptor.proto`, told without making its content.
#![tactic(auto)]

mod bytes;
mod fields;
mod numbers;
mod rows;
mod set;
mod shape;
mod table;

pub use set::{encode_decodable, first_undecodable, is_decodable};
pub(crate) use shape::{FILE_SET, options_schema};
