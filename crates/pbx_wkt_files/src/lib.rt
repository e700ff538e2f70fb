//! The built-in files: the descriptor records of the schema files that come with Protocol Buffers, as
//! `google/protobuf/any.proto`.
#![tactic(auto)]

mod enums;
mod fields;
mod files;
mod messages;
mod options;
mod row;
mod rows;
mod table;

pub use files::{file_count, wkt_file, wkt_file_at};
