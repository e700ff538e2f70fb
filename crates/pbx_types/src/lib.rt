//! The records of well-known types, and their wire bytes, as the files of `google/protobuf` declare them. Each is made into the
//! content of a message field by field, and taken out of one.
#![tactic(auto)]

mod any;
mod contents;
mod copying;
mod decoding;
mod elements;
mod encoding;
mod laws;
mod mask;
mod record_decoding;
mod record_encoding;
mod taking;
mod text_map;
mod time;
mod tree;

pub use any::{Any, Empty};
pub(crate) use contents::{
    HasContents, kept_contents, put_int32, put_int64, put_list, put_octets, put_pairs, put_text,
    text_values,
};
pub(crate) use elements::{message_of, text_list};
pub use laws::contents_fix_records;
pub use mask::FieldMask;
pub use pbx_desc::DecodeMessage;
pub use pbx_desc_encoding::Message;
pub use pbx_desc_shapes::types_shape;
pub(crate) use record_decoding::record_from_bytes;
pub(crate) use record_encoding::record_bytes;
pub(crate) use taking::{
    FromContents, kept_records, take_int32, take_int64, take_octets, take_pairs, take_text,
    take_truth, take_values,
};
pub use text_map::TextMap;
pub use time::{Duration, Timestamp};
pub use tree::{ListValue, Struct, Value};
