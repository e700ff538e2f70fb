//! Single values as messages: `()` as `google.protobuf.Empty`, and a number, a truth value, a text or bytes as the wrapper
//! of their kind.
#![tactic(auto)]

mod reading;
mod values;
mod writing;

pub use reading::{type_contents, wrapped_value};
pub use values::{i32_in, i64_in, octets_in, string_in, truth_in, u32_in, u64_in};
pub use writing::{contents_bytes, wrapper_bytes};
