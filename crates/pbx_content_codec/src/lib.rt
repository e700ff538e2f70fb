//! Contents of messages as trees: read from bytes, merged, and written in their one canonical encoding.
//!
//! What contents are, what bytes mean and what is written is defined in `pbx_content`, apart from this code.
#![tactic(auto)]

mod contents;
mod copying;
mod decoding;
mod defaults;
mod encoding;
mod fields;
mod key;
mod levels;
mod merging;
mod numeral;
mod order;
mod pairs;
mod scalars;
mod stabilizing;
mod values;
mod writing;

pub use contents::{Contents, Held, Pair};
pub use decoding::{decode, decode_parts, decode_within, merge};
pub use defaults::{first_value, is_default, kind_default, unless_default};
pub use encoding::content_records;
pub use key::MapKey;
pub use levels::depth;
pub use pairs::{are_in_order, put_pair};
pub use writing::encode;
