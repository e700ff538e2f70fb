//! Reads the content that a JSON tree stands for, as a message of a type, with the first fault (ProtoJSON Format): values of one part and
//! keys of maps; messages of well-known types; and messages, lists, maps and payloads inside one another.
#![tactic(auto)]

mod defaults;
mod entries;
mod fault;
mod forms;
mod holders;
mod integers;
mod keys;
mod opened;
mod payload;
mod read;
mod reading;
mod scalars;
mod state;
mod steps;
mod told;

pub(crate) use defaults::unless_field_default;
pub(crate) use entries::MapEntries;
pub(crate) use fault::{at_key, at_tree, below_index, below_key};
pub(crate) use forms::{read_own, skips_keys};
pub(crate) use holders::{Holder, Outer, Own, Packing, hold};
pub(crate) use keys::read_key;
pub(crate) use payload::{is_type_key, is_value_key, pack, payload_found};
pub use read::{read_content, read_content_by};
pub(crate) use scalars::read_scalar;
pub(crate) use state::{ObjectState, contents_with};
pub(crate) use steps::{add_entry, add_value, map_held, note_at};
