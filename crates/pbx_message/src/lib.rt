//! Messages of a pool: dynamic messages, and the trait `ReflectMessage` for values whose message types stand in a pool, as descriptor
//! records, records of well-known types and scalars as their wrappers.
#![tactic(auto)]

mod descriptors;
mod error;
mod holders;
mod laws;
mod reflect;
mod scalars;
mod types;

pub use error::ReflectError;
pub use laws::{
    dynamic_messages_have_own_type, enum_records_have_names, file_records_have_names,
    scalars_have_names, well_known_records_have_names,
};
pub use pbx_message_dynamic::{
    DynamicMessage, KeyMap, MapKey, SetFieldError, UnknownField, Value, ValueMap,
};
pub use reflect::ReflectMessage;
