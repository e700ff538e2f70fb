//! What a schema says that JSON trees are read and written by: the fields of message types by their names, the values of enums and the
//! message types that URLs name, found by log n comparisons; kinds of fields; and payloads of `google.protobuf.Any`.
#![tactic(auto)]

mod any;
mod enum_names;
mod enums;
mod field_names;
mod items;
mod kinds;
mod name_places;
mod schema_names;
mod type_forms;
mod type_names;

pub use any::{payload_bytes, type_url};
pub use enums::{first_value, is_null_value};
pub(crate) use field_names::FieldNames;
pub use kinds::{has_presence, is_float, is_object_form, kind_at};
pub use schema_names::SchemaNames;
pub use type_names::TypeNames;
