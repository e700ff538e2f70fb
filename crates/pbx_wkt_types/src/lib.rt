//! The well-known types of Protocol Buffers: the message types that JSON has a form of its own for.
#![tactic(auto)]

ghost use Rattle.std.specs.Prelude.{◌≡◌};
ghost use Rattle.pbx_wkt_types.specs.Names.{is_well_known};

mod form;
mod place;
mod row;
mod shape;
mod table;

pub use form::Form;
pub use row::has_member_presence;
pub use shape::{form_of, known_of, struct_entry, type_has_shape};
pub use table::{FieldRow, STRUCT_ENTRY_NAME, Sort, TypeRow};

/// Whether a full name, without a leading dot, is that of one of the seventeen message types in
/// `google.protobuf` that JSON has a form of its own for.
#[tactic(auto, unfolding(crate::specs::Names::is_well_known))]
pub fn is_well_known_type(full_name: &str) -> bool
    ensures { result ≡ is_well_known full_name.now }
{
    matches!(
        full_name,
        "google.protobuf.Any"
            | "google.protobuf.Timestamp"
            | "google.protobuf.Duration"
            | "google.protobuf.Struct"
            | "google.protobuf.FloatValue"
            | "google.protobuf.DoubleValue"
            | "google.protobuf.Int32Value"
            | "google.protobuf.Int64Value"
            | "google.protobuf.UInt32Value"
            | "google.protobuf.UInt64Value"
            | "google.protobuf.BoolValue"
            | "google.protobuf.StringValue"
            | "google.protobuf.BytesValue"
            | "google.protobuf.FieldMask"
            | "google.protobuf.ListValue"
            | "google.protobuf.Value"
            | "google.protobuf.Empty"
    )
}
