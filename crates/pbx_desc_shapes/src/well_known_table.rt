use crate::well_known_place as place;
use Form::{Entries, Many, Member, One};
use pbx_content::Kind;
use pbx_content::Kind::{Bool, Bytes, Int32, Int64, Message, String, Uint32, Uint64};

/// How many values a field has, and whether it has presence.
#[derive(Clone, Copy)]
pub(crate) enum Form {
    /// One, which is written only where it is not its default.
    One,
    /// A list, one record for each value.
    Many,
    /// At most one, in the first oneof.
    Member,
    /// A map under keys that are texts.
    Entries,
}

/// A field: its number, its name, its key in canonical JSON, the kind of its values and how many
/// there are.
#[derive(Clone, Copy)]
pub(crate) struct FieldRow(
    pub u32,
    pub &'static str,
    pub &'static str,
    pub Kind,
    pub Form,
);

/// A message type: its full name and its fields by ascending number.
#[derive(Clone, Copy)]
pub(crate) struct TypeRow(pub &'static str, pub &'static [FieldRow]);

#[rattlefmt::skip]
const ANY_FIELDS: [FieldRow; 2] = [
    FieldRow(1, "type_url", "typeUrl", String, One),
    FieldRow(2, "value", "value", Bytes, One),
];

#[rattlefmt::skip]
const TIME_FIELDS: [FieldRow; 2] = [
    FieldRow(1, "seconds", "seconds", Int64, One),
    FieldRow(2, "nanos", "nanos", Int32, One),
];

#[rattlefmt::skip]
const FIELD_MASK_FIELDS: [FieldRow; 1] = [
    FieldRow(1, "paths", "paths", String, Many),
];

#[rattlefmt::skip]
const STRUCT_FIELDS: [FieldRow; 1] = [
    FieldRow(1, "fields", "fields", Message(place::VALUE), Entries),
];

#[rattlefmt::skip]
const STRUCT_ENTRY_FIELDS: [FieldRow; 2] = [
    FieldRow(1, "key", "key", String, One),
    FieldRow(2, "value", "value", Message(place::VALUE), One),
];

// `number_value` is a float, which no record holds.
#[rattlefmt::skip]
const VALUE_FIELDS: [FieldRow; 5] = [
    FieldRow(1, "null_value", "nullValue", Int32, Member),
    FieldRow(3, "string_value", "stringValue", String, Member),
    FieldRow(4, "bool_value", "boolValue", Bool, Member),
    FieldRow(5, "struct_value", "structValue", Message(place::STRUCT), Member),
    FieldRow(6, "list_value", "listValue", Message(place::LIST_VALUE), Member),
];

#[rattlefmt::skip]
const LIST_VALUE_FIELDS: [FieldRow; 1] = [
    FieldRow(1, "values", "values", Message(place::VALUE), Many),
];

#[rattlefmt::skip]
const INT64_FIELDS: [FieldRow; 1] = [
    FieldRow(1, "value", "value", Int64, One),
];

#[rattlefmt::skip]
const UINT64_FIELDS: [FieldRow; 1] = [
    FieldRow(1, "value", "value", Uint64, One),
];

#[rattlefmt::skip]
const INT32_FIELDS: [FieldRow; 1] = [
    FieldRow(1, "value", "value", Int32, One),
];

#[rattlefmt::skip]
const UINT32_FIELDS: [FieldRow; 1] = [
    FieldRow(1, "value", "value", Uint32, One),
];

#[rattlefmt::skip]
const BOOL_FIELDS: [FieldRow; 1] = [
    FieldRow(1, "value", "value", Bool, One),
];

#[rattlefmt::skip]
const STRING_FIELDS: [FieldRow; 1] = [
    FieldRow(1, "value", "value", String, One),
];

#[rattlefmt::skip]
const BYTES_FIELDS: [FieldRow; 1] = [
    FieldRow(1, "value", "value", Bytes, One),
];

/// The types, each at its place.
#[rattlefmt::skip]
pub(crate) const TYPES: [TypeRow; 16] = [
    TypeRow("google.protobuf.Any", &ANY_FIELDS),
    TypeRow("google.protobuf.Duration", &TIME_FIELDS),
    TypeRow("google.protobuf.Empty", &[]),
    TypeRow("google.protobuf.FieldMask", &FIELD_MASK_FIELDS),
    TypeRow("google.protobuf.Struct", &STRUCT_FIELDS),
    TypeRow("google.protobuf.Struct.FieldsEntry", &STRUCT_ENTRY_FIELDS),
    TypeRow("google.protobuf.Value", &VALUE_FIELDS),
    TypeRow("google.protobuf.ListValue", &LIST_VALUE_FIELDS),
    TypeRow("google.protobuf.Timestamp", &TIME_FIELDS),
    TypeRow("google.protobuf.Int64Value", &INT64_FIELDS),
    TypeRow("google.protobuf.UInt64Value", &UINT64_FIELDS),
    TypeRow("google.protobuf.Int32Value", &INT32_FIELDS),
    TypeRow("google.protobuf.UInt32Value", &UINT32_FIELDS),
    TypeRow("google.protobuf.BoolValue", &BOOL_FIELDS),
    TypeRow("google.protobuf.StringValue", &STRING_FIELDS),
    TypeRow("google.protobuf.BytesValue", &BYTES_FIELDS),
];
