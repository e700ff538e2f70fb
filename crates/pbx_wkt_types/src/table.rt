// The message types that JSON has a form of its own for, one line a field.
use crate::form::Form;
use Sort::{Enum, Message, Scalar};
use pbx_content::Cardinality::{self, Map, Repeated, Singular};
use pbx_content::Kind::{self, Bool, Bytes, Double, Float, Int32, Int64, String, Uint32, Uint64};

/// What one value of a field is.
#[derive(Clone, Copy)]
pub enum Sort {
    /// A scalar.
    Scalar(Kind),
    /// A message, by its type's full name.
    Message(&'static str),
    /// An enum, by its full name.
    Enum(&'static str),
}

/// A field: its number, its name, its key in canonical JSON, what one value is, how many there are,
/// and the oneof that it is a member of.
#[derive(Clone, Copy)]
pub struct FieldRow(
    pub u32,
    pub &'static str,
    pub &'static str,
    pub Sort,
    pub Cardinality,
    pub Option<u32>,
);

/// A message type: its full name, its form and its fields.
#[derive(Clone, Copy)]
pub struct TypeRow(pub &'static str, pub Form, pub &'static [FieldRow]);

#[rattlefmt::skip]
const ANY: [FieldRow; 2] = [
    FieldRow(1, "type_url", "typeUrl", Scalar(String), Singular, None),
    FieldRow(2, "value", "value", Scalar(Bytes), Singular, None),
];

#[rattlefmt::skip]
const TIME: [FieldRow; 2] = [
    FieldRow(1, "seconds", "seconds", Scalar(Int64), Singular, None),
    FieldRow(2, "nanos", "nanos", Scalar(Int32), Singular, None),
];

#[rattlefmt::skip]
const STRUCT: [FieldRow; 1] = [
    FieldRow(1, "fields", "fields", Message("google.protobuf.Value"), Map(String), None),
];

#[rattlefmt::skip]
const FLOAT: [FieldRow; 1] = [
    FieldRow(1, "value", "value", Scalar(Float), Singular, None),
];

#[rattlefmt::skip]
const DOUBLE: [FieldRow; 1] = [
    FieldRow(1, "value", "value", Scalar(Double), Singular, None),
];

#[rattlefmt::skip]
const INT32: [FieldRow; 1] = [
    FieldRow(1, "value", "value", Scalar(Int32), Singular, None),
];

#[rattlefmt::skip]
const INT64: [FieldRow; 1] = [
    FieldRow(1, "value", "value", Scalar(Int64), Singular, None),
];

#[rattlefmt::skip]
const UINT32: [FieldRow; 1] = [
    FieldRow(1, "value", "value", Scalar(Uint32), Singular, None),
];

#[rattlefmt::skip]
const UINT64: [FieldRow; 1] = [
    FieldRow(1, "value", "value", Scalar(Uint64), Singular, None),
];

#[rattlefmt::skip]
const BOOL: [FieldRow; 1] = [
    FieldRow(1, "value", "value", Scalar(Bool), Singular, None),
];

#[rattlefmt::skip]
const STRING: [FieldRow; 1] = [
    FieldRow(1, "value", "value", Scalar(String), Singular, None),
];

#[rattlefmt::skip]
const BYTES: [FieldRow; 1] = [
    FieldRow(1, "value", "value", Scalar(Bytes), Singular, None),
];

#[rattlefmt::skip]
const FIELD_MASK: [FieldRow; 1] = [
    FieldRow(1, "paths", "paths", Scalar(String), Repeated, None),
];

#[rattlefmt::skip]
const LIST_VALUE: [FieldRow; 1] = [
    FieldRow(1, "values", "values", Message("google.protobuf.Value"), Repeated, None),
];

#[rattlefmt::skip]
const VALUE: [FieldRow; 6] = [
    FieldRow(1, "null_value", "nullValue", Enum("google.protobuf.NullValue"), Singular, Some(0)),
    FieldRow(2, "number_value", "numberValue", Scalar(Double), Singular, Some(0)),
    FieldRow(3, "string_value", "stringValue", Scalar(String), Singular, Some(0)),
    FieldRow(4, "bool_value", "boolValue", Scalar(Bool), Singular, Some(0)),
    FieldRow(5, "struct_value", "structValue", Message("google.protobuf.Struct"), Singular, Some(0)),
    FieldRow(6, "list_value", "listValue", Message("google.protobuf.ListValue"), Singular, Some(0)),
];

/// The types.
#[rattlefmt::skip]
pub(crate) static TYPES: [TypeRow; 17] = [
    TypeRow("google.protobuf.Any", Form::Any, &ANY),
    TypeRow("google.protobuf.Timestamp", Form::Timestamp, &TIME),
    TypeRow("google.protobuf.Duration", Form::Duration, &TIME),
    TypeRow("google.protobuf.Struct", Form::Struct, &STRUCT),
    TypeRow("google.protobuf.FloatValue", Form::FloatWrapper, &FLOAT),
    TypeRow("google.protobuf.DoubleValue", Form::FloatWrapper, &DOUBLE),
    TypeRow("google.protobuf.Int32Value", Form::Wrapper, &INT32),
    TypeRow("google.protobuf.Int64Value", Form::Wrapper, &INT64),
    TypeRow("google.protobuf.UInt32Value", Form::Wrapper, &UINT32),
    TypeRow("google.protobuf.UInt64Value", Form::Wrapper, &UINT64),
    TypeRow("google.protobuf.BoolValue", Form::Wrapper, &BOOL),
    TypeRow("google.protobuf.StringValue", Form::Wrapper, &STRING),
    TypeRow("google.protobuf.BytesValue", Form::Wrapper, &BYTES),
    TypeRow("google.protobuf.FieldMask", Form::FieldMask, &FIELD_MASK),
    TypeRow("google.protobuf.ListValue", Form::ListValue, &LIST_VALUE),
    TypeRow("google.protobuf.Value", Form::Value, &VALUE),
    TypeRow("google.protobuf.Empty", Form::Empty, &[]),
];

/// The full name of the entries of a `Struct`.
pub const STRUCT_ENTRY_NAME: &str = "google.protobuf.Struct.FieldsEntry";

/// Their fields.
#[rattlefmt::skip]
pub(crate) static STRUCT_ENTRY: [FieldRow; 2] = [
    FieldRow(1, "key", "key", Scalar(String), Singular, None),
    FieldRow(2, "value", "value", Message("google.protobuf.Value"), Singular, None),
];
