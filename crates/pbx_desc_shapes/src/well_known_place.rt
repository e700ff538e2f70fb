//! The places of the types in the shape of the well-known records and the wrappers.

/// `google.protobuf.Any`.
pub const ANY: usize = 0;
/// `google.protobuf.Duration`.
pub const DURATION: usize = 1;
/// `google.protobuf.Empty`.
pub const EMPTY: usize = 2;
/// `google.protobuf.FieldMask`.
pub const FIELD_MASK: usize = 3;
/// `google.protobuf.Struct`.
pub const STRUCT: usize = 4;
/// `google.protobuf.Struct.FieldsEntry`.
pub const STRUCT_ENTRY: usize = 5;
/// `google.protobuf.Value`.
pub const VALUE: usize = 6;
/// `google.protobuf.ListValue`.
pub const LIST_VALUE: usize = 7;
/// `google.protobuf.Timestamp`.
pub const TIMESTAMP: usize = 8;
/// `google.protobuf.Int64Value`.
pub const INT64_VALUE: usize = 9;
/// `google.protobuf.UInt64Value`.
pub const UINT64_VALUE: usize = 10;
/// `google.protobuf.Int32Value`.
pub const INT32_VALUE: usize = 11;
/// `google.protobuf.UInt32Value`.
pub const UINT32_VALUE: usize = 12;
/// `google.protobuf.BoolValue`.
pub const BOOL_VALUE: usize = 13;
/// `google.protobuf.StringValue`.
pub const STRING_VALUE: usize = 14;
/// `google.protobuf.BytesValue`.
pub const BYTES_VALUE: usize = 15;
