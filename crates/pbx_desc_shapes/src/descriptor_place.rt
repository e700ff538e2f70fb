//! The places of the types in the shape of the descriptor records.

/// `google.protobuf.FileDescriptorSet`.
pub const FILE_SET: usize = 0;
/// `google.protobuf.FileDescriptorProto`.
pub const FILE: usize = 1;
/// `google.protobuf.DescriptorProto`.
pub const MESSAGE: usize = 2;
/// `google.protobuf.FieldDescriptorProto`.
pub const FIELD: usize = 3;
/// `google.protobuf.DescriptorProto.ExtensionRange`.
pub const EXTENSION_RANGE: usize = 4;
/// `google.protobuf.DescriptorProto.ReservedRange`.
pub const RESERVED_RANGE: usize = 5;
/// `google.protobuf.OneofDescriptorProto`.
pub const ONEOF: usize = 6;
/// `google.protobuf.EnumDescriptorProto`.
pub const ENUM: usize = 7;
/// `google.protobuf.EnumDescriptorProto.EnumReservedRange`.
pub const ENUM_RESERVED_RANGE: usize = 8;
/// `google.protobuf.EnumValueDescriptorProto`.
pub const ENUM_VALUE: usize = 9;
/// `google.protobuf.ServiceDescriptorProto`.
pub const SERVICE: usize = 10;
/// `google.protobuf.MethodDescriptorProto`.
pub const METHOD: usize = 11;
/// `google.protobuf.SourceCodeInfo`.
pub const SOURCE_CODE_INFO: usize = 12;
/// `google.protobuf.SourceCodeInfo.Location`.
pub const LOCATION: usize = 13;
/// `google.protobuf.FileOptions`.
pub const FILE_OPTIONS: usize = 14;
/// `google.protobuf.MessageOptions`.
pub const MESSAGE_OPTIONS: usize = 15;
/// `google.protobuf.FieldOptions`.
pub const FIELD_OPTIONS: usize = 16;
/// `google.protobuf.ExtensionRangeOptions`.
pub const EXTENSION_RANGE_OPTIONS: usize = 17;
/// `google.protobuf.OneofOptions`.
pub const ONEOF_OPTIONS: usize = 18;
/// `google.protobuf.EnumOptions`.
pub const ENUM_OPTIONS: usize = 19;
/// `google.protobuf.EnumValueOptions`.
pub const ENUM_VALUE_OPTIONS: usize = 20;
/// `google.protobuf.ServiceOptions`.
pub const SERVICE_OPTIONS: usize = 21;
/// `google.protobuf.MethodOptions`.
pub const METHOD_OPTIONS: usize = 22;
