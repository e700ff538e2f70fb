use crate::descriptor_place as place;
use Form::{Many, One, Packed};
use pbx_content::Kind;
use pbx_content::Kind::{Bool, Int32, Message, String};

/// How many values a field has, and how they are written.
#[derive(Clone, Copy)]
pub(crate) enum Form {
    /// At most one.
    One,
    /// A list, one record for each value.
    Many,
    /// A list of numbers, one record for all.
    Packed,
}

/// A field: its number, its name, its key in canonical JSON, the kind of its values and how many
/// there are.
#[derive(Clone, Copy)]
pub(crate) struct FieldRow(
    pub u32,
    pub &'static str,
    pub &'static str,
    pub Kind,
    pub Form,
);

/// A message type: its full name, its fields by ascending number, and whether its kept records stay
/// in order of arrival.
#[derive(Clone, Copy)]
pub(crate) struct TypeRow(pub &'static str, pub &'static [FieldRow], pub bool);

#[rattlefmt::skip]
const FILE_SET_FIELDS: [FieldRow; 1] = [
    FieldRow(1, "file", "file", Message(place::FILE), Many),
];

#[rattlefmt::skip]
const FILE_FIELDS: [FieldRow; 12] = [
    FieldRow(1, "name", "name", String, One),
    FieldRow(2, "package", "package", String, One),
    FieldRow(3, "dependency", "dependency", String, Many),
    FieldRow(4, "message_type", "messageType", Message(place::MESSAGE), Many),
    FieldRow(5, "enum_type", "enumType", Message(place::ENUM), Many),
    FieldRow(6, "service", "service", Message(place::SERVICE), Many),
    FieldRow(7, "extension", "extension", Message(place::FIELD), Many),
    FieldRow(8, "options", "options", Message(place::FILE_OPTIONS), One),
    FieldRow(9, "source_code_info", "sourceCodeInfo", Message(place::SOURCE_CODE_INFO), One),
    FieldRow(10, "public_dependency", "publicDependency", Int32, Many),
    FieldRow(11, "weak_dependency", "weakDependency", Int32, Many),
    FieldRow(12, "syntax", "syntax", String, One),
];

#[rattlefmt::skip]
const MESSAGE_FIELDS: [FieldRow; 10] = [
    FieldRow(1, "name", "name", String, One),
    FieldRow(2, "field", "field", Message(place::FIELD), Many),
    FieldRow(3, "nested_type", "nestedType", Message(place::MESSAGE), Many),
    FieldRow(4, "enum_type", "enumType", Message(place::ENUM), Many),
    FieldRow(5, "extension_range", "extensionRange", Message(place::EXTENSION_RANGE), Many),
    FieldRow(6, "extension", "extension", Message(place::FIELD), Many),
    FieldRow(7, "options", "options", Message(place::MESSAGE_OPTIONS), One),
    FieldRow(8, "oneof_decl", "oneofDecl", Message(place::ONEOF), Many),
    FieldRow(9, "reserved_range", "reservedRange", Message(place::RESERVED_RANGE), Many),
    FieldRow(10, "reserved_name", "reservedName", String, Many),
];

#[rattlefmt::skip]
const FIELD_FIELDS: [FieldRow; 11] = [
    FieldRow(1, "name", "name", String, One),
    FieldRow(2, "extendee", "extendee", String, One),
    FieldRow(3, "number", "number", Int32, One),
    FieldRow(4, "label", "label", Int32, One),
    FieldRow(5, "type", "type", Int32, One),
    FieldRow(6, "type_name", "typeName", String, One),
    FieldRow(7, "default_value", "defaultValue", String, One),
    FieldRow(8, "options", "options", Message(place::FIELD_OPTIONS), One),
    FieldRow(9, "oneof_index", "oneofIndex", Int32, One),
    FieldRow(10, "json_name", "jsonName", String, One),
    FieldRow(17, "proto3_optional", "proto3Optional", Bool, One),
];

#[rattlefmt::skip]
const EXTENSION_RANGE_FIELDS: [FieldRow; 3] = [
    FieldRow(1, "start", "start", Int32, One),
    FieldRow(2, "end", "end", Int32, One),
    FieldRow(3, "options", "options", Message(place::EXTENSION_RANGE_OPTIONS), One),
];

#[rattlefmt::skip]
const RESERVED_RANGE_FIELDS: [FieldRow; 2] = [
    FieldRow(1, "start", "start", Int32, One),
    FieldRow(2, "end", "end", Int32, One),
];

#[rattlefmt::skip]
const ONEOF_FIELDS: [FieldRow; 2] = [
    FieldRow(1, "name", "name", String, One),
    FieldRow(2, "options", "options", Message(place::ONEOF_OPTIONS), One),
];

#[rattlefmt::skip]
const ENUM_FIELDS: [FieldRow; 5] = [
    FieldRow(1, "name", "name", String, One),
    FieldRow(2, "value", "value", Message(place::ENUM_VALUE), Many),
    FieldRow(3, "options", "options", Message(place::ENUM_OPTIONS), One),
    FieldRow(4, "reserved_range", "reservedRange", Message(place::ENUM_RESERVED_RANGE), Many),
    FieldRow(5, "reserved_name", "reservedName", String, Many),
];

#[rattlefmt::skip]
const ENUM_RESERVED_RANGE_FIELDS: [FieldRow; 2] = [
    FieldRow(1, "start", "start", Int32, One),
    FieldRow(2, "end", "end", Int32, One),
];

#[rattlefmt::skip]
const ENUM_VALUE_FIELDS: [FieldRow; 3] = [
    FieldRow(1, "name", "name", String, One),
    FieldRow(2, "number", "number", Int32, One),
    FieldRow(3, "options", "options", Message(place::ENUM_VALUE_OPTIONS), One),
];

#[rattlefmt::skip]
const SERVICE_FIELDS: [FieldRow; 3] = [
    FieldRow(1, "name", "name", String, One),
    FieldRow(2, "method", "method", Message(place::METHOD), Many),
    FieldRow(3, "options", "options", Message(place::SERVICE_OPTIONS), One),
];

#[rattlefmt::skip]
const METHOD_FIELDS: [FieldRow; 6] = [
    FieldRow(1, "name", "name", String, One),
    FieldRow(2, "input_type", "inputType", String, One),
    FieldRow(3, "output_type", "outputType", String, One),
    FieldRow(4, "options", "options", Message(place::METHOD_OPTIONS), One),
    FieldRow(5, "client_streaming", "clientStreaming", Bool, One),
    FieldRow(6, "server_streaming", "serverStreaming", Bool, One),
];

#[rattlefmt::skip]
const SOURCE_CODE_INFO_FIELDS: [FieldRow; 1] = [
    FieldRow(1, "location", "location", Message(place::LOCATION), Many),
];

#[rattlefmt::skip]
const LOCATION_FIELDS: [FieldRow; 5] = [
    FieldRow(1, "path", "path", Int32, Packed),
    FieldRow(2, "span", "span", Int32, Packed),
    FieldRow(3, "leading_comments", "leadingComments", String, One),
    FieldRow(4, "trailing_comments", "trailingComments", String, One),
    FieldRow(6, "leading_detached_comments", "leadingDetachedComments", String, Many),
];

/// The types, each at its place.
#[rattlefmt::skip]
pub(crate) const TYPES: [TypeRow; 23] = [
    TypeRow("google.protobuf.FileDescriptorSet", &FILE_SET_FIELDS, false),
    TypeRow("google.protobuf.FileDescriptorProto", &FILE_FIELDS, false),
    TypeRow("google.protobuf.DescriptorProto", &MESSAGE_FIELDS, false),
    TypeRow("google.protobuf.FieldDescriptorProto", &FIELD_FIELDS, false),
    TypeRow("google.protobuf.DescriptorProto.ExtensionRange", &EXTENSION_RANGE_FIELDS, false),
    TypeRow("google.protobuf.DescriptorProto.ReservedRange", &RESERVED_RANGE_FIELDS, false),
    TypeRow("google.protobuf.OneofDescriptorProto", &ONEOF_FIELDS, false),
    TypeRow("google.protobuf.EnumDescriptorProto", &ENUM_FIELDS, false),
    TypeRow("google.protobuf.EnumDescriptorProto.EnumReservedRange", &ENUM_RESERVED_RANGE_FIELDS, false),
    TypeRow("google.protobuf.EnumValueDescriptorProto", &ENUM_VALUE_FIELDS, false),
    TypeRow("google.protobuf.ServiceDescriptorProto", &SERVICE_FIELDS, false),
    TypeRow("google.protobuf.MethodDescriptorProto", &METHOD_FIELDS, false),
    TypeRow("google.protobuf.SourceCodeInfo", &SOURCE_CODE_INFO_FIELDS, false),
    TypeRow("google.protobuf.SourceCodeInfo.Location", &LOCATION_FIELDS, false),
    TypeRow("google.protobuf.FileOptions", &[], true),
    TypeRow("google.protobuf.MessageOptions", &[], true),
    TypeRow("google.protobuf.FieldOptions", &[], true),
    TypeRow("google.protobuf.ExtensionRangeOptions", &[], true),
    TypeRow("google.protobuf.OneofOptions", &[], true),
    TypeRow("google.protobuf.EnumOptions", &[], true),
    TypeRow("google.protobuf.EnumValueOptions", &[], true),
    TypeRow("google.protobuf.ServiceOptions", &[], true),
    TypeRow("google.protobuf.MethodOptions", &[], true),
];
