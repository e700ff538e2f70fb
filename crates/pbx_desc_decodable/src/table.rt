// The types of `google/protobuf/descriptor.proto`, each directly followed by those nested in it, and its enums: one line a field.
// A message is named by its place among the types, an enum by its place among the enums.
use Form::{Many, One, Packed};
use pbx_content::Kind;
use pbx_content::Kind::{Bool, Bytes, Double, Enum, Int32, Int64, Message, String, Uint64};

/// How many values a field has, and how they are written.
#[derive(Clone, Copy)]
pub(crate) enum Form {
    /// At most one.
    One,
    /// A list, one record for each value.
    Many,
    /// A list of numbers, one record for all.
    Packed,
}

/// A field: its number, its name, its key in canonical JSON, the kind of its values, how many there are, and its default.
#[derive(Clone, Copy)]
pub(crate) struct FieldRow(
    pub u32,
    pub &'static str,
    pub &'static str,
    pub Kind,
    pub Form,
    pub Option<&'static str>,
);

/// A message type: its full name and its fields.
#[derive(Clone, Copy)]
pub(crate) struct TypeRow(pub &'static str, pub &'static [FieldRow]);

/// A value of an enum: its name and its number.
#[derive(Clone, Copy)]
pub(crate) struct ValueRow(pub &'static str, pub i32);

/// An enum: its full name and its values.
#[derive(Clone, Copy)]
pub(crate) struct EnumRow(pub &'static str, pub &'static [ValueRow]);

/// The options that are not interpreted yet.
#[rattlefmt::skip]
const UNINTERPRETED: FieldRow =
    FieldRow(999, "uninterpreted_option", "uninterpretedOption", Message(23), Many, None);

// ---- 0: google.protobuf.FileDescriptorSet

#[rattlefmt::skip]
const FILE_DESCRIPTOR_SET_FIELDS: [FieldRow; 1] = [
    FieldRow(1, "file", "file", Message(1), Many, None),
];

// ---- 1: google.protobuf.FileDescriptorProto, without `source_code_info`, field 9

#[rattlefmt::skip]
const FILE_DESCRIPTOR_PROTO_FIELDS: [FieldRow; 12] = [
    FieldRow(1, "name", "name", String, One, None),
    FieldRow(2, "package", "package", String, One, None),
    FieldRow(3, "dependency", "dependency", String, Many, None),
    FieldRow(10, "public_dependency", "publicDependency", Int32, Many, None),
    FieldRow(11, "weak_dependency", "weakDependency", Int32, Many, None),
    FieldRow(4, "message_type", "messageType", Message(2), Many, None),
    FieldRow(5, "enum_type", "enumType", Message(9), Many, None),
    FieldRow(6, "service", "service", Message(12), Many, None),
    FieldRow(7, "extension", "extension", Message(7), Many, None),
    FieldRow(8, "options", "options", Message(14), One, None),
    FieldRow(12, "syntax", "syntax", String, One, None),
    FieldRow(14, "edition", "edition", Enum(16), One, None),
];

// ---- 2: google.protobuf.DescriptorProto

#[rattlefmt::skip]
const DESCRIPTOR_PROTO_FIELDS: [FieldRow; 10] = [
    FieldRow(1, "name", "name", String, One, None),
    FieldRow(2, "field", "field", Message(7), Many, None),
    FieldRow(6, "extension", "extension", Message(7), Many, None),
    FieldRow(3, "nested_type", "nestedType", Message(2), Many, None),
    FieldRow(4, "enum_type", "enumType", Message(9), Many, None),
    FieldRow(5, "extension_range", "extensionRange", Message(3), Many, None),
    FieldRow(8, "oneof_decl", "oneofDecl", Message(8), Many, None),
    FieldRow(7, "options", "options", Message(15), One, None),
    FieldRow(9, "reserved_range", "reservedRange", Message(4), Many, None),
    FieldRow(10, "reserved_name", "reservedName", String, Many, None),
];

// ---- 3: google.protobuf.DescriptorProto.ExtensionRange

#[rattlefmt::skip]
const DESCRIPTOR_PROTO_EXTENSION_RANGE_FIELDS: [FieldRow; 3] = [
    FieldRow(1, "start", "start", Int32, One, None),
    FieldRow(2, "end", "end", Int32, One, None),
    FieldRow(3, "options", "options", Message(5), One, None),
];

// ---- 4: google.protobuf.DescriptorProto.ReservedRange

#[rattlefmt::skip]
const DESCRIPTOR_PROTO_RESERVED_RANGE_FIELDS: [FieldRow; 2] = [
    FieldRow(1, "start", "start", Int32, One, None),
    FieldRow(2, "end", "end", Int32, One, None),
];

// ---- 5: google.protobuf.ExtensionRangeOptions

#[rattlefmt::skip]
const EXTENSION_RANGE_OPTIONS_FIELDS: [FieldRow; 4] = [
    UNINTERPRETED,
    FieldRow(2, "declaration", "declaration", Message(6), Many, None),
    FieldRow(50, "features", "features", Message(25), One, None),
    FieldRow(3, "verification", "verification", Enum(0), One, Some("UNVERIFIED")),
];

// ---- 6: google.protobuf.ExtensionRangeOptions.Declaration

#[rattlefmt::skip]
const EXTENSION_RANGE_OPTIONS_DECLARATION_FIELDS: [FieldRow; 5] = [
    FieldRow(1, "number", "number", Int32, One, None),
    FieldRow(2, "full_name", "fullName", String, One, None),
    FieldRow(3, "type", "type", String, One, None),
    FieldRow(5, "reserved", "reserved", Bool, One, None),
    FieldRow(6, "repeated", "repeated", Bool, One, None),
];

// ---- 7: google.protobuf.FieldDescriptorProto

#[rattlefmt::skip]
const FIELD_DESCRIPTOR_PROTO_FIELDS: [FieldRow; 11] = [
    FieldRow(1, "name", "name", String, One, None),
    FieldRow(3, "number", "number", Int32, One, None),
    FieldRow(4, "label", "label", Enum(2), One, None),
    FieldRow(5, "type", "type", Enum(1), One, None),
    FieldRow(6, "type_name", "typeName", String, One, None),
    FieldRow(2, "extendee", "extendee", String, One, None),
    FieldRow(7, "default_value", "defaultValue", String, One, None),
    FieldRow(9, "oneof_index", "oneofIndex", Int32, One, None),
    FieldRow(10, "json_name", "jsonName", String, One, None),
    FieldRow(8, "options", "options", Message(16), One, None),
    FieldRow(17, "proto3_optional", "proto3Optional", Bool, One, None),
];

// ---- 8: google.protobuf.OneofDescriptorProto

#[rattlefmt::skip]
const ONEOF_DESCRIPTOR_PROTO_FIELDS: [FieldRow; 2] = [
    FieldRow(1, "name", "name", String, One, None),
    FieldRow(2, "options", "options", Message(18), One, None),
];

// ---- 9: google.protobuf.EnumDescriptorProto

#[rattlefmt::skip]
const ENUM_DESCRIPTOR_PROTO_FIELDS: [FieldRow; 5] = [
    FieldRow(1, "name", "name", String, One, None),
    FieldRow(2, "value", "value", Message(11), Many, None),
    FieldRow(3, "options", "options", Message(19), One, None),
    FieldRow(4, "reserved_range", "reservedRange", Message(10), Many, None),
    FieldRow(5, "reserved_name", "reservedName", String, Many, None),
];

// ---- 10: google.protobuf.EnumDescriptorProto.EnumReservedRange

#[rattlefmt::skip]
const ENUM_DESCRIPTOR_PROTO_ENUM_RESERVED_RANGE_FIELDS: [FieldRow; 2] = [
    FieldRow(1, "start", "start", Int32, One, None),
    FieldRow(2, "end", "end", Int32, One, None),
];

// ---- 11: google.protobuf.EnumValueDescriptorProto

#[rattlefmt::skip]
const ENUM_VALUE_DESCRIPTOR_PROTO_FIELDS: [FieldRow; 3] = [
    FieldRow(1, "name", "name", String, One, None),
    FieldRow(2, "number", "number", Int32, One, None),
    FieldRow(3, "options", "options", Message(20), One, None),
];

// ---- 12: google.protobuf.ServiceDescriptorProto

#[rattlefmt::skip]
const SERVICE_DESCRIPTOR_PROTO_FIELDS: [FieldRow; 3] = [
    FieldRow(1, "name", "name", String, One, None),
    FieldRow(2, "method", "method", Message(13), Many, None),
    FieldRow(3, "options", "options", Message(21), One, None),
];

// ---- 13: google.protobuf.MethodDescriptorProto

#[rattlefmt::skip]
const METHOD_DESCRIPTOR_PROTO_FIELDS: [FieldRow; 6] = [
    FieldRow(1, "name", "name", String, One, None),
    FieldRow(2, "input_type", "inputType", String, One, None),
    FieldRow(3, "output_type", "outputType", String, One, None),
    FieldRow(4, "options", "options", Message(22), One, None),
    FieldRow(5, "client_streaming", "clientStreaming", Bool, One, Some("false")),
    FieldRow(6, "server_streaming", "serverStreaming", Bool, One, Some("false")),
];

// ---- 14: google.protobuf.FileOptions

#[rattlefmt::skip]
const FILE_OPTIONS_FIELDS: [FieldRow; 22] = [
    FieldRow(1, "java_package", "javaPackage", String, One, None),
    FieldRow(8, "java_outer_classname", "javaOuterClassname", String, One, None),
    FieldRow(10, "java_multiple_files", "javaMultipleFiles", Bool, One, Some("false")),
    FieldRow(20, "java_generate_equals_and_hash", "javaGenerateEqualsAndHash", Bool, One, None),
    FieldRow(27, "java_string_check_utf8", "javaStringCheckUtf8", Bool, One, Some("false")),
    FieldRow(9, "optimize_for", "optimizeFor", Enum(3), One, Some("SPEED")),
    FieldRow(11, "go_package", "goPackage", String, One, None),
    FieldRow(16, "cc_generic_services", "ccGenericServices", Bool, One, Some("false")),
    FieldRow(17, "java_generic_services", "javaGenericServices", Bool, One, Some("false")),
    FieldRow(18, "py_generic_services", "pyGenericServices", Bool, One, Some("false")),
    FieldRow(42, "php_generic_services", "phpGenericServices", Bool, One, Some("false")),
    FieldRow(23, "deprecated", "deprecated", Bool, One, Some("false")),
    FieldRow(31, "cc_enable_arenas", "ccEnableArenas", Bool, One, Some("true")),
    FieldRow(36, "objc_class_prefix", "objcClassPrefix", String, One, None),
    FieldRow(37, "csharp_namespace", "csharpNamespace", String, One, None),
    FieldRow(39, "swift_prefix", "swiftPrefix", String, One, None),
    FieldRow(40, "php_class_prefix", "phpClassPrefix", String, One, None),
    FieldRow(41, "php_namespace", "phpNamespace", String, One, None),
    FieldRow(44, "php_metadata_namespace", "phpMetadataNamespace", String, One, None),
    FieldRow(45, "ruby_package", "rubyPackage", String, One, None),
    FieldRow(50, "features", "features", Message(25), One, None),
    UNINTERPRETED,
];

// ---- 15: google.protobuf.MessageOptions

#[rattlefmt::skip]
const MESSAGE_OPTIONS_FIELDS: [FieldRow; 7] = [
    FieldRow(1, "message_set_wire_format", "messageSetWireFormat", Bool, One, Some("false")),
    FieldRow(2, "no_standard_descriptor_accessor", "noStandardDescriptorAccessor", Bool, One, Some("false")),
    FieldRow(3, "deprecated", "deprecated", Bool, One, Some("false")),
    FieldRow(7, "map_entry", "mapEntry", Bool, One, None),
    FieldRow(11, "deprecated_legacy_json_field_conflicts", "deprecatedLegacyJsonFieldConflicts", Bool, One, None),
    FieldRow(12, "features", "features", Message(25), One, None),
    UNINTERPRETED,
];

// ---- 16: google.protobuf.FieldOptions

#[rattlefmt::skip]
const FIELD_OPTIONS_FIELDS: [FieldRow; 13] = [
    FieldRow(1, "ctype", "ctype", Enum(4), One, Some("STRING")),
    FieldRow(2, "packed", "packed", Bool, One, None),
    FieldRow(6, "jstype", "jstype", Enum(5), One, Some("JS_NORMAL")),
    FieldRow(5, "lazy", "lazy", Bool, One, Some("false")),
    FieldRow(15, "unverified_lazy", "unverifiedLazy", Bool, One, Some("false")),
    FieldRow(3, "deprecated", "deprecated", Bool, One, Some("false")),
    FieldRow(10, "weak", "weak", Bool, One, Some("false")),
    FieldRow(16, "debug_redact", "debugRedact", Bool, One, Some("false")),
    FieldRow(17, "retention", "retention", Enum(6), One, None),
    FieldRow(19, "targets", "targets", Enum(7), Many, None),
    FieldRow(20, "edition_defaults", "editionDefaults", Message(17), Many, None),
    FieldRow(21, "features", "features", Message(25), One, None),
    UNINTERPRETED,
];

// ---- 17: google.protobuf.FieldOptions.EditionDefault

#[rattlefmt::skip]
const FIELD_OPTIONS_EDITION_DEFAULT_FIELDS: [FieldRow; 2] = [
    FieldRow(3, "edition", "edition", Enum(16), One, None),
    FieldRow(2, "value", "value", String, One, None),
];

// ---- 18: google.protobuf.OneofOptions

#[rattlefmt::skip]
const ONEOF_OPTIONS_FIELDS: [FieldRow; 2] = [
    FieldRow(1, "features", "features", Message(25), One, None),
    UNINTERPRETED,
];

// ---- 19: google.protobuf.EnumOptions

#[rattlefmt::skip]
const ENUM_OPTIONS_FIELDS: [FieldRow; 5] = [
    FieldRow(2, "allow_alias", "allowAlias", Bool, One, None),
    FieldRow(3, "deprecated", "deprecated", Bool, One, Some("false")),
    FieldRow(6, "deprecated_legacy_json_field_conflicts", "deprecatedLegacyJsonFieldConflicts", Bool, One, None),
    FieldRow(7, "features", "features", Message(25), One, None),
    UNINTERPRETED,
];

// ---- 20: google.protobuf.EnumValueOptions

#[rattlefmt::skip]
const ENUM_VALUE_OPTIONS_FIELDS: [FieldRow; 4] = [
    FieldRow(1, "deprecated", "deprecated", Bool, One, Some("false")),
    FieldRow(2, "features", "features", Message(25), One, None),
    FieldRow(3, "debug_redact", "debugRedact", Bool, One, Some("false")),
    UNINTERPRETED,
];

// ---- 21: google.protobuf.ServiceOptions

#[rattlefmt::skip]
const SERVICE_OPTIONS_FIELDS: [FieldRow; 3] = [
    FieldRow(34, "features", "features", Message(25), One, None),
    FieldRow(33, "deprecated", "deprecated", Bool, One, Some("false")),
    UNINTERPRETED,
];

// ---- 22: google.protobuf.MethodOptions

#[rattlefmt::skip]
const METHOD_OPTIONS_FIELDS: [FieldRow; 4] = [
    FieldRow(33, "deprecated", "deprecated", Bool, One, Some("false")),
    FieldRow(34, "idempotency_level", "idempotencyLevel", Enum(8), One, Some("IDEMPOTENCY_UNKNOWN")),
    FieldRow(35, "features", "features", Message(25), One, None),
    UNINTERPRETED,
];

// ---- 23: google.protobuf.UninterpretedOption

#[rattlefmt::skip]
const UNINTERPRETED_OPTION_FIELDS: [FieldRow; 7] = [
    FieldRow(2, "name", "name", Message(24), Many, None),
    FieldRow(3, "identifier_value", "identifierValue", String, One, None),
    FieldRow(4, "positive_int_value", "positiveIntValue", Uint64, One, None),
    FieldRow(5, "negative_int_value", "negativeIntValue", Int64, One, None),
    FieldRow(6, "double_value", "doubleValue", Double, One, None),
    FieldRow(7, "string_value", "stringValue", Bytes, One, None),
    FieldRow(8, "aggregate_value", "aggregateValue", String, One, None),
];

// ---- 24: google.protobuf.UninterpretedOption.NamePart

#[rattlefmt::skip]
const UNINTERPRETED_OPTION_NAME_PART_FIELDS: [FieldRow; 2] = [
    FieldRow(1, "name_part", "namePart", String, One, None),
    FieldRow(2, "is_extension", "isExtension", Bool, One, None),
];

// ---- 25: google.protobuf.FeatureSet

#[rattlefmt::skip]
const FEATURE_SET_FIELDS: [FieldRow; 6] = [
    FieldRow(1, "field_presence", "fieldPresence", Enum(9), One, None),
    FieldRow(2, "enum_type", "enumType", Enum(10), One, None),
    FieldRow(3, "repeated_field_encoding", "repeatedFieldEncoding", Enum(11), One, None),
    FieldRow(4, "utf8_validation", "utf8Validation", Enum(12), One, None),
    FieldRow(5, "message_encoding", "messageEncoding", Enum(13), One, None),
    FieldRow(6, "json_format", "jsonFormat", Enum(14), One, None),
];

// ---- 26: google.protobuf.FeatureSetDefaults

#[rattlefmt::skip]
const FEATURE_SET_DEFAULTS_FIELDS: [FieldRow; 3] = [
    FieldRow(1, "defaults", "defaults", Message(27), Many, None),
    FieldRow(4, "minimum_edition", "minimumEdition", Enum(16), One, None),
    FieldRow(5, "maximum_edition", "maximumEdition", Enum(16), One, None),
];

// ---- 27: google.protobuf.FeatureSetDefaults.FeatureSetEditionDefault

#[rattlefmt::skip]
const FEATURE_SET_DEFAULTS_FEATURE_SET_EDITION_DEFAULT_FIELDS: [FieldRow; 2] = [
    FieldRow(3, "edition", "edition", Enum(16), One, None),
    FieldRow(2, "features", "features", Message(25), One, None),
];

// ---- 28: google.protobuf.SourceCodeInfo

#[rattlefmt::skip]
const SOURCE_CODE_INFO_FIELDS: [FieldRow; 1] = [
    FieldRow(1, "location", "location", Message(29), Many, None),
];

// ---- 29: google.protobuf.SourceCodeInfo.Location

#[rattlefmt::skip]
const SOURCE_CODE_INFO_LOCATION_FIELDS: [FieldRow; 5] = [
    FieldRow(1, "path", "path", Int32, Packed, None),
    FieldRow(2, "span", "span", Int32, Packed, None),
    FieldRow(3, "leading_comments", "leadingComments", String, One, None),
    FieldRow(4, "trailing_comments", "trailingComments", String, One, None),
    FieldRow(6, "leading_detached_comments", "leadingDetachedComments", String, Many, None),
];

// ---- 30: google.protobuf.GeneratedCodeInfo

#[rattlefmt::skip]
const GENERATED_CODE_INFO_FIELDS: [FieldRow; 1] = [
    FieldRow(1, "annotation", "annotation", Message(31), Many, None),
];

// ---- 31: google.protobuf.GeneratedCodeInfo.Annotation

#[rattlefmt::skip]
const GENERATED_CODE_INFO_ANNOTATION_FIELDS: [FieldRow; 5] = [
    FieldRow(1, "path", "path", Int32, Packed, None),
    FieldRow(2, "source_file", "sourceFile", String, One, None),
    FieldRow(3, "begin", "begin", Int32, One, None),
    FieldRow(4, "end", "end", Int32, One, None),
    FieldRow(5, "semantic", "semantic", Enum(15), One, None),
];

#[rattlefmt::skip]
pub(crate) static FILE_TYPES: [TypeRow; 7] = [
    TypeRow("google.protobuf.FileDescriptorSet", &FILE_DESCRIPTOR_SET_FIELDS),
    TypeRow("google.protobuf.FileDescriptorProto", &FILE_DESCRIPTOR_PROTO_FIELDS),
    TypeRow("google.protobuf.DescriptorProto", &DESCRIPTOR_PROTO_FIELDS),
    TypeRow("google.protobuf.DescriptorProto.ExtensionRange", &DESCRIPTOR_PROTO_EXTENSION_RANGE_FIELDS),
    TypeRow("google.protobuf.DescriptorProto.ReservedRange", &DESCRIPTOR_PROTO_RESERVED_RANGE_FIELDS),
    TypeRow("google.protobuf.ExtensionRangeOptions", &EXTENSION_RANGE_OPTIONS_FIELDS),
    TypeRow("google.protobuf.ExtensionRangeOptions.Declaration", &EXTENSION_RANGE_OPTIONS_DECLARATION_FIELDS),
];

#[rattlefmt::skip]
pub(crate) static MEMBER_TYPES: [TypeRow; 7] = [
    TypeRow("google.protobuf.FieldDescriptorProto", &FIELD_DESCRIPTOR_PROTO_FIELDS),
    TypeRow("google.protobuf.OneofDescriptorProto", &ONEOF_DESCRIPTOR_PROTO_FIELDS),
    TypeRow("google.protobuf.EnumDescriptorProto", &ENUM_DESCRIPTOR_PROTO_FIELDS),
    TypeRow("google.protobuf.EnumDescriptorProto.EnumReservedRange", &ENUM_DESCRIPTOR_PROTO_ENUM_RESERVED_RANGE_FIELDS),
    TypeRow("google.protobuf.EnumValueDescriptorProto", &ENUM_VALUE_DESCRIPTOR_PROTO_FIELDS),
    TypeRow("google.protobuf.ServiceDescriptorProto", &SERVICE_DESCRIPTOR_PROTO_FIELDS),
    TypeRow("google.protobuf.MethodDescriptorProto", &METHOD_DESCRIPTOR_PROTO_FIELDS),
];

#[rattlefmt::skip]
pub(crate) static FILE_OPTION_TYPES: [TypeRow; 2] = [
    TypeRow("google.protobuf.FileOptions", &FILE_OPTIONS_FIELDS),
    TypeRow("google.protobuf.MessageOptions", &MESSAGE_OPTIONS_FIELDS),
];

#[rattlefmt::skip]
pub(crate) static OPTION_TYPES: [TypeRow; 7] = [
    TypeRow("google.protobuf.FieldOptions", &FIELD_OPTIONS_FIELDS),
    TypeRow("google.protobuf.FieldOptions.EditionDefault", &FIELD_OPTIONS_EDITION_DEFAULT_FIELDS),
    TypeRow("google.protobuf.OneofOptions", &ONEOF_OPTIONS_FIELDS),
    TypeRow("google.protobuf.EnumOptions", &ENUM_OPTIONS_FIELDS),
    TypeRow("google.protobuf.EnumValueOptions", &ENUM_VALUE_OPTIONS_FIELDS),
    TypeRow("google.protobuf.ServiceOptions", &SERVICE_OPTIONS_FIELDS),
    TypeRow("google.protobuf.MethodOptions", &METHOD_OPTIONS_FIELDS),
];

#[rattlefmt::skip]
pub(crate) static FEATURE_TYPES: [TypeRow; 9] = [
    TypeRow("google.protobuf.UninterpretedOption", &UNINTERPRETED_OPTION_FIELDS),
    TypeRow("google.protobuf.UninterpretedOption.NamePart", &UNINTERPRETED_OPTION_NAME_PART_FIELDS),
    TypeRow("google.protobuf.FeatureSet", &FEATURE_SET_FIELDS),
    TypeRow("google.protobuf.FeatureSetDefaults", &FEATURE_SET_DEFAULTS_FIELDS),
    TypeRow("google.protobuf.FeatureSetDefaults.FeatureSetEditionDefault", &FEATURE_SET_DEFAULTS_FEATURE_SET_EDITION_DEFAULT_FIELDS),
    TypeRow("google.protobuf.SourceCodeInfo", &SOURCE_CODE_INFO_FIELDS),
    TypeRow("google.protobuf.SourceCodeInfo.Location", &SOURCE_CODE_INFO_LOCATION_FIELDS),
    TypeRow("google.protobuf.GeneratedCodeInfo", &GENERATED_CODE_INFO_FIELDS),
    TypeRow("google.protobuf.GeneratedCodeInfo.Annotation", &GENERATED_CODE_INFO_ANNOTATION_FIELDS),
];

// ---- enum 0: google.protobuf.ExtensionRangeOptions.VerificationState

#[rattlefmt::skip]
const EXTENSION_RANGE_OPTIONS_VERIFICATION_STATE_VALUES: [ValueRow; 2] = [
    ValueRow("DECLARATION", 0), ValueRow("UNVERIFIED", 1),
];

// ---- enum 1: google.protobuf.FieldDescriptorProto.Type

#[rattlefmt::skip]
const FIELD_DESCRIPTOR_PROTO_TYPE_VALUES: [ValueRow; 18] = [
    ValueRow("TYPE_DOUBLE", 1), ValueRow("TYPE_FLOAT", 2), ValueRow("TYPE_INT64", 3), ValueRow("TYPE_UINT64", 4),
    ValueRow("TYPE_INT32", 5), ValueRow("TYPE_FIXED64", 6), ValueRow("TYPE_FIXED32", 7), ValueRow("TYPE_BOOL", 8),
    ValueRow("TYPE_STRING", 9), ValueRow("TYPE_GROUP", 10), ValueRow("TYPE_MESSAGE", 11), ValueRow("TYPE_BYTES", 12),
    ValueRow("TYPE_UINT32", 13), ValueRow("TYPE_ENUM", 14), ValueRow("TYPE_SFIXED32", 15),
    ValueRow("TYPE_SFIXED64", 16), ValueRow("TYPE_SINT32", 17), ValueRow("TYPE_SINT64", 18),
];

// ---- enum 2: google.protobuf.FieldDescriptorProto.Label

#[rattlefmt::skip]
const FIELD_DESCRIPTOR_PROTO_LABEL_VALUES: [ValueRow; 3] = [
    ValueRow("LABEL_OPTIONAL", 1), ValueRow("LABEL_REPEATED", 3), ValueRow("LABEL_REQUIRED", 2),
];

// ---- enum 3: google.protobuf.FileOptions.OptimizeMode

#[rattlefmt::skip]
const FILE_OPTIONS_OPTIMIZE_MODE_VALUES: [ValueRow; 3] = [
    ValueRow("SPEED", 1), ValueRow("CODE_SIZE", 2), ValueRow("LITE_RUNTIME", 3),
];

// ---- enum 4: google.protobuf.FieldOptions.CType

#[rattlefmt::skip]
const FIELD_OPTIONS_CTYPE_VALUES: [ValueRow; 3] = [
    ValueRow("STRING", 0), ValueRow("CORD", 1), ValueRow("STRING_PIECE", 2),
];

// ---- enum 5: google.protobuf.FieldOptions.JSType

#[rattlefmt::skip]
const FIELD_OPTIONS_JSTYPE_VALUES: [ValueRow; 3] = [
    ValueRow("JS_NORMAL", 0), ValueRow("JS_STRING", 1), ValueRow("JS_NUMBER", 2),
];

// ---- enum 6: google.protobuf.FieldOptions.OptionRetention

#[rattlefmt::skip]
const FIELD_OPTIONS_OPTION_RETENTION_VALUES: [ValueRow; 3] = [
    ValueRow("RETENTION_UNKNOWN", 0), ValueRow("RETENTION_RUNTIME", 1), ValueRow("RETENTION_SOURCE", 2),
];

// ---- enum 7: google.protobuf.FieldOptions.OptionTargetType

#[rattlefmt::skip]
const FIELD_OPTIONS_OPTION_TARGET_TYPE_VALUES: [ValueRow; 10] = [
    ValueRow("TARGET_TYPE_UNKNOWN", 0), ValueRow("TARGET_TYPE_FILE", 1), ValueRow("TARGET_TYPE_EXTENSION_RANGE", 2),
    ValueRow("TARGET_TYPE_MESSAGE", 3), ValueRow("TARGET_TYPE_FIELD", 4), ValueRow("TARGET_TYPE_ONEOF", 5),
    ValueRow("TARGET_TYPE_ENUM", 6), ValueRow("TARGET_TYPE_ENUM_ENTRY", 7), ValueRow("TARGET_TYPE_SERVICE", 8),
    ValueRow("TARGET_TYPE_METHOD", 9),
];

// ---- enum 8: google.protobuf.MethodOptions.IdempotencyLevel

#[rattlefmt::skip]
const METHOD_OPTIONS_IDEMPOTENCY_LEVEL_VALUES: [ValueRow; 3] = [
    ValueRow("IDEMPOTENCY_UNKNOWN", 0), ValueRow("NO_SIDE_EFFECTS", 1), ValueRow("IDEMPOTENT", 2),
];

// ---- enum 9: google.protobuf.FeatureSet.FieldPresence

#[rattlefmt::skip]
const FEATURE_SET_FIELD_PRESENCE_VALUES: [ValueRow; 4] = [
    ValueRow("FIELD_PRESENCE_UNKNOWN", 0), ValueRow("EXPLICIT", 1), ValueRow("IMPLICIT", 2),
    ValueRow("LEGACY_REQUIRED", 3),
];

// ---- enum 10: google.protobuf.FeatureSet.EnumType

#[rattlefmt::skip]
const FEATURE_SET_ENUM_TYPE_VALUES: [ValueRow; 3] = [
    ValueRow("ENUM_TYPE_UNKNOWN", 0), ValueRow("OPEN", 1), ValueRow("CLOSED", 2),
];

// ---- enum 11: google.protobuf.FeatureSet.RepeatedFieldEncoding

#[rattlefmt::skip]
const FEATURE_SET_REPEATED_FIELD_ENCODING_VALUES: [ValueRow; 3] = [
    ValueRow("REPEATED_FIELD_ENCODING_UNKNOWN", 0), ValueRow("PACKED", 1), ValueRow("EXPANDED", 2),
];

// ---- enum 12: google.protobuf.FeatureSet.Utf8Validation

#[rattlefmt::skip]
const FEATURE_SET_UTF8_VALIDATION_VALUES: [ValueRow; 3] = [
    ValueRow("UTF8_VALIDATION_UNKNOWN", 0), ValueRow("NONE", 1), ValueRow("VERIFY", 2),
];

// ---- enum 13: google.protobuf.FeatureSet.MessageEncoding

#[rattlefmt::skip]
const FEATURE_SET_MESSAGE_ENCODING_VALUES: [ValueRow; 3] = [
    ValueRow("MESSAGE_ENCODING_UNKNOWN", 0), ValueRow("LENGTH_PREFIXED", 1), ValueRow("DELIMITED", 2),
];

// ---- enum 14: google.protobuf.FeatureSet.JsonFormat

#[rattlefmt::skip]
const FEATURE_SET_JSON_FORMAT_VALUES: [ValueRow; 3] = [
    ValueRow("JSON_FORMAT_UNKNOWN", 0), ValueRow("ALLOW", 1), ValueRow("LEGACY_BEST_EFFORT", 2),
];

// ---- enum 15: google.protobuf.GeneratedCodeInfo.Annotation.Semantic

#[rattlefmt::skip]
const GENERATED_CODE_INFO_ANNOTATION_SEMANTIC_VALUES: [ValueRow; 3] = [
    ValueRow("NONE", 0), ValueRow("SET", 1), ValueRow("ALIAS", 2),
];

// ---- enum 16: google.protobuf.Edition

#[rattlefmt::skip]
const EDITION_VALUES: [ValueRow; 9] = [
    ValueRow("EDITION_UNKNOWN", 0), ValueRow("EDITION_PROTO2", 998), ValueRow("EDITION_PROTO3", 999),
    ValueRow("EDITION_2023", 1000), ValueRow("EDITION_1_TEST_ONLY", 1), ValueRow("EDITION_2_TEST_ONLY", 2),
    ValueRow("EDITION_99997_TEST_ONLY", 99997), ValueRow("EDITION_99998_TEST_ONLY", 99998),
    ValueRow("EDITION_99999_TEST_ONLY", 99999),
];

#[rattlefmt::skip]
pub(crate) static ENUMS: [EnumRow; 17] = [
    EnumRow("google.protobuf.ExtensionRangeOptions.VerificationState", &EXTENSION_RANGE_OPTIONS_VERIFICATION_STATE_VALUES),
    EnumRow("google.protobuf.FieldDescriptorProto.Type", &FIELD_DESCRIPTOR_PROTO_TYPE_VALUES),
    EnumRow("google.protobuf.FieldDescriptorProto.Label", &FIELD_DESCRIPTOR_PROTO_LABEL_VALUES),
    EnumRow("google.protobuf.FileOptions.OptimizeMode", &FILE_OPTIONS_OPTIMIZE_MODE_VALUES),
    EnumRow("google.protobuf.FieldOptions.CType", &FIELD_OPTIONS_CTYPE_VALUES),
    EnumRow("google.protobuf.FieldOptions.JSType", &FIELD_OPTIONS_JSTYPE_VALUES),
    EnumRow("google.protobuf.FieldOptions.OptionRetention", &FIELD_OPTIONS_OPTION_RETENTION_VALUES),
    EnumRow("google.protobuf.FieldOptions.OptionTargetType", &FIELD_OPTIONS_OPTION_TARGET_TYPE_VALUES),
    EnumRow("google.protobuf.MethodOptions.IdempotencyLevel", &METHOD_OPTIONS_IDEMPOTENCY_LEVEL_VALUES),
    EnumRow("google.protobuf.FeatureSet.FieldPresence", &FEATURE_SET_FIELD_PRESENCE_VALUES),
    EnumRow("google.protobuf.FeatureSet.EnumType", &FEATURE_SET_ENUM_TYPE_VALUES),
    EnumRow("google.protobuf.FeatureSet.RepeatedFieldEncoding", &FEATURE_SET_REPEATED_FIELD_ENCODING_VALUES),
    EnumRow("google.protobuf.FeatureSet.Utf8Validation", &FEATURE_SET_UTF8_VALIDATION_VALUES),
    EnumRow("google.protobuf.FeatureSet.MessageEncoding", &FEATURE_SET_MESSAGE_ENCODING_VALUES),
    EnumRow("google.protobuf.FeatureSet.JsonFormat", &FEATURE_SET_JSON_FORMAT_VALUES),
    EnumRow("google.protobuf.GeneratedCodeInfo.Annotation.Semantic", &GENERATED_CODE_INFO_ANNOTATION_SEMANTIC_VALUES),
    EnumRow("google.protobuf.Edition", &EDITION_VALUES),
];
