// The built-in files, one line a field.
use crate::row::Beside::{Default, Member, Nothing, Options};
use crate::row::Kind::{
    Bool, Bytes, Double, Enum, Float, Int32, Int64, Message, String, Uint32, Uint64,
};
use crate::row::Label::{Optional, Repeated, Required};
use crate::row::OptionRow::{Number, Text};
use crate::row::{EnumRow, FieldRow, FileRow, MessageRow, RangeRow, Rest, TopRow, ValueRow};

/// No oneofs, ranges and options.
const PLAIN: Rest = Rest(&[], &[], &[], None);

/// The numbers that most options leave to extensions.
const EXTENSIONS: RangeRow = RangeRow(1000, 536870912);

/// The options that are not interpreted yet.
#[rattlefmt::skip]
const UNINTERPRETED: FieldRow =
    FieldRow(999, "uninterpreted_option", "uninterpretedOption", Repeated, Message(".google.protobuf.UninterpretedOption"), Nothing);

// ---- google/protobuf/any.proto

#[rattlefmt::skip]
const ANY_FIELDS: [FieldRow; 2] = [
    FieldRow(1, "type_url", "typeUrl", Optional, String, Nothing),
    FieldRow(2, "value", "value", Optional, Bytes, Nothing),
];

#[rattlefmt::skip]
const ANY_MESSAGES: [TopRow; 1] = [
    TopRow(MessageRow("Any", &ANY_FIELDS, &[], PLAIN), &[]),
];

#[rattlefmt::skip]
pub(crate) static FILE_ANY: FileRow = FileRow {
    name: "google/protobuf/any.proto",
    package: "google.protobuf",
    dependency: &[],
    messages: &ANY_MESSAGES,
    enums: &[],
    options: &[
        Text(1, "com.google.protobuf"),
        Text(8, "AnyProto"),
        Number(10, 1),
        Text(11, "google.golang.org/protobuf/types/known/anypb"),
        Text(36, "GPB"),
        Text(37, "Google.Protobuf.WellKnownTypes"),
    ],
    syntax: Some("proto3"),
};

// ---- google/protobuf/source_context.proto

#[rattlefmt::skip]
const SOURCE_CONTEXT_FIELDS: [FieldRow; 1] = [
    FieldRow(1, "file_name", "fileName", Optional, String, Nothing),
];

#[rattlefmt::skip]
const SOURCE_CONTEXT_MESSAGES: [TopRow; 1] = [
    TopRow(MessageRow("SourceContext", &SOURCE_CONTEXT_FIELDS, &[], PLAIN), &[]),
];

#[rattlefmt::skip]
pub(crate) static FILE_SOURCE_CONTEXT: FileRow = FileRow {
    name: "google/protobuf/source_context.proto",
    package: "google.protobuf",
    dependency: &[],
    messages: &SOURCE_CONTEXT_MESSAGES,
    enums: &[],
    options: &[
        Text(1, "com.google.protobuf"),
        Text(8, "SourceContextProto"),
        Number(10, 1),
        Text(11, "google.golang.org/protobuf/types/known/sourcecontextpb"),
        Text(36, "GPB"),
        Text(37, "Google.Protobuf.WellKnownTypes"),
    ],
    syntax: Some("proto3"),
};

// ---- google/protobuf/type.proto

#[rattlefmt::skip]
const TYPE_FIELDS: [FieldRow; 7] = [
    FieldRow(1, "name", "name", Optional, String, Nothing),
    FieldRow(2, "fields", "fields", Repeated, Message(".google.protobuf.Field"), Nothing),
    FieldRow(3, "oneofs", "oneofs", Repeated, String, Nothing),
    FieldRow(4, "options", "options", Repeated, Message(".google.protobuf.Option"), Nothing),
    FieldRow(5, "source_context", "sourceContext", Optional, Message(".google.protobuf.SourceContext"), Nothing),
    FieldRow(6, "syntax", "syntax", Optional, Enum(".google.protobuf.Syntax"), Nothing),
    FieldRow(7, "edition", "edition", Optional, String, Nothing),
];

#[rattlefmt::skip]
const FIELD_FIELDS: [FieldRow; 10] = [
    FieldRow(1, "kind", "kind", Optional, Enum(".google.protobuf.Field.Kind"), Nothing),
    FieldRow(2, "cardinality", "cardinality", Optional, Enum(".google.protobuf.Field.Cardinality"), Nothing),
    FieldRow(3, "number", "number", Optional, Int32, Nothing),
    FieldRow(4, "name", "name", Optional, String, Nothing),
    FieldRow(6, "type_url", "typeUrl", Optional, String, Nothing),
    FieldRow(7, "oneof_index", "oneofIndex", Optional, Int32, Nothing),
    FieldRow(8, "packed", "packed", Optional, Bool, Nothing),
    FieldRow(9, "options", "options", Repeated, Message(".google.protobuf.Option"), Nothing),
    FieldRow(10, "json_name", "jsonName", Optional, String, Nothing),
    FieldRow(11, "default_value", "defaultValue", Optional, String, Nothing),
];

#[rattlefmt::skip]
const FIELD_KIND_VALUES: [ValueRow; 19] = [
    ValueRow("TYPE_UNKNOWN", 0), ValueRow("TYPE_DOUBLE", 1), ValueRow("TYPE_FLOAT", 2), ValueRow("TYPE_INT64", 3),
    ValueRow("TYPE_UINT64", 4), ValueRow("TYPE_INT32", 5), ValueRow("TYPE_FIXED64", 6), ValueRow("TYPE_FIXED32", 7),
    ValueRow("TYPE_BOOL", 8), ValueRow("TYPE_STRING", 9), ValueRow("TYPE_GROUP", 10), ValueRow("TYPE_MESSAGE", 11),
    ValueRow("TYPE_BYTES", 12), ValueRow("TYPE_UINT32", 13), ValueRow("TYPE_ENUM", 14), ValueRow("TYPE_SFIXED32", 15),
    ValueRow("TYPE_SFIXED64", 16), ValueRow("TYPE_SINT32", 17), ValueRow("TYPE_SINT64", 18),
];

#[rattlefmt::skip]
const FIELD_CARDINALITY_VALUES: [ValueRow; 4] = [
    ValueRow("CARDINALITY_UNKNOWN", 0), ValueRow("CARDINALITY_OPTIONAL", 1), ValueRow("CARDINALITY_REQUIRED", 2),
    ValueRow("CARDINALITY_REPEATED", 3),
];

#[rattlefmt::skip]
const FIELD_ENUMS: [EnumRow; 2] = [
    EnumRow("Kind", &FIELD_KIND_VALUES),
    EnumRow("Cardinality", &FIELD_CARDINALITY_VALUES),
];

#[rattlefmt::skip]
const ENUM_FIELDS: [FieldRow; 6] = [
    FieldRow(1, "name", "name", Optional, String, Nothing),
    FieldRow(2, "enumvalue", "enumvalue", Repeated, Message(".google.protobuf.EnumValue"), Nothing),
    FieldRow(3, "options", "options", Repeated, Message(".google.protobuf.Option"), Nothing),
    FieldRow(4, "source_context", "sourceContext", Optional, Message(".google.protobuf.SourceContext"), Nothing),
    FieldRow(5, "syntax", "syntax", Optional, Enum(".google.protobuf.Syntax"), Nothing),
    FieldRow(6, "edition", "edition", Optional, String, Nothing),
];

#[rattlefmt::skip]
const ENUM_VALUE_FIELDS: [FieldRow; 3] = [
    FieldRow(1, "name", "name", Optional, String, Nothing),
    FieldRow(2, "number", "number", Optional, Int32, Nothing),
    FieldRow(3, "options", "options", Repeated, Message(".google.protobuf.Option"), Nothing),
];

#[rattlefmt::skip]
const OPTION_FIELDS: [FieldRow; 2] = [
    FieldRow(1, "name", "name", Optional, String, Nothing),
    FieldRow(2, "value", "value", Optional, Message(".google.protobuf.Any"), Nothing),
];

#[rattlefmt::skip]
const SYNTAX_VALUES: [ValueRow; 3] = [
    ValueRow("SYNTAX_PROTO2", 0), ValueRow("SYNTAX_PROTO3", 1), ValueRow("SYNTAX_EDITIONS", 2),
];

#[rattlefmt::skip]
const TYPE_MESSAGES: [TopRow; 5] = [
    TopRow(MessageRow("Type", &TYPE_FIELDS, &[], PLAIN), &[]),
    TopRow(MessageRow("Field", &FIELD_FIELDS, &FIELD_ENUMS, PLAIN), &[]),
    TopRow(MessageRow("Enum", &ENUM_FIELDS, &[], PLAIN), &[]),
    TopRow(MessageRow("EnumValue", &ENUM_VALUE_FIELDS, &[], PLAIN), &[]),
    TopRow(MessageRow("Option", &OPTION_FIELDS, &[], PLAIN), &[]),
];

#[rattlefmt::skip]
const FILE_TYPE_ENUMS: [EnumRow; 1] = [
    EnumRow("Syntax", &SYNTAX_VALUES),
];

#[rattlefmt::skip]
pub(crate) static FILE_TYPE: FileRow = FileRow {
    name: "google/protobuf/type.proto",
    package: "google.protobuf",
    dependency: &["google/protobuf/any.proto", "google/protobuf/source_context.proto"],
    messages: &TYPE_MESSAGES,
    enums: &FILE_TYPE_ENUMS,
    options: &[
        Text(1, "com.google.protobuf"),
        Text(8, "TypeProto"),
        Number(10, 1),
        Text(11, "google.golang.org/protobuf/types/known/typepb"),
        Number(31, 1),
        Text(36, "GPB"),
        Text(37, "Google.Protobuf.WellKnownTypes"),
    ],
    syntax: Some("proto3"),
};

// ---- google/protobuf/api.proto

#[rattlefmt::skip]
const API_FIELDS: [FieldRow; 7] = [
    FieldRow(1, "name", "name", Optional, String, Nothing),
    FieldRow(2, "methods", "methods", Repeated, Message(".google.protobuf.Method"), Nothing),
    FieldRow(3, "options", "options", Repeated, Message(".google.protobuf.Option"), Nothing),
    FieldRow(4, "version", "version", Optional, String, Nothing),
    FieldRow(5, "source_context", "sourceContext", Optional, Message(".google.protobuf.SourceContext"), Nothing),
    FieldRow(6, "mixins", "mixins", Repeated, Message(".google.protobuf.Mixin"), Nothing),
    FieldRow(7, "syntax", "syntax", Optional, Enum(".google.protobuf.Syntax"), Nothing),
];

#[rattlefmt::skip]
const METHOD_FIELDS: [FieldRow; 7] = [
    FieldRow(1, "name", "name", Optional, String, Nothing),
    FieldRow(2, "request_type_url", "requestTypeUrl", Optional, String, Nothing),
    FieldRow(3, "request_streaming", "requestStreaming", Optional, Bool, Nothing),
    FieldRow(4, "response_type_url", "responseTypeUrl", Optional, String, Nothing),
    FieldRow(5, "response_streaming", "responseStreaming", Optional, Bool, Nothing),
    FieldRow(6, "options", "options", Repeated, Message(".google.protobuf.Option"), Nothing),
    FieldRow(7, "syntax", "syntax", Optional, Enum(".google.protobuf.Syntax"), Nothing),
];

#[rattlefmt::skip]
const MIXIN_FIELDS: [FieldRow; 2] = [
    FieldRow(1, "name", "name", Optional, String, Nothing),
    FieldRow(2, "root", "root", Optional, String, Nothing),
];

#[rattlefmt::skip]
const API_MESSAGES: [TopRow; 3] = [
    TopRow(MessageRow("Api", &API_FIELDS, &[], PLAIN), &[]),
    TopRow(MessageRow("Method", &METHOD_FIELDS, &[], PLAIN), &[]),
    TopRow(MessageRow("Mixin", &MIXIN_FIELDS, &[], PLAIN), &[]),
];

#[rattlefmt::skip]
pub(crate) static FILE_API: FileRow = FileRow {
    name: "google/protobuf/api.proto",
    package: "google.protobuf",
    dependency: &["google/protobuf/source_context.proto", "google/protobuf/type.proto"],
    messages: &API_MESSAGES,
    enums: &[],
    options: &[
        Text(1, "com.google.protobuf"),
        Text(8, "ApiProto"),
        Number(10, 1),
        Text(11, "google.golang.org/protobuf/types/known/apipb"),
        Text(36, "GPB"),
        Text(37, "Google.Protobuf.WellKnownTypes"),
    ],
    syntax: Some("proto3"),
};

// ---- google/protobuf/descriptor.proto

#[rattlefmt::skip]
const FILE_DESCRIPTOR_SET_FIELDS: [FieldRow; 1] = [
    FieldRow(1, "file", "file", Repeated, Message(".google.protobuf.FileDescriptorProto"), Nothing),
];

#[rattlefmt::skip]
const FILE_DESCRIPTOR_PROTO_FIELDS: [FieldRow; 13] = [
    FieldRow(1, "name", "name", Optional, String, Nothing),
    FieldRow(2, "package", "package", Optional, String, Nothing),
    FieldRow(3, "dependency", "dependency", Repeated, String, Nothing),
    FieldRow(10, "public_dependency", "publicDependency", Repeated, Int32, Nothing),
    FieldRow(11, "weak_dependency", "weakDependency", Repeated, Int32, Nothing),
    FieldRow(4, "message_type", "messageType", Repeated, Message(".google.protobuf.DescriptorProto"), Nothing),
    FieldRow(5, "enum_type", "enumType", Repeated, Message(".google.protobuf.EnumDescriptorProto"), Nothing),
    FieldRow(6, "service", "service", Repeated, Message(".google.protobuf.ServiceDescriptorProto"), Nothing),
    FieldRow(7, "extension", "extension", Repeated, Message(".google.protobuf.FieldDescriptorProto"), Nothing),
    FieldRow(8, "options", "options", Optional, Message(".google.protobuf.FileOptions"), Nothing),
    FieldRow(9, "source_code_info", "sourceCodeInfo", Optional, Message(".google.protobuf.SourceCodeInfo"), Nothing),
    FieldRow(12, "syntax", "syntax", Optional, String, Nothing),
    FieldRow(14, "edition", "edition", Optional, Enum(".google.protobuf.Edition"), Nothing),
];

#[rattlefmt::skip]
const DESCRIPTOR_PROTO_EXTENSION_RANGE_FIELDS: [FieldRow; 3] = [
    FieldRow(1, "start", "start", Optional, Int32, Nothing),
    FieldRow(2, "end", "end", Optional, Int32, Nothing),
    FieldRow(3, "options", "options", Optional, Message(".google.protobuf.ExtensionRangeOptions"), Nothing),
];

#[rattlefmt::skip]
const DESCRIPTOR_PROTO_RESERVED_RANGE_FIELDS: [FieldRow; 2] = [
    FieldRow(1, "start", "start", Optional, Int32, Nothing),
    FieldRow(2, "end", "end", Optional, Int32, Nothing),
];

#[rattlefmt::skip]
const DESCRIPTOR_PROTO_NESTED: [MessageRow; 2] = [
    MessageRow("ExtensionRange", &DESCRIPTOR_PROTO_EXTENSION_RANGE_FIELDS, &[], PLAIN),
    MessageRow("ReservedRange", &DESCRIPTOR_PROTO_RESERVED_RANGE_FIELDS, &[], PLAIN),
];

#[rattlefmt::skip]
const DESCRIPTOR_PROTO_FIELDS: [FieldRow; 10] = [
    FieldRow(1, "name", "name", Optional, String, Nothing),
    FieldRow(2, "field", "field", Repeated, Message(".google.protobuf.FieldDescriptorProto"), Nothing),
    FieldRow(6, "extension", "extension", Repeated, Message(".google.protobuf.FieldDescriptorProto"), Nothing),
    FieldRow(3, "nested_type", "nestedType", Repeated, Message(".google.protobuf.DescriptorProto"), Nothing),
    FieldRow(4, "enum_type", "enumType", Repeated, Message(".google.protobuf.EnumDescriptorProto"), Nothing),
    FieldRow(5, "extension_range", "extensionRange", Repeated, Message(".google.protobuf.DescriptorProto.ExtensionRange"), Nothing),
    FieldRow(8, "oneof_decl", "oneofDecl", Repeated, Message(".google.protobuf.OneofDescriptorProto"), Nothing),
    FieldRow(7, "options", "options", Optional, Message(".google.protobuf.MessageOptions"), Nothing),
    FieldRow(9, "reserved_range", "reservedRange", Repeated, Message(".google.protobuf.DescriptorProto.ReservedRange"), Nothing),
    FieldRow(10, "reserved_name", "reservedName", Repeated, String, Nothing),
];

#[rattlefmt::skip]
const EXTENSION_RANGE_OPTIONS_DECLARATION_FIELDS: [FieldRow; 5] = [
    FieldRow(1, "number", "number", Optional, Int32, Nothing),
    FieldRow(2, "full_name", "fullName", Optional, String, Nothing),
    FieldRow(3, "type", "type", Optional, String, Nothing),
    FieldRow(5, "reserved", "reserved", Optional, Bool, Nothing),
    FieldRow(6, "repeated", "repeated", Optional, Bool, Nothing),
];

#[rattlefmt::skip]
const EXTENSION_RANGE_OPTIONS_NESTED: [MessageRow; 1] = [
    MessageRow("Declaration", &EXTENSION_RANGE_OPTIONS_DECLARATION_FIELDS, &[], Rest(&[], &[], &[RangeRow(4, 5)], None)),
];

#[rattlefmt::skip]
const EXTENSION_RANGE_OPTIONS_FIELDS: [FieldRow; 4] = [
    UNINTERPRETED,
    FieldRow(2, "declaration", "declaration", Repeated, Message(".google.protobuf.ExtensionRangeOptions.Declaration"), Options(&[])),
    FieldRow(50, "features", "features", Optional, Message(".google.protobuf.FeatureSet"), Nothing),
    FieldRow(3, "verification", "verification", Optional, Enum(".google.protobuf.ExtensionRangeOptions.VerificationState"), Default("UNVERIFIED")),
];

#[rattlefmt::skip]
const EXTENSION_RANGE_OPTIONS_VERIFICATION_STATE_VALUES: [ValueRow; 2] = [
    ValueRow("DECLARATION", 0), ValueRow("UNVERIFIED", 1),
];

#[rattlefmt::skip]
const EXTENSION_RANGE_OPTIONS_ENUMS: [EnumRow; 1] = [
    EnumRow("VerificationState", &EXTENSION_RANGE_OPTIONS_VERIFICATION_STATE_VALUES),
];

#[rattlefmt::skip]
const FIELD_DESCRIPTOR_PROTO_FIELDS: [FieldRow; 11] = [
    FieldRow(1, "name", "name", Optional, String, Nothing),
    FieldRow(3, "number", "number", Optional, Int32, Nothing),
    FieldRow(4, "label", "label", Optional, Enum(".google.protobuf.FieldDescriptorProto.Label"), Nothing),
    FieldRow(5, "type", "type", Optional, Enum(".google.protobuf.FieldDescriptorProto.Type"), Nothing),
    FieldRow(6, "type_name", "typeName", Optional, String, Nothing),
    FieldRow(2, "extendee", "extendee", Optional, String, Nothing),
    FieldRow(7, "default_value", "defaultValue", Optional, String, Nothing),
    FieldRow(9, "oneof_index", "oneofIndex", Optional, Int32, Nothing),
    FieldRow(10, "json_name", "jsonName", Optional, String, Nothing),
    FieldRow(8, "options", "options", Optional, Message(".google.protobuf.FieldOptions"), Nothing),
    FieldRow(17, "proto3_optional", "proto3Optional", Optional, Bool, Nothing),
];

#[rattlefmt::skip]
const FIELD_DESCRIPTOR_PROTO_TYPE_VALUES: [ValueRow; 18] = [
    ValueRow("TYPE_DOUBLE", 1), ValueRow("TYPE_FLOAT", 2), ValueRow("TYPE_INT64", 3), ValueRow("TYPE_UINT64", 4),
    ValueRow("TYPE_INT32", 5), ValueRow("TYPE_FIXED64", 6), ValueRow("TYPE_FIXED32", 7), ValueRow("TYPE_BOOL", 8),
    ValueRow("TYPE_STRING", 9), ValueRow("TYPE_GROUP", 10), ValueRow("TYPE_MESSAGE", 11), ValueRow("TYPE_BYTES", 12),
    ValueRow("TYPE_UINT32", 13), ValueRow("TYPE_ENUM", 14), ValueRow("TYPE_SFIXED32", 15),
    ValueRow("TYPE_SFIXED64", 16), ValueRow("TYPE_SINT32", 17), ValueRow("TYPE_SINT64", 18),
];

#[rattlefmt::skip]
const FIELD_DESCRIPTOR_PROTO_LABEL_VALUES: [ValueRow; 3] = [
    ValueRow("LABEL_OPTIONAL", 1), ValueRow("LABEL_REPEATED", 3), ValueRow("LABEL_REQUIRED", 2),
];

#[rattlefmt::skip]
const FIELD_DESCRIPTOR_PROTO_ENUMS: [EnumRow; 2] = [
    EnumRow("Type", &FIELD_DESCRIPTOR_PROTO_TYPE_VALUES),
    EnumRow("Label", &FIELD_DESCRIPTOR_PROTO_LABEL_VALUES),
];

#[rattlefmt::skip]
const ONEOF_DESCRIPTOR_PROTO_FIELDS: [FieldRow; 2] = [
    FieldRow(1, "name", "name", Optional, String, Nothing),
    FieldRow(2, "options", "options", Optional, Message(".google.protobuf.OneofOptions"), Nothing),
];

#[rattlefmt::skip]
const ENUM_DESCRIPTOR_PROTO_ENUM_RESERVED_RANGE_FIELDS: [FieldRow; 2] = [
    FieldRow(1, "start", "start", Optional, Int32, Nothing),
    FieldRow(2, "end", "end", Optional, Int32, Nothing),
];

#[rattlefmt::skip]
const ENUM_DESCRIPTOR_PROTO_NESTED: [MessageRow; 1] = [
    MessageRow("EnumReservedRange", &ENUM_DESCRIPTOR_PROTO_ENUM_RESERVED_RANGE_FIELDS, &[], PLAIN),
];

#[rattlefmt::skip]
const ENUM_DESCRIPTOR_PROTO_FIELDS: [FieldRow; 5] = [
    FieldRow(1, "name", "name", Optional, String, Nothing),
    FieldRow(2, "value", "value", Repeated, Message(".google.protobuf.EnumValueDescriptorProto"), Nothing),
    FieldRow(3, "options", "options", Optional, Message(".google.protobuf.EnumOptions"), Nothing),
    FieldRow(4, "reserved_range", "reservedRange", Repeated, Message(".google.protobuf.EnumDescriptorProto.EnumReservedRange"), Nothing),
    FieldRow(5, "reserved_name", "reservedName", Repeated, String, Nothing),
];

#[rattlefmt::skip]
const ENUM_VALUE_DESCRIPTOR_PROTO_FIELDS: [FieldRow; 3] = [
    FieldRow(1, "name", "name", Optional, String, Nothing),
    FieldRow(2, "number", "number", Optional, Int32, Nothing),
    FieldRow(3, "options", "options", Optional, Message(".google.protobuf.EnumValueOptions"), Nothing),
];

#[rattlefmt::skip]
const SERVICE_DESCRIPTOR_PROTO_FIELDS: [FieldRow; 3] = [
    FieldRow(1, "name", "name", Optional, String, Nothing),
    FieldRow(2, "method", "method", Repeated, Message(".google.protobuf.MethodDescriptorProto"), Nothing),
    FieldRow(3, "options", "options", Optional, Message(".google.protobuf.ServiceOptions"), Nothing),
];

#[rattlefmt::skip]
const METHOD_DESCRIPTOR_PROTO_FIELDS: [FieldRow; 6] = [
    FieldRow(1, "name", "name", Optional, String, Nothing),
    FieldRow(2, "input_type", "inputType", Optional, String, Nothing),
    FieldRow(3, "output_type", "outputType", Optional, String, Nothing),
    FieldRow(4, "options", "options", Optional, Message(".google.protobuf.MethodOptions"), Nothing),
    FieldRow(5, "client_streaming", "clientStreaming", Optional, Bool, Default("false")),
    FieldRow(6, "server_streaming", "serverStreaming", Optional, Bool, Default("false")),
];

#[rattlefmt::skip]
const FILE_OPTIONS_FIELDS: [FieldRow; 22] = [
    FieldRow(1, "java_package", "javaPackage", Optional, String, Nothing),
    FieldRow(8, "java_outer_classname", "javaOuterClassname", Optional, String, Nothing),
    FieldRow(10, "java_multiple_files", "javaMultipleFiles", Optional, Bool, Default("false")),
    FieldRow(20, "java_generate_equals_and_hash", "javaGenerateEqualsAndHash", Optional, Bool, Options(&[Number(3, 1)])),
    FieldRow(27, "java_string_check_utf8", "javaStringCheckUtf8", Optional, Bool, Default("false")),
    FieldRow(9, "optimize_for", "optimizeFor", Optional, Enum(".google.protobuf.FileOptions.OptimizeMode"), Default("SPEED")),
    FieldRow(11, "go_package", "goPackage", Optional, String, Nothing),
    FieldRow(16, "cc_generic_services", "ccGenericServices", Optional, Bool, Default("false")),
    FieldRow(17, "java_generic_services", "javaGenericServices", Optional, Bool, Default("false")),
    FieldRow(18, "py_generic_services", "pyGenericServices", Optional, Bool, Default("false")),
    FieldRow(42, "php_generic_services", "phpGenericServices", Optional, Bool, Default("false")),
    FieldRow(23, "deprecated", "deprecated", Optional, Bool, Default("false")),
    FieldRow(31, "cc_enable_arenas", "ccEnableArenas", Optional, Bool, Default("true")),
    FieldRow(36, "objc_class_prefix", "objcClassPrefix", Optional, String, Nothing),
    FieldRow(37, "csharp_namespace", "csharpNamespace", Optional, String, Nothing),
    FieldRow(39, "swift_prefix", "swiftPrefix", Optional, String, Nothing),
    FieldRow(40, "php_class_prefix", "phpClassPrefix", Optional, String, Nothing),
    FieldRow(41, "php_namespace", "phpNamespace", Optional, String, Nothing),
    FieldRow(44, "php_metadata_namespace", "phpMetadataNamespace", Optional, String, Nothing),
    FieldRow(45, "ruby_package", "rubyPackage", Optional, String, Nothing),
    FieldRow(50, "features", "features", Optional, Message(".google.protobuf.FeatureSet"), Nothing),
    UNINTERPRETED,
];

#[rattlefmt::skip]
const FILE_OPTIONS_OPTIMIZE_MODE_VALUES: [ValueRow; 3] = [
    ValueRow("SPEED", 1), ValueRow("CODE_SIZE", 2), ValueRow("LITE_RUNTIME", 3),
];

#[rattlefmt::skip]
const FILE_OPTIONS_ENUMS: [EnumRow; 1] = [
    EnumRow("OptimizeMode", &FILE_OPTIONS_OPTIMIZE_MODE_VALUES),
];

#[rattlefmt::skip]
const MESSAGE_OPTIONS_FIELDS: [FieldRow; 7] = [
    FieldRow(1, "message_set_wire_format", "messageSetWireFormat", Optional, Bool, Default("false")),
    FieldRow(2, "no_standard_descriptor_accessor", "noStandardDescriptorAccessor", Optional, Bool, Default("false")),
    FieldRow(3, "deprecated", "deprecated", Optional, Bool, Default("false")),
    FieldRow(7, "map_entry", "mapEntry", Optional, Bool, Nothing),
    FieldRow(11, "deprecated_legacy_json_field_conflicts", "deprecatedLegacyJsonFieldConflicts", Optional, Bool, Options(&[Number(3, 1)])),
    FieldRow(12, "features", "features", Optional, Message(".google.protobuf.FeatureSet"), Nothing),
    UNINTERPRETED,
];

#[rattlefmt::skip]
const FIELD_OPTIONS_EDITION_DEFAULT_FIELDS: [FieldRow; 2] = [
    FieldRow(3, "edition", "edition", Optional, Enum(".google.protobuf.Edition"), Nothing),
    FieldRow(2, "value", "value", Optional, String, Nothing),
];

#[rattlefmt::skip]
const FIELD_OPTIONS_NESTED: [MessageRow; 1] = [
    MessageRow("EditionDefault", &FIELD_OPTIONS_EDITION_DEFAULT_FIELDS, &[], PLAIN),
];

#[rattlefmt::skip]
const FIELD_OPTIONS_FIELDS: [FieldRow; 13] = [
    FieldRow(1, "ctype", "ctype", Optional, Enum(".google.protobuf.FieldOptions.CType"), Default("STRING")),
    FieldRow(2, "packed", "packed", Optional, Bool, Nothing),
    FieldRow(6, "jstype", "jstype", Optional, Enum(".google.protobuf.FieldOptions.JSType"), Default("JS_NORMAL")),
    FieldRow(5, "lazy", "lazy", Optional, Bool, Default("false")),
    FieldRow(15, "unverified_lazy", "unverifiedLazy", Optional, Bool, Default("false")),
    FieldRow(3, "deprecated", "deprecated", Optional, Bool, Default("false")),
    FieldRow(10, "weak", "weak", Optional, Bool, Default("false")),
    FieldRow(16, "debug_redact", "debugRedact", Optional, Bool, Default("false")),
    FieldRow(17, "retention", "retention", Optional, Enum(".google.protobuf.FieldOptions.OptionRetention"), Nothing),
    FieldRow(19, "targets", "targets", Repeated, Enum(".google.protobuf.FieldOptions.OptionTargetType"), Nothing),
    FieldRow(20, "edition_defaults", "editionDefaults", Repeated, Message(".google.protobuf.FieldOptions.EditionDefault"), Nothing),
    FieldRow(21, "features", "features", Optional, Message(".google.protobuf.FeatureSet"), Nothing),
    UNINTERPRETED,
];

#[rattlefmt::skip]
const FIELD_OPTIONS_CTYPE_VALUES: [ValueRow; 3] = [
    ValueRow("STRING", 0), ValueRow("CORD", 1), ValueRow("STRING_PIECE", 2),
];

#[rattlefmt::skip]
const FIELD_OPTIONS_JSTYPE_VALUES: [ValueRow; 3] = [
    ValueRow("JS_NORMAL", 0), ValueRow("JS_STRING", 1), ValueRow("JS_NUMBER", 2),
];

#[rattlefmt::skip]
const FIELD_OPTIONS_OPTION_RETENTION_VALUES: [ValueRow; 3] = [
    ValueRow("RETENTION_UNKNOWN", 0), ValueRow("RETENTION_RUNTIME", 1), ValueRow("RETENTION_SOURCE", 2),
];

#[rattlefmt::skip]
const FIELD_OPTIONS_OPTION_TARGET_TYPE_VALUES: [ValueRow; 10] = [
    ValueRow("TARGET_TYPE_UNKNOWN", 0), ValueRow("TARGET_TYPE_FILE", 1), ValueRow("TARGET_TYPE_EXTENSION_RANGE", 2),
    ValueRow("TARGET_TYPE_MESSAGE", 3), ValueRow("TARGET_TYPE_FIELD", 4), ValueRow("TARGET_TYPE_ONEOF", 5),
    ValueRow("TARGET_TYPE_ENUM", 6), ValueRow("TARGET_TYPE_ENUM_ENTRY", 7), ValueRow("TARGET_TYPE_SERVICE", 8),
    ValueRow("TARGET_TYPE_METHOD", 9),
];

#[rattlefmt::skip]
const FIELD_OPTIONS_ENUMS: [EnumRow; 4] = [
    EnumRow("CType", &FIELD_OPTIONS_CTYPE_VALUES),
    EnumRow("JSType", &FIELD_OPTIONS_JSTYPE_VALUES),
    EnumRow("OptionRetention", &FIELD_OPTIONS_OPTION_RETENTION_VALUES),
    EnumRow("OptionTargetType", &FIELD_OPTIONS_OPTION_TARGET_TYPE_VALUES),
];

#[rattlefmt::skip]
const ONEOF_OPTIONS_FIELDS: [FieldRow; 2] = [
    FieldRow(1, "features", "features", Optional, Message(".google.protobuf.FeatureSet"), Nothing),
    UNINTERPRETED,
];

#[rattlefmt::skip]
const ENUM_OPTIONS_FIELDS: [FieldRow; 5] = [
    FieldRow(2, "allow_alias", "allowAlias", Optional, Bool, Nothing),
    FieldRow(3, "deprecated", "deprecated", Optional, Bool, Default("false")),
    FieldRow(6, "deprecated_legacy_json_field_conflicts", "deprecatedLegacyJsonFieldConflicts", Optional, Bool, Options(&[Number(3, 1)])),
    FieldRow(7, "features", "features", Optional, Message(".google.protobuf.FeatureSet"), Nothing),
    UNINTERPRETED,
];

#[rattlefmt::skip]
const ENUM_VALUE_OPTIONS_FIELDS: [FieldRow; 4] = [
    FieldRow(1, "deprecated", "deprecated", Optional, Bool, Default("false")),
    FieldRow(2, "features", "features", Optional, Message(".google.protobuf.FeatureSet"), Nothing),
    FieldRow(3, "debug_redact", "debugRedact", Optional, Bool, Default("false")),
    UNINTERPRETED,
];

#[rattlefmt::skip]
const SERVICE_OPTIONS_FIELDS: [FieldRow; 3] = [
    FieldRow(34, "features", "features", Optional, Message(".google.protobuf.FeatureSet"), Nothing),
    FieldRow(33, "deprecated", "deprecated", Optional, Bool, Default("false")),
    UNINTERPRETED,
];

#[rattlefmt::skip]
const METHOD_OPTIONS_FIELDS: [FieldRow; 4] = [
    FieldRow(33, "deprecated", "deprecated", Optional, Bool, Default("false")),
    FieldRow(34, "idempotency_level", "idempotencyLevel", Optional, Enum(".google.protobuf.MethodOptions.IdempotencyLevel"), Default("IDEMPOTENCY_UNKNOWN")),
    FieldRow(35, "features", "features", Optional, Message(".google.protobuf.FeatureSet"), Nothing),
    UNINTERPRETED,
];

#[rattlefmt::skip]
const METHOD_OPTIONS_IDEMPOTENCY_LEVEL_VALUES: [ValueRow; 3] = [
    ValueRow("IDEMPOTENCY_UNKNOWN", 0), ValueRow("NO_SIDE_EFFECTS", 1), ValueRow("IDEMPOTENT", 2),
];

#[rattlefmt::skip]
const METHOD_OPTIONS_ENUMS: [EnumRow; 1] = [
    EnumRow("IdempotencyLevel", &METHOD_OPTIONS_IDEMPOTENCY_LEVEL_VALUES),
];

#[rattlefmt::skip]
const UNINTERPRETED_OPTION_NAME_PART_FIELDS: [FieldRow; 2] = [
    FieldRow(1, "name_part", "namePart", Required, String, Nothing),
    FieldRow(2, "is_extension", "isExtension", Required, Bool, Nothing),
];

#[rattlefmt::skip]
const UNINTERPRETED_OPTION_NESTED: [MessageRow; 1] = [
    MessageRow("NamePart", &UNINTERPRETED_OPTION_NAME_PART_FIELDS, &[], PLAIN),
];

#[rattlefmt::skip]
const UNINTERPRETED_OPTION_FIELDS: [FieldRow; 7] = [
    FieldRow(2, "name", "name", Repeated, Message(".google.protobuf.UninterpretedOption.NamePart"), Nothing),
    FieldRow(3, "identifier_value", "identifierValue", Optional, String, Nothing),
    FieldRow(4, "positive_int_value", "positiveIntValue", Optional, Uint64, Nothing),
    FieldRow(5, "negative_int_value", "negativeIntValue", Optional, Int64, Nothing),
    FieldRow(6, "double_value", "doubleValue", Optional, Double, Nothing),
    FieldRow(7, "string_value", "stringValue", Optional, Bytes, Nothing),
    FieldRow(8, "aggregate_value", "aggregateValue", Optional, String, Nothing),
];

#[rattlefmt::skip]
const FEATURE_SET_FIELDS: [FieldRow; 6] = [
    FieldRow(1, "field_presence", "fieldPresence", Optional, Enum(".google.protobuf.FeatureSet.FieldPresence"), Options(&[])),
    FieldRow(2, "enum_type", "enumType", Optional, Enum(".google.protobuf.FeatureSet.EnumType"), Options(&[])),
    FieldRow(3, "repeated_field_encoding", "repeatedFieldEncoding", Optional, Enum(".google.protobuf.FeatureSet.RepeatedFieldEncoding"), Options(&[])),
    FieldRow(4, "utf8_validation", "utf8Validation", Optional, Enum(".google.protobuf.FeatureSet.Utf8Validation"), Options(&[])),
    FieldRow(5, "message_encoding", "messageEncoding", Optional, Enum(".google.protobuf.FeatureSet.MessageEncoding"), Options(&[])),
    FieldRow(6, "json_format", "jsonFormat", Optional, Enum(".google.protobuf.FeatureSet.JsonFormat"), Options(&[])),
];

#[rattlefmt::skip]
const FEATURE_SET_FIELD_PRESENCE_VALUES: [ValueRow; 4] = [
    ValueRow("FIELD_PRESENCE_UNKNOWN", 0), ValueRow("EXPLICIT", 1), ValueRow("IMPLICIT", 2),
    ValueRow("LEGACY_REQUIRED", 3),
];

#[rattlefmt::skip]
const FEATURE_SET_ENUM_TYPE_VALUES: [ValueRow; 3] = [
    ValueRow("ENUM_TYPE_UNKNOWN", 0), ValueRow("OPEN", 1), ValueRow("CLOSED", 2),
];

#[rattlefmt::skip]
const FEATURE_SET_REPEATED_FIELD_ENCODING_VALUES: [ValueRow; 3] = [
    ValueRow("REPEATED_FIELD_ENCODING_UNKNOWN", 0), ValueRow("PACKED", 1), ValueRow("EXPANDED", 2),
];

#[rattlefmt::skip]
const FEATURE_SET_UTF8_VALIDATION_VALUES: [ValueRow; 3] = [
    ValueRow("UTF8_VALIDATION_UNKNOWN", 0), ValueRow("NONE", 1), ValueRow("VERIFY", 2),
];

#[rattlefmt::skip]
const FEATURE_SET_MESSAGE_ENCODING_VALUES: [ValueRow; 3] = [
    ValueRow("MESSAGE_ENCODING_UNKNOWN", 0), ValueRow("LENGTH_PREFIXED", 1), ValueRow("DELIMITED", 2),
];

#[rattlefmt::skip]
const FEATURE_SET_JSON_FORMAT_VALUES: [ValueRow; 3] = [
    ValueRow("JSON_FORMAT_UNKNOWN", 0), ValueRow("ALLOW", 1), ValueRow("LEGACY_BEST_EFFORT", 2),
];

#[rattlefmt::skip]
const FEATURE_SET_ENUMS: [EnumRow; 6] = [
    EnumRow("FieldPresence", &FEATURE_SET_FIELD_PRESENCE_VALUES),
    EnumRow("EnumType", &FEATURE_SET_ENUM_TYPE_VALUES),
    EnumRow("RepeatedFieldEncoding", &FEATURE_SET_REPEATED_FIELD_ENCODING_VALUES),
    EnumRow("Utf8Validation", &FEATURE_SET_UTF8_VALIDATION_VALUES),
    EnumRow("MessageEncoding", &FEATURE_SET_MESSAGE_ENCODING_VALUES),
    EnumRow("JsonFormat", &FEATURE_SET_JSON_FORMAT_VALUES),
];

#[rattlefmt::skip]
const FEATURE_SET_DEFAULTS_FEATURE_SET_EDITION_DEFAULT_FIELDS: [FieldRow; 2] = [
    FieldRow(3, "edition", "edition", Optional, Enum(".google.protobuf.Edition"), Nothing),
    FieldRow(2, "features", "features", Optional, Message(".google.protobuf.FeatureSet"), Nothing),
];

#[rattlefmt::skip]
const FEATURE_SET_DEFAULTS_NESTED: [MessageRow; 1] = [
    MessageRow("FeatureSetEditionDefault", &FEATURE_SET_DEFAULTS_FEATURE_SET_EDITION_DEFAULT_FIELDS, &[], PLAIN),
];

#[rattlefmt::skip]
const FEATURE_SET_DEFAULTS_FIELDS: [FieldRow; 3] = [
    FieldRow(1, "defaults", "defaults", Repeated, Message(".google.protobuf.FeatureSetDefaults.FeatureSetEditionDefault"), Nothing),
    FieldRow(4, "minimum_edition", "minimumEdition", Optional, Enum(".google.protobuf.Edition"), Nothing),
    FieldRow(5, "maximum_edition", "maximumEdition", Optional, Enum(".google.protobuf.Edition"), Nothing),
];

#[rattlefmt::skip]
const SOURCE_CODE_INFO_LOCATION_FIELDS: [FieldRow; 5] = [
    FieldRow(1, "path", "path", Repeated, Int32, Options(&[Number(2, 1)])),
    FieldRow(2, "span", "span", Repeated, Int32, Options(&[Number(2, 1)])),
    FieldRow(3, "leading_comments", "leadingComments", Optional, String, Nothing),
    FieldRow(4, "trailing_comments", "trailingComments", Optional, String, Nothing),
    FieldRow(6, "leading_detached_comments", "leadingDetachedComments", Repeated, String, Nothing),
];

#[rattlefmt::skip]
const SOURCE_CODE_INFO_NESTED: [MessageRow; 1] = [
    MessageRow("Location", &SOURCE_CODE_INFO_LOCATION_FIELDS, &[], PLAIN),
];

#[rattlefmt::skip]
const SOURCE_CODE_INFO_FIELDS: [FieldRow; 1] = [
    FieldRow(1, "location", "location", Repeated, Message(".google.protobuf.SourceCodeInfo.Location"), Nothing),
];

#[rattlefmt::skip]
const GENERATED_CODE_INFO_ANNOTATION_FIELDS: [FieldRow; 5] = [
    FieldRow(1, "path", "path", Repeated, Int32, Options(&[Number(2, 1)])),
    FieldRow(2, "source_file", "sourceFile", Optional, String, Nothing),
    FieldRow(3, "begin", "begin", Optional, Int32, Nothing),
    FieldRow(4, "end", "end", Optional, Int32, Nothing),
    FieldRow(5, "semantic", "semantic", Optional, Enum(".google.protobuf.GeneratedCodeInfo.Annotation.Semantic"), Nothing),
];

#[rattlefmt::skip]
const GENERATED_CODE_INFO_ANNOTATION_SEMANTIC_VALUES: [ValueRow; 3] = [
    ValueRow("NONE", 0), ValueRow("SET", 1), ValueRow("ALIAS", 2),
];

#[rattlefmt::skip]
const GENERATED_CODE_INFO_ANNOTATION_ENUMS: [EnumRow; 1] = [
    EnumRow("Semantic", &GENERATED_CODE_INFO_ANNOTATION_SEMANTIC_VALUES),
];

#[rattlefmt::skip]
const GENERATED_CODE_INFO_NESTED: [MessageRow; 1] = [
    MessageRow("Annotation", &GENERATED_CODE_INFO_ANNOTATION_FIELDS, &GENERATED_CODE_INFO_ANNOTATION_ENUMS, PLAIN),
];

#[rattlefmt::skip]
const GENERATED_CODE_INFO_FIELDS: [FieldRow; 1] = [
    FieldRow(1, "annotation", "annotation", Repeated, Message(".google.protobuf.GeneratedCodeInfo.Annotation"), Nothing),
];

#[rattlefmt::skip]
const EDITION_VALUES: [ValueRow; 9] = [
    ValueRow("EDITION_UNKNOWN", 0), ValueRow("EDITION_PROTO2", 998), ValueRow("EDITION_PROTO3", 999),
    ValueRow("EDITION_2023", 1000), ValueRow("EDITION_1_TEST_ONLY", 1), ValueRow("EDITION_2_TEST_ONLY", 2),
    ValueRow("EDITION_99997_TEST_ONLY", 99997), ValueRow("EDITION_99998_TEST_ONLY", 99998),
    ValueRow("EDITION_99999_TEST_ONLY", 99999),
];

#[rattlefmt::skip]
pub(crate) static DESCRIPTOR_FILES: [TopRow; 4] = [
    TopRow(MessageRow("FileDescriptorSet", &FILE_DESCRIPTOR_SET_FIELDS, &[], PLAIN), &[]),
    TopRow(MessageRow("FileDescriptorProto", &FILE_DESCRIPTOR_PROTO_FIELDS, &[], PLAIN), &[]),
    TopRow(MessageRow("DescriptorProto", &DESCRIPTOR_PROTO_FIELDS, &[], PLAIN), &DESCRIPTOR_PROTO_NESTED),
    TopRow(
        MessageRow("ExtensionRangeOptions", &EXTENSION_RANGE_OPTIONS_FIELDS, &EXTENSION_RANGE_OPTIONS_ENUMS, Rest(&[], &[EXTENSIONS], &[], None)),
        &EXTENSION_RANGE_OPTIONS_NESTED,
    ),
];

#[rattlefmt::skip]
pub(crate) static DESCRIPTOR_MEMBERS: [TopRow; 6] = [
    TopRow(MessageRow("FieldDescriptorProto", &FIELD_DESCRIPTOR_PROTO_FIELDS, &FIELD_DESCRIPTOR_PROTO_ENUMS, PLAIN), &[]),
    TopRow(MessageRow("OneofDescriptorProto", &ONEOF_DESCRIPTOR_PROTO_FIELDS, &[], PLAIN), &[]),
    TopRow(MessageRow("EnumDescriptorProto", &ENUM_DESCRIPTOR_PROTO_FIELDS, &[], PLAIN), &ENUM_DESCRIPTOR_PROTO_NESTED),
    TopRow(MessageRow("EnumValueDescriptorProto", &ENUM_VALUE_DESCRIPTOR_PROTO_FIELDS, &[], PLAIN), &[]),
    TopRow(MessageRow("ServiceDescriptorProto", &SERVICE_DESCRIPTOR_PROTO_FIELDS, &[], PLAIN), &[]),
    TopRow(MessageRow("MethodDescriptorProto", &METHOD_DESCRIPTOR_PROTO_FIELDS, &[], PLAIN), &[]),
];

#[rattlefmt::skip]
pub(crate) static DESCRIPTOR_FILE_OPTIONS: [TopRow; 2] = [
    TopRow(MessageRow("FileOptions", &FILE_OPTIONS_FIELDS, &FILE_OPTIONS_ENUMS, Rest(&[], &[EXTENSIONS], &[RangeRow(38, 39)], None)), &[]),
    TopRow(
        MessageRow("MessageOptions", &MESSAGE_OPTIONS_FIELDS, &[],
            Rest(&[], &[EXTENSIONS], &[RangeRow(4, 5), RangeRow(5, 6), RangeRow(6, 7), RangeRow(8, 9), RangeRow(9, 10)], None)),
        &[],
    ),
];

#[rattlefmt::skip]
pub(crate) static DESCRIPTOR_FIELD_OPTIONS: [TopRow; 6] = [
    TopRow(
        MessageRow("FieldOptions", &FIELD_OPTIONS_FIELDS, &FIELD_OPTIONS_ENUMS,
            Rest(&[], &[EXTENSIONS], &[RangeRow(4, 5), RangeRow(18, 19)], None)),
        &FIELD_OPTIONS_NESTED,
    ),
    TopRow(MessageRow("OneofOptions", &ONEOF_OPTIONS_FIELDS, &[], Rest(&[], &[EXTENSIONS], &[], None)), &[]),
    TopRow(MessageRow("EnumOptions", &ENUM_OPTIONS_FIELDS, &[], Rest(&[], &[EXTENSIONS], &[RangeRow(5, 6)], None)), &[]),
    TopRow(MessageRow("EnumValueOptions", &ENUM_VALUE_OPTIONS_FIELDS, &[], Rest(&[], &[EXTENSIONS], &[], None)), &[]),
    TopRow(MessageRow("ServiceOptions", &SERVICE_OPTIONS_FIELDS, &[], Rest(&[], &[EXTENSIONS], &[], None)), &[]),
    TopRow(MessageRow("MethodOptions", &METHOD_OPTIONS_FIELDS, &METHOD_OPTIONS_ENUMS, Rest(&[], &[EXTENSIONS], &[], None)), &[]),
];

#[rattlefmt::skip]
pub(crate) static DESCRIPTOR_FEATURES: [TopRow; 5] = [
    TopRow(MessageRow("UninterpretedOption", &UNINTERPRETED_OPTION_FIELDS, &[], PLAIN), &UNINTERPRETED_OPTION_NESTED),
    TopRow(
        MessageRow("FeatureSet", &FEATURE_SET_FIELDS, &FEATURE_SET_ENUMS,
            Rest(&[], &[RangeRow(1000, 1001), RangeRow(1001, 1002), RangeRow(9995, 10000)], &[RangeRow(999, 1000)], None)),
        &[],
    ),
    TopRow(MessageRow("FeatureSetDefaults", &FEATURE_SET_DEFAULTS_FIELDS, &[], PLAIN), &FEATURE_SET_DEFAULTS_NESTED),
    TopRow(MessageRow("SourceCodeInfo", &SOURCE_CODE_INFO_FIELDS, &[], PLAIN), &SOURCE_CODE_INFO_NESTED),
    TopRow(MessageRow("GeneratedCodeInfo", &GENERATED_CODE_INFO_FIELDS, &[], PLAIN), &GENERATED_CODE_INFO_NESTED),
];

#[rattlefmt::skip]
const FILE_DESCRIPTOR_ENUMS: [EnumRow; 1] = [
    EnumRow("Edition", &EDITION_VALUES),
];

#[rattlefmt::skip]
pub(crate) static FILE_DESCRIPTOR: FileRow = FileRow {
    name: "google/protobuf/descriptor.proto",
    package: "google.protobuf",
    dependency: &[],
    messages: &[],
    enums: &FILE_DESCRIPTOR_ENUMS,
    options: &[
        Text(1, "com.google.protobuf"),
        Text(8, "DescriptorProtos"),
        Number(9, 1),
        Text(11, "google.golang.org/protobuf/types/descriptorpb"),
        Number(31, 1),
        Text(36, "GPB"),
        Text(37, "Google.Protobuf.Reflection"),
    ],
    syntax: None,
};

// ---- google/protobuf/duration.proto

#[rattlefmt::skip]
const DURATION_FIELDS: [FieldRow; 2] = [
    FieldRow(1, "seconds", "seconds", Optional, Int64, Nothing),
    FieldRow(2, "nanos", "nanos", Optional, Int32, Nothing),
];

#[rattlefmt::skip]
const DURATION_MESSAGES: [TopRow; 1] = [
    TopRow(MessageRow("Duration", &DURATION_FIELDS, &[], PLAIN), &[]),
];

#[rattlefmt::skip]
pub(crate) static FILE_DURATION: FileRow = FileRow {
    name: "google/protobuf/duration.proto",
    package: "google.protobuf",
    dependency: &[],
    messages: &DURATION_MESSAGES,
    enums: &[],
    options: &[
        Text(1, "com.google.protobuf"),
        Text(8, "DurationProto"),
        Number(10, 1),
        Text(11, "google.golang.org/protobuf/types/known/durationpb"),
        Number(31, 1),
        Text(36, "GPB"),
        Text(37, "Google.Protobuf.WellKnownTypes"),
    ],
    syntax: Some("proto3"),
};

// ---- google/protobuf/empty.proto

#[rattlefmt::skip]
const EMPTY_MESSAGES: [TopRow; 1] = [
    TopRow(MessageRow("Empty", &[], &[], PLAIN), &[]),
];

#[rattlefmt::skip]
pub(crate) static FILE_EMPTY: FileRow = FileRow {
    name: "google/protobuf/empty.proto",
    package: "google.protobuf",
    dependency: &[],
    messages: &EMPTY_MESSAGES,
    enums: &[],
    options: &[
        Text(1, "com.google.protobuf"),
        Text(8, "EmptyProto"),
        Number(10, 1),
        Text(11, "google.golang.org/protobuf/types/known/emptypb"),
        Number(31, 1),
        Text(36, "GPB"),
        Text(37, "Google.Protobuf.WellKnownTypes"),
    ],
    syntax: Some("proto3"),
};

// ---- google/protobuf/field_mask.proto

#[rattlefmt::skip]
const FIELD_MASK_FIELDS: [FieldRow; 1] = [
    FieldRow(1, "paths", "paths", Repeated, String, Nothing),
];

#[rattlefmt::skip]
const FIELD_MASK_MESSAGES: [TopRow; 1] = [
    TopRow(MessageRow("FieldMask", &FIELD_MASK_FIELDS, &[], PLAIN), &[]),
];

#[rattlefmt::skip]
pub(crate) static FILE_FIELD_MASK: FileRow = FileRow {
    name: "google/protobuf/field_mask.proto",
    package: "google.protobuf",
    dependency: &[],
    messages: &FIELD_MASK_MESSAGES,
    enums: &[],
    options: &[
        Text(1, "com.google.protobuf"),
        Text(8, "FieldMaskProto"),
        Number(10, 1),
        Text(11, "google.golang.org/protobuf/types/known/fieldmaskpb"),
        Number(31, 1),
        Text(36, "GPB"),
        Text(37, "Google.Protobuf.WellKnownTypes"),
    ],
    syntax: Some("proto3"),
};

// ---- google/protobuf/struct.proto

#[rattlefmt::skip]
const STRUCT_FIELDS_ENTRY_FIELDS: [FieldRow; 2] = [
    FieldRow(1, "key", "key", Optional, String, Nothing),
    FieldRow(2, "value", "value", Optional, Message(".google.protobuf.Value"), Nothing),
];

#[rattlefmt::skip]
const STRUCT_NESTED: [MessageRow; 1] = [
    MessageRow("FieldsEntry", &STRUCT_FIELDS_ENTRY_FIELDS, &[], Rest(&[], &[], &[], Some(&[Number(7, 1)]))),
];

#[rattlefmt::skip]
const STRUCT_FIELDS: [FieldRow; 1] = [
    FieldRow(1, "fields", "fields", Repeated, Message(".google.protobuf.Struct.FieldsEntry"), Nothing),
];

#[rattlefmt::skip]
const VALUE_FIELDS: [FieldRow; 6] = [
    FieldRow(1, "null_value", "nullValue", Optional, Enum(".google.protobuf.NullValue"), Member(0)),
    FieldRow(2, "number_value", "numberValue", Optional, Double, Member(0)),
    FieldRow(3, "string_value", "stringValue", Optional, String, Member(0)),
    FieldRow(4, "bool_value", "boolValue", Optional, Bool, Member(0)),
    FieldRow(5, "struct_value", "structValue", Optional, Message(".google.protobuf.Struct"), Member(0)),
    FieldRow(6, "list_value", "listValue", Optional, Message(".google.protobuf.ListValue"), Member(0)),
];

#[rattlefmt::skip]
const LIST_VALUE_FIELDS: [FieldRow; 1] = [
    FieldRow(1, "values", "values", Repeated, Message(".google.protobuf.Value"), Nothing),
];

#[rattlefmt::skip]
const NULL_VALUE_VALUES: [ValueRow; 1] = [
    ValueRow("NULL_VALUE", 0),
];

#[rattlefmt::skip]
const STRUCT_MESSAGES: [TopRow; 3] = [
    TopRow(MessageRow("Struct", &STRUCT_FIELDS, &[], PLAIN), &STRUCT_NESTED),
    TopRow(MessageRow("Value", &VALUE_FIELDS, &[], Rest(&["kind"], &[], &[], None)), &[]),
    TopRow(MessageRow("ListValue", &LIST_VALUE_FIELDS, &[], PLAIN), &[]),
];

#[rattlefmt::skip]
const FILE_STRUCT_ENUMS: [EnumRow; 1] = [
    EnumRow("NullValue", &NULL_VALUE_VALUES),
];

#[rattlefmt::skip]
pub(crate) static FILE_STRUCT: FileRow = FileRow {
    name: "google/protobuf/struct.proto",
    package: "google.protobuf",
    dependency: &[],
    messages: &STRUCT_MESSAGES,
    enums: &FILE_STRUCT_ENUMS,
    options: &[
        Text(1, "com.google.protobuf"),
        Text(8, "StructProto"),
        Number(10, 1),
        Text(11, "google.golang.org/protobuf/types/known/structpb"),
        Number(31, 1),
        Text(36, "GPB"),
        Text(37, "Google.Protobuf.WellKnownTypes"),
    ],
    syntax: Some("proto3"),
};

// ---- google/protobuf/timestamp.proto

#[rattlefmt::skip]
const TIMESTAMP_FIELDS: [FieldRow; 2] = [
    FieldRow(1, "seconds", "seconds", Optional, Int64, Nothing),
    FieldRow(2, "nanos", "nanos", Optional, Int32, Nothing),
];

#[rattlefmt::skip]
const TIMESTAMP_MESSAGES: [TopRow; 1] = [
    TopRow(MessageRow("Timestamp", &TIMESTAMP_FIELDS, &[], PLAIN), &[]),
];

#[rattlefmt::skip]
pub(crate) static FILE_TIMESTAMP: FileRow = FileRow {
    name: "google/protobuf/timestamp.proto",
    package: "google.protobuf",
    dependency: &[],
    messages: &TIMESTAMP_MESSAGES,
    enums: &[],
    options: &[
        Text(1, "com.google.protobuf"),
        Text(8, "TimestampProto"),
        Number(10, 1),
        Text(11, "google.golang.org/protobuf/types/known/timestamppb"),
        Number(31, 1),
        Text(36, "GPB"),
        Text(37, "Google.Protobuf.WellKnownTypes"),
    ],
    syntax: Some("proto3"),
};

// ---- google/protobuf/wrappers.proto

#[rattlefmt::skip]
const DOUBLE_VALUE_FIELDS: [FieldRow; 1] = [
    FieldRow(1, "value", "value", Optional, Double, Nothing),
];

#[rattlefmt::skip]
const FLOAT_VALUE_FIELDS: [FieldRow; 1] = [
    FieldRow(1, "value", "value", Optional, Float, Nothing),
];

#[rattlefmt::skip]
const INT64_VALUE_FIELDS: [FieldRow; 1] = [
    FieldRow(1, "value", "value", Optional, Int64, Nothing),
];

#[rattlefmt::skip]
const UINT64_VALUE_FIELDS: [FieldRow; 1] = [
    FieldRow(1, "value", "value", Optional, Uint64, Nothing),
];

#[rattlefmt::skip]
const INT32_VALUE_FIELDS: [FieldRow; 1] = [
    FieldRow(1, "value", "value", Optional, Int32, Nothing),
];

#[rattlefmt::skip]
const UINT32_VALUE_FIELDS: [FieldRow; 1] = [
    FieldRow(1, "value", "value", Optional, Uint32, Nothing),
];

#[rattlefmt::skip]
const BOOL_VALUE_FIELDS: [FieldRow; 1] = [
    FieldRow(1, "value", "value", Optional, Bool, Nothing),
];

#[rattlefmt::skip]
const STRING_VALUE_FIELDS: [FieldRow; 1] = [
    FieldRow(1, "value", "value", Optional, String, Nothing),
];

#[rattlefmt::skip]
const BYTES_VALUE_FIELDS: [FieldRow; 1] = [
    FieldRow(1, "value", "value", Optional, Bytes, Nothing),
];

#[rattlefmt::skip]
const WRAPPERS_MESSAGES: [TopRow; 9] = [
    TopRow(MessageRow("DoubleValue", &DOUBLE_VALUE_FIELDS, &[], PLAIN), &[]),
    TopRow(MessageRow("FloatValue", &FLOAT_VALUE_FIELDS, &[], PLAIN), &[]),
    TopRow(MessageRow("Int64Value", &INT64_VALUE_FIELDS, &[], PLAIN), &[]),
    TopRow(MessageRow("UInt64Value", &UINT64_VALUE_FIELDS, &[], PLAIN), &[]),
    TopRow(MessageRow("Int32Value", &INT32_VALUE_FIELDS, &[], PLAIN), &[]),
    TopRow(MessageRow("UInt32Value", &UINT32_VALUE_FIELDS, &[], PLAIN), &[]),
    TopRow(MessageRow("BoolValue", &BOOL_VALUE_FIELDS, &[], PLAIN), &[]),
    TopRow(MessageRow("StringValue", &STRING_VALUE_FIELDS, &[], PLAIN), &[]),
    TopRow(MessageRow("BytesValue", &BYTES_VALUE_FIELDS, &[], PLAIN), &[]),
];

#[rattlefmt::skip]
pub(crate) static FILE_WRAPPERS: FileRow = FileRow {
    name: "google/protobuf/wrappers.proto",
    package: "google.protobuf",
    dependency: &[],
    messages: &WRAPPERS_MESSAGES,
    enums: &[],
    options: &[
        Text(1, "com.google.protobuf"),
        Text(8, "WrappersProto"),
        Number(10, 1),
        Text(11, "google.golang.org/protobuf/types/known/wrapperspb"),
        Number(31, 1),
        Text(36, "GPB"),
        Text(37, "Google.Protobuf.WellKnownTypes"),
    ],
    syntax: Some("proto3"),
};

// ---- google/protobuf/compiler/plugin.proto

#[rattlefmt::skip]
const VERSION_FIELDS: [FieldRow; 4] = [
    FieldRow(1, "major", "major", Optional, Int32, Nothing),
    FieldRow(2, "minor", "minor", Optional, Int32, Nothing),
    FieldRow(3, "patch", "patch", Optional, Int32, Nothing),
    FieldRow(4, "suffix", "suffix", Optional, String, Nothing),
];

#[rattlefmt::skip]
const CODE_GENERATOR_REQUEST_FIELDS: [FieldRow; 5] = [
    FieldRow(1, "file_to_generate", "fileToGenerate", Repeated, String, Nothing),
    FieldRow(2, "parameter", "parameter", Optional, String, Nothing),
    FieldRow(15, "proto_file", "protoFile", Repeated, Message(".google.protobuf.FileDescriptorProto"), Nothing),
    FieldRow(17, "source_file_descriptors", "sourceFileDescriptors", Repeated, Message(".google.protobuf.FileDescriptorProto"), Nothing),
    FieldRow(3, "compiler_version", "compilerVersion", Optional, Message(".google.protobuf.compiler.Version"), Nothing),
];

#[rattlefmt::skip]
const CODE_GENERATOR_RESPONSE_FILE_FIELDS: [FieldRow; 4] = [
    FieldRow(1, "name", "name", Optional, String, Nothing),
    FieldRow(2, "insertion_point", "insertionPoint", Optional, String, Nothing),
    FieldRow(15, "content", "content", Optional, String, Nothing),
    FieldRow(16, "generated_code_info", "generatedCodeInfo", Optional, Message(".google.protobuf.GeneratedCodeInfo"), Nothing),
];

#[rattlefmt::skip]
const CODE_GENERATOR_RESPONSE_NESTED: [MessageRow; 1] = [
    MessageRow("File", &CODE_GENERATOR_RESPONSE_FILE_FIELDS, &[], PLAIN),
];

#[rattlefmt::skip]
const CODE_GENERATOR_RESPONSE_FIELDS: [FieldRow; 3] = [
    FieldRow(1, "error", "error", Optional, String, Nothing),
    FieldRow(2, "supported_features", "supportedFeatures", Optional, Uint64, Nothing),
    FieldRow(15, "file", "file", Repeated, Message(".google.protobuf.compiler.CodeGeneratorResponse.File"), Nothing),
];

#[rattlefmt::skip]
const CODE_GENERATOR_RESPONSE_FEATURE_VALUES: [ValueRow; 3] = [
    ValueRow("FEATURE_NONE", 0), ValueRow("FEATURE_PROTO3_OPTIONAL", 1), ValueRow("FEATURE_SUPPORTS_EDITIONS", 2),
];

#[rattlefmt::skip]
const CODE_GENERATOR_RESPONSE_ENUMS: [EnumRow; 1] = [
    EnumRow("Feature", &CODE_GENERATOR_RESPONSE_FEATURE_VALUES),
];

#[rattlefmt::skip]
const PLUGIN_MESSAGES: [TopRow; 3] = [
    TopRow(MessageRow("Version", &VERSION_FIELDS, &[], PLAIN), &[]),
    TopRow(MessageRow("CodeGeneratorRequest", &CODE_GENERATOR_REQUEST_FIELDS, &[], PLAIN), &[]),
    TopRow(
        MessageRow("CodeGeneratorResponse", &CODE_GENERATOR_RESPONSE_FIELDS, &CODE_GENERATOR_RESPONSE_ENUMS, PLAIN),
        &CODE_GENERATOR_RESPONSE_NESTED,
    ),
];

#[rattlefmt::skip]
pub(crate) static FILE_PLUGIN: FileRow = FileRow {
    name: "google/protobuf/compiler/plugin.proto",
    package: "google.protobuf.compiler",
    dependency: &["google/protobuf/descriptor.proto"],
    messages: &PLUGIN_MESSAGES,
    enums: &[],
    options: &[
        Text(1, "com.google.protobuf.compiler"),
        Text(8, "PluginProtos"),
        Text(11, "google.golang.org/protobuf/types/pluginpb"),
        Text(37, "Google.Protobuf.Compiler"),
    ],
    syntax: None,
};
