//! The numbers of the fields of descriptor.proto through which paths go.

/// `FileDescriptorProto`.
pub mod file {
    pub const PACKAGE: u32 = 2;

    pub const DEPENDENCY: u32 = 3;

    pub const MESSAGE_TYPE: u32 = 4;

    pub const ENUM_TYPE: u32 = 5;

    pub const SERVICE: u32 = 6;

    pub const EXTENSION: u32 = 7;

    pub const SYNTAX: u32 = 12;
}

/// `DescriptorProto`.
pub mod message {
    pub const FIELD: u32 = 2;

    pub const NESTED_TYPE: u32 = 3;

    pub const ENUM_TYPE: u32 = 4;

    pub const EXTENSION: u32 = 6;

    pub const ONEOF_DECL: u32 = 8;
}

/// `FieldDescriptorProto`.
pub mod field {
    pub const NUMBER: u32 = 3;

    pub const LABEL: u32 = 4;

    pub const TYPE: u32 = 5;

    pub const TYPE_NAME: u32 = 6;

    pub const OPTIONS: u32 = 8;
}

/// `EnumDescriptorProto`.
pub mod enumeration {
    pub const VALUE: u32 = 2;
}

/// `EnumValueDescriptorProto`.
pub mod value {
    pub const NUMBER: u32 = 2;

    pub const OPTIONS: u32 = 3;
}

/// `ServiceDescriptorProto`.
pub mod service {
    pub const METHOD: u32 = 2;
}

/// `MethodDescriptorProto`.
pub mod method {
    pub const INPUT_TYPE: u32 = 2;

    pub const OUTPUT_TYPE: u32 = 3;
}

/// The field `name` of each of these.
pub const NAME: u32 = 1;
