//! The descriptor records, and their wire bytes: read here, by the trait `DecodeMessage`, and written in a crate below, by the trait
//! `Message`.
#![tactic(auto)]

mod decoding;
mod elements;
mod enumeration;
mod field;
mod file;
mod integers;
mod laws;
mod message;
mod options;
mod scalars;
mod service;
mod source;
mod taking;

pub use decoding::DecodeMessage;
pub use laws::{contents_fix_files, contents_fix_types};
// Writing stands in a crate below.
pub use pbx_desc_encoding::{
    DescriptorProto, EnumDescriptorProto, EnumReservedRange, EnumValueDescriptorProto,
    ExtensionRange, FieldDescriptorProto, FileDescriptorProto, FileDescriptorSet, FileSet,
    Location, Message, MethodDescriptorProto, OneofDescriptorProto, Options, ReservedRange,
    ServiceDescriptorProto, SourceCodeInfo, descriptor_shape, file_contents, levels_bound_depth,
};
