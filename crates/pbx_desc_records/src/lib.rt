//! Descriptor records: the schema of a file as plain values.
//!
//! The records are those of `google/protobuf/descriptor.proto`, fields by ascending number and named as
//! there, save that the field `type` is called `kind`. An enum is its number, and a message of options
//! the list of its records.
#![tactic(auto)]

mod copy;
mod enumeration;
mod field;
mod file;
mod message;
mod options;
mod service;
mod source;

pub use enumeration::{EnumDescriptorProto, EnumReservedRange, EnumValueDescriptorProto};
pub use field::{FieldDescriptorProto, OneofDescriptorProto};
pub use file::{FileDescriptorProto, FileDescriptorSet};
pub use message::{DescriptorProto, ExtensionRange, ReservedRange};
pub use options::Options;
pub use service::{MethodDescriptorProto, ServiceDescriptorProto};
pub use source::{Location, SourceCodeInfo};
