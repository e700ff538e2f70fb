//! What descriptor records hold as messages, and their wire bytes.
//!
//! The records themselves stand in `pbx_desc_records`, and are named here too.
#![tactic(auto)]

mod boxed;
mod contents;
mod encoding;
mod enumeration;
mod field;
mod file;
mod integers;
mod laws;
mod levels;
mod location;
mod message;
mod options;
mod parts;
mod scalars;
mod service;
mod set;
mod source;
mod values;

pub use encoding::Message;
pub use file::file_contents;
pub use laws::levels_bound_depth;
pub use pbx_desc_records::{
    DescriptorProto, EnumDescriptorProto, EnumReservedRange, EnumValueDescriptorProto,
    ExtensionRange, FieldDescriptorProto, FileDescriptorProto, FileDescriptorSet, Location,
    MethodDescriptorProto, OneofDescriptorProto, Options, ReservedRange, ServiceDescriptorProto,
    SourceCodeInfo,
};
pub use pbx_desc_shapes::descriptor_shape;
pub use set::FileSet;
