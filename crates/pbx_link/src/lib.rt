//! Pools of linked files, and descriptors of their parts.
#![tactic(auto)]

mod adding;
mod by_name;
mod bytes;
mod encoding;
mod enumeration;
mod extension;
mod field;
mod field_numbers;
mod field_record;
mod file;
mod file_parts;
mod handle;
mod kept;
mod kind;
mod kinds;
mod message;
mod message_extensions;
mod oneof;
mod parents;
mod pool;
mod pool_extensions;
mod pool_messages;
mod pool_services;
mod same;
mod schema;
mod service;

pub use encoding::file_set;
pub use enumeration::{EnumDescriptor, EnumValueDescriptor, EnumValues};
pub use extension::ExtensionDescriptor;
pub use field::{FieldDescriptor, OneofDescriptor};
pub use file::{FileDescriptor, PoolFiles};
pub use file_parts::{FileEnums, FileExtensions, FileMessages, FileServices};
pub use kind::{Cardinality, Kind, Syntax};
pub use message::{MessageDescriptor, MessageFields, MessageOneofs};
pub use message_extensions::MessageExtensions;
pub use oneof::OneofFields;
pub use pbx_link_definitions::DescriptorError;
pub use pool::DescriptorPool;
pub use pool_extensions::PoolExtensions;
pub use pool_messages::PoolMessages;
pub use pool_services::PoolServices;
pub use service::{MethodDescriptor, ServiceDescriptor, ServiceMethods};
