//! Records and dynamic messages as values.

use crate::reflected::reflected_last;
use pbx_desc::DecodeMessage;
use pbx_desc_encoding::{
    DescriptorProto, EnumDescriptorProto, EnumReservedRange, EnumValueDescriptorProto,
    ExtensionRange, FieldDescriptorProto, FileDescriptorProto, FileDescriptorSet, Location,
    MethodDescriptorProto, OneofDescriptorProto, ReservedRange, ServiceDescriptorProto,
    SourceCodeInfo,
};
use pbx_link::{DescriptorPool, MessageDescriptor};
use pbx_message::ReflectMessage;
use pbx_message_dynamic::DynamicMessage;
use pbx_types::{Any, Duration, Empty, FieldMask, ListValue, Struct, Timestamp, Value};
use pbx_wkt::make_wkt_descriptor_pool;
use std::alloc::Global;
use std::mem::drop;
use test_rows::{Row, Stop};

/// What is told of the record that the row's bytes are read as.
fn record<R: DecodeMessage + ReflectMessage + Drop>(
    alloc: Global,
    pool: &DescriptorPool,
    row: &Row,
) -> Result<String, Stop> {
    let bytes = hex::decode(alloc, row.text(1))?;
    match R::decode(alloc, bytes.as_slice()) {
        Ok(value) => reflected_last(alloc, pool, value),
        Err(_) => Err(Stop::NoSuchWord),
    }
}

/// The built-in type of that name.
fn built_in_type(alloc: Global, name: &str) -> Result<MessageDescriptor, Stop> {
    let pool = make_wkt_descriptor_pool(alloc)?;
    let desc = pool.get_message_by_name(name);
    drop(pool);
    desc.ok_or(Stop::NoSuchWord)
}

/// The same of the built-in type that the row names behind its bytes.
fn dynamic(alloc: Global, pool: &DescriptorPool, row: &Row) -> Result<String, Stop> {
    let bytes = hex::decode(alloc, row.text(1))?;
    let desc = built_in_type(alloc, row.text(2))?;
    match DynamicMessage::decode(alloc, desc, bytes.as_slice()) {
        Ok(message) => reflected_last(alloc, pool, message),
        Err(_) => Err(Stop::NoSuchWord),
    }
}

/// Of a record of a well-known type, or of a dynamic message.
pub(crate) fn well_known(
    alloc: Global,
    pool: &DescriptorPool,
    row: &Row,
    sort: &str,
) -> Result<String, Stop> {
    match sort {
        "Any" => record::<Any>(alloc, pool, row),
        "Duration" => record::<Duration>(alloc, pool, row),
        "Empty" => record::<Empty>(alloc, pool, row),
        "FieldMask" => record::<FieldMask>(alloc, pool, row),
        "Struct" => record::<Struct>(alloc, pool, row),
        "Value" => record::<Value>(alloc, pool, row),
        "ListValue" => record::<ListValue>(alloc, pool, row),
        "Timestamp" => record::<Timestamp>(alloc, pool, row),
        "DynamicMessage" => dynamic(alloc, pool, row),
        _ => descriptor(alloc, pool, row, sort),
    }
}

/// Of a descriptor record.
fn descriptor(alloc: Global, pool: &DescriptorPool, row: &Row, sort: &str) -> Result<String, Stop> {
    match sort {
        "FileDescriptorSet" => record::<FileDescriptorSet>(alloc, pool, row),
        "FileDescriptorProto" => record::<FileDescriptorProto>(alloc, pool, row),
        "DescriptorProto" => record::<DescriptorProto>(alloc, pool, row),
        "ExtensionRange" => record::<ExtensionRange>(alloc, pool, row),
        "ReservedRange" => record::<ReservedRange>(alloc, pool, row),
        "FieldDescriptorProto" => record::<FieldDescriptorProto>(alloc, pool, row),
        "OneofDescriptorProto" => record::<OneofDescriptorProto>(alloc, pool, row),
        "EnumDescriptorProto" => record::<EnumDescriptorProto>(alloc, pool, row),
        _ => smaller_descriptor(alloc, pool, row, sort),
    }
}

/// The same of the records of values of enums, of services and of places.
fn smaller_descriptor(
    alloc: Global,
    pool: &DescriptorPool,
    row: &Row,
    sort: &str,
) -> Result<String, Stop> {
    match sort {
        "EnumReservedRange" => record::<EnumReservedRange>(alloc, pool, row),
        "EnumValueDescriptorProto" => record::<EnumValueDescriptorProto>(alloc, pool, row),
        "ServiceDescriptorProto" => record::<ServiceDescriptorProto>(alloc, pool, row),
        "MethodDescriptorProto" => record::<MethodDescriptorProto>(alloc, pool, row),
        "SourceCodeInfo" => record::<SourceCodeInfo>(alloc, pool, row),
        "Location" => record::<Location>(alloc, pool, row),
        _ => Err(Stop::NoSuchWord),
    }
}
