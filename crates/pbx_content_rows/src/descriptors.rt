//! Asks of `pbx_desc` and `pbx_types`: the bytes of a descriptor record, and what is written for the record that they are
//! read as.
//!
//! A row asks `descriptor` and the name of a record, and its third field is the bytes in hexadecimal digits. The answer is
//! what is written for the record, in such digits, or the rule that the bytes break with the offset of the record that breaks
//! it. `unknown` asks for the records of a `DescriptorProto` that are none of its fields, and `options` for those of its
//! options. The name of a type of single values, as `i32`, asks the same of its wrapper, and that of a well-known type, as
//! `Struct`, of its record.
//!
//! What is wanted is made by checks/descriptor-rows.

use crate::said::{fault_line, shown, words};
use bytes::Bytes;
use pbx_desc::DecodeMessage;
use pbx_desc_records::{
    DescriptorProto, EnumDescriptorProto, EnumReservedRange, EnumValueDescriptorProto,
    ExtensionRange, FieldDescriptorProto, FileDescriptorProto, FileDescriptorSet, Location,
    MethodDescriptorProto, OneofDescriptorProto, Options, ReservedRange, ServiceDescriptorProto,
    SourceCodeInfo,
};
use pbx_types::{Any, Duration, Empty, FieldMask, ListValue, Struct, Timestamp, Value};
use pbx_wire::{Recs, recs_text};
use std::alloc::Global;
use std::mem::drop;
use test_rows::{Row, Stop};

/// What is written for the record that the bytes are read as, or the fault.
fn again<R: DecodeMessage + Drop>(alloc: Global, bytes: &[u8]) -> Result<String, Stop> {
    match R::decode(alloc, bytes) {
        Ok(value) => {
            let written = value.encode_to_vec(alloc);
            drop(value);
            shown(alloc, written?.as_slice())
        }
        Err(fault) => fault_line(alloc, fault),
    }
}

/// The records as they are written.
fn text(alloc: Global, recs: &Recs) -> Result<String, Stop> {
    shown(alloc, recs_text(alloc, recs)?.as_slice())
}

/// The records of a message that are none of its fields.
fn unknown(alloc: Global, bytes: &[u8]) -> Result<String, Stop> {
    match DescriptorProto::decode(alloc, bytes) {
        Ok(message) => {
            let told = text(alloc, &message.unknown);
            drop(message);
            told
        }
        Err(fault) => fault_line(alloc, fault),
    }
}

/// The records of the options.
fn text_of_options(alloc: Global, options: &Option<Options>) -> Result<String, Stop> {
    match options {
        Some(options) => text(alloc, &options.recs),
        None => words(alloc, "none"),
    }
}

/// The records of a message's options.
fn options(alloc: Global, bytes: &[u8]) -> Result<String, Stop> {
    match DescriptorProto::decode(alloc, bytes) {
        Ok(message) => {
            let told = text_of_options(alloc, &message.options);
            drop(message);
            told
        }
        Err(fault) => fault_line(alloc, fault),
    }
}

/// What is written for the descriptor record, by the name of its type, or what the word asks of a message.
fn descriptor(alloc: Global, word: &str, bytes: &[u8]) -> Result<String, Stop> {
    match word {
        "FileDescriptorSet" => again::<FileDescriptorSet>(alloc, bytes),
        "FileDescriptorProto" => again::<FileDescriptorProto>(alloc, bytes),
        "DescriptorProto" => again::<DescriptorProto>(alloc, bytes),
        "FieldDescriptorProto" => again::<FieldDescriptorProto>(alloc, bytes),
        "ExtensionRange" => again::<ExtensionRange>(alloc, bytes),
        "ReservedRange" => again::<ReservedRange>(alloc, bytes),
        "OneofDescriptorProto" => again::<OneofDescriptorProto>(alloc, bytes),
        "EnumDescriptorProto" => again::<EnumDescriptorProto>(alloc, bytes),
        "EnumReservedRange" => again::<EnumReservedRange>(alloc, bytes),
        "EnumValueDescriptorProto" => again::<EnumValueDescriptorProto>(alloc, bytes),
        "ServiceDescriptorProto" => again::<ServiceDescriptorProto>(alloc, bytes),
        "MethodDescriptorProto" => again::<MethodDescriptorProto>(alloc, bytes),
        "SourceCodeInfo" => again::<SourceCodeInfo>(alloc, bytes),
        "Location" => again::<Location>(alloc, bytes),
        "Options" => again::<Options>(alloc, bytes),
        "unknown" => unknown(alloc, bytes),
        "options" => options(alloc, bytes),
        word => single(alloc, word, bytes),
    }
}

/// The same of a single value, by the name of its type.
fn single(alloc: Global, word: &str, bytes: &[u8]) -> Result<String, Stop> {
    match word {
        "()" => again::<()>(alloc, bytes),
        "bool" => again::<bool>(alloc, bytes),
        "i32" => again::<i32>(alloc, bytes),
        "i64" => again::<i64>(alloc, bytes),
        "u32" => again::<u32>(alloc, bytes),
        "u64" => again::<u64>(alloc, bytes),
        "String" => again::<String>(alloc, bytes),
        "Vec<u8>" => again::<Vec<u8>>(alloc, bytes),
        "Bytes" => again::<Bytes>(alloc, bytes),
        _ => well_known(alloc, word, bytes),
    }
}

/// The same of a record of a well-known type.
fn well_known(alloc: Global, word: &str, bytes: &[u8]) -> Result<String, Stop> {
    match word {
        "Any" => again::<Any>(alloc, bytes),
        "Duration" => again::<Duration>(alloc, bytes),
        "Empty" => again::<Empty>(alloc, bytes),
        "FieldMask" => again::<FieldMask>(alloc, bytes),
        "Struct" => again::<Struct>(alloc, bytes),
        "Value" => again::<Value>(alloc, bytes),
        "ListValue" => again::<ListValue>(alloc, bytes),
        "Timestamp" => again::<Timestamp>(alloc, bytes),
        _ => Err(Stop::NoSuchWord),
    }
}

/// What the word asks for.
pub(crate) fn answer(alloc: Global, row: &Row, word: &str) -> Result<String, Stop> {
    let bytes = hex::decode(alloc, row.text(0))?;
    descriptor(alloc, word, bytes.as_slice())
}
