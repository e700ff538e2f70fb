//! Records that steps make, part by part: of each type there is one that is being made.
//!
//! A step is a word for the type, a word for the part, and the value behind them. A part that is a record takes the one
//! that was made last.

use crate::records::enums::{EnumParts, enum_step, range_step, value_step};
use crate::records::files::file_step;
use crate::records::messages::{
    MessageParts, add_int32, extension_range_step, field_step, message_step, oneof_step,
    reserved_range_step,
};
use crate::records::parts::{hand_over, put_text, records_step};
use crate::records::services::{
    SourceParts, location_step, method_step, service_step, source_step,
};
use crate::said::cut;
use pbx_desc_encoding::{DescriptorProto, FileDescriptorProto, FileDescriptorSet};
use pbx_wire::Recs;
use std::alloc::Global;
use test_rows::{Done, Row, Stop};

#[derive(Drop)]
pub(crate) struct Made {
    /// The records of options, and those of numbers that are no field.
    pub(crate) records: Recs,
    /// The records of the next group.
    pub(crate) inner: Recs,
    pub(crate) messages: MessageParts,
    pub(crate) enums: EnumParts,
    pub(crate) sources: SourceParts,
    pub(crate) file: FileDescriptorProto,
    pub(crate) set: FileDescriptorSet,
}

impl Made {
    fn new(alloc: Global) -> Result<Box<Made>, Stop> {
        let made = Made {
            records: Recs::new(alloc),
            inner: Recs::new(alloc),
            messages: MessageParts::new(alloc),
            enums: EnumParts::new(alloc),
            sources: SourceParts::new(alloc),
            file: FileDescriptorProto::new(alloc),
            set: FileDescriptorSet::new(alloc),
        };
        Ok(Box::new(alloc, made)?)
    }
}

/// A step with a file or what is made of files.
fn outer_step(alloc: Global, made: &mut Made, of: &str, part: &str, value: &str) -> Done {
    match of {
        "file" => file_step(alloc, made, part, value),
        "set" => hand_over(
            &mut made.set.file,
            &mut made.file,
            FileDescriptorProto::new(alloc),
        ),
        "records" => records_step(alloc, &mut made.records, &mut made.inner, part, value),
        _ => Err(Stop::NoSuchWord),
    }
}

/// A step with a part of a message.
fn message_part_step(alloc: Global, made: &mut Made, of: &str, part: &str, value: &str) -> Done {
    let records = &mut made.records;
    let parts = &mut made.messages;
    match of {
        "field" => field_step(alloc, &mut parts.field, records, part, value),
        "oneof" => oneof_step(alloc, &mut parts.oneof, records, part, value),
        "extension_range" => extension_range_step(
            alloc,
            &mut parts.extension_range,
            records,
            part,
            value,
        ),
        "reserved_range" => reserved_range_step(
            alloc,
            &mut parts.reserved_range,
            records,
            part,
            value,
        ),
        "message" => message_step(alloc, parts, &mut made.enums, records, part, value),
        _ => outer_step(alloc, made, of, part, value),
    }
}

fn step(alloc: Global, made: &mut Made, of: &str, part: &str, value: &str) -> Done {
    let records = &mut made.records;
    match of {
        "enum" => enum_step(alloc, &mut made.enums, records, part, value),
        "value" => value_step(alloc, &mut made.enums.value, records, part, value),
        "range" => range_step(alloc, &mut made.enums.range, records, part, value),
        "service" => service_step(alloc, &mut made.sources, records, part, value),
        "method" => method_step(alloc, &mut made.sources.method, records, part, value),
        "source" => source_step(alloc, &mut made.sources, records, part),
        "location" => location_step(alloc, &mut made.sources.location, records, part, value),
        _ => message_part_step(alloc, made, of, part, value),
    }
}

fn one_step(alloc: Global, made: &mut Made, text: &str) -> Done {
    let (of, rest) = cut(text);
    if of == "int32" {
        return add_int32(alloc, &mut made.messages, rest);
    }
    let (part, value) = cut(rest);
    step(alloc, made, of, part, value)
}

/// What the row's steps make, which are its fields from the second on.
pub(crate) fn make(alloc: Global, row: &Row) -> Result<Box<Made>, Stop> {
    let mut made = Made::new(alloc)?;
    for at in 1..row.len() {
        one_step(alloc, &mut made, row.text(at))?;
    }
    Ok(made)
}
