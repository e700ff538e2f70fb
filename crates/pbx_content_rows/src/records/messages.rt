//! Messages and their parts, each as the one that is being made.

use crate::records::enums::EnumParts;
use crate::records::parts::{
    add_text, hand_over, put_number, put_text, put_truth, take_options, take_records,
};
use crate::said::cut;
use pbx_desc_encoding::{
    DescriptorProto, EnumDescriptorProto, ExtensionRange, FieldDescriptorProto,
    OneofDescriptorProto, ReservedRange,
};
use pbx_wire::Recs;
use std::alloc::Global;
use std::mem::replace;
use test_rows::{Done, Stop};

#[derive(Drop)]
pub(crate) struct MessageParts {
    pub(crate) message: DescriptorProto,
    pub(crate) field: FieldDescriptorProto,
    pub(crate) oneof: OneofDescriptorProto,
    pub(crate) extension_range: ExtensionRange,
    pub(crate) reserved_range: ReservedRange,
}

impl MessageParts {
    pub(crate) fn new(alloc: Global) -> MessageParts {
        MessageParts {
            message: DescriptorProto::new(alloc),
            field: FieldDescriptorProto::new(alloc),
            oneof: OneofDescriptorProto::new(alloc),
            extension_range: ExtensionRange::new(alloc),
            reserved_range: ReservedRange::new(alloc),
        }
    }
}

/// A step with a field.
pub(crate) fn field_step(
    alloc: Global,
    field: &mut FieldDescriptorProto,
    records: &mut Recs,
    part: &str,
    value: &str,
) -> Done {
    match part {
        "name" => put_text(alloc, &mut field.name, value),
        "extendee" => put_text(alloc, &mut field.extendee, value),
        "number" => put_number(&mut field.number, value),
        "label" => put_number(&mut field.label, value),
        "type" => put_number(&mut field.kind, value),
        "type_name" => put_text(alloc, &mut field.type_name, value),
        "default_value" => put_text(alloc, &mut field.default_value, value),
        "options" => take_options(alloc, &mut field.options, records),
        "oneof_index" => put_number(&mut field.oneof_index, value),
        "json_name" => put_text(alloc, &mut field.json_name, value),
        "proto3_optional" => put_truth(&mut field.proto3_optional, value),
        "unknown" => take_records(alloc, &mut field.unknown, records),
        _ => Err(Stop::NoSuchWord),
    }
}

/// A step with a oneof.
pub(crate) fn oneof_step(
    alloc: Global,
    oneof: &mut OneofDescriptorProto,
    records: &mut Recs,
    part: &str,
    value: &str,
) -> Done {
    match part {
        "name" => put_text(alloc, &mut oneof.name, value),
        "options" => take_options(alloc, &mut oneof.options, records),
        "unknown" => take_records(alloc, &mut oneof.unknown, records),
        _ => Err(Stop::NoSuchWord),
    }
}

/// A step with a range of numbers of extensions.
pub(crate) fn extension_range_step(
    alloc: Global,
    range: &mut ExtensionRange,
    records: &mut Recs,
    part: &str,
    value: &str,
) -> Done {
    match part {
        "start" => put_number(&mut range.start, value),
        "end" => put_number(&mut range.end, value),
        "options" => take_options(alloc, &mut range.options, records),
        "unknown" => take_records(alloc, &mut range.unknown, records),
        _ => Err(Stop::NoSuchWord),
    }
}

/// A step with a range of reserved numbers.
pub(crate) fn reserved_range_step(
    alloc: Global,
    range: &mut ReservedRange,
    records: &mut Recs,
    part: &str,
    value: &str,
) -> Done {
    match part {
        "start" => put_number(&mut range.start, value),
        "end" => put_number(&mut range.end, value),
        "unknown" => take_records(alloc, &mut range.unknown, records),
        _ => Err(Stop::NoSuchWord),
    }
}

/// Puts the message into another one, which is then the one that is being made.
fn nest(alloc: Global, message: &mut DescriptorProto) -> Done {
    let inner = replace(message, DescriptorProto::new(alloc));
    message.nested_type.add(inner)?;
    Ok(())
}

/// The same, so many times.
fn nest_all(alloc: Global, message: &mut DescriptorProto, times: &str) -> Done {
    for _ in 0..times.parse::<u32>().unwrap_or(0) {
        nest(alloc, message)?;
    }
    Ok(())
}

/// A step with what a message holds: it is what was made last.
fn holding_step(
    alloc: Global,
    parts: &mut MessageParts,
    enums: &mut EnumParts,
    part: &str,
) -> Done {
    let message = &mut parts.message;
    match part {
        "field" => hand_over(
            &mut message.field,
            &mut parts.field,
            FieldDescriptorProto::new(alloc),
        ),
        "enum_type" => hand_over(
            &mut message.enum_type,
            &mut enums.enumeration,
            EnumDescriptorProto::new(alloc),
        ),
        "extension_range" => hand_over(
            &mut message.extension_range,
            &mut parts.extension_range,
            ExtensionRange::new(alloc),
        ),
        "extension" => hand_over(
            &mut message.extension,
            &mut parts.field,
            FieldDescriptorProto::new(alloc),
        ),
        "oneof_decl" => hand_over(
            &mut message.oneof_decl,
            &mut parts.oneof,
            OneofDescriptorProto::new(alloc),
        ),
        "reserved_range" => hand_over(
            &mut message.reserved_range,
            &mut parts.reserved_range,
            ReservedRange::new(alloc),
        ),
        _ => Err(Stop::NoSuchWord),
    }
}

/// A step with a message: what it holds is what was made last. By `nested_type` the message goes into another, and by
/// `levels NUMBER` so many times.
pub(crate) fn message_step(
    alloc: Global,
    parts: &mut MessageParts,
    enums: &mut EnumParts,
    records: &mut Recs,
    part: &str,
    value: &str,
) -> Done {
    let message = &mut parts.message;
    match part {
        "name" => put_text(alloc, &mut message.name, value),
        "nested_type" => nest(alloc, message),
        "levels" => nest_all(alloc, message, value),
        "options" => take_options(alloc, &mut message.options, records),
        "reserved_name" => add_text(alloc, &mut message.reserved_name, value),
        "unknown" => take_records(alloc, &mut message.unknown, records),
        _ => holding_step(alloc, parts, enums, part),
    }
}

/// Gives the message an optional `int32`: its name, and its number where it has one.
pub(crate) fn add_int32(alloc: Global, parts: &mut MessageParts, value: &str) -> Done {
    let (name, number) = cut(value);
    let field = &mut parts.field;
    put_text(alloc, &mut field.name, name)?;
    field.number = number.parse::<i32>().ok();
    field.label = Some(1);
    field.kind = Some(5);
    hand_over(
        &mut parts.message.field,
        field,
        FieldDescriptorProto::new(alloc),
    )
}
