//! Enums and their parts, each as the one that is being made.

use crate::records::parts::{
    add_text, hand_over, put_number, put_text, take_options, take_records,
};
use pbx_desc_encoding::{EnumDescriptorProto, EnumReservedRange, EnumValueDescriptorProto};
use pbx_wire::Recs;
use std::alloc::Global;
use test_rows::{Done, Stop};

#[derive(Drop)]
pub(crate) struct EnumParts {
    pub(crate) enumeration: EnumDescriptorProto,
    pub(crate) value: EnumValueDescriptorProto,
    pub(crate) range: EnumReservedRange,
}

impl EnumParts {
    pub(crate) fn new(alloc: Global) -> EnumParts {
        EnumParts {
            enumeration: EnumDescriptorProto::new(alloc),
            value: EnumValueDescriptorProto::new(alloc),
            range: EnumReservedRange::new(alloc),
        }
    }
}

/// A step with a value of an enum.
pub(crate) fn value_step(
    alloc: Global,
    one: &mut EnumValueDescriptorProto,
    records: &mut Recs,
    part: &str,
    value: &str,
) -> Done {
    match part {
        "name" => put_text(alloc, &mut one.name, value),
        "number" => put_number(&mut one.number, value),
        "options" => take_options(alloc, &mut one.options, records),
        "unknown" => take_records(alloc, &mut one.unknown, records),
        _ => Err(Stop::NoSuchWord),
    }
}

/// A step with a range of reserved numbers of an enum.
pub(crate) fn range_step(
    alloc: Global,
    range: &mut EnumReservedRange,
    records: &mut Recs,
    part: &str,
    value: &str,
) -> Done {
    match part {
        "start" => put_number(&mut range.start, value),
        "end" => put_number(&mut range.end, value),
        "unknown" => take_records(alloc, &mut range.unknown, records),
        _ => Err(Stop::NoSuchWord),
    }
}

/// A step with an enum: what it holds is what was made last.
pub(crate) fn enum_step(
    alloc: Global,
    parts: &mut EnumParts,
    records: &mut Recs,
    part: &str,
    value: &str,
) -> Done {
    let enumeration = &mut parts.enumeration;
    match part {
        "name" => put_text(alloc, &mut enumeration.name, value),
        "value" => hand_over(
            &mut enumeration.value,
            &mut parts.value,
            EnumValueDescriptorProto::new(alloc),
        ),
        "options" => take_options(alloc, &mut enumeration.options, records),
        "reserved_range" => hand_over(
            &mut enumeration.reserved_range,
            &mut parts.range,
            EnumReservedRange::new(alloc),
        ),
        "reserved_name" => add_text(alloc, &mut enumeration.reserved_name, value),
        "unknown" => take_records(alloc, &mut enumeration.unknown, records),
        _ => Err(Stop::NoSuchWord),
    }
}
