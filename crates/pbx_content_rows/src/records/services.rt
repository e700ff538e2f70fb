//! Services and source info, each as the one that is being made.

use crate::records::parts::{
    add_number, add_text, hand_over, put_text, put_truth, take_options, take_records,
};
use pbx_desc_encoding::{Location, MethodDescriptorProto, ServiceDescriptorProto, SourceCodeInfo};
use pbx_wire::Recs;
use std::alloc::Global;
use test_rows::{Done, Stop};

#[derive(Drop)]
pub(crate) struct SourceParts {
    pub(crate) service: ServiceDescriptorProto,
    pub(crate) method: MethodDescriptorProto,
    pub(crate) source: SourceCodeInfo,
    pub(crate) location: Location,
}

impl SourceParts {
    pub(crate) fn new(alloc: Global) -> SourceParts {
        SourceParts {
            service: ServiceDescriptorProto::new(alloc),
            method: MethodDescriptorProto::new(alloc),
            source: SourceCodeInfo::new(alloc),
            location: Location::new(alloc),
        }
    }
}

/// A step with a method.
pub(crate) fn method_step(
    alloc: Global,
    method: &mut MethodDescriptorProto,
    records: &mut Recs,
    part: &str,
    value: &str,
) -> Done {
    match part {
        "name" => put_text(alloc, &mut method.name, value),
        "input_type" => put_text(alloc, &mut method.input_type, value),
        "output_type" => put_text(alloc, &mut method.output_type, value),
        "options" => take_options(alloc, &mut method.options, records),
        "client_streaming" => put_truth(&mut method.client_streaming, value),
        "server_streaming" => put_truth(&mut method.server_streaming, value),
        "unknown" => take_records(alloc, &mut method.unknown, records),
        _ => Err(Stop::NoSuchWord),
    }
}

/// A step with a service: its methods are those that were made last.
pub(crate) fn service_step(
    alloc: Global,
    parts: &mut SourceParts,
    records: &mut Recs,
    part: &str,
    value: &str,
) -> Done {
    let service = &mut parts.service;
    match part {
        "name" => put_text(alloc, &mut service.name, value),
        "method" => hand_over(
            &mut service.method,
            &mut parts.method,
            MethodDescriptorProto::new(alloc),
        ),
        "options" => take_options(alloc, &mut service.options, records),
        "unknown" => take_records(alloc, &mut service.unknown, records),
        _ => Err(Stop::NoSuchWord),
    }
}

/// A step with a location.
pub(crate) fn location_step(
    alloc: Global,
    location: &mut Location,
    records: &mut Recs,
    part: &str,
    value: &str,
) -> Done {
    match part {
        "path" => add_number(&mut location.path, value),
        "span" => add_number(&mut location.span, value),
        "leading" => put_text(alloc, &mut location.leading_comments, value),
        "trailing" => put_text(alloc, &mut location.trailing_comments, value),
        "detached" => add_text(alloc, &mut location.leading_detached_comments, value),
        "unknown" => take_records(alloc, &mut location.unknown, records),
        _ => Err(Stop::NoSuchWord),
    }
}

/// A step with source info: its locations are those that were made last.
pub(crate) fn source_step(
    alloc: Global,
    parts: &mut SourceParts,
    records: &mut Recs,
    part: &str,
) -> Done {
    let source = &mut parts.source;
    match part {
        "location" => hand_over(
            &mut source.location,
            &mut parts.location,
            Location::new(alloc),
        ),
        "unknown" => take_records(alloc, &mut source.unknown, records),
        _ => Err(Stop::NoSuchWord),
    }
}
