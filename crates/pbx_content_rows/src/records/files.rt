//! The file that is being made.

use crate::records::made::Made;
use crate::records::parts::{
    add_number, add_text, hand_over, put_text, take_options, take_records,
};
use pbx_desc_encoding::{
    DescriptorProto, EnumDescriptorProto, FieldDescriptorProto, FileDescriptorProto,
    ServiceDescriptorProto, SourceCodeInfo,
};
use std::alloc::Global;
use std::mem::replace;
use test_rows::{Done, Stop};

/// A step with a file: what it holds is what was made last.
pub(crate) fn file_step(alloc: Global, made: &mut Made, part: &str, value: &str) -> Done {
    let file = &mut made.file;
    match part {
        "name" => put_text(alloc, &mut file.name, value),
        "package" => put_text(alloc, &mut file.package, value),
        "dependency" => add_text(alloc, &mut file.dependency, value),
        "public_dependency" => add_number(&mut file.public_dependency, value),
        "weak_dependency" => add_number(&mut file.weak_dependency, value),
        "options" => take_options(alloc, &mut file.options, &mut made.records),
        "syntax" => put_text(alloc, &mut file.syntax, value),
        "unknown" => take_records(alloc, &mut file.unknown, &mut made.records),
        _ => holding_step(alloc, made, part),
    }
}

/// A step with what a file holds.
fn holding_step(alloc: Global, made: &mut Made, part: &str) -> Done {
    let file = &mut made.file;
    match part {
        "message_type" => hand_over(
            &mut file.message_type,
            &mut made.messages.message,
            DescriptorProto::new(alloc),
        ),
        "enum_type" => hand_over(
            &mut file.enum_type,
            &mut made.enums.enumeration,
            EnumDescriptorProto::new(alloc),
        ),
        "service" => hand_over(
            &mut file.service,
            &mut made.sources.service,
            ServiceDescriptorProto::new(alloc),
        ),
        "extension" => hand_over(
            &mut file.extension,
            &mut made.messages.field,
            FieldDescriptorProto::new(alloc),
        ),
        "source_code_info" => {
            file.source_code_info = Some(replace(
                &mut made.sources.source,
                SourceCodeInfo::new(alloc),
            ));
            Ok(())
        }
        _ => Err(Stop::NoSuchWord),
    }
}
