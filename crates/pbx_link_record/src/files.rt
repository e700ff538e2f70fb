// The linked record of a file.
ghost use Rattle.std.specs.Prelude.{◌≡◌, IfOk, OnOk};
ghost use Rattle.pbx_link_record.specs.Settled.{settled_file};
ghost use Rattle.pbx_link_record.specs.Linked.{linked_with, without_source_code_info};

use crate::copying::copy_to;
use crate::fields::linked_extensions;
use crate::messages::linked_messages;
use crate::services::linked_services;
use crate::settling::{put, settle_to};
use crate::unknown::{RecordType, settled_unknown};
use pbx_desc_records::FileDescriptorProto;
use pbx_link_definitions::text_or_empty;
use pbx_link_scope::Visible;
use pbx_wire::NoMemory;
use std::alloc::Global;

/// Puts in what holds no names to be linked, settled, but for the places in the source.
fn settle_parts(
    from: &FileDescriptorProto,
    to: &mut FileDescriptorProto,
    alloc: Global,
) -> Result<(), NoMemory>
    ensures { OnOk result (to.new ≡ record (settled_file from.now) {
      message_type = to.old.message_type;
      service = to.old.service;
      extension = to.old.extension;
      source_code_info = to.old.source_code_info;
    }) }
{
    copy_to(&from.name, &mut to.name, alloc)?;
    copy_to(&from.package, &mut to.package, alloc)?;
    copy_to(&from.dependency, &mut to.dependency, alloc)?;
    settle_to(&from.enum_type, &mut to.enum_type, alloc)?;
    settle_to(&from.options, &mut to.options, alloc)?;
    copy_to(&from.public_dependency, &mut to.public_dependency, alloc)?;
    copy_to(&from.weak_dependency, &mut to.weak_dependency, alloc)?;
    copy_to(&from.syntax, &mut to.syntax, alloc)?;
    put(
        &mut to.unknown,
        settled_unknown(alloc, &from.unknown, RecordType::File),
    )
}

/// Puts the linked and settled record in place of the other, but for the places in the source.
fn link_file<V: Visible>(
    alloc: Global,
    seen: &V,
    from: &FileDescriptorProto,
    to: &mut FileDescriptorProto,
) -> Result<(), NoMemory>
    ensures { OnOk result (to.new ≡ record (settled_file (linked_with (V.files seen.now) from.now)) {
      source_code_info = to.old.source_code_info;
    }) }
{
    let scope = text_or_empty(&from.package);
    put(
        &mut to.message_type,
        linked_messages(alloc, seen, scope, &from.message_type),
    )?;
    put(
        &mut to.service,
        linked_services(alloc, seen, scope, &from.service),
    )?;
    put(
        &mut to.extension,
        linked_extensions(alloc, seen, scope, &from.extension),
    )?;
    settle_parts(from, to, alloc)
}

/// The record that linking makes of the record of a file that sees the files of `seen`, as its own encoding gives it back: in fields,
/// extensions and methods the exact names of the messages and enums that names are bound to, with a leading dot; in fields and extensions
/// the types of these (11 for a message, 14 for an enum); a JSON name in each field that has none; no unknown record that may not be written
/// or has the number of a field, and the others by ascending number. A name that is bound to nothing stays as it is, and so does all else.
/// The places in the source are left out: `settled_source_code_info` makes them of those of the file, which need not be copied.
/// The only error is want of memory.
pub fn linked_without_source_code_info<V: Visible>(
    alloc: Global,
    seen: &V,
    file: &FileDescriptorProto,
) -> Result<FileDescriptorProto, NoMemory>
    ensures { IfOk result (λ linked. linked ≡ without_source_code_info (settled_file (linked_with (V.files seen.now) file.now))) }
{
    let mut linked = FileDescriptorProto::new(alloc);
    if let Err(error) = link_file(alloc, seen, file, &mut linked) {
        drop(linked);
        return Err(error);
    }
    Ok(linked)
}
