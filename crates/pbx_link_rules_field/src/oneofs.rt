// Oneofs (language guide: "Oneof"; `descriptor.proto`: FieldDescriptorProto.proto3_optional).
ghost use Rattle.std.specs.Prelude.{◌≡◌, ◌<◌, ◌==◌, ℕ, length, slice_index, find, position, vec_len, IfOk};
ghost use Rattle.std.specs.List.{flat_map};
ghost use Rattle.std.specs.Option.{option_copied};
ghost use Rattle.pbx_desc_records.specs.declared.message.DescriptorProto.{out-DescriptorProto};
ghost use Rattle.pbx_link_definitions.specs.Says.{own_fields, is_proto3 as is_proto3_of, is_set as is_set_of, is_optional as is_optional_of};
ghost use Rattle.pbx_link_definitions.specs.Places.{IsAmong};
ghost use Rattle.pbx_link_rules_field.specs.Rules.{bad_oneofs_in as bad_oneofs_in_of, is_bad_extension as is_bad_extension_of, bad_oneofs as bad_oneofs_of};
ghost use Rattle.pbx_link_rules_field.specs.Members.{index_below, member_count, is_bad_member as is_bad_member_of};

use crate::places::Place;
use pbx_desc_records::{DescriptorProto, FieldDescriptorProto, FileDescriptorProto};
use pbx_link_definitions::{FileParts, Part, is_named, place_copy, place_in};
use pbx_wire::NoMemory;
use std::alloc::Global;

pub(crate) fn is_proto3(file: &FileDescriptorProto) -> bool
    ensures { result ≡ is_proto3_of file.now }
{
    is_named(&file.syntax, "proto3")
}

fn is_set(flag: Option<bool>) -> bool
    ensures { result ≡ is_set_of flag }
{
    match flag {
        Some(flag) => flag,
        None => false,
    }
}

fn is_optional(field: &FieldDescriptorProto) -> bool
    ensures { result ≡ is_optional_of field.now }
{
    match field.label {
        Some(label) => label == 1,
        None => false,
    }
}

/// The index among so many oneofs, if it is one of these.
fn oneof_of(field: &FieldDescriptorProto, count: usize) -> Option<usize>
    ensures { result ≡ index_below count field.now.oneof_index }
{
    match field.oneof_index {
        Some(index) => match usize::try_from(index) {
            Ok(index) if index < count => Some(index),
            _ => None,
        },
        None => None,
    }
}

/// How many members each oneof has.
fn member_counts(alloc: Global, message: &DescriptorProto) -> Result<Vec<usize>, NoMemory>
    ensures len { IfOk result (λ counts. vec_len counts ≡ length (out-DescriptorProto message.now).oneof_decl) }
    ensures counts { IfOk result (λ counts. (i : ℕ) → i < vec_len counts → slice_index counts.items i ≡ member_count (own_fields message.now) i) }
{
    let mut counts = vec![in alloc; 0usize; message.oneof_decl.len()]?;
    for field in message.field.as_slice() {
        if let Some(index) = oneof_of(field, counts.len()) {
            counts[index] += 1;
        }
    }
    Ok(counts)
}

/// Whether the field is no proper member of a oneof, where the oneofs have so many members.
fn is_bad_member(proto3: bool, counts: &[usize], field: &FieldDescriptorProto) -> bool
    ensures { result ≡ is_bad_member_of proto3 counts.now field.now }
{
    match field.oneof_index {
        Some(_) => match oneof_of(field, counts.len()) {
            Some(index) => !is_optional(field)
                || (is_set(field.proto3_optional) && (!proto3 || counts[index] != 1)),
            None => true,
        },
        None => is_set(field.proto3_optional),
    }
}

/// The first field that is no proper member of a oneof.
fn bad_member(proto3: bool, counts: &[usize], fields: &[FieldDescriptorProto]) -> Option<usize>
    ensures { result ≡ position (is_bad_member_of proto3 counts.now) fields.now }
{
    fields
        .iter()
        .position(|field| is_bad_member(proto3, counts, field))
}

/// The first oneof without a member.
fn no_member(counts: &[usize]) -> Option<usize>
    ensures { result ≡ position (λ n. n == 0) counts.now }
{
    counts.iter().position(|count| *count == 0)
}

/// A place in one message.
fn bad_oneofs_in(
    alloc: Global,
    file: &FileDescriptorProto,
    message: &Part<'_, DescriptorProto>,
) -> Result<Option<Place>, NoMemory>
    ensures { IfOk result (IsAmong (bad_oneofs_in_of file.now message.now)) }
{
    let counts = member_counts(alloc, message.item())?;
    if let Some(index) = bad_member(is_proto3(file), &counts, message.item().field.as_slice()) {
        return Ok(Some(place_in(alloc, message.place(), 2, index)?));
    }
    match no_member(&counts) {
        Some(index) => Ok(Some(place_in(alloc, message.place(), 8, index)?)),
        None => Ok(None),
    }
}

/// A place in one of the messages.
fn bad_message(
    alloc: Global,
    file: &FileDescriptorProto,
    messages: &[Part<'_, DescriptorProto>],
) -> Result<Option<Place>, NoMemory>
    ensures { IfOk result (IsAmong (flat_map (bad_oneofs_in_of file.now) messages.now)) }
{
    for message in messages {
        if let Some(place) = bad_oneofs_in(alloc, file, message)? {
            return Ok(Some(place));
        }
    }
    Ok(None)
}

fn is_bad_extension(proto3: bool, extension: &FieldDescriptorProto) -> bool
    ensures { result ≡ is_bad_extension_of proto3 extension.now }
{
    extension.oneof_index.is_some() || (is_set(extension.proto3_optional) && !proto3)
}

/// The first extension that is a member of a oneof, or `optional` as only fields of proto3 are.
fn bad_extension<'p, 'a>(
    proto3: bool,
    extensions: &'p [Part<'a, FieldDescriptorProto>],
) -> Option<&'p Part<'a, FieldDescriptorProto>>
    ensures { option_copied result ≡ find (λ p. is_bad_extension_of proto3 p.item) extensions.now }
{
    extensions
        .iter()
        .find(|extension| is_bad_extension(proto3, extension.item()))
}

/// A place at which rule 9 is broken, if there is one: a field gives the index of no oneof of its message, or is a member of a oneof and
/// not `optional`; a field with `proto3_optional` is of a file of another syntax, or is not the only member of its oneof; a oneof has no
/// member; or an extension is a member of a oneof, or has `proto3_optional` in a file of another syntax (language guide: "Oneof"). The
/// only error is want of memory; an index above those of 31 bits is refused likewise.
pub fn bad_oneofs(alloc: Global, parts: &FileParts<'_>) -> Result<Option<Place>, NoMemory>
    ensures { IfOk result (IsAmong (bad_oneofs_of parts.now)) }
{
    if let Some(place) = bad_message(alloc, parts.file(), parts.messages())? {
        return Ok(Some(place));
    }
    match bad_extension(is_proto3(parts.file()), parts.extensions()) {
        Some(extension) => Ok(Some(place_copy(alloc, extension.place())?)),
        None => Ok(None),
    }
}
