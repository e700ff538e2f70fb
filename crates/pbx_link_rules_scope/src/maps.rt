// Fields of maps (language guide: "Maps"; `descriptor.proto`: MessageOptions.map_entry).
ghost use Rattle.std.specs.Prelude.{◌≡◌, IfOk};
ghost use Rattle.std.specs.List.{flat_map};
ghost use Rattle.pbx_link_definitions.specs.Says.{is_entry as is_entry_of, is_repeated as is_repeated_of};
ghost use Rattle.pbx_link_definitions.specs.Places.{IsAmong};
ghost use Rattle.pbx_link_definitions.specs.Found.{IsIndex};
ghost use Rattle.pbx_link_rules_scope.specs.MapFields.{type_in, entry_in, is_entry_type, is_bad_map_field};
ghost use Rattle.pbx_link_rules_scope.specs.MapFields.{bad_map_fields_in, of_entry_types, bad_map_fields as bad_map_fields_of};

use crate::searches::Place;
use pbx_desc_records::{DescriptorProto, FieldDescriptorProto};
use pbx_link_definitions::{
    FileParts, Part, PartRef, name_in, place_copy, place_in, text_or_empty,
};
use pbx_link_scope::{Bound, Visible, type_of};
use pbx_wire::NoMemory;
use std::alloc::Global;
use std::collections::BTreeSet;

/// Whether the message is the entry of a map.
fn is_entry(message: &DescriptorProto) -> bool
    ensures { result ≡ is_entry_of message.now }
{
    match &message.options {
        Some(options) => match options.bool_of(7) {
            Some(flag) => flag,
            None => false,
        },
        None => false,
    }
}

pub(crate) fn is_repeated(field: &FieldDescriptorProto) -> bool
    ensures { result ≡ is_repeated_of field.now }
{
    match field.label {
        Some(label) => label == 3,
        None => false,
    }
}

/// The entry of a map that is the field's type, if it is one.
fn entry_of<'a, V: Visible>(
    alloc: Global,
    seen: &'a V,
    scope: &str,
    field: &FieldDescriptorProto,
) -> Result<Option<PartRef<'a, DescriptorProto>>, NoMemory>
    ensures { IfOk result (λ entry. entry ≡ entry_in (type_in (V.files seen.now) scope.now field.now)) }
{
    match type_of(alloc, seen, scope, field)? {
        Some(Bound::Message(message)) => {
            if is_entry(message.item()) {
                return Ok(Some(message));
            }
            Ok(None)
        }
        _ => Ok(None),
    }
}

/// A field of an entry type that is not repeated, not of the message that holds the entry, or has the type of an earlier one.
fn bad_field<V: Visible>(
    alloc: Global,
    seen: &V,
    scope: &str,
    fields: &[FieldDescriptorProto],
) -> Result<Option<usize>, NoMemory>
    ensures { IfOk result (IsIndex (λ i. is_bad_map_field (V.files seen.now) fields.now scope.now) fields.now) }
{
    let mut names = BTreeSet::new(alloc);
    for (index, field) in fields.iter().enumerate() {
        if let Some(entry) = entry_of(alloc, seen, scope, field)? {
            if !is_repeated(field) {
                return Ok(Some(index));
            }
            if entry.scope() != scope {
                return Ok(Some(index));
            }
            if !names.insert(text_or_empty(&entry.item().name))? {
                return Ok(Some(index));
            }
        }
    }
    Ok(None)
}

fn bad_field_in<V: Visible>(
    alloc: Global,
    seen: &V,
    message: &Part<'_, DescriptorProto>,
) -> Result<Option<Place>, NoMemory>
    ensures { IfOk result (IsAmong (bad_map_fields_in (V.files seen.now) message.now)) }
{
    let item = message.item();
    let name = name_in(alloc, message.scope(), text_or_empty(&item.name))?;
    match bad_field(alloc, seen, name.as_str(), item.field.as_slice())? {
        Some(index) => Ok(Some(place_in(alloc, message.place(), 2, index)?)),
        None => Ok(None),
    }
}

fn bad_message<V: Visible>(
    alloc: Global,
    seen: &V,
    messages: &[Part<'_, DescriptorProto>],
) -> Result<Option<Place>, NoMemory>
    ensures { IfOk result (IsAmong (flat_map (bad_map_fields_in (V.files seen.now)) messages.now)) }
{
    for message in messages {
        if let Some(place) = bad_field_in(alloc, seen, message)? {
            return Ok(Some(place));
        }
    }
    Ok(None)
}

/// Whether the type of the field in the scope is an entry.
fn has_entry_type<V: Visible>(
    alloc: Global,
    seen: &V,
    scope: &str,
    field: &FieldDescriptorProto,
) -> Result<bool, NoMemory>
    ensures { IfOk result (λ entry. entry ≡ is_entry_type (type_in (V.files seen.now) scope.now field.now)) }
{
    match type_of(alloc, seen, scope, field)? {
        Some(Bound::Message(message)) => Ok(is_entry(message.item())),
        _ => Ok(false),
    }
}

fn bad_extension<V: Visible>(
    alloc: Global,
    seen: &V,
    extensions: &[Part<'_, FieldDescriptorProto>],
) -> Result<Option<Place>, NoMemory>
    ensures { IfOk result (IsAmong (of_entry_types (V.files seen.now) extensions.now)) }
{
    for extension in extensions {
        if has_entry_type(alloc, seen, extension.scope(), extension.item())? {
            return Ok(Some(place_copy(alloc, extension.place())?));
        }
    }
    Ok(None)
}

/// A place at which rule 12 (entries of maps) is broken by a field or an extension, if there is one: the type is the entry of a map, and
/// the field is not repeated, is not of the message that holds the entry, or is not the only field of that type there, or it is an
/// extension (language guide: "Maps"). The only error is want of memory; an index above those of 31 bits is refused likewise.
pub fn bad_map_fields<V: Visible>(
    alloc: Global,
    seen: &V,
    parts: &FileParts<'_>,
) -> Result<Option<Place>, NoMemory>
    ensures { IfOk result (IsAmong (bad_map_fields_of (V.files seen.now) parts.now)) }
{
    if let Some(place) = bad_message(alloc, seen, parts.messages())? {
        return Ok(Some(place));
    }
    bad_extension(alloc, seen, parts.extensions())
}
