// Types of fields (`descriptor.proto`: FieldDescriptorProto.Type).
ghost use Rattle.std.specs.Prelude.{◌≡◌, find, position, IfOk};
ghost use Rattle.std.specs.List.{flat_map};
ghost use Rattle.std.specs.Option.{option_copied};
ghost use Rattle.pbx_link_definitions.specs.Places.{IsAmong};
ghost use Rattle.pbx_link_rules_field.specs.Rules.{is_type as is_type_of, is_named_type as is_named_type_of, is_bad_type as is_bad_type_of};
ghost use Rattle.pbx_link_rules_field.specs.Rules.{has_bad_type, bad_types_in, bad_types as bad_types_of};

use crate::places::Place;
use pbx_desc_records::{DescriptorProto, FieldDescriptorProto};
use pbx_link_definitions::{FileParts, Part, place_in_item};
use pbx_wire::{NoMemory, Text};
use std::alloc::Global;

/// Whether the number is that of a type, groups left out.
fn is_type(number: i32) -> bool
    ensures { result ≡ is_type_of number }
{
    0 < number && number < 19 && number != 10
}

/// Whether the number is that of messages or of enums, which have names.
fn is_named_type(number: i32) -> bool
    ensures { result ≡ is_named_type_of number }
{
    number == 11 || number == 14
}

fn is_bad_type(number: Option<i32>, name: &Option<Text>) -> bool
    ensures { result ≡ is_bad_type_of number name.now }
{
    match number {
        None => name.is_none(),
        Some(number) => match name {
            None => !is_type(number) || is_named_type(number),
            Some(_) => !is_named_type(number),
        },
    }
}

/// The first field of a bad type.
fn bad_type(fields: &[FieldDescriptorProto]) -> Option<usize>
    ensures { result ≡ position has_bad_type fields.now }
{
    fields
        .iter()
        .position(|field| is_bad_type(field.kind, &field.type_name))
}

/// The first extension of a bad type.
fn bad_extension<'p, 'a>(
    extensions: &'p [Part<'a, FieldDescriptorProto>],
) -> Option<&'p Part<'a, FieldDescriptorProto>>
    ensures { option_copied result ≡ find (λ p. has_bad_type p.item) extensions.now }
{
    extensions.iter().find(|extension| is_bad_type(
        extension.item().kind,
        &extension.item().type_name,
    ))
}

/// A place in one of the messages.
fn bad_field(
    alloc: Global,
    messages: &[Part<'_, DescriptorProto>],
) -> Result<Option<Place>, NoMemory>
    ensures { IfOk result (IsAmong (flat_map bad_types_in messages.now)) }
{
    for message in messages {
        if let Some(index) = bad_type(message.item().field.as_slice()) {
            return Ok(Some(place_in_item(alloc, message.place(), 2, index, 5)?));
        }
    }
    Ok(None)
}

/// A place at which rule 8 is broken, if there is one: the type of a field or an extension is none that
/// `FieldDescriptorProto.Type` lists or is that of a group; a message or an enum has no name, or a scalar has one; or there is neither
/// a type nor a name. The only error is want of memory; an index above those of 31 bits is refused likewise.
pub fn bad_types(alloc: Global, parts: &FileParts<'_>) -> Result<Option<Place>, NoMemory>
    ensures { IfOk result (IsAmong (bad_types_of parts.now)) }
{
    if let Some(place) = bad_field(alloc, parts.messages())? {
        return Ok(Some(place));
    }
    match bad_extension(parts.extensions()) {
        Some(extension) => Ok(Some(extension.at(alloc, 5)?)),
        None => Ok(None),
    }
}
