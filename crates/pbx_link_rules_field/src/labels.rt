// Labels of fields (`descriptor.proto`: FieldDescriptorProto.Label).
ghost use Rattle.std.specs.Prelude.{◌≡◌, true, IfOk, find, position};
ghost use Rattle.std.specs.List.{flat_map};
ghost use Rattle.std.specs.Option.{option_copied};
ghost use Rattle.pbx_link_definitions.specs.Places.{IsAmong};
ghost use Rattle.pbx_link_rules_field.specs.Rules.{is_bad_label as is_bad_label_of, bad_labels_in, bad_labels as bad_labels_of};

use crate::oneofs::is_proto3;
use crate::places::Place;
use pbx_desc_records::{DescriptorProto, FieldDescriptorProto};
use pbx_link_definitions::{FileParts, Part, place_in_item};
use pbx_wire::NoMemory;
use std::alloc::Global;

/// Whether the number is none of a label, or is that of `required` where it may not be.
fn is_bad_label(no_required: bool, label: Option<i32>) -> bool
    ensures { result ≡ is_bad_label_of no_required label }
{
    match label {
        Some(label) => label < 1 || label > 3 || (no_required && label == 2),
        None => true,
    }
}

/// The first field with a bad label.
fn bad_label(no_required: bool, fields: &[FieldDescriptorProto]) -> Option<usize>
    ensures { result ≡ position (λ x. is_bad_label_of no_required x.label) fields.now }
{
    fields
        .iter()
        .position(|field| is_bad_label(no_required, field.label))
}

/// The first extension with a bad label.
fn bad_extension<'p, 'a>(
    extensions: &'p [Part<'a, FieldDescriptorProto>],
) -> Option<&'p Part<'a, FieldDescriptorProto>>
    ensures { option_copied result ≡ find (λ p. is_bad_label_of true p.item.label) extensions.now }
{
    extensions
        .iter()
        .find(|extension| is_bad_label(true, extension.item().label))
}

/// A place in one of the messages.
fn bad_field(
    alloc: Global,
    no_required: bool,
    messages: &[Part<'_, DescriptorProto>],
) -> Result<Option<Place>, NoMemory>
    ensures { IfOk result (IsAmong (flat_map (bad_labels_in no_required) messages.now)) }
{
    for message in messages {
        if let Some(index) = bad_label(no_required, message.item().field.as_slice()) {
            return Ok(Some(place_in_item(alloc, message.place(), 2, index, 4)?));
        }
    }
    Ok(None)
}

/// A place at which rule 13 is broken, if there is one: the label of a field or an extension is missing or is none that
/// `FieldDescriptorProto.Label` lists, or is `required` in an extension or in a file of proto3. The only error is want of memory; an
/// index above those of 31 bits is refused likewise.
pub fn bad_labels(alloc: Global, parts: &FileParts<'_>) -> Result<Option<Place>, NoMemory>
    ensures { IfOk result (IsAmong (bad_labels_of parts.now)) }
{
    if let Some(place) = bad_field(alloc, is_proto3(parts.file()), parts.messages())? {
        return Ok(Some(place));
    }
    match bad_extension(parts.extensions()) {
        Some(extension) => Ok(Some(extension.at(alloc, 4)?)),
        None => Ok(None),
    }
}
