// Rules on the entries of maps that need no look-up of types.
ghost use Rattle.std.specs.Prelude.{◌≡◌, ℕ, codes, List as ListOf, [], IfOk};
ghost use Rattle.std.specs.List.{position};
ghost use Rattle.pbx_link_definitions.specs.Says.{is_number as is_number_of, is_entry as is_entry_of};
ghost use Rattle.pbx_link_definitions.specs.Definitions.{Part as PartOf, parts as parts_of};
ghost use Rattle.pbx_link_definitions.specs.Places.{IsAmong, places_where};
ghost use Rattle.pbx_desc_records.specs.declared.message.DescriptorProto.{DescriptorProto as DescriptorProtoOf};
ghost use Rattle.pbx_link_rules_record.specs.EntryRules.{is_entry_field as is_entry_field_of, is_key_type as is_key_type_of};
ghost use Rattle.pbx_link_rules_record.specs.EntryRules.{is_key as is_key_of, is_value as is_value_of};
ghost use Rattle.pbx_link_rules_record.specs.EntryRules.{is_empty as is_empty_of, are_entry_fields as are_entry_fields_of};
ghost use Rattle.pbx_link_rules_record.specs.EntryRules.{is_proper_entry as is_proper_entry_of, is_bad_entry as is_bad_entry_of};
ghost use Rattle.pbx_link_rules_record.specs.EntryRules.{bad_entries as bad_entries_of};

use crate::options::has_option;
use pbx_desc_records::{DescriptorProto, FieldDescriptorProto};
use pbx_link_definitions::{FileParts, Part, is_named, place_copy, place_in};
use pbx_wire::{List, NoMemory};
use std::alloc::Global;

/// Whether the number is there, and is this one.
pub(crate) fn is_number(number: Option<i32>, wanted: u8) -> bool
    ensures { result ≡ is_number_of number wanted }
{
    match number {
        Some(number) => number == i32::from(wanted),
        None => false,
    }
}

/// Whether the message is the entry of a map.
fn is_entry(message: &DescriptorProto) -> bool
    ensures { result ≡ is_entry_of message.now }
{
    has_option(&message.options, 7)
}

/// Whether it is the field of this name and number of an entry.
fn is_entry_field(name: &str, number: u8, field: &FieldDescriptorProto) -> bool
    ensures { result ≡ is_entry_field_of name.now number field.now }
{
    is_named(&field.name, name)
        && is_number(field.number, number)
        && is_number(field.label, 1)
        && field.default_value.is_none()
        && field.oneof_index.is_none()
}

/// Whether the type may be that of a key: an integer, `bool` or `string`.
fn is_key_type(kind: Option<i32>) -> bool
    ensures { result ≡ is_key_type_of kind }
{
    match kind {
        Some(kind) => 3 <= kind && kind <= 18 && !(10 <= kind && kind <= 12) && kind != 14,
        None => false,
    }
}

fn is_key(field: &FieldDescriptorProto) -> bool
    ensures { result ≡ is_key_of field.now }
{
    is_entry_field("key", 1, field) && is_key_type(field.kind)
}

fn is_value(field: &FieldDescriptorProto) -> bool
    ensures { result ≡ is_value_of field.now }
{
    is_entry_field("value", 2, field)
}

/// Whether the fields are a key and a value, in any order.
fn are_entry_fields(fields: &[FieldDescriptorProto]) -> bool
    ensures { result ≡ are_entry_fields_of fields.now }
{
    match fields {
        [first, second] => {
            (is_key(first) && is_value(second)) || (is_value(first) && is_key(second))
        }
        _ => false,
    }
}

/// Whether no item is in the list.
pub(crate) fn is_empty<T>(list: &List<T>) -> bool
    ensures { result ≡ is_empty_of list.now }
{
    match list.as_slice() {
        [] => true,
        _ => false,
    }
}

/// Whether the message has a key and a value, and nothing beside them.
fn is_proper_entry(message: &DescriptorProto) -> bool
    ensures { result ≡ is_proper_entry_of message.now }
{
    are_entry_fields(message.field.as_slice())
        && is_empty(&message.oneof_decl)
        && is_empty(&message.nested_type)
        && is_empty(&message.enum_type)
        && is_empty(&message.extension_range)
        && is_empty(&message.reserved_range)
}

/// Whether the message is an entry of another form.
fn is_bad_entry(message: &DescriptorProto) -> bool
    ensures { result ≡ is_bad_entry_of message.now }
{
    is_entry(message) && !is_proper_entry(message)
}

/// The first entry of a map.
fn first_entry(messages: &[DescriptorProto]) -> Option<usize>
    ensures { result ≡ position is_entry_of messages.now }
{
    messages.iter().position(|message| is_entry(message))
}

/// An entry at the top of a file.
fn top_entry(alloc: Global, messages: &List<DescriptorProto>) -> Result<Option<List<i32>>, NoMemory>
    ensures { IfOk result (λ o. (scope : ListOf ℕ)
        → IsAmong (places_where (λ (m : PartOf DescriptorProtoOf). is_entry_of m.item) (λ m. m.place) (parts_of scope [] 4 messages.now)) o) }
{
    match first_entry(messages.as_slice()) {
        Some(index) => Ok(Some(place_in(alloc, &[], 4, index)?)),
        None => Ok(None),
    }
}

/// An entry of another form.
#[tactic(auto, using(crate::proofs::Walked::where_here, crate::proofs::Walked::where_next))]
fn improper_entry(
    alloc: Global,
    messages: &[Part<'_, DescriptorProto>],
) -> Result<Option<List<i32>>, NoMemory>
    ensures { IfOk result (IsAmong (places_where (λ (m : PartOf DescriptorProtoOf). is_bad_entry_of m.item) (λ m. m.place) messages.now)) }
{
    for part in messages {
        if is_bad_entry(part.item()) {
            return Ok(Some(place_copy(alloc, part.place())?));
        }
    }
    Ok(None)
}

/// An entry of a map that stands at the top of a file or is of another form, of rule 12 (language guide: "Maps"). The only error is want
/// of memory; an index above those of 31 bits is refused likewise.
pub fn bad_entries(alloc: Global, parts: &FileParts<'_>) -> Result<Option<List<i32>>, NoMemory>
    ensures { IfOk result (IsAmong (bad_entries_of parts.now)) }
{
    match top_entry(alloc, &parts.file().message_type)? {
        Some(place) => Ok(Some(place)),
        None => improper_entry(alloc, parts.messages()),
    }
}
