// Numbers and names of fields (language guide: "Assigning Field Numbers", "Reserved Fields").
ghost use Rattle.std.specs.Prelude.{◌≡◌, ◌||◌, ℕ, List as ListOf, not, position, IfOk};
ghost use Rattle.std.specs.List.{list_any};
ghost use Rattle.std.specs.Str.{bytes_eq};
ghost use Rattle.pbx_desc_records.specs.declared.message.DescriptorProto.{out-DescriptorProto};
ghost use Rattle.pbx_link_definitions.specs.Names.{among, text_or_empty as text_or_empty_of};
ghost use Rattle.pbx_link_definitions.specs.Says.{own_fields, are_equal};
ghost use Rattle.pbx_link_definitions.specs.Places.{IsAmong};
ghost use Rattle.pbx_link_definitions.specs.Ranges.{in_ranges, is_field_number as is_field_number_of};
ghost use Rattle.pbx_link_rules_field.specs.Rules.{is_bad_number, has_reserved_name};
ghost use Rattle.pbx_link_rules_field.specs.Rules.{bad_numbers_in as bad_numbers_in_of, bad_field_numbers as bad_field_numbers_of};
ghost use Rattle.pbx_link_definitions.specs.Found.{IsIndex, is_earlier};

use crate::places::Place;
use pbx_desc_records::{DescriptorProto, FieldDescriptorProto};
use pbx_link_definitions::{
    FileParts, NumberRanges, Part, is_field_number, place_in_item, text_or_empty,
};
use pbx_wire::NoMemory;
use std::alloc::Global;
use std::collections::BTreeSet;

/// The first field whose number is none of a field or is in one of the ranges.
fn bad_number_by(ranges: &NumberRanges, fields: &[FieldDescriptorProto]) -> Option<usize>
    ensures { result ≡ position (λ x. not (is_field_number_of x.number) || in_ranges ranges.now x.number) fields.now }
{
    fields.iter().position(|field| !is_field_number(field.number) || ranges.contains(field.number))
}

/// The first field with a number that no field of the message may have.
fn bad_number(alloc: Global, message: &DescriptorProto) -> Result<Option<usize>, NoMemory>
    ensures { IfOk result (λ index. index ≡ position (λ x. is_bad_number message.now x.number) (own_fields message.now)) }
{
    let ranges = NumberRanges::of_message(alloc, message)?;
    Ok(bad_number_by(&ranges, message.field.as_slice()))
}

/// A field that has the number of an earlier one.
fn number_again(alloc: Global, fields: &[FieldDescriptorProto]) -> Result<Option<usize>, NoMemory>
    ensures { IfOk result (IsIndex (is_earlier (λ x y. are_equal x.number y.number) fields.now) fields.now) }
{
    let mut seen = BTreeSet::new(alloc);
    for (index, field) in fields.iter().enumerate() {
        if let Some(number) = field.number {
            if !seen.insert(number)? {
                return Ok(Some(index));
            }
        }
    }
    Ok(None)
}

/// The names that the message reserves.
fn reserved_names(alloc: Global, message: &DescriptorProto) -> Result<BTreeSet<&str>, NoMemory>
    ensures { IfOk result (λ names. (name : ListOf ℕ) →
        list_any (λ k. bytes_eq name k.now) names.keys ≡ among (out-DescriptorProto message.now).reserved_name name) }
{
    let mut names = BTreeSet::new(alloc);
    for name in message.reserved_name.as_slice() {
        names.insert(name.as_str())?;
    }
    Ok(names)
}

fn holds_name(names: &BTreeSet<&str>, name: &str) -> bool
    ensures { result ≡ list_any (λ k. bytes_eq name.now k.now) names.now.keys }
{
    names.contains(name)
}

/// The first field whose name is one of these.
fn named_by(names: &BTreeSet<&str>, fields: &[FieldDescriptorProto]) -> Option<usize>
    ensures { result ≡ position (λ x. list_any (λ k. bytes_eq (text_or_empty_of x.name) k.now) names.now.keys) fields.now }
{
    fields
        .iter()
        .position(|field| holds_name(names, text_or_empty(&field.name)))
}

/// The first field with a name that the message reserves.
fn reserved_name(alloc: Global, message: &DescriptorProto) -> Result<Option<usize>, NoMemory>
    ensures { IfOk result (λ index. index ≡ position (has_reserved_name message.now) (own_fields message.now)) }
{
    let names = reserved_names(alloc, message)?;
    Ok(named_by(&names, message.field.as_slice()))
}

/// A place in one message.
fn bad_numbers_in(
    alloc: Global,
    message: &Part<'_, DescriptorProto>,
) -> Result<Option<Place>, NoMemory>
    ensures { IfOk result (IsAmong (bad_numbers_in_of message.now)) }
{
    let item = message.item();
    if let Some(index) = bad_number(alloc, item)? {
        return Ok(Some(place_in_item(alloc, message.place(), 2, index, 3)?));
    }
    if let Some(index) = number_again(alloc, item.field.as_slice())? {
        return Ok(Some(place_in_item(alloc, message.place(), 2, index, 3)?));
    }
    if let Some(index) = reserved_name(alloc, item)? {
        return Ok(Some(place_in_item(alloc, message.place(), 2, index, 1)?));
    }
    Ok(None)
}

/// A place at which rule 6 is broken by the fields of a message alone, if there is one: a number is missing, is not one of 1 to
/// 536,870,911 without 19,000 to 19,999, lies in an extension range or a reserved range, or is that of an earlier field; or a name is
/// reserved (language guide: "Assigning Field Numbers", "Reserved Fields"). The only error is want of memory; an index above those of
/// 31 bits is refused likewise.
pub fn bad_field_numbers(alloc: Global, parts: &FileParts<'_>) -> Result<Option<Place>, NoMemory>
    ensures { IfOk result (IsAmong (bad_field_numbers_of parts.now)) }
{
    for message in parts.messages() {
        if let Some(place) = bad_numbers_in(alloc, message)? {
            return Ok(Some(place));
        }
    }
    Ok(None)
}
