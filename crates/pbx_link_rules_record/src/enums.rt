// Rules on enums and their values.
ghost use Rattle.std.specs.Prelude.{◌≡◌, ◌==◌, ◌&&◌, ◌||◌, ℕ, ℤ, not, is_none, List as ListOf, Some, IfOk};
ghost use Rattle.std.specs.List.{list_any, position};
ghost use Rattle.std.specs.Str.{bytes_eq};
ghost use Rattle.pbx_link_definitions.specs.Names.{among, text_or_empty as text_or_empty_of};
ghost use Rattle.pbx_link_definitions.specs.Says.{are_equal, has_option as has_option_of, is_number as is_number_of, is_proto3 as is_proto3_of};
ghost use Rattle.pbx_link_definitions.specs.Places.{IsAmong};
ghost use Rattle.pbx_link_definitions.specs.Found.{IsIndex, is_earlier};
ghost use Rattle.pbx_link_rules_record.specs.Sets.{has_key, lacks_or_has};
ghost use Rattle.pbx_link_rules_record.specs.EnumRules.{is_reserved_value, like_valued, breaks_value, bad_enum as bad_enum_of, bad_enums as bad_enums_of};

use crate::entries::{is_empty, is_number};
use crate::number_set::NumberSet;
use crate::options::has_option;
use crate::ranges::enum_ranges;
use pbx_desc_records::{EnumDescriptorProto, EnumValueDescriptorProto, FileDescriptorProto};
use pbx_link_definitions::{FileParts, Part, is_named, place_copy, place_in, text_or_empty};
use pbx_wire::{List, NoMemory, Text};
use std::alloc::Global;
use std::collections::BTreeSet;

/// Whether the file is of proto3.
pub(crate) fn is_proto3(file: &FileDescriptorProto) -> bool
    ensures { result ≡ is_proto3_of file.now }
{
    is_named(&file.syntax, "proto3")
}

/// Whether the number is absent or in the set.
fn is_reserved(reserved: &NumberSet, number: Option<i32>) -> bool
    ensures { result ≡ lacks_or_has reserved.now number }
{
    match number {
        Some(number) => reserved.contains(i64::from(number)),
        None => true,
    }
}

/// The first value without a number, or with one of the set.
fn first_reserved(reserved: &NumberSet, values: &[EnumValueDescriptorProto]) -> Option<usize>
    ensures { result ≡ position (λ v. lacks_or_has reserved.now v.number) values.now }
{
    values
        .iter()
        .position(|value| is_reserved(reserved, value.number))
}

/// An index of a value without a number, or with a number that the enum reserves.
fn reserved_number(alloc: Global, declared: &EnumDescriptorProto) -> Result<Option<usize>, NoMemory>
    ensures { IfOk result (IsIndex (λ i v. is_none v.number || is_reserved_value declared.now v.number) declared.now.value) }
{
    let ranges = enum_ranges(alloc, declared)?;
    let reserved = NumberSet::new(alloc, ranges.as_slice())?;
    Ok(first_reserved(&reserved, declared.value.as_slice()))
}

/// The names as a set.
fn name_set<'a>(alloc: Global, names: &'a [Text]) -> Result<BTreeSet<&'a str>, NoMemory>
    ensures { IfOk result (λ set. (q : ListOf ℕ) → list_any (λ k. bytes_eq q k.now) set.keys ≡ among names.now q) }
{
    let mut set = BTreeSet::new(alloc);
    for name in names {
        set.insert(name.as_str())?;
    }
    Ok(set)
}

/// Whether the name is in the set.
fn has_name(names: &BTreeSet<&str>, name: &str) -> bool
    ensures { result ≡ list_any (λ k. bytes_eq name.now k.now) names.now.keys }
{
    names.contains(name)
}

/// The first value with one of the names.
fn first_named(names: &BTreeSet<&str>, values: &[EnumValueDescriptorProto]) -> Option<usize>
    ensures { result ≡ position (λ v. list_any (λ k. bytes_eq (text_or_empty_of v.name) k.now) names.now.keys) values.now }
{
    values
        .iter()
        .position(|value| has_name(names, text_or_empty(&value.name)))
}

/// An index of a value with a name that the enum reserves.
fn reserved_name(alloc: Global, declared: &EnumDescriptorProto) -> Result<Option<usize>, NoMemory>
    ensures { IfOk result (IsIndex (λ i v. among declared.now.reserved_name (text_or_empty_of v.name)) declared.now.value) }
{
    let names = name_set(alloc, declared.reserved_name.as_slice())?;
    Ok(first_named(&names, declared.value.as_slice()))
}

/// Adds the number, if there is one, to those that were seen. Whether it is new, or there is none.
fn see(seen: &mut BTreeSet<i32>, number: Option<i32>) -> Result<bool, NoMemory>
    ensures is_new { IfOk result (λ b. b ≡ not (has_key seen.old.keys number)) }
    ensures seen { IfOk result (λ _. (q : ℤ) → has_key seen.new.keys (Some q) ≡ (are_equal (Some q) number || has_key seen.old.keys (Some q))) }
{
    match number {
        Some(number) => Ok(seen.insert(number)?),
        None => Ok(true),
    }
}

/// An index of a value that has the number of an earlier one.
fn number_again(
    alloc: Global,
    values: &[EnumValueDescriptorProto],
) -> Result<Option<usize>, NoMemory>
    ensures { IfOk result (IsIndex (is_earlier like_valued values.now) values.now) }
{
    let mut seen = BTreeSet::new(alloc);
    for (index, value) in values.iter().enumerate() {
        if !see(&mut seen, value.number)? {
            return Ok(Some(index));
        }
    }
    Ok(None)
}

/// An index of a value that has the number of an earlier one, where the enum allows no aliases.
fn alias(alloc: Global, declared: &EnumDescriptorProto) -> Result<Option<usize>, NoMemory>
    ensures { IfOk result (IsIndex (λ i v. not (has_option_of 2 declared.now.options) && is_earlier like_valued declared.now.value i v) declared.now.value) }
{
    if has_option(&declared.options, 2) {
        return Ok(None);
    }
    number_again(alloc, declared.value.as_slice())
}

/// The index of the first value, where its number is not 0.
fn nonzero_first(values: &[EnumValueDescriptorProto]) -> Option<usize>
    ensures { IsIndex (λ i v. i == 0 && not (is_number_of v.number 0)) values.now result }
{
    match values {
        [first, ..] if !is_number(first.number, 0) => Some(0),
        _ => None,
    }
}

/// An index of a value that breaks a rule.
fn bad_value(
    alloc: Global,
    proto3: bool,
    declared: &EnumDescriptorProto,
) -> Result<Option<usize>, NoMemory>
    ensures { IfOk result (IsIndex (breaks_value proto3 declared.now) declared.now.value) }
{
    if let Some(index) = reserved_number(alloc, declared)? {
        return Ok(Some(index));
    }
    if let Some(index) = reserved_name(alloc, declared)? {
        return Ok(Some(index));
    }
    if let Some(index) = alias(alloc, declared)? {
        return Ok(Some(index));
    }
    if proto3 {
        return Ok(nonzero_first(declared.value.as_slice()));
    }
    Ok(None)
}

fn bad_enum(
    alloc: Global,
    proto3: bool,
    part: &Part<'_, EnumDescriptorProto>,
) -> Result<Option<List<i32>>, NoMemory>
    ensures { IfOk result (IsAmong (bad_enum_of proto3 part.now)) }
{
    let declared = part.item();
    if is_empty(&declared.value) {
        return Ok(Some(place_copy(alloc, part.place())?));
    }
    match bad_value(alloc, proto3, declared)? {
        Some(index) => Ok(Some(place_in(alloc, part.place(), 2, index)?)),
        None => Ok(None),
    }
}

/// An enum without values, or a value that lacks a number, has a reserved number or name, has the number of an earlier one without
/// `allow_alias`, or is the first of an enum of proto3 with another number than 0, rule 10 (language guide: "Enumerations"). The only error
/// is want of memory; an index above those of 31 bits is refused likewise.
pub fn bad_enums(alloc: Global, parts: &FileParts<'_>) -> Result<Option<List<i32>>, NoMemory>
    ensures { IfOk result (IsAmong (bad_enums_of parts.now)) }
{
    let proto3 = is_proto3(parts.file());
    for part in parts.enums() {
        if let Some(place) = bad_enum(alloc, proto3, part)? {
            return Ok(Some(place));
        }
    }
    Ok(None)
}
