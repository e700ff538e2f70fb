// Rules on the ranges of messages and enums.
ghost use Rattle.std.specs.Prelude.{◌≡◌, ◌||◌, ◌<◌, length, slice_index_or, IfOk};
ghost use Rattle.std.specs.List.{flat_map};
ghost use Rattle.pbx_link_definitions.specs.Definitions.{Part as PartOf};
ghost use Rattle.pbx_link_definitions.specs.Ranges.{Range};
ghost use Rattle.pbx_link_definitions.specs.Places.{IsAmong};
ghost use Rattle.pbx_link_definitions.specs.Found.{IsIndex, is_earlier};
ghost use Rattle.pbx_link_rules_record.specs.RangeRules.{is_bad_range, is_empty_range, share_number, message_ranges as message_ranges_of};
ghost use Rattle.pbx_link_rules_record.specs.RangeRules.{bad_message_ranges as bad_message_ranges_of, bad_ranges as bad_ranges_of};
ghost use Rattle.pbx_link_rules_record.specs.RangeRules.{bad_enum_ranges as bad_enum_ranges_of};

use crate::entries::is_empty;
use crate::enums::is_proto3;
use crate::ranges::{NumberRange, enum_ranges, message_ranges};
use crate::spans::overlapping;
use pbx_desc_records::{DescriptorProto, EnumDescriptorProto};
use pbx_link_definitions::{FileParts, Part, place_in};
use pbx_wire::{List, NoMemory};
use std::alloc::Global;

/// An index of a range that is no range of field numbers, or has a number with an earlier one.
fn bad_range(alloc: Global, ranges: &[NumberRange]) -> Result<Option<usize>, NoMemory>
    ensures { IfOk result (IsIndex (λ i r. is_bad_range r || is_earlier share_number ranges.now i r) ranges.now) }
{
    match ranges.iter().position(|range| range.is_bad()) {
        Some(index) => Ok(Some(index)),
        None => overlapping(alloc, ranges),
    }
}

/// An index of a range that is empty, or has a number with an earlier one.
fn empty_range(alloc: Global, ranges: &[NumberRange]) -> Result<Option<usize>, NoMemory>
    ensures { IfOk result (IsIndex (λ i r. is_empty_range r || is_earlier share_number ranges.now i r) ranges.now) }
{
    match ranges.iter().position(|range| range.is_empty()) {
        Some(index) => Ok(Some(index)),
        None => overlapping(alloc, ranges),
    }
}

/// The place of a range of a message: its reserved ranges are counted behind its extension ranges.
fn range_place(
    alloc: Global,
    part: &Part<'_, DescriptorProto>,
    index: usize,
) -> Result<List<i32>, NoMemory>
    ensures { IfOk result (λ place. (r : PartOf Range) → index < length (message_ranges_of part.now)
        → place ≡ (slice_index_or (message_ranges_of part.now) index r).place) }
{
    let count = part.item().extension_range.len();
    if index < count {
        return place_in(alloc, part.place(), 5, index);
    }
    place_in(alloc, part.place(), 9, index - count)
}

fn bad_message_range(
    alloc: Global,
    proto3: bool,
    part: &Part<'_, DescriptorProto>,
) -> Result<Option<List<i32>>, NoMemory>
    ensures { IfOk result (IsAmong (bad_message_ranges_of proto3 part.now)) }
{
    let message = part.item();
    if proto3 && !is_empty(&message.extension_range) {
        return Ok(Some(place_in(alloc, part.place(), 5, 0)?));
    }
    let ranges = message_ranges(alloc, message)?;
    match bad_range(alloc, ranges.as_slice())? {
        Some(index) => Ok(Some(range_place(alloc, part, index)?)),
        None => Ok(None),
    }
}

fn bad_enum_range(
    alloc: Global,
    part: &Part<'_, EnumDescriptorProto>,
) -> Result<Option<List<i32>>, NoMemory>
    ensures { IfOk result (IsAmong (bad_enum_ranges_of part.now)) }
{
    let ranges = enum_ranges(alloc, part.item())?;
    match empty_range(alloc, ranges.as_slice())? {
        Some(index) => Ok(Some(place_in(alloc, part.place(), 4, index)?)),
        None => Ok(None),
    }
}

fn in_messages(
    alloc: Global,
    proto3: bool,
    messages: &[Part<'_, DescriptorProto>],
) -> Result<Option<List<i32>>, NoMemory>
    ensures { IfOk result (IsAmong (flat_map (bad_message_ranges_of proto3) messages.now)) }
{
    for part in messages {
        if let Some(place) = bad_message_range(alloc, proto3, part)? {
            return Ok(Some(place));
        }
    }
    Ok(None)
}

fn in_enums(
    alloc: Global,
    enums: &[Part<'_, EnumDescriptorProto>],
) -> Result<Option<List<i32>>, NoMemory>
    ensures { IfOk result (IsAmong (flat_map bad_enum_ranges_of enums.now)) }
{
    for part in enums {
        if let Some(place) = bad_enum_range(alloc, part)? {
            return Ok(Some(place));
        }
    }
    Ok(None)
}

/// A range that is empty, is outside of 1 to 536,870,911 in a message, or has a number with an earlier one, or an extension range of proto3,
/// rule 16 (language specification: "Extensions", "Reserved"). The only error is want of memory; an index above those of 31 bits is refused
/// likewise.
pub fn bad_ranges(alloc: Global, parts: &FileParts<'_>) -> Result<Option<List<i32>>, NoMemory>
    ensures { IfOk result (IsAmong (bad_ranges_of parts.now)) }
{
    match in_messages(alloc, is_proto3(parts.file()), parts.messages())? {
        Some(place) => Ok(Some(place)),
        None => in_enums(alloc, parts.enums()),
    }
}
