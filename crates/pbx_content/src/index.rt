ghost use Rattle.std.specs.Prelude.{◌≡◌, ℕ, map, IfOk, option_map};
ghost use Rattle.std.specs.Option.{MatchOption};
ghost use Rattle.std.specs.Int.{w32};
ghost use Rattle.std.specs.Int.RustNames.{FitsSigned};
ghost use Rattle.pbx_content.specs.Shape.{declared_at, first_of, enum_values_at, field_of as field_of_type, by_number, is_key_kind as is_key_kind_of};
ghost use Rattle.pbx_content.specs.Index.{numbered, ascend, are_good as are_good_of, IsIndexOf, AreIndexed};
ghost use Rattle.pbx_content.specs.Sound.{AreProper};

use crate::shape::{Cardinality, EnumShape, FieldShape, Kind, MessageShape};
use pbx_wire::NoMemory;
use std::alloc::Global;

/// Whether keys of maps may be of the kind.
fn is_key_kind(kind: Kind) -> bool
    ensures { result ≡ is_key_kind_of kind }
{
    !matches!(
        kind,
        Kind::Double | Kind::Float | Kind::Bytes | Kind::Message(_) | Kind::Enum(_)
    )
}

/// Whether each number and key kind is one that may be.
fn are_good(fields: &[FieldShape]) -> bool
    ensures { result ≡ are_good_of fields.now }
{
    for field in fields {
        if field.number == 0 || field.number > 536870911 {
            return false;
        }
        if let Cardinality::Map(key) = field.cardinality {
            if !is_key_kind(key) {
                return false;
            }
        }
    }
    true
}

/// The number and the place of each field.
fn entries_in_order(alloc: Global, fields: &[FieldShape]) -> Result<Vec<(u32, usize)>, NoMemory>
    ensures { IfOk result (λ entries. entries.items ≡ numbered 0 fields.now) }
{
    let mut entries = Vec::with_capacity(alloc, fields.len())?;
    for place in 0..fields.len() {
        entries.push((fields[place].number, place))?;
    }
    Ok(entries)
}

/// Whether the numbers ascend from above 0.
fn are_ascending(entries: &[(u32, usize)]) -> bool
    ensures { result ≡ ascend 0 entries.now }
{
    let mut below = 0;
    for entry in entries {
        if entry.0 <= below {
            return false;
        }
        below = entry.0;
    }
    true
}

/// The fields' numbers with their places, by ascending number; None where the fields are not proper.
fn entries_of(alloc: Global, fields: &[FieldShape]) -> Result<Option<Vec<(u32, usize)>>, NoMemory>
    ensures { IfOk result (λ found. MatchOption found (¬ (AreProper fields.now))
        (λ entries. AreProper fields.now × IsIndexOf fields.now entries.items)) }
{
    if !are_good(fields) {
        return Ok(None);
    }
    let mut entries = entries_in_order(alloc, fields)?;
    entries.sort_unstable_by_key(|entry| entry.0);
    if !are_ascending(entries.as_slice()) {
        return Ok(None);
    }
    Ok(Some(entries))
}

/// The index of each type; None where the fields of some type are not proper.
pub(crate) fn types_index(
    alloc: Global,
    messages: &[MessageShape],
) -> Result<Option<Vec<Vec<(u32, usize)>>>, NoMemory>
    ensures { IfOk result (λ found. MatchOption found (¬ ((t : ℕ) → AreProper (declared_at messages.now t)))
        (λ index. ((t : ℕ) → AreProper (declared_at messages.now t)) × AreIndexed messages.now (map (λ entries. entries.items) index.items))) }
{
    let mut index = Vec::with_capacity(alloc, messages.len())?;
    for message in messages {
        match entries_of(alloc, message.fields.as_slice())? {
            Some(entries) => index.push(entries)?,
            None => return Ok(None),
        }
    }
    Ok(Some(index))
}

/// The field of a number, by log n comparisons.
pub(crate) fn field_in<'a>(
    fields: &'a [FieldShape],
    entries: &[(u32, usize)],
    number: u32,
) -> Option<&'a FieldShape>
    requires proper { AreProper fields.now }
    requires index { IsIndexOf fields.now entries.now }
    ensures { option_map (λ field. field.now) result ≡ field_of_type number (by_number fields.now) }
{
    match entries.binary_search_by_key(&number, |entry| entry.0) {
        Ok(at) => fields.get(entries[at].1),
        Err(_) => None,
    }
}

/// The enum's default.
fn default_of(shape: &EnumShape) -> i32
    ensures is { result ≡ first_of shape.now.values }
    ensures fits { FitsSigned w32 result }
{
    match shape.values.as_slice().first() {
        Some(value) => value.number,
        None => 0,
    }
}

/// Each enum's default is a number of 32 bits. That is so by its type alone; the walk only says it of all.
pub(crate) fn enums_fit(enums: &[EnumShape])
    ensures { (e : ℕ) → FitsSigned w32 (first_of (enum_values_at enums.now e)) }
{
    for shape in enums {
        let _default = default_of(shape);
    }
}
