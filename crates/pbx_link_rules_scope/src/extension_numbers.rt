// Numbers of extensions (language guide: "Extensions", "Assigning Field Numbers").
ghost use Rattle.std.specs.Prelude.{◌≡◌, List as ListOf, IfOk, OnOk, option_map};
ghost use Rattle.pbx_desc_records.specs.declared.file.FileDescriptorProto.{FileDescriptorProto as FileDescriptorProtoOf};
ghost use Rattle.pbx_link_definitions.specs.Places.{IsAmong};
ghost use Rattle.pbx_link_definitions.specs.Ranges.{in_ranges, extension_ranges};
ghost use Rattle.pbx_link_scope.specs.Scope.{bound_if};
ghost use Rattle.pbx_link_rules_scope.specs.ExtensionNumbers.{message_name_of, is_unfit as is_unfit_of, has_taken_number};
ghost use Rattle.pbx_link_rules_scope.specs.ExtensionNumbers.{extended_again as extended_again_of, bad_extension_numbers as bad_extension_numbers_of};
ghost use Rattle.pbx_link_rules_scope.specs.Known.{IsKnownMessage, AreOwn, key_of, extended_number as extended_number_of};
ghost use Rattle.pbx_link_rules_scope.specs.Rules.{places_by};

use crate::searches::{Place, Rule, broken_extension};
use pbx_desc_records::{DescriptorProto, FieldDescriptorProto};
use pbx_link_definitions::{
    FileParts, NumberRanges, Part, PartRef, is_field_number, name_in, text_or_empty,
};
use pbx_link_scope::{Bound, Pooled, Visible, extendee_of};
use pbx_wire::{NoMemory, Text};
use std::alloc::Global;
use std::collections::{BTreeMap, BTreeSet};

/// Whether the message leaves the number to extensions. The ranges of messages that were asked before are kept by their full names.
fn leaves_number(
    alloc: Global,
    known: &mut BTreeMap<String, NumberRanges>,
    message: &PartRef<'_, DescriptorProto>,
    number: Option<i32>,
) -> Result<bool, NoMemory>
    ensures left { (seen : ListOf FileDescriptorProtoOf) → AreOwn seen known.old → IsKnownMessage seen message.now →
        IfOk result (λ left. left ≡ in_ranges (extension_ranges message.now.item) number) }
    ensures own { (seen : ListOf FileDescriptorProtoOf) → AreOwn seen known.old → IsKnownMessage seen message.now → OnOk result (AreOwn seen known.new) }
{
    let name = name_in(alloc, message.scope(), text_or_empty(&message.item().name))?;
    if let Some(ranges) = known.get(name.as_str()) {
        return Ok(ranges.contains(number));
    }
    let ranges = NumberRanges::of_extensions(alloc, message.item())?;
    let left = ranges.contains(number);
    known.insert(String::from_str(alloc, name.as_str())?, ranges)?;
    Ok(left)
}

/// Whether the extension has no number of a field, or one that the extended message leaves to no extension.
fn is_unfit<V: Visible>(
    alloc: Global,
    seen: &V,
    known: &mut BTreeMap<String, NumberRanges>,
    scope: &str,
    extension: &FieldDescriptorProto,
) -> Result<bool, NoMemory>
    ensures unfit { AreOwn (V.files seen.now) known.old → IfOk result (λ unfit. unfit ≡ is_unfit_of (V.files seen.now) scope.now extension.now) }
    ensures own { AreOwn (V.files seen.now) known.old → OnOk result (AreOwn (V.files seen.now) known.new) }
{
    if !is_field_number(extension.number) {
        return Ok(true);
    }
    match extendee_of(alloc, seen, scope, extension)? {
        Some(Bound::Message(message)) => {
            let left = leaves_number(alloc, known, &message, extension.number)?;
            Ok(!left)
        }
        _ => Ok(false),
    }
}

/// The place of the first number that no extension of the extendee may have.
fn unfit_number<V: Visible>(
    alloc: Global,
    seen: &V,
    extensions: &[Part<'_, FieldDescriptorProto>],
) -> Result<Option<Place>, NoMemory>
    ensures { IfOk result (IsAmong (places_by (is_unfit_of (V.files seen.now)) 3 extensions.now)) }
{
    let mut known = BTreeMap::new(alloc);
    for extension in extensions {
        if is_unfit(alloc, seen, &mut known, extension.scope(), extension.item())? {
            return Ok(Some(extension.at(alloc, 3)?));
        }
    }
    Ok(None)
}

/// The full name of the message that the extension extends, if its extendee is bound to one.
fn extended_message<V: Visible>(
    alloc: Global,
    seen: &V,
    scope: &str,
    extension: &FieldDescriptorProto,
) -> Result<Option<Text>, NoMemory>
    ensures { IfOk result (λ name. name ≡ message_name_of (bound_if (V.files seen.now) scope.now extension.now.extendee)) }
{
    match extendee_of(alloc, seen, scope, extension)? {
        Some(Bound::Message(message)) => {
            let name = name_in(alloc, message.scope(), text_or_empty(&message.item().name))?;
            Ok(Some(name))
        }
        _ => Ok(None),
    }
}

/// The numbers of extensions that the files of a pool have.
#[derive(Drop)]
struct PoolNumbers<'a, P, V> {
    pool: &'a P,
    seen: &'a V,
}

impl<'a, P: Pooled, V: Visible> Rule<FieldDescriptorProto> for PoolNumbers<'a, P, V> {
    ghost breaks = { λ r. has_taken_number (P.files r.pool.now) (V.files r.seen.now) };

    fn is_broken(
        &self,
        alloc: Global,
        scope: &str,
        item: &FieldDescriptorProto,
    ) -> Result<bool, NoMemory> {
        match extended_message(alloc, self.seen, scope, item)? {
            Some(name) => Ok(self.pool.is_extended(name.as_str(), item.number)),
            None => Ok(false),
        }
    }
}

/// The full name of the message that the extension extends and its number, if it has both.
fn extended_number<V: Visible>(
    alloc: Global,
    seen: &V,
    scope: &str,
    extension: &FieldDescriptorProto,
) -> Result<Option<(String, i32)>, NoMemory>
    ensures { IfOk result (λ key. option_map key_of key ≡ extended_number_of (V.files seen.now) scope.now extension.now) }
{
    let Some(number) = extension.number else {
        return Ok(None);
    };
    match extended_message(alloc, seen, scope, extension)? {
        Some(name) => Ok(Some((String::from_str(alloc, name.as_str())?, number))),
        None => Ok(None),
    }
}

/// The place of a number under which an earlier extension extends the same message.
fn extended_again<V: Visible>(
    alloc: Global,
    seen: &V,
    extensions: &[Part<'_, FieldDescriptorProto>],
) -> Result<Option<Place>, NoMemory>
    ensures { IfOk result (IsAmong (extended_again_of (V.files seen.now) extensions.now)) }
{
    let mut numbers = BTreeSet::new(alloc);
    for extension in extensions {
        if let Some(key) = extended_number(alloc, seen, extension.scope(), extension.item())? {
            if !numbers.insert(key)? {
                return Ok(Some(extension.at(alloc, 3)?));
            }
        }
    }
    Ok(None)
}

/// A place at which rule 6 (numbers) is broken by an extension, if there is one: the number is none of a field, is outside the extension
/// ranges of the message that is extended, or is that of another extension of the same message, of the pool's files or an earlier one of
/// the file (language guide: "Extensions", "Assigning Field Numbers"). An extendee that is bound to nothing or to an enum breaks rule 7
/// instead: of its extensions only a number that is none of a field is told here. The only error is want of memory; an index above those of
/// 31 bits is refused likewise.
pub fn bad_extension_numbers<P: Pooled, V: Visible>(
    alloc: Global,
    pool: &P,
    seen: &V,
    parts: &FileParts<'_>,
) -> Result<Option<Place>, NoMemory>
    ensures { IfOk result (IsAmong (bad_extension_numbers_of (P.files pool.now) (V.files seen.now) parts.now)) }
{
    if let Some(place) = unfit_number(alloc, seen, parts.extensions())? {
        return Ok(Some(place));
    }
    let pool_numbers = PoolNumbers { pool, seen };
    if let Some(place) = broken_extension(alloc, &pool_numbers, 3, parts.extensions())? {
        return Ok(Some(place));
    }
    extended_again(alloc, seen, parts.extensions())
}
