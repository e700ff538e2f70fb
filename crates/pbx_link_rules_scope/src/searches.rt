// Searches for a record that breaks a rule.
ghost use Rattle.std.specs.Prelude.{◌≡◌, ◌++◌, ◌∷◌, [], pos, IfOk};
ghost use Rattle.std.specs.List.{flat_map};
ghost use Rattle.pbx_link_definitions.specs.Definitions.{part, fields_in, methods_in, methods};
ghost use Rattle.pbx_link_definitions.specs.Places.{IsAmong};
ghost use Rattle.pbx_link_definitions.specs.Found.{IsIndex};
ghost use Rattle.pbx_link_rules_scope.specs.Rules.{places_by};

use pbx_desc_records::{
    DescriptorProto, FieldDescriptorProto, FileDescriptorProto, MethodDescriptorProto,
    ServiceDescriptorProto,
};
use pbx_link_definitions::{Part, name_in, place_in, place_in_item, text_or_empty};
use pbx_wire::{List, NoMemory};
use std::alloc::Global;

/// A path of field numbers of `descriptor.proto` and of indexes.
pub(crate) type Place = List<i32>;

/// A rule on a record by itself and its scope.
pub(crate) trait Rule<T> {
    ghost use Rattle.std.specs.Prelude.{List as ListOf, ℕ, Bool, ◌≡◌, IfOk};

    ghost breaks: { Self → ListOf ℕ → T → Bool };

    /// Whether the record in the scope breaks the rule.
    fn is_broken(&self, alloc: Global, scope: &str, item: &T) -> Result<bool, NoMemory>
        ensures { IfOk result (λ broken. broken ≡ breaks self.now scope.now item.now) };
}

/// The first of the items in the scope that breaks the rule.
pub(crate) fn broken_item<T, R: Rule<T>>(
    alloc: Global,
    rule: &R,
    scope: &str,
    items: &[T],
) -> Result<Option<usize>, NoMemory>
    ensures { IfOk result (IsIndex (λ i. R.breaks rule.now scope.now) items.now) }
{
    for (index, item) in items.iter().enumerate() {
        if rule.is_broken(alloc, scope, item)? {
            return Ok(Some(index));
        }
    }
    Ok(None)
}

#[tactic(auto, using(crate::proofs::Searched::item_here, crate::proofs::Searched::item_none))]
fn broken_field_in<R: Rule<FieldDescriptorProto>>(
    alloc: Global,
    rule: &R,
    number: u8,
    message: &Part<'_, DescriptorProto>,
) -> Result<Option<Place>, NoMemory>
    ensures { IfOk result (IsAmong (places_by (R.breaks rule.now) number (fields_in message.now))) }
{
    let item = message.item();
    let name = name_in(alloc, message.scope(), text_or_empty(&item.name))?;
    match broken_item(alloc, rule, name.as_str(), item.field.as_slice())? {
        Some(index) => Ok(Some(place_in_item(alloc, message.place(), 2, index, number)?)),
        None => Ok(None),
    }
}

/// The place in the first field of the messages that breaks the rule.
pub(crate) fn broken_field<R: Rule<FieldDescriptorProto>>(
    alloc: Global,
    rule: &R,
    number: u8,
    messages: &[Part<'_, DescriptorProto>],
) -> Result<Option<Place>, NoMemory>
    ensures { IfOk result (IsAmong (places_by (R.breaks rule.now) number (flat_map fields_in messages.now))) }
{
    for message in messages {
        if let Some(place) = broken_field_in(alloc, rule, number, message)? {
            return Ok(Some(place));
        }
    }
    Ok(None)
}

/// The place in the first extension that breaks the rule.
#[tactic(auto, using(crate::proofs::Searched::part_here, crate::proofs::Searched::part_not, crate::proofs::Searched::part_none))]
pub(crate) fn broken_extension<R: Rule<FieldDescriptorProto>>(
    alloc: Global,
    rule: &R,
    number: u8,
    extensions: &[Part<'_, FieldDescriptorProto>],
) -> Result<Option<Place>, NoMemory>
    ensures { IfOk result (IsAmong (places_by (R.breaks rule.now) number extensions.now)) }
{
    for extension in extensions {
        if rule.is_broken(alloc, extension.scope(), extension.item())? {
            return Ok(Some(extension.at(alloc, number)?));
        }
    }
    Ok(None)
}

#[tactic(auto, using(crate::proofs::Searched::item_here, crate::proofs::Searched::item_none))]
fn broken_method_in<R: Rule<MethodDescriptorProto>>(
    alloc: Global,
    rule: &R,
    number: u8,
    scope: &str,
    index: usize,
    service: &ServiceDescriptorProto,
) -> Result<Option<Place>, NoMemory>
    ensures { IfOk result (IsAmong (places_by (R.breaks rule.now) number (methods_in (part scope.now [] 6 index service.now)))) }
{
    let name = name_in(alloc, scope, text_or_empty(&service.name))?;
    match broken_item(alloc, rule, name.as_str(), service.method.as_slice())? {
        Some(method) => {
            let place = place_in(alloc, &[], 6, index)?;
            Ok(Some(place_in_item(alloc, place.as_slice(), 2, method, number)?))
        }
        None => Ok(None),
    }
}

/// The place in the first method of the file that breaks the rule.
pub(crate) fn broken_method<R: Rule<MethodDescriptorProto>>(
    alloc: Global,
    rule: &R,
    number: u8,
    file: &FileDescriptorProto,
) -> Result<Option<Place>, NoMemory>
    ensures { IfOk result (IsAmong (places_by (R.breaks rule.now) number (methods file.now))) }
{
    let scope = text_or_empty(&file.package);
    for (index, service) in file.service.as_slice().iter().enumerate() {
        if let Some(place) = broken_method_in(alloc, rule, number, scope, index, service)? {
            return Ok(Some(place));
        }
    }
    Ok(None)
}
