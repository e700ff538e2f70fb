//! The synthetic oneofs of a message.

ghost use Rattle.std.specs.Prelude.{◌≡◌, ◌++◌, ◌∷◌, [], ℕ, List as ListOf, map, option_map, IfOk, OnOk, string_bytes};
ghost use Rattle.std.specs.List.{flat_map};
ghost use Rattle.std.specs.Option.{option_to_list};
ghost use Rattle.pbx_parse_tree.specs.View.{item_of};
ghost use Rattle.pbx_parse_translation.specs.Synthetic.{name_with as name_with_of, fewest_x as fewest_x_of, free_name, synthetic_names};
ghost use Rattle.pbx_parse_translation.specs.Messages.{oneof_record as oneof_record_of, optional_names_in, names_in, synthetic_oneofs};
ghost use Rattle.pbx_parse_translation.specs.Scope.{Holds, AreTaken, BeginsWell};

use crate::fields::is_proto3_optional;
use crate::scope::{Scope, add_all_names};
use pbx_desc_records::OneofDescriptorProto;
use pbx_parse_tree::{Item, Version};
use pbx_wire::{List, NoMemory, Text};
use std::alloc::Global;
use std::collections::BTreeMap;

/// So many `X`, then `_`, then the field's name.
#[tactic(auto, unfolding(crate::specs::Synthetic::name_with))]
fn name_with(alloc: Global, x_count: usize, field: &str) -> Result<String, NoMemory>
    ensures { IfOk result (λ t. string_bytes t ≡ name_with_of x_count field.now) }
{
    let mut name = "X".repeat(alloc, x_count)?;
    name.push_str("_")?;
    name.push_str(field)?;
    Ok(name)
}

/// The fewest `X` with which the field's name is none of the scope's, where it is known to be one with each count of
/// `X` below the first.
fn fewest_x(alloc: Global, scope: &Scope, field: &str, first: usize) -> Result<usize, NoMemory>
    ensures { (names : ListOf (ListOf ℕ)) → Holds scope.now names → AreTaken names field.now first →
        IfOk result (λ x_count. x_count ≡ fewest_x_of names field.now) }
{
    'tries: for x_count in first..scope.count {
        if !scope.has(name_with(alloc, x_count, field)?.as_str()) {
            return Ok(x_count);
        }
    }
    Ok(scope.count)
}

/// Takes a free name for the field's synthetic oneof. The counts of `X` are those of the last name that was taken for
/// a field of each name: lower ones are not tried again, so all searches together try each name at most twice.
fn take_name<'a>(
    alloc: Global,
    field: &'a str,
    scope: &mut Scope,
    x_counts: &mut BTreeMap<&'a str, usize>,
) -> Result<String, NoMemory>
    ensures { (taken : ListOf (ListOf ℕ)) → Holds scope.old taken → BeginsWell x_counts.old taken →
        IfOk result (λ t. (string_bytes t ≡ free_name taken field.now) × Holds scope.new (taken ++ string_bytes t ∷ []) ×
        BeginsWell x_counts.new (taken ++ string_bytes t ∷ [])) }
{
    let first = x_counts.get(field).copied().unwrap_or(0);
    let x_count = fewest_x(alloc, scope, field, first)?;
    x_counts.insert(field, x_count)?;
    let name = name_with(alloc, x_count, field)?;
    scope.add(alloc, name.as_str())?;
    Ok(name)
}

/// A oneof of this name.
#[tactic(auto, unfolding(crate::specs::Messages::oneof_record))]
pub(crate) fn oneof_record(alloc: Global, name: &str) -> Result<OneofDescriptorProto, NoMemory>
    ensures { IfOk result (λ it. it ≡ oneof_record_of name.now) }
{
    let name = Text::from_str(alloc, name)?;
    let mut record = OneofDescriptorProto::new(alloc);
    record.name = Some(name);
    Ok(record)
}

/// Adds a oneof for each of these fields.
fn add_synthetic(
    alloc: Global,
    fields: &[&str],
    scope: &mut Scope,
    oneofs: &mut List<OneofDescriptorProto>,
) -> Result<(), NoMemory>
    ensures { (taken : ListOf (ListOf ℕ)) → Holds scope.old taken →
        OnOk result (oneofs.new ≡ oneofs.old ++ map oneof_record_of (synthetic_names taken (map (λ n. n.now) fields.now))) }
{
    let mut x_counts = BTreeMap::new(alloc);
    'each: for field in fields {
        let name = take_name(alloc, field, scope, &mut x_counts)?;
        oneofs.add(oneof_record(alloc, name.as_str())?)?;
    }
    Ok(())
}

/// The name of the field, if it has a synthetic oneof.
fn optional_name<'a>(version: Version, item: &'a Item<'_>) -> Option<&'a str>
    ensures { option_to_list (option_map (λ n. n.now) result) ≡ optional_names_in version (item_of item.now) }
{
    match item {
        Item::Field(field) if is_proto3_optional(version, &field.label) => {
            Some(field.tail.name.text)
        }
        _ => None,
    }
}

/// Adds the name of the field, if it has a synthetic oneof.
fn add_optional_name<'a>(
    version: Version,
    item: &'a Item<'_>,
    names: &mut Vec<&'a str>,
) -> Result<(), NoMemory>
    ensures { OnOk result (map (λ n. n.now) names.new.items ≡ map (λ n. n.now) names.old.items ++ optional_names_in version (item_of item.now)) }
{
    if let Some(name) = optional_name(version, item) {
        names.push(name)?;
    }
    Ok(())
}

/// The names of the fields that have synthetic oneofs.
fn optional_names<'a>(
    alloc: Global,
    version: Version,
    items: &'a [Item<'_>],
) -> Result<Vec<&'a str>, NoMemory>
    ensures { IfOk result (λ v. map (λ n. n.now) v.items ≡ flat_map (λ i. optional_names_in version (item_of i)) items.now) }
{
    let mut names = Vec::new(alloc);
    'each: for item in items {
        add_optional_name(version, item, &mut names)?;
    }
    Ok(names)
}

/// Adds a oneof for each of these fields, whose name is free among those that the items have.
fn add_named(
    alloc: Global,
    items: &[Item<'_>],
    fields: &[&str],
    oneofs: &mut List<OneofDescriptorProto>,
) -> Result<(), NoMemory>
    ensures { OnOk result (oneofs.new ≡ oneofs.old ++
        map oneof_record_of (synthetic_names (flat_map (λ i. names_in (item_of i)) items.now) (map (λ n. n.now) fields.now))) }
{
    let mut scope = Scope::new(alloc);
    add_all_names(alloc, items, &mut scope)?;
    add_synthetic(alloc, fields, &mut scope, oneofs)
}

/// Adds the synthetic oneofs of a message.
pub(crate) fn add_synthetic_oneofs(
    alloc: Global,
    version: Version,
    items: &[Item<'_>],
    oneofs: &mut List<OneofDescriptorProto>,
) -> Result<(), NoMemory>
    ensures { OnOk result (oneofs.new ≡ oneofs.old ++ map oneof_record_of (synthetic_oneofs version (map item_of items.now))) }
{
    let names = optional_names(alloc, version, items)?;
    if names.is_empty() {
        return Ok(());
    }
    add_named(alloc, items, names.as_slice(), oneofs)
}
