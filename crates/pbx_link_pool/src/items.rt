// What the index of a pool keeps of one file.
ghost use Rattle.std.specs.Prelude.{◌≡◌, ◌++◌, ◌∷◌, [], ℕ, List as ListOf, filter, map, IfOk, OnOk};
ghost use Rattle.std.specs.List.{enumerate_from, flat_map};
ghost use Rattle.pbx_link_definitions.specs.Names.{qualified, text_or_empty as text_or_empty_of};
ghost use Rattle.pbx_link_pool.specs.Items.{is_new, new_items, file_items, definition_items, place_items, exact_item, extended_item};

use pbx_desc_records::{FieldDescriptorProto, ServiceDescriptorProto};
use pbx_link_definitions::{Definition, Named, Part, name_in, text_or_empty};
use pbx_link_names::NameMap;
use pbx_wire::{List, NoMemory, Text};
use std::alloc::Global;

/// Adds the item, where nothing is under its name. The only error is want of memory.
fn add_new<V: Copy>(
    map: &NameMap<V>,
    items: &mut List<(Text, V)>,
    name: Text,
    value: V,
) -> Result<(), NoMemory>
    ensures { OnOk result (items.new ≡ items.old ++ new_items map.now ((name, value) ∷ [])) }
{
    if map.get(name.as_str()).is_some() {
        return Ok(());
    }
    items.add((name, value))
}

/// The index of a file under its name, if it has one. The only error is want of memory.
pub(crate) fn new_file_items(
    alloc: Global,
    map: &NameMap<usize>,
    index: usize,
    name: &Option<Text>,
) -> Result<List<(Text, usize)>, NoMemory>
    ensures { IfOk result (λ items. items ≡ new_items map.now (file_items index name.now)) }
{
    let mut items = List::new(alloc);
    if let Some(name) = name {
        add_new(map, &mut items, name.copy(alloc)?, index)?;
    }
    Ok(items)
}

/// The definitions by their full names. The only error is want of memory.
pub(crate) fn new_definition_items(
    alloc: Global,
    map: &NameMap<(usize, bool)>,
    index: usize,
    definitions: &[Definition],
) -> Result<List<(Text, (usize, bool))>, NoMemory>
    ensures { IfOk result (λ items. items ≡ new_items map.now (definition_items index definitions.now)) }
{
    let mut items = List::with_capacity(alloc, definitions.len())?;
    for definition in definitions {
        let name = name_in(alloc, definition.scope(), definition.name())?;
        add_new(map, &mut items, name, (index, definition.sort().is_scope()))?;
    }
    Ok(items)
}

/// The parts of one kind by their full names. The only error is want of memory.
pub(crate) fn new_part_items<T: Named>(
    alloc: Global,
    map: &NameMap<(usize, usize)>,
    index: usize,
    parts: &[Part<'_, T>],
) -> Result<List<(Text, (usize, usize))>, NoMemory>
    ensures { IfOk result (λ items. items ≡ new_items map.now (place_items (λ p. qualified p.scope (text_or_empty_of (T.name p.item))) index parts.now)) }
{
    let mut items = List::with_capacity(alloc, parts.len())?;
    for (i, part) in parts.iter().enumerate() {
        let name = name_in(alloc, part.scope(), part.item().own_name())?;
        add_new(map, &mut items, name, (index, i))?;
    }
    Ok(items)
}

/// The services of this scope by their full names. The only error is want of memory.
pub(crate) fn new_service_items(
    alloc: Global,
    map: &NameMap<(usize, usize)>,
    index: usize,
    scope: &str,
    services: &[ServiceDescriptorProto],
) -> Result<List<(Text, (usize, usize))>, NoMemory>
    ensures { IfOk result (λ items. items ≡ new_items map.now (place_items (λ s. qualified scope.now (text_or_empty_of s.name)) index services.now)) }
{
    let mut items = List::with_capacity(alloc, services.len())?;
    for (i, service) in services.iter().enumerate() {
        let name = name_in(alloc, scope, text_or_empty(&service.name))?;
        add_new(map, &mut items, name, (index, i))?;
    }
    Ok(items)
}

/// Adds which message the extension extends, and under which number. The only error is want of memory.
fn add_extended(
    alloc: Global,
    extension: &FieldDescriptorProto,
    items: &mut List<(Text, i32)>,
) -> Result<(), NoMemory>
    ensures { OnOk result (items.new ≡ items.old ++ exact_item extension.now.extendee extension.now.number) }
{
    let Some(extendee) = &extension.extendee else {
        return Ok(());
    };
    let Some(number) = extension.number else {
        return Ok(());
    };
    match extendee.as_str().strip_prefix('.') {
        Some(name) => items.add((Text::from_str(alloc, name)?, number)),
        None => Ok(()),
    }
}

/// Which messages the extensions extend by exact names, and under which numbers. The only error is want of memory.
pub(crate) fn extended_items(
    alloc: Global,
    extensions: &[Part<'_, FieldDescriptorProto>],
) -> Result<List<(Text, i32)>, NoMemory>
    ensures { IfOk result (λ items. items ≡ flat_map extended_item extensions.now) }
{
    let mut items = List::with_capacity(alloc, extensions.len())?;
    for extension in extensions {
        add_extended(alloc, extension.item(), &mut items)?;
    }
    Ok(items)
}
