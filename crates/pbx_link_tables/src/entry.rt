// What is kept of each part beside the file's record.
ghost use Rattle.std.specs.Prelude.{◌≡◌, [], map, IfOk};
ghost use Rattle.pbx_link_definitions.specs.Names.{text_or_empty as text_or_empty_of, qualified};
ghost use Rattle.pbx_link_definitions.specs.Definitions.{package_of, parts as parts_of};
ghost use Rattle.pbx_link_tables.specs.Entries.{entry as entry_of, message_entry as message_entry_of, service_entry as service_entry_of};
ghost use Rattle.pbx_link_tables.specs.Entries.{in_brackets, AreEntries};
ghost use Rattle.pbx_desc_records.specs.declared.field.FieldDescriptorProto.{FieldDescriptorProto as FieldOf};

use pbx_desc_records::{DescriptorProto, FieldDescriptorProto, ServiceDescriptorProto};
use pbx_link_definitions::{FileParts, Named, Part, name_in, place_copy, place_in, text_or_empty};
use pbx_wire::{List, NoMemory, Text};
use std::alloc::Global;

/// A part without its record: the full name of what holds it, its own, its place, and which of its kind it is there.
#[derive(Drop)]
pub struct Entry {
    pub scope: Text,
    pub name: Text,
    pub place: List<i32>,
    pub index: usize,
}

/// A message without its record, and the full names of its fields.
#[derive(Drop)]
pub struct MessageEntry {
    pub entry: Entry,
    pub fields: List<Text>,
}

/// The parts of a file.
#[derive(Drop)]
pub struct Entries {
    pub messages: List<MessageEntry>,
    pub enums: List<Entry>,
    pub extensions: List<Entry>,
    pub services: List<Entry>,
    /// The full names of the extensions in brackets.
    pub json_names: List<Text>,
}

fn made_entry(
    alloc: Global,
    scope: &str,
    own_name: &str,
    place: &[i32],
    index: usize,
) -> Result<Entry, NoMemory>
    ensures { IfOk result (λ e. e ≡ record { scope = scope.now; name = qualified scope.now own_name.now; place = place.now; index = index }) }
{
    Ok(Entry {
        scope: Text::from_str(alloc, scope)?,
        name: name_in(alloc, scope, own_name)?,
        place: place_copy(alloc, place)?,
        index,
    })
}

/// The entries of parts of one kind.
fn part_entries<T: Named>(alloc: Global, parts: &[Part<'_, T>]) -> Result<List<Entry>, NoMemory>
    ensures { IfOk result (λ table. table ≡ map (entry_of T.name) parts.now) }
{
    let mut table = List::with_capacity(alloc, parts.len())?;
    for part in parts {
        let own_name = part.item().own_name();
        table.add(made_entry(alloc, part.scope(), own_name, part.place(), part.index())?)?;
    }
    Ok(table)
}

/// The full names of fields in this scope.
fn field_names(
    alloc: Global,
    scope: &str,
    fields: &[FieldDescriptorProto],
) -> Result<List<Text>, NoMemory>
    ensures { IfOk result (λ names. names ≡ map (λ (x : FieldOf). qualified scope.now (text_or_empty_of x.name)) fields.now) }
{
    let mut names = List::with_capacity(alloc, fields.len())?;
    for field in fields {
        names.add(name_in(alloc, scope, text_or_empty(&field.name))?)?;
    }
    Ok(names)
}

fn message_entry(alloc: Global, part: &Part<'_, DescriptorProto>) -> Result<MessageEntry, NoMemory>
    ensures { IfOk result (λ e. e ≡ message_entry_of part.now) }
{
    let message = part.item();
    let own_name = text_or_empty(&message.name);
    let entry = made_entry(alloc, part.scope(), own_name, part.place(), part.index())?;
    let fields = field_names(alloc, entry.name.as_str(), message.field.as_slice())?;
    Ok(MessageEntry { entry, fields })
}

fn message_entries(
    alloc: Global,
    parts: &[Part<'_, DescriptorProto>],
) -> Result<List<MessageEntry>, NoMemory>
    ensures { IfOk result (λ table. table ≡ map message_entry_of parts.now) }
{
    let mut table = List::with_capacity(alloc, parts.len())?;
    for part in parts {
        table.add(message_entry(alloc, part)?)?;
    }
    Ok(table)
}

fn service_entries(
    alloc: Global,
    scope: &str,
    services: &[ServiceDescriptorProto],
) -> Result<List<Entry>, NoMemory>
    ensures { IfOk result (λ table. table ≡ map service_entry_of (parts_of scope.now [] 6 services.now)) }
{
    let mut table = List::with_capacity(alloc, services.len())?;
    for (index, service) in services.iter().enumerate() {
        let place = place_in(alloc, &[], 6, index)?;
        let own_name = text_or_empty(&service.name);
        table.add(made_entry(alloc, scope, own_name, place.as_slice(), index)?)?;
    }
    Ok(table)
}

/// The full names of these parts in brackets.
fn bracketed_names(alloc: Global, entries: &[Entry]) -> Result<List<Text>, NoMemory>
    ensures { IfOk result (λ names. names ≡ map in_brackets entries.now) }
{
    let mut names = List::with_capacity(alloc, entries.len())?;
    for entry in entries {
        names.add(Text::joined(alloc, &["[", entry.name.as_str(), "]"])?)?;
    }
    Ok(names)
}

/// The parts of a file without their records. The only error is want of memory.
pub fn file_entries(alloc: Global, parts: &FileParts<'_>) -> Result<Entries, NoMemory>
    ensures { IfOk result (AreEntries parts.now) }
{
    let file = parts.file();
    let messages = message_entries(alloc, parts.messages())?;
    let enums = part_entries(alloc, parts.enums())?;
    let extensions = part_entries(alloc, parts.extensions())?;
    let services = service_entries(alloc, text_or_empty(&file.package), file.service.as_slice())?;
    let json_names = bracketed_names(alloc, extensions.as_slice())?;
    Ok(Entries {
        messages,
        enums,
        extensions,
        services,
        json_names,
    })
}
