// The record of a file with its parts by index.
ghost use Rattle.std.specs.Prelude.{◌≡◌, length, option_copied, option_map, slice_get};
ghost use Rattle.pbx_link_definitions.specs.Definitions.{messages, enums, extensions, services, message_name as message_name_of};
ghost use Rattle.pbx_link_definitions.specs.Definitions.{enum_name as enum_name_of, service_name as service_name_of, field_name as field_name_of};
ghost use Rattle.pbx_link_tables.specs.Entries.{AreEntries, with_item, name_of_field, json_name};

use crate::entry::{Entries, Entry};
use crate::walk::{enum_at, extension_at, holder, item, message_at};
use pbx_desc_records::{
    DescriptorProto, EnumDescriptorProto, FieldDescriptorProto, FileDescriptorProto,
    ServiceDescriptorProto,
};
use pbx_link_definitions::PartRef;
use std::marker::Model;

/// The record of a file with its messages, enums, extensions and services by index, nested ones included. Contracts see the record.
#[derive(Drop)]
pub struct FileTable {
    file: FileDescriptorProto,
    entries: Entries,
}

impl Model for FileTable {
    ghost use Rattle.pbx_desc_records.specs.contracts.file.FileDescriptorProto as proto;
    ghost use Rattle.pbx_desc_records.specs.declared.file.FileDescriptorProto.{FileDescriptorProto};
    ghost use Rattle.pbx_link_tables.specs.Entries.{AreEntries};

    ghost Value = { FileDescriptorProto };

    ghost coded = { proto.the_row.coded };

    ghost view = { λ t. t.file };

    ghost invariant = { λ t. AreEntries t.file t.entries };
}

/// The part of an entry and of the record that was found for it.
fn part_with<'a, T>(entry: &'a Entry, found: Option<&'a T>) -> Option<PartRef<'a, T>>
    ensures { result ≡ with_item entry.now (option_copied found.entry) }
{
    match found {
        Some(item) => Some(PartRef::new(
            entry.scope.as_str(),
            entry.place.as_slice(),
            entry.index,
            item,
        )),
        None => None,
    }
}

/// The full name of the part of an entry.
fn name_of(entry: Option<&Entry>) -> Option<&str>
    ensures { option_copied result ≡ option_map (λ e. e.name) (option_copied entry.entry) }
{
    match entry {
        Some(entry) => Some(entry.name.as_str()),
        None => None,
    }
}

impl FileTable {
    /// The table of the file, whose parts these are.
    pub fn new(file: FileDescriptorProto, entries: Entries) -> FileTable
        requires { AreEntries file entries }
        ensures { result ≡ file }
    {
        FileTable { file, entries }
    }

    /// The file's record.
    pub fn file(&self) -> &FileDescriptorProto
        ensures { result.now ≡ self.now }
    {
        &self.file
    }

    /// How many messages the file has, nested ones and map entries included.
    pub fn message_count(&self) -> usize
        ensures { result ≡ length (messages self.now) }
    {
        self.entries.messages.len()
    }

    /// How many enums it has.
    pub fn enum_count(&self) -> usize
        ensures { result ≡ length (enums self.now) }
    {
        self.entries.enums.len()
    }

    /// How many extensions it has.
    pub fn extension_count(&self) -> usize
        ensures { result ≡ length (extensions self.now) }
    {
        self.entries.extensions.len()
    }

    /// How many services it has.
    pub fn service_count(&self) -> usize
        ensures { result ≡ length (services self.now) }
    {
        self.entries.services.len()
    }

    /// The message of this index: each is directly followed by those nested in it.
    pub fn message(&self, index: usize) -> Option<PartRef<'_, DescriptorProto>>
        ensures { result ≡ slice_get (messages self.now) index }
    {
        match item(self.entries.messages.as_slice(), index) {
            Some(kept) => {
                let entry = &kept.entry;
                part_with(entry, message_at(&self.file, entry.place.as_slice()))
            }
            None => None,
        }
    }

    /// The enum of this index: those in messages, in the order of the messages, and then the file's own.
    pub fn enumeration(&self, index: usize) -> Option<PartRef<'_, EnumDescriptorProto>>
        ensures { result ≡ slice_get (enums self.now) index }
    {
        match item(self.entries.enums.as_slice(), index) {
            Some(entry) => {
                let place = holder(entry.place.as_slice());
                part_with(entry, enum_at(&self.file, place, entry.index))
            }
            None => None,
        }
    }

    /// The extension of this index: those in a message's body behind those in the messages nested in it, and the file's own last.
    pub fn extension(&self, index: usize) -> Option<PartRef<'_, FieldDescriptorProto>>
        ensures { result ≡ slice_get (extensions self.now) index }
    {
        match item(self.entries.extensions.as_slice(), index) {
            Some(entry) => {
                let place = holder(entry.place.as_slice());
                part_with(entry, extension_at(&self.file, place, entry.index))
            }
            None => None,
        }
    }

    /// The service of this index.
    pub fn service(&self, index: usize) -> Option<PartRef<'_, ServiceDescriptorProto>>
        ensures { result ≡ slice_get (services self.now) index }
    {
        match item(self.entries.services.as_slice(), index) {
            Some(entry) => part_with(entry, item(self.file.service.as_slice(), entry.index)),
            None => None,
        }
    }

    /// The full name of the message of this index.
    pub fn message_name(&self, index: usize) -> Option<&str>
        ensures { option_copied result ≡ option_map message_name_of (slice_get (messages self.now) index) }
    {
        match item(self.entries.messages.as_slice(), index) {
            Some(kept) => Some(kept.entry.name.as_str()),
            None => None,
        }
    }

    /// The full name of the enum of this index.
    pub fn enum_name(&self, index: usize) -> Option<&str>
        ensures { option_copied result ≡ option_map enum_name_of (slice_get (enums self.now) index) }
    {
        name_of(item(self.entries.enums.as_slice(), index))
    }

    /// The full name of the extension of this index.
    pub fn extension_name(&self, index: usize) -> Option<&str>
        ensures { option_copied result ≡ option_map field_name_of (slice_get (extensions self.now) index) }
    {
        name_of(item(self.entries.extensions.as_slice(), index))
    }

    /// The key in canonical JSON of the extension of this index: its full name in brackets.
    pub fn extension_json_name(&self, index: usize) -> Option<&str>
        ensures { option_copied result ≡ option_map json_name (slice_get (extensions self.now) index) }
    {
        match item(self.entries.json_names.as_slice(), index) {
            Some(name) => Some(name.as_str()),
            None => None,
        }
    }

    /// The full name of the service of this index.
    pub fn service_name(&self, index: usize) -> Option<&str>
        ensures { option_copied result ≡ option_map service_name_of (slice_get (services self.now) index) }
    {
        name_of(item(self.entries.services.as_slice(), index))
    }

    /// The full name of the field of this index in the message of that index.
    pub fn field_name(&self, message: usize, field: usize) -> Option<&str>
        ensures { option_copied result ≡ name_of_field message field self.now }
    {
        let Some(kept) = item(self.entries.messages.as_slice(), message) else {
            return None;
        };
        match item(kept.fields.as_slice(), field) {
            Some(name) => Some(name.as_str()),
            None => None,
        }
    }
}
