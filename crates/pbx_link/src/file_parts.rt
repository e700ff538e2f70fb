// What a file declares outside of messages, one by one.
ghost use Rattle.std.specs.Prelude.{◌≡◌, ◌<◌, ◌+◌, ◌∷◌, [], length, MatchOption};
ghost use Rattle.std.specs.Iterator.{YieldsFirst, item_count};
ghost use Rattle.pbx_link_definitions.specs.Definitions.{messages, top_enums, top_extensions, services};
ghost use Rattle.pbx_link_meaning.specs.Descriptors.{described, messages_of_file, enums_of_file, extensions_of_file, services_of_file};
ghost use Rattle.pbx_link.specs.Tables.{part_at, is_top as is_top_of, tops_from, no_message, no_enum, no_field, no_service};

use crate::enumeration::EnumDescriptor;
use crate::extension::ExtensionDescriptor;
use crate::file::FileDescriptor;
use crate::message::MessageDescriptor;
use crate::service::ServiceDescriptor;
use pbx_link_tables::FileTable;
use std::marker::Model;

/// Whether the message of this index stands in no other. A nested one stands further down, as 4.0.3.1 in 4.0.
fn is_top(table: &FileTable, index: usize) -> bool
    requires { index < length (messages table.now) }
    ensures { result ≡ is_top_of (part_at no_message (messages table.now) index) }
{
    table.message(index).unwrap().place().len() == 2
}

/// The index of the first message of the file from this one on that stands in no other.
fn top_position(table: &FileTable, from: usize) -> Option<usize>
    ensures { MatchOption result (tops_from table.now from ≡ []) (λ i.
        (i < length (messages table.now)) × (i < usize.MAX)
        × (tops_from table.now from ≡ part_at no_message (messages table.now) i ∷ tops_from table.now (i + 1))) }
{
    let mut index = from;
    while index < table.message_count() {
        if is_top(table, index) {
            return Some(index);
        }
        index += 1;
    }
    None
}

impl FileDescriptor {
    /// The messages of the file that stand in no other, in declared order.
    #[tactic(auto, using(crate::proofs::Tops::tops_are))]
    pub fn messages(&self) -> FileMessages<'_>
        ensures { result ≡ messages_of_file self.now }
    {
        FileMessages {
            file: self,
            index: 0,
        }
    }

    /// The enums of the file that stand in no message, in declared order.
    pub fn enums(&self) -> FileEnums<'_>
        ensures { result ≡ enums_of_file self.now }
    {
        FileEnums {
            file: self,
            index: 0,
        }
    }

    /// The extensions of the file that stand in no message, in declared order.
    pub fn extensions(&self) -> FileExtensions<'_>
        ensures { result ≡ extensions_of_file self.now }
    {
        FileExtensions {
            file: self,
            index: 0,
        }
    }

    /// The services of the file, in declared order.
    pub fn services(&self) -> FileServices<'_>
        ensures { result ≡ services_of_file self.now }
    {
        FileServices {
            file: self,
            index: 0,
        }
    }

    /// The index of the first message from this one on that stands in no other.
    fn top_position(&self, from: usize) -> Option<usize>
        ensures { MatchOption result (tops_from self.now.file from ≡ []) (λ i.
            (i < length (messages self.now.file)) × (i < usize.MAX)
            × (tops_from self.now.file from ≡ part_at no_message (messages self.now.file) i ∷ tops_from self.now.file (i + 1))) }
    {
        top_position(self.table.as_ref(), from)
    }

    /// The message of this index, nested ones counted.
    fn message(&self, index: usize) -> MessageDescriptor
        requires { index < length (messages self.now.file) }
        ensures { result ≡ described self.now.pool self.now.file (part_at no_message (messages self.now.file) index) }
    {
        MessageDescriptor {
            pool: self.pool.copy(),
            table: self.table.copy(),
            index,
        }
    }

    /// How many enums stand in no message.
    #[tactic(auto, using(crate::proofs::Parts::length_parts))]
    fn top_enum_count(&self) -> usize
        ensures { result ≡ length (top_enums self.now.file) }
    {
        self.record().enum_type.len()
    }

    /// The enum of this index among those that stand in no message, which stand behind the others in the table.
    fn top_enum(&self, index: usize) -> EnumDescriptor
        requires { index < length (top_enums self.now.file) }
        ensures { result ≡ described self.now.pool self.now.file (part_at no_enum (top_enums self.now.file) index) }
    {
        let behind = self.top_enum_count() - index;
        EnumDescriptor {
            pool: self.pool.copy(),
            table: self.table.copy(),
            index: self.table.as_ref().enum_count() - behind,
        }
    }

    /// How many extensions stand in no message.
    #[tactic(auto, using(crate::proofs::Parts::length_parts))]
    fn top_extension_count(&self) -> usize
        ensures { result ≡ length (top_extensions self.now.file) }
    {
        self.record().extension.len()
    }

    /// The extension of this index among those that stand in no message, which stand behind the others in the table.
    fn top_extension(&self, index: usize) -> ExtensionDescriptor
        requires { index < length (top_extensions self.now.file) }
        ensures { result ≡ described self.now.pool self.now.file (part_at no_field (top_extensions self.now.file) index) }
    {
        let behind = self.top_extension_count() - index;
        ExtensionDescriptor {
            pool: self.pool.copy(),
            table: self.table.copy(),
            index: self.table.as_ref().extension_count() - behind,
        }
    }

    /// How many services the file has.
    fn service_count(&self) -> usize
        ensures { result ≡ length (services self.now.file) }
    {
        self.table.as_ref().service_count()
    }

    /// The service of this index.
    fn service(&self, index: usize) -> ServiceDescriptor
        requires { index < length (services self.now.file) }
        ensures { result ≡ described self.now.pool self.now.file (part_at no_service (services self.now.file) index) }
    {
        ServiceDescriptor {
            pool: self.pool.copy(),
            table: self.table.copy(),
            index,
        }
    }
}

/// The messages of a file that stand in no other. Contracts see the list of those that are left.
#[derive(Drop)]
pub struct FileMessages<'a> {
    file: &'a FileDescriptor,
    index: usize,
}

impl<'a> Model for FileMessages<'a> {
    ghost use Rattle.std.specs.Prelude.{List};
    ghost use Rattle.std.specs.Coded.{coded_list};
    ghost use Rattle.pbx_desc_records.specs.contracts.message.DescriptorProto as proto;
    ghost use Rattle.pbx_desc_records.specs.declared.message.DescriptorProto.{DescriptorProto};
    ghost use Rattle.pbx_link_meaning.specs.Descriptors.{Described, described_code, in_file};
    ghost use Rattle.pbx_link.specs.Tables.{tops_from};

    ghost Value = { List (Described DescriptorProto) };

    ghost coded = { coded_list (described_code proto.the_row.coded) };

    ghost view = { λ it. in_file it.file.now (tops_from it.file.now.file it.index) };
}

impl Iterator for FileMessages<'_> {
    type Item = MessageDescriptor;

    ghost next_gives = { YieldsFirst (λ it. it) };

    ghost remaining = { item_count (λ it. it) };

    fn next(&mut self) -> Option<MessageDescriptor> {
        let file = self.file;
        let index = file.top_position(self.index)?;
        self.index = index + 1;
        Some(file.message(index))
    }
}

/// The enums of a file that stand in no message. Contracts see the list of those that are left.
#[derive(Drop)]
pub struct FileEnums<'a> {
    file: &'a FileDescriptor,
    index: usize,
}

impl<'a> Model for FileEnums<'a> {
    ghost use Rattle.std.specs.Prelude.{List, drop};
    ghost use Rattle.std.specs.Coded.{coded_list};
    ghost use Rattle.pbx_desc_records.specs.contracts.enumeration.EnumDescriptorProto as proto;
    ghost use Rattle.pbx_desc_records.specs.declared.enumeration.EnumDescriptorProto.{EnumDescriptorProto};
    ghost use Rattle.pbx_link_meaning.specs.Descriptors.{Described, described_code, enums_of_file};

    ghost Value = { List (Described EnumDescriptorProto) };

    ghost coded = { coded_list (described_code proto.the_row.coded) };

    ghost view = { λ it. drop it.index (enums_of_file it.file.now) };
}

impl Iterator for FileEnums<'_> {
    type Item = EnumDescriptor;

    ghost next_gives = { YieldsFirst (λ it. it) };

    ghost remaining = { item_count (λ it. it) };

    #[tactic(auto, using(crate::proofs::Parts::next_part, crate::proofs::Parts::no_part))]
    fn next(&mut self) -> Option<EnumDescriptor> {
        let index = self.index;
        if index >= self.file.top_enum_count() {
            return None;
        }
        self.index += 1;
        Some(self.file.top_enum(index))
    }
}

/// The extensions of a file that stand in no message. Contracts see the list of those that are left.
#[derive(Drop)]
pub struct FileExtensions<'a> {
    file: &'a FileDescriptor,
    index: usize,
}

impl<'a> Model for FileExtensions<'a> {
    ghost use Rattle.std.specs.Prelude.{List, drop};
    ghost use Rattle.std.specs.Coded.{coded_list};
    ghost use Rattle.pbx_desc_records.specs.contracts.field.FieldDescriptorProto as proto;
    ghost use Rattle.pbx_desc_records.specs.declared.field.FieldDescriptorProto.{FieldDescriptorProto};
    ghost use Rattle.pbx_link_meaning.specs.Descriptors.{Described, described_code, extensions_of_file};

    ghost Value = { List (Described FieldDescriptorProto) };

    ghost coded = { coded_list (described_code proto.the_row.coded) };

    ghost view = { λ it. drop it.index (extensions_of_file it.file.now) };
}

impl Iterator for FileExtensions<'_> {
    type Item = ExtensionDescriptor;

    ghost next_gives = { YieldsFirst (λ it. it) };

    ghost remaining = { item_count (λ it. it) };

    #[tactic(auto, using(crate::proofs::Parts::next_part, crate::proofs::Parts::no_part))]
    fn next(&mut self) -> Option<ExtensionDescriptor> {
        let index = self.index;
        if index >= self.file.top_extension_count() {
            return None;
        }
        self.index += 1;
        Some(self.file.top_extension(index))
    }
}

/// The services of a file. Contracts see the list of those that are left.
#[derive(Drop)]
pub struct FileServices<'a> {
    file: &'a FileDescriptor,
    index: usize,
}

impl<'a> Model for FileServices<'a> {
    ghost use Rattle.std.specs.Prelude.{List, drop};
    ghost use Rattle.std.specs.Coded.{coded_list};
    ghost use Rattle.pbx_desc_records.specs.contracts.service.ServiceDescriptorProto as proto;
    ghost use Rattle.pbx_desc_records.specs.declared.service.ServiceDescriptorProto.{ServiceDescriptorProto};
    ghost use Rattle.pbx_link_meaning.specs.Descriptors.{Described, described_code, services_of_file};

    ghost Value = { List (Described ServiceDescriptorProto) };

    ghost coded = { coded_list (described_code proto.the_row.coded) };

    ghost view = { λ it. drop it.index (services_of_file it.file.now) };
}

impl Iterator for FileServices<'_> {
    type Item = ServiceDescriptor;

    ghost next_gives = { YieldsFirst (λ it. it) };

    ghost remaining = { item_count (λ it. it) };

    #[tactic(auto, using(crate::proofs::Parts::next_part, crate::proofs::Parts::no_part))]
    fn next(&mut self) -> Option<ServiceDescriptor> {
        let index = self.index;
        if index >= self.file.service_count() {
            return None;
        }
        self.index += 1;
        Some(self.file.service(index))
    }
}
