// Extensions of a pool.
ghost use Rattle.std.specs.Prelude.{◌≡◌, Some, Contains, option_copied};
ghost use Rattle.pbx_link_definitions.specs.Names.{text_or_empty as text_or_empty_of};
ghost use Rattle.pbx_link_definitions.specs.Definitions.{field_name};
ghost use Rattle.pbx_link.specs.Kinds.{described_kind, described_cardinality};
ghost use Rattle.pbx_link_meaning.specs.Descriptors.{number_of_field, extension_json_name, extended_of, extensions_of_message, parent_of, is_list as is_list_of};
ghost use Rattle.pbx_link_meaning.specs.Descriptors.{is_map as is_map_of, is_packed as is_packed_of, extension_has_presence};

use crate::field_record::{cardinality, is_packed, is_repeated, text};
use crate::kind::{Cardinality, Kind};
use crate::message::MessageDescriptor;
use crate::parents::message_position;
use crate::pool::DescriptorPool;
use pbx_desc_records::FieldDescriptorProto;
use pbx_link_definitions::{is_named, number_or_zero, text_or_empty};
use pbx_link_tables::FileTable;
use pbx_shared::Shared;
use std::marker::Model;

/// An extension. Contracts see the pool, the record of the file that declares it, and the extension with its place.
#[derive(Drop)]
pub struct ExtensionDescriptor {
    pub(crate) pool: DescriptorPool,
    pub(crate) table: Shared<FileTable>,
    pub(crate) index: usize,
}

impl Model for ExtensionDescriptor {
    ghost use Rattle.std.specs.Prelude.{◌<◌, length, Contains};
    ghost use Rattle.pbx_desc_records.specs.contracts.field.FieldDescriptorProto as proto;
    ghost use Rattle.pbx_desc_records.specs.declared.field.FieldDescriptorProto.{FieldDescriptorProto};
    ghost use Rattle.pbx_link_definitions.specs.Definitions.{extensions};
    ghost use Rattle.pbx_link_meaning.specs.Descriptors.{Described, described, described_code};
    ghost use Rattle.pbx_link.specs.Tables.{part_at, no_field};

    ghost Value = { Described FieldDescriptorProto };

    ghost coded = { described_code proto.the_row.coded };

    ghost view = { λ d. described d.pool d.table (part_at no_field (extensions d.table) d.index) };

    ghost invariant = { λ d. Contains d.pool d.table × (d.index < length (extensions d.table)) };
}

impl ExtensionDescriptor {
    /// The same extension. It takes no memory.
    pub fn copy(&self) -> ExtensionDescriptor
        ensures { result ≡ self.now }
    {
        ExtensionDescriptor {
            pool: self.pool.copy(),
            table: self.table.copy(),
            index: self.index,
        }
    }

    pub(crate) fn record(&self) -> &FieldDescriptorProto
        ensures { result.now ≡ self.now.part.item }
    {
        self.table.as_ref().extension(self.index).unwrap().item()
    }

    /// Its own name.
    pub fn name(&self) -> &str
        ensures { result.now ≡ text_or_empty_of self.now.part.item.name }
    {
        text_or_empty(&self.record().name)
    }

    /// Its name with that of what holds it, without a leading dot.
    pub fn full_name(&self) -> &str
        ensures { result.now ≡ field_name self.now.part }
    {
        self.table.as_ref().extension_name(self.index).unwrap()
    }

    /// Its key in canonical JSON: its full name in brackets.
    pub fn json_name(&self) -> &str
        ensures { result.now ≡ extension_json_name self.now }
    {
        self.table.as_ref().extension_json_name(self.index).unwrap()
    }

    /// The number in the keys of its records.
    pub fn number(&self) -> u32
        ensures { result ≡ number_of_field self.now }
    {
        number_or_zero(self.record().number)
    }

    /// What one value is; of a map the entry.
    pub fn kind(&self) -> Kind
        ensures { described_kind self.now ≡ Some result }
    {
        let _ = self.pool.tables();
        self.pool.kind_of(self.record()).unwrap()
    }

    /// Its label.
    pub fn cardinality(&self) -> Cardinality
        ensures { result ≡ described_cardinality self.now }
    {
        cardinality(self.record().label)
    }

    /// Whether it is repeated and no map.
    pub fn is_list(&self) -> bool
        ensures { result ≡ is_list_of self.now }
    {
        is_repeated(self.record()) && !self.is_map()
    }

    /// Whether it is a map.
    pub fn is_map(&self) -> bool
        ensures { result ≡ is_map_of self.now }
    {
        let field = self.record();
        is_repeated(field) && self.pool.is_entry_named(&field.type_name)
    }

    /// Whether its list is written as one record.
    pub fn is_packed(&self) -> bool
        ensures { result ≡ is_packed_of self.now }
    {
        let is_proto3 = is_named(&self.table.as_ref().file().syntax, "proto3");
        is_packed(self.record(), is_proto3)
    }

    /// Whether a value that is the default differs from none.
    pub fn supports_presence(&self) -> bool
        ensures { result ≡ extension_has_presence self.now }
    {
        !is_repeated(self.record())
    }

    /// The default that the record holds, as text.
    pub fn default_text(&self) -> Option<&str>
        ensures { option_copied result ≡ self.now.part.item.default_value }
    {
        text(&self.record().default_value)
    }

    /// The message that it extends.
    pub fn containing_message(&self) -> MessageDescriptor
        ensures extended { extended_of self.now ≡ Some result }
        ensures of_it { Contains (extensions_of_message result) self.now }
    {
        let _ = self.pool.tables();
        self.pool.message_referred(&self.record().extendee).unwrap()
    }

    /// The message in whose body the extension is declared; none where it stands in the file.
    pub fn parent_message(&self) -> Option<MessageDescriptor>
        ensures { result ≡ parent_of self.now }
    {
        let part = self.table.as_ref().extension(self.index).unwrap();
        match message_position(self.table.as_ref(), part.scope()) {
            Some(index) => Some(MessageDescriptor {
                pool: self.pool.copy(),
                table: self.table.copy(),
                index,
            }),
            None => None,
        }
    }
}
