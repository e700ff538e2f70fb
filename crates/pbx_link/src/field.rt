// Fields, extensions and oneofs of a pool.
ghost use Rattle.std.specs.Prelude.{◌≡◌, ◌<◌, Some, length, Contains, option_copied};
ghost use Rattle.pbx_link_definitions.specs.Names.{text_or_empty as text_or_empty_of};
ghost use Rattle.pbx_link_definitions.specs.Definitions.{field_name};
ghost use Rattle.pbx_link.specs.Kinds.{described_kind, described_cardinality};
ghost use Rattle.pbx_link_meaning.specs.Descriptors.{number_of_field, is_list as is_list_of, is_map as is_map_of};
ghost use Rattle.pbx_link_meaning.specs.Descriptors.{is_packed as is_packed_of, has_presence, parent_of, fields_of_message};

use crate::field_record::{cardinality, is_packed, is_repeated, text};
use crate::kind::{Cardinality, Kind};
use crate::message::MessageDescriptor;
use pbx_desc_records::{FieldDescriptorProto, OneofDescriptorProto};
use pbx_link_definitions::{number_or_zero, text_or_empty};
use std::marker::Model;

/// A field of a message. Contracts see the pool, the file's record and the field with its place.
#[derive(Drop)]
pub struct FieldDescriptor {
    pub(crate) message: MessageDescriptor,
    pub(crate) index: usize,
}

impl Model for FieldDescriptor {
    ghost use Rattle.std.specs.Prelude.{◌<◌, length};
    ghost use Rattle.pbx_desc_records.specs.contracts.field.FieldDescriptorProto as proto;
    ghost use Rattle.pbx_desc_records.specs.declared.field.FieldDescriptorProto.{FieldDescriptorProto};
    ghost use Rattle.pbx_link_definitions.specs.Definitions.{fields_in};
    ghost use Rattle.pbx_link_meaning.specs.Descriptors.{Described, described, described_code};
    ghost use Rattle.pbx_link.specs.Tables.{part_at, no_field};

    ghost Value = { Described FieldDescriptorProto };

    ghost coded = { described_code proto.the_row.coded };

    ghost view = { λ d. described d.message.pool d.message.file (part_at no_field (fields_in d.message.part) d.index) };

    ghost invariant = { λ d. d.index < length (fields_in d.message.part) };
}

impl FieldDescriptor {
    /// The same field. It takes no memory.
    pub fn copy(&self) -> FieldDescriptor
        ensures { result ≡ self.now }
    {
        FieldDescriptor {
            message: self.message.copy(),
            index: self.index,
        }
    }

    pub(crate) fn record(&self) -> &FieldDescriptorProto
        ensures { result.now ≡ self.now.part.item }
    {
        self.message.field_record(self.index)
    }

    /// Its own name.
    pub fn name(&self) -> &str
        ensures { result.now ≡ text_or_empty_of self.now.part.item.name }
    {
        text_or_empty(&self.record().name)
    }

    /// Its name with that of what holds it, without a leading dot.
    pub fn full_name(&self) -> &str
        ensures { result.now ≡ field_name self.now.part }
    {
        self.message.field_name(self.index)
    }

    /// Its key in canonical JSON.
    pub fn json_name(&self) -> &str
        ensures { result.now ≡ text_or_empty_of self.now.part.item.json_name }
    {
        text_or_empty(&self.record().json_name)
    }

    /// The number in the keys of its records.
    pub fn number(&self) -> u32
        ensures { result ≡ number_of_field self.now }
    {
        number_or_zero(self.record().number)
    }

    /// What one value is; of a map the entry.
    pub fn kind(&self) -> Kind
        ensures { described_kind self.now ≡ Some result }
    {
        self.message.pool().kind_of(self.record()).unwrap()
    }

    /// Its label.
    pub fn cardinality(&self) -> Cardinality
        ensures { result ≡ described_cardinality self.now }
    {
        cardinality(self.record().label)
    }

    /// Whether it is repeated and no map.
    pub fn is_list(&self) -> bool
        ensures { result ≡ is_list_of self.now }
    {
        is_repeated(self.record()) && !self.is_map()
    }

    /// Whether it is a map.
    pub fn is_map(&self) -> bool
        ensures { result ≡ is_map_of self.now }
    {
        let field = self.record();
        is_repeated(field) && self.message.pool().is_entry_named(&field.type_name)
    }

    /// Whether its list is written as one record.
    pub fn is_packed(&self) -> bool
        ensures { result ≡ is_packed_of self.now }
    {
        is_packed(self.record(), self.message.is_proto3())
    }

    /// Whether a value that is the default differs from none.
    pub fn supports_presence(&self) -> bool
        ensures { result ≡ has_presence self.now }
    {
        let field = self.record();
        let is_message = matches!(field.kind, Some(11));
        !is_repeated(field)
            && (!self.message.is_proto3() || is_message || field.oneof_index.is_some())
    }

    /// The default that the record holds, as text.
    pub fn default_text(&self) -> Option<&str>
        ensures { option_copied result ≡ self.now.part.item.default_value }
    {
        text(&self.record().default_value)
    }

    /// The message that has the field.
    pub fn parent_message(&self) -> MessageDescriptor
        ensures parent { parent_of self.now ≡ Some result }
        ensures of_it { Contains (fields_of_message result) self.now }
    {
        let _ = self.message.pool();
        self.message.copy()
    }
}

/// A oneof of a message. Contracts see the pool, the file's record and the oneof with its place.
#[derive(Drop)]
pub struct OneofDescriptor {
    pub(crate) message: MessageDescriptor,
    pub(crate) index: usize,
}

impl Model for OneofDescriptor {
    ghost use Rattle.std.specs.Prelude.{◌<◌, length};
    ghost use Rattle.pbx_desc_records.specs.contracts.field.OneofDescriptorProto as proto;
    ghost use Rattle.pbx_desc_records.specs.declared.field.OneofDescriptorProto.{OneofDescriptorProto};
    ghost use Rattle.pbx_link_definitions.specs.Definitions.{oneofs_in};
    ghost use Rattle.pbx_link_meaning.specs.Descriptors.{Described, described, described_code};
    ghost use Rattle.pbx_link.specs.Tables.{part_at, no_oneof};

    ghost Value = { Described OneofDescriptorProto };

    ghost coded = { described_code proto.the_row.coded };

    ghost view = { λ d. described d.message.pool d.message.file (part_at no_oneof (oneofs_in d.message.part) d.index) };

    ghost invariant = { λ d. d.index < length (oneofs_in d.message.part) };
}

impl OneofDescriptor {
    /// The same oneof. It takes no memory.
    pub fn copy(&self) -> OneofDescriptor
        ensures { result ≡ self.now }
    {
        OneofDescriptor {
            message: self.message.copy(),
            index: self.index,
        }
    }

    fn record(&self) -> &OneofDescriptorProto
        ensures { result.now ≡ self.now.part.item }
    {
        self.message.oneof_record(self.index)
    }

    /// Its own name.
    pub fn name(&self) -> &str
        ensures { result.now ≡ text_or_empty_of self.now.part.item.name }
    {
        text_or_empty(&self.record().name)
    }
}
