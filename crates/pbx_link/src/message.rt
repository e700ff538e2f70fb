// Messages of a pool.
ghost use Rattle.std.specs.Prelude.{◌≡◌, ◌<◌, [], length, position, Contains};
ghost use Rattle.pbx_desc_records.specs.declared.field.FieldDescriptorProto.{FieldDescriptorProto as FieldOf};
ghost use Rattle.pbx_link_definitions.specs.Names.{is_named as is_named_of};
ghost use Rattle.std.specs.Iterator.{YieldsFirst, item_count};
ghost use Rattle.pbx_link_rules.specs.Pool.{ArePooled};
ghost use Rattle.pbx_link_definitions.specs.Definitions.{messages, message_name, fields_in, oneofs_in, field_name as field_name_of};
ghost use Rattle.pbx_link_definitions.specs.Says.{own_name, own_fields as own_fields_of, is_entry, is_proto3 as is_proto3_of, is_number as is_number_of};
ghost use Rattle.pbx_link_meaning.specs.Descriptors.{described, file_of, all_messages, fields_of_message};
ghost use Rattle.pbx_link_meaning.specs.Descriptors.{oneofs_of_message, with_number, with_name, with_json_name};
ghost use Rattle.pbx_link.specs.Tables.{part_at, no_field, no_oneof, own_oneofs as own_oneofs_of};

use crate::field::{FieldDescriptor, OneofDescriptor};
use crate::file::FileDescriptor;
use crate::pool::DescriptorPool;
use pbx_desc_records::{DescriptorProto, FieldDescriptorProto, OneofDescriptorProto};
use pbx_link_definitions::{PartRef, is_named, text_or_empty};
use pbx_link_tables::FileTable;
use pbx_shared::Shared;
use std::marker::Model;

/// A message of a pool, nested ones and map entries included. Contracts see the pool, the file's record and the message with its place.
#[derive(Drop)]
pub struct MessageDescriptor {
    pub(crate) pool: DescriptorPool,
    pub(crate) table: Shared<FileTable>,
    pub(crate) index: usize,
}

impl Model for MessageDescriptor {
    ghost use Rattle.std.specs.Prelude.{◌<◌, length, Contains};
    ghost use Rattle.pbx_desc_records.specs.contracts.message.DescriptorProto as proto;
    ghost use Rattle.pbx_desc_records.specs.declared.message.DescriptorProto.{DescriptorProto};
    ghost use Rattle.pbx_link_definitions.specs.Definitions.{messages};
    ghost use Rattle.pbx_link_meaning.specs.Descriptors.{Described, described, described_code};
    ghost use Rattle.pbx_link.specs.Tables.{part_at, no_message};

    ghost Value = { Described DescriptorProto };

    ghost coded = { described_code proto.the_row.coded };

    ghost view = { λ d. described d.pool d.table (part_at no_message (messages d.table) d.index) };

    ghost invariant = { λ d. Contains d.pool d.table × (d.index < length (messages d.table)) };
}

/// Whether the number is there, and is this one.
pub(crate) fn is_number(number: Option<i32>, wanted: u32) -> bool
    ensures { result ≡ is_number_of number wanted }
{
    match number {
        Some(number) if number >= 0 => number as u32 == wanted,
        _ => false,
    }
}

/// The index of the first field of the number.
fn number_position(fields: &[FieldDescriptorProto], number: u32) -> Option<usize>
    ensures { result ≡ position (λ (x : FieldOf). is_number_of x.number number) fields.now }
{
    fields
        .iter()
        .position(|field| is_number(field.number, number))
}

/// The index of the first field of the name.
fn name_position(fields: &[FieldDescriptorProto], name: &str) -> Option<usize>
    ensures { result ≡ position (λ (x : FieldOf). is_named_of x.name name.now) fields.now }
{
    fields.iter().position(|field| is_named(&field.name, name))
}

/// The index of the first field of the JSON name.
fn json_name_position(fields: &[FieldDescriptorProto], name: &str) -> Option<usize>
    ensures { result ≡ position (λ (x : FieldOf). is_named_of x.json_name name.now) fields.now }
{
    fields
        .iter()
        .position(|field| is_named(&field.json_name, name))
}

impl MessageDescriptor {
    /// The same message. It takes no memory.
    pub fn copy(&self) -> MessageDescriptor
        ensures { result ≡ self.now }
    {
        MessageDescriptor {
            pool: self.pool.copy(),
            table: self.table.copy(),
            index: self.index,
        }
    }

    /// The message with its place.
    fn part(&self) -> PartRef<'_, DescriptorProto>
        ensures { result ≡ self.now.part }
    {
        self.table.as_ref().message(self.index).unwrap()
    }

    /// The message's own name.
    pub fn name(&self) -> &str
        ensures { result.now ≡ own_name self.now.part.item }
    {
        text_or_empty(&self.part().item().name)
    }

    /// The message's name with those of its package and of the messages that hold it, without a leading dot.
    pub fn full_name(&self) -> &str
        ensures { result.now ≡ message_name self.now.part }
    {
        self.table.as_ref().message_name(self.index).unwrap()
    }

    /// The pool that the message is of.
    pub fn parent_pool(&self) -> DescriptorPool
        ensures pool { result ≡ self.now.pool }
        ensures of_it { Contains (all_messages result) self.now }
        // Each record of the pool is linked among those before it.
        ensures pooled { ArePooled [] result }
    {
        let _ = self.pool.tables();
        self.pool.copy()
    }

    /// The file that declares the message.
    pub fn parent_file(&self) -> FileDescriptor
        ensures { result ≡ file_of self.now }
    {
        FileDescriptor {
            pool: self.pool.copy(),
            table: self.table.copy(),
        }
    }

    /// Whether the message is the entry of a map.
    pub fn is_map_entry(&self) -> bool
        ensures { result ≡ is_entry self.now.part.item }
    {
        match &self.part().item().options {
            Some(options) => options.bool_of(7).unwrap_or(false),
            None => false,
        }
    }

    /// The fields in declared order.
    pub fn fields(&self) -> MessageFields<'_>
        ensures { result ≡ fields_of_message self.now }
    {
        MessageFields {
            message: self,
            index: 0,
        }
    }

    /// The oneofs in declared order.
    pub fn oneofs(&self) -> MessageOneofs<'_>
        ensures { result ≡ oneofs_of_message self.now }
    {
        MessageOneofs {
            message: self,
            index: 0,
        }
    }

    /// The field of a number.
    pub fn get_field(&self, number: u32) -> Option<FieldDescriptor>
        ensures { result ≡ with_number (fields_of_message self.now) number }
    {
        let index = number_position(self.own_fields(), number)?;
        Some(self.field(index))
    }

    /// The field of a name.
    pub fn get_field_by_name(&self, name: &str) -> Option<FieldDescriptor>
        ensures { result ≡ with_name (fields_of_message self.now) name.now }
    {
        let index = name_position(self.own_fields(), name)?;
        Some(self.field(index))
    }

    /// The first field of a JSON name.
    pub fn get_field_by_json_name(&self, name: &str) -> Option<FieldDescriptor>
        ensures { result ≡ with_json_name (fields_of_message self.now) name.now }
    {
        let index = json_name_position(self.own_fields(), name)?;
        Some(self.field(index))
    }

    /// The pool, lent. The message stands in it.
    pub(crate) fn pool(&self) -> &DescriptorPool
        ensures same { result.now ≡ self.now.pool }
        ensures file { Contains self.now.pool self.now.file }
        ensures message { Contains (messages self.now.file) self.now.part }
        ensures pooled { ArePooled [] self.now.pool }
    {
        let _ = self.pool.tables();
        &self.pool
    }

    /// Whether the file is of proto3.
    pub(crate) fn is_proto3(&self) -> bool
        ensures { result ≡ is_proto3_of self.now.file }
    {
        is_named(&self.table.as_ref().file().syntax, "proto3")
    }

    /// The records of its fields.
    pub(crate) fn own_fields(&self) -> &[FieldDescriptorProto]
        ensures { result.now ≡ own_fields_of self.now.part.item }
    {
        self.part().item().field.as_slice()
    }

    /// How many fields it has.
    #[tactic(auto, using(crate::proofs::Parts::length_parts))]
    fn field_count(&self) -> usize
        ensures { result ≡ length (fields_in self.now.part) }
    {
        self.own_fields().len()
    }

    /// The field of this index.
    pub(crate) fn field(&self, index: usize) -> FieldDescriptor
        requires { index < length (fields_in self.now.part) }
        ensures { result ≡ described self.now.pool self.now.file (part_at no_field (fields_in self.now.part) index) }
    {
        FieldDescriptor {
            message: self.copy(),
            index,
        }
    }

    /// The record of the field of this index.
    #[tactic(auto, using(crate::proofs::Parts::length_parts, crate::proofs::Parts::item_is))]
    pub(crate) fn field_record(&self, index: usize) -> &FieldDescriptorProto
        requires { index < length (fields_in self.now.part) }
        ensures { result.now ≡ (part_at no_field (fields_in self.now.part) index).item }
    {
        &self.own_fields()[index]
    }

    /// The full name of the field of this index.
    pub(crate) fn field_name(&self, index: usize) -> &str
        requires { index < length (fields_in self.now.part) }
        ensures { result.now ≡ field_name_of (part_at no_field (fields_in self.now.part) index) }
    {
        self.table.as_ref().field_name(self.index, index).unwrap()
    }

    /// The records of its oneofs.
    fn own_oneofs(&self) -> &[OneofDescriptorProto]
        ensures { result.now ≡ own_oneofs_of self.now.part.item }
    {
        self.part().item().oneof_decl.as_slice()
    }

    /// How many oneofs it has.
    #[tactic(auto, using(crate::proofs::Parts::length_parts))]
    pub(crate) fn oneof_count(&self) -> usize
        ensures { result ≡ length (oneofs_in self.now.part) }
    {
        self.own_oneofs().len()
    }

    /// The oneof of this index.
    pub(crate) fn oneof(&self, index: usize) -> OneofDescriptor
        requires { index < length (oneofs_in self.now.part) }
        ensures { result ≡ described self.now.pool self.now.file (part_at no_oneof (oneofs_in self.now.part) index) }
    {
        OneofDescriptor {
            message: self.copy(),
            index,
        }
    }

    /// The record of the oneof of this index.
    #[tactic(auto, using(crate::proofs::Parts::length_parts, crate::proofs::Parts::item_is))]
    pub(crate) fn oneof_record(&self, index: usize) -> &OneofDescriptorProto
        requires { index < length (oneofs_in self.now.part) }
        ensures { result.now ≡ (part_at no_oneof (oneofs_in self.now.part) index).item }
    {
        &self.own_oneofs()[index]
    }
}

/// The fields of a message. Contracts see the list of those that are left.
#[derive(Drop)]
pub struct MessageFields<'a> {
    message: &'a MessageDescriptor,
    index: usize,
}

impl<'a> Model for MessageFields<'a> {
    ghost use Rattle.std.specs.Prelude.{List, drop};
    ghost use Rattle.std.specs.Coded.{coded_list};
    ghost use Rattle.pbx_desc_records.specs.contracts.field.FieldDescriptorProto as proto;
    ghost use Rattle.pbx_desc_records.specs.declared.field.FieldDescriptorProto.{FieldDescriptorProto};
    ghost use Rattle.pbx_link_meaning.specs.Descriptors.{Described, described_code, fields_of_message};

    ghost Value = { List (Described FieldDescriptorProto) };

    ghost coded = { coded_list (described_code proto.the_row.coded) };

    ghost view = { λ it. drop it.index (fields_of_message it.message.now) };
}

impl Iterator for MessageFields<'_> {
    type Item = FieldDescriptor;

    ghost next_gives = { YieldsFirst (λ it. it) };

    ghost remaining = { item_count (λ it. it) };

    #[tactic(auto, using(crate::proofs::Parts::next_part, crate::proofs::Parts::no_part))]
    fn next(&mut self) -> Option<FieldDescriptor> {
        let index = self.index;
        if index >= self.message.field_count() {
            return None;
        }
        self.index += 1;
        Some(self.message.field(index))
    }
}

/// The oneofs of a message. Contracts see the list of those that are left.
#[derive(Drop)]
pub struct MessageOneofs<'a> {
    message: &'a MessageDescriptor,
    index: usize,
}

impl<'a> Model for MessageOneofs<'a> {
    ghost use Rattle.std.specs.Prelude.{List, drop};
    ghost use Rattle.std.specs.Coded.{coded_list};
    ghost use Rattle.pbx_desc_records.specs.contracts.field.OneofDescriptorProto as proto;
    ghost use Rattle.pbx_desc_records.specs.declared.field.OneofDescriptorProto.{OneofDescriptorProto};
    ghost use Rattle.pbx_link_meaning.specs.Descriptors.{Described, described_code, oneofs_of_message};

    ghost Value = { List (Described OneofDescriptorProto) };

    ghost coded = { coded_list (described_code proto.the_row.coded) };

    ghost view = { λ it. drop it.index (oneofs_of_message it.message.now) };
}

impl Iterator for MessageOneofs<'_> {
    type Item = OneofDescriptor;

    ghost next_gives = { YieldsFirst (λ it. it) };

    ghost remaining = { item_count (λ it. it) };

    #[tactic(auto, using(crate::proofs::Parts::next_part, crate::proofs::Parts::no_part))]
    fn next(&mut self) -> Option<OneofDescriptor> {
        let index = self.index;
        if index >= self.message.oneof_count() {
            return None;
        }
        self.index += 1;
        Some(self.message.oneof(index))
    }
}
