// Oneofs and their members.
ghost use Rattle.std.specs.Prelude.{◌≡◌, ◌+◌, drop, position, option_map, option_and_then, slice_get};
ghost use Rattle.std.specs.Iterator.{YieldsFirst, item_count};
ghost use Rattle.pbx_desc_records.specs.declared.field.FieldDescriptorProto.{FieldDescriptorProto as FieldOf};
ghost use Rattle.pbx_link_definitions.specs.Definitions.{oneofs_in};
ghost use Rattle.pbx_link_definitions.specs.Says.{is_number as is_number_of};
ghost use Rattle.pbx_link_meaning.specs.Descriptors.{described, fields_of_oneof, oneof_of_field};
ghost use Rattle.pbx_link.specs.Tables.{index_of as index_of_number};

use crate::field::{FieldDescriptor, OneofDescriptor};
use crate::message::MessageDescriptor;
use pbx_desc_records::FieldDescriptorProto;
use std::marker::Model;

/// The members of a oneof in declared order. Contracts see the list of those that are left.
#[derive(Drop)]
pub struct OneofFields<'a> {
    message: &'a MessageDescriptor,
    oneof: usize,
    index: usize,
}

impl<'a> Model for OneofFields<'a> {
    ghost use Rattle.std.specs.Prelude.{List};
    ghost use Rattle.std.specs.Coded.{coded_list};
    ghost use Rattle.pbx_desc_records.specs.contracts.field.FieldDescriptorProto as proto;
    ghost use Rattle.pbx_desc_records.specs.declared.field.FieldDescriptorProto.{FieldDescriptorProto};
    ghost use Rattle.pbx_link_meaning.specs.Descriptors.{Described, described_code};
    ghost use Rattle.pbx_link.specs.Tables.{members_from};

    ghost Value = { List (Described FieldDescriptorProto) };

    ghost coded = { coded_list (described_code proto.the_row.coded) };

    ghost view = { λ it. members_from it.message.now it.oneof it.index };
}

/// The number as an index.
fn index_of(number: Option<i32>) -> Option<usize>
    ensures { result ≡ index_of_number number }
{
    match number {
        Some(number) if number >= 0 => Some(number as usize),
        _ => None,
    }
}

/// Whether the number is this index.
fn is_index(number: Option<i32>, index: usize) -> bool
    ensures { result ≡ is_number_of number index }
{
    match number {
        Some(number) if number >= 0 => number as usize == index,
        _ => false,
    }
}

/// The index of the first member of the oneof of this index.
fn member_position(fields: &[FieldDescriptorProto], oneof: usize) -> Option<usize>
    ensures { result ≡ position (λ (x : FieldOf). is_number_of x.oneof_index oneof) fields.now }
{
    fields
        .iter()
        .position(|field| is_index(field.oneof_index, oneof))
}

/// How many fields from this one on stand before the next member of the oneof of this index.
fn fields_before(fields: &[FieldDescriptorProto], from: usize, oneof: usize) -> Option<usize>
    ensures { result ≡ position (λ (x : FieldOf). is_number_of x.oneof_index oneof) (drop from fields.now) }
{
    match fields.get(from..) {
        Some(rest) => member_position(rest, oneof),
        None => None,
    }
}

impl Iterator for OneofFields<'_> {
    type Item = FieldDescriptor;

    ghost next_gives = { YieldsFirst (λ it. it) };

    ghost remaining = { item_count (λ it. it) };

    fn next(&mut self) -> Option<FieldDescriptor> {
        let message = self.message;
        let before = fields_before(message.own_fields(), self.index, self.oneof)?;
        let index = self.index + before;
        self.index = index + 1;
        Some(message.field(index))
    }
}

impl OneofDescriptor {
    /// Its members in declared order.
    pub fn fields(&self) -> OneofFields<'_>
        ensures { result ≡ fields_of_oneof self.now }
    {
        let _ = self.message.pool();
        OneofFields {
            message: &self.message,
            oneof: self.index,
            index: 0,
        }
    }
}

impl MessageDescriptor {
    /// The oneof of this index, if there is one.
    fn oneof_at(&self, index: usize) -> Option<OneofDescriptor>
        ensures { result ≡ option_map (described self.now.pool self.now.file) (slice_get (oneofs_in self.now.part) index) }
    {
        if index >= self.oneof_count() {
            return None;
        }
        Some(self.oneof(index))
    }
}

impl FieldDescriptor {
    /// The oneof that the field is a member of.
    pub fn containing_oneof(&self) -> Option<OneofDescriptor>
        ensures { result ≡ oneof_of_field self.now }
    {
        let _ = self.message.pool();
        match index_of(self.record().oneof_index) {
            Some(index) => self.message.oneof_at(index),
            None => None,
        }
    }
}
