// Enums of a pool.
ghost use Rattle.std.specs.Prelude.{◌≡◌, ◌<◌, Some, length, position};
ghost use Rattle.std.specs.Iterator.{YieldsFirst, item_count};
ghost use Rattle.pbx_desc_records.specs.declared.enumeration.EnumValueDescriptorProto.{EnumValueDescriptorProto as ValueOf};
ghost use Rattle.pbx_link_definitions.specs.Names.{text_or_empty as text_or_empty_of, is_named as is_named_of};
ghost use Rattle.pbx_link_definitions.specs.Says.{signed_or_zero, are_equal};
ghost use Rattle.pbx_link_definitions.specs.Definitions.{enum_name, values_in};
ghost use Rattle.pbx_link_meaning.specs.Descriptors.{described, values_of_enum, value_with_number, value_with_name};
ghost use Rattle.pbx_link.specs.Tables.{part_at, no_value};

use crate::pool::DescriptorPool;
use pbx_desc_records::{EnumDescriptorProto, EnumValueDescriptorProto};
use pbx_link_definitions::{PartRef, is_named, text_or_empty};
use pbx_link_tables::FileTable;
use pbx_shared::Shared;
use std::marker::Model;

/// An enum of a pool. Contracts see the pool, the file's record and the enum with its place.
#[derive(Drop)]
pub struct EnumDescriptor {
    pub(crate) pool: DescriptorPool,
    pub(crate) table: Shared<FileTable>,
    pub(crate) index: usize,
}

impl Model for EnumDescriptor {
    ghost use Rattle.std.specs.Prelude.{◌<◌, length, Contains};
    ghost use Rattle.pbx_desc_records.specs.contracts.enumeration.EnumDescriptorProto as proto;
    ghost use Rattle.pbx_desc_records.specs.declared.enumeration.EnumDescriptorProto.{EnumDescriptorProto};
    ghost use Rattle.pbx_link_definitions.specs.Definitions.{enums};
    ghost use Rattle.pbx_link_meaning.specs.Descriptors.{Described, described, described_code};
    ghost use Rattle.pbx_link.specs.Tables.{part_at, no_enum};

    ghost Value = { Described EnumDescriptorProto };

    ghost coded = { described_code proto.the_row.coded };

    ghost view = { λ d. described d.pool d.table (part_at no_enum (enums d.table) d.index) };

    ghost invariant = { λ d. Contains d.pool d.table × (d.index < length (enums d.table)) };
}

/// Whether the number is there, and is this one.
fn is_number(number: Option<i32>, wanted: i32) -> bool
    ensures { result ≡ are_equal number (Some wanted) }
{
    match number {
        Some(number) => number <= wanted && wanted <= number,
        None => false,
    }
}

/// The index of the first value of the number.
fn number_position(values: &[EnumValueDescriptorProto], number: i32) -> Option<usize>
    ensures { result ≡ position (λ (v : ValueOf). are_equal v.number (Some number)) values.now }
{
    values
        .iter()
        .position(|value| is_number(value.number, number))
}

/// The index of the first value of the name.
fn name_position(values: &[EnumValueDescriptorProto], name: &str) -> Option<usize>
    ensures { result ≡ position (λ (v : ValueOf). is_named_of v.name name.now) values.now }
{
    values.iter().position(|value| is_named(&value.name, name))
}

impl EnumDescriptor {
    /// The same enum. It takes no memory.
    pub fn copy(&self) -> EnumDescriptor
        ensures { result ≡ self.now }
    {
        EnumDescriptor {
            pool: self.pool.copy(),
            table: self.table.copy(),
            index: self.index,
        }
    }

    /// The enum with its place.
    fn part(&self) -> PartRef<'_, EnumDescriptorProto>
        ensures { result ≡ self.now.part }
    {
        self.table.as_ref().enumeration(self.index).unwrap()
    }

    /// Its name with those of its package and of the messages that hold it.
    pub fn full_name(&self) -> &str
        ensures { result.now ≡ enum_name self.now.part }
    {
        self.table.as_ref().enum_name(self.index).unwrap()
    }

    /// Its values in declared order.
    pub fn values(&self) -> EnumValues<'_>
        ensures { result ≡ values_of_enum self.now }
    {
        EnumValues {
            enumeration: self,
            index: 0,
        }
    }

    /// The first declared value of a number.
    pub fn get_value(&self, number: i32) -> Option<EnumValueDescriptor>
        ensures { result ≡ value_with_number (values_of_enum self.now) number }
    {
        let index = number_position(self.own_values(), number)?;
        Some(self.value(index))
    }

    /// The value of a name.
    pub fn get_value_by_name(&self, name: &str) -> Option<EnumValueDescriptor>
        ensures { result ≡ value_with_name (values_of_enum self.now) name.now }
    {
        let index = name_position(self.own_values(), name)?;
        Some(self.value(index))
    }

    /// The records of its values.
    fn own_values(&self) -> &[EnumValueDescriptorProto]
        ensures { result.now ≡ self.now.part.item.value }
    {
        self.part().item().value.as_slice()
    }

    /// How many values it has.
    #[tactic(auto, using(crate::proofs::Parts::length_parts))]
    fn value_count(&self) -> usize
        ensures { result ≡ length (values_in self.now.part) }
    {
        self.own_values().len()
    }

    /// The value of this index.
    fn value(&self, index: usize) -> EnumValueDescriptor
        requires { index < length (values_in self.now.part) }
        ensures { result ≡ described self.now.pool self.now.file (part_at no_value (values_in self.now.part) index) }
    {
        EnumValueDescriptor {
            enumeration: self.copy(),
            index,
        }
    }

    /// The record of the value of this index.
    #[tactic(auto, using(crate::proofs::Parts::length_parts, crate::proofs::Parts::item_is))]
    fn value_record(&self, index: usize) -> &EnumValueDescriptorProto
        requires { index < length (values_in self.now.part) }
        ensures { result.now ≡ (part_at no_value (values_in self.now.part) index).item }
    {
        &self.own_values()[index]
    }
}

/// A value of an enum. Contracts see the pool, the file's record and the value with its place.
#[derive(Drop)]
pub struct EnumValueDescriptor {
    enumeration: EnumDescriptor,
    index: usize,
}

impl Model for EnumValueDescriptor {
    ghost use Rattle.std.specs.Prelude.{◌<◌, length};
    ghost use Rattle.pbx_desc_records.specs.contracts.enumeration.EnumValueDescriptorProto as proto;
    ghost use Rattle.pbx_desc_records.specs.declared.enumeration.EnumValueDescriptorProto.{EnumValueDescriptorProto};
    ghost use Rattle.pbx_link_definitions.specs.Definitions.{values_in};
    ghost use Rattle.pbx_link_meaning.specs.Descriptors.{Described, described, described_code};
    ghost use Rattle.pbx_link.specs.Tables.{part_at, no_value};

    ghost Value = { Described EnumValueDescriptorProto };

    ghost coded = { described_code proto.the_row.coded };

    ghost view = { λ d. described d.enumeration.pool d.enumeration.file (part_at no_value (values_in d.enumeration.part) d.index) };

    ghost invariant = { λ d. d.index < length (values_in d.enumeration.part) };
}

impl EnumValueDescriptor {
    /// The same value. It takes no memory.
    pub fn copy(&self) -> EnumValueDescriptor
        ensures { result ≡ self.now }
    {
        EnumValueDescriptor {
            enumeration: self.enumeration.copy(),
            index: self.index,
        }
    }

    fn record(&self) -> &EnumValueDescriptorProto
        ensures { result.now ≡ self.now.part.item }
    {
        self.enumeration.value_record(self.index)
    }

    /// Its own name.
    pub fn name(&self) -> &str
        ensures { result.now ≡ text_or_empty_of self.now.part.item.name }
    {
        text_or_empty(&self.record().name)
    }

    /// Its number.
    pub fn number(&self) -> i32
        ensures { result ≡ signed_or_zero self.now.part.item.number }
    {
        self.record().number.unwrap_or(0)
    }
}

/// The values of an enum. Contracts see the list of those that are left.
#[derive(Drop)]
pub struct EnumValues<'a> {
    enumeration: &'a EnumDescriptor,
    index: usize,
}

impl<'a> Model for EnumValues<'a> {
    ghost use Rattle.std.specs.Prelude.{List, drop};
    ghost use Rattle.std.specs.Coded.{coded_list};
    ghost use Rattle.pbx_desc_records.specs.contracts.enumeration.EnumValueDescriptorProto as proto;
    ghost use Rattle.pbx_desc_records.specs.declared.enumeration.EnumValueDescriptorProto.{EnumValueDescriptorProto};
    ghost use Rattle.pbx_link_meaning.specs.Descriptors.{Described, described_code, values_of_enum};

    ghost Value = { List (Described EnumValueDescriptorProto) };

    ghost coded = { coded_list (described_code proto.the_row.coded) };

    ghost view = { λ it. drop it.index (values_of_enum it.enumeration.now) };
}

impl Iterator for EnumValues<'_> {
    type Item = EnumValueDescriptor;

    ghost next_gives = { YieldsFirst (λ it. it) };

    ghost remaining = { item_count (λ it. it) };

    #[tactic(auto, using(crate::proofs::Parts::next_part, crate::proofs::Parts::no_part))]
    fn next(&mut self) -> Option<EnumValueDescriptor> {
        let index = self.index;
        if index >= self.enumeration.value_count() {
            return None;
        }
        self.index += 1;
        Some(self.enumeration.value(index))
    }
}
