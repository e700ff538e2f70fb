ghost use Rattle.std.specs.Prelude.{◌≡◌, None, [], IfOk, OnOk};

use crate::copy::{Duplicate, copy_to};
use crate::options::Options;
use pbx_wire::{List, NoMemory, Recs, Text, Texts, copy_recs};
use std::alloc::Global;

/// An enum, `google.protobuf.EnumDescriptorProto`.
#[derive(Drop)]
pub struct EnumDescriptorProto {
    /// The enum's own name, without those of what it stands in.
    pub name: Option<Text>,
    /// The values, in the order of the source.
    pub value: List<EnumValueDescriptorProto>,
    /// The records of `google.protobuf.EnumOptions`.
    pub options: Option<Options>,
    /// The numbers that its values may not have.
    pub reserved_range: List<EnumReservedRange>,
    /// The names that its values may not have.
    pub reserved_name: Texts,
    /// The records of numbers that are no field of this one, in order of arrival.
    pub unknown: Recs,
}

impl EnumDescriptorProto {
    /// The record with each field absent; takes no memory.
    pub fn new(alloc: Global) -> EnumDescriptorProto
        ensures { result ≡ record {
          name = None;
          value = [];
          options = None;
          reserved_range = [];
          reserved_name = [];
          unknown = [];
        } }
    {
        EnumDescriptorProto {
            name: None,
            value: List::new(alloc),
            options: None,
            reserved_range: List::new(alloc),
            reserved_name: Texts::new(alloc),
            unknown: Recs::new(alloc),
        }
    }

    /// An equal record. The only error is want of memory.
    pub fn copy(&self, alloc: Global) -> Result<EnumDescriptorProto, NoMemory>
        ensures { IfOk result (λ copy. copy ≡ self.now) }
    {
        let mut copy = EnumDescriptorProto::new(alloc);
        if let Err(error) = self.copy_parts(&mut copy, alloc) {
            drop(copy);
            return Err(error);
        }
        Ok(copy)
    }

    fn copy_parts(&self, to: &mut EnumDescriptorProto, alloc: Global) -> Result<(), NoMemory>
        ensures { OnOk result (to.new ≡ self.now) }
    {
        copy_to(&self.name, &mut to.name, alloc)?;
        copy_to(&self.value, &mut to.value, alloc)?;
        copy_to(&self.options, &mut to.options, alloc)?;
        copy_to(&self.reserved_range, &mut to.reserved_range, alloc)?;
        copy_to(&self.reserved_name, &mut to.reserved_name, alloc)?;
        to.unknown = copy_recs(&self.unknown, alloc)?;
        Ok(())
    }
}

/// Numbers that values of an enum may not have,
/// `google.protobuf.EnumDescriptorProto.EnumReservedRange`.
#[derive(Drop)]
pub struct EnumReservedRange {
    /// The first number.
    pub start: Option<i32>,
    /// The last number.
    pub end: Option<i32>,
    /// The records of numbers that are no field of this one, in order of arrival.
    pub unknown: Recs,
}

impl EnumReservedRange {
    /// The record with each field absent; takes no memory.
    pub fn new(alloc: Global) -> EnumReservedRange
        ensures { result ≡ record { start = None; end = None; unknown = [] } }
    {
        EnumReservedRange {
            start: None,
            end: None,
            unknown: Recs::new(alloc),
        }
    }

    /// An equal record. The only error is want of memory.
    pub fn copy(&self, alloc: Global) -> Result<EnumReservedRange, NoMemory>
        ensures { IfOk result (λ copy. copy ≡ self.now) }
    {
        Ok(EnumReservedRange {
            start: self.start,
            end: self.end,
            unknown: copy_recs(&self.unknown, alloc)?,
        })
    }
}

/// A value of an enum, `google.protobuf.EnumValueDescriptorProto`.
#[derive(Drop)]
pub struct EnumValueDescriptorProto {
    /// The value's own name.
    pub name: Option<Text>,
    /// The value's number.
    pub number: Option<i32>,
    /// The records of `google.protobuf.EnumValueOptions`.
    pub options: Option<Options>,
    /// The records of numbers that are no field of this one, in order of arrival.
    pub unknown: Recs,
}

impl EnumValueDescriptorProto {
    /// The record with each field absent; takes no memory.
    pub fn new(alloc: Global) -> EnumValueDescriptorProto
        ensures { result ≡ record { name = None; number = None; options = None; unknown = [] } }
    {
        EnumValueDescriptorProto {
            name: None,
            number: None,
            options: None,
            unknown: Recs::new(alloc),
        }
    }

    /// An equal record. The only error is want of memory.
    pub fn copy(&self, alloc: Global) -> Result<EnumValueDescriptorProto, NoMemory>
        ensures { IfOk result (λ copy. copy ≡ self.now) }
    {
        Ok(EnumValueDescriptorProto {
            name: self.name.duplicate(alloc)?,
            number: self.number,
            options: self.options.duplicate(alloc)?,
            unknown: copy_recs(&self.unknown, alloc)?,
        })
    }
}
