// Records as their own encoding gives them back.
ghost use Rattle.std.specs.Prelude.{◌≡◌, map, option_map, Ok, IfOk, OnOk, IsTrue};
ghost use Rattle.pbx_link_record.specs.Settled.{written_options, settled_extension_range, settled_reserved_range, settled_field, settled_oneof};
ghost use Rattle.pbx_link_record.specs.Settled.{settled_enum, settled_enum_range, settled_value, settled_method, settled_location, settled_source};

use crate::copying::{Duplicate, copy_to};
use crate::unknown::{RecordType, settled_unknown, written};
use pbx_desc_records::{
    EnumDescriptorProto, EnumReservedRange, EnumValueDescriptorProto, ExtensionRange,
    FieldDescriptorProto, Location, MethodDescriptorProto, OneofDescriptorProto, Options,
    ReservedRange, SourceCodeInfo,
};
use pbx_wire::{List, NoMemory};
use std::alloc::Global;

/// A record that its own encoding gives back in one form, which is settled. The only error is want of memory.
pub(crate) trait Settle: Drop + Sized {
    /// The settled record.
    ghost settled: { Self → Self };

    fn settle(&self, alloc: Global) -> Result<Self, NoMemory>
        ensures { IfOk result (λ made. made ≡ settled self.now) };
}

/// Puts the settled record in place of the other.
pub(crate) fn settle_to<T: Settle>(from: &T, to: &mut T, alloc: Global) -> Result<(), NoMemory>
    ensures { OnOk result (to.new ≡ T.settled from.now) }
{
    *to = from.settle(alloc)?;
    Ok(())
}

/// Puts what was made in place of the other.
pub(crate) fn put<T: Drop>(to: &mut T, made: Result<T, NoMemory>) -> Result<(), NoMemory>
    ensures { OnOk result (made ≡ Ok to.new) }
{
    match made {
        Ok(it) => {
            *to = it;
            Ok(())
        }
        Err(error) => Err(error),
    }
}

impl<T: Settle> Settle for Option<T> {
    ghost settled = { option_map T.settled };

    fn settle(&self, alloc: Global) -> Result<Option<T>, NoMemory> {
        match self {
            Some(item) => Ok(Some(item.settle(alloc)?)),
            None => Ok(None),
        }
    }
}

impl<T: Settle> Settle for List<T> {
    ghost settled = { map T.settled };

    fn settle(&self, alloc: Global) -> Result<List<T>, NoMemory> {
        let mut list = List::with_capacity(alloc, self.len())?;
        for item in self.as_slice() {
            list.add(item.settle(alloc)?)?;
        }
        Ok(list)
    }
}

impl Settle for Options {
    ghost settled = { written_options };

    fn settle(&self, alloc: Global) -> Result<Options, NoMemory> {
        Ok(Options {
            recs: written(alloc, &self.recs)?,
        })
    }
}

impl Settle for ExtensionRange {
    ghost settled = { settled_extension_range };

    fn settle(&self, alloc: Global) -> Result<ExtensionRange, NoMemory> {
        Ok(ExtensionRange {
            start: self.start,
            end: self.end,
            options: self.options.settle(alloc)?,
            unknown: settled_unknown(alloc, &self.unknown, RecordType::ExtensionRange)?,
        })
    }
}

impl Settle for ReservedRange {
    ghost settled = { settled_reserved_range };

    fn settle(&self, alloc: Global) -> Result<ReservedRange, NoMemory> {
        Ok(ReservedRange {
            start: self.start,
            end: self.end,
            unknown: settled_unknown(alloc, &self.unknown, RecordType::ReservedRange)?,
        })
    }
}

impl Settle for OneofDescriptorProto {
    ghost settled = { settled_oneof };

    fn settle(&self, alloc: Global) -> Result<OneofDescriptorProto, NoMemory> {
        Ok(OneofDescriptorProto {
            name: self.name.duplicate(alloc)?,
            options: self.options.settle(alloc)?,
            unknown: settled_unknown(alloc, &self.unknown, RecordType::Oneof)?,
        })
    }
}

impl Settle for EnumReservedRange {
    ghost settled = { settled_enum_range };

    fn settle(&self, alloc: Global) -> Result<EnumReservedRange, NoMemory> {
        Ok(EnumReservedRange {
            start: self.start,
            end: self.end,
            unknown: settled_unknown(alloc, &self.unknown, RecordType::EnumReservedRange)?,
        })
    }
}

impl Settle for EnumValueDescriptorProto {
    ghost settled = { settled_value };

    fn settle(&self, alloc: Global) -> Result<EnumValueDescriptorProto, NoMemory> {
        Ok(EnumValueDescriptorProto {
            name: self.name.duplicate(alloc)?,
            number: self.number,
            options: self.options.settle(alloc)?,
            unknown: settled_unknown(alloc, &self.unknown, RecordType::EnumValue)?,
        })
    }
}

impl Settle for EnumDescriptorProto {
    ghost settled = { settled_enum };

    fn settle(&self, alloc: Global) -> Result<EnumDescriptorProto, NoMemory> {
        let mut made = EnumDescriptorProto::new(alloc);
        if let Err(error) = settle_enum(self, &mut made, alloc) {
            drop(made);
            return Err(error);
        }
        Ok(made)
    }
}

/// Puts the settled enum in place of the other.
fn settle_enum(
    from: &EnumDescriptorProto,
    to: &mut EnumDescriptorProto,
    alloc: Global,
) -> Result<(), NoMemory>
    ensures { OnOk result (to.new ≡ settled_enum from.now) }
{
    copy_to(&from.name, &mut to.name, alloc)?;
    settle_to(&from.value, &mut to.value, alloc)?;
    settle_to(&from.options, &mut to.options, alloc)?;
    settle_to(&from.reserved_range, &mut to.reserved_range, alloc)?;
    copy_to(&from.reserved_name, &mut to.reserved_name, alloc)?;
    to.unknown = settled_unknown(alloc, &from.unknown, RecordType::Enum)?;
    Ok(())
}

impl Settle for FieldDescriptorProto {
    ghost settled = { settled_field };

    fn settle(&self, alloc: Global) -> Result<FieldDescriptorProto, NoMemory> {
        let mut made = FieldDescriptorProto::new(alloc);
        if let Err(error) = settle_field(self, &mut made, alloc) {
            drop(made);
            return Err(error);
        }
        Ok(made)
    }
}

/// Puts the settled field in place of the other.
fn settle_field(
    from: &FieldDescriptorProto,
    to: &mut FieldDescriptorProto,
    alloc: Global,
) -> Result<(), NoMemory>
    ensures { OnOk result (to.new ≡ settled_field from.now) }
{
    copy_to(&from.name, &mut to.name, alloc)?;
    copy_to(&from.extendee, &mut to.extendee, alloc)?;
    to.number = from.number;
    to.label = from.label;
    to.kind = from.kind;
    copy_to(&from.type_name, &mut to.type_name, alloc)?;
    copy_to(&from.default_value, &mut to.default_value, alloc)?;
    settle_to(&from.options, &mut to.options, alloc)?;
    to.oneof_index = from.oneof_index;
    copy_to(&from.json_name, &mut to.json_name, alloc)?;
    to.proto3_optional = from.proto3_optional;
    to.unknown = settled_unknown(alloc, &from.unknown, RecordType::Field)?;
    Ok(())
}

impl Settle for MethodDescriptorProto {
    ghost settled = { settled_method };

    fn settle(&self, alloc: Global) -> Result<MethodDescriptorProto, NoMemory> {
        let mut made = MethodDescriptorProto::new(alloc);
        if let Err(error) = settle_method(self, &mut made, alloc) {
            drop(made);
            return Err(error);
        }
        Ok(made)
    }
}

/// Puts the settled method in place of the other.
fn settle_method(
    from: &MethodDescriptorProto,
    to: &mut MethodDescriptorProto,
    alloc: Global,
) -> Result<(), NoMemory>
    ensures { OnOk result (to.new ≡ settled_method from.now) }
{
    copy_to(&from.name, &mut to.name, alloc)?;
    copy_to(&from.input_type, &mut to.input_type, alloc)?;
    copy_to(&from.output_type, &mut to.output_type, alloc)?;
    settle_to(&from.options, &mut to.options, alloc)?;
    to.client_streaming = from.client_streaming;
    to.server_streaming = from.server_streaming;
    to.unknown = settled_unknown(alloc, &from.unknown, RecordType::Method)?;
    Ok(())
}

impl Settle for Location {
    ghost settled = { settled_location };

    fn settle(&self, alloc: Global) -> Result<Location, NoMemory> {
        let mut made = self.copy(alloc)?;
        match settled_unknown(alloc, &self.unknown, RecordType::Location) {
            Ok(unknown) => {
                made.unknown = unknown;
                Ok(made)
            }
            Err(error) => {
                drop(made);
                Err(error)
            }
        }
    }
}

impl Settle for SourceCodeInfo {
    ghost settled = { settled_source };

    fn settle(&self, alloc: Global) -> Result<SourceCodeInfo, NoMemory> {
        Ok(SourceCodeInfo {
            location: self.location.settle(alloc)?,
            unknown: settled_unknown(alloc, &self.unknown, RecordType::SourceCodeInfo)?,
        })
    }
}

/// Whether nothing in the locations is unknown, so that each is settled.
fn have_no_unknown(locations: &List<Location>) -> bool
    ensures { IsTrue result → map settled_location locations.now ≡ locations.now }
{
    for location in locations.as_slice() {
        if !location.unknown.is_empty() {
            return false;
        }
    }
    true
}

/// Whether nothing in the record is unknown, so that it is settled.
fn has_no_unknown(source: &SourceCodeInfo) -> bool
    ensures { IsTrue result → settled_source source.now ≡ source.now }
{
    source.unknown.is_empty() && have_no_unknown(&source.location)
}

/// The record as its own encoding gives it back. Where nothing in it is unknown, which is nearly always, it is the record itself, as a file
/// may have four to six locations for each of its fields. The only error is want of memory.
pub fn settled_source_code_info(
    alloc: Global,
    source: SourceCodeInfo,
) -> Result<SourceCodeInfo, NoMemory>
    ensures { IfOk result (λ settled. settled ≡ settled_source source) }
{
    if has_no_unknown(&source) {
        return Ok(source);
    }
    let settled = source.settle(alloc);
    drop(source);
    settled
}
