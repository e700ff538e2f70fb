ghost use Rattle.std.specs.Prelude.{◌≡◌, None, [], IfOk, OnOk};
ghost use Rattle.pbx_desc_records.specs.declared.message.DescriptorProto.{out-DescriptorProto};

use crate::copy::{Duplicate, copy_to};
use crate::enumeration::EnumDescriptorProto;
use crate::field::{FieldDescriptorProto, OneofDescriptorProto};
use crate::options::Options;
use pbx_wire::{List, NoMemory, Recs, Text, Texts, copy_recs};
use std::alloc::Global;

/// A message type, `google.protobuf.DescriptorProto`.
#[derive(Drop)]
pub struct DescriptorProto {
    /// The message's own name, without those of what it stands in.
    pub name: Option<Text>,
    /// The fields, in the order of the source.
    pub field: List<FieldDescriptorProto>,
    /// The messages that stand in it, map entries among them.
    pub nested_type: List<DescriptorProto>,
    /// The enums that stand in it.
    pub enum_type: List<EnumDescriptorProto>,
    /// The numbers that extensions of it may have.
    pub extension_range: List<ExtensionRange>,
    /// The extensions that stand in it, of whatever message.
    pub extension: List<FieldDescriptorProto>,
    /// The records of `google.protobuf.MessageOptions`.
    pub options: Option<Options>,
    /// The oneofs, in the order of the source.
    pub oneof_decl: List<OneofDescriptorProto>,
    /// The numbers that its fields may not have.
    pub reserved_range: List<ReservedRange>,
    /// The names that its fields may not have.
    pub reserved_name: Texts,
    /// The records of numbers that are no field of this one, in order of arrival.
    pub unknown: Recs,
}

impl DescriptorProto {
    ghost use Rattle.pbx_desc_records.specs.declared.message.DescriptorProto.{roll-DescriptorProto};

    /// The record with each field absent; takes no memory.
    pub fn new(alloc: Global) -> DescriptorProto
        ensures { result ≡ roll-DescriptorProto (record {
          name = None;
          field = [];
          nested_type = [];
          enum_type = [];
          extension_range = [];
          extension = [];
          options = None;
          oneof_decl = [];
          reserved_range = [];
          reserved_name = [];
          unknown = [];
        }) }
    {
        DescriptorProto {
            name: None,
            field: List::new(alloc),
            nested_type: List::new(alloc),
            enum_type: List::new(alloc),
            extension_range: List::new(alloc),
            extension: List::new(alloc),
            options: None,
            oneof_decl: List::new(alloc),
            reserved_range: List::new(alloc),
            reserved_name: Texts::new(alloc),
            unknown: Recs::new(alloc),
        }
    }

    /// An equal record. The only error is want of memory.
    pub fn copy(&self, alloc: Global) -> Result<DescriptorProto, NoMemory>
        ensures { IfOk result (λ copy. copy ≡ self.now) }
    {
        copy_message(self, alloc)
    }
}

/// What a message holds, the messages in it left out.
#[derive(Drop)]
struct OwnParts {
    name: Option<Text>,
    field: List<FieldDescriptorProto>,
    enum_type: List<EnumDescriptorProto>,
    extension_range: List<ExtensionRange>,
    extension: List<FieldDescriptorProto>,
    options: Option<Options>,
    oneof_decl: List<OneofDescriptorProto>,
    reserved_range: List<ReservedRange>,
    reserved_name: Texts,
    unknown: Recs,
}

impl OwnParts {
    /// Each absent; takes no memory.
    fn new(alloc: Global) -> OwnParts {
        OwnParts {
            name: None,
            field: List::new(alloc),
            enum_type: List::new(alloc),
            extension_range: List::new(alloc),
            extension: List::new(alloc),
            options: None,
            oneof_decl: List::new(alloc),
            reserved_range: List::new(alloc),
            reserved_name: Texts::new(alloc),
            unknown: Recs::new(alloc),
        }
    }

    fn copy_from(&mut self, message: &DescriptorProto, alloc: Global) -> Result<(), NoMemory>
        ensures { OnOk result (self.new ≡ record {
          name = (out-DescriptorProto message.now).name;
          field = (out-DescriptorProto message.now).field;
          enum_type = (out-DescriptorProto message.now).enum_type;
          extension_range = (out-DescriptorProto message.now).extension_range;
          extension = (out-DescriptorProto message.now).extension;
          options = (out-DescriptorProto message.now).options;
          oneof_decl = (out-DescriptorProto message.now).oneof_decl;
          reserved_range = (out-DescriptorProto message.now).reserved_range;
          reserved_name = (out-DescriptorProto message.now).reserved_name;
          unknown = (out-DescriptorProto message.now).unknown;
        }) }
    {
        copy_to(&message.name, &mut self.name, alloc)?;
        copy_to(&message.field, &mut self.field, alloc)?;
        copy_to(&message.enum_type, &mut self.enum_type, alloc)?;
        copy_to(&message.extension_range, &mut self.extension_range, alloc)?;
        copy_to(&message.extension, &mut self.extension, alloc)?;
        copy_to(&message.options, &mut self.options, alloc)?;
        copy_to(&message.oneof_decl, &mut self.oneof_decl, alloc)?;
        copy_to(&message.reserved_range, &mut self.reserved_range, alloc)?;
        copy_to(&message.reserved_name, &mut self.reserved_name, alloc)?;
        self.unknown = copy_recs(&message.unknown, alloc)?;
        Ok(())
    }
}

/// What a message holds, the messages in it left out.
fn own_parts(message: &DescriptorProto, alloc: Global) -> Result<OwnParts, NoMemory>
    ensures { IfOk result (λ own. own ≡ record {
      name = (out-DescriptorProto message.now).name;
      field = (out-DescriptorProto message.now).field;
      enum_type = (out-DescriptorProto message.now).enum_type;
      extension_range = (out-DescriptorProto message.now).extension_range;
      extension = (out-DescriptorProto message.now).extension;
      options = (out-DescriptorProto message.now).options;
      oneof_decl = (out-DescriptorProto message.now).oneof_decl;
      reserved_range = (out-DescriptorProto message.now).reserved_range;
      reserved_name = (out-DescriptorProto message.now).reserved_name;
      unknown = (out-DescriptorProto message.now).unknown;
    }) }
{
    let mut own = OwnParts::new(alloc);
    own.copy_from(message, alloc)?;
    Ok(own)
}

#[cycle(copy)]
fn copy_message(message: &DescriptorProto, alloc: Global) -> Result<DescriptorProto, NoMemory>
    ensures { IfOk result (λ copy. copy ≡ message.now) }
{
    let nested_type = copy_messages(&message.nested_type, alloc)?;
    let own = own_parts(message, alloc)?;
    Ok(DescriptorProto {
        name: own.name,
        field: own.field,
        nested_type,
        enum_type: own.enum_type,
        extension_range: own.extension_range,
        extension: own.extension,
        options: own.options,
        oneof_decl: own.oneof_decl,
        reserved_range: own.reserved_range,
        reserved_name: own.reserved_name,
        unknown: own.unknown,
    })
}

#[cycle(copy)]
fn copy_messages(
    messages: &List<DescriptorProto>,
    alloc: Global,
) -> Result<List<DescriptorProto>, NoMemory>
    ensures { IfOk result (λ copies. copies ≡ messages.now) }
{
    let mut copies = List::new(alloc);
    for message in messages.as_slice() {
        copies.add(copy_message(message, alloc)?)?;
    }
    Ok(copies)
}

/// Numbers that extensions of a message may have,
/// `google.protobuf.DescriptorProto.ExtensionRange`.
#[derive(Drop)]
pub struct ExtensionRange {
    /// The first number.
    pub start: Option<i32>,
    /// The number behind the last.
    pub end: Option<i32>,
    /// The records of `google.protobuf.ExtensionRangeOptions`.
    pub options: Option<Options>,
    /// The records of numbers that are no field of this one, in order of arrival.
    pub unknown: Recs,
}

impl ExtensionRange {
    /// The record with each field absent; takes no memory.
    pub fn new(alloc: Global) -> ExtensionRange
        ensures { result ≡ record { start = None; end = None; options = None; unknown = [] } }
    {
        ExtensionRange {
            start: None,
            end: None,
            options: None,
            unknown: Recs::new(alloc),
        }
    }

    /// An equal record. The only error is want of memory.
    pub fn copy(&self, alloc: Global) -> Result<ExtensionRange, NoMemory>
        ensures { IfOk result (λ copy. copy ≡ self.now) }
    {
        Ok(ExtensionRange {
            start: self.start,
            end: self.end,
            options: self.options.duplicate(alloc)?,
            unknown: copy_recs(&self.unknown, alloc)?,
        })
    }
}

/// Numbers that fields of a message may not have, `google.protobuf.DescriptorProto.ReservedRange`.
#[derive(Drop)]
pub struct ReservedRange {
    /// The first number.
    pub start: Option<i32>,
    /// The number behind the last.
    pub end: Option<i32>,
    /// The records of numbers that are no field of this one, in order of arrival.
    pub unknown: Recs,
}

impl ReservedRange {
    /// The record with each field absent; takes no memory.
    pub fn new(alloc: Global) -> ReservedRange
        ensures { result ≡ record { start = None; end = None; unknown = [] } }
    {
        ReservedRange {
            start: None,
            end: None,
            unknown: Recs::new(alloc),
        }
    }

    /// An equal record. The only error is want of memory.
    pub fn copy(&self, alloc: Global) -> Result<ReservedRange, NoMemory>
        ensures { IfOk result (λ copy. copy ≡ self.now) }
    {
        Ok(ReservedRange {
            start: self.start,
            end: self.end,
            unknown: copy_recs(&self.unknown, alloc)?,
        })
    }
}
