ghost use Rattle.std.specs.Prelude.{◌≡◌, None, [], IfOk, OnOk};

use crate::copy::{Duplicate, copy_to};
use crate::options::Options;
use pbx_wire::{NoMemory, Recs, Text, copy_recs};
use std::alloc::Global;

/// A field of a message, or an extension, `google.protobuf.FieldDescriptorProto`.
#[derive(Drop)]
pub struct FieldDescriptorProto {
    /// The field's own name, without that of its message.
    pub name: Option<Text>,
    /// The name of the message that an extension extends; absent in a field.
    pub extendee: Option<Text>,
    /// The number that stands before the field's values on the wire.
    pub number: Option<i32>,
    /// 1 optional, 2 required, 3 repeated, as `FieldDescriptorProto.Label` numbers them.
    pub label: Option<i32>,
    /// The number of `FieldDescriptorProto.Type`, as 5 for `int32` and 9 for `string`.
    pub kind: Option<i32>,
    /// The name of the message or enum that is the type; a full name has a leading dot.
    pub type_name: Option<Text>,
    /// The default in the words of the source.
    pub default_value: Option<Text>,
    /// The records of `google.protobuf.FieldOptions`.
    pub options: Option<Options>,
    /// The place in `oneof_decl` of the oneof that the field is a member of.
    pub oneof_index: Option<i32>,
    /// The field's key in canonical JSON.
    pub json_name: Option<Text>,
    /// Whether the field has the label `optional` in a file of `proto3`.
    pub proto3_optional: Option<bool>,
    /// The records of numbers that are no field of this one, in order of arrival.
    pub unknown: Recs,
}

impl FieldDescriptorProto {
    /// The record with each field absent; takes no memory.
    pub fn new(alloc: Global) -> FieldDescriptorProto
        ensures { result ≡ record {
          name = None;
          extendee = None;
          number = None;
          label = None;
          kind = None;
          type_name = None;
          default_value = None;
          options = None;
          oneof_index = None;
          json_name = None;
          proto3_optional = None;
          unknown = [];
        } }
    {
        FieldDescriptorProto {
            name: None,
            extendee: None,
            number: None,
            label: None,
            kind: None,
            type_name: None,
            default_value: None,
            options: None,
            oneof_index: None,
            json_name: None,
            proto3_optional: None,
            unknown: Recs::new(alloc),
        }
    }

    /// An equal record. The only error is want of memory.
    pub fn copy(&self, alloc: Global) -> Result<FieldDescriptorProto, NoMemory>
        ensures { IfOk result (λ copy. copy ≡ self.now) }
    {
        let mut copy = FieldDescriptorProto::new(alloc);
        if let Err(error) = self.copy_parts(&mut copy, alloc) {
            drop(copy);
            return Err(error);
        }
        Ok(copy)
    }

    fn copy_parts(&self, to: &mut FieldDescriptorProto, alloc: Global) -> Result<(), NoMemory>
        ensures { OnOk result (to.new ≡ self.now) }
    {
        copy_to(&self.name, &mut to.name, alloc)?;
        copy_to(&self.extendee, &mut to.extendee, alloc)?;
        to.number = self.number;
        to.label = self.label;
        to.kind = self.kind;
        copy_to(&self.type_name, &mut to.type_name, alloc)?;
        copy_to(&self.default_value, &mut to.default_value, alloc)?;
        copy_to(&self.options, &mut to.options, alloc)?;
        to.oneof_index = self.oneof_index;
        copy_to(&self.json_name, &mut to.json_name, alloc)?;
        to.proto3_optional = self.proto3_optional;
        to.unknown = copy_recs(&self.unknown, alloc)?;
        Ok(())
    }
}

/// A oneof of a message, `google.protobuf.OneofDescriptorProto`.
#[derive(Drop)]
pub struct OneofDescriptorProto {
    /// The oneof's own name.
    pub name: Option<Text>,
    /// The records of `google.protobuf.OneofOptions`.
    pub options: Option<Options>,
    /// The records of numbers that are no field of this one, in order of arrival.
    pub unknown: Recs,
}

impl OneofDescriptorProto {
    /// The record with each field absent; takes no memory.
    pub fn new(alloc: Global) -> OneofDescriptorProto
        ensures { result ≡ record { name = None; options = None; unknown = [] } }
    {
        OneofDescriptorProto {
            name: None,
            options: None,
            unknown: Recs::new(alloc),
        }
    }

    /// An equal record. The only error is want of memory.
    pub fn copy(&self, alloc: Global) -> Result<OneofDescriptorProto, NoMemory>
        ensures { IfOk result (λ copy. copy ≡ self.now) }
    {
        Ok(OneofDescriptorProto {
            name: self.name.duplicate(alloc)?,
            options: self.options.duplicate(alloc)?,
            unknown: copy_recs(&self.unknown, alloc)?,
        })
    }
}
