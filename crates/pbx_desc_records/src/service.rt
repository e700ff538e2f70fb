ghost use Rattle.std.specs.Prelude.{◌≡◌, None, [], IfOk, OnOk};

use crate::copy::{Duplicate, copy_to};
use crate::options::Options;
use pbx_wire::{List, NoMemory, Recs, Text, copy_recs};
use std::alloc::Global;

/// A service, `google.protobuf.ServiceDescriptorProto`.
#[derive(Drop)]
pub struct ServiceDescriptorProto {
    /// The service's own name.
    pub name: Option<Text>,
    /// The methods, in the order of the source.
    pub method: List<MethodDescriptorProto>,
    /// The records of `google.protobuf.ServiceOptions`.
    pub options: Option<Options>,
    /// The records of numbers that are no field of this one, in order of arrival.
    pub unknown: Recs,
}

impl ServiceDescriptorProto {
    /// The record with each field absent; takes no memory.
    pub fn new(alloc: Global) -> ServiceDescriptorProto
        ensures { result ≡ record { name = None; method = []; options = None; unknown = [] } }
    {
        ServiceDescriptorProto {
            name: None,
            method: List::new(alloc),
            options: None,
            unknown: Recs::new(alloc),
        }
    }

    /// An equal record. The only error is want of memory.
    pub fn copy(&self, alloc: Global) -> Result<ServiceDescriptorProto, NoMemory>
        ensures { IfOk result (λ copy. copy ≡ self.now) }
    {
        Ok(ServiceDescriptorProto {
            name: self.name.duplicate(alloc)?,
            method: self.method.duplicate(alloc)?,
            options: self.options.duplicate(alloc)?,
            unknown: copy_recs(&self.unknown, alloc)?,
        })
    }
}

/// A method of a service, `google.protobuf.MethodDescriptorProto`.
#[derive(Drop)]
pub struct MethodDescriptorProto {
    /// The method's own name.
    pub name: Option<Text>,
    /// The name of the message that it takes.
    pub input_type: Option<Text>,
    /// The name of the message that it answers with.
    pub output_type: Option<Text>,
    /// The records of `google.protobuf.MethodOptions`.
    pub options: Option<Options>,
    /// Whether it takes many messages.
    pub client_streaming: Option<bool>,
    /// Whether it answers with many messages.
    pub server_streaming: Option<bool>,
    /// The records of numbers that are no field of this one, in order of arrival.
    pub unknown: Recs,
}

impl MethodDescriptorProto {
    /// The record with each field absent; takes no memory.
    pub fn new(alloc: Global) -> MethodDescriptorProto
        ensures { result ≡ record {
          name = None;
          input_type = None;
          output_type = None;
          options = None;
          client_streaming = None;
          server_streaming = None;
          unknown = [];
        } }
    {
        MethodDescriptorProto {
            name: None,
            input_type: None,
            output_type: None,
            options: None,
            client_streaming: None,
            server_streaming: None,
            unknown: Recs::new(alloc),
        }
    }

    /// An equal record. The only error is want of memory.
    pub fn copy(&self, alloc: Global) -> Result<MethodDescriptorProto, NoMemory>
        ensures { IfOk result (λ copy. copy ≡ self.now) }
    {
        let mut copy = MethodDescriptorProto::new(alloc);
        if let Err(error) = self.copy_parts(&mut copy, alloc) {
            drop(copy);
            return Err(error);
        }
        Ok(copy)
    }

    fn copy_parts(&self, to: &mut MethodDescriptorProto, alloc: Global) -> Result<(), NoMemory>
        ensures { OnOk result (to.new ≡ self.now) }
    {
        copy_to(&self.name, &mut to.name, alloc)?;
        copy_to(&self.input_type, &mut to.input_type, alloc)?;
        copy_to(&self.output_type, &mut to.output_type, alloc)?;
        copy_to(&self.options, &mut to.options, alloc)?;
        to.client_streaming = self.client_streaming;
        to.server_streaming = self.server_streaming;
        to.unknown = copy_recs(&self.unknown, alloc)?;
        Ok(())
    }
}
