ghost use Rattle.std.specs.Prelude.{◌≡◌, None, [], IfOk, OnOk};

use crate::copy::{Duplicate, copy_to};
use crate::enumeration::EnumDescriptorProto;
use crate::field::FieldDescriptorProto;
use crate::message::DescriptorProto;
use crate::options::Options;
use crate::service::ServiceDescriptorProto;
use crate::source::SourceCodeInfo;
use pbx_wire::{List, NoMemory, Recs, Text, Texts, copy_recs};
use std::alloc::Global;

/// Files, `google.protobuf.FileDescriptorSet`.
#[derive(Drop)]
pub struct FileDescriptorSet {
    /// The files, in their order.
    pub file: List<FileDescriptorProto>,
    /// The records of numbers that are no field of this one, in order of arrival.
    pub unknown: Recs,
}

impl FileDescriptorSet {
    /// The record with each field absent; takes no memory.
    pub fn new(alloc: Global) -> FileDescriptorSet
        ensures { result ≡ record { file = []; unknown = [] } }
    {
        FileDescriptorSet {
            file: List::new(alloc),
            unknown: Recs::new(alloc),
        }
    }

    /// An equal record. The only error is want of memory.
    pub fn copy(&self, alloc: Global) -> Result<FileDescriptorSet, NoMemory>
        ensures { IfOk result (λ copy. copy ≡ self.now) }
    {
        Ok(FileDescriptorSet {
            file: self.file.duplicate(alloc)?,
            unknown: copy_recs(&self.unknown, alloc)?,
        })
    }
}

/// A source file, `google.protobuf.FileDescriptorProto`.
#[derive(Drop)]
pub struct FileDescriptorProto {
    /// The name under which the file is imported.
    pub name: Option<Text>,
    /// The package of its names, without dots at its ends.
    pub package: Option<Text>,
    /// The names of the files that it imports, in the order of the source.
    pub dependency: Texts,
    /// The messages at the top of the file, in the order of the source.
    pub message_type: List<DescriptorProto>,
    /// The enums at the top of the file, in the order of the source.
    pub enum_type: List<EnumDescriptorProto>,
    /// The services, in the order of the source.
    pub service: List<ServiceDescriptorProto>,
    /// The extensions at the top of the file, in the order of the source.
    pub extension: List<FieldDescriptorProto>,
    /// The records of `google.protobuf.FileOptions`.
    pub options: Option<Options>,
    /// Where its parts stand in the source.
    pub source_code_info: Option<SourceCodeInfo>,
    /// The places in `dependency` of those that are imported publicly.
    pub public_dependency: List<i32>,
    /// The places in `dependency` of those that are imported weakly.
    pub weak_dependency: List<i32>,
    /// `proto2` or `proto3`; a file without one is of `proto2`.
    pub syntax: Option<Text>,
    /// The records of numbers that are no field of this one, in order of arrival.
    pub unknown: Recs,
}

impl FileDescriptorProto {
    /// The record with each field absent; takes no memory.
    pub fn new(alloc: Global) -> FileDescriptorProto
        ensures { result ≡ record {
          name = None;
          «package» = None;
          dependency = [];
          message_type = [];
          enum_type = [];
          service = [];
          extension = [];
          options = None;
          source_code_info = None;
          public_dependency = [];
          weak_dependency = [];
          syntax = None;
          unknown = [];
        } }
    {
        FileDescriptorProto {
            name: None,
            package: None,
            dependency: Texts::new(alloc),
            message_type: List::new(alloc),
            enum_type: List::new(alloc),
            service: List::new(alloc),
            extension: List::new(alloc),
            options: None,
            source_code_info: None,
            public_dependency: List::new(alloc),
            weak_dependency: List::new(alloc),
            syntax: None,
            unknown: Recs::new(alloc),
        }
    }

    /// An equal record. The only error is want of memory.
    pub fn copy(&self, alloc: Global) -> Result<FileDescriptorProto, NoMemory>
        ensures { IfOk result (λ copy. copy ≡ self.now) }
    {
        let mut copy = FileDescriptorProto::new(alloc);
        if let Err(error) = self.copy_parts(&mut copy, alloc) {
            drop(copy);
            return Err(error);
        }
        Ok(copy)
    }

    fn copy_parts(&self, to: &mut FileDescriptorProto, alloc: Global) -> Result<(), NoMemory>
        ensures { OnOk result (to.new ≡ self.now) }
    {
        copy_to(&self.name, &mut to.name, alloc)?;
        copy_to(&self.package, &mut to.package, alloc)?;
        copy_to(&self.dependency, &mut to.dependency, alloc)?;
        copy_to(&self.message_type, &mut to.message_type, alloc)?;
        copy_to(&self.enum_type, &mut to.enum_type, alloc)?;
        copy_to(&self.service, &mut to.service, alloc)?;
        copy_to(&self.extension, &mut to.extension, alloc)?;
        copy_to(&self.options, &mut to.options, alloc)?;
        copy_to(&self.source_code_info, &mut to.source_code_info, alloc)?;
        copy_to(&self.public_dependency, &mut to.public_dependency, alloc)?;
        copy_to(&self.weak_dependency, &mut to.weak_dependency, alloc)?;
        copy_to(&self.syntax, &mut to.syntax, alloc)?;
        to.unknown = copy_recs(&self.unknown, alloc)?;
        Ok(())
    }
}
