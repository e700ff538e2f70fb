ghost use Rattle.std.specs.Prelude.{◌≡◌, IfOk, OnOk};

use crate::enumeration::{EnumDescriptorProto, EnumReservedRange, EnumValueDescriptorProto};
use crate::field::{FieldDescriptorProto, OneofDescriptorProto};
use crate::file::FileDescriptorProto;
use crate::message::{DescriptorProto, ExtensionRange, ReservedRange};
use crate::options::Options;
use crate::service::{MethodDescriptorProto, ServiceDescriptorProto};
use crate::source::{Location, SourceCodeInfo};
use pbx_wire::{List, NoMemory, Text};
use std::alloc::Global;

/// A value that has equal ones. The only error is want of memory.
pub(crate) trait Duplicate: Drop + Sized {
    fn duplicate(&self, alloc: Global) -> Result<Self, NoMemory>
        ensures { IfOk result (λ copy. copy ≡ self.now) };
}

/// Puts an equal value in place of the other. A record is copied part by part in this way: nothing that is owned lives where
/// memory runs out.
pub(crate) fn copy_to<T: Duplicate>(from: &T, to: &mut T, alloc: Global) -> Result<(), NoMemory>
    ensures { OnOk result (to.new ≡ from.now) }
{
    *to = from.duplicate(alloc)?;
    Ok(())
}

impl Duplicate for i32 {
    fn duplicate(&self, _alloc: Global) -> Result<i32, NoMemory> {
        Ok(*self)
    }
}

impl Duplicate for Text {
    fn duplicate(&self, alloc: Global) -> Result<Text, NoMemory> {
        self.copy(alloc)
    }
}

impl Duplicate for Options {
    fn duplicate(&self, alloc: Global) -> Result<Options, NoMemory> {
        self.copy(alloc)
    }
}

impl Duplicate for FileDescriptorProto {
    fn duplicate(&self, alloc: Global) -> Result<FileDescriptorProto, NoMemory> {
        self.copy(alloc)
    }
}

impl Duplicate for DescriptorProto {
    fn duplicate(&self, alloc: Global) -> Result<DescriptorProto, NoMemory> {
        self.copy(alloc)
    }
}

impl Duplicate for ExtensionRange {
    fn duplicate(&self, alloc: Global) -> Result<ExtensionRange, NoMemory> {
        self.copy(alloc)
    }
}

impl Duplicate for ReservedRange {
    fn duplicate(&self, alloc: Global) -> Result<ReservedRange, NoMemory> {
        self.copy(alloc)
    }
}

impl Duplicate for FieldDescriptorProto {
    fn duplicate(&self, alloc: Global) -> Result<FieldDescriptorProto, NoMemory> {
        self.copy(alloc)
    }
}

impl Duplicate for OneofDescriptorProto {
    fn duplicate(&self, alloc: Global) -> Result<OneofDescriptorProto, NoMemory> {
        self.copy(alloc)
    }
}

impl Duplicate for EnumDescriptorProto {
    fn duplicate(&self, alloc: Global) -> Result<EnumDescriptorProto, NoMemory> {
        self.copy(alloc)
    }
}

impl Duplicate for EnumReservedRange {
    fn duplicate(&self, alloc: Global) -> Result<EnumReservedRange, NoMemory> {
        self.copy(alloc)
    }
}

impl Duplicate for EnumValueDescriptorProto {
    fn duplicate(&self, alloc: Global) -> Result<EnumValueDescriptorProto, NoMemory> {
        self.copy(alloc)
    }
}

impl Duplicate for ServiceDescriptorProto {
    fn duplicate(&self, alloc: Global) -> Result<ServiceDescriptorProto, NoMemory> {
        self.copy(alloc)
    }
}

impl Duplicate for MethodDescriptorProto {
    fn duplicate(&self, alloc: Global) -> Result<MethodDescriptorProto, NoMemory> {
        self.copy(alloc)
    }
}

impl Duplicate for SourceCodeInfo {
    fn duplicate(&self, alloc: Global) -> Result<SourceCodeInfo, NoMemory> {
        self.copy(alloc)
    }
}

impl Duplicate for Location {
    fn duplicate(&self, alloc: Global) -> Result<Location, NoMemory> {
        self.copy(alloc)
    }
}

impl<T: Duplicate> Duplicate for Option<T> {
    fn duplicate(&self, alloc: Global) -> Result<Option<T>, NoMemory> {
        match self {
            Some(item) => Ok(Some(item.duplicate(alloc)?)),
            None => Ok(None),
        }
    }
}

impl<T: Duplicate> Duplicate for List<T> {
    fn duplicate(&self, alloc: Global) -> Result<List<T>, NoMemory> {
        let mut copies = List::with_capacity(alloc, self.len())?;
        for item in self.as_slice() {
            copies.add(item.duplicate(alloc)?)?;
        }
        Ok(copies)
    }
}
