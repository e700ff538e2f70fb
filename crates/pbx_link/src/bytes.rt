// Files that are read from bytes.
ghost use Rattle.std.specs.Prelude.{◌≡◌, ◌++◌, [], Some, IfOk, IfErr, OnOk, OnErr};
ghost use Rattle.pbx_content.specs.Meaning.{meaning_of};
ghost use Rattle.pbx_content.specs.Faults.{IsFaultOf, IsToldFault};
ghost use Rattle.pbx_link.specs.Bytes.{IsFileAdded, IsFileRefused, AreAdded, IsSetRefused, AreRefused, with_files, undecoded_as};

use crate::pool::DescriptorPool;
use pbx_desc::DecodeMessage;
use pbx_desc_records::{FileDescriptorProto, FileDescriptorSet};
use pbx_link_definitions::DescriptorError;
use pbx_wire::{DecodeError, List};
use std::alloc::Global;

/// The fault of bytes, where want of memory is that of the pool.
fn undecoded(fault: DecodeError) -> DescriptorError
    ensures { result ≡ undecoded_as fault }
{
    match fault {
        DecodeError::NoMemory => DescriptorError::NoMemory,
        fault => DescriptorError::Decode(fault),
    }
}

impl DescriptorPool {
    /// The pool with the records, one after another. The pool is dropped where one is refused.
    fn with_all(self, files: List<FileDescriptorProto>) -> Result<DescriptorPool, DescriptorError>
        ensures added { IfOk result (λ pool. with_files self files ≡ Some pool) }
        ensures refused { IfErr result (AreRefused self files) }
    {
        let mut pool = self;
        for file in files.into_vec() {
            pool.add_file_descriptor_proto(file)?;
        }
        Ok(pool)
    }

    /// The pool of the files of a `google.protobuf.FileDescriptorSet`, in the order of the set, where each has 100 levels of its own. Each
    /// file is linked among those before it, so imports come first. Bytes that decode to no set are `Decode`, before any rule is looked at.
    pub fn decode(alloc: Global, bytes: &[u8]) -> Result<DescriptorPool, DescriptorError>
        ensures decoded { IfOk result (AreAdded [] bytes.now) }
        ensures refused { IfErr result (IsSetRefused [] bytes.now) }
    {
        let mut pool = DescriptorPool::new(alloc)?;
        pool.decode_file_descriptor_set(bytes)?;
        Ok(pool)
    }

    /// Adds the file of the bytes of a `google.protobuf.FileDescriptorProto`, as `add_file_descriptor_proto` does. A refused call changes
    /// nothing. Bytes that decode to no file are `Decode`, before any rule is looked at.
    pub fn decode_file_descriptor_proto(&mut self, bytes: &[u8]) -> Result<(), DescriptorError>
        ensures added { OnOk result (IsFileAdded self.old bytes.now self.new) }
        ensures refused { IfErr result (IsFileRefused self.old bytes.now) }
        ensures unchanged { OnErr result (self.new ≡ self.old) }
    {
        match FileDescriptorProto::decode(self.alloc, bytes) {
            Ok(file) => self.add_file_descriptor_proto(file),
            Err(fault) => Err(undecoded(fault)),
        }
    }

    /// Adds the files of a `google.protobuf.FileDescriptorSet` in the order of the set, all or none, each linked among those before it. A
    /// refused call changes nothing. Bytes that decode to no set are `Decode`, before any rule is looked at.
    pub fn decode_file_descriptor_set(&mut self, bytes: &[u8]) -> Result<(), DescriptorError>
        ensures added { OnOk result (AreAdded self.old bytes.now self.new) }
        ensures refused { IfErr result (IsSetRefused self.old bytes.now) }
        ensures unchanged { OnErr result (self.new ≡ self.old) }
    {
        let files = match FileDescriptorSet::decode(self.alloc, bytes) {
            Ok(set) => set.file,
            Err(fault) => return Err(undecoded(fault)),
        };
        *self = self.copy().with_all(files)?;
        Ok(())
    }
}
