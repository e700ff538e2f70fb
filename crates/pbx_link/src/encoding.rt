// The files of a pool, to be written.
ghost use Rattle.std.specs.Prelude.{◌≡◌, ◌≤◌, IfOk};
ghost use Rattle.pbx_content.specs.Encoding.{encoded};
ghost use Rattle.pbx_content.specs.Same.{Decodes};
ghost use Rattle.pbx_content.specs.Sound.{PartsFit, depth};
ghost use Rattle.pbx_desc_shapes.specs.DescriptorShape.{descriptor_shape};
ghost use Rattle.pbx_desc_encoding.specs.Content.{file_content, files_content};
ghost use Rattle.pbx_desc_encoding.specs.Sets.{DecodesSet, IsSetOf};

use crate::file::FileDescriptor;
use crate::pool::DescriptorPool;
use pbx_desc_encoding::{FileSet, Message};
use pbx_desc_records::FileDescriptorProto;
use pbx_wire::NoMemory;
use std::alloc::Global;

/// The files of a pool in order, to be written as a set. The only error is want of memory.
pub fn file_set(alloc: Global, pool: &DescriptorPool) -> Result<FileSet, NoMemory>
    ensures { IfOk result (λ set. IsSetOf set pool.now) }
{
    let tables = pool.tables();
    let mut set = FileSet::new(alloc)?;
    for table in tables {
        set = set.with_file(alloc, table.as_ref().file())?;
    }
    Ok(set)
}

impl DescriptorPool {
    /// The canonical encoding of the set of all files. The only error is want of memory.
    pub fn encode_to_vec(&self) -> Result<Vec<u8>, NoMemory>
        ensures bytes { IfOk result (λ v. v.items ≡ encoded descriptor_shape 0 (files_content self.now)) }
        // It is read again file by file, where none nests more than 100 levels.
        ensures decodes { IfOk result (λ v. PartsFit (files_content self.now) → DecodesSet v.items (files_content self.now)) }
    {
        let set = file_set(self.alloc, self)?;
        set.encode(self.alloc)
    }
}

impl FileDescriptor {
    /// The linked record.
    pub fn record(&self) -> &FileDescriptorProto
        ensures { result.now ≡ self.now.file }
    {
        self.table.as_ref().file()
    }

    /// A copy of the linked record. The only error is want of memory.
    pub fn file_descriptor_proto(&self, alloc: Global) -> Result<FileDescriptorProto, NoMemory>
        ensures { IfOk result (λ file. file ≡ self.now.file) }
    {
        self.table.as_ref().file().copy(alloc)
    }

    /// The canonical encoding of the linked record. The only error is want of memory.
    pub fn encode_to_vec(&self, alloc: Global) -> Result<Vec<u8>, NoMemory>
        ensures bytes { IfOk result (λ v. v.items ≡ encoded descriptor_shape 1 (file_content self.now.file)) }
        // It is read again where it nests at most 100 levels.
        ensures decodes { IfOk result (λ v. depth (file_content self.now.file) ≤ 100 → Decodes descriptor_shape 1 v.items (file_content self.now.file)) }
    {
        self.table.as_ref().file().encode_to_vec(alloc)
    }
}
