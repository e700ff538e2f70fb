// A pool that has files, as its copies and descriptors hold it.
ghost use Rattle.std.specs.Prelude.{◌≡◌, IfOk, OnOk, IfSome, IsTrue};
ghost use Rattle.pbx_link_meaning.specs.Shapes.{shape_of as shape_of_files};
ghost use Rattle.pbx_link_shapes.specs.EnumNumbers.{HasEnumNumbers};

use crate::kept::KeptShape;
use pbx_content::Schema;
use pbx_link_pool::Pool;
use pbx_link_shapes::ShapedPool;
use pbx_shared::Shared;
use pbx_wire::NoMemory;
use std::alloc::Global;
use std::marker::Model;

/// A pool that has files, beside the shape of its types where it was asked for. Contracts see the records of the pool.
#[derive(Drop)]
pub(crate) struct PoolHandle {
    pub(crate) pool: Shared<Pool>,
    pub(crate) shape: KeptShape,
}

impl Model for PoolHandle {
    ghost use Rattle.std.specs.Prelude.{List};
    ghost use Rattle.std.specs.Coded.{coded_list};
    ghost use Rattle.pbx_desc_records.specs.contracts.file.FileDescriptorProto as proto;
    ghost use Rattle.pbx_desc_records.specs.declared.file.FileDescriptorProto.{FileDescriptorProto};

    ghost Value = { List FileDescriptorProto };

    ghost coded = { coded_list proto.the_row.coded };

    ghost view = { λ h. h.pool };
}

impl PoolHandle {
    /// The pool, to be held by copies. The only error is want of memory.
    pub(crate) fn new(alloc: Global, pool: Shared<Pool>) -> Result<PoolHandle, NoMemory>
        ensures { IfOk result (λ handle. handle ≡ pool) }
    {
        let shape = KeptShape::new(alloc)?;
        Ok(PoolHandle { pool, shape })
    }

    /// The same pool. It takes no memory.
    pub(crate) fn copy(&self) -> PoolHandle
        ensures { result ≡ self.now }
    {
        PoolHandle {
            pool: self.pool.copy(),
            shape: self.shape.copy(),
        }
    }

    /// The pool, lent.
    pub(crate) fn as_ref(&self) -> &Pool
        ensures { result.now ≡ self.now }
    {
        self.pool.as_ref()
    }

    /// Whether both are copies of one pool.
    pub(crate) fn is_copy_of(&self, other: &PoolHandle) -> bool
        ensures { IsTrue result → self.now ≡ other.now }
    {
        self.pool.ptr_eq(&other.pool)
    }

    /// The pool with the shape of its types, where it was asked for.
    pub(crate) fn shaped(&self) -> Option<&ShapedPool>
        ensures { IfSome result (λ shaped. shaped.now ≡ self.now) }
    {
        self.shape.of(&self.pool)
    }

    /// The shape of the types of the pool, which is kept. The only error is want of memory.
    pub(crate) fn schema(&self, alloc: Global) -> Result<Shared<Schema>, NoMemory>
        ensures is { IfOk result (λ schema. schema ≡ shape_of_files self.now) }
        ensures numbers { OnOk result (HasEnumNumbers (shape_of_files self.now)) }
    {
        if let Some(shaped) = self.shaped() {
            return Ok(shaped.schema());
        }
        let shaped = ShapedPool::new(alloc, self.pool.copy())?;
        let schema = shaped.schema();
        self.shape.keep(shaped);
        Ok(schema)
    }
}
