// The shape of a pool's types, kept once it is made.
ghost use Rattle.std.specs.Prelude.{◌≡◌, IfSome};

use pbx_link_pool::Pool;
use pbx_link_shapes::ShapedPool;
use pbx_shared::Shared;
use pbx_wire::NoMemory;
use std::alloc::Global;
use std::cell::OnceCell;

/// A pool with the shape of its types, once it is asked for. The copies of a pool share it.
///
/// It stands beside the pool and not in it, since what it keeps has a handle of the pool.
#[derive(Drop)]
pub(crate) struct KeptShape {
    cell: Shared<OnceCell<ShapedPool>>,
}

impl KeptShape {
    /// One that keeps nothing yet. The only error is want of memory.
    pub(crate) fn new(alloc: Global) -> Result<KeptShape, NoMemory> {
        match Shared::new(alloc, OnceCell::new()) {
            Ok(cell) => Ok(KeptShape { cell }),
            Err(_) => Err(NoMemory),
        }
    }

    /// The same one. It takes no memory.
    pub(crate) fn copy(&self) -> KeptShape {
        KeptShape {
            cell: self.cell.copy(),
        }
    }

    /// What it keeps, where that was made of this handle's pool.
    pub(crate) fn of(&self, pool: &Shared<Pool>) -> Option<&ShapedPool>
        ensures { IfSome result (λ shaped. shaped.now ≡ pool.now) }
    {
        match self.cell.as_ref().get() {
            Some(shaped) if shaped.is_of(pool) => Some(shaped),
            _ => None,
        }
    }

    /// Keeps it, unless another is kept.
    pub(crate) fn keep(&self, shaped: ShapedPool) {
        let _ = self.cell.as_ref().set(shaped);
    }

    /// One that keeps nothing: this one where no copy of the pool has it, or else a new one. Where memory runs out it is this one as it was.
    pub(crate) fn emptied(self, alloc: Global) -> Result<KeptShape, KeptShape> {
        match self.cell.into_unique() {
            Ok(alone) => {
                let mut alone = alone;
                drop(alone.get_mut().take());
                Ok(KeptShape {
                    cell: alone.share(),
                })
            }
            Err(cell) => match KeptShape::new(alloc) {
                Ok(kept) => Ok(kept),
                Err(NoMemory) => Err(KeptShape { cell }),
            },
        }
    }
}
