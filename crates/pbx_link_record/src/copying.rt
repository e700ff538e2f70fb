// Copies of the parts that stay as they are.
ghost use Rattle.std.specs.Prelude.{◌≡◌, IfOk, OnOk};

use pbx_wire::{List, NoMemory, Text};
use std::alloc::Global;

/// A value that has equal ones. The only error is want of memory.
pub(crate) trait Duplicate: Drop + Sized {
    fn duplicate(&self, alloc: Global) -> Result<Self, NoMemory>
        ensures { IfOk result (λ copy. copy ≡ self.now) };
}

/// Puts an equal value in place of the other.
pub(crate) fn copy_to<T: Duplicate>(from: &T, to: &mut T, alloc: Global) -> Result<(), NoMemory>
    ensures { OnOk result (to.new ≡ from.now) }
{
    *to = from.duplicate(alloc)?;
    Ok(())
}

impl Duplicate for i32 {
    fn duplicate(&self, _alloc: Global) -> Result<i32, NoMemory> {
        Ok(*self)
    }
}

impl Duplicate for Text {
    fn duplicate(&self, alloc: Global) -> Result<Text, NoMemory> {
        self.copy(alloc)
    }
}

impl<T: Duplicate> Duplicate for Option<T> {
    fn duplicate(&self, alloc: Global) -> Result<Option<T>, NoMemory> {
        match self {
            Some(item) => Ok(Some(item.duplicate(alloc)?)),
            None => Ok(None),
        }
    }
}

impl<T: Duplicate> Duplicate for List<T> {
    fn duplicate(&self, alloc: Global) -> Result<List<T>, NoMemory> {
        let mut copies = List::with_capacity(alloc, self.len())?;
        for item in self.as_slice() {
            copies.add(item.duplicate(alloc)?)?;
        }
        Ok(copies)
    }
}
