// Where the parts of each file begin among those of all files.
ghost use Rattle.std.specs.Prelude.{◌≡◌, ◌+◌, ◌<◌, ◌++◌, ◌∷◌, [], ℕ, Some, slice_get, OnOk, List as ListOf};
ghost use Rattle.pbx_link_shapes.specs.Starts.{AreStarts};

use pbx_wire::{List, NoMemory};
use std::alloc::Global;

/// Where the parts of each file begin among those of all files, and how many there are.
#[derive(Drop)]
pub(crate) struct Starts {
    pub(crate) starts: List<usize>,
    pub(crate) count: usize,
}

impl Starts {
    /// Those of no files.
    pub(crate) fn new(alloc: Global) -> Starts
        ensures { AreStarts [] result }
    {
        Starts {
            starts: List::new(alloc),
            count: 0,
        }
    }

    /// Adds a file with so many parts.
    pub(crate) fn add(&mut self, count: usize) -> Result<(), NoMemory>
        ensures { OnOk result ((ns : ListOf ℕ) → AreStarts ns self.old → AreStarts (ns ++ count ∷ []) self.new) }
    {
        match self.count.checked_add(count) {
            Some(sum) => {
                self.starts.add(self.count)?;
                self.count = sum;
                Ok(())
            }
            None => Err(NoMemory),
        }
    }

    /// The place among all of the part of this index in the file of that one.
    pub(crate) fn place(&self, file: usize, index: usize) -> Option<usize>
        ensures { (start : ℕ) → slice_get self.now.starts file ≡ Some start → start + index < self.now.count → result ≡ Some (start + index) }
    {
        match self.starts.as_slice().get(file) {
            Some(start) if *start < self.count && index < self.count - *start => {
                Some(*start + index)
            }
            _ => None,
        }
    }
}
