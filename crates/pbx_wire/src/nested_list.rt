ghost use Rattle.std.specs.Prelude.{◌≡◌, ◌<◌, ◌≤◌, ◌↔◌, Some, [], ◌∷◌, ◌++◌, length, insert, remove, slice_get, IsTrue, IfOk, OnOk, OnErr, MatchResult};

use crate::list::List;
use crate::memory::NoMemory;
use std::alloc::Global;
use std::marker::Model;

/// How many levels of lists may stand in one another below a list: copying, comparing, writing or dropping it takes the stack of a
/// few calls for each.
pub(crate) const DEEPEST: u32 = 1024;

/// A list whose items may hold such lists. Contracts see it as the list of its items.
#[derive(Drop)]
pub struct NestedList<T> {
    items: List<T>,
    /// No fewer levels than those of the items, and at most `DEEPEST`.
    levels: u32,
}

impl<T> Model for NestedList<T> {
    ghost use Rattle.std.specs.Prelude.{List as ListOf};
    ghost use Rattle.std.specs.Coded.{coded_list};

    ghost Value = { ListOf T };

    ghost coded = { coded_list T.code };

    ghost view = { λ it. it.items };
}

impl<T> NestedList<T> {
    /// No items; takes no memory.
    pub fn new(alloc: Global) -> NestedList<T>
        ensures { result ≡ [] }
    {
        NestedList {
            items: List::new(alloc),
            levels: 0,
        }
    }

    /// No items, with room for so many. The only error is want of memory.
    pub fn with_capacity(alloc: Global, capacity: usize) -> Result<NestedList<T>, NoMemory>
        ensures { IfOk result (λ list. list ≡ []) }
    {
        Ok(NestedList {
            items: List::with_capacity(alloc, capacity)?,
            levels: 0,
        })
    }

    /// No fewer levels than those of the items.
    pub(crate) fn levels(&self) -> u32 {
        self.levels
    }

    /// Puts in an item of so many levels. Hands it back, with nothing changed, where these are too many or memory runs out.
    pub(crate) fn push_of_levels(&mut self, item: T, levels: u32) -> Result<(), T>
        ensures { MatchResult result (λ _. self.new ≡ self.old ++ item ∷ [])
            (λ back. (back ≡ item) × (self.new ≡ self.old)) }
    {
        if levels > DEEPEST {
            return Err(item);
        }
        self.items.push(item)?;
        self.levels = self.levels.max(levels);
        Ok(())
    }

    /// Takes the item at `index` out; those after it move up. The list counts as deep as it was.
    pub fn remove(&mut self, index: usize) -> T
        requires { index < length self.old }
        ensures item { slice_get self.old index ≡ Some result }
        ensures rest { self.new ≡ remove self.old index }
    {
        self.items.remove(index)
    }

    /// How many items there are.
    pub fn len(&self) -> usize
        ensures { result ≡ length self.now }
    {
        self.items.len()
    }

    /// Whether there is no item.
    pub fn is_empty(&self) -> bool
        ensures { IsTrue result ↔ (self.now ≡ []) }
    {
        self.items.is_empty()
    }

    /// The items in a vector; takes no memory.
    pub fn into_vec(self) -> Vec<T>
        ensures { result.items ≡ self }
    {
        self.items.into_vec()
    }

    /// The items.
    pub fn as_slice(&self) -> &[T]
        ensures { result.now ≡ self.now }
    {
        self.items.as_slice()
    }
}

impl<T: Drop> NestedList<T> {
    /// Puts in an item of so many levels. Drops it where these are too many or memory runs out.
    pub(crate) fn add_of_levels(&mut self, item: T, levels: u32) -> Result<(), NoMemory>
        ensures ok { OnOk result (self.new ≡ self.old ++ item ∷ []) }
        ensures err { OnErr result (self.new ≡ self.old) }
    {
        if levels > DEEPEST {
            return Err(NoMemory);
        }
        self.items.add(item)?;
        self.levels = self.levels.max(levels);
        Ok(())
    }

    /// Puts in an item of so many levels at `index`. Drops it where these are too many or memory runs out.
    pub(crate) fn insert_of_levels(
        &mut self,
        index: usize,
        item: T,
        levels: u32,
    ) -> Result<(), NoMemory>
        requires { index ≤ length self.old }
        ensures ok { OnOk result (self.new ≡ insert self.old index item) }
        ensures err { OnErr result (self.new ≡ self.old) }
    {
        if levels > DEEPEST {
            return Err(NoMemory);
        }
        self.items.insert(index, item)?;
        self.levels = self.levels.max(levels);
        Ok(())
    }
}
