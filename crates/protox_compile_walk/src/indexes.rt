// Indexes under names, in a tree by name.
ghost use Rattle.std.specs.Prelude.{◌≡◌, ◌++◌, ◌∷◌, [], ℕ, List, Some, None, cond, length, OnOk, OnErr};
ghost use Rattle.std.specs.Str.{bytes_eq};
ghost use Rattle.protox_compile_walk.specs.Indexes.{index_under, AreIndexed};

use pbx_wire::NoMemory;
use std::alloc::Global;
use std::collections::BTreeMap;

/// The first index of each of many names, of which contracts see what is found under each name.
#[derive(Drop)]
pub(crate) struct Indexes {
    values: BTreeMap<String, usize>,
}

impl Indexes {
    /// No names; takes no memory.
    pub(crate) fn new(alloc: Global) -> Indexes
        ensures { AreIndexed result [] }
    {
        Indexes {
            values: BTreeMap::new(alloc),
        }
    }

    /// The index under the name, by log n comparisons.
    pub(crate) fn get(&self, name: &str) -> Option<usize>
        ensures { result ≡ index_under name.now self.now }
    {
        self.values.get(name).copied()
    }

    /// Puts the index under the name.
    fn put(&mut self, alloc: Global, name: &str, index: usize) -> Result<(), NoMemory>
        ensures ok { OnOk result ((q : List ℕ) → index_under q self.new ≡ cond (bytes_eq name.now q) (Some index) (index_under q self.old)) }
        ensures err { OnErr result ((q : List ℕ) → index_under q self.new ≡ index_under q self.old) }
    {
        let key = String::from_str(alloc, name)?;
        self.values.insert(key, index)?;
        Ok(())
    }

    /// Puts the name behind others, of which there are so many.
    pub(crate) fn push(&mut self, alloc: Global, name: &str, index: usize) -> Result<(), NoMemory>
        ensures ok { OnOk result ((names : List (List ℕ)) → length names ≡ index → AreIndexed self.old names → AreIndexed self.new (names ++ name.now ∷ [])) }
        ensures err { OnErr result ((names : List (List ℕ)) → AreIndexed self.old names → AreIndexed self.new names) }
    {
        if self.get(name).is_some() {
            return Ok(());
        }
        self.put(alloc, name, index)
    }

    /// Takes the name out that stands behind others, of which there are so many.
    pub(crate) fn pop(&mut self, name: &str, index: usize)
        ensures { (names : List (List ℕ)) → length names ≡ index → AreIndexed self.old (names ++ name.now ∷ []) → AreIndexed self.new names }
    {
        if self.get(name) == Some(index) {
            self.values.remove(name);
        }
    }
}
