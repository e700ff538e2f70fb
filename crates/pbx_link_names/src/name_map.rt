// Values under names.
ghost use Rattle.std.specs.Prelude.{◌≡◌, None, ℕ, List as ListOf, true, cond, is_some, option_map, IfOk, OnOk, OnErr};
ghost use Rattle.std.specs.Option.{option_or};
ghost use Rattle.std.specs.Str.{bytes_eq};
ghost use Rattle.pbx_link_names.specs.Names.{under, first_under, without, without_items};

use pbx_wire::{NoMemory, Text};
use std::alloc::Global;
use std::collections::BTreeMap;

/// Values under names, of which contracts see what is found under each name.
#[derive(Drop)]
pub struct NameMap<V> {
    values: BTreeMap<String, V>,
}

impl<V: Copy> NameMap<V> {
    /// Nothing under any name; takes no memory.
    pub fn new(alloc: Global) -> NameMap<V>
        ensures { (name : ListOf ℕ) → under name result ≡ None }
    {
        NameMap {
            values: BTreeMap::new(alloc),
        }
    }

    /// The value under the name, by log n comparisons.
    pub fn get(&self, name: &str) -> Option<&V>
        ensures { option_map (λ value. value.now) result ≡ under name.now self.now }
    {
        self.values.get(name)
    }

    /// Puts the value in place of that under the name, which is there.
    fn put_back(&mut self, name: &str, value: V)
        requires { is_some (under name.now self.old) ≡ true }
        ensures { (q : ListOf ℕ) → under q self.new ≡ cond (bytes_eq name.now q) (Some value) (under q self.old) }
    {
        if let Some(place) = self.values.get_mut(name) {
            *place = value;
        }
    }

    /// Puts the value under the name and gives what was there before. A refused call changes nothing.
    fn put(&mut self, alloc: Global, name: &str, value: V) -> Result<Option<V>, NoMemory>
        ensures old { IfOk result (λ old. old ≡ under name.now self.old) }
        ensures put { OnOk result ((q : ListOf ℕ) → under q self.new ≡ cond (bytes_eq name.now q) (Some value) (under q self.old)) }
        ensures err { OnErr result ((q : ListOf ℕ) → under q self.new ≡ under q self.old) }
    {
        let key = String::from_str(alloc, name)?;
        Ok(self.values.insert(key, value)?)
    }

    /// Takes what is under these names out.
    fn remove_all(&mut self, names: &[&Text])
        ensures { (q : ListOf ℕ) → under q self.new ≡ without q names.now (under q self.old) }
    {
        for name in names {
            self.values.remove(name.as_str());
        }
    }

    /// Puts the value under the name and notes the name, where nothing is under it yet. With the noted names taken out, the map is
    /// as it was, also where memory runs out.
    fn add_new<'a>(
        &mut self,
        alloc: Global,
        name: &'a Text,
        value: V,
        added: &mut Vec<&'a Text>,
    ) -> Result<(), NoMemory>
        ensures added { OnOk result ((q : ListOf ℕ) → under q self.new ≡ option_or (under q self.old) (cond (bytes_eq name.now q) (Some value) None)) }
        ensures undone { (q : ListOf ℕ) → without q added.new.items (under q self.new) ≡ without q added.old.items (under q self.old) }
    {
        added.push(name)?;
        match self.put(alloc, name.as_str(), value) {
            Ok(None) => Ok(()),
            Ok(Some(old)) => {
                self.put_back(name.as_str(), old);
                added.pop();
                Ok(())
            }
            Err(error) => {
                added.pop();
                Err(error)
            }
        }
    }

    /// Puts the value of each item under its name, where nothing is under the name yet: of what is there and of several items of
    /// one name, the first counts. A refused call changes nothing. The only error is want of memory.
    pub fn add_all(&mut self, alloc: Global, items: &[(Text, V)]) -> Result<(), NoMemory>
        ensures ok { OnOk result ((name : ListOf ℕ) → under name self.new ≡ option_or (under name self.old) (first_under name items.now)) }
        ensures err { OnErr result ((name : ListOf ℕ) → under name self.new ≡ under name self.old) }
    {
        let mut added = Vec::with_capacity(alloc, items.len())?;
        for (name, value) in items {
            if self.add_new(alloc, name, *value, &mut added).is_err() {
                self.remove_all(added.as_slice());
                return Err(NoMemory);
            }
        }
        Ok(())
    }

    /// Takes what is under the names of the items out.
    pub fn forget(&mut self, items: &[(Text, V)])
        ensures { (name : ListOf ℕ) → under name self.new ≡ without_items name items.now (under name self.old) }
    {
        for (name, _) in items {
            self.values.remove(name.as_str());
        }
    }
}
