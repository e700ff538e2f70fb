// Numbers under names.
ghost use Rattle.std.specs.Prelude.{◌≡◌, false, not, ◌&&◌, ◌||◌, ℕ, ℤ, List as ListOf, OnOk, OnErr};
ghost use Rattle.pbx_link_names.specs.Numbers.{is_there, is_item, is_among, is_noted};

use pbx_wire::{NoMemory, Text};
use std::alloc::Global;
use std::collections::{BTreeMap, BTreeSet};

/// Names with numbers, of which contracts see which are there together.
#[derive(Drop)]
pub struct NumberedNames {
    numbers: BTreeMap<String, BTreeSet<i32>>,
}

impl NumberedNames {
    /// No name with any number; takes no memory.
    pub fn new(alloc: Global) -> NumberedNames
        ensures { (name : ListOf ℕ) (number : ℤ) → is_there name number result ≡ false }
    {
        NumberedNames {
            numbers: BTreeMap::new(alloc),
        }
    }

    /// Whether the name and the number are there together, by log n comparisons; takes no memory.
    pub fn contains(&self, name: &str, number: i32) -> bool
        ensures { result ≡ is_there name.now number self.now }
    {
        match self.numbers.get(name) {
            Some(numbers) => numbers.contains(&number),
            None => false,
        }
    }

    /// Adds the number under the name. A refused call changes nothing.
    fn add(&mut self, alloc: Global, name: &str, number: i32) -> Result<(), NoMemory>
        ensures ok { OnOk result ((q : ListOf ℕ) (z : ℤ) → is_there q z self.new ≡ (is_there q z self.old || is_item q z (name.now, number))) }
        ensures err { OnErr result ((q : ListOf ℕ) (z : ℤ) → is_there q z self.new ≡ is_there q z self.old) }
    {
        if let Some(numbers) = self.numbers.get_mut(name) {
            numbers.insert(number)?;
            return Ok(());
        }
        let mut numbers = BTreeSet::new(alloc);
        numbers.insert(number)?;
        let key = String::from_str(alloc, name)?;
        self.numbers.insert(key, numbers)?;
        Ok(())
    }

    /// Takes the number under the name out.
    fn remove(&mut self, name: &str, number: i32)
        ensures { (q : ListOf ℕ) (z : ℤ) → is_there q z self.new ≡ (is_there q z self.old && not (is_item q z (name.now, number))) }
    {
        if let Some(numbers) = self.numbers.get_mut(name) {
            numbers.remove(&number);
        }
    }

    /// Takes these out.
    fn remove_all(&mut self, items: &[&(Text, i32)])
        ensures { (q : ListOf ℕ) (z : ℤ) → is_there q z self.new ≡ (is_there q z self.old && not (is_noted q z items.now)) }
    {
        for item in items {
            let number = item.1;
            self.remove(item.0.as_str(), number);
        }
    }

    /// Adds the item and notes it, where it is not there yet. With the noted items taken out, the names are as they were, also where
    /// memory runs out.
    fn add_new<'a>(
        &mut self,
        alloc: Global,
        item: &'a (Text, i32),
        added: &mut Vec<&'a (Text, i32)>,
    ) -> Result<(), NoMemory>
        ensures added { OnOk result ((q : ListOf ℕ) (z : ℤ) → is_there q z self.new ≡ (is_there q z self.old || is_item q z item.now)) }
        ensures undone { (q : ListOf ℕ) (z : ℤ) →
            (is_there q z self.new && not (is_noted q z added.new.items)) ≡ (is_there q z self.old && not (is_noted q z added.old.items)) }
    {
        let name = item.0.as_str();
        let number = item.1;
        if self.contains(name, number) {
            return Ok(());
        }
        added.push(item)?;
        self.add(alloc, name, number)
    }

    /// Adds each item's number under its name. A refused call changes nothing. The only error is want of memory.
    pub fn add_all(&mut self, alloc: Global, items: &[(Text, i32)]) -> Result<(), NoMemory>
        ensures ok { OnOk result ((name : ListOf ℕ) (number : ℤ) →
            is_there name number self.new ≡ (is_there name number self.old || is_among name number items.now)) }
        ensures err { OnErr result ((name : ListOf ℕ) (number : ℤ) → is_there name number self.new ≡ is_there name number self.old) }
    {
        let mut added = Vec::with_capacity(alloc, items.len())?;
        for item in items {
            if self.add_new(alloc, item, &mut added).is_err() {
                self.remove_all(added.as_slice());
                return Err(NoMemory);
            }
        }
        Ok(())
    }
}
