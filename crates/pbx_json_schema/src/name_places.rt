// Places under names.
ghost use Rattle.std.specs.Prelude.{◌≡◌, None, ℕ, List as ListOf, cond, OnOk};
ghost use Rattle.std.specs.Str.{bytes_eq};
ghost use Rattle.pbx_json_schema.specs.Places.{place_under};

use pbx_wire::NoMemory;
use std::alloc::Global;
use std::collections::BTreeMap;

/// Places in a list under names, of which contracts see the place under each name.
#[derive(Drop)]
pub(crate) struct NamePlaces {
    places: BTreeMap<String, usize>,
}

impl NamePlaces {
    /// Nothing under any name; takes no memory.
    pub(crate) fn new(alloc: Global) -> NamePlaces
        ensures { (name : ListOf ℕ) → place_under name result ≡ None }
    {
        NamePlaces {
            places: BTreeMap::new(alloc),
        }
    }

    /// The place under the name, by log n comparisons.
    pub(crate) fn get(&self, name: &str) -> Option<usize>
        ensures { result ≡ place_under name.now self.now }
    {
        self.places.get(name).copied()
    }

    /// Puts the place under the name.
    pub(crate) fn put(&mut self, alloc: Global, name: &str, place: usize) -> Result<(), NoMemory>
        ensures { OnOk result ((q : ListOf ℕ) → place_under q self.new ≡ cond (bytes_eq name.now q) (Some place) (place_under q self.old)) }
    {
        let key = String::from_str(alloc, name)?;
        self.places.insert(key, place)?;
        Ok(())
    }
}
