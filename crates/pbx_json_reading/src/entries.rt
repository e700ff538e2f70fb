// What is kept while the keys of an object of entries are read.
ghost use Rattle.std.specs.Prelude.{◌≡◌, Some, OnOk, IfOk, IfSome, option_map, map};
ghost use Rattle.std.specs.Int.{w128};
ghost use Rattle.std.specs.Int.RustNames.{FitsSigned};
ghost use Rattle.pbx_content.specs.Content.{by_key as by_key_of, pairs_of};
ghost use Rattle.pbx_content_codec.specs.View.{val_of, key_of, pair_of};
ghost use Rattle.pbx_content_codec.specs.Keyed.{number_in};
ghost use Rattle.pbx_json_walk.specs.Walk.{no_entries, is_used as is_used_of, number_of_key, with_used, with_pair_of, with_entry, map_value};
ghost use Rattle.pbx_json_reading.specs.States.{entries_of};

use pbx_content_codec::{Held, MapKey, Pair, are_in_order, put_pair};
use pbx_wire::{List, NoMemory};
use std::alloc::Global;
use std::collections::BTreeSet;

/// The numbers that keys were read as, and the pairs so far.
#[derive(Drop)]
pub(crate) struct MapEntries {
    numbers: BTreeSet<i128>,
    pairs: List<Pair>,
}

/// The number that a key is.
fn number(key: &MapKey) -> Option<i128>
    ensures is { result ≡ number_of_key (key_of key.now) }
    ensures fits { IfSome result (λ n. FitsSigned w128 n) }
{
    match key {
        MapKey::Bool(_) => None,
        MapKey::I32(value) => Some(i128::from(*value)),
        MapKey::I64(value) => Some(i128::from(*value)),
        MapKey::U32(value) => Some(i128::from(*value)),
        MapKey::U64(value) => Some(i128::from(*value)),
        MapKey::String(_) => None,
    }
}

impl MapEntries {
    /// No entries.
    pub(crate) fn new(alloc: Global) -> MapEntries
        ensures { entries_of result ≡ no_entries }
    {
        MapEntries {
            numbers: BTreeSet::new(alloc),
            pairs: List::new(alloc),
        }
    }

    /// Whether a key was read as the same number. Other keys that are read alike are one key.
    pub(crate) fn is_used(&self, key: &MapKey) -> bool
        ensures { result ≡ is_used_of (key_of key.now) (entries_of self.now).numbers }
    {
        match number(key) {
            Some(number) => self.numbers.contains(&number),
            None => false,
        }
    }

    /// With the number of a key.
    fn use_key(&mut self, key: &MapKey) -> Result<(), NoMemory>
        ensures numbers { OnOk result (self.new.numbers ≡ with_used (key_of key.now) self.old.numbers) }
        ensures pairs { self.new.pairs ≡ self.old.pairs }
    {
        match number(key) {
            Some(number) => match self.numbers.insert(number) {
                Ok(_) => Ok(()),
                Err(_) => Err(NoMemory),
            },
            None => Ok(()),
        }
    }

    /// With a pair, if there is a value.
    fn add_pair(&mut self, key: MapKey, held: Option<Held>) -> Result<(), NoMemory>
        ensures numbers { self.new.numbers ≡ self.old.numbers }
        ensures pairs { OnOk result (map pair_of self.new.pairs ≡ with_pair_of (key_of key) (option_map val_of held) (map pair_of self.old.pairs)) }
    {
        match held {
            Some(held) => self.pairs.add(Pair { key, held }),
            None => Ok(()),
        }
    }

    /// With an entry.
    pub(crate) fn add(&mut self, key: MapKey, held: Option<Held>) -> Result<(), NoMemory>
        ensures { OnOk result (entries_of self.new ≡ with_entry (key_of key) (entries_of self.old) (option_map val_of held)) }
    {
        if self.use_key(&key).is_err() {
            drop(held);
            return Err(NoMemory);
        }
        self.add_pair(key, held)
    }

    /// The pairs by ascending key, as a value.
    pub(crate) fn into_value(self, alloc: Global) -> Result<Held, NoMemory>
        ensures { IfOk result (λ held. Some (val_of held) ≡ map_value (entries_of self)) }
    {
        Ok(Held::Pairs(sorted(alloc, self.pairs)?))
    }
}

/// The number that a key is; of a key that is none 0.
fn number_or_zero(key: &MapKey) -> i128
    ensures { result ≡ number_in (key_of key.now) }
{
    match number(key) {
        Some(number) => number,
        None => 0,
    }
}

/// The pairs by the numbers that their keys are, and those of one number in their order.
fn by_number(pairs: List<Pair>) -> Result<Vec<Pair>, NoMemory>
    ensures { IfOk result (λ moved. by_key_of (map pair_of moved.items) ≡ by_key_of (map pair_of pairs)) }
{
    let mut pairs = pairs.into_vec();
    pairs.sort_by_key(|pair| number_or_zero(&pair.key))?;
    Ok(pairs)
}

/// The pairs by ascending key, of each key the last, one after another.
fn by_key(alloc: Global, pairs: Vec<Pair>) -> Result<List<Pair>, NoMemory>
    ensures { IfOk result (λ sorted. pairs_of (map pair_of sorted) ≡ by_key_of (map pair_of pairs.items)) }
{
    let mut sorted = List::new(alloc);
    for pair in pairs {
        put_pair(&mut sorted, pair.key, pair.held)?;
    }
    Ok(sorted)
}

/// The pairs by ascending key. Mostly they are so already. Else they are sorted by number first, so that each is put in behind
/// those before it: numbers come by their digits, and truths and texts in their order.
fn sorted(alloc: Global, pairs: List<Pair>) -> Result<List<Pair>, NoMemory>
    ensures { IfOk result (λ sorted. pairs_of (map pair_of sorted) ≡ by_key_of (map pair_of pairs)) }
{
    if are_in_order(pairs.as_slice()) {
        return Ok(pairs);
    }
    by_key(alloc, by_number(pairs)?)
}
