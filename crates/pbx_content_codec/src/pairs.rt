ghost use Rattle.std.specs.Prelude.{◌≡◌, ◌<◌, ◌≤◌, ◌++◌, ◌∷◌, [], true, length, insert, remove, map, IfOk, OnOk, option_map};
ghost use Rattle.pbx_content.specs.Content.{key_before, bytes_before as bytes_before_of, keyed, pairs_of, by_key as by_key_of};
ghost use Rattle.pbx_content.specs.Content.{get, fields as fields_of_content};
ghost use Rattle.pbx_content.specs.Meaning.{zero_of, key_in, or_else, pair_in};
ghost use Rattle.pbx_content.specs.Onto.{pairs_held as pairs_held_of};
ghost use Rattle.pbx_content_codec.specs.View.{content_of, val_of, key_of, pair_of};
ghost use Rattle.pbx_content_codec.specs.Keyed.{number_in, AreInOrder, IsPlaceOf, stands_at as stands_at_of};

use crate::contents::{Contents, Held, Pair};
use crate::defaults::kind_default;
use crate::key::MapKey;
use pbx_content::{Kind, Schema};
use pbx_wire::{List, NoMemory};
use std::alloc::Global;

/// The number that a key is; of a key that is none 0.
fn number(key: &MapKey) -> i128
    ensures { result ≡ number_in (key_of key.now) }
{
    match key {
        MapKey::Bool(_) => 0,
        MapKey::I32(value) => i128::from(*value),
        MapKey::I64(value) => i128::from(*value),
        MapKey::U32(value) => i128::from(*value),
        MapKey::U64(value) => i128::from(*value),
        MapKey::String(_) => 0,
    }
}

/// Whether the first bytes come before the others.
fn bytes_before(a: &[u8], b: &[u8]) -> bool
    ensures { result ≡ bytes_before_of a.now b.now }
{
    a < b
}

/// Whether the first key comes before the other.
fn is_before(a: &MapKey, b: &MapKey) -> bool
    ensures { result ≡ key_before (key_of a.now) (key_of b.now) }
{
    match a {
        MapKey::Bool(x) => match b {
            MapKey::Bool(y) => !*x && *y,
            _ => true,
        },
        MapKey::String(x) => match b {
            MapKey::String(y) => bytes_before(x.as_str().as_bytes(), y.as_str().as_bytes()),
            _ => false,
        },
        _ => match b {
            MapKey::Bool(_) => false,
            MapKey::String(_) => true,
            _ => number(a) < number(b),
        },
    }
}

/// How many keys come before this one, by log n comparisons.
fn place_of(pairs: &[Pair], key: &MapKey) -> usize
    requires { AreInOrder (map pair_of pairs.now) }
    ensures { IsPlaceOf (key_of key.now) result (map pair_of pairs.now) }
{
    let mut low = 0;
    let mut high = pairs.len();
    while low < high {
        let middle = low + (high - low) / 2;
        if is_before(&pairs[middle].key, key) {
            low = middle + 1;
        } else {
            high = middle;
        }
    }
    low
}

/// Whether the key stands at the place, where those before it come before the key.
fn stands_at(pairs: &[Pair], place: usize, key: &MapKey) -> bool
    ensures { result ≡ stands_at_of (key_of key.now) place (map pair_of pairs.now) }
{
    if place >= pairs.len() {
        return false;
    }
    !is_before(key, &pairs[place].key)
}

/// Puts the pair at its key, in the place of the one that is there: log n comparisons, and the pairs of greater keys move
/// down where the key is new. The only error is want of memory, and what the list then holds is left open.
pub fn put_pair(pairs: &mut List<Pair>, key: MapKey, held: Held) -> Result<(), NoMemory>
    requires { AreInOrder (map pair_of pairs.old) }
    ensures { OnOk result (pairs_of (map pair_of pairs.new) ≡ by_key_of (map pair_of pairs.old ++ (key_of key, val_of held) ∷ [])) }
{
    let place = place_of(pairs.as_slice(), &key);
    if stands_at(pairs.as_slice(), place, &key) {
        return replace_pair(pairs, place, Pair { key, held });
    }
    insert_pair(pairs, place, Pair { key, held })
}

/// The pairs with this one at the place.
fn insert_pair(pairs: &mut List<Pair>, place: usize, pair: Pair) -> Result<(), NoMemory>
    requires { place ≤ length pairs.old }
    ensures { OnOk result (pairs.new ≡ insert pairs.old place pair) }
{
    pairs.insert(place, pair)
}

/// The pairs with this one in the place of another.
fn replace_pair(pairs: &mut List<Pair>, place: usize, pair: Pair) -> Result<(), NoMemory>
    requires { place < length pairs.old }
    ensures { OnOk result (pairs.new ≡ insert (remove pairs.old place) place pair) }
{
    drop_pair(pairs, place);
    pairs.insert(place, pair)
}

/// Whether each key comes before the next.
pub fn are_in_order(pairs: &[Pair]) -> bool
    ensures order { result ≡ true → AreInOrder (map pair_of pairs.now) }
    ensures always { AreInOrder (map pair_of pairs.now) → result ≡ true }
{
    let mut place = pairs.len();
    while place > 1 {
        if !is_before(&pairs[place - 2].key, &pairs[place - 1].key) {
            return false;
        }
        place -= 1;
    }
    true
}

/// The pairs by ascending key, of each key the last.
pub(crate) fn by_key(alloc: Global, pairs: List<Pair>) -> Result<List<Pair>, NoMemory>
    ensures { IfOk result (λ sorted. pairs_of (map pair_of sorted) ≡ by_key_of (map pair_of pairs)) }
{
    let mut sorted = List::new(alloc);
    for pair in pairs.into_vec() {
        put_pair(&mut sorted, pair.key, pair.held)?;
    }
    Ok(sorted)
}

/// Drops the pair at the place.
fn drop_pair(pairs: &mut List<Pair>, place: usize)
    requires { place < length pairs.old }
    ensures { pairs.new ≡ remove pairs.old place }
{
    pairs.remove(place);
}

/// The value as a key.
fn key_held(held: Held) -> MapKey
    ensures { key_of result ≡ key_in (val_of held) }
{
    match held {
        Held::I32(value) => MapKey::I32(value),
        Held::I64(value) => MapKey::I64(value),
        Held::U32(value) => MapKey::U32(value),
        Held::U64(value) => MapKey::U64(value),
        Held::Bool(value) => MapKey::Bool(value),
        Held::Text(text) => MapKey::String(text),
        other => {
            drop(other);
            MapKey::Bool(false)
        }
    }
}

/// The value, or the default of the kind where there is none.
fn or_zero(alloc: Global, schema: &Schema, kind: Kind, held: Option<Held>) -> Result<Held, NoMemory>
    ensures { IfOk result (λ value. val_of value ≡ or_else (option_map val_of held) (zero_of schema.now kind)) }
{
    match held {
        Some(held) => Ok(held),
        None => kind_default(alloc, schema, kind),
    }
}

/// The pairs that a field has.
#[tactic(auto, using(crate::proofs::Tree::pairs_there))]
pub(crate) fn pairs_held(alloc: Global, old: Option<Held>) -> List<Pair>
    ensures { map pair_of result ≡ pairs_held_of (option_map val_of old) }
{
    match old {
        Some(Held::Pairs(pairs)) => pairs,
        other => {
            drop(other);
            List::new(alloc)
        }
    }
}

/// The pair that an entry is; its key and value are taken out.
fn entry_pair(
    alloc: Global,
    schema: &Schema,
    key: Kind,
    kind: Kind,
    entry: &mut Contents,
) -> Result<Pair, NoMemory>
    ensures { IfOk result (λ pair. pair_of pair ≡ pair_in schema.now key kind (content_of entry.old)) }
{
    let own = key_held(or_zero(alloc, schema, key, entry.take(1))?);
    match or_zero(alloc, schema, kind, entry.take(2)) {
        Ok(held) => Ok(Pair { key: own, held }),
        Err(error) => {
            drop(own);
            Err(error)
        }
    }
}

/// Puts the pair that an entry is at its key.
fn add_entry(
    alloc: Global,
    schema: &Schema,
    key: Kind,
    kind: Kind,
    pairs: &mut List<Pair>,
    entry: Contents,
) -> Result<(), NoMemory>
    requires { AreInOrder (map pair_of pairs.old) }
    ensures { OnOk result (pairs_of (map pair_of pairs.new) ≡ by_key_of (map pair_of pairs.old ++ pair_in schema.now key kind (content_of entry) ∷ [])) }
{
    let mut entry = entry;
    let made = entry_pair(alloc, schema, key, kind, &mut entry);
    drop(entry);
    match made {
        Ok(pair) => put_pair(pairs, pair.key, pair.held),
        Err(error) => Err(error),
    }
}

/// The pairs with that of an entry at its key.
pub(crate) fn with_entry(
    alloc: Global,
    schema: &Schema,
    key: Kind,
    kind: Kind,
    pairs: List<Pair>,
    entry: Contents,
) -> Result<Held, NoMemory>
    requires { AreInOrder (map pair_of pairs) }
    ensures { IfOk result (λ all. val_of all ≡ keyed (by_key_of (map pair_of pairs ++ pair_in schema.now key kind (content_of entry) ∷ []))) }
{
    let mut pairs = pairs;
    match add_entry(alloc, schema, key, kind, &mut pairs, entry) {
        Ok(()) => Ok(Held::Pairs(pairs)),
        Err(error) => {
            drop(pairs);
            Err(error)
        }
    }
}
