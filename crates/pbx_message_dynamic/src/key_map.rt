ghost use Rattle.std.specs.Prelude.{◌≡◌, ◌≤◌, [], length, insert, IfOk, IfErr, MatchResult};
ghost use Rattle.pbx_message_dynamic.specs.Keys.{is_before as is_before_of, with_entry, IsInKeyOrder, place_of as place_of_key, StandsAt, IsGapAt};
ghost use Rattle.pbx_message_dynamic.specs.Keys.{variant_of_key};
ghost use Rattle.pbx_content.specs.Content.{bytes_before as bytes_before_of};

use pbx_content_codec::MapKey;
use std::alloc::Global;
use std::marker::Model;

/// Values under keys. Contracts see the list of pairs by ascending key, each key once.
#[derive(Drop)]
pub struct KeyMap<T> {
    entries: Vec<(MapKey, T)>,
}

impl<T> Model for KeyMap<T> {
    ghost use Rattle.std.specs.Prelude.{List};
    ghost use Rattle.std.specs.Coded.{coded_list, coded×};
    ghost use Rattle.pbx_content_codec.specs.declared.key.MapKey.{MapKey as Key};
    ghost use Rattle.pbx_content_codec.specs.contracts.key.MapKey as key;
    ghost use Rattle.pbx_message_dynamic.specs.Keys.{IsInKeyOrder};

    ghost Value = { List (Key × T) };

    ghost coded = { coded_list (coded× key.the_row.coded T.code) };

    ghost view = { λ m. m.entries.items };

    ghost invariant = { λ m. IsInKeyOrder m.entries.items };
}

impl<T> KeyMap<T> {
    /// No pairs; takes no memory.
    pub fn new(alloc: Global) -> KeyMap<T>
        ensures { result ≡ [] }
    {
        KeyMap {
            entries: Vec::new(alloc),
        }
    }

    /// The pairs by ascending key.
    pub fn as_slice(&self) -> &[(MapKey, T)]
        ensures same { result.now ≡ self.now }
        ensures order { IsInKeyOrder self.now }
    {
        self.entries.as_slice()
    }

    /// The pairs by ascending key, in a vector; takes no memory.
    pub fn into_entries(self) -> Vec<(MapKey, T)>
        ensures same { result.items ≡ self }
        ensures order { IsInKeyOrder self }
    {
        self.entries
    }
}

impl<T: Drop> KeyMap<T> {
    /// Puts the value under the key, in the place of the one that is there. Where memory runs out, both are handed
    /// back and nothing is changed. Log n comparisons, and the pairs of greater keys move down where the key is new.
    pub fn insert(&mut self, key: MapKey, value: T) -> Result<(), (MapKey, T)>
        ensures { MatchResult result (λ _. self.new ≡ with_entry key value self.old)
            (λ back. (back ≡ (key, value)) × (self.new ≡ self.old)) }
    {
        match find(self.entries.as_slice(), &key) {
            Ok(at) => {
                self.entries[at] = (key, value);
                Ok(())
            }
            Err(at) => add_at(&mut self.entries, at, (key, value)),
        }
    }
}

/// Whether the first bytes come before the others.
fn bytes_before(bytes: &[u8], others: &[u8]) -> bool
    ensures { result ≡ bytes_before_of bytes.now others.now }
{
    bytes < others
}

/// The place of the key's variant.
fn variant(key: &MapKey) -> u8
    ensures { result ≡ variant_of_key key.now }
{
    match key {
        MapKey::Bool(_) => 0,
        MapKey::I32(_) => 1,
        MapKey::I64(_) => 2,
        MapKey::U32(_) => 3,
        MapKey::U64(_) => 4,
        MapKey::String(_) => 5,
    }
}

/// Whether the first key stands before the other.
fn is_before(key: &MapKey, other: &MapKey) -> bool
    ensures { result ≡ is_before_of key.now other.now }
{
    match (key, other) {
        (MapKey::Bool(key), MapKey::Bool(other)) => !*key && *other,
        (MapKey::I32(key), MapKey::I32(other)) => *key < *other,
        (MapKey::I64(key), MapKey::I64(other)) => *key < *other,
        (MapKey::U32(key), MapKey::U32(other)) => *key < *other,
        (MapKey::U64(key), MapKey::U64(other)) => *key < *other,
        (MapKey::String(key), MapKey::String(other)) => {
            bytes_before(key.as_str().as_bytes(), other.as_str().as_bytes())
        }
        _ => variant(key) < variant(other),
    }
}

/// How many pairs at the front have lesser keys: by one comparison where all have, as where pairs come by ascending
/// key, and by log n where not.
fn place_of<T>(entries: &[(MapKey, T)], key: &MapKey) -> usize
    requires { IsInKeyOrder entries.now }
    ensures { result ≡ place_of_key key.now entries.now }
{
    let len = entries.len();
    if len > 0 && is_before(&entries[len - 1].0, key) {
        return len;
    }
    let mut low = 0;
    let mut high = len;
    while low < high {
        let middle = low + (high - low) / 2;
        if is_before(&entries[middle].0, key) {
            low = middle + 1;
        } else {
            high = middle;
        }
    }
    low
}

/// Where the key stands, or where it would stand.
fn find<T>(entries: &[(MapKey, T)], key: &MapKey) -> Result<usize, usize>
    requires { IsInKeyOrder entries.now }
    ensures found { IfOk result (λ at. StandsAt key.now at entries.now) }
    ensures missing { IfErr result (λ at. IsGapAt key.now at entries.now) }
{
    let at = place_of(entries, key);
    if at < entries.len() && !is_before(key, &entries[at].0) {
        Ok(at)
    } else {
        Err(at)
    }
}

/// Puts the pair in before what stands at the place. Where there is no room, it makes room for one in a short vector, and
/// in a long one for half as many as it has. Where memory runs out, the pair is handed back.
fn add_at<T>(
    entries: &mut Vec<(MapKey, T)>,
    at: usize,
    entry: (MapKey, T),
) -> Result<(), (MapKey, T)>
    requires { at ≤ length entries.old.items }
    ensures { MatchResult result (λ _. entries.new.items ≡ insert entries.old.items at entry)
        (λ back. (back ≡ entry) × (entries.new.items ≡ entries.old.items)) }
{
    let len = entries.len();
    if len == entries.capacity() && entries.reserve_exact(1.max(len / 2)).is_err() {
        return Err(entry);
    }
    match entries.insert(at, entry) {
        Ok(()) => Ok(()),
        Err(refused) => Err(refused.value),
    }
}
