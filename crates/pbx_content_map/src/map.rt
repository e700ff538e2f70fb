ghost use Rattle.std.specs.Prelude.{◌≡◌, ◌≤◌, [], length, insert, option_map, IsTrue, IfOk, IfErr, OnOk, OnErr};
ghost use Rattle.pbx_content_map.specs.Entries.{IsAscending, value_under, without, with_entry, with_entries, place_of as place_of_number, StandsAt, IsGapAt};

use pbx_wire::NoMemory;
use std::alloc::Global;
use std::marker::Model;

/// Values under numbers, which contracts see as the list of pairs by ascending number, each number once.
#[derive(Drop)]
pub struct NumberMap<T> {
    entries: Vec<(u32, T)>,
}

impl<T> Model for NumberMap<T> {
    ghost use Rattle.std.specs.Prelude.{ℕ, List};
    ghost use Rattle.std.specs.Coded.{coded_list, coded×, coded_ℕ};
    ghost use Rattle.pbx_content_map.specs.Entries.{IsAscending};

    ghost Value = { List (ℕ × T) };

    ghost coded = { coded_list (coded× coded_ℕ T.code) };

    ghost view = { λ it. it.entries.items };

    ghost invariant = { λ it. IsAscending it.entries.items };
}

impl<T> NumberMap<T> {
    /// No pairs; takes no memory.
    pub fn new(alloc: Global) -> NumberMap<T>
        ensures { result ≡ [] }
    {
        NumberMap {
            entries: Vec::new(alloc),
        }
    }

    /// How many pairs there are.
    pub fn len(&self) -> usize
        ensures { result ≡ length self.now }
    {
        self.entries.len()
    }

    /// The pairs by ascending number.
    pub fn as_slice(&self) -> &[(u32, T)]
        ensures same { result.now ≡ self.now }
        ensures order { IsAscending self.now }
    {
        self.entries.as_slice()
    }

    /// The pairs by ascending number; takes no memory.
    pub fn into_entries(self) -> Vec<(u32, T)>
        ensures same { result.items ≡ self }
        ensures order { IsAscending self }
    {
        self.entries
    }

    /// The value under the number, by log n comparisons.
    pub fn get(&self, number: u32) -> Option<&T>
        ensures { option_map (λ value. value.now) result ≡ value_under number self.now }
    {
        match find(self.entries.as_slice(), number) {
            Ok(at) => Some(&self.entries[at].1),
            Err(_) => None,
        }
    }

    /// Takes the value under the number out; log n comparisons, and the pairs of greater numbers move up.
    pub fn take(&mut self, number: u32) -> Option<T>
        ensures value { result ≡ value_under number self.old }
        ensures rest { self.new ≡ without number self.old }
    {
        match find(self.entries.as_slice(), number) {
            Ok(at) => Some(self.entries.remove(at).1),
            Err(_) => None,
        }
    }
}

impl<T: Drop> NumberMap<T> {
    /// The pairs put in, one after another: of a number that comes twice the last value counts. Where the numbers ascend, none is moved.
    /// The only error is want of memory.
    pub fn from_entries(alloc: Global, entries: Vec<(u32, T)>) -> Result<NumberMap<T>, NoMemory>
        ensures { IfOk result (λ map. map ≡ with_entries [] entries.items) }
    {
        if are_ascending(entries.as_slice()) {
            return Ok(NumberMap { entries });
        }
        let mut map = NumberMap::new(alloc);
        for (number, value) in entries {
            map.put(number, value)?;
        }
        Ok(map)
    }

    /// Puts the value under the number, in the place of the one that is there, which is dropped. A refused call changes
    /// nothing and drops the value. Log n comparisons, and the pairs of greater numbers move down where the number is new.
    pub fn put(&mut self, number: u32, value: T) -> Result<(), NoMemory>
        ensures ok { OnOk result (self.new ≡ with_entry number value self.old) }
        ensures err { OnErr result (self.new ≡ self.old) }
        ensures order { IsAscending self.old }
    {
        match find(self.entries.as_slice(), number) {
            Ok(at) => {
                self.entries[at] = (number, value);
                Ok(())
            }
            Err(at) => add_at(&mut self.entries, at, (number, value)),
        }
    }
}

/// Whether the numbers ascend.
fn are_ascending<T>(entries: &[(u32, T)]) -> bool
    ensures { IsTrue result → IsAscending entries.now }
{
    let mut least = 0;
    for entry in entries {
        if u64::from(entry.0) < least {
            return false;
        }
        least = u64::from(entry.0) + 1;
    }
    true
}

/// How many pairs at the front have lesser numbers: by one comparison where all have, as where pairs come by ascending
/// number, and by log n where not.
fn place_of<T>(entries: &[(u32, T)], number: u32) -> usize
    requires { IsAscending entries.now }
    ensures { result ≡ place_of_number number entries.now }
{
    let len = entries.len();
    if len > 0 && entries[len - 1].0 < number {
        return len;
    }
    let mut low = 0;
    let mut high = len;
    while low < high {
        let middle = low + (high - low) / 2;
        if entries[middle].0 < number {
            low = middle + 1;
        } else {
            high = middle;
        }
    }
    low
}

/// Where the number stands, or where it would stand.
fn find<T>(entries: &[(u32, T)], number: u32) -> Result<usize, usize>
    requires { IsAscending entries.now }
    ensures found { IfOk result (λ at. StandsAt number at entries.now) }
    ensures missing { IfErr result (λ at. IsGapAt number at entries.now) }
{
    let at = place_of(entries, number);
    if at < entries.len() && entries[at].0 == number {
        Ok(at)
    } else {
        Err(at)
    }
}

/// Puts the pair in before what stands at the place. Where there is no room, it makes room for one in a short vector, and
/// in a long one for half as many as it has.
fn add_at<T: Drop>(entries: &mut Vec<(u32, T)>, at: usize, entry: (u32, T)) -> Result<(), NoMemory>
    requires { at ≤ length entries.old.items }
    ensures ok { OnOk result (entries.new.items ≡ insert entries.old.items at entry) }
    ensures err { OnErr result (entries.new.items ≡ entries.old.items) }
{
    let len = entries.len();
    if len == entries.capacity() {
        entries.reserve_exact(1.max(len / 2))?;
    }
    entries.insert(at, entry)?;
    Ok(())
}
