ghost use Rattle.std.specs.Prelude.{◌≡◌, ◌≤◌, [], length, insert, IfOk, IfErr, OnOk, OnErr, MatchResult};
ghost use Rattle.pbx_content.specs.Content.{bytes_before};
ghost use Rattle.pbx_types.specs.Texts.{with_entry, IsInOrder, place_of as place_of_text, StandsAt, IsGapAt};

use pbx_wire::{NoMemory, Text};
use std::alloc::Global;
use std::marker::Model;

/// Values under texts. Contracts see the list of pairs by ascending text, in the order of bytes, each text once.
#[derive(Drop)]
pub struct TextMap<T> {
    entries: Vec<(Text, T)>,
}

impl<T> Model for TextMap<T> {
    ghost use Rattle.std.specs.Prelude.{List, ℕ};
    ghost use Rattle.std.specs.Coded.{coded_list, coded×};
    ghost use Rattle.pbx_wire.specs.contracts.text.Text as text;
    ghost use Rattle.pbx_types.specs.Texts.{IsInOrder};

    ghost Value = { List (List ℕ × T) };

    ghost coded = { coded_list (coded× text.the_row.coded T.code) };

    ghost view = { λ m. m.entries.items };

    ghost invariant = { λ m. IsInOrder m.entries.items };
}

impl<T> TextMap<T> {
    /// No pairs; takes no memory.
    pub fn new(alloc: Global) -> TextMap<T>
        ensures { result ≡ [] }
    {
        TextMap {
            entries: Vec::new(alloc),
        }
    }

    /// The pairs by ascending text.
    pub fn as_slice(&self) -> &[(Text, T)]
        ensures same { result.now ≡ self.now }
        ensures order { IsInOrder self.now }
    {
        self.entries.as_slice()
    }
}

impl<T: Drop> TextMap<T> {
    /// Puts the value under the text, in the place of the one that is there. Where memory runs out, both are handed
    /// back and nothing is changed. Log n comparisons, and the pairs of greater texts move down where the text is new.
    pub fn insert(&mut self, text: Text, value: T) -> Result<(), (Text, T)>
        ensures { MatchResult result (λ _. self.new ≡ with_entry text value self.old)
            (λ back. (back ≡ (text, value)) × (self.new ≡ self.old)) }
    {
        match find(self.entries.as_slice(), &text) {
            Ok(at) => {
                self.entries[at] = (text, value);
                Ok(())
            }
            Err(at) => add_at(&mut self.entries, at, (text, value)),
        }
    }

    /// The same. The only error is want of memory, where both are dropped and nothing is changed.
    pub fn add(&mut self, text: Text, value: T) -> Result<(), NoMemory>
        ensures ok { OnOk result (self.new ≡ with_entry text value self.old) }
        ensures err { OnErr result (self.new ≡ self.old) }
    {
        match self.insert(text, value) {
            Ok(()) => Ok(()),
            Err(_) => Err(NoMemory),
        }
    }
}

/// Whether the first text stands before the other.
fn is_before(text: &Text, other: &Text) -> bool
    ensures { result ≡ bytes_before text.now other.now }
{
    are_before(text.as_str().as_bytes(), other.as_str().as_bytes())
}

/// Whether the first bytes come before the others.
fn are_before(bytes: &[u8], others: &[u8]) -> bool
    ensures { result ≡ bytes_before bytes.now others.now }
{
    bytes < others
}

/// How many pairs at the front have lesser texts: by one comparison where all have, as where pairs come by ascending
/// text, and by log n where not.
fn place_of<T>(entries: &[(Text, T)], text: &Text) -> usize
    requires { IsInOrder entries.now }
    ensures { result ≡ place_of_text text.now entries.now }
{
    let len = entries.len();
    if len > 0 && is_before(&entries[len - 1].0, text) {
        return len;
    }
    let mut low = 0;
    let mut high = len;
    while low < high {
        let middle = low + (high - low) / 2;
        if is_before(&entries[middle].0, text) {
            low = middle + 1;
        } else {
            high = middle;
        }
    }
    low
}

/// Where the text stands, or where it would stand.
fn find<T>(entries: &[(Text, T)], text: &Text) -> Result<usize, usize>
    requires { IsInOrder entries.now }
    ensures found { IfOk result (λ at. StandsAt text.now at entries.now) }
    ensures missing { IfErr result (λ at. IsGapAt text.now at entries.now) }
{
    let at = place_of(entries, text);
    if at < entries.len() && !is_before(text, &entries[at].0) {
        Ok(at)
    } else {
        Err(at)
    }
}

/// Puts the pair in before what stands at the place. Where there is no room, it makes room for one in a short vector, and
/// in a long one for half as many as it has. Where memory runs out, the pair is handed back.
fn add_at<T>(entries: &mut Vec<(Text, T)>, at: usize, entry: (Text, T)) -> Result<(), (Text, T)>
    requires { at ≤ length entries.old.items }
    ensures { MatchResult result (λ _. entries.new.items ≡ insert entries.old.items at entry)
        (λ back. (back ≡ entry) × (entries.new.items ≡ entries.old.items)) }
{
    let len = entries.len();
    if len == entries.capacity() && entries.reserve_exact(1.max(len / 2)).is_err() {
        return Err(entry);
    }
    match entries.insert(at, entry) {
        Ok(()) => Ok(()),
        Err(refused) => Err(refused.value),
    }
}
