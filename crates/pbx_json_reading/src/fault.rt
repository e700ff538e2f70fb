// Faults and their places.
ghost use Rattle.std.specs.Prelude.{◌≡◌, ◌⊎◌, []};
ghost use Rattle.pbx_json_meaning.specs.declared.kind.JsonKind.TheVariants.{NoMemory as OutOfMemory};
ghost use Rattle.pbx_json_meaning.specs.declared.place.Step.TheVariants.{Key as to_key, Index as to_index};
ghost use Rattle.pbx_json_walk.specs.Walk.{below};

use pbx_json_meaning::{JsonError, JsonKind, Step};
use pbx_wire::{List, Text};
use std::alloc::Global;

/// A fault of the tree itself.
pub(crate) fn at_tree(alloc: Global, kind: JsonKind) -> JsonError
    ensures { result ≡ record { place = []; kind = kind } }
{
    JsonError {
        place: List::new(alloc),
        kind,
    }
}

/// A fault below a step. Places are short, since trees are read to a bounded depth.
fn below_step(alloc: Global, step: Step, error: JsonError) -> JsonError
    ensures { (result.kind ≡ OutOfMemory) ⊎ (result ≡ below step error) }
{
    let kind = error.kind;
    let mut place = error.place;
    match place.insert(0, step) {
        Ok(()) => JsonError { place, kind },
        Err(_) => at_tree(alloc, JsonKind::NoMemory),
    }
}

/// A fault below a key.
pub(crate) fn below_key(alloc: Global, key: &str, error: JsonError) -> JsonError
    ensures { (result.kind ≡ OutOfMemory) ⊎ (result ≡ below (to_key key.now) error) }
{
    match Text::from_str(alloc, key) {
        Ok(text) => below_step(alloc, Step::Key(text), error),
        Err(_) => at_tree(alloc, JsonKind::NoMemory),
    }
}

/// A fault below an element.
pub(crate) fn below_index(alloc: Global, index: usize, error: JsonError) -> JsonError
    ensures { (result.kind ≡ OutOfMemory) ⊎ (result ≡ below (to_index index) error) }
{
    below_step(alloc, Step::Index(index as u64), error)
}

/// A fault of a key.
pub(crate) fn at_key(alloc: Global, key: &str, kind: JsonKind) -> JsonError
    ensures { (result.kind ≡ OutOfMemory) ⊎ (result ≡ below (to_key key.now) (record { place = []; kind = kind })) }
{
    below_key(alloc, key, at_tree(alloc, kind))
}
