ghost use Rattle.std.specs.Prelude.{◌≡◌, [], IfOk, reverse};
ghost use Rattle.pbx_json_meaning.specs.declared.kind.JsonKind.TheVariants as fault;
ghost use Rattle.pbx_json_meaning.specs.declared.place.Step.TheVariants.{Key};
ghost use Rattle.pbx_json_writing.specs.Refusals.{IsLifted, IsTold, IsAtKey};
ghost use Rattle.pbx_json_writing.specs.declared.refusal.Refusal.TheVariants as refused;

use pbx_json_meaning::{JsonError, JsonKind, Place, Step};
use pbx_wire::{List, NoMemory, Text};
use std::alloc::{AllocError, Global};

/// Why no tree is written.
#[derive(Drop)]
pub(crate) enum Refusal {
    /// Memory ran out.
    Memory,
    /// A rule is broken; the steps lead from where it is broken up to the value that is written.
    Rule(JsonKind, List<Step>),
}

impl From<NoMemory> for Refusal {
    ghost from_gives = { λ _ r. r ≡ refused.Memory };

    fn from(_refused: NoMemory) -> Refusal {
        Refusal::Memory
    }
}

impl From<AllocError> for Refusal {
    ghost from_gives = { λ _ r. r ≡ refused.Memory };

    fn from(_refused: AllocError) -> Refusal {
        Refusal::Memory
    }
}

impl Refusal {
    /// The rule is broken by the value itself.
    pub(crate) fn here(alloc: Global, kind: JsonKind) -> Refusal
        ensures { result ≡ refused.Rule kind [] }
    {
        Refusal::Rule(kind, List::new(alloc))
    }

    /// The rule is broken by a key of the value.
    pub(crate) fn at_key(alloc: Global, key: &str, kind: JsonKind) -> Refusal
        ensures { IsAtKey key.now kind result }
    {
        Refusal::here(alloc, kind).under_key(alloc, key)
    }

    /// The refusal of what stands a step above.
    pub(crate) fn above(self, step: Step) -> Refusal
        ensures { IsLifted step self result }
    {
        match self {
            Refusal::Memory => Refusal::Memory,
            Refusal::Rule(kind, mut steps) => match steps.add(step) {
                Ok(()) => Refusal::Rule(kind, steps),
                Err(NoMemory) => Refusal::Memory,
            },
        }
    }

    /// The refusal of the object that has this one under a key.
    pub(crate) fn under_key(self, alloc: Global, key: &str) -> Refusal
        ensures { IsLifted (Key key.now) self result }
    {
        match Text::from_str(alloc, key) {
            Ok(key) => self.above(Step::Key(key)),
            Err(NoMemory) => Refusal::Memory,
        }
    }

    /// The error that callers see: its steps lead from the root down.
    pub(crate) fn told(self, alloc: Global) -> JsonError
        ensures { IsTold self result }
    {
        match self {
            Refusal::Memory => no_memory(alloc),
            Refusal::Rule(kind, steps) => match reversed(alloc, steps) {
                Ok(place) => JsonError { place, kind },
                Err(NoMemory) => no_memory(alloc),
            },
        }
    }
}

/// Memory ran out.
fn no_memory(alloc: Global) -> JsonError
    ensures { result.kind ≡ fault.NoMemory }
{
    JsonError {
        place: List::new(alloc),
        kind: JsonKind::NoMemory,
    }
}

/// The steps in the other order.
fn reversed(alloc: Global, steps: Place) -> Result<Place, NoMemory>
    ensures { IfOk result (λ place. place ≡ reverse steps) }
{
    let mut place = List::with_capacity(alloc, steps.len())?;
    let mut left = steps.into_vec();
    while let Some(step) = left.pop() {
        place.add(step)?;
    }
    Ok(place)
}
