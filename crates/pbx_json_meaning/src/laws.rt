// Laws that callers use in their proofs. They have no body.
ghost use Rattle.pbx_json_meaning.specs.Laws.{StandsForOne, FirstFaultIsOnePlace, ReadWhenAllowed, CanonicalIsPlain};
ghost use Rattle.pbx_json_meaning.specs.FirstFaults.{FirstHere, FirstAtKey, FirstBelow};

/// At most one content stands for a tree.
pub fn stands_for_one()
    ensures { StandsForOne }
{}

/// What is read with unknown fields denied is read with them allowed, as the same content.
#[tactic(auto, using(crate::proofs::Allowed::read_when_allowed))]
pub fn read_when_allowed()
    ensures { ReadWhenAllowed }
{}

/// A tree has at most one first place of a fault.
#[tactic(auto, using(crate::proofs::Places::first_fault_is_one_place))]
pub fn first_fault_is_one_place()
    ensures { FirstFaultIsOnePlace }
{}

/// A fault of the tree itself is its first.
#[tactic(auto, using(crate::proofs::First::first_fault_here))]
pub fn first_fault_here()
    ensures { FirstHere }
{}

/// A fault of a key is the first of the tree, where nothing before the key has one.
pub fn first_fault_at_key()
    ensures { FirstAtKey }
{}

/// The first fault below a key or an element is the first of the tree, where the key has none and nothing before it.
pub fn first_fault_below()
    ensures { FirstBelow }
{}

/// What is written is ordered as `serde_json` holds objects, and has no number with a fraction or an exponent.
pub fn canonical_is_plain()
    ensures { CanonicalIsPlain }
{}
