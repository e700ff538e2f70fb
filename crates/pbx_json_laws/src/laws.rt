// Laws that callers use in their proofs. They have no body.
ghost use Rattle.pbx_json_meaning.specs.Laws.{StandsSound, FittingIsWritten, ClearByAnyName, CanonicalStands, WrittenStands, StandsWithoutFault, CanonicalWithoutFault};

/// What a tree stands for may be held by a message of the type.
pub fn stands_sound()
    ensures { StandsSound }
{}

/// What a tree stands for has a tree under any options, where no key has two meanings under them, well-known names
/// have their shapes, and the payloads of its `Any` messages are read again.
pub fn fitting_is_written()
    ensures { FittingIsWritten }
{}

/// Where no key has two meanings while fields may be written under any name, none has two under the names that options
/// choose.
#[tactic(auto, using(crate::proofs::NamesBack::clear_by_any_name))]
pub fn clear_by_any_name()
    ensures { ClearByAnyName }
{}

/// What is written of it under the fields' JSON names stands for it again, and under any options where no JSON name
/// is another field's name.
pub fn canonical_stands()
    ensures canonical { CanonicalStands }
    ensures written { WrittenStands }
{}

/// A message stands for a tree exactly where the tree has no fault.
pub fn stands_without_fault()
    ensures { StandsWithoutFault }
{}

/// A content that a message may have has a canonical tree exactly where writing it has no fault.
pub fn canonical_without_fault()
    ensures { CanonicalWithoutFault }
{}
