// Laws that callers use in their proofs. They have no body.
ghost use Rattle.pbx_link_meaning.specs.Laws.{NumbersAreValid, NumbersAreDistinct, KeysAreValid, TypesAreProper, ShapeIsProper};

/// The numbers in the shape of a pool are numbers that records may have.
#[tactic(auto, using(crate::proofs::ValidNumbers::numbers_are_valid))]
pub fn numbers_are_valid()
    ensures { NumbersAreValid }
{}

/// In no message of the shape of a pool a number stands twice.
#[tactic(auto, using(crate::proofs::DistinctNumbers::numbers_are_distinct))]
pub fn numbers_are_distinct()
    ensures { NumbersAreDistinct }
{}

/// The keys of maps in the shape of a pool are of kinds that keys may have.
#[tactic(auto, using(crate::proofs::Keyed::keys_are_valid))]
pub fn keys_are_valid()
    ensures { KeysAreValid }
{}

/// The shape of a pool is proper.
pub fn shape_is_proper()
    ensures types { TypesAreProper }
    ensures shape { ShapeIsProper }
{}
