// A law that callers use in their proofs. It has no body.
ghost use Rattle.pbx_json_laws.specs.Laws.{ShapesAreWellNamed};

/// In the shape of a pool each field, each extension and each value of an enum is found by its name.
#[tactic(auto, using(crate::proofs::WellNamed::shapes_are_well_named))]
pub fn shapes_are_well_named()
    ensures { ShapesAreWellNamed }
{}
