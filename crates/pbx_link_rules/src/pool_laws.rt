// Laws that callers use in their proofs. They have no body.
ghost use Rattle.pbx_link_rules.specs.PoolLaws.{EmptyIsPooled, PooledGrow, PooledHaveOwnNames, PooledAreDistinct, PooledAreBehind, NewNames};
ghost use Rattle.pbx_link_rules.specs.PoolLaws.{TypesAreNamed, MessagesAreNamed, FieldsAreHeld, ReachedIsReaches};
ghost use Rattle.pbx_link_rules.specs.PoolLaws.{TypesAreThere, ExtendeesAreThere, MethodsHaveMessages};

/// No files are a pool, and a record that keeps the rules makes a larger one.
#[tactic(auto, using(crate::proofs::Grown::empty_is_pooled, crate::proofs::Grown::pooled_grow))]
pub fn pool_grows()
    ensures empty { EmptyIsPooled }
    ensures more { PooledGrow }
{}

/// The names of files and of definitions in a pool, and the order of its files.
#[tactic(auto, using(crate::proofs::Own::pooled_have_own_names, crate::proofs::Distinct::pooled_are_distinct, crate::proofs::Behind::pooled_are_behind))]
pub fn pool_is_ordered()
    ensures own { PooledHaveOwnNames }
    ensures distinct { PooledAreDistinct }
    ensures behind { PooledAreBehind }
{}

/// The names of a record that keeps the rules are new to the pool.
pub fn names_are_new()
    ensures { NewNames }
{}

/// Messages and enums of a pool are those of their full names.
#[tactic(auto, using(crate::proofs::Named::types_are_named, crate::proofs::Named::messages_are_named))]
pub fn types_are_named()
    ensures types { TypesAreNamed }
    ensures messages { MessagesAreNamed }
    ensures fields { FieldsAreHeld }
{}

/// The files that are reached are those that public imports reach.
#[tactic(auto, using(crate::proofs::Reached::reached_is_reaches))]
pub fn reached_is_reaches()
    ensures { ReachedIsReaches }
{}

/// The messages and enums to which the records of a pool refer are in the pool.
#[tactic(auto, using(crate::proofs::References::types_are_there, crate::proofs::References::extendees_are_there))]
pub fn references_are_there()
    ensures types { TypesAreThere }
    ensures extendees { ExtendeesAreThere }
    ensures methods { MethodsHaveMessages }
{}
