//! The sixteen rules of linking in order: searches for the first that a file's record breaks, and where. The rules on a file among the
//! files of a pool stand here, on its name, its imports and the full names that it defines; and the laws of a pool of linked records:
//! each was linked among those before it, and broke no rule there.
#![tactic(auto)]

mod breach;
mod imports;
mod names;
mod packages;
mod pool_laws;
mod rule_laws;
mod searches;

pub use breach::Breach;
pub(crate) use imports::{file_twice, missing_imports};
pub(crate) use names::names_twice;
pub use pool_laws::{
    names_are_new, pool_grows, pool_is_ordered, reached_is_reaches, references_are_there,
    types_are_named,
};
pub use rule_laws::{breach_is_first, rules_are_kept};
pub use searches::{first_breach, first_breach_alone};
