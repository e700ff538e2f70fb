//! Values and numbers under names, in trees by name: a name is found by log n comparisons, and many are added all or none. And packages
//! with what their names begin with.
#![tactic(auto)]

mod name_map;
mod numbered_names;
mod package_names;

pub use name_map::NameMap;
pub use numbered_names::NumberedNames;
pub use package_names::{Missing, PackageNames};
