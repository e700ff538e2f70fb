//! The rules of linking that look names up: what names are bound to, fields of maps, defaults, and numbers of extensions.
#![tactic(auto)]

mod decimals;
mod defaults;
mod escapes;
mod extension_numbers;
mod maps;
mod names;
mod searches;

pub use defaults::bad_defaults;
pub use extension_numbers::bad_extension_numbers;
pub use maps::bad_map_fields;
pub use names::unbound_names;
