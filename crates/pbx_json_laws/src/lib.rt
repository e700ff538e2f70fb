//! Laws of the canonical JSON mapping. What a tree stands for is a content that a message may
//! have; what is written for it stands for it again; and a tree or a content is refused exactly where it has a fault. And what holds of
//! the names in the shape of a pool.
//! The laws are the contracts of functions that do nothing.
#![tactic(auto)]

mod laws;
mod shape_laws;
mod values;

pub use laws::{
    canonical_stands, canonical_without_fault, clear_by_any_name, fitting_is_written, stands_sound,
    stands_without_fault,
};
pub use shape_laws::shapes_are_well_named;
pub use values::values_have_texts;
