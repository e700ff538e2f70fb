//! The canonical JSON mapping (ProtoJSON Format): dynamic messages read from trees and written as trees, which names of
//! a pool's messages have two meanings in JSON, and whether a message nests too deep for its bytes to be read again.
#![tactic(auto)]

mod levels;
mod message;
mod names;

pub use levels::fits_levels;
pub use message::JsonMessage;
pub use names::check_names;
// The laws that callers need to go from one of these calls to another.
pub use pbx_json_laws::{
    canonical_stands, canonical_without_fault, clear_by_any_name, fitting_is_written,
    shapes_are_well_named, stands_sound, stands_without_fault, values_have_texts,
};
pub use pbx_json_meaning::{
    DeserializeOptions, JsonError, JsonKind, NameFault, Place, SerializeOptions, Step,
    canonical_is_plain, first_fault_is_one_place, read_when_allowed, stands_for_one,
};
