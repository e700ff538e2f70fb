//! What messages hold, what records of the wire mean as a message of a type, which rule bytes break, and the one
//! canonical encoding of what a message holds: definitions and their laws.
//!
//! A type is told by a `Shape`, a plain table of message types with their fields, and of enums. What is said of it
//! stands in `specs/`; the laws are the contracts of functions that do nothing.
#![tactic(auto)]

mod index;
mod laws;
mod shape;

pub use laws::{
    decodes_to_one, encoding_decodes, faults_are_behind, first_at_front, meaning_is_sound,
    means_or_faulty, means_or_faulty_with, numbers_one_by_one, one_record, onto_is_following,
    rec_means_nothing, records_one_by_one, same_is_equivalence, same_is_written_alike,
    sorted_records_are_alike,
};
pub use shape::{
    Cardinality, EnumShape, EnumValueShape, FieldShape, Kind, MessageShape, Schema, SchemaError,
    Shape,
};
