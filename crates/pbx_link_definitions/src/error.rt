ghost use Rattle.std.specs.Prelude.{◌≡◌};
ghost use Rattle.pbx_link_definitions.specs.Errors.{out_of_memory};

use pbx_wire::{DecodeError, List, NoMemory, Text};
use thiserror::Error;

/// Why a file is not added to a pool.
#[derive(Debug, Drop, Error)]
pub enum DescriptorError {
    /// A rule of linking is broken, and no lesser one.
    #[error("file '{file}' breaks rule {rule} of linking")]
    Rule {
        /// The name of the file whose record breaks it.
        file: Text,
        /// Where, as a path of field numbers and indexes into the file's record, as source locations have them.
        place: List<i32>,
        /// The number of the rule, 1 to 16.
        rule: u8,
    },
    /// The bytes do not decode to a record.
    #[error("record does not decode: {0}")]
    Decode(DecodeError),
    /// Memory ran out, or an index of the record is above those of 31 bits.
    #[error("out of memory")]
    NoMemory,
}

impl From<NoMemory> for DescriptorError {
    ghost from_gives = { λ _ e. e ≡ out_of_memory };

    fn from(_refused: NoMemory) -> DescriptorError {
        DescriptorError::NoMemory
    }
}
