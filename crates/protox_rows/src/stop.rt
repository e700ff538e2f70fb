//! Why a row has no answer of its word.

use pbx_wire::NoMemory;
use std::alloc::AllocError;

/// Why a row has no answer of its word.
#[derive(Drop)]
pub(crate) enum Stop {
    NoMemory,
    /// The row has a word that stands for nothing.
    NoSuchWord,
}

/// A step of an answer.
pub(crate) type Done = Result<(), Stop>;

impl From<NoMemory> for Stop {
    fn from(_refused: NoMemory) -> Stop {
        Stop::NoMemory
    }
}

impl From<AllocError> for Stop {
    fn from(_refused: AllocError) -> Stop {
        Stop::NoMemory
    }
}
