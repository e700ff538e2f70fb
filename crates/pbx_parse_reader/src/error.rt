//! Why tokens are no file.

ghost use Rattle.std.specs.Prelude.{◌≡◌};
ghost use Rattle.pbx_parse_reader.specs.declared.error.ReadError.TheVariants.{NoMemory};

use pbx_parse_tree::Expected;
use std::alloc::{AllocError, AllocFailed};

/// Why tokens are no file.
#[derive(Clone, Copy, Debug, PartialEq, Eq)]
pub enum ReadError {
    NoMemory,
    /// The first of the tokens of which so many are left cannot stand there, or the end where none is left.
    Unexpected { left: usize, expected: Expected },
}

impl From<AllocError> for ReadError {
    ghost from_gives = { λ _ e. e ≡ NoMemory };

    fn from(_refused: AllocError) -> ReadError {
        ReadError::NoMemory
    }
}

impl<T: Drop> From<AllocFailed<T>> for ReadError {
    ghost from_gives = { λ _ e. e ≡ NoMemory };

    fn from(_refused: AllocFailed<T>) -> ReadError {
        ReadError::NoMemory
    }
}
