//! Why a source has no record.

ghost use Rattle.std.specs.Prelude.{◌≡◌};
ghost use Rattle.std.specs.Option.{option_copied};
ghost use Rattle.pbx_parse.specs.Errors.{error_file, error_line, error_column};

use pbx_wire::{NoMemory, Text};
use thiserror::Error;

/// Why a source has no record.
#[derive(Debug, Drop, Error)]
pub enum ParseError {
    /// The source is not in the language.
    #[error("{file}:{line}:{column}: expected {expected}, but found {found}")]
    Syntax {
        /// The name of the file.
        file: Text,
        /// The line of the token, of the faulty byte or of the end, from 1.
        line: u32,
        /// Its column, from 1, in bytes.
        column: u32,
        /// What could stand there.
        expected: Text,
        /// What stands there, in single quotes, or `end of file`.
        found: Text,
    },
    /// Memory ran out.
    #[error("out of memory")]
    NoMemory,
}

impl ParseError {
    /// The name of the file; takes no memory.
    pub fn file(&self) -> Option<&str>
        ensures { option_copied result ≡ error_file self.now }
    {
        match self {
            ParseError::Syntax { file, .. } => Some(file.as_str()),
            ParseError::NoMemory => None,
        }
    }

    /// The line, from 1; takes no memory.
    pub fn line(&self) -> Option<u32>
        ensures { result ≡ error_line self.now }
    {
        match self {
            ParseError::Syntax { line, .. } => Some(*line),
            ParseError::NoMemory => None,
        }
    }

    /// The column, from 1, in bytes; takes no memory.
    pub fn column(&self) -> Option<u32>
        ensures { result ≡ error_column self.now }
    {
        match self {
            ParseError::Syntax { column, .. } => Some(*column),
            ParseError::NoMemory => None,
        }
    }
}
