//! Why a row has no answer of its word, and the line of one that may have none.

use crate::error::ShapeTextError;
use crate::row::{Row, answer_line};
use hex::FromHexError;
use pbx_wire::NoMemory;
use std::alloc::{AllocError, AllocFailed, Global};

/// Why a row has no answer of its word.
#[derive(Drop)]
pub enum Stop {
    /// Memory ran out.
    NoMemory,
    /// The row has a word that stands for nothing.
    NoSuchWord,
    /// What the row asks about is refused: what is told of it.
    Refused(String),
}

/// A step of an answer.
pub type Done = Result<(), Stop>;

impl Stop {
    /// A refusal of which these words are told, unless memory runs out for them.
    pub fn refused(alloc: Global, words: &str) -> Stop {
        match String::from_str(alloc, words) {
            Ok(told) => Stop::Refused(told),
            Err(AllocError) => Stop::NoMemory,
        }
    }
}

impl From<NoMemory> for Stop {
    fn from(_refused: NoMemory) -> Stop {
        Stop::NoMemory
    }
}

impl From<ShapeTextError> for Stop {
    fn from(refused: ShapeTextError) -> Stop {
        match refused {
            ShapeTextError::NoShape => Stop::NoSuchWord,
            ShapeTextError::NoMemory => Stop::NoMemory,
        }
    }
}

impl From<FromHexError> for Stop {
    fn from(refused: FromHexError) -> Stop {
        match refused {
            FromHexError::OutOfMemory => Stop::NoMemory,
            _ => Stop::NoSuchWord,
        }
    }
}

impl From<AllocError> for Stop {
    fn from(_refused: AllocError) -> Stop {
        Stop::NoMemory
    }
}

impl<T: Drop> From<AllocFailed<T>> for Stop {
    fn from(_refused: AllocFailed<T>) -> Stop {
        Stop::NoMemory
    }
}

/// The row's name, a tab, and on one line its answer or what is told where it has none. The only error is want of memory.
pub fn line_of(
    alloc: Global,
    row: &Row,
    answer: Result<String, Stop>,
) -> Result<String, AllocError> {
    match answer {
        Ok(answer) => answer_line(alloc, row, answer.as_str()),
        Err(Stop::Refused(told)) => answer_line(alloc, row, told.as_str()),
        Err(Stop::NoSuchWord) => answer_line(alloc, row, "no such word"),
        Err(Stop::NoMemory) => Err(AllocError),
    }
}
