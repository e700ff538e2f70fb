//! What `protox` writes, prints and refuses, over files, input and output in memory.
//!
//! What is asked is one of these; each file is two fields, its name and its source, and the source `oversized` stands for
//! a file of too many bytes:
//!
//! - `run`: words, input, which object fails (`disk`, `input`, `out` or `err`; or none), the number of its call that fails,
//!   of the disk maybe several with commas between them, and the files. The answer is status, output, error output and the files
//!   `w` and `s` in hexadecimal digits, `-` where one is absent.
//! - `set`: names of files, input, a type's name, and the files. The answer is the set of the files in hexadecimal digits.
//! - `repeated`: the same. The answer is the JSON array of the indices of the paths that are given again.
//! - `written`: the same. The answer is the text of the tree under options that are all other than the default ones.
//! - `retried`: names of files, input, a type's name, how often each name is opened again where that meets a fault, the numbers of the
//!   opens that fail with commas between them, and the files. The answer is the wire bytes in hexadecimal digits and the canonical
//!   text, or what is refused.
//! - `deep`: a type's name, and files, each by its name and how many messages stand in one another there. The answer is `ok`, or
//!   what is refused.
//! - `built-in`: names of built-in files, input and a type's name. The answer is the wire bytes in hexadecimal digits and the
//!   canonical text, or what is refused.
//! - `from set`: the same over the files of a set, whose bytes are the last field.

mod built_in;
mod deep;
mod objects;
mod retries;
mod runs;
mod sets;

use crate::stop::Stop;
use std::alloc::Global;
use test_rows::Row;

/// What the word asks of the program.
pub(crate) fn answer(alloc: Global, row: &Row, word: &str) -> Result<String, Stop> {
    match word {
        "run" => Ok(runs::run(alloc, row)?),
        "set" | "repeated" | "written" => Ok(sets::set(alloc, row, word)?),
        "retried" => Ok(retries::retried(alloc, row)?),
        "deep" => Ok(deep::deep(alloc, row)?),
        "built-in" => Ok(built_in::built_in(alloc, row)?),
        "from set" => Ok(built_in::from_set(alloc, row)?),
        _ => Err(Stop::NoSuchWord),
    }
}
