//! Asks of `pbx_wkt_files`: a row that asks `built-in wkt` has the name of a file, and the answer is what is written for its
//! record, in hexadecimal digits, or `none`.
//!
//! What is wanted is made and compared with protoc's by checks/built-in-files.

use crate::said::{message_bytes, words};
use pbx_wkt_files::wkt_file;
use std::alloc::Global;
use std::mem::drop;
use test_rows::{Row, Stop};

/// What is written for the record of the file of this name.
fn written(alloc: Global, name: &str) -> Result<String, Stop> {
    match wkt_file(alloc, name)? {
        Some(file) => {
            let told = message_bytes(alloc, &file);
            drop(file);
            told
        }
        None => words(alloc, "none"),
    }
}

/// What the word asks for.
pub(crate) fn answer(alloc: Global, row: &Row, word: &str) -> Result<String, Stop> {
    match word {
        "wkt" => written(alloc, row.text(0)),
        _ => Err(Stop::NoSuchWord),
    }
}
