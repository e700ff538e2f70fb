//! Sources and their records, and what is said of sources that have none.

use crate::said::{message_bytes, words};
use crate::sources::words::source;
use pbx_desc_encoding::FileDescriptorProto;
use pbx_parse::{ParseError, parse};
use std::alloc::Global;
use std::mem::drop;
use test_rows::{Row, Stop};

/// What is asked of a source that has a record.
fn of_record(alloc: Global, word: &str, file: &FileDescriptorProto) -> Result<String, Stop> {
    match word {
        "record" => message_bytes(alloc, file),
        _ => words(alloc, "a file"),
    }
}

/// The file, the line and the column of an error.
fn place(alloc: Global, error: &ParseError) -> Result<String, Stop> {
    let (file, line, column) = (error.file(), error.line(), error.column());
    Ok(format!(in alloc; "{file:?} {line:?} {column:?}")?)
}

/// The line of an error that has a place.
fn line(alloc: Global, error: &ParseError) -> Result<String, Stop> {
    let ParseError::Syntax {
        file,
        line,
        column,
        expected,
        found,
    } = error
    else {
        return Err(Stop::NoMemory);
    };
    let file = file.as_str();
    let expected = expected.as_str();
    let found = found.as_str();
    Ok(format!(in alloc; "{file}:{line}:{column}: expected {expected}, but found {found}")?)
}

/// What is asked of a source that has no record.
fn of_error(alloc: Global, word: &str, error: &ParseError) -> Result<String, Stop> {
    match word {
        "where" => place(alloc, error),
        _ => line(alloc, error),
    }
}

/// The name of the file, which a second field can give.
fn name(row: &Row) -> &str {
    match row.text(1) {
        "" => "foo.proto",
        name => name,
    }
}

/// What is asked of the source, or what is said where it has no record.
pub(crate) fn shown(alloc: Global, row: &Row, word: &str) -> Result<String, Stop> {
    match parse(alloc, name(row), source(row)) {
        Ok(file) => {
            let told = of_record(alloc, word, &file);
            drop(file);
            told
        }
        Err(error) => {
            let told = of_error(alloc, word, &error);
            drop(error);
            told
        }
    }
}

/// The place of an error that has none.
pub(crate) fn without_memory(alloc: Global) -> Result<String, Stop> {
    place(alloc, &ParseError::NoMemory)
}
