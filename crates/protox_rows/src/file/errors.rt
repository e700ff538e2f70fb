//! Questions about errors. The fields of a row are the kind of the error and what it has.

use crate::file::step::small_number;
use crate::file::told::Told;
use pbx_link::DescriptorError;
use pbx_parse::ParseError;
use pbx_wire::{DecodeError, List, NoMemory, Text};
use protox_file_sources::{Error, ErrorKind};
use std::alloc::Global;
use std::mem::drop;
use test_rows::Row;

/// The field as a text of its own.
fn field(alloc: Global, row: &Row, at: usize) -> Result<Text, NoMemory> {
    Text::from_str(alloc, row.text(at))
}

/// The line and the column that a text as `2:1` is, if it is one.
fn place(text: &str) -> Option<(u32, u32)> {
    let (line, column) = text.split_once(':')?;
    Some((line.parse::<u32>().ok()?, column.parse::<u32>().ok()?))
}

/// Adds the numbers between dots.
fn add_numbers(numbers: &mut List<i32>, text: &str) -> Result<(), NoMemory> {
    for number in text.split('.') {
        numbers.add(number.parse::<i32>().unwrap_or(0))?;
    }
    Ok(())
}

/// A source that is not in the language: the file, the place, what could stand there, and what stands there.
fn syntax(alloc: Global, row: &Row) -> Result<Error, NoMemory> {
    let file = field(alloc, row, 1)?;
    let expected = field(alloc, row, 3)?;
    let found = field(alloc, row, 4)?;
    let (line, column) = place(row.text(2)).unwrap_or((0, 0));
    Ok(Error::from(ParseError::Syntax {
        file,
        line,
        column,
        expected,
        found,
    }))
}

/// A broken rule of linking: the file, the rule and the place.
fn rule(alloc: Global, row: &Row) -> Result<Error, NoMemory> {
    let file = field(alloc, row, 1)?;
    let rule = row.text(2).parse::<u8>().unwrap_or(0);
    let mut place = List::new(alloc);
    add_numbers(&mut place, row.text(3))?;
    Ok(Error::from(DescriptorError::Rule { file, place, rule }))
}

/// An error that has one text.
fn of_one_text(alloc: Global, row: &Row) -> Result<Error, NoMemory> {
    let name = field(alloc, row, 1)?;
    Ok(match row.text(0) {
        "file too large" => Error::from_kind(ErrorKind::FileTooLarge { name }),
        "file no utf-8" => Error::from_kind(ErrorKind::FileInvalidUtf8 { name }),
        "file not included" => Error::from_kind(ErrorKind::FileNotIncluded { path: name }),
        _ => Error::from_kind(ErrorKind::Undecodable { file: name }),
    })
}

/// An error that has two texts, or three.
fn of_texts(alloc: Global, row: &Row) -> Result<Error, NoMemory> {
    let name = field(alloc, row, 1)?;
    let path = field(alloc, row, 2)?;
    let third = field(alloc, row, 3)?;
    Ok(match row.text(0) {
        "file not read" => Error::from_kind(ErrorKind::OpenFile {
            name,
            path,
            fault: third,
        }),
        "file shadowed" => Error::from_kind(ErrorKind::FileShadowed {
            name,
            path,
            shadow: third,
        }),
        "import cycle" => Error::from_kind(ErrorKind::CircularImport { name, cycle: path }),
        _ => Error::from_kind(ErrorKind::NameMismatch {
            asked: name,
            declared: path,
        }),
    })
}

/// An error at an import: the file, which of its imports it is, the place of the import, and its name.
fn of_import(alloc: Global, row: &Row) -> Result<Error, NoMemory> {
    let file = field(alloc, row, 1)?;
    let index = small_number(row.text(2));
    let place = place(row.text(3));
    let name = field(alloc, row, 4)?;
    Ok(match row.text(0) {
        "import not found" => Error::from_kind(ErrorKind::ImportNotFound {
            file,
            index,
            place,
            name,
        }),
        "import escapes" => Error::from_kind(ErrorKind::ImportEscapes {
            file,
            index,
            place,
            name,
        }),
        _ => Error::from_kind(ErrorKind::DuplicateImport {
            file,
            index,
            place,
            name,
        }),
    })
}

/// An error that another function makes of the first text, of a number, or of no memory.
fn of_no_text(alloc: Global, row: &Row) -> Error {
    match row.text(0) {
        "file not found" => Error::file_not_found(alloc, row.text(1)),
        "own" => Error::new(alloc, row.text(1)),
        "own of reading" => Error::from_io(alloc, row.text(1)),
        "too many files" => Error::from_kind(ErrorKind::FileLimit {
            limit: small_number(row.text(1)),
        }),
        "varint" => Error::from(DescriptorError::Decode(DecodeError::Varint(3))),
        "no memory to decode" => Error::from(DescriptorError::Decode(DecodeError::NoMemory)),
        "no memory to parse" => Error::from(ParseError::NoMemory),
        _ => Error::from(NoMemory),
    }
}

/// The error that the first field names, of the texts behind it.
fn of_fields(alloc: Global, row: &Row) -> Result<Error, NoMemory> {
    match row.text(0) {
        "syntax" => syntax(alloc, row),
        "rule" => rule(alloc, row),
        "file too large" | "file no utf-8" | "file not included" | "options undecodable" => {
            of_one_text(alloc, row)
        }
        "file not read" | "file shadowed" | "import cycle" | "other name" => of_texts(alloc, row),
        "import not found" | "import twice" | "import escapes" => of_import(alloc, row),
        _ => Ok(of_no_text(alloc, row)),
    }
}

/// The error of a row.
fn made(alloc: Global, row: &Row) -> Error {
    match of_fields(alloc, row) {
        Ok(error) => error,
        Err(refused) => Error::from(refused),
    }
}

/// What is wrong, in one line.
pub(crate) fn line(alloc: Global, row: &Row, told: &mut Told) {
    let error = made(alloc, row);
    match error.line(alloc) {
        Ok(line) => told.add(line.as_str()),
        Err(_) => told.add("out of memory"),
    }
    drop(error);
}

/// Adds what is wrong and where, in one line.
pub(crate) fn add_long_line(alloc: Global, error: &Error, told: &mut Told) {
    match error.long_line(alloc) {
        Ok(line) => told.add(line.as_str()),
        Err(_) => told.add("out of memory"),
    }
}

/// What is wrong and where, in one line.
pub(crate) fn long_line(alloc: Global, row: &Row, told: &mut Told) {
    let error = made(alloc, row);
    add_long_line(alloc, &error, told);
    drop(error);
}

/// What is at fault.
pub(crate) fn sort(error: &Error) -> &'static str {
    match (error.is_parse(), error.is_io(), error.is_file_not_found()) {
        (true, false, false) => "text",
        (false, true, false) => "reading",
        (false, false, true) => "absence",
        (false, false, false) => "other",
        _ => "several",
    }
}

/// Adds the file that the error names, and what is at fault.
pub(crate) fn add_file_and_sort(error: &Error, told: &mut Told) {
    told.add_quoted(error.file());
    told.add(", ");
    told.add(sort(error));
}

/// The file that the error names, and what is at fault.
pub(crate) fn file_and_sort(alloc: Global, row: &Row, told: &mut Told) {
    let error = made(alloc, row);
    add_file_and_sort(&error, told);
    drop(error);
}
