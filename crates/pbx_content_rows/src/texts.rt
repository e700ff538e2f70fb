//! Asks of `pbx_text`.
//!
//! A row asks `text` and a word, and its third field and those behind it are what the word needs: of `signed` the least and
//! the greatest number and the text, of `unsigned` the greatest number and the text, of `base64` the text, of `write-signed`
//! and `write-unsigned` the number, of `write-base64` the bytes, of `duration` the text, of `write-duration` the seconds and
//! the nanoseconds, of `snake` a part of a mask text, of `camel` a path, of `mask` a mask text, of `write-mask` the paths, of
//! `timestamp` the text, of `write-timestamp` the seconds and the nanoseconds. Bytes are answered as hexadecimal digits, a
//! duration and a timestamp as its seconds and its nanoseconds, paths each behind a blank.
//!
//! What is wanted of durations, timestamps and masks is made by checks/text-rows.

use crate::said::{shown, words};
use pbx_text::{
    TextFault, camel_case_to_snake_case, read_base64, read_duration, read_mask, read_signed,
    read_timestamp, read_unsigned, snake_case_to_camel_case, write_base64, write_duration,
    write_mask, write_signed, write_timestamp, write_unsigned,
};
use pbx_wire::{Text, Texts};
use std::alloc::{AllocError, Global};
use test_rows::{Row, Stop};

/// What was made, or what is told where a text is not of its form or what it says is out of range.
fn known<T: Drop>(alloc: Global, made: Result<T, TextFault>) -> Result<T, Stop> {
    match made {
        Ok(it) => Ok(it),
        Err(TextFault::Form) => Err(Stop::refused(alloc, "no such text")),
        Err(TextFault::Range) => Err(Stop::refused(alloc, "out of range")),
        Err(TextFault::NoMemory) => Err(Stop::NoMemory),
    }
}

/// A field of a row as a signed number; 0 where it is none.
fn signed(row: &Row, at: usize) -> i64 {
    row.text(at).parse::<i64>().unwrap_or(0)
}

fn signed_text(alloc: Global, row: &Row) -> Result<String, Stop> {
    let number = known(
        alloc,
        read_signed(row.text(2), signed(row, 0), signed(row, 1)),
    )?;
    Ok(format!(in alloc; "{number}")?)
}

fn unsigned_text(alloc: Global, row: &Row) -> Result<String, Stop> {
    let number = known(alloc, read_unsigned(row.text(1), row.number(0)))?;
    Ok(format!(in alloc; "{number}")?)
}

fn base64_text(alloc: Global, row: &Row) -> Result<String, Stop> {
    let bytes = known(alloc, read_base64(alloc, row.text(0)))?;
    shown(alloc, bytes.as_slice())
}

fn written_signed(alloc: Global, row: &Row) -> Result<String, Stop> {
    let text = write_signed(alloc, signed(row, 0))?;
    words(alloc, text.as_str())
}

fn written_unsigned(alloc: Global, row: &Row) -> Result<String, Stop> {
    let text = write_unsigned(alloc, row.number(0))?;
    words(alloc, text.as_str())
}

fn written_base64(alloc: Global, row: &Row) -> Result<String, Stop> {
    let text = write_base64(alloc, row.bytes(0))?;
    words(alloc, text.as_str())
}

fn duration_text(alloc: Global, row: &Row) -> Result<String, Stop> {
    let (seconds, nanos) = known(alloc, read_duration(row.text(0)))?;
    Ok(format!(in alloc; "{seconds} {nanos}")?)
}

/// A field of a row as nanoseconds; 0 where it is none.
fn nanos(row: &Row, at: usize) -> i32 {
    row.text(at).parse::<i32>().unwrap_or(0)
}

fn written_duration(alloc: Global, row: &Row) -> Result<String, Stop> {
    let text = known(alloc, write_duration(alloc, signed(row, 0), nanos(row, 1)))?;
    words(alloc, text.as_str())
}

fn snake_text(alloc: Global, row: &Row) -> Result<String, Stop> {
    let text = known(alloc, camel_case_to_snake_case(alloc, row.text(0)))?;
    words(alloc, text.as_str())
}

fn camel_text(alloc: Global, row: &Row) -> Result<String, Stop> {
    let text = known(alloc, snake_case_to_camel_case(alloc, row.text(0)))?;
    words(alloc, text.as_str())
}

fn add_paths(told: &mut String, paths: &Texts) -> Result<(), AllocError> {
    for path in paths.as_slice() {
        told.push(' ')?;
        told.push_str(path.as_str())?;
    }
    Ok(())
}

fn mask_paths(alloc: Global, row: &Row) -> Result<String, Stop> {
    let paths = known(alloc, read_mask(alloc, row.text(0)))?;
    let mut told = String::new(alloc);
    let added = add_paths(&mut told, &paths);
    drop(paths);
    added?;
    Ok(told)
}

/// The row's fields.
fn paths_of(alloc: Global, row: &Row) -> Result<Texts, Stop> {
    let mut paths = Texts::new(alloc);
    for at in 0..row.len() {
        paths.add(Text::from_str(alloc, row.text(at))?)?;
    }
    Ok(paths)
}

fn written_mask(alloc: Global, row: &Row) -> Result<String, Stop> {
    let paths = paths_of(alloc, row)?;
    let text = write_mask(alloc, &paths);
    drop(paths);
    words(alloc, known(alloc, text)?.as_str())
}

fn timestamp_text(alloc: Global, row: &Row) -> Result<String, Stop> {
    let (seconds, nanos) = known(alloc, read_timestamp(row.text(0)))?;
    Ok(format!(in alloc; "{seconds} {nanos}")?)
}

fn written_timestamp(alloc: Global, row: &Row) -> Result<String, Stop> {
    let text = known(alloc, write_timestamp(alloc, signed(row, 0), nanos(row, 1)))?;
    words(alloc, text.as_str())
}

/// What the word asks for.
pub(crate) fn answer(alloc: Global, row: &Row, word: &str) -> Result<String, Stop> {
    match word {
        "signed" => signed_text(alloc, row),
        "unsigned" => unsigned_text(alloc, row),
        "base64" => base64_text(alloc, row),
        "write-signed" => written_signed(alloc, row),
        "write-unsigned" => written_unsigned(alloc, row),
        "write-base64" => written_base64(alloc, row),
        "duration" => duration_text(alloc, row),
        "write-duration" => written_duration(alloc, row),
        "snake" => snake_text(alloc, row),
        "camel" => camel_text(alloc, row),
        "mask" => mask_paths(alloc, row),
        "write-mask" => written_mask(alloc, row),
        "timestamp" => timestamp_text(alloc, row),
        "write-timestamp" => written_timestamp(alloc, row),
        _ => Err(Stop::NoSuchWord),
    }
}
