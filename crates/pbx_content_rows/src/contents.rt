//! Asks of `pbx_content_codec`: the bytes of a message, and what is written for what they mean.
//!
//! Of a row that asks `content decode`, or `content decode-parts`, the third field is a shape, whose first type the message
//! has, and the fourth the bytes in hexadecimal digits. The answer is what is written for what they mean, in such digits, or
//! the rule that they break with the offset of the record that breaks it. `test_rows` says how a shape is written.
//!
//! A row that asks `content merge` has the bytes of an old message before those that are read behind it; the answer where a
//! rule is broken has besides what is written for the old message. One that asks `content merge-of` has a second shape, of
//! the old message, before its bytes.
//!
//! What is wanted is made by checks/content-rows, but for the rows `content/hand/`.

use crate::said::{content_bytes, fault_line};
use pbx_content::Schema;
use pbx_content_codec::{Contents, decode, decode_parts, merge};
use pbx_wire::DecodeError;
use std::alloc::Global;
use test_rows::{Row, Stop, schema};

/// What is written for what the bytes were read as, or the fault.
fn written(
    alloc: Global,
    schema: &Schema,
    read: Result<Contents, DecodeError>,
) -> Result<String, Stop> {
    match read {
        Ok(contents) => content_bytes(alloc, schema, 0, &contents),
        Err(fault) => fault_line(alloc, fault),
    }
}

/// The fault, and what is written for the old message.
fn fault_behind(
    alloc: Global,
    schema: &Schema,
    old: &Contents,
    fault: DecodeError,
) -> Result<String, Stop> {
    let line = fault_line(alloc, fault)?;
    let kept = content_bytes(alloc, schema, 0, old)?;
    Ok(format!(in alloc; "{line}, behind {kept}")?)
}

/// What is written for the bytes behind the old message; or the fault, and what is written for the old message.
fn merged(alloc: Global, schema: &Schema, old: &Contents, bytes: &[u8]) -> Result<String, Stop> {
    match merge(alloc, schema, 0, old, bytes) {
        Ok(contents) => content_bytes(alloc, schema, 0, &contents),
        Err(fault) => fault_behind(alloc, schema, old, fault),
    }
}

/// The same where the old message is what the bytes mean as one of a shape of its own.
fn merged_behind(
    alloc: Global,
    schema: &Schema,
    old_schema: &Schema,
    old: &[u8],
    bytes: &[u8],
) -> Result<String, Stop> {
    match decode(alloc, old_schema, 0, old) {
        Ok(old) => merged(alloc, schema, &old, bytes),
        Err(fault) => fault_line(alloc, fault),
    }
}

/// Of the bytes of an old message: what is written for those of the row's last field behind them.
fn merged_of_one(alloc: Global, row: &Row, schema: &Schema, old: &[u8]) -> Result<String, Stop> {
    let bytes = hex::decode(alloc, row.text(2))?;
    merged_behind(alloc, schema, schema, old, bytes.as_slice())
}

/// What the word asks of the shape and the bytes of one message.
fn asked_of_one(
    alloc: Global,
    row: &Row,
    word: &str,
    schema: &Schema,
    bytes: &[u8],
) -> Result<String, Stop> {
    match word {
        "decode" => written(alloc, schema, decode(alloc, schema, 0, bytes)),
        "decode-parts" => written(alloc, schema, decode_parts(alloc, schema, 0, bytes)),
        "merge" => merged_of_one(alloc, row, schema, bytes),
        _ => Err(Stop::NoSuchWord),
    }
}

/// What a row asks that begins with one shape and the bytes of one message.
fn of_one(alloc: Global, row: &Row, word: &str) -> Result<String, Stop> {
    let bytes = hex::decode(alloc, row.text(1))?;
    let own = schema(alloc, row.text(0))?;
    asked_of_one(alloc, row, word, &own, bytes.as_slice())
}

/// What is written for the bytes behind the old message, which has the shape of the row's second field.
fn merged_of_two(
    alloc: Global,
    row: &Row,
    own: &Schema,
    old: &[u8],
    bytes: &[u8],
) -> Result<String, Stop> {
    let other = schema(alloc, row.text(1))?;
    merged_behind(alloc, own, &other, old, bytes)
}

/// What a row asks that begins with two shapes and the bytes of two messages.
fn of_two(alloc: Global, row: &Row) -> Result<String, Stop> {
    let old = hex::decode(alloc, row.text(2))?;
    let bytes = hex::decode(alloc, row.text(3))?;
    let own = schema(alloc, row.text(0))?;
    merged_of_two(alloc, row, &own, old.as_slice(), bytes.as_slice())
}

/// What the word asks for.
pub(crate) fn answer(alloc: Global, row: &Row, word: &str) -> Result<String, Stop> {
    match word {
        "merge-of" => of_two(alloc, row),
        _ => of_one(alloc, row, word),
    }
}
