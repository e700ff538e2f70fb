//! Asks of `pbx_content_codec`. What is wanted is from the examples of Protocol Buffers "Encoding" and from others by hand.

use crate::records::json;
use crate::said::{content_bytes, cut, small, words};
use pbx_content::Schema;
use pbx_content_codec::{Contents, Held, content_records, decode};
use pbx_wire::{DecodeError, List, Rec, Text};
use std::alloc::Global;
use std::mem::replace;
use test_rows::{Done, Row, Stop};

/// Contents that steps make.
#[derive(Drop)]
struct Filled {
    contents: Contents,
    /// The values of the next repeated field.
    many: List<Held>,
}

/// A value of a kind.
fn held(alloc: Global, kind: &str, value: &str) -> Result<Held, Stop> {
    match kind {
        "int32" => Ok(Held::I32(value.parse::<i32>().unwrap_or(0))),
        "uint64" => Ok(Held::U64(value.parse::<u64>().unwrap_or(0))),
        "bool" => Ok(Held::Bool(value == "true")),
        "string" => Ok(Held::Text(Text::from_str(alloc, value)?)),
        _ => Err(Stop::NoSuchWord),
    }
}

fn add_kept(filled: &mut Filled, number: u32, value: &str) -> Done {
    let value = value.parse::<u64>().unwrap_or(0);
    filled.contents.kept.add(Rec::Varint(number, value))?;
    Ok(())
}

fn add_item(alloc: Global, filled: &mut Filled, kind: &str, value: &str) -> Done {
    filled.many.add(held(alloc, kind, value)?)?;
    Ok(())
}

/// The values as those of a repeated field.
fn put_many(alloc: Global, filled: &mut Filled, number: u32) -> Done {
    let many = replace(&mut filled.many, List::new(alloc));
    filled.contents.put(number, Held::Many(many))?;
    Ok(())
}

/// The contents as the one field of others.
fn wrap(alloc: Global, filled: &mut Filled, number: u32) -> Done {
    let inner = replace(&mut filled.contents, Contents::new(alloc));
    filled.contents.put(number, Held::Message(inner))?;
    Ok(())
}

fn put(alloc: Global, filled: &mut Filled, number: u32, kind: &str, value: &str) -> Done {
    filled.contents.put(number, held(alloc, kind, value)?)?;
    Ok(())
}

/// A step with contents: `kept NUMBER VALUE`, `item KIND VALUE`, `many NUMBER` (of the items), `message NUMBER` (the
/// contents as a field of others), or `KIND NUMBER VALUE`.
fn step(alloc: Global, filled: &mut Filled, text: &str) -> Done {
    let (of, rest) = cut(text);
    let (first, value) = cut(rest);
    let number = small(first.parse::<u64>().unwrap_or(0));
    match of {
        "kept" => add_kept(filled, number, value),
        "item" => add_item(alloc, filled, first, value),
        "many" => put_many(alloc, filled, number),
        "message" => wrap(alloc, filled, number),
        kind => put(alloc, filled, number, kind, value),
    }
}

/// The row's steps are its fields from the second on.
fn fill(alloc: Global, row: &Row) -> Result<Box<Filled>, Stop> {
    let mut filled = Box::new(
        alloc,
        Filled {
            contents: Contents::new(alloc),
            many: List::new(alloc),
        },
    )?;
    for at in 1..row.len() {
        step(alloc, &mut filled, row.text(at))?;
    }
    Ok(filled)
}

fn count_of(alloc: Global, schema: &Schema, contents: &Contents) -> Result<usize, Stop> {
    Ok(content_records(alloc, schema, 0, contents)?.len())
}

fn line(alloc: Global, schema: &Schema, contents: &Contents) -> Result<String, Stop> {
    let count = count_of(alloc, schema, contents)?;
    let bytes = content_bytes(alloc, schema, 0, contents)?;
    Ok(format!(in alloc; "{count} {bytes}")?)
}

/// Of the word for a schema and steps: of how many records the contents are written, and what is written.
fn encoded(alloc: Global, schema: &Schema, row: &Row) -> Result<String, Stop> {
    let filled = fill(alloc, row)?;
    line(alloc, schema, &filled.contents)
}

/// What the bytes mean as a message of the schema's first type; None where they break a rule.
pub(crate) fn meaning(
    alloc: Global,
    schema: &Schema,
    bytes: &[u8],
) -> Result<Option<Contents>, Stop> {
    match decode(alloc, schema, 0, bytes) {
        Ok(contents) => Ok(Some(contents)),
        Err(DecodeError::NoMemory) => Err(Stop::NoMemory),
        Err(_) => Ok(None),
    }
}

/// Of the word for a schema and bytes: what is written for what they mean.
fn decoded(alloc: Global, schema: &Schema, row: &Row) -> Result<String, Stop> {
    match meaning(alloc, schema, row.bytes(1))? {
        Some(contents) => content_bytes(alloc, schema, 0, &contents),
        None => words(alloc, "no message"),
    }
}

/// What the row asks of contents.
pub(crate) fn answer(
    alloc: Global,
    schema: &Schema,
    row: &Row,
    word: &str,
) -> Result<String, Stop> {
    match word {
        "encode" => encoded(alloc, schema, row),
        "decode" => decoded(alloc, schema, row),
        "read-json" => json::read(alloc, schema, row),
        "write-json" => json::written(alloc, schema, row),
        _ => Err(Stop::NoSuchWord),
    }
}
