//! Asks of `pbx_wire`, `pbx_content_codec`, `pbx_desc_shapes`, `pbx_desc_encoding`, `pbx_json_reading` and
//! `pbx_json_writing`.
//!
//! A row asks `record` and a word. Its third field and those behind it are what the word needs, as written at its function.
//! Where a record is asked about, the fields behind its first are steps, which make it part by part.

mod contents;
mod enums;
mod files;
mod json;
mod made;
mod messages;
mod nested;
mod parts;
mod services;
mod shapes;
mod wire;
mod written;

use made::make;
use shapes::schema_named;
use std::alloc::Global;
use test_rows::{Row, Stop};

/// What the word asks for.
pub(crate) fn answer(alloc: Global, row: &Row, word: &str) -> Result<String, Stop> {
    match word {
        "varints" => wire::varints(alloc, row),
        "read-records" => wire::read(alloc, row),
        "read-nested" => wire::nested(alloc, row),
        "nest-records" => nested::answer(alloc, row),
        "read-front" => wire::front(alloc, row),
        "front-key" => wire::key(alloc, row),
        "write-records" => wire::written(alloc, row),
        "append-record" => wire::appended(alloc, row),
        "joined" => wire::joined(alloc, row),
        "between" => wire::between(alloc, row),
        "numbers" => wire::numbers(alloc, row),
        "push-bytes" => wire::pushed(alloc, row),
        "field-of" | "keeps-order" => shapes::of_descriptors(alloc, row, word),
        "encode" | "decode" | "read-json" | "write-json" => of_contents(alloc, row, word),
        _ => of_made(alloc, row, word),
    }
}

/// The same, for what is asked of contents, by the schema that the row's first field names.
fn of_contents(alloc: Global, row: &Row, word: &str) -> Result<String, Stop> {
    let schema = schema_named(alloc, row.text(0))?;
    contents::answer(alloc, &schema, row, word)
}

/// The same, for what is asked of what steps make.
fn of_made(alloc: Global, row: &Row, word: &str) -> Result<String, Stop> {
    let mut made = make(alloc, row)?;
    written::answer(alloc, &mut made, row, word)
}
