//! Asks of `pbx_json_reading` and `pbx_json_writing`. What is wanted follows "ProtoJSON Format".

use crate::records::contents::meaning;
use crate::said::{content_bytes, words};
use pbx_content::Schema;
use pbx_content_codec::Contents;
use pbx_json_meaning::{DeserializeOptions, JsonError, JsonKind, SerializeOptions};
use pbx_json_reading::read_content;
use pbx_json_writing::write_content;
use serde_json::Value;
use std::alloc::Global;
use test_rows::{Row, Stop};

fn refused(alloc: Global, error: JsonError) -> Result<String, Stop> {
    match error.kind {
        JsonKind::NoMemory => Err(Stop::NoMemory),
        _ => words(alloc, "refused"),
    }
}

/// What is written for what the tree stands for.
fn stands_for(
    alloc: Global,
    schema: &Schema,
    allow_unknown: bool,
    tree: &Value,
) -> Result<String, Stop> {
    let options = DeserializeOptions::new().deny_unknown_fields(!allow_unknown);
    match read_content(alloc, schema, 0, tree, &options) {
        Ok(contents) => content_bytes(alloc, schema, 0, &contents),
        Err(error) => refused(alloc, error),
    }
}

/// Of the word for a schema, `strict` or `allow-unknown` and a JSON text: what is written for what it stands for.
pub(crate) fn read(alloc: Global, schema: &Schema, row: &Row) -> Result<String, Stop> {
    match Value::from_str(alloc, row.text(2)) {
        Ok(tree) => stands_for(alloc, schema, row.text(1) == "allow-unknown", &tree),
        Err(_) => words(alloc, "no JSON"),
    }
}

/// The canonical JSON text.
fn text_of(alloc: Global, schema: &Schema, contents: &Contents) -> Result<String, Stop> {
    match write_content(alloc, schema, 0, contents, &SerializeOptions::new()) {
        Ok(tree) => {
            let text = tree.to_string(alloc);
            drop(tree);
            Ok(text?)
        }
        Err(error) => refused(alloc, error),
    }
}

/// Of the word for a schema and bytes: the canonical JSON text of what they mean.
pub(crate) fn written(alloc: Global, schema: &Schema, row: &Row) -> Result<String, Stop> {
    match meaning(alloc, schema, row.bytes(1))? {
        Some(contents) => text_of(alloc, schema, &contents),
        None => words(alloc, "no message"),
    }
}
