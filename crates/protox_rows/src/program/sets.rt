//! The set of files that a transcoding gives, the paths that it tells as repeated, and the tree that it writes under options.

use crate::program::objects::{came_of, words};
use crate::stop::Stop;
use hex::encode;
use pbx_json::SerializeOptions;
use pbx_wire::NoMemory;
use protox_file_sources::MemoryResolver;
use protox_transcode::{TopError, Transcoded};
use serde_json::Value;
use std::alloc::Global;
use std::mem::drop;
use test_rows::Row;

const INPUT: usize = 1;

const TYPE: usize = 2;

const FILES: usize = 3;

/// Puts the files of the row, which stand from that field on.
pub(crate) fn fill(files: &mut MemoryResolver, row: &Row, from: usize) -> Result<(), NoMemory> {
    for at in (from..row.len()).step_by(2) {
        files.put(row.text(at), row.text(at.saturating_add(1)))?;
    }
    Ok(())
}

fn resolver(alloc: Global, row: &Row) -> Result<MemoryResolver, NoMemory> {
    let mut files = MemoryResolver::new(alloc);
    if let Err(error) = fill(&mut files, row, FILES) {
        drop(files);
        return Err(error);
    }
    Ok(files)
}

/// The numbers as a JSON array.
fn array(alloc: Global, numbers: &[u64]) -> Result<String, NoMemory> {
    let mut text = String::from_str(alloc, "[")?;
    let mut between = "";
    for number in numbers {
        let item = format!(in alloc; "{between}{number}")?;
        text.push_str(item.as_str())?;
        between = ", ";
    }
    text.push_str("]")?;
    Ok(text)
}

/// The options that the word asks for: the default ones, or others.
fn options(word: &str) -> SerializeOptions {
    let other = word == "written";
    SerializeOptions::new()
        .stringify_64_bit_integers(!other)
        .use_enum_numbers(other)
        .use_proto_field_name(other)
        .skip_default_fields(!other)
}

/// The set in hexadecimal digits, or what else the word asks for: the indices of the repeated paths, or the tree's text.
fn told(alloc: Global, came: &Result<Transcoded, TopError>, word: &str) -> Result<String, Stop> {
    match came {
        Ok(done) if word == "repeated" => Ok(array(alloc, done.repeated.as_slice())?),
        Ok(done) if word == "written" => Ok(done.tree.to_string(alloc)?),
        Ok(done) => Ok(encode(alloc, done.set.as_slice())?),
        Err(_) => Ok(String::from_str(alloc, "refused")?),
    }
}

fn told_with(alloc: Global, row: &Row, word: &str, tree: &Value) -> Result<String, Stop> {
    let paths = words(alloc, row)?;
    let files = resolver(alloc, row)?;
    let came = came_of(alloc, files, &paths, row.text(TYPE), tree, &options(word));
    let told = told(alloc, &came, word);
    drop(came);
    told
}

/// What the word asks of the files, where the input is transcoded as a message of the type.
pub(crate) fn set(alloc: Global, row: &Row, word: &str) -> Result<String, Stop> {
    match Value::from_slice(alloc, row.bytes(INPUT)) {
        Ok(tree) => told_with(alloc, row, word, &tree),
        Err(_) => Ok(String::from_str(alloc, "no JSON")?),
    }
}
