//! What is transcoded over the built-in files alone, or over those of a set.

use crate::program::objects::{came_of, line, words};
use crate::stop::Stop;
use hex::encode;
use pbx_json::SerializeOptions;
use pbx_wkt::make_wkt_descriptor_pool;
use protox_file::DescriptorSetFileResolver;
use protox_file_sources::GoogleFileResolver;
use protox_transcode::{TopError, Transcoded};
use serde_json::Value;
use std::alloc::Global;
use std::mem::drop;
use test_rows::Row;

const INPUT: usize = 1;

const TYPE: usize = 2;

const SET: usize = 3;

/// The wire bytes in hexadecimal digits and the canonical text.
fn done_told(alloc: Global, done: &Transcoded) -> Result<String, Stop> {
    let digits = encode(alloc, done.wire.as_slice())?;
    let text = done.tree.to_string(alloc)?;
    Ok(format!(in alloc; "{digits} {text}")?)
}

/// The same, or the line of what is refused.
pub(crate) fn told(alloc: Global, came: &Result<Transcoded, TopError>) -> Result<String, Stop> {
    match came {
        Ok(done) => done_told(alloc, done),
        Err(error) => line(alloc, error),
    }
}

/// The same of a tree over the built-in files.
fn over_built_in(alloc: Global, row: &Row, tree: &Value) -> Result<String, Stop> {
    let paths = words(alloc, row)?;
    let files = GoogleFileResolver::new(make_wkt_descriptor_pool(alloc)?);
    let options = SerializeOptions::default();
    let came = came_of(alloc, files, &paths, row.text(TYPE), tree, &options);
    let told = told(alloc, &came);
    drop(came);
    told
}

/// The same over the files of a set.
fn over_set(alloc: Global, row: &Row, tree: &Value) -> Result<String, Stop> {
    let paths = words(alloc, row)?;
    match DescriptorSetFileResolver::decode(alloc, row.bytes(SET)) {
        Ok(files) => {
            let options = SerializeOptions::default();
            let came = came_of(alloc, files, &paths, row.text(TYPE), tree, &options);
            let told = told(alloc, &came);
            drop(came);
            told
        }
        Err(_) => Ok(String::from_str(alloc, "no set")?),
    }
}

/// What comes of the input as a message of the type of built-in files.
pub(crate) fn built_in(alloc: Global, row: &Row) -> Result<String, Stop> {
    match Value::from_slice(alloc, row.bytes(INPUT)) {
        Ok(tree) => over_built_in(alloc, row, &tree),
        Err(_) => Ok(String::from_str(alloc, "no JSON")?),
    }
}

/// The same of files of a set.
pub(crate) fn from_set(alloc: Global, row: &Row) -> Result<String, Stop> {
    match Value::from_slice(alloc, row.bytes(INPUT)) {
        Ok(tree) => over_set(alloc, row, &tree),
        Err(_) => Ok(String::from_str(alloc, "no JSON")?),
    }
}
