//! What comes of files in memory whose opens fail, where each name is opened again, at most so many times.

use crate::program::built_in::told;
use crate::program::objects::{came_again, words};
use crate::program::sets;
use crate::stop::Stop;
use pbx_wire::NoMemory;
use protox_file_sources::MemoryResolver;
use serde_json::Value;
use std::alloc::Global;
use std::mem::drop;
use test_rows::Row;

const INPUT: usize = 1;

const TYPE: usize = 2;

const TRIES: usize = 3;

const CALLS: usize = 4;

const FILES: usize = 5;

/// Lists the opens that fail, and puts the files.
fn fill(files: &mut MemoryResolver, row: &Row) -> Result<(), NoMemory> {
    for call in row.text(CALLS).split(',') {
        if let Ok(call) = call.parse::<u64>() {
            files.fail_at(call)?;
        }
    }
    sets::fill(files, row, FILES)
}

fn transcoded(alloc: Global, row: &Row, tree: &Value) -> Result<String, Stop> {
    let paths = words(alloc, row)?;
    let mut files = MemoryResolver::new(alloc);
    if fill(&mut files, row).is_err() {
        drop(files);
        return Err(Stop::NoMemory);
    }
    let tries = row.text(TRIES).parse::<u32>().unwrap_or(0);
    let came = came_again(alloc, files, &paths, row.text(TYPE), tree, tries);
    let told = told(alloc, &came);
    drop(came);
    told
}

/// What comes of the input as a message of the type.
pub(crate) fn retried(alloc: Global, row: &Row) -> Result<String, Stop> {
    match Value::from_slice(alloc, row.bytes(INPUT)) {
        Ok(tree) => transcoded(alloc, row, &tree),
        Err(_) => Ok(String::from_str(alloc, "no JSON")?),
    }
}
