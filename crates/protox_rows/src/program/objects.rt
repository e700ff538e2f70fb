//! The words, files, input and outputs of a row.

use crate::stop::Stop;
use pbx_json::SerializeOptions;
use pbx_wire::{Blob, NoMemory, Text, Texts};
use protox_file_sources::FileResolver;
use protox_io::{MemoryDisk, MemorySink, MemorySource};
use protox_transcode::{TopError, Transcoded, compile_and_transcode, compile_and_transcode_retry};
use serde_json::Value;
use std::alloc::Global;
use std::mem::drop;
use test_rows::Row;

const WORDS: usize = 0;

const INPUT: usize = 1;

const FAILING: usize = 2;

const CALL: usize = 3;

const FILES: usize = 4;

/// The words of a text, a blank between each two.
fn split(alloc: Global, text: &str) -> Result<Texts, NoMemory> {
    let mut words = Texts::new(alloc);
    for word in text.split(' ') {
        words.add(Text::from_str(alloc, word)?)?;
    }
    Ok(words)
}

/// The words of a row, none where it has no text for them.
pub(crate) fn words(alloc: Global, row: &Row) -> Result<Texts, NoMemory> {
    match row.text(WORDS) {
        "" => Ok(Texts::new(alloc)),
        text => split(alloc, text),
    }
}

/// What comes of transcoding the tree as a message of the type, under the options, over the files of the resolver, which goes.
pub(crate) fn came_of<R: FileResolver + Drop>(
    alloc: Global,
    files: R,
    paths: &Texts,
    type_name: &str,
    tree: &Value,
    options: &SerializeOptions,
) -> Result<Transcoded, TopError> {
    compile_and_transcode(alloc, files, paths, type_name, tree, options).result
}

/// The same under the default options, where each path is opened again, at most so many times, as long as opening it meets a fault.
pub(crate) fn came_again<R: FileResolver + Drop>(
    alloc: Global,
    files: R,
    paths: &Texts,
    type_name: &str,
    tree: &Value,
    tries: u32,
) -> Result<Transcoded, TopError> {
    let options = SerializeOptions::default();
    compile_and_transcode_retry(alloc, files, paths, type_name, tree, tries, &options).result
}

/// The line of what is refused.
pub(crate) fn line(alloc: Global, error: &TopError) -> Result<String, Stop> {
    let line = error.line(alloc)?;
    Ok(String::from_str(alloc, line.as_str())?)
}

/// The number of the object's call that fails, if the row has that object fail.
fn failing_call(row: &Row, object: &str) -> Option<u64> {
    if row.text(FAILING) == object {
        Some(row.number(CALL))
    } else {
        None
    }
}

pub(crate) fn input(alloc: Global, row: &Row) -> Result<MemorySource, NoMemory> {
    let bytes = Blob::from_slice(alloc, row.bytes(INPUT))?;
    Ok(MemorySource::new(bytes, failing_call(row, "input")))
}

/// The sink of the name `out` or `err`.
pub(crate) fn sink(alloc: Global, row: &Row, object: &str) -> MemorySink {
    MemorySink::new(alloc, failing_call(row, object))
}

fn put(disk: &mut MemoryDisk, name: &str, source: &[u8]) -> Result<(), NoMemory> {
    match source {
        b"oversized" => disk.put_oversized(name),
        _ => disk.put(name, source),
    }
}

/// Lists the calls of the disk that fail, if the row has it fail.
fn list_failing(disk: &mut MemoryDisk, row: &Row) -> Result<(), NoMemory> {
    if row.text(FAILING) != "disk" {
        return Ok(());
    }
    for call in row.text(CALL).split(',') {
        disk.fail_at(call.parse::<u64>().unwrap_or(0))?;
    }
    Ok(())
}

/// Puts the files of the row, and lists the calls that fail.
fn fill(disk: &mut MemoryDisk, row: &Row) -> Result<(), NoMemory> {
    for at in (FILES..row.len()).step_by(2) {
        put(disk, row.text(at), row.bytes(at.saturating_add(1)))?;
    }
    list_failing(disk, row)
}

/// The disk with the files of the row.
pub(crate) fn disk(alloc: Global, row: &Row) -> Result<MemoryDisk, NoMemory> {
    let mut disk = MemoryDisk::new(alloc);
    if let Err(error) = fill(&mut disk, row) {
        drop(disk);
        return Err(error);
    }
    Ok(disk)
}
