//! Files whose messages nest so many levels, which no source has.

use crate::program::objects::{came_of, line};
use crate::stop::Stop;
use pbx_desc_records::{DescriptorProto, FileDescriptorProto};
use pbx_json::SerializeOptions;
use pbx_wire::{NoMemory, Text, Texts};
use protox_file_sources::{File, MemoryResolver};
use protox_transcode::{TopError, Transcoded};
use serde_json::Value;
use std::alloc::Global;
use std::mem::{drop, replace};
use test_rows::Row;

const TYPE: usize = 0;

const FILES: usize = 1;

fn named(alloc: Global, name: &str) -> Result<DescriptorProto, NoMemory> {
    let name = Text::from_str(alloc, name)?;
    let mut message = DescriptorProto::new(alloc);
    message.name = Some(name);
    Ok(message)
}

/// Puts the message into another one, which takes its place.
fn enclose(alloc: Global, message: &mut DescriptorProto) -> Result<(), NoMemory> {
    let outer = named(alloc, "M")?;
    let inner = replace(message, outer);
    message.nested_type.add(inner)
}

/// Puts so many messages around the message, each into the next.
fn enclose_times(alloc: Global, message: &mut DescriptorProto, times: u64) -> Result<(), NoMemory> {
    for _ in 0..times {
        enclose(alloc, message)?;
    }
    Ok(())
}

/// A message `M` with another one in it, and so on, so many of them.
fn nested(alloc: Global, count: u64) -> Result<DescriptorProto, NoMemory> {
    let mut message = named(alloc, "M")?;
    if let Err(error) = enclose_times(alloc, &mut message, count.saturating_sub(1)) {
        drop(message);
        return Err(error);
    }
    Ok(message)
}

/// Gives the file its name, its syntax, and as its package the name up to the first dot.
fn name_file(alloc: Global, file: &mut FileDescriptorProto, name: &str) -> Result<(), NoMemory> {
    file.name = Some(Text::from_str(alloc, name)?);
    file.syntax = Some(Text::from_str(alloc, "proto3")?);
    if let Some((package, _)) = name.split_once('.') {
        file.package = Some(Text::from_str(alloc, package)?);
    }
    Ok(())
}

fn fill_file(
    alloc: Global,
    file: &mut FileDescriptorProto,
    name: &str,
    count: u64,
) -> Result<(), NoMemory> {
    name_file(alloc, file, name)?;
    file.message_type.add(nested(alloc, count)?)
}

/// A file of proto3 with so many messages in one another, in a package of the file's name up to the first dot.
fn file(alloc: Global, name: &str, count: u64) -> Result<FileDescriptorProto, NoMemory> {
    let mut file = FileDescriptorProto::new(alloc);
    if let Err(error) = fill_file(alloc, &mut file, name, count) {
        drop(file);
        return Err(error);
    }
    Ok(file)
}

/// Puts the file under its name, and adds this to the paths.
fn put(
    alloc: Global,
    files: &mut MemoryResolver,
    paths: &mut Texts,
    name: &str,
    count: u64,
) -> Result<(), NoMemory> {
    paths.add(Text::from_str(alloc, name)?)?;
    let made = file(alloc, name, count)?;
    files.put_file(name, File::from_file_descriptor_proto(made))
}

/// Puts the files of the row under their names, and adds these to the paths.
fn fill(
    alloc: Global,
    files: &mut MemoryResolver,
    paths: &mut Texts,
    row: &Row,
) -> Result<(), NoMemory> {
    for at in (FILES..row.len()).step_by(2) {
        let count = row.number(at.saturating_add(1));
        put(alloc, files, paths, row.text(at), count)?;
    }
    Ok(())
}

/// `ok`, or the line of what is refused.
fn told(alloc: Global, came: &Result<Transcoded, TopError>) -> Result<String, Stop> {
    match came {
        Ok(_) => Ok(String::from_str(alloc, "ok")?),
        Err(error) => line(alloc, error),
    }
}

/// What comes of transcoding an object without members, as a message of the type.
fn transcoded(alloc: Global, row: &Row, tree: &Value) -> Result<String, Stop> {
    let mut files = MemoryResolver::new(alloc);
    let mut paths = Texts::new(alloc);
    if fill(alloc, &mut files, &mut paths, row).is_err() {
        drop(files);
        return Err(Stop::NoMemory);
    }
    let options = SerializeOptions::default();
    let came = came_of(alloc, files, &paths, row.text(TYPE), tree, &options);
    let told = told(alloc, &came);
    drop(came);
    told
}

/// What comes of files with so many messages in one another: of a type's name, and then names of files and counts.
pub(crate) fn deep(alloc: Global, row: &Row) -> Result<String, Stop> {
    match Value::from_slice(alloc, b"{}") {
        Ok(tree) => transcoded(alloc, row, &tree),
        Err(_) => Ok(String::from_str(alloc, "no JSON")?),
    }
}
