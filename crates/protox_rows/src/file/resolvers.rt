//! Questions about resolvers. The steps of a row put files, list calls that fail, open names, and resolve paths.

use crate::file::disks;
use crate::file::errors::add_long_line;
use crate::file::step::{Step, add_texts, halves, number, step_at, steps};
use crate::file::told::Told;
use pbx_desc_records::FileDescriptorProto;
use pbx_wire::{NoMemory, Text};
use protox_file_sources::{
    Error, ErrorKind, File, FileResolver, IncludeFileResolver, MemoryResolver,
    names_name_themselves, path_to_file_name,
};
use protox_io::MemoryDisk;
use std::alloc::Global;
use std::mem::drop;
use test_rows::Row;

const EMPTY: &str = "syntax = \"proto3\";";

/// The text, unless it is a hyphen.
fn optional(alloc: Global, words: &str) -> Result<Option<Text>, NoMemory> {
    match words {
        "-" => Ok(None),
        _ => Ok(Some(Text::from_str(alloc, words)?)),
    }
}

/// Gives a record its name, its syntax and its imports, which stand with commas between them.
fn fill_record(
    alloc: Global,
    record: &mut FileDescriptorProto,
    words: &str,
) -> Result<(), NoMemory> {
    let (name, rest) = halves(words);
    let (syntax, imports) = halves(rest);
    record.name = optional(alloc, name)?;
    record.syntax = optional(alloc, syntax)?;
    add_texts(alloc, &mut record.dependency, imports)
}

fn put_record(
    alloc: Global,
    resolver: &mut MemoryResolver,
    step: Step<'_>,
) -> Result<(), NoMemory> {
    let mut record = FileDescriptorProto::new(alloc);
    if fill_record(alloc, &mut record, step.text).is_err() {
        drop(record);
        return Err(NoMemory);
    }
    resolver.put_file(step.name, File::from(record))
}

/// Puts a file that was read at a path.
fn put_read(alloc: Global, resolver: &mut MemoryResolver, step: Step<'_>) -> Result<(), NoMemory> {
    let mut disk = MemoryDisk::new(alloc);
    if disk.put(step.text, EMPTY.as_bytes()).is_err() {
        drop(disk);
        return Err(NoMemory);
    }
    match File::open(alloc, &mut disk, step.name, step.text) {
        Ok(file) => resolver.put_file(step.name, file),
        Err(error) => {
            drop(error);
            Err(NoMemory)
        }
    }
}

/// Maps a path to the name of another path.
fn map(alloc: Global, resolver: &mut MemoryResolver, step: Step<'_>) -> Result<(), NoMemory> {
    names_name_themselves();
    match path_to_file_name(alloc, step.text)? {
        Some(name) => resolver.map(step.name, name.as_str()),
        None => Ok(()),
    }
}

/// The name of the file of that number.
fn numbered(alloc: Global, number: u64) -> Result<String, NoMemory> {
    Ok(format!(in alloc; "{number}.proto")?)
}

/// Puts the file of that number, which imports another.
fn put_numbered(
    alloc: Global,
    resolver: &mut MemoryResolver,
    number: u64,
    import: &str,
) -> Result<(), NoMemory> {
    let name = numbered(alloc, number)?;
    let source = Text::joined(alloc, &[EMPTY, " import \"", import, "\";"])?;
    resolver.put(name.as_str(), source.as_str())
}

/// Puts so many files from 0 on, of which each imports the one before.
fn put_chain(alloc: Global, resolver: &mut MemoryResolver, count: u64) -> Result<(), NoMemory> {
    resolver.put("0.proto", EMPTY)?;
    for number in 1..count {
        put_numbered(
            alloc,
            resolver,
            number,
            numbered(alloc, number - 1)?.as_str(),
        )?;
    }
    Ok(())
}

/// Lets the resolver have what a step puts.
fn put(alloc: Global, resolver: &mut MemoryResolver, step: Step<'_>) -> Result<(), NoMemory> {
    match step.word {
        "file" => resolver.put(step.name, step.text),
        "record" => put_record(alloc, resolver, step),
        "read" => put_read(alloc, resolver, step),
        "map" => map(alloc, resolver, step),
        "chain" => put_chain(alloc, resolver, number(step.text)),
        "fail" => resolver.fail_at(number(step.text)),
        _ => Ok(()),
    }
}

/// A resolver with what the steps of a row put in the member of that number: each step `next` begins a further member.
pub(crate) fn filled_member(
    alloc: Global,
    row: &Row,
    member: usize,
    told: &mut Told,
) -> MemoryResolver {
    let mut resolver = MemoryResolver::new(alloc);
    let mut at: usize = 0;
    for number in 0..steps(row) {
        let step = step_at(row, number);
        if step.word == "next" {
            at = at.saturating_add(1);
        }
        if at == member && put(alloc, &mut resolver, step).is_err() {
            told.say("out of memory");
        }
    }
    resolver
}

/// A resolver with what the steps of a row put.
pub(crate) fn filled(alloc: Global, row: &Row, told: &mut Told) -> MemoryResolver {
    filled_member(alloc, row, 0, told)
}

/// Adds what is wrong, of which of a fault of the text only the file is told.
fn add_error(alloc: Global, error: &Error, told: &mut Told) {
    match error.kind() {
        ErrorKind::Parse(error) => {
            told.add("syntax error in ");
            told.add_quoted(error.file());
        }
        _ => add_long_line(alloc, error, told),
    }
}

/// Adds the source of a file, or else the name of its record.
fn add_file(file: &File, told: &mut Told) {
    match file.source() {
        Some(source) => {
            told.add("source ");
            told.add_quoted(Some(source));
        }
        None => {
            told.add("record ");
            told.add_quoted(Some(file.name()));
        }
    }
}

/// What a resolver answers to a name.
pub(crate) fn open<R: FileResolver>(alloc: Global, resolver: &mut R, name: &str, told: &mut Told) {
    told.next();
    let answer = resolver.open_file(alloc, name);
    match &answer {
        Ok(file) => add_file(file, told),
        Err(error) => add_error(alloc, error, told),
    }
    drop(answer);
    if resolver.spent() {
        told.say("spent");
    }
}

/// What a resolver makes of a path.
fn resolve<R: FileResolver>(alloc: Global, resolver: &R, path: &str, told: &mut Told) {
    told.next();
    match resolver.resolve_path(alloc, path) {
        Ok(Some(name)) => told.add_quoted(Some(name.as_str())),
        Ok(None) => told.add("none"),
        Err(_) => told.add("out of memory"),
    }
}

/// Takes the steps of a row.
pub(crate) fn take_steps<R: FileResolver>(
    alloc: Global,
    row: &Row,
    resolver: &mut R,
    told: &mut Told,
) {
    for number in 0..steps(row) {
        let step = step_at(row, number);
        match step.word {
            "open" => open(alloc, resolver, step.text, told),
            "resolve" => resolve(alloc, resolver, step.text, told),
            _ => {}
        }
    }
}

/// The steps of a row over files in memory.
pub(crate) fn of_memory(alloc: Global, row: &Row, told: &mut Told) {
    let mut resolver = filled(alloc, row, told);
    take_steps(alloc, row, &mut resolver, told);
}

/// The steps of a row over a folder of a disk in memory, and then those that are taken at the disk.
fn over_folder(alloc: Global, row: &Row, folder: Text, told: &mut Told) {
    let mut disk = MemoryDisk::new(alloc);
    disks::fill(row, &mut disk, told);
    let mut resolver = IncludeFileResolver::new(folder, disk);
    take_steps(alloc, row, &mut resolver, told);
    let mut disk = resolver.into_disk();
    disks::take_steps(alloc, row, &mut disk, told);
}

/// The same, of the folder that the first step names.
pub(crate) fn of_folder(alloc: Global, row: &Row, told: &mut Told) {
    match Text::from_str(alloc, step_at(row, 0).text) {
        Ok(folder) => over_folder(alloc, row, folder, told),
        Err(_) => told.say("out of memory"),
    }
}
