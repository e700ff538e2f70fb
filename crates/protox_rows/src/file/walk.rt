//! Questions about files with all that they import. The steps of a row put files, set limits and open paths.

use crate::file::compiled::{include, say_encoded, say_set};
use crate::file::errors::{add_long_line, sort};
use crate::file::over::{filled_disk, folders};
use crate::file::resolvers;
use crate::file::sets::add_fault;
use crate::file::step::{Step, add_texts, small_number, step_at, steps};
use crate::file::told::Told;
use pbx_desc_records::FieldDescriptorProto;
use pbx_link::DescriptorPool;
use pbx_wire::Texts;
use protox_compile::{Compiler, Opened};
use protox_file::DescriptorSetFileResolver;
use protox_file_sources::{Error, ErrorKind, FileResolver};
use std::alloc::Global;
use std::mem::drop;
use test_rows::Row;

/// Adds how many files there are.
fn add_count<R: FileResolver>(compiler: &Compiler<R>, told: &mut Told) {
    told.add(", files: ");
    told.add_number(compiler.files().count() as u64);
}

/// Adds the names of the files in order, with a mark where a file is an import.
fn add_files<R: FileResolver>(compiler: &Compiler<R>, told: &mut Told) {
    told.add(" [");
    let mut first = true;
    for file in compiler.files() {
        if !first {
            told.add(" ");
        }
        told.add(file.name());
        if file.is_import() {
            told.add("(import)");
        }
        first = false;
    }
    told.add("]");
}

/// Adds at which import a file is refused, and its place.
fn add_import(why: &str, index: u32, place: Option<(u32, u32)>, told: &mut Told) {
    told.add(why);
    told.add(", import ");
    told.add_number(u64::from(index));
    if let Some((line, column)) = place {
        told.add(" at ");
        told.add_number(u64::from(line));
        told.add(":");
        told.add_number(u64::from(column));
    }
}

/// The same of what an error is.
fn add_import_of(kind: &ErrorKind, told: &mut Told) {
    match kind {
        ErrorKind::DuplicateImport { index, place, .. } => {
            add_import("twice", *index, *place, told);
        }
        ErrorKind::ImportNotFound { index, place, .. } => {
            add_import("not found", *index, *place, told);
        }
        ErrorKind::ImportEscapes { index, place, .. } => {
            add_import("leaves the folders", *index, *place, told);
        }
        _ => told.add("no fault of an import"),
    }
}

/// Adds what is asked of an error: its line, what is at fault, or at which import.
fn add_error(alloc: Global, error: &Error, word: &str, told: &mut Told) {
    match word {
        "count" => told.add(sort(error)),
        "import" => add_import_of(error.kind(), told),
        _ => add_long_line(alloc, error, told),
    }
}

/// Opens paths in order.
fn open_each<R: FileResolver>(
    alloc: Global,
    compiler: &mut Compiler<R>,
    list: &str,
) -> Result<(), Error> {
    let mut paths = Texts::new(alloc);
    add_texts(alloc, &mut paths, list)?;
    compiler.open_files(&paths)
}

/// The word of what a path's name was before it was opened.
fn word_of(report: Opened) -> &'static str {
    match report {
        Opened::Compiled => "compiled",
        Opened::Import => "import",
        Opened::Again => "again",
    }
}

/// Opens the path of a step, as often as it says more, or its paths, and gives the word of the answer.
fn opened<R: FileResolver>(
    alloc: Global,
    compiler: &mut Compiler<R>,
    step: Step<'_>,
) -> Result<&'static str, Error> {
    if step.word == "each" {
        open_each(alloc, compiler, step.text)?;
        return Ok("ok");
    }
    if step.word == "retry" {
        let report = compiler.open_retry(step.text, small_number(step.name))?;
        return Ok(word_of(report));
    }
    let report = compiler.open_file(step.text)?;
    Ok(if step.word == "report" {
        word_of(report)
    } else {
        "ok"
    })
}

/// Opens, and tells the answer, and then the files that are there or how many they are.
fn open<R: FileResolver>(
    alloc: Global,
    compiler: &mut Compiler<R>,
    step: Step<'_>,
    told: &mut Told,
) {
    told.next();
    let answer = opened(alloc, compiler, step);
    match &answer {
        Ok(word) => told.add(word),
        Err(error) => add_error(alloc, error, step.word, told),
    }
    drop(answer);
    match step.word {
        "count" => add_count(compiler, told),
        "import" => {}
        _ => add_files(compiler, told),
    }
}

/// The names of the records in order.
fn say_records(pool: &DescriptorPool, told: &mut Told) {
    told.say(if pool.files().len() == 0 {
        "empty:"
    } else {
        "records:"
    });
    for file in pool.files() {
        told.add(" ");
        told.add_quoted(Some(file.name()));
    }
}

/// The name of the record at that index, and how many there are.
fn say_record(pool: &DescriptorPool, index: &str, told: &mut Told) {
    told.next();
    match pool.files().nth(index.parse::<usize>().unwrap_or(0)) {
        Some(file) => told.add_quoted(Some(file.name())),
        None => told.add("no record"),
    }
    told.add(" of ");
    told.add_number(pool.files().len() as u64);
}

/// Opens a path, and tells the records that were there before.
fn earlier<R: FileResolver>(
    alloc: Global,
    compiler: &mut Compiler<R>,
    step: Step<'_>,
    told: &mut Told,
) {
    let pool = compiler.descriptor_pool();
    open(alloc, compiler, step, told);
    say_records(&pool, told);
}

/// The paths of the files in order.
fn say_paths<R: FileResolver>(compiler: &Compiler<R>, told: &mut Told) {
    told.say("paths:");
    for file in compiler.files() {
        told.add(" ");
        told.add_quoted(file.path());
    }
}

/// Adds whether an extension is `optional`, and the index of its oneof.
fn add_presence(field: &FieldDescriptorProto, told: &mut Told) {
    told.say(match field.proto3_optional {
        Some(true) => "optional",
        _ => "not optional",
    });
    match field.oneof_index {
        Some(_) => told.add(", in a oneof"),
        None => told.add(", in no oneof"),
    }
}

/// The extensions at the top of the last file.
fn say_extension(alloc: Global, pool: &DescriptorPool, told: &mut Told) {
    let Some(file) = pool.files().last() else {
        told.say("no file");
        return;
    };
    let Ok(record) = file.file_descriptor_proto(alloc) else {
        told.say("out of memory");
        return;
    };
    for field in record.extension.as_slice() {
        add_presence(field, told);
    }
}

/// Sets the limit of files, maybe after another.
fn set_limit<R: FileResolver>(compiler: &mut Compiler<R>, step: Step<'_>) {
    if !step.name.is_empty() {
        compiler
            .file_limit(small_number(step.name))
            .file_limit(small_number(step.text));
        return;
    }
    compiler.file_limit(small_number(step.text));
}

/// Takes a step.
fn take<R: FileResolver>(
    alloc: Global,
    compiler: &mut Compiler<R>,
    step: Step<'_>,
    told: &mut Told,
) {
    match step.word {
        "open" | "each" | "report" | "retry" | "count" | "import" => {
            open(alloc, compiler, step, told);
        }
        "limit" => set_limit(compiler, step),
        "has" => told.say(if compiler.is_compiled(step.text) {
            "yes"
        } else {
            "no"
        }),
        "records" => say_records(&compiler.descriptor_pool(), told),
        "at" => say_record(&compiler.descriptor_pool(), step.text, told),
        "earlier" => earlier(alloc, compiler, step, told),
        "paths" => say_paths(compiler, told),
        "include" => include(compiler, step.text),
        "set" => say_set(compiler, told),
        "encoded" => say_encoded(alloc, compiler, told),
        "extension" => say_extension(alloc, &compiler.descriptor_pool(), told),
        _ => {}
    }
}

/// Takes the steps of a row.
fn take_steps<R: FileResolver>(
    alloc: Global,
    row: &Row,
    compiler: &mut Compiler<R>,
    told: &mut Told,
) {
    for number in 0..steps(row) {
        take(alloc, compiler, step_at(row, number), told);
    }
}

/// Takes the steps of a row that ask the resolver itself.
fn ask_resolver<R: FileResolver>(alloc: Global, row: &Row, resolver: &mut R, told: &mut Told) {
    for number in 0..steps(row) {
        let step = step_at(row, number);
        if step.word == "then" {
            resolvers::open(alloc, resolver, step.text, told);
        }
    }
}

/// The steps of a row over a resolver, and then those that ask the resolver itself.
pub(crate) fn over<R: FileResolver + Drop>(alloc: Global, row: &Row, resolver: R, told: &mut Told) {
    match Compiler::with_file_resolver(alloc, resolver) {
        Ok(mut compiler) => {
            take_steps(alloc, row, &mut compiler, told);
            let mut resolver = compiler.into_resolver();
            ask_resolver(alloc, row, &mut resolver, told);
        }
        Err(_) => told.say("out of memory"),
    }
}

/// The same over files in memory.
pub(crate) fn of_memory(alloc: Global, row: &Row, told: &mut Told) {
    let resolver = resolvers::filled(alloc, row, told);
    over(alloc, row, resolver, told);
}

/// The same over the folders of a disk in memory and the built-in files.
pub(crate) fn over_folders(alloc: Global, row: &Row, told: &mut Told) {
    let disk = filled_disk(alloc, row, told);
    let Ok(folders) = folders(alloc, row) else {
        told.say("out of memory");
        drop(disk);
        return;
    };
    match Compiler::new(alloc, disk, &folders) {
        Ok(mut compiler) => {
            take_steps(alloc, row, &mut compiler, told);
            drop(compiler);
        }
        Err(_) => told.say("out of memory"),
    }
}

/// The same over the files of a set, of which the first step has the bytes.
pub(crate) fn over_set(alloc: Global, row: &Row, told: &mut Told) {
    match DescriptorSetFileResolver::decode(alloc, step_at(row, 0).bytes) {
        Ok(resolver) => over(alloc, row, resolver, told),
        Err(error) => add_fault(error, told),
    }
}
