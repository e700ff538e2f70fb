//! Questions about the sets of compiled files.

use crate::file::errors::add_long_line;
use crate::file::over::{filled_disk, named};
use crate::file::told::Told;
use hex::encode;
use pbx_desc_records::FileDescriptorSet;
use protox_compile::{Compiler, compile};
use protox_file_sources::FileResolver;
use std::alloc::Global;
use std::mem::drop;
use test_rows::Row;

/// Lets sets have imports or source information where the words say so, and else not.
pub(crate) fn include<R: FileResolver>(compiler: &mut Compiler<R>, words: &str) {
    compiler
        .include_imports(words.contains("imports"))
        .include_source_info(words.contains("info"));
}

/// Adds the names of the files, with a mark where a file has source information.
fn add_names(set: &FileDescriptorSet, told: &mut Told) {
    for file in set.file.as_slice() {
        told.add(" ");
        told.add_quoted(file.name.as_ref().map(|name| name.as_str()));
        if file.source_code_info.is_some() {
            told.add("+info");
        }
    }
}

/// The files of the set of a compiler.
pub(crate) fn say_set<R: FileResolver>(compiler: &Compiler<R>, told: &mut Told) {
    told.say("set:");
    match compiler.file_descriptor_set() {
        Ok(set) => add_names(&set, told),
        Err(_) => told.add(" out of memory"),
    }
}

/// The bytes of that set in hexadecimal, or why it has none.
pub(crate) fn say_encoded<R: FileResolver>(alloc: Global, compiler: &Compiler<R>, told: &mut Told) {
    told.next();
    match compiler.encode_file_descriptor_set() {
        Ok(bytes) => match encode(alloc, bytes.as_slice()) {
            Ok(digits) => told.add(digits.as_str()),
            Err(_) => told.add("out of memory"),
        },
        Err(error) => add_long_line(alloc, &error, told),
    }
}

/// The set of the paths that the steps of a row name, compiled at once from the folders that they name.
pub(crate) fn at_once(alloc: Global, row: &Row, told: &mut Told) {
    let disk = filled_disk(alloc, row, told);
    let (Ok(folders), Ok(paths)) = (named(alloc, row, "folder"), named(alloc, row, "path")) else {
        told.say("out of memory");
        drop(disk);
        return;
    };
    let compiled = compile(alloc, disk, &paths, &folders);
    match &compiled.result {
        Ok(set) => {
            told.say("set:");
            add_names(set, told);
        }
        Err(error) => add_long_line(alloc, error, told),
    }
    drop(compiled);
}
