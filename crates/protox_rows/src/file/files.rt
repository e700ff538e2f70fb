//! Questions about single files.

use crate::file::errors::add_file_and_sort;
use crate::file::told::Told;
use pbx_desc_records::FileDescriptorProto;
use pbx_wire::{NoMemory, Text};
use protox_file_sources::{Error, File, FileMetadata, looked_up_once};
use std::alloc::Global;
use std::mem::drop;
use test_rows::Row;

/// Adds all that is known of a file.
fn add_file(file: &File, told: &mut Told) {
    told.add("name '");
    told.add(file.name());
    told.add("', path ");
    told.add_quoted(file.path());
    told.add(", source ");
    told.add_quoted(file.source());
    told.add(", bytes ");
    told.add(if file.encoded().is_some() {
        "some"
    } else {
        "none"
    });
    told.add(", messages ");
    told.add_number(file.file_descriptor_proto().message_type.len() as u64);
}

/// All that is known of a file, or of the error in its place.
pub(crate) fn say_file(answer: &Result<File, Error>, told: &mut Told) {
    told.next();
    match answer {
        Ok(file) => add_file(file, told),
        Err(error) => add_file_and_sort(error, told),
    }
}

/// All that is known of a copy of the file.
fn say_copy(alloc: Global, file: &File, told: &mut Told) {
    told.say("copy: ");
    match file.copy(alloc) {
        Ok(copy) => {
            add_file(&copy, told);
            drop(copy);
        }
        Err(_) => told.add("out of memory"),
    }
}

/// The file of a name and a source, and a copy of it.
pub(crate) fn of_source(alloc: Global, row: &Row, told: &mut Told) {
    looked_up_once();
    let answer = File::from_source(alloc, row.text(0), row.text(1));
    say_file(&answer, told);
    if let Ok(file) = &answer {
        say_copy(alloc, file, told);
    }
    drop(answer);
}

/// The name of the row, if it has one.
fn name_of_row(alloc: Global, row: &Row) -> Result<Option<Text>, NoMemory> {
    if row.is_empty() {
        return Ok(None);
    }
    Ok(Some(Text::from_str(alloc, row.text(0))?))
}

/// A record of the row's name, if it has one, and of nothing else.
fn named(alloc: Global, row: &Row) -> FileDescriptorProto {
    let mut record = FileDescriptorProto::new(alloc);
    if let Ok(name) = name_of_row(alloc, row) {
        record.name = name;
    }
    record
}

pub(crate) fn name_of(record: &FileDescriptorProto) -> Option<&str> {
    match &record.name {
        Some(name) => Some(name.as_str()),
        None => None,
    }
}

/// The name of a record.
fn say_record(record: &FileDescriptorProto, told: &mut Told) {
    told.say("record ");
    told.add_quoted(name_of(record));
}

/// The file of a record of that name, or of no name, and the record that it gives back.
pub(crate) fn of_record(alloc: Global, row: &Row, told: &mut Told) {
    let file = File::from_file_descriptor_proto(named(alloc, row));
    add_file(&file, told);
    let record = file.into_file_descriptor_proto();
    say_record(&record, told);
    drop(record);
}

/// The same by the conversions.
pub(crate) fn converted(alloc: Global, row: &Row, told: &mut Told) {
    let file = File::from(named(alloc, row));
    add_file(&file, told);
    let record = FileDescriptorProto::from(file);
    say_record(&record, told);
    drop(record);
}

/// Adds what is known of a file but its record.
fn add_metadata(metadata: &FileMetadata, told: &mut Told) {
    told.add(if metadata.is_import() {
        "import"
    } else {
        "opened"
    });
    told.add(" '");
    told.add(metadata.name());
    told.add("', path ");
    told.add_quoted(metadata.path());
}

/// A file of a name and a path, as an import.
fn imported(alloc: Global, row: &Row) -> Result<FileMetadata, NoMemory> {
    let name = Text::from_str(alloc, row.text(0))?;
    let path = Text::from_str(alloc, row.text(1))?;
    Ok(FileMetadata::new(name, Some(path), true))
}

/// What is known of a file of a name and a path, as an import and then as opened.
pub(crate) fn metadata(alloc: Global, row: &Row, told: &mut Told) {
    match imported(alloc, row) {
        Ok(mut metadata) => {
            add_metadata(&metadata, told);
            metadata.set_import(false);
            told.next();
            add_metadata(&metadata, told);
        }
        Err(_) => told.say("out of memory"),
    }
}
