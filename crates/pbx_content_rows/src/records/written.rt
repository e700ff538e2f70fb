//! Asks of `pbx_desc_encoding`, and of records of the wire: what is written for what steps make.
//!
//! What is wanted of the file with each field of each record, and of its parts, is what
//! `SerializeToString(deterministic=True)` of Python's `google.protobuf` 3.21 gives of the same
//! `descriptor_pb2.FileDescriptorProto`. Each message of options was read from the bytes of its two unknown records,
//! 2003 before 2002. A set is a key, a length and the file, after Protocol Buffers "Encoding". In a file the record of
//! number 1, a field's, is not written, nor one of number 0, and the others are written by ascending number: 14, the
//! `edition` of later files, 99 and 100. In options all but those of number 0 are written, in order of arrival. The
//! truth values are those that `google.protobuf` reads of `weak`, `packed` and `deprecated` of `FieldOptions`. Bytes
//! are read with at most 100 levels of messages and groups below the top; of a set that is read file by file, each file
//! has 100 of its own.

use crate::records::made::Made;
use crate::records::messages::MessageParts;
use crate::records::wire::text_of;
use crate::said::{content_bytes, message_bytes, shown, small, words};
use pbx_content::Schema;
use pbx_content_codec::{Contents, decode, decode_parts, encode};
use pbx_desc_encoding::{
    FileDescriptorProto, FileDescriptorSet, FileSet, Options, descriptor_shape, file_contents,
};
use pbx_desc_shapes::descriptor_place as place;
use pbx_wire::{DecodeError, NoMemory, Recs, rec_len};
use std::alloc::Global;
use std::mem::{drop, replace};
use test_rows::{Row, Stop};

/// The length of the first record's text.
fn length(alloc: Global, recs: &Recs) -> Result<String, Stop> {
    match recs.as_slice().first() {
        Some(rec) => Ok(format!(in alloc; "{:?}", rec_len(rec))?),
        None => Err(Stop::NoSuchWord),
    }
}

/// The records as options.
fn options(alloc: Global, made: &mut Made) -> Options {
    Options {
        recs: replace(&mut made.records, Recs::new(alloc)),
    }
}

/// Of a number: the truth value that options of the records have of it.
fn truth(alloc: Global, made: &mut Made, row: &Row) -> Result<String, Stop> {
    let truth = options(alloc, made).bool_of(small(row.number(0)));
    Ok(format!(in alloc; "{truth:?}")?)
}

fn of_message(alloc: Global, parts: &MessageParts, of: &str) -> Result<String, Stop> {
    match of {
        "message" => message_bytes(alloc, &parts.message),
        "field" => message_bytes(alloc, &parts.field),
        "oneof" => message_bytes(alloc, &parts.oneof),
        "extension_range" => message_bytes(alloc, &parts.extension_range),
        "reserved_range" => message_bytes(alloc, &parts.reserved_range),
        _ => Err(Stop::NoSuchWord),
    }
}

fn of_enum(alloc: Global, made: &Made, of: &str) -> Result<String, Stop> {
    match of {
        "enum" => message_bytes(alloc, &made.enums.enumeration),
        "value" => message_bytes(alloc, &made.enums.value),
        "range" => message_bytes(alloc, &made.enums.range),
        _ => of_message(alloc, &made.messages, of),
    }
}

/// Of the word for a type: what is written for the record of this type.
fn written(alloc: Global, made: &mut Made, of: &str) -> Result<String, Stop> {
    match of {
        "options" => message_bytes(alloc, &options(alloc, made)),
        "file" => message_bytes(alloc, &made.file),
        "set" => message_bytes(alloc, &made.set),
        "service" => message_bytes(alloc, &made.sources.service),
        "method" => message_bytes(alloc, &made.sources.method),
        "source" => message_bytes(alloc, &made.sources.source),
        "location" => message_bytes(alloc, &made.sources.location),
        _ => of_enum(alloc, made, of),
    }
}

fn copy_of_file(alloc: Global, file: &FileDescriptorProto) -> Result<String, Stop> {
    let copy = file.copy(alloc)?;
    let told = message_bytes(alloc, &copy);
    drop(copy);
    told
}

fn copy_of_set(alloc: Global, set: &FileDescriptorSet) -> Result<String, Stop> {
    let copy = set.copy(alloc)?;
    let told = message_bytes(alloc, &copy);
    drop(copy);
    told
}

fn copy_of_options(alloc: Global, options: &Options) -> Result<String, Stop> {
    let copy = options.copy(alloc)?;
    message_bytes(alloc, &copy)
}

/// Of the word for a type: what is written for a copy of the record of this type.
fn copied(alloc: Global, made: &mut Made, of: &str) -> Result<String, Stop> {
    match of {
        "file" => copy_of_file(alloc, &made.file),
        "set" => copy_of_set(alloc, &made.set),
        "options" => copy_of_options(alloc, &options(alloc, made)),
        _ => Err(Stop::NoSuchWord),
    }
}

/// What is written for the contents of the file.
fn contents(alloc: Global, made: &Made) -> Result<String, Stop> {
    let contents = file_contents(alloc, &made.file)?;
    contents_bytes(alloc, &contents)
}

fn contents_bytes(alloc: Global, contents: &Contents) -> Result<String, Stop> {
    let schema = descriptor_shape(alloc)?;
    content_bytes(alloc, &schema, place::FILE, contents)
}

fn file_set_of(alloc: Global, files: &[FileDescriptorProto]) -> Result<FileSet, NoMemory> {
    let mut set = FileSet::new(alloc)?;
    for file in files {
        set = set.with_file(alloc, file)?;
    }
    Ok(set)
}

/// What is written for the set, file by file.
fn file_set(alloc: Global, made: &Made) -> Result<String, Stop> {
    let set = file_set_of(alloc, made.set.file.as_slice())?;
    shown(alloc, set.encode(alloc)?.as_slice())
}

/// Whether the contents are written as these bytes.
fn written_again(
    alloc: Global,
    schema: &Schema,
    bytes: &[u8],
    contents: &Contents,
) -> Result<String, Stop> {
    if encode(alloc, schema, place::FILE_SET, contents)?.as_slice() == bytes {
        words(alloc, "the same")
    } else {
        words(alloc, "another")
    }
}

/// Whether the contents that were read of bytes are written as those bytes.
fn again(
    alloc: Global,
    schema: &Schema,
    bytes: &[u8],
    read: Result<Contents, DecodeError>,
) -> Result<String, Stop> {
    match read {
        Ok(contents) => written_again(alloc, schema, bytes, &contents),
        Err(DecodeError::NoMemory) => Err(Stop::NoMemory),
        Err(_) => words(alloc, "no message"),
    }
}

/// What comes of reading the bytes of a set file by file.
fn parts_again(alloc: Global, schema: &Schema, bytes: &[u8]) -> Result<String, Stop> {
    let parts = decode_parts(alloc, schema, place::FILE_SET, bytes);
    again(alloc, schema, bytes, parts)
}

/// What comes of reading the bytes of a set as a whole.
fn whole_again(alloc: Global, schema: &Schema, bytes: &[u8]) -> Result<String, Stop> {
    let whole = decode(alloc, schema, place::FILE_SET, bytes);
    again(alloc, schema, bytes, whole)
}

/// What comes of reading the bytes of a set in both ways.
fn both_again(alloc: Global, schema: &Schema, bytes: &[u8]) -> Result<String, Stop> {
    let parts = parts_again(alloc, schema, bytes)?;
    let whole = whole_again(alloc, schema, bytes)?;
    Ok(format!(in alloc; "{parts}, as a whole {whole}")?)
}

/// The same, by the shape of the descriptor records.
fn bytes_again(alloc: Global, bytes: &[u8]) -> Result<String, Stop> {
    let schema = descriptor_shape(alloc)?;
    both_again(alloc, &schema, bytes)
}

/// What comes of reading the set's bytes file by file, and as a whole.
fn set_again(alloc: Global, made: &Made) -> Result<String, Stop> {
    let bytes = file_set_of(alloc, made.set.file.as_slice())?.encode(alloc)?;
    bytes_again(alloc, bytes.as_slice())
}

/// What the row asks of what its steps made.
pub(crate) fn answer(
    alloc: Global,
    made: &mut Made,
    row: &Row,
    word: &str,
) -> Result<String, Stop> {
    match word {
        "records-text" => text_of(alloc, &made.records),
        "record-length" => length(alloc, &made.records),
        "truth" => truth(alloc, made, row),
        "record" => written(alloc, made, row.text(0)),
        "copy" => copied(alloc, made, row.text(0)),
        "contents" => contents(alloc, made),
        "file-set" => file_set(alloc, made),
        "set-again" => set_again(alloc, made),
        _ => Err(Stop::NoSuchWord),
    }
}
