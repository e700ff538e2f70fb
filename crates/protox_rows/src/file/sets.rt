//! Questions about the files of a descriptor set.

use crate::file::step::{step_at, steps};
use crate::file::told::Told;
use hex::encode;
use pbx_desc::DecodeMessage;
use pbx_desc_records::FileDescriptorSet;
use pbx_wire::{DecodeError, Rec};
use protox_file::DescriptorSetFileResolver;
use protox_file_sources::{File, FileResolver};
use std::alloc::Global;
use std::mem::drop;
use test_rows::Row;

/// Adds which rule the bytes break, and in which record.
pub(crate) fn add_fault(error: DecodeError, told: &mut Told) {
    let (words, at) = match error {
        DecodeError::Varint(at) => ("varint", at),
        DecodeError::Key(at) => ("key", at),
        DecodeError::WireType(at) => ("wire type", at),
        DecodeError::Underflow(at) => ("underflow", at),
        DecodeError::Utf8(at) => ("utf-8", at),
        DecodeError::EndGroup(at) => ("end of group", at),
        DecodeError::TooDeep(at) => ("too deep", at),
        DecodeError::NoMemory => ("out of memory", 0),
    };
    told.say(words);
    told.add(" ");
    told.add_number(at as u64);
}

/// Adds the kept records of one varint each.
fn add_unknown(file: &File, told: &mut Told) {
    for rec in file.file_descriptor_proto().unknown.as_slice() {
        match rec {
            Rec::Varint(number, value) => {
                told.add(", kept ");
                told.add_number(u64::from(*number));
                told.add(": ");
                told.add_number(*value);
            }
            _ => told.add(", kept record"),
        }
    }
}

/// Adds the bytes that the file was decoded from, in hexadecimal.
fn add_bytes(alloc: Global, file: &File, told: &mut Told) {
    told.add(", bytes ");
    match file.encoded() {
        Some(bytes) => match encode(alloc, bytes) {
            Ok(digits) => told.add(digits.as_str()),
            Err(_) => told.add("out of memory"),
        },
        None => told.add("none"),
    }
}

fn add_file(alloc: Global, file: &File, told: &mut Told) {
    let record = file.file_descriptor_proto();
    told.add_quoted(Some(file.name()));
    told.add(", syntax ");
    told.add_quoted(record.syntax.as_ref().map(|syntax| syntax.as_str()));
    told.add(", package ");
    told.add_quoted(record.package.as_ref().map(|package| package.as_str()));
    told.add(", path ");
    told.add_quoted(file.path());
    told.add(", source ");
    told.add_quoted(file.source());
    add_unknown(file, told);
    add_bytes(alloc, file, told);
}

/// What the set has under a name.
fn open(alloc: Global, resolver: &mut DescriptorSetFileResolver, name: &str, told: &mut Told) {
    told.next();
    let answer = resolver.open_file(alloc, name);
    match &answer {
        Ok(file) => add_file(alloc, file, told),
        Err(error) => told.add(if error.is_file_not_found() {
            "not found"
        } else {
            "another error"
        }),
    }
    drop(answer);
    if resolver.spent() {
        told.say("spent");
    }
}

/// Opens the names of the steps.
fn open_each(alloc: Global, row: &Row, resolver: &mut DescriptorSetFileResolver, told: &mut Told) {
    for number in 0..steps(row) {
        let step = step_at(row, number);
        if step.word == "open" {
            open(alloc, resolver, step.text, told);
        }
    }
}

/// The steps of a row over the files of a set, each with its bytes.
pub(crate) fn of_bytes(alloc: Global, row: &Row, bytes: &[u8], told: &mut Told) {
    match DescriptorSetFileResolver::decode(alloc, bytes) {
        Ok(mut resolver) => {
            open_each(alloc, row, &mut resolver, told);
            drop(resolver);
        }
        Err(error) => add_fault(error, told),
    }
}

/// The steps of a row over the records of a set.
pub(crate) fn of_records(alloc: Global, row: &Row, bytes: &[u8], told: &mut Told) {
    match FileDescriptorSet::decode(alloc, bytes) {
        Ok(set) => {
            let mut resolver = DescriptorSetFileResolver::new(alloc, set);
            open_each(alloc, row, &mut resolver, told);
            drop(resolver);
        }
        Err(error) => add_fault(error, told),
    }
}
