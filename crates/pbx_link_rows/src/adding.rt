//! Files that are added to a pool.

use crate::files::tell_names;
use crate::told::Told;
use pbx_desc::DecodeMessage;
use pbx_desc_records::FileDescriptorProto;
use pbx_link::{DescriptorError, DescriptorPool};
use pbx_wire::DecodeError;
use std::alloc::{AllocError, Global};
use test_rows::Row;

/// Tells the index of the refused file, the rule and the place.
fn tell_refusal(told: &mut Told, index: usize, error: &DescriptorError) {
    match error {
        DescriptorError::Rule {
            file: _,
            place,
            rule,
        } => {
            told.add_count(index);
            told.add(" ");
            told.add_number(i128::from(*rule));
            told.add(" ");
            told.add_place(place.as_slice());
        }
        DescriptorError::Decode(_) => told.add("no record"),
        DescriptorError::NoMemory => told.run_short(),
    }
}

/// Tells the fault of the bytes, or the rule, the place and the name of the refused file.
pub(crate) fn tell_error(told: &mut Told, error: &DescriptorError) {
    match error {
        DescriptorError::Rule { file, place, rule } => {
            told.add("rule ");
            told.add_number(i128::from(*rule));
            told.add(" at ");
            told.add_place(place.as_slice());
            told.add_all(&[" of ", file.as_str(), "; "]);
        }
        DescriptorError::Decode(fault) => told.add_fault(*fault),
        DescriptorError::NoMemory => told.run_short(),
    }
}

/// Tells what came of adding a file.
pub(crate) fn tell_added(told: &mut Told, added: &Result<(), DescriptorError>) {
    match added {
        Ok(()) => told.add("added; "),
        Err(error) => tell_error(told, error),
    }
}

/// Adds the file of the row's field of this index.
fn add_file(
    alloc: Global,
    told: &mut Told,
    pool: &mut DescriptorPool,
    row: &Row,
    index: usize,
) -> Result<(), DescriptorError> {
    let bytes = told.bytes(alloc, row.text(index));
    match FileDescriptorProto::decode(alloc, bytes.as_slice()) {
        Ok(file) => pool.add_file_descriptor_proto(file),
        Err(DecodeError::NoMemory) => Err(DescriptorError::NoMemory),
        Err(fault) => Err(DescriptorError::Decode(fault)),
    }
}

/// Adds the files of the row's fields from one to before another, and tells the first that is refused. Whether none is.
pub(crate) fn add_between(
    alloc: Global,
    told: &mut Told,
    pool: &mut DescriptorPool,
    row: &Row,
    first: usize,
    end: usize,
) -> bool {
    for index in first..end {
        if let Err(error) = add_file(alloc, told, pool, row, index) {
            tell_refusal(told, index - first, &error);
            return false;
        }
    }
    true
}

/// Adds the files of the row's fields from one on. Whether none is refused.
pub(crate) fn add_from(
    alloc: Global,
    told: &mut Told,
    pool: &mut DescriptorPool,
    row: &Row,
    first: usize,
) -> bool {
    add_between(alloc, told, pool, row, first, row.len())
}

/// Adds so many files of the row's fields from one on. The index of the field behind them, unless one is refused.
pub(crate) fn add_some(
    alloc: Global,
    told: &mut Told,
    pool: &mut DescriptorPool,
    row: &Row,
    first: usize,
    count: u64,
) -> Option<usize> {
    let behind = (count as usize).saturating_add(first).min(row.len());
    if add_between(alloc, told, pool, row, first, behind) {
        Some(behind)
    } else {
        None
    }
}

/// Adds the files of the row's fields from one on, those that are not refused, and tells what came of each.
pub(crate) fn add_each(
    alloc: Global,
    told: &mut Told,
    pool: &mut DescriptorPool,
    row: &Row,
    first: usize,
) {
    for index in first..row.len() {
        let added = add_file(alloc, told, pool, row, index);
        tell_added(told, &added);
    }
}

/// What came of adding each file, and how many files there are.
pub(crate) fn added(alloc: Global, told: &mut Told, pool: &mut DescriptorPool, row: &Row) {
    add_each(alloc, told, pool, row, 0);
    told.add_count(pool.files().len());
    told.add(" files");
}

/// A copy, made as the bound has it.
fn cloned<T: Clone>(item: &T) -> Result<T, AllocError> {
    item.clone()
}

/// Adds the files of the row's fields from one on, and tells the files of the copy and those of the pool.
fn tell_kept(
    alloc: Global,
    told: &mut Told,
    kept: &DescriptorPool,
    pool: &mut DescriptorPool,
    row: &Row,
    first: usize,
) {
    if add_from(alloc, told, pool, row, first) {
        tell_names(told, kept);
        told.add("|");
        tell_names(told, pool);
    }
}

/// Of a count: the files of a copy that is made where the pool has so many, and those of the pool in the end.
pub(crate) fn copied(alloc: Global, told: &mut Told, pool: &mut DescriptorPool, row: &Row) {
    if let Some(behind) = add_some(alloc, told, pool, row, 1, row.number(0)) {
        let kept = pool.copy();
        tell_kept(alloc, told, &kept, pool, row, behind);
    }
}

/// The same of a copy that is made as the bound `Clone` has it.
pub(crate) fn copied_as_bound(
    alloc: Global,
    told: &mut Told,
    pool: &mut DescriptorPool,
    row: &Row,
) {
    if let Some(behind) = add_some(alloc, told, pool, row, 1, row.number(0)) {
        match cloned(pool) {
            Ok(kept) => tell_kept(alloc, told, &kept, pool, row, behind),
            Err(AllocError) => told.run_short(),
        }
    }
}
