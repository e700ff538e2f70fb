//! Pools of the files whose records a row has: rows of `pbx_link`.
//!
//! A row has a word, what the word asks for, and then the bytes of `FileDescriptorProto`s in hexadecimal digits, which are
//! added to a pool one after another. Where a file is refused, the answer is its index, the number of the first rule that it
//! breaks, and the place, its numbers with points between them; but the word `added` tells what came of each file, and `set`,
//! `add-set` and `add-file` what came of reading the bytes of their first field, a set or a file.
//!
//! What is wanted is made by checks/link-rows.

use crate::adding::{add_from, added, copied, copied_as_bound};
use crate::enums::enumeration;
use crate::fields::{extension, extensions};
use crate::files::{declared, file, files, linked};
use crate::from_bytes::{read_back, read_more, set};
use crate::grown::grown;
use crate::messages::{message, messages};
use crate::same::{same, same_grown};
use crate::services::{service, services};
use crate::shapes::shape;
use crate::told::Told;
use pbx_link::DescriptorPool;
use std::alloc::Global;
use test_rows::Row;

/// What is told of a name in the pool of the files behind it.
fn of_name(alloc: Global, told: &mut Told, pool: &DescriptorPool, row: &Row) {
    let name = row.text(0);
    match row.asked() {
        "file" => file(alloc, told, pool, name),
        "declared" => declared(told, pool, name),
        "message" => message(told, pool, name),
        "enum" => enumeration(told, pool, name),
        "extension" => extension(told, pool, name),
        "service" => service(told, pool, name),
        "shape" => shape(told, pool, name),
        _ => told.add("no such word"),
    }
}

/// What is told of the pool of all files of the row.
fn of_pool(alloc: Global, told: &mut Told, pool: &DescriptorPool, row: &Row) {
    match row.asked() {
        "link" => told.add("ok"),
        "linked" => linked(alloc, told, pool),
        "files" => files(told, pool),
        "messages" => messages(told, pool),
        "extensions" => extensions(told, pool),
        "services" => services(told, pool),
        _ => read_back(alloc, told, pool),
    }
}

/// What is told of the records of a row.
fn tell(alloc: Global, told: &mut Told, pool: &mut DescriptorPool, row: &Row) {
    match row.asked() {
        "added" => added(alloc, told, pool, row),
        "copy" => copied(alloc, told, pool, row),
        "clone" => copied_as_bound(alloc, told, pool, row),
        "same" => same(alloc, told, pool, row),
        "same-grown" => same_grown(alloc, told, pool, row),
        "shape-alone" | "shape-late" | "shape-grown" => grown(alloc, told, pool, row),
        "set" => set(alloc, told, row),
        "add-set" | "add-file" => read_more(alloc, told, pool, row),
        "link" | "linked" | "files" | "messages" | "extensions" | "services" | "read-back" => {
            if add_from(alloc, told, pool, row, 0) {
                of_pool(alloc, told, pool, row);
            }
        }
        _ => {
            if add_from(alloc, told, pool, row, 1) {
                of_name(alloc, told, pool, row);
            }
        }
    }
}

/// Tells what is told of the records of a row, in a pool that has no files yet.
pub(crate) fn answer(alloc: Global, told: &mut Told, row: &Row) {
    match DescriptorPool::new(alloc) {
        Ok(mut pool) => tell(alloc, told, &mut pool, row),
        Err(_) => told.run_short(),
    }
}
