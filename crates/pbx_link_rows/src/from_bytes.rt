//! Pools and files that are read from bytes.

use crate::adding::{add_from, tell_added, tell_error};
use crate::files::{linked, tell_names};
use crate::told::Told;
use pbx_link::{DescriptorError, DescriptorPool};
use std::alloc::Global;
use test_rows::Row;

/// Tells the files of the pool of the bytes, and the bytes of its set; or what refused the bytes.
fn tell_pool(alloc: Global, told: &mut Told, bytes: &[u8]) {
    match DescriptorPool::decode(alloc, bytes) {
        Ok(pool) => {
            tell_names(told, &pool);
            linked(alloc, told, &pool);
        }
        Err(error) => tell_error(told, &error),
    }
}

/// Of the bytes of a set: the pool that is read from them.
pub(crate) fn set(alloc: Global, told: &mut Told, row: &Row) {
    let bytes = told.bytes(alloc, row.text(0));
    tell_pool(alloc, told, bytes.as_slice());
}

/// The pool that is read from the bytes of the pool's own set.
pub(crate) fn read_back(alloc: Global, told: &mut Told, pool: &DescriptorPool) {
    match pool.encode_to_vec() {
        Ok(bytes) => tell_pool(alloc, told, bytes.as_slice()),
        Err(_) => told.run_short(),
    }
}

/// Reads the bytes into the pool, as a set or as a file.
fn read_into(row: &Row, pool: &mut DescriptorPool, bytes: &[u8]) -> Result<(), DescriptorError> {
    if row.asked() == "add-set" {
        return pool.decode_file_descriptor_set(bytes);
    }
    pool.decode_file_descriptor_proto(bytes)
}

/// What came of reading the bytes of the first field into the pool of the files behind it, and the files that it has then.
pub(crate) fn read_more(alloc: Global, told: &mut Told, pool: &mut DescriptorPool, row: &Row) {
    if add_from(alloc, told, pool, row, 1) {
        let bytes = told.bytes(alloc, row.text(0));
        tell_added(told, &read_into(row, pool, bytes.as_slice()));
        tell_names(told, pool);
    }
}
