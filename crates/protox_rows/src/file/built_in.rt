//! Questions about the built-in files.

use crate::file::errors::add_long_line;
use crate::file::told::Told;
use pbx_link::DescriptorPool;
use pbx_wkt::make_wkt_descriptor_pool;
use protox_file_sources::{File, FileResolver, GoogleFileResolver};
use std::alloc::Global;
use std::mem::drop;
use test_rows::Row;

/// Adds the file's name, how many messages and enums it has, and what stands beside its record.
fn add_file(file: &File, told: &mut Told) {
    let record = file.file_descriptor_proto();
    told.add_quoted(Some(file.name()));
    told.add(", messages ");
    told.add_number(record.message_type.len() as u64);
    told.add(", enums ");
    told.add_number(record.enum_type.len() as u64);
    told.add(", path ");
    told.add_quoted(file.path());
    told.add(", source ");
    told.add_quoted(file.source());
    told.add(", bytes ");
    told.add(match file.encoded() {
        Some(_) => "some",
        None => "none",
    });
}

/// What a resolver of the files of the pool answers to a name.
fn open_in(alloc: Global, pool: DescriptorPool, name: &str, told: &mut Told) {
    let mut resolver = GoogleFileResolver::new(pool);
    let answer = resolver.open_file(alloc, name);
    match &answer {
        Ok(file) => add_file(file, told),
        Err(error) => add_long_line(alloc, error, told),
    }
    drop(answer);
}

/// The built-in file of the row's name.
pub(crate) fn open(alloc: Global, row: &Row, told: &mut Told) {
    match make_wkt_descriptor_pool(alloc) {
        Ok(pool) => open_in(alloc, pool, row.text(0), told),
        Err(_) => told.say("out of memory"),
    }
}
