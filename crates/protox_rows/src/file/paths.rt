//! Questions about paths.

use crate::file::told::Told;
use protox_io::{join_path, path_eq, path_to_file_name, strip_prefix};
use std::alloc::Global;
use test_rows::Row;

/// The name under which the file at the path is imported.
pub(crate) fn name(alloc: Global, row: &Row, told: &mut Told) {
    match path_to_file_name(alloc, row.text(0)) {
        Ok(Some(name)) => told.add_quoted(Some(name.as_str())),
        Ok(None) => told.add_quoted(None),
        Err(_) => told.say("out of memory"),
    }
}

/// Whether the two paths have the same components.
pub(crate) fn equal(row: &Row, told: &mut Told) {
    told.add(if path_eq(row.text(0), row.text(1)) {
        "yes"
    } else {
        "no"
    });
}

/// What stands in the path behind the folder.
pub(crate) fn below(row: &Row, told: &mut Told) {
    told.add_quoted(strip_prefix(row.text(0), row.text(1)));
}

/// The path of the name in the folder.
pub(crate) fn joined(alloc: Global, row: &Row, told: &mut Told) {
    match join_path(alloc, row.text(0), row.text(1)) {
        Ok(path) => told.add_quoted(Some(path.as_str())),
        Err(_) => told.say("out of memory"),
    }
}
