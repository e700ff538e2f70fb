//! Questions about where a source breaks a rule of linking.

use crate::file::errors::add_long_line;
use crate::file::told::Told;
use pbx_link::DescriptorError;
use pbx_wire::NoMemory;
use protox_compile::Compiler;
use protox_file_sources::{Error, ErrorKind, File, MemoryResolver};
use std::alloc::Global;
use std::mem::drop;
use test_rows::Row;

/// The name of the source.
const NAME: &str = "m.proto";

/// Opens the source alone.
fn opened(alloc: Global, source: &str) -> Result<(), Error> {
    let mut resolver = MemoryResolver::new(alloc);
    if resolver.put(NAME, source).is_err() {
        drop(resolver);
        return Err(Error::from(NoMemory));
    }
    let Ok(mut compiler) = Compiler::with_file_resolver(alloc, resolver) else {
        return Err(Error::from(NoMemory));
    };
    let answer = compiler.open_file(NAME);
    drop(compiler);
    answer?;
    Ok(())
}

/// Adds the line of a place in the source.
fn add_line(alloc: Global, source: &str, place: &[i32], told: &mut Told) {
    let Ok(file) = File::from_source(alloc, NAME, source) else {
        told.add("no file");
        return;
    };
    match file.place_in_source(place) {
        Some((line, _)) => told.add_number(u64::from(line)),
        None => told.add("nowhere"),
    }
    drop(file);
}

/// The rule that a source breaks, with the line where it does.
pub(crate) fn broken_rule(alloc: Global, row: &Row, told: &mut Told) {
    let Err(error) = opened(alloc, row.text(0)) else {
        told.say("no rule is broken");
        return;
    };
    told.next();
    match error.kind() {
        ErrorKind::Check(DescriptorError::Rule { place, rule, .. }) => {
            told.add("rule ");
            told.add_number(u64::from(*rule));
            told.add(" in line ");
            add_line(alloc, row.text(0), place.as_slice(), told);
        }
        _ => add_long_line(alloc, &error, told),
    }
    drop(error);
}
