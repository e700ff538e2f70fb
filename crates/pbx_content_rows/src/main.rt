//! Asks of what stands below the pool, as rows of data: of contents of messages, of records of descriptors, of well-known
//! types and of the wire, of the built-in files, of texts, and of sources.
//!
//! What a row asks begins with its subject's word and a blank, and its name with that word and a slash. What stands behind is
//! told in the subject's module: `content` in `contents`, `descriptor` in `descriptors`, `built-in` in `built_in`, `text` in
//! `texts`, `source` in `sources` and `record` in `records`.
#![tactic(auto)]

mod built_in;
mod contents;
mod descriptors;
mod records;
mod said;
mod sources;
mod texts;

use std::alloc::{AllocError, Global};
use std::io;
use test_rows::{Row, Stop, line_of};

/// What the row asks of its subject.
fn answer(alloc: Global, row: &Row) -> Result<String, Stop> {
    let (subject, word) = row.asked().split_once(' ').unwrap_or(("", row.asked()));
    match subject {
        "content" => contents::answer(alloc, row, word),
        "descriptor" => descriptors::answer(alloc, row, word),
        "built-in" => built_in::answer(alloc, row, word),
        "text" => texts::answer(alloc, row, word),
        "source" => sources::answer(alloc, row, word),
        "record" => records::answer(alloc, row, word),
        _ => Err(Stop::NoSuchWord),
    }
}

/// The line for a row.
fn told(alloc: Global, line: &str) -> Result<String, AllocError> {
    let row = Row::read(alloc, line)?;
    line_of(alloc, &row, answer(alloc, &row))
}

fn main(rt: HostRuntime) -> io::Result<()> {
    for line in rt.lines(rt.alloc()) {
        let told = told(rt.alloc(), line?.as_str())?;
        println!(rt; "{told}")?;
    }
    Ok(())
}
