//! Asks of `pbx_link` and of the crates of rules below it, as rows of data.
//!
//! A row that asks `breach` and the name of a rule asks where a file's record breaks it (`breaches`), and one that asks `names` what is under
//! names once items are added (`name_maps`). Every other row asks of the pool of the files whose records it has (`pools`).
#![tactic(auto)]

mod adding;
mod breaches;
mod enums;
mod fields;
mod files;
mod from_bytes;
mod grown;
mod messages;
mod name_maps;
mod pools;
mod rules;
mod same;
mod services;
mod shapes;
mod told;

use std::alloc::{AllocError, Global};
use std::io;
use test_rows::{Row, answer_line};
use told::Told;

/// Tells what the row asks for.
fn tell(alloc: Global, told: &mut Told, row: &Row) {
    match row.asked().split_once(' ') {
        Some(("breach", word)) => breaches::answer(alloc, told, row, word),
        Some(("names", word)) => name_maps::answer(alloc, told, word),
        _ => pools::answer(alloc, told, row),
    }
}

/// The line for a row.
fn line_of(alloc: Global, line: &str) -> Result<String, AllocError> {
    let row = Row::read(alloc, line)?;
    let mut told = Told::new(alloc);
    tell(alloc, &mut told, &row);
    answer_line(alloc, &row, told.text()?)
}

/// Prints the line for each row.
fn main(rt: HostRuntime) -> io::Result<()> {
    let rows = io::read_to_string(rt.alloc(), rt.reader())?;
    for row in rows.lines() {
        rt.println(line_of(rt.alloc(), row)?)?;
    }
    Ok(())
}
