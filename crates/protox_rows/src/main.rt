//! Rows of what the program `protox` does, of files and all that they import, and of the words of a command line.
//!
//! Each line of the input is a row: a name, what is asked, and fields. `stdin` has the rows, and `stdout` the answers that they
//! must have. What is asked begins with the subject's word and a blank: `file` as the module `file` says, `words` as the module
//! `words` does. What begins with neither is asked of the whole program, as the module `program` says. The names of rows of files
//! and of the words of a command line begin with `file/` and `words/`.
#![tactic(auto)]

mod file;
mod program;
mod stop;
mod words;

use std::alloc::AllocError;
use std::io;
use std::rt::Files;
use stop::Stop;
use test_rows::{Row, answer_line};

fn answer<R: Files + AllocGlobal>(rt: &R, row: &Row) -> Result<String, Stop> {
    let (subject, word) = row.asked().split_once(' ').unwrap_or(("", row.asked()));
    match subject {
        "file" => file::answer(rt, row, word),
        "words" => words::answer(rt.alloc(), row, word),
        _ => program::answer(rt.alloc(), row, row.asked()),
    }
}

/// The line for a row.
fn told<R: Files + AllocGlobal>(rt: &R, line: &str) -> Result<String, AllocError> {
    let row = Row::read(rt.alloc(), line)?;
    match answer(rt, &row) {
        Ok(answer) => answer_line(rt.alloc(), &row, answer.as_str()),
        Err(Stop::NoSuchWord) => answer_line(rt.alloc(), &row, "no such word"),
        Err(Stop::NoMemory) => Err(AllocError),
    }
}

fn main(rt: HostRuntime) -> io::Result<()> {
    for line in rt.lines(rt.alloc()) {
        let told = told(&rt, line?.as_str())?;
        println!(rt; "{told}")?;
    }
    Ok(())
}
