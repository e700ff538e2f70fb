//! What a run writes and prints, and how it ends.

use crate::program::objects::{disk, input, sink, words};
use crate::stop::Stop;
use hex::encode;
use pbx_wire::NoMemory;
use protox_io::{MemoryDisk, MemorySink};
use protox_run::Ran;
use std::alloc::Global;
use std::mem::drop;
use test_rows::Row;

/// The hexadecimal digits of a file, `-` where there is none.
fn digits(alloc: Global, file: Option<&[u8]>) -> Result<String, Stop> {
    match file {
        Some(bytes) => Ok(encode(alloc, bytes)?),
        None => Ok(String::from_str(alloc, "-")?),
    }
}

/// Status, output, error output and the files `w` and `s`, one after another.
fn told(
    alloc: Global,
    ran: &Ran<MemoryDisk>,
    out: &MemorySink,
    err: &MemorySink,
) -> Result<String, Stop> {
    let printed = String::from_utf8_lossy(alloc, out.held())?;
    let said = String::from_utf8_lossy(alloc, err.held())?;
    let wire = digits(alloc, ran.disk.get("w"))?;
    let set = digits(alloc, ran.disk.get("s"))?;
    Ok(format!(in alloc; "{}|{printed}|{said}|{wire}|{set}", ran.status)?)
}

/// Runs protox on the row's words, input and files.
fn ran(
    alloc: Global,
    row: &Row,
    out: &mut MemorySink,
    err: &mut MemorySink,
) -> Result<Ran<MemoryDisk>, Stop> {
    let words = words(alloc, row)?;
    let mut input = input(alloc, row)?;
    match disk(alloc, row) {
        Ok(disk) => Ok(protox_run::run(alloc, &words, disk, &mut input, out, err)),
        Err(NoMemory) => {
            drop(input);
            Err(Stop::NoMemory)
        }
    }
}

/// Status, output, error output and the files `w` and `s` of a run of protox.
pub(crate) fn run(alloc: Global, row: &Row) -> Result<String, Stop> {
    let mut out = sink(alloc, row, "out");
    let mut err = sink(alloc, row, "err");
    match ran(alloc, row, &mut out, &mut err) {
        Ok(ran) => {
            let told = told(alloc, &ran, &out, &err);
            drop(ran);
            told
        }
        Err(stop) => Err(stop),
    }
}
