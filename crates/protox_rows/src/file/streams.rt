//! Questions about streams.

use crate::file::told::Told;
use pbx_wire::{Blob, NoMemory};
use protox_io::{
    MemorySink, MemorySource, ReadFault, RealSink, RealSource, Sink, SinkError, Source,
    read_to_end, write_all, write_pieces,
};
use std::alloc::Global;
use std::io::{Read, Write};
use std::rt::Files;
use std::{fs, io};
use test_rows::Row;

/// The call that fails, if the field is a number.
fn call(row: &Row, at: usize) -> Option<u64> {
    row.text(at).parse::<u64>().ok()
}

/// The limit that the field is.
fn limit(row: &Row, at: usize) -> usize {
    row.text(at).parse::<usize>().unwrap_or(0)
}

/// Reads up to four bytes.
fn read_four<S: Source>(source: &mut S, told: &mut Told) {
    told.next();
    let mut four = [0u8; 4];
    match source.read(&mut four) {
        Ok(count) => told.add_bytes(&four[..count]),
        Err(_) => told.add("failed"),
    }
    if source.spent() {
        told.add(", spent");
    }
}

/// Reads so often up to four bytes.
fn read_parts(bytes: Blob, call: Option<u64>, times: u64, told: &mut Told) {
    let mut source = MemorySource::new(bytes, call);
    for _ in 0..times {
        read_four(&mut source, told);
    }
}

/// A source of these bytes, a call of it that fails, and how often up to four bytes are read.
pub(crate) fn source(alloc: Global, row: &Row, told: &mut Told) {
    match Blob::from_slice(alloc, row.bytes(0)) {
        Ok(bytes) => read_parts(bytes, call(row, 1), row.number(2), told),
        Err(_) => told.say("out of memory"),
    }
}

/// The bytes so many times in a row.
fn add_times(blob: &mut Blob, bytes: &[u8], times: u64) -> Result<(), NoMemory> {
    for _ in 0..times {
        blob.append(bytes)?;
    }
    Ok(())
}

/// Reads a source to its end, and compares what was read.
fn read_all<S: Source>(alloc: Global, source: &mut S, limit: usize, bytes: &[u8], told: &mut Told) {
    told.next();
    match read_to_end(alloc, source, limit) {
        Ok(read) => told.add(if read.as_slice() == bytes {
            "all bytes"
        } else {
            "other bytes"
        }),
        Err(ReadFault::Failed) => told.add("failed"),
        Err(ReadFault::TooLong) => told.add("too long"),
        Err(ReadFault::NoMemory) => told.add("out of memory"),
    }
}

/// A source of some bytes so many times, the limit, and a call of it that fails.
pub(crate) fn source_to_end(alloc: Global, row: &Row, told: &mut Told) {
    let mut bytes = Blob::new(alloc);
    if add_times(&mut bytes, row.bytes(0), row.number(1)).is_err() {
        told.say("out of memory");
    }
    match Blob::from_slice(alloc, bytes.as_slice()) {
        Ok(copy) => {
            let mut source = MemorySource::new(copy, call(row, 3));
            read_all(alloc, &mut source, limit(row, 2), bytes.as_slice(), told);
        }
        Err(_) => told.say("out of memory"),
    }
}

fn say_written(answer: Result<(), SinkError>, told: &mut Told) {
    told.say(match answer {
        Ok(()) => "written",
        Err(SinkError::Failed) => "failed",
        Err(SinkError::NoMemory) => "out of memory",
    });
}

/// A call of a sink that fails, and four pieces: one that is written alone, and three in a row.
pub(crate) fn sink(alloc: Global, row: &Row, told: &mut Told) {
    let mut sink = MemorySink::new(alloc, call(row, 0));
    say_written(write_all(&mut sink, row.bytes(1)), told);
    let line = [row.bytes(2), row.bytes(3), row.bytes(4)];
    say_written(write_pieces(&mut sink, &line), told);
    told.next();
    told.add_bytes(sink.held());
    if sink.spent() {
        told.say("spent");
    }
}

/// Writes a new file through a sink.
fn write_file<R: Files>(rt: &R, path: &str, bytes: &[u8], told: &mut Told) {
    match fs::create(rt, path) {
        Ok(file) => {
            let mut sink = RealSink::new(file);
            say_written(write_all(&mut sink, bytes), told);
            if sink.spent() {
                told.say("spent");
            }
        }
        Err(_) => told.say("no file"),
    }
}

/// The path of a file that is made, its bytes, and the limit of what is read back.
pub(crate) fn real<R: Files + AllocGlobal>(rt: &R, row: &Row, told: &mut Told) {
    write_file(rt, row.text(0), row.bytes(1), told);
    match fs::open(rt, row.text(0)) {
        Ok(file) => {
            let mut source = RealSource::new(file);
            read_all(rt.alloc(), &mut source, limit(row, 2), row.bytes(1), told);
            if source.spent() {
                told.say("spent");
            }
        }
        Err(_) => told.say("no file"),
    }
}

/// A stream that cannot be read, and that takes nothing.
#[derive(Drop)]
struct Broken;

impl Read for Broken {
    fn read(&mut self, _buf: &mut [u8]) -> io::Result<usize> {
        Err(io::Error::from(io::ErrorKind::TimedOut))
    }
}

impl Write for Broken {
    fn write(&mut self, _bytes: &[u8]) -> io::Result<usize> {
        Ok(0)
    }

    fn flush(&mut self) -> io::Result<()> {
        Ok(())
    }
}

/// What a sink answers to bytes.
fn write_some<K: Sink>(sink: &mut K, bytes: &[u8], told: &mut Told) {
    told.say(match sink.write(bytes) {
        Ok(0) => "nothing",
        Ok(_) => "some",
        Err(SinkError::Failed) => "failed",
        Err(SinkError::NoMemory) => "out of memory",
    });
}

/// A read, a write of nothing and a write of bytes, over streams that break.
pub(crate) fn over_broken(told: &mut Told) {
    let mut source = RealSource::new(Broken);
    read_four(&mut source, told);
    let mut sink = RealSink::new(Broken);
    write_some(&mut sink, b"", told);
    write_some(&mut sink, b"lost", told);
}
