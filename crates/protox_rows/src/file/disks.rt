//! Questions about disks. The steps of a row put files, list calls that fail, read, write, and open files.

use crate::file::files::say_file;
use crate::file::step::{Step, number, step_at, steps};
use crate::file::told::Told;
use pbx_wire::NoMemory;
use protox_file_sources::File;
use protox_io::{Disk, DiskAnswer, DiskError, MemoryDisk, RealDisk};
use std::alloc::Global;
use std::mem::drop;
use std::rt::Files;
use test_rows::Row;

fn add_error(error: &DiskError, told: &mut Told) {
    match error {
        DiskError::Failed(why) => told.add(why.as_str()),
        DiskError::NoMemory => told.add("out of memory"),
    }
}

/// What the disk has at a path.
fn read<D: Disk>(alloc: Global, disk: &mut D, path: &str, told: &mut Told) {
    told.next();
    match disk.read_file(alloc, path) {
        Ok(DiskAnswer::Bytes(bytes)) => told.add_bytes(bytes.as_slice()),
        Ok(DiskAnswer::Absent) => told.add("absent"),
        Ok(DiskAnswer::TooLarge) => told.add("too large"),
        Err(error) => add_error(&error, told),
    }
}

fn write<D: Disk>(alloc: Global, disk: &mut D, step: Step<'_>, told: &mut Told) {
    told.next();
    match disk.write_file(alloc, step.name, step.bytes) {
        Ok(()) => told.add("written"),
        Err(error) => add_error(&error, told),
    }
}

/// The file of a name at a path.
fn open<D: Disk>(alloc: Global, disk: &mut D, step: Step<'_>, told: &mut Told) {
    let answer = File::open(alloc, disk, step.name, step.text);
    say_file(&answer, told);
    drop(answer);
}

/// Takes a step at any disk.
fn take<D: Disk>(alloc: Global, disk: &mut D, step: Step<'_>, told: &mut Told) {
    match step.word {
        "read" => read(alloc, disk, step.text, told),
        "write" => write(alloc, disk, step, told),
        "as" => open(alloc, disk, step, told),
        _ => {}
    }
    if disk.spent() {
        told.say("spent");
    }
}

/// The bytes of a file that stands on a disk in memory, which is no call of the disk.
fn get(disk: &MemoryDisk, path: &str, told: &mut Told) {
    told.next();
    match disk.get(path) {
        Some(bytes) => told.add_bytes(bytes),
        None => told.add("none"),
    }
}

/// Takes the steps of a row at a disk in memory.
pub(crate) fn take_steps(alloc: Global, row: &Row, disk: &mut MemoryDisk, told: &mut Told) {
    for number in 0..steps(row) {
        let step = step_at(row, number);
        match step.word {
            "get" => get(disk, step.text, told),
            _ => take(alloc, disk, step, told),
        }
    }
}

/// Lets the disk have what a step puts.
fn put(disk: &mut MemoryDisk, step: Step<'_>) -> Result<(), NoMemory> {
    match step.word {
        "file" => disk.put(step.name, step.bytes),
        "oversized" => disk.put_oversized(step.text),
        "fail" => disk.fail_at(number(step.text)),
        _ => Ok(()),
    }
}

/// Lets the disk have what the steps of a row put.
pub(crate) fn fill(row: &Row, disk: &mut MemoryDisk, told: &mut Told) {
    for number in 0..steps(row) {
        if put(disk, step_at(row, number)).is_err() {
            told.say("out of memory");
        }
    }
}

/// The steps of a row at a disk in memory.
pub(crate) fn of_memory(alloc: Global, row: &Row, told: &mut Told) {
    let mut disk = MemoryDisk::new(alloc);
    fill(row, &mut disk, told);
    take_steps(alloc, row, &mut disk, told);
}

/// The steps of a row at the files of the folder where the program runs.
pub(crate) fn real<R: Files + AllocGlobal>(rt: &R, row: &Row, told: &mut Told) {
    let mut disk = RealDisk::new(rt);
    for number in 0..steps(row) {
        take(rt.alloc(), &mut disk, step_at(row, number), told);
    }
}
