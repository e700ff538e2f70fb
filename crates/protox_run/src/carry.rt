//! Writing what a run has made.

ghost use Rattle.std.specs.Prelude.{◌≡◌, IfErr, OnErr, IsTrue, string_bytes, option_map};
ghost use Rattle.std.specs.Option.{option_copied};
ghost use Rattle.protox_io.specs.Count.{Rose};
ghost use Rattle.protox_io.specs.Sink.{Appends, Prints, SinkRefuses};
ghost use Rattle.protox_run.specs.Class.{write_to as write_to_of};
ghost use Rattle.protox_run.specs.Parts.{Carries, WritesOne, IsWriteStop, IsPrintStop, IsCarryStop};
ghost use Rattle.protox_run.specs.Told.{stop_told, write_told, writes_told, line_told, Lasts};

use crate::stop::{Object, Stop};
use pbx_wire::{Blob, List};
use protox_io::{Disk, DiskError, Sink, SinkError, write_pieces};
use std::alloc::Global;

/// Bytes that are written under a path.
#[derive(Drop)]
pub(crate) struct Write<'w> {
    pub(crate) path: &'w str,
    pub(crate) bytes: Blob,
}

/// What is to be written and printed: the set, and behind it the wire bytes, where a path is given for them, and a line; and the indices
/// of the paths that were given again.
#[derive(Drop)]
pub(crate) struct Ready<'w> {
    pub(crate) set: Option<Write<'w>>,
    pub(crate) wire: Option<Write<'w>>,
    pub(crate) line: Option<String>,
    pub(crate) repeated: List<u64>,
}

/// The write of the bytes, where a path is given.
pub(crate) fn write_to<'w>(path: Option<&'w str>, bytes: Blob) -> Option<Write<'w>>
    ensures { write_told result ≡ write_to_of (option_copied path.entry) bytes }
{
    match path {
        Some(path) => Some(Write { path, bytes }),
        None => None,
    }
}

/// Writes the bytes under their path, if there are some.
fn write_file<'w, D: Disk>(
    alloc: Global,
    disk: &mut D,
    write: &Option<Write<'w>>,
) -> Result<(), Stop<'w>>
    ensures told { IsTrue (D.volume disk.old).tells → WritesOne (write_told write.now) (D.volume disk.old) (D.volume disk.new) result }
    ensures stop { IfErr result (λ stop. IsWriteStop (write_told write.now) (stop_told stop)) }
    ensures cause { IfErr result (λ stop. IsCarryStop (Rose (D.count disk.old) (D.count disk.new)) ⊥ (stop_told stop)) }
    ensures lasts { Lasts (D.volume disk.old).tells (D.volume disk.new).tells (D.count disk.old) (D.count disk.new) }
{
    let Some(write) = write else {
        return Ok(());
    };
    match disk.write_file(alloc, write.path, write.bytes.as_slice()) {
        Ok(()) => Ok(()),
        Err(DiskError::Failed(_)) => Err(Stop::Broken(Object::Path(write.path))),
        Err(DiskError::NoMemory) => Err(Stop::NoMemory),
    }
}

/// Prints the line, if there is one.
fn print<'w, K: Sink>(out: &mut K, line: &Option<String>) -> Result<(), Stop<'w>>
    ensures told { IsTrue (K.output out.old).tells →
        Appends (K.output out.old).held (K.output out.new).held (Prints (line_told (option_map string_bytes line.now)) result) }
    ensures stop { IfErr result (λ stop. IsPrintStop (stop_told stop)) }
    ensures cause { IfErr result (λ stop. IsCarryStop ⊥ (Rose (K.count out.old) (K.count out.new)) (stop_told stop)) }
    ensures refused { OnErr result (SinkRefuses (Rose (K.count out.old) (K.count out.new)) (K.output out.new).short) }
    ensures lasts { Lasts (K.output out.old).tells (K.output out.new).tells (K.count out.old) (K.count out.new) }
{
    let Some(line) = line else {
        return Ok(());
    };
    match write_pieces(out, &[line.as_bytes(), b"\n"]) {
        Ok(()) => Ok(()),
        Err(SinkError::Failed) => Err(Stop::Broken(Object::Output)),
        Err(SinkError::NoMemory) => Err(Stop::NoMemory),
    }
}

/// Writes the set, then the wire bytes.
fn write_files<'w, D: Disk>(alloc: Global, disk: &mut D, ready: &Ready<'w>) -> Result<(), Stop<'w>>
    ensures told { IsTrue (D.volume disk.old).tells → WritesOne (writes_told ready.now) (D.volume disk.old) (D.volume disk.new) result }
    ensures stop { IfErr result (λ stop. IsWriteStop (writes_told ready.now) (stop_told stop)) }
    ensures cause { IfErr result (λ stop. IsCarryStop (Rose (D.count disk.old) (D.count disk.new)) ⊥ (stop_told stop)) }
    ensures lasts { Lasts (D.volume disk.old).tells (D.volume disk.new).tells (D.count disk.old) (D.count disk.new) }
{
    match write_file(alloc, disk, &ready.set) {
        Ok(()) => write_file(alloc, disk, &ready.wire),
        Err(stop) => Err(stop),
    }
}

/// Writes the files and then prints the line.
pub(crate) fn carry<'w, D: Disk, K: Sink>(
    alloc: Global,
    disk: &mut D,
    out: &mut K,
    ready: &Ready<'w>,
) -> Result<(), Stop<'w>>
    ensures told { IsTrue (D.volume disk.old).tells → IsTrue (K.output out.old).tells →
        Appends (K.output out.old).held (K.output out.new).held
        (Carries (writes_told ready.now) (line_told (option_map string_bytes ready.now.line)) (D.volume disk.old) (D.volume disk.new)
        (Rose (D.count disk.old) (D.count disk.new))
        (SinkRefuses (Rose (K.count out.old) (K.count out.new)) (K.output out.new).short) result) }
    ensures cause { IfErr result (λ stop.
        IsCarryStop (Rose (D.count disk.old) (D.count disk.new)) (Rose (K.count out.old) (K.count out.new)) (stop_told stop)) }
    ensures lasts { Lasts (D.volume disk.old).tells (D.volume disk.new).tells (D.count disk.old) (D.count disk.new) }
    ensures out_lasts { Lasts (K.output out.old).tells (K.output out.new).tells (K.count out.old) (K.count out.new) }
{
    match write_files(alloc, disk, ready) {
        Ok(()) => print(out, &ready.line),
        Err(stop) => Err(stop),
    }
}
