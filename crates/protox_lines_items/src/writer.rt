//! Bytes that are gathered before they are written.

ghost use Rattle.std.specs.Prelude.{◌≡◌, ◌++◌, [], IfErr, OnOk, IsTrue};
ghost use Rattle.protox_io.specs.Count.{Rose, Later};
ghost use Rattle.protox_lines_items.specs.Writing.{Puts, Tells, IsSinkFault, IsToldCause};

use crate::error::LineError;
use pbx_wire::{Blob, NoMemory};
use protox_io::{Sink, SinkError, write_all};
use std::alloc::Global;

/// How many bytes are read at once, and gathered before they are written: one call of the system for many items.
pub(crate) const BLOCK: usize = 65536;

/// Writes all the bytes.
fn write<K: Sink>(out: &mut K, bytes: &[u8]) -> Result<(), LineError>
    ensures told { IsTrue (K.output out.old).tells → Puts (K.output out.old).held [] bytes.now (K.output out.new).held [] result }
    ensures cause { IfErr result (IsSinkFault (Rose (K.count out.old) (K.count out.new))) }
    ensures later { Later (K.count out.old) (K.count out.new) }
    ensures keeps_tells { (K.output out.new).tells ≡ (K.output out.old).tells }
{
    match write_all(out, bytes) {
        Ok(()) => Ok(()),
        Err(SinkError::Failed) => Err(LineError::WriteFault),
        Err(SinkError::NoMemory) => Err(LineError::NoMemory),
    }
}

/// Writes what was gathered, which is none then.
pub(crate) fn flush<K: Sink>(
    alloc: Global,
    out: &mut K,
    gathered: &mut Blob,
) -> Result<(), LineError>
    ensures told { IsTrue (K.output out.old).tells → Puts (K.output out.old).held gathered.old [] (K.output out.new).held gathered.new result }
    ensures none { OnOk result (gathered.new ≡ []) }
    ensures cause { IfErr result (IsSinkFault (Rose (K.count out.old) (K.count out.new))) }
    ensures later { Later (K.count out.old) (K.count out.new) }
    ensures keeps_tells { (K.output out.new).tells ≡ (K.output out.old).tells }
{
    match write(out, gathered.as_slice()) {
        Ok(()) => {
            *gathered = Blob::new(alloc);
            Ok(())
        }
        Err(error) => Err(error),
    }
}

/// Gathers the bytes behind those that are. Where they have no room, all that was gathered is written first, and large bytes are too.
pub(crate) fn put<K: Sink>(
    alloc: Global,
    out: &mut K,
    gathered: &mut Blob,
    bytes: &[u8],
) -> Result<(), LineError>
    ensures told { IsTrue (K.output out.old).tells → Puts (K.output out.old).held gathered.old bytes.now (K.output out.new).held gathered.new result }
    ensures cause { IfErr result (IsSinkFault (Rose (K.count out.old) (K.count out.new))) }
    ensures later { Later (K.count out.old) (K.count out.new) }
    ensures keeps_tells { (K.output out.new).tells ≡ (K.output out.old).tells }
{
    if gathered.as_slice().len().saturating_add(bytes.len()) > BLOCK {
        match flush(alloc, out, gathered) {
            Ok(()) => {}
            Err(error) => return Err(error),
        }
        if bytes.len() >= BLOCK {
            return write(out, bytes);
        }
    }
    match gathered.append(bytes) {
        Ok(()) => Ok(()),
        Err(NoMemory) => Err(LineError::NoMemory),
    }
}

/// Writes what was gathered before an error is told. Where the sink refuses, that is told instead.
pub(crate) fn told_behind<K: Sink>(
    alloc: Global,
    out: &mut K,
    gathered: &mut Blob,
    error: LineError,
) -> LineError
    ensures told { IsTrue (K.output out.old).tells → Tells (K.output out.old).held gathered.old (K.output out.new).held error result }
    ensures cause { IsToldCause (Rose (K.count out.old) (K.count out.new)) error result }
    ensures later { Later (K.count out.old) (K.count out.new) }
    ensures keeps_tells { (K.output out.new).tells ≡ (K.output out.old).tells }
{
    match flush(alloc, out, gathered) {
        Ok(()) => error,
        Err(refused) => refused,
    }
}
