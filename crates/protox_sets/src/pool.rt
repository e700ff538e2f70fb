//! Pools of sets on a disk.

ghost use Rattle.std.specs.Prelude.{◌≡◌, ◌∷◌, [], IfOk, IfErr, IsTrue};
ghost use Rattle.std.specs.List.{concat};
ghost use Rattle.pbx_link.specs.Bytes.{AreAdded, IsSetRefused};
ghost use Rattle.pbx_link_definitions.specs.declared.error.DescriptorError.TheVariants as errors;
ghost use Rattle.protox_file_error.specs.Lines.{long_line_of};
ghost use Rattle.protox_file_error.specs.declared.error.ErrorKind.TheVariants as kinds;
ghost use Rattle.protox_io.specs.Count.{Rose, Later};
ghost use Rattle.protox_io.specs.Disk.{Stored};
ghost use Rattle.protox_sets.specs.Sets.{HasPool, held_at};
ghost use Rattle.protox_sets.specs.Stops.{IsSetStop, IsStopCause};
ghost use Rattle.protox_sets.specs.Parts.{IsRefusedAs, IsBrokenAs, IsPoolStop};

use crate::stop::Stop;
use pbx_link::{DescriptorError, DescriptorPool};
use pbx_wire::{List, NoMemory, Text};
use protox_file_error::{Error, ErrorKind};
use protox_io::{Disk, DiskAnswer, DiskError};
use std::alloc::Global;

/// The refusal with a line of these parts.
fn refused(alloc: Global, before: &str, path: &str, behind: &str) -> Stop
    ensures { IsRefusedAs (concat (before.now ∷ path.now ∷ behind.now ∷ [])) result }
{
    match Text::joined(alloc, &[before, path, behind]) {
        Ok(line) => Stop::Refused(line),
        Err(NoMemory) => Stop::NoMemory,
    }
}

/// The stop of a set that cannot be read.
fn unread(alloc: Global, path: &str) -> Stop
    ensures { IsBrokenAs path.now result }
{
    match Text::joined(alloc, &["reading '", path, "' failed"]) {
        Ok(line) => Stop::Broken(line),
        Err(NoMemory) => Stop::NoMemory,
    }
}

/// The stop of a set of which a file breaks a rule of linking.
fn unlinked(alloc: Global, file: Text, place: List<i32>, rule: u8) -> Stop
    ensures { IsRefusedAs (concat (long_line_of (kinds.Check (errors.Rule file place rule)))) result }
{
    let error = ErrorKind::Check(DescriptorError::Rule { file, place, rule });
    match Error::from_kind(error).long_line(alloc) {
        Ok(line) => Stop::Refused(line),
        Err(NoMemory) => Stop::NoMemory,
    }
}

/// The pool of the bytes of the set at the path.
fn pool_of(alloc: Global, path: &str, bytes: &[u8]) -> Result<DescriptorPool, Stop>
    ensures pool { IfOk result (AreAdded [] bytes.now) }
    ensures stop { IfErr result (IsPoolStop path.now bytes.now) }
{
    match DescriptorPool::decode(alloc, bytes) {
        Ok(pool) => Ok(pool),
        Err(DescriptorError::Decode(_)) => Err(refused(
            alloc,
            "'",
            path,
            "' is not a descriptor set",
        )),
        Err(DescriptorError::Rule { file, place, rule }) => Err(unlinked(alloc, file, place, rule)),
        Err(DescriptorError::NoMemory) => Err(Stop::NoMemory),
    }
}

/// The pool of the files of the descriptor set at the path. Refused are, each with its line, a path at which nothing is or more than 2 GiB,
/// bytes that are no set, and a set of which a file breaks a rule of linking.
pub fn read_pool<D: Disk>(alloc: Global, disk: &mut D, path: &str) -> Result<DescriptorPool, Stop>
    ensures pool { IsTrue (D.volume disk.old).tells → IfOk result (HasPool (D.volume disk.old) path.now) }
    ensures stop { IsTrue (D.volume disk.old).tells → IfErr result (IsSetStop (D.volume disk.old) path.now) }
    ensures cause { IfErr result (IsStopCause path.now (Rose (D.count disk.old) (D.count disk.new))) }
    ensures later { Later (D.count disk.old) (D.count disk.new) }
    ensures keeps { D.volume disk.new ≡ D.volume disk.old }
{
    match disk.read_file(alloc, path) {
        Ok(DiskAnswer::Bytes(bytes)) => pool_of(alloc, path, bytes.as_slice()),
        Ok(DiskAnswer::Absent) => Err(refused(alloc, "file '", path, "' not found")),
        Ok(DiskAnswer::TooLarge) => Err(refused(alloc, "file '", path, "' is too large")),
        Err(DiskError::Failed(_)) => Err(unread(alloc, path)),
        Err(DiskError::NoMemory) => Err(Stop::NoMemory),
    }
}
