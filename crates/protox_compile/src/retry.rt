//! Opening a path again, where the next opening may not meet what the last one was refused for.

ghost use Rattle.std.specs.Prelude.{◌≡◌, ◌≤◌, ◌+◌, ◌||◌, drop, length, false, true, OnOk, IfErr};
ghost use Rattle.protox_compile_laws.specs.Retry.{may_pass};
ghost use Rattle.protox_compile.specs.Tries.{EndsTries, has_opened, lacks_memory, told_before};

use pbx_wire::NoMemory;
use protox_compile_walk::Opened;
use protox_file_sources::{Error, ErrorKind, FileMetadata};
use std::mem;

/// How often a path may still be opened again.
#[derive(Drop)]
pub(crate) struct Tries {
    left: u32,
    // Whether an opening was refused for want of memory.
    lacked: bool,
}

/// Whether the next opening may not meet it.
fn may_pass(error: &Error) -> bool
    ensures { result ≡ may_pass error.now }
{
    matches!(
        error.kind(),
        ErrorKind::OpenFile { .. } | ErrorKind::Custom { .. } | ErrorKind::NoMemory
    )
}

fn lacks_memory(error: &Error) -> bool
    ensures { result ≡ lacks_memory error.now }
{
    matches!(error.kind(), ErrorKind::NoMemory)
}

impl Tries {
    pub(crate) fn new(left: u32) -> Tries
        ensures left { result.left ≡ left }
        ensures lacked { result.lacked ≡ false }
    {
        Tries {
            left,
            lacked: false,
        }
    }

    /// Goes on to the next try behind an opening that was refused with the error, or answers the error of all of them.
    pub(crate) fn next(&mut self, error: Error) -> Result<(), Error>
        ensures passes { OnOk result (may_pass error ≡ true) }
        ensures left { OnOk result (self.old.left ≡ self.new.left + 1) }
        ensures lacked { OnOk result (self.new.lacked ≡ (self.old.lacked || lacks_memory error)) }
        ensures ends { IfErr result (EndsTries self.old.lacked self.old.left error) }
    {
        if !may_pass(&error) {
            return Err(error);
        }
        if self.left > 0 {
            self.left -= 1;
            self.lacked |= lacks_memory(&error);
            mem::drop(error);
            return Ok(());
        }
        if self.lacked {
            mem::drop(error);
            return Err(Error::from(NoMemory));
        }
        Err(error)
    }
}

/// Whether one of the files is marked as opened.
fn has_opened(files: &[FileMetadata]) -> bool
    ensures { result ≡ has_opened files.now }
{
    files.iter().any(|file| !file.is_import())
}

/// What a name was when there were so many files, where an opening marked it and told this.
///
/// A resolver that changes may name another file at a later try: one that an earlier try finished as an import.
pub(crate) fn told_before(files: &[FileMetadata], before: usize, report: Opened) -> Opened
    requires { before ≤ length files.now }
    ensures { result ≡ told_before (drop before files.now) report }
{
    match report {
        Opened::Compiled => Opened::Compiled,
        Opened::Import => {
            if has_opened(&files[before..]) {
                Opened::Compiled
            } else {
                Opened::Import
            }
        }
        Opened::Again => Opened::Again,
    }
}
