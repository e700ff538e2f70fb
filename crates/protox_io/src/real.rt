ghost use Rattle.std.specs.Prelude.{◌≡◌, ◌≤◌, ◌<◌, ◌==◌, ◌^◌, ◌-◌, [], false, IfOk, OnErr, IfErr, IsTrue, is_err, length, if◌then◌else◌};
ghost use Rattle.protox_io.specs.Count.{Rose, Later, raised, counted};
ghost use Rattle.protox_io.specs.Disk.{untold, FailsWith, FailsByCount, Counts, CountsError};
ghost use Rattle.protox_io.specs.Sink.{RefusesFor};

use crate::disk::LARGEST;
use crate::{Disk, DiskAnswer, DiskError, Failed, ReadFault, Sink, SinkError, Source, read_to_end};
use pbx_wire::Text;
use std::alloc::Global;
use std::fs;
use std::io::{ErrorKind, Read, Write};
use std::marker::Model;
use std::rt::Files;

/// The system's files, which contracts see as the count of faults. It tells nothing of what it holds.
#[derive(Drop)]
pub struct RealDisk<R> {
    rt: R,
    faults: u64,
}

impl<R> Model for RealDisk<R> {
    ghost use Rattle.std.specs.Prelude.{ℕ};

    ghost Value = { ℕ };

    ghost view = { λ d. d.faults };
}

impl<R: Files> RealDisk<R> {
    /// The files that this handle reaches. Relative paths begin at the working folder of the process.
    pub fn new(rt: R) -> Self
        ensures { result ≡ 0 }
    {
        RealDisk { rt, faults: 0 }
    }
}

impl<R> RealDisk<R> {
    /// Counts a fault of the system; want of memory is none.
    fn fault(&mut self, alloc: Global, kind: ErrorKind) -> DiskError
        ensures counts { CountsError self.old self.new result }
        ensures cause { FailsWith (Rose (counted self.old) (counted self.new)) result }
        ensures later { Later (counted self.old) (counted self.new) }
    {
        if kind == ErrorKind::OutOfMemory {
            return DiskError::NoMemory;
        }
        self.faults = self.faults.saturating_add(1);
        match Text::from_str(alloc, describe(kind)) {
            Ok(text) => DiskError::Failed(text),
            Err(_) => DiskError::NoMemory,
        }
    }
}

/// What the line of a fault says of its cause.
fn describe(kind: ErrorKind) -> &'static str {
    match kind {
        ErrorKind::PermissionDenied => "permission denied",
        ErrorKind::IsADirectory => "is a directory",
        ErrorKind::NotADirectory => "not a directory",
        ErrorKind::NotFound => "no such folder",
        ErrorKind::ReadOnlyFilesystem => "the file system is read only",
        ErrorKind::StorageFull => "no space is left",
        ErrorKind::FilesystemLoop => "a loop of links",
        _ => "the system refused",
    }
}

/// Whether no file can stand at a path that was refused for this: nothing does, what stands above it is a file, or no
/// name of the system has such bytes or is as long.
fn is_absence(kind: ErrorKind) -> bool {
    match kind {
        ErrorKind::NotFound
        | ErrorKind::NotADirectory
        | ErrorKind::InvalidFilename
        | ErrorKind::InvalidInput => true,
        _ => false,
    }
}

/// A stream to read from, which contracts see as the count of faults. It tells nothing of what it holds.
#[derive(Drop)]
pub struct RealSource<R> {
    stream: R,
    faults: u64,
    // Of the latest fault.
    why: ErrorKind,
}

impl<R> Model for RealSource<R> {
    ghost use Rattle.std.specs.Prelude.{ℕ};

    ghost Value = { ℕ };

    ghost view = { λ s. s.faults };
}

impl<R: Read> RealSource<R> {
    /// Give the stream itself, and none with a buffer of its own: `read_to_end` asks for 16 KiB at a time.
    pub fn new(stream: R) -> Self
        ensures { result ≡ 0 }
    {
        RealSource {
            stream,
            faults: 0,
            why: ErrorKind::Other,
        }
    }
}

impl<R: Read> Source for RealSource<R> {
    ghost input = { λ _. record { tells = false; left = [] } };

    ghost count = { counted };

    fn read(&mut self, buf: &mut [u8]) -> Result<usize, Failed>
        ensures within { IfOk result (λ n. n ≤ length buf.new) }
        ensures counts { self.new ≡ (if is_err result then raised self.old else self.old) }
        ensures cause { OnErr result (Rose (counted self.old) (counted self.new)) }
        ensures later { Later (counted self.old) (counted self.new) }
    {
        match self.stream.read(buf) {
            Ok(n) => Ok(n),
            Err(error) => {
                self.faults = self.faults.saturating_add(1);
                self.why = error.kind();
                Err(Failed)
            }
        }
    }

    fn spent(&self) -> bool {
        self.faults == u64::MAX
    }
}

/// A stream to write to, which contracts see as the count of faults. It tells nothing of what it holds.
#[derive(Drop)]
pub struct RealSink<W> {
    stream: W,
    faults: u64,
}

/// The stream that a program says its errors to, which is a sink as any other.
pub type RealError<W> = RealSink<W>;

impl<W> Model for RealSink<W> {
    ghost use Rattle.std.specs.Prelude.{ℕ};

    ghost Value = { ℕ };

    ghost view = { λ s. s.faults };
}

impl<W: Write> RealSink<W> {
    /// Give the stream itself, and none with a buffer of its own: what stands in a buffer is not written yet.
    pub fn new(stream: W) -> Self
        ensures { result ≡ 0 }
    {
        RealSink { stream, faults: 0 }
    }
}

impl<W: Write> Sink for RealSink<W> {
    ghost output = { λ _. record { tells = false; held = []; short = false } };

    ghost count = { counted };

    /// A write that takes nothing of some bytes is a fault.
    fn write(&mut self, bytes: &[u8]) -> Result<usize, SinkError>
        ensures within { IfOk result (λ n. n ≤ length bytes.now) }
        ensures some { IfOk result (λ n. 0 < length bytes.now → 0 < n) }
        ensures counts { self.new ≡ (if is_err result then raised self.old else self.old) }
        ensures cause { IfErr result (RefusesFor (Rose (counted self.old) (counted self.new)) ⊥) }
        ensures later { Later (counted self.old) (counted self.new) }
    {
        match self.stream.write(bytes) {
            Ok(n) if n > 0 || bytes.is_empty() => Ok(n),
            _ => {
                self.faults = self.faults.saturating_add(1);
                Err(SinkError::Failed)
            }
        }
    }

    fn spent(&self) -> bool {
        self.faults == u64::MAX
    }
}

impl<R: Files> Disk for RealDisk<R> {
    ghost volume = { λ _. untold };

    ghost count = { counted };

    /// A path that does not exist is `Absent`, and so is one that no file can have: below a file, with a NUL byte, or too
    /// long. A folder, or a file that cannot be read, is a fault.
    fn read_file(&mut self, alloc: Global, path: &str) -> Result<DiskAnswer, DiskError>
        ensures counts { Counts self.old self.new result }
        ensures cause { FailsByCount (Rose (counted self.old) (counted self.new)) result }
        ensures later { Later (counted self.old) (counted self.new) }
    {
        let file = match fs::open(&self.rt, path) {
            Ok(file) => file,
            Err(error) => {
                if is_absence(error.kind()) {
                    return Ok(DiskAnswer::Absent);
                }
                return Err(self.fault(alloc, error.kind()));
            }
        };
        let mut source = RealSource::new(file);
        match read_to_end(alloc, &mut source, LARGEST) {
            Ok(bytes) => Ok(DiskAnswer::Bytes(bytes)),
            Err(ReadFault::TooLong) => Ok(DiskAnswer::TooLarge),
            Err(ReadFault::NoMemory) => Err(DiskError::NoMemory),
            Err(ReadFault::Failed) => Err(self.fault(alloc, source.why)),
        }
    }

    fn write_file(&mut self, alloc: Global, path: &str, bytes: &[u8]) -> Result<(), DiskError>
        ensures counts { Counts self.old self.new result }
        ensures cause { FailsByCount (Rose (counted self.old) (counted self.new)) result }
        ensures later { Later (counted self.old) (counted self.new) }
    {
        match fs::write(&self.rt, path, bytes) {
            Ok(()) => Ok(()),
            Err(error) => Err(self.fault(alloc, error.kind())),
        }
    }

    fn spent(&self) -> bool {
        self.faults == u64::MAX
    }
}
