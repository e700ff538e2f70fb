ghost use Rattle.std.specs.Prelude.{◌≡◌, IsTrue};
ghost use Rattle.protox_io.specs.Count.{Count, Rose, Later};
ghost use Rattle.protox_io.specs.Disk.{Volume, IsHeld, Writes, FailsByCount};
ghost use Rattle.protox_io.specs.Paths.{disk_key};

use pbx_wire::{Blob, Text};
use std::alloc::Global;
use thiserror::Error;

// The most bytes of a file, as of a serialized Protocol Buffers message.
pub(crate) const LARGEST: usize = 2147483647;

/// What a disk has at a path.
#[derive(Debug, Drop)]
pub enum DiskAnswer {
    /// The whole file, of at most 2,147,483,647 bytes.
    Bytes(Blob),
    /// No file stands there.
    Absent,
    /// The file has more than 2,147,483,647 bytes, as no serialized Protocol Buffers message has.
    TooLarge,
}

/// Why a disk did not answer.
#[derive(Debug, Drop, Error)]
pub enum DiskError {
    /// The disk failed, as this text says. Its count of faults rose, or stands at its end.
    #[error("{0}")]
    Failed(Text),
    /// Memory ran out. A disk may have failed as well, without memory for the text that says so.
    #[error("out of memory")]
    NoMemory,
}

/// Files by path, as a compiler reads its sources and writes its descriptor set. Paths are relative to a folder of the
/// disk's own choice, or begin at its root with `/`. On a disk that tells, two paths are one file where they have one key:
/// without `.`, and with each `..` carried out.
pub trait Disk {
    /// Whether it tells what it holds, what stands at each key, and the keys that a refused write has spoiled.
    ghost volume: { Self → Volume };

    /// How often it has failed.
    ghost count: { Self → Count };

    /// Reads the whole file at a path. Reading changes no file.
    fn read_file(&mut self, alloc: Global, path: &str) -> Result<DiskAnswer, DiskError>
        ensures told { IsTrue (volume self.old).tells → IsHeld ((volume self.old).holds (disk_key path.now)) result }
        ensures keeps { volume self.new ≡ volume self.old }
        ensures cause { FailsByCount (Rose (count self.old) (count self.new)) result }
        ensures later { Later (count self.old) (count self.new) };

    /// Lets the file at a path have these bytes, in place of any that it had. After a refused write the key of the path
    /// is as it was, or spoiled; all other files stay in either case.
    fn write_file(&mut self, alloc: Global, path: &str, bytes: &[u8]) -> Result<(), DiskError>
        ensures told { IsTrue (volume self.old).tells → Writes (disk_key path.now) bytes.now (volume self.old) (volume self.new) result }
        ensures keeps_tells { (volume self.new).tells ≡ (volume self.old).tells }
        ensures cause { FailsByCount (Rose (count self.old) (count self.new)) result }
        ensures later { Later (count self.old) (count self.new) };

    /// Whether the count of faults stands at its end, so that a further fault does not raise it.
    fn spent(&self) -> bool
        ensures { result ≡ (count self.now).spent };
}
