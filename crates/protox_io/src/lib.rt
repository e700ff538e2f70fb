//! What stands outside a program: a disk, a source and sinks, in memory and real; and the names that files have by their paths.
#![tactic(auto)]

mod components;
mod disk;
mod key;
mod memory_disk;
mod memory_stream;
mod paths;
mod read;
mod real;
mod shown;
mod stream;
mod write;

pub use disk::{Disk, DiskAnswer, DiskError};
pub use memory_disk::MemoryDisk;
pub use memory_stream::{MemorySink, MemorySource};
pub use paths::{
    escapes, join_path, names_name_themselves, path_eq, path_to_file_name, resolved_stand_below,
    strip_prefix,
};
pub use read::{ReadFault, read_to_end};
pub use real::{RealDisk, RealError, RealSink, RealSource};
pub use shown::{shown_is_plain, write_line, write_shown};
pub use stream::{Failed, Sink, SinkError, Source};
pub use write::{write_all, write_pieces};
