//! Files, their paths, and the errors of finding and reading them.
#![tactic(auto)]

mod file;
mod google;
mod include;
mod memory;
mod metadata;
mod place;
mod resolver;

pub use file::{File, looked_up_once};
pub use google::GoogleFileResolver;
pub use include::IncludeFileResolver;
pub use memory::MemoryResolver;
pub use metadata::FileMetadata;
pub use protox_file_error::{Error, ErrorKind};
pub use protox_io::{
    Disk, DiskAnswer, DiskError, MemoryDisk, RealDisk, join_path, names_name_themselves, path_eq,
    path_to_file_name, resolved_stand_below, strip_prefix,
};
pub use resolver::FileResolver;
