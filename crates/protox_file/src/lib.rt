//! Files and resolvers of files: those that read, which stand in a crate below, and those over other resolvers and over sets: a chain, the
//! folders of a disk with the built-in files, and a descriptor set.
#![tactic(auto)]

mod chain;
mod descriptor_set;
mod laws;
mod standard;

pub use chain::ChainFileResolver;
pub use descriptor_set::DescriptorSetFileResolver;
pub use laws::{chains_join, no_members_have_nothing, sets_are_read_once};
pub use protox_file_sources::{
    Disk, DiskAnswer, DiskError, Error, ErrorKind, File, FileMetadata, FileResolver,
    GoogleFileResolver, IncludeFileResolver, MemoryDisk, MemoryResolver, RealDisk, join_path,
    looked_up_once, names_name_themselves, path_eq, path_to_file_name, resolved_stand_below,
    strip_prefix,
};
pub use standard::StandardResolver;
