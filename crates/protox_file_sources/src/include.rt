ghost use Rattle.std.specs.Prelude.{◌≡◌};
ghost use Rattle.protox_file_sources.specs.Library.{below};

use crate::file::File;
use crate::resolver::FileResolver;
use pbx_wire::{NoMemory, Text};
use protox_file_error::Error;
use protox_io::{Disk, join_path, path_to_file_name, strip_prefix};
use std::alloc::Global;
use std::marker::Model;

/// The files of a folder, on a disk. A path below the folder is that of the file that the rest of it names.
#[derive(Drop)]
pub struct IncludeFileResolver<D> {
    include: Text,
    disk: D,
}

impl<D> Model for IncludeFileResolver<D> {
    ghost use Rattle.protox_file_sources.specs.Include.{Include};

    ghost Value = { Include D };

    ghost view = { λ r. record { include = r.include; disk = r.disk } };
}

impl<D: Disk> IncludeFileResolver<D> {
    /// The files of the folder at that path.
    pub fn new(include: Text, disk: D) -> Self
        ensures { result ≡ record { include = include; disk = disk } }
    {
        IncludeFileResolver { include, disk }
    }

    /// The disk.
    pub fn into_disk(self) -> D
        ensures { result ≡ self.disk }
    {
        self.disk
    }
}

impl<D: Disk> FileResolver for IncludeFileResolver<D> {
    ghost library = { λ r. below (D.volume r.disk) r.include };

    ghost count = { λ r. D.count r.disk };

    fn resolve_path(&self, alloc: Global, path: &str) -> Result<Option<Text>, NoMemory> {
        match strip_prefix(path, self.include.as_str()) {
            Some(rest) => path_to_file_name(alloc, rest),
            None => Ok(None),
        }
    }

    fn open_file(&mut self, alloc: Global, name: &str) -> Result<File, Error> {
        let path = join_path(alloc, self.include.as_str(), name)?;
        File::open(alloc, &mut self.disk, name, path.as_str())
    }

    fn spent(&self) -> bool {
        self.disk.spent()
    }
}
