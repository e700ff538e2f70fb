//! The built-in files.

ghost use Rattle.std.specs.Prelude.{◌≡◌};
ghost use Rattle.protox_io.specs.Count.{counted};
ghost use Rattle.protox_file_sources.specs.Library.{pooled};

use crate::file::File;
use crate::resolver::FileResolver;
use pbx_link::DescriptorPool;
use pbx_wire::{NoMemory, Text};
use protox_file_error::Error;
use std::alloc::Global;
use std::marker::Model;

/// The files of a pool by their names, as they are linked there. Given the pool of the built-in files, it opens
/// `google/protobuf/any.proto` and the others of that folder. It resolves no path.
#[derive(Drop)]
pub struct GoogleFileResolver {
    pool: DescriptorPool,
}

impl Model for GoogleFileResolver {
    ghost use Rattle.std.specs.Prelude.{List};
    ghost use Rattle.std.specs.Coded.{codes};
    ghost use Rattle.pbx_desc_records.specs.declared.file.FileDescriptorProto.{FileDescriptorProto};
    ghost use Rattle.pbx_desc_records.specs.contracts.file.FileDescriptorProto as proto;

    ghost Value = { List FileDescriptorProto };

    ghost coded = { Prim.hlevel (codes, proto.the_row.coded) };

    ghost view = { λ r. r.pool };
}

impl GoogleFileResolver {
    /// A resolver of the files of the pool.
    pub fn new(pool: DescriptorPool) -> Self
        ensures { result ≡ pool }
    {
        GoogleFileResolver { pool }
    }
}

impl FileResolver for GoogleFileResolver {
    ghost library = { pooled };

    ghost count = { λ _. counted 0 };

    fn resolve_path(&self, _alloc: Global, _path: &str) -> Result<Option<Text>, NoMemory> {
        Ok(None)
    }

    fn open_file(&mut self, alloc: Global, name: &str) -> Result<File, Error> {
        let Some(file) = self.pool.get_file_by_name(name) else {
            return Err(Error::file_not_found(alloc, name));
        };
        match file.file_descriptor_proto(alloc) {
            Ok(record) => Ok(File::from_file_descriptor_proto(record)),
            Err(error) => Err(Error::from(error)),
        }
    }

    fn spent(&self) -> bool {
        false
    }
}
