//! The set of the files of a pool.

ghost use Rattle.std.specs.Prelude.{◌≡◌, ◌⊎◌, option_map, find, IfOk, IfErr, OnOk};
ghost use Rattle.pbx_link_definitions.specs.Names.{text_or_empty};
ghost use Rattle.pbx_link_meaning.specs.Descriptors.{FileDescribed};
ghost use Rattle.protox_transcode.specs.Parts.{IsNoSet};
ghost use Rattle.protox_compile.specs.Sets.{is_undecodable, AreDecodable, IsSet};

use crate::error::TopError;
use pbx_desc_decodable::{encode_decodable, is_decodable};
use pbx_link::{DescriptorPool, FileDescriptor, file_set};
use pbx_wire::{Blob, NoMemory, Text};
use protox_file_sources::{Error, ErrorKind};
use std::alloc::Global;

/// The first file of a pool that cannot be read again.
fn first_undecodable(
    alloc: Global,
    pool: &DescriptorPool,
) -> Result<Option<FileDescriptor>, NoMemory>
    ensures { IfOk result (λ found. option_map (λ (d : FileDescribed). d.file) found ≡ find is_undecodable pool.now) }
{
    for file in pool.files() {
        if !is_decodable(alloc, file.record())? {
            return Ok(Some(file));
        }
    }
    Ok(None)
}

fn undecodable(alloc: Global, file: &FileDescriptor) -> TopError
    ensures { (result ≡ TopError.NoMemory) ⊎ (result ≡ TopError.File (ErrorKind.Undecodable (text_or_empty file.now.file.name))) }
{
    match Text::from_str(alloc, file.name()) {
        Ok(file) => TopError::File(Error::from_kind(ErrorKind::Undecodable { file })),
        Err(NoMemory) => TopError::NoMemory,
    }
}

/// The error that names the first file that cannot be read again, or want of memory.
fn first_error(alloc: Global, pool: &DescriptorPool) -> TopError
    ensures { IsNoSet pool.now result }
{
    match first_undecodable(alloc, pool) {
        Ok(Some(file)) => undecodable(alloc, &file),
        _ => TopError::NoMemory,
    }
}

/// The set of a pool's files, of which each can be read again.
pub(crate) fn set_of(alloc: Global, pool: &DescriptorPool) -> Result<Blob, TopError>
    ensures decodable { OnOk result (AreDecodable pool.now) }
    ensures bytes { IfOk result (IsSet pool.now) }
    ensures err { IfErr result (IsNoSet pool.now) }
{
    let Ok(set) = file_set(alloc, pool) else {
        return Err(TopError::NoMemory);
    };
    match encode_decodable(alloc, set) {
        Ok(Some(bytes)) => Ok(Blob::from_vec(bytes)),
        Ok(None) => Err(first_error(alloc, pool)),
        Err(NoMemory) => Err(TopError::NoMemory),
    }
}
