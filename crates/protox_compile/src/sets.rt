//! The sets of compiled files.

ghost use Rattle.std.specs.Prelude.{◌≡◌, ◌∷◌, ◌++◌, [], ◌⊎◌, List as ListOf, IfOk, IfErr, OnOk};
ghost use Rattle.pbx_desc_records.specs.declared.file.FileDescriptorProto.{FileDescriptorProto as AFile};
ghost use Rattle.pbx_link_definitions.specs.Names.{text_or_empty};
ghost use Rattle.pbx_desc_encoding.specs.Sets.{IsSetOf};
ghost use Rattle.protox_file_error.specs.declared.error.ErrorKind.{ErrorKind as AKind};
ghost use Rattle.protox_file_error.specs.declared.error.ErrorKind.TheVariants as kinds;
ghost use Rattle.protox_compile_walk.specs.Compiled.{done_by, done_of};
ghost use Rattle.protox_compile.specs.Sets.{with_info, listed as listed_of, next_done, IsSet, AreDecodable, IsUnencodable};

use pbx_desc_decodable::{encode_decodable, first_undecodable};
use pbx_desc_encoding::FileSet;
use pbx_desc_records::FileDescriptorProto;
use pbx_link::{DescriptorPool, FileDescriptor};
use pbx_wire::{List, NoMemory, Text};
use protox_file_sources::{Error, ErrorKind, FileMetadata};
use std::alloc::Global;

/// The linked record of a file, without its source information unless that is kept.
fn record_of(
    alloc: Global,
    file: &FileDescriptor,
    info: bool,
) -> Result<FileDescriptorProto, NoMemory>
    ensures { IfOk result (λ f. f ≡ with_info info file.now.file) }
{
    let mut record = file.file_descriptor_proto(alloc)?;
    if !info {
        record.source_code_info = None;
    }
    Ok(record)
}

/// Adds the record of a file that a set has.
fn add_listed(
    alloc: Global,
    listed: &mut List<FileDescriptorProto>,
    known: &FileMetadata,
    file: &FileDescriptor,
    imports: bool,
    info: bool,
) -> Result<(), NoMemory>
    ensures { OnOk result (listed.new ≡ listed.old ++ listed_of imports info (done_by known.now file.now.file ∷ [])) }
{
    if imports || !known.is_import() {
        listed.add(record_of(alloc, file, info)?)?;
    }
    Ok(())
}

/// Adds the record of the next file, if there is one and a set has it.
fn add_next(
    alloc: Global,
    listed: &mut List<FileDescriptorProto>,
    known: &FileMetadata,
    file: Option<FileDescriptor>,
    imports: bool,
    info: bool,
) -> Result<(), NoMemory>
    ensures { OnOk result (listed.new ≡ listed.old ++ listed_of imports info (next_done known.now file)) }
{
    match file {
        Some(file) => add_listed(alloc, listed, known, &file, imports, info),
        None => Ok(()),
    }
}

/// The records that a set of the files has: what is known of each stands beside its record in the pool.
pub(crate) fn listed(
    alloc: Global,
    known: &[FileMetadata],
    pool: &DescriptorPool,
    imports: bool,
    info: bool,
) -> Result<List<FileDescriptorProto>, NoMemory>
    ensures { IfOk result (λ files. files ≡ listed_of imports info (done_of known.now pool.now)) }
{
    let mut listed = List::new(alloc);
    let mut files = pool.files();
    for metadata in known {
        add_next(alloc, &mut listed, metadata, files.next(), imports, info)?;
    }
    Ok(listed)
}

/// The set with the linked record of one more file, without its source information unless that is kept.
fn with_record(
    alloc: Global,
    set: FileSet,
    file: &FileDescriptor,
    info: bool,
) -> Result<FileSet, NoMemory>
    ensures { IfOk result (λ more. (files : ListOf AFile) → IsSetOf set files → IsSetOf more (files ++ with_info info file.now.file ∷ [])) }
{
    if info {
        set.with_file(alloc, file.record())
    } else {
        let record = record_of(alloc, file, false)?;
        set.with_file(alloc, &record)
    }
}

/// The set with one more file, where a set has it.
fn with_listed(
    alloc: Global,
    set: FileSet,
    known: &FileMetadata,
    file: &FileDescriptor,
    imports: bool,
    info: bool,
) -> Result<FileSet, NoMemory>
    ensures { IfOk result (λ more. (files : ListOf AFile) → IsSetOf set files →
        IsSetOf more (files ++ listed_of imports info (done_by known.now file.now.file ∷ []))) }
{
    if imports || !known.is_import() {
        with_record(alloc, set, file, info)
    } else {
        Ok(set)
    }
}

/// The set with the next file, if there is one and a set has it.
fn with_next(
    alloc: Global,
    set: FileSet,
    known: &FileMetadata,
    file: Option<FileDescriptor>,
    imports: bool,
    info: bool,
) -> Result<FileSet, NoMemory>
    ensures { IfOk result (λ more. (files : ListOf AFile) → IsSetOf set files →
        IsSetOf more (files ++ listed_of imports info (next_done known.now file))) }
{
    match file {
        Some(file) => with_listed(alloc, set, known, &file, imports, info),
        None => Ok(set),
    }
}

/// The set of these records, to be written. Records with their source information are not copied.
fn listed_set(
    alloc: Global,
    known: &[FileMetadata],
    pool: &DescriptorPool,
    imports: bool,
    info: bool,
) -> Result<FileSet, NoMemory>
    ensures { IfOk result (λ set. IsSetOf set (listed_of imports info (done_of known.now pool.now))) }
{
    let mut set = FileSet::new(alloc)?;
    let mut files = pool.files();
    for metadata in known {
        set = with_next(alloc, set, metadata, files.next(), imports, info)?;
    }
    Ok(set)
}

fn undecodable(alloc: Global, file: &FileDescriptorProto) -> Error
    ensures { (result ≡ kinds.NoMemory) ⊎ (result ≡ kinds.Undecodable (text_or_empty file.now.name)) }
{
    let name = match &file.name {
        Some(name) => name.as_str(),
        None => "",
    };
    match Text::from_str(alloc, name) {
        Ok(file) => Error::from_kind(ErrorKind::Undecodable { file }),
        Err(NoMemory) => Error::from(NoMemory),
    }
}

/// The error that names the first of the records that cannot be read again, or want of memory.
fn first_error(
    alloc: Global,
    known: &[FileMetadata],
    pool: &DescriptorPool,
    imports: bool,
    info: bool,
) -> Error
    ensures { IsUnencodable (listed_of imports info (done_of known.now pool.now)) result }
{
    let Ok(files) = listed(alloc, known, pool, imports, info) else {
        return Error::from(NoMemory);
    };
    match first_undecodable(alloc, files.as_slice()) {
        Ok(Some(file)) => undecodable(alloc, file),
        _ => Error::from(NoMemory),
    }
}

/// The bytes of the set of these records, of which each can be read again.
pub(crate) fn encode_listed(
    alloc: Global,
    known: &[FileMetadata],
    pool: &DescriptorPool,
    imports: bool,
    info: bool,
) -> Result<Vec<u8>, Error>
    ensures ok { IfOk result (λ bytes. IsSet (listed_of imports info (done_of known.now pool.now)) bytes.items) }
    ensures decodable { OnOk result (AreDecodable (listed_of imports info (done_of known.now pool.now))) }
    ensures err { IfErr result (IsUnencodable (listed_of imports info (done_of known.now pool.now))) }
{
    let Ok(set) = listed_set(alloc, known, pool, imports, info) else {
        return Err(Error::from(NoMemory));
    };
    match encode_decodable(alloc, set) {
        Ok(Some(bytes)) => Ok(bytes),
        Ok(None) => Err(first_error(alloc, known, pool, imports, info)),
        Err(NoMemory) => Err(Error::from(NoMemory)),
    }
}
