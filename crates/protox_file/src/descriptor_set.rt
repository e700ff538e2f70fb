//! The files of a descriptor set.

ghost use Rattle.std.specs.Prelude.{◌≡◌, [], Some, map, unwrap_or, option_map, slice_get, OnOk, IfOk, IfErr};
ghost use Rattle.std.specs.Option.{option_copied};
ghost use Rattle.pbx_wire.specs.View.{rec_of};
ghost use Rattle.pbx_content.specs.Faults.{IsToldFault};
ghost use Rattle.pbx_desc_encoding.specs.Sets.{set_meaning_of, IsSetFault};
ghost use Rattle.pbx_link.specs.Bytes.{DecodesFiles};
ghost use Rattle.protox_io.specs.Count.{counted};
ghost use Rattle.protox_file_sources.specs.Library.{alone};
ghost use Rattle.protox_file.specs.Listed.{declared_name, first_declared, listed_files};
ghost use Rattle.protox_file.specs.Sets.{entries_of, records_of, AreFilesIn, IsAdded};
ghost use Rattle.protox_file.specs.Indexes.{indexed_from, told_entry, told_at, AreIndexesOf};

use pbx_desc::DecodeMessage;
use pbx_desc_records::{FileDescriptorProto, FileDescriptorSet};
use pbx_link_names::NameMap;
use pbx_wire::{DecodeError, List, NoMemory, RecRef, Text, read_rec_ref};
use protox_file_error::Error;
use protox_file_sources::{File, FileResolver};
use std::alloc::Global;
use std::marker::Model;

/// How many levels of groups a record of a set may have that is no file.
const LEVELS: usize = 100;

/// The files of a set.
#[derive(Drop)]
enum Files {
    /// Of a set that was given: each is a record alone.
    Records(List<FileDescriptorProto>),
    /// Of the bytes of a set: each is kept beside its own bytes.
    Decoded(List<File>),
}

/// The files of a `google.protobuf.FileDescriptorSet`, each under the name that it declares. The first file of a name
/// answers, and is found by log n comparisons: the names are put in order when a file is asked for the first time. It
/// resolves no path, and never fails but for want of memory.
#[derive(Drop)]
pub struct DescriptorSetFileResolver {
    files: Files,
    // The index of the first file of each name, from the first open on.
    indexes: Option<NameMap<usize>>,
}

impl Model for DescriptorSetFileResolver {
    ghost use Rattle.std.specs.Prelude.{List};
    ghost use Rattle.std.specs.Coded.{codes};
    ghost use Rattle.pbx_desc_records.specs.contracts.file.FileDescriptorProto as proto;
    ghost use Rattle.protox_file_sources.specs.Told.{Entry};
    ghost use Rattle.protox_file.specs.Sets.{entries_of};
    ghost use Rattle.protox_file.specs.Indexes.{AreIndexesOf};

    ghost Value = { List Entry };

    ghost coded = { Prim.hlevel (codes, proto.the_row.coded) };

    ghost view = { λ r. entries_of r.files };

    ghost invariant = { λ r. AreIndexesOf (entries_of r.files) r.indexes };
}

impl DescriptorSetFileResolver {
    /// The files of a set, each a record alone; takes no memory.
    pub fn new(_alloc: Global, set: FileDescriptorSet) -> Self
        ensures { result ≡ map alone set.file }
    {
        DescriptorSetFileResolver {
            files: Files::Records(set.file),
            indexes: None,
        }
    }

    /// The files of a set that decodes from bytes, each beside its own bytes as they stand in the set. Each file has 100
    /// levels of its own.
    #[tactic(auto, using(crate::proofs::Sets::decodes_files))]
    pub fn decode(alloc: Global, bytes: &[u8]) -> Result<Self, DecodeError>
        ensures files { IfOk result (AreFilesIn bytes.now) }
        // They are the files that the whole set decodes to.
        ensures decoded { IfOk result (λ it. DecodesFiles bytes.now (records_of it)) }
        // Only where the bytes decode to no set. Where there are several faults, the first.
        ensures fault { IfErr result (IsToldFault (set_meaning_of bytes.now) (IsSetFault bytes.now)) }
    {
        match files_in(alloc, bytes) {
            Ok(files) => Ok(DescriptorSetFileResolver {
                files: Files::Decoded(files),
                indexes: None,
            }),
            Err(_) => Err(fault_of(alloc, bytes)),
        }
    }

    /// The index of the first file that declares the name. The only error is want of memory.
    fn index_of(&mut self, alloc: Global, name: &str) -> Result<Option<usize>, NoMemory>
        ensures found { IfOk result (λ index. told_at self.old index ≡ first_declared self.old name.now) }
        ensures keeps { self.new ≡ self.old }
    {
        if let Some(indexes) = &self.indexes {
            return Ok(indexes.get(name).copied());
        }
        let indexes = self.files.indexes(alloc)?;
        let index = indexes.get(name).copied();
        self.indexes = Some(indexes);
        Ok(index)
    }

    /// The first file that declares the name. The only error is want of memory.
    fn first(&mut self, alloc: Global, name: &str) -> Result<Option<File>, NoMemory>
        ensures found { IfOk result (λ file. told_entry file ≡ first_declared self.old name.now) }
        ensures keeps { self.new ≡ self.old }
    {
        match self.index_of(alloc, name)? {
            Some(index) => self.files.file_at(alloc, index),
            None => Ok(None),
        }
    }
}

/// Why the bytes of a set were not read: their first fault, or want of memory.
fn fault_of(alloc: Global, bytes: &[u8]) -> DecodeError
    ensures { IsToldFault (set_meaning_of bytes.now) (IsSetFault bytes.now) result }
{
    match FileDescriptorSet::decode(alloc, bytes) {
        // It was memory that had run out.
        Ok(_) => DecodeError::NoMemory,
        Err(fault) => fault,
    }
}

/// The files of the bytes of a set. The offset of a fault is not that in the set.
#[tactic(auto, using(crate::proofs::Sets::reading))]
fn files_in(alloc: Global, bytes: &[u8]) -> Result<List<File>, DecodeError>
    ensures { IfOk result (AreFilesIn bytes.now) }
{
    let mut files = List::new(alloc);
    let mut rest = bytes;
    loop {
        match read_rec_ref(alloc, 0, rest, LEVELS)? {
            Some((rec, after)) => {
                add_file(alloc, &mut files, rec)?;
                rest = after;
            }
            None => return Ok(files),
        }
    }
}

/// Adds the file that a record of a set has; a record of another number than 1 has none.
fn add_file(alloc: Global, files: &mut List<File>, rec: RecRef<'_>) -> Result<(), DecodeError>
    ensures { OnOk result (IsAdded (rec_of rec.entry) files.old files.new) }
{
    match rec {
        RecRef::Bytes(1, payload) => {
            files.add(File::decode_file_descriptor_proto(alloc, payload)?)?;
            Ok(())
        }
        RecRef::Varint(1, _)
        | RecRef::Fixed64(1, _)
        | RecRef::Group(1, _)
        | RecRef::Fixed32(1, _) => Err(DecodeError::WireType(0)),
        _ => Ok(()),
    }
}

/// The name that the record declares, which is empty where it declares none.
fn name_in(file: &FileDescriptorProto) -> &str
    ensures { result.now ≡ unwrap_or file.now.name [] }
{
    match &file.name {
        Some(name) => name.as_str(),
        None => "",
    }
}

/// The item of this index.
fn item<T>(items: &[T], index: usize) -> Option<&T>
    ensures { option_copied result ≡ slice_get items.now index }
{
    items.get(index)
}

impl Files {
    /// The name that the file of this index declares.
    fn name_at(&self, index: usize) -> Option<&str>
        ensures { option_copied result ≡ option_map declared_name (slice_get (entries_of self.now) index) }
    {
        match self {
            Files::Records(files) => match item(files.as_slice(), index) {
                Some(file) => Some(name_in(file)),
                None => None,
            },
            Files::Decoded(files) => match item(files.as_slice(), index) {
                Some(file) => Some(file.name()),
                None => None,
            },
        }
    }

    /// The names that the files declare, each with the index of its file. The only error is want of memory.
    fn names(&self, alloc: Global) -> Result<List<(Text, usize)>, NoMemory>
        ensures { IfOk result (λ names. names ≡ indexed_from 0 (entries_of self.now)) }
    {
        let mut names = List::new(alloc);
        while let Some(name) = self.name_at(names.len()) {
            let index = names.len();
            names.add((Text::from_str(alloc, name)?, index))?;
        }
        Ok(names)
    }

    /// The index of the first file of each name. The only error is want of memory.
    fn indexes(&self, alloc: Global) -> Result<NameMap<usize>, NoMemory>
        ensures { IfOk result (λ indexes. AreIndexesOf (entries_of self.now) (Some indexes)) }
    {
        let names = self.names(alloc)?;
        let mut indexes = NameMap::new(alloc);
        indexes.add_all(alloc, names.as_slice())?;
        Ok(indexes)
    }

    /// The file of this index. The only error is want of memory.
    fn file_at(&self, alloc: Global, index: usize) -> Result<Option<File>, NoMemory>
        ensures { IfOk result (λ file. file ≡ slice_get (entries_of self.now) index) }
    {
        match self {
            Files::Records(files) => match item(files.as_slice(), index) {
                Some(file) => Ok(Some(File::from_file_descriptor_proto(file.copy(alloc)?))),
                None => Ok(None),
            },
            Files::Decoded(files) => match item(files.as_slice(), index) {
                Some(file) => Ok(Some(file.copy(alloc)?)),
                None => Ok(None),
            },
        }
    }
}

impl FileResolver for DescriptorSetFileResolver {
    ghost library = { listed_files };

    ghost count = { λ _. counted 0 };

    fn resolve_path(&self, _alloc: Global, _path: &str) -> Result<Option<Text>, NoMemory> {
        Ok(None)
    }

    fn open_file(&mut self, alloc: Global, name: &str) -> Result<File, Error> {
        match self.first(alloc, name)? {
            Some(file) => Ok(file),
            None => Err(Error::file_not_found(alloc, name)),
        }
    }

    fn spent(&self) -> bool {
        false
    }
}
