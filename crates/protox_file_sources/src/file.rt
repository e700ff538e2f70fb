//! Files: a record, and what is known of where it came from.

ghost use Rattle.std.specs.Prelude.{◌≡◌, ◌≤◌, ℕ, List, [], Some, None, IfOk, IfErr, IsTrue, length, unwrap_or, option_map};
ghost use Rattle.std.specs.Option.{option_copied};
ghost use Rattle.pbx_content.specs.Faults.{IsFaultOf, IsToldFault};
ghost use Rattle.pbx_content.specs.Meaning.{meaning_of};
ghost use Rattle.pbx_desc_shapes.specs.DescriptorShape.{descriptor_shape};
ghost use Rattle.pbx_link.specs.Bytes.{DecodesFile};
ghost use Rattle.protox_io.specs.Count.{Rose, Later};
ghost use Rattle.protox_io.specs.Disk.{Stored};
ghost use Rattle.protox_io.specs.Paths.{disk_key};
ghost use Rattle.protox_file_sources.specs.Causes.{HasCause, IsTold};
ghost use Rattle.protox_file_error.specs.Errors.{UnlessMemory};
ghost use Rattle.protox_file_sources.specs.Encoded.{IsEncoded};
ghost use Rattle.protox_file_sources.specs.Laws.{LookedUpOnce};
ghost use Rattle.protox_file_sources.specs.Library.{never, may_fail_at, alone};
ghost use Rattle.protox_file_sources.specs.Places.{place_in_source};
ghost use Rattle.protox_file_sources.specs.Told.{Source, told_source, told_held};

use crate::place::start_within;
use pbx_desc::DecodeMessage;
use pbx_desc_records::FileDescriptorProto;
use pbx_parse::parse;
use pbx_wire::{Blob, DecodeError, NoMemory, Text};
use protox_file_error::{Error, ErrorKind};
use protox_io::{Disk, DiskAnswer, DiskError};
use std::alloc::Global;
use std::marker::Model;

// The most bytes of a source.
const LARGEST: usize = 2147483647;

/// A file: its record and, if they are known, the path that it was read from, its source, and the bytes that it was
/// decoded from.
#[derive(Drop)]
pub struct File {
    file: FileDescriptorProto,
    path: Option<Text>,
    source: Option<Text>,
    encoded: Option<Blob>,
}

impl Model for File {
    ghost use Rattle.std.specs.Coded.{codes};
    ghost use Rattle.pbx_desc_records.specs.contracts.file.FileDescriptorProto as proto;
    ghost use Rattle.protox_file_sources.specs.Encoded.{IsEncoded};
    ghost use Rattle.protox_file_sources.specs.Told.{Entry};

    ghost Value = { Entry };

    ghost coded = { Prim.hlevel (codes, proto.the_row.coded) };

    ghost view = { λ f. record { file = f.file; path = f.path; source = f.source; encoded = f.encoded } };

    ghost invariant = { λ f. IsEncoded f.encoded f.file };
}

impl File {
    /// A record alone.
    pub fn from_file_descriptor_proto(file: FileDescriptorProto) -> File
        ensures { result ≡ alone file }
    {
        File {
            file,
            path: None,
            source: None,
            encoded: None,
        }
    }

    /// The file that bytes of a `google.protobuf.FileDescriptorProto` decode to, with the bytes.
    pub fn decode_file_descriptor_proto(alloc: Global, bytes: &[u8]) -> Result<File, DecodeError>
        ensures found { IfOk result (λ it. it ≡ record (alone it.file) { encoded = Some bytes.now }) }
        ensures decoded { IfOk result (λ it. DecodesFile bytes.now it.file) }
        // Only where they decode to none. Where there are several faults, the first.
        ensures fault { IfErr result (IsToldFault (meaning_of descriptor_shape 1 bytes.now) (IsFaultOf descriptor_shape 1 bytes.now)) }
    {
        let encoded = Blob::from_slice(alloc, bytes)?;
        let file = FileDescriptorProto::decode(alloc, bytes)?;
        Ok(File {
            file,
            path: None,
            source: None,
            encoded: Some(encoded),
        })
    }

    /// The file that a source of this name is, with the source. `FileTooLarge` comes exactly where the source has more
    /// than 2,147,483,647 bytes, and else `Parse` exactly where it has no record.
    pub fn from_source(alloc: Global, name: &str, source: &str) -> Result<File, Error>
        ensures told { IsTold name.now (told_source source.now None) result }
        ensures cause { IfErr result (HasCause never name.now ⊥) }
    {
        if source.len() > LARGEST {
            return Err(too_large(alloc, name));
        }
        read(alloc, name, source, None)
    }

    /// The file of this name that a disk has at a path, with the path and its source. `FileNotFound` comes exactly where
    /// nothing stands there, `FileTooLarge` where more than 2,147,483,647 bytes do, `FileInvalidUtf8` where they are no
    /// UTF-8, and `Parse` where the source has no record. `OpenFile` comes where the disk failed; its words are what
    /// the disk said, which no clause promises.
    pub fn open<D: Disk>(alloc: Global, disk: &mut D, name: &str, path: &str) -> Result<File, Error>
        ensures told { IsTrue (D.volume disk.old).tells →
            IsTold name.now (told_held ((D.volume disk.old).holds (disk_key path.now)) (Some path.now)) result }
        ensures cause { IfErr result (HasCause (λ _. may_fail_at path.now) name.now (Rose (D.count disk.old) (D.count disk.new))) }
        ensures keeps { D.volume disk.new ≡ D.volume disk.old }
        ensures later { Later (D.count disk.old) (D.count disk.new) }
    {
        match disk.read_file(alloc, path) {
            Ok(DiskAnswer::Bytes(bytes)) => read_bytes(alloc, name, path, bytes.as_slice()),
            Ok(DiskAnswer::Absent) => Err(Error::file_not_found(alloc, name)),
            Ok(DiskAnswer::TooLarge) => Err(too_large(alloc, name)),
            Err(DiskError::Failed(fault)) => Err(unread(alloc, name, path, fault)),
            Err(DiskError::NoMemory) => Err(Error::from(NoMemory)),
        }
    }

    /// An equal file. The only error is want of memory.
    pub fn copy(&self, alloc: Global) -> Result<File, NoMemory>
        ensures { IfOk result (λ copy. copy ≡ self.now) }
    {
        let path = copy_text(alloc, &self.path)?;
        let source = copy_text(alloc, &self.source)?;
        let encoded = copy_blob(alloc, &self.encoded)?;
        let file = self.file.copy(alloc)?;
        Ok(File {
            file,
            path,
            source,
            encoded,
        })
    }

    /// The name of the record, or the empty text if it has none; takes no memory.
    pub fn name(&self) -> &str
        ensures { result.now ≡ unwrap_or self.now.file.name [] }
    {
        match &self.file.name {
            Some(name) => name.as_str(),
            None => "",
        }
    }

    /// The path that the file was read from, if it is known; takes no memory.
    pub fn path(&self) -> Option<&str>
        ensures { option_copied result ≡ self.now.path }
    {
        self.path.as_ref().map(|path| path.as_str())
    }

    /// The source, if it is known; takes no memory.
    pub fn source(&self) -> Option<&str>
        ensures { option_copied result ≡ self.now.source }
    {
        self.source.as_ref().map(|source| source.as_str())
    }

    /// The bytes that the file was decoded from, if they are known; takes no memory.
    pub fn encoded(&self) -> Option<&[u8]>
        ensures bytes { option_copied result ≡ self.now.encoded }
        // They decode to the record.
        ensures decoded { IsEncoded self.now.encoded self.now.file }
    {
        self.encoded.as_ref().map(|encoded| encoded.as_slice())
    }

    /// The record; takes no memory.
    pub fn file_descriptor_proto(&self) -> &FileDescriptorProto
        ensures { result.now ≡ self.now.file }
    {
        &self.file
    }

    /// The line and the column, from 1, at which a part of the file begins in its source, so that a caller can tell where a rule is
    /// broken: `place` names the part, as `Check` has it and as the path of a location of `SourceCodeInfo` does. Where the part has no
    /// location of its own, it is that of the smallest part around it that has one; a file without `source_code_info` has none. Takes
    /// no memory.
    pub fn place_in_source(&self, place: &[i32]) -> Option<(u32, u32)>
        ensures { result ≡ place_in_source self.now place.now }
    {
        let info = self.file.source_code_info.as_ref()?;
        start_within(info.location.as_slice(), place)
    }

    /// The record alone.
    pub fn into_file_descriptor_proto(self) -> FileDescriptorProto
        ensures { result ≡ self.file }
    {
        self.file
    }
}

impl From<FileDescriptorProto> for File {
    ghost use Rattle.std.specs.Prelude.{◌≡◌, None};

    ghost from_gives = { λ file it. it ≡ record { file = file; path = None; source = None; encoded = None } };

    fn from(file: FileDescriptorProto) -> File {
        File::from_file_descriptor_proto(file)
    }
}

impl From<File> for FileDescriptorProto {
    ghost from_gives = { λ it file. file ≡ it.file };

    fn from(it: File) -> FileDescriptorProto {
        it.into_file_descriptor_proto()
    }
}

/// The error that a source has too many bytes.
fn too_large(alloc: Global, name: &str) -> Error
    ensures { UnlessMemory (ErrorKind.FileTooLarge name.now) result }
{
    match Text::from_str(alloc, name) {
        Ok(name) => Error::from_kind(ErrorKind::FileTooLarge { name }),
        Err(error) => Error::from(error),
    }
}

/// The error that a source is no UTF-8.
fn invalid_utf8(alloc: Global, name: &str) -> Error
    ensures { UnlessMemory (ErrorKind.FileInvalidUtf8 name.now) result }
{
    match Text::from_str(alloc, name) {
        Ok(name) => Error::from_kind(ErrorKind::FileInvalidUtf8 { name }),
        Err(error) => Error::from(error),
    }
}

/// The error that reading failed, as the disk said.
fn unread(alloc: Global, name: &str, path: &str, fault: Text) -> Error
    ensures { UnlessMemory (ErrorKind.OpenFile name.now path.now fault) result }
{
    match (Text::from_str(alloc, name), Text::from_str(alloc, path)) {
        (Ok(name), Ok(path)) => Error::from_kind(ErrorKind::OpenFile { name, path, fault }),
        _ => Error::from(NoMemory),
    }
}

fn copy_text(alloc: Global, text: &Option<Text>) -> Result<Option<Text>, NoMemory>
    ensures { IfOk result (λ copy. copy ≡ text.now) }
{
    match text {
        Some(text) => Ok(Some(text.copy(alloc)?)),
        None => Ok(None),
    }
}

fn copy_blob(alloc: Global, bytes: &Option<Blob>) -> Result<Option<Blob>, NoMemory>
    ensures { IfOk result (λ copy. copy ≡ bytes.now) }
{
    match bytes {
        Some(bytes) => Ok(Some(Blob::from_slice(alloc, bytes.as_slice())?)),
        None => Ok(None),
    }
}

/// The file that bytes are which are read from this path.
#[tactic(auto, using(crate::proofs::Readings::told_text, crate::proofs::Readings::told_no_text))]
fn read_bytes(alloc: Global, name: &str, path: &str, bytes: &[u8]) -> Result<File, Error>
    ensures told { IsTold name.now (told_held (Stored bytes.now) (Some path.now)) result }
    ensures cause { IfErr result (HasCause never name.now ⊥) }
{
    if bytes.len() > LARGEST {
        return Err(too_large(alloc, name));
    }
    let Ok(source) = std::str::from_utf8(bytes) else {
        return Err(invalid_utf8(alloc, name));
    };
    read(alloc, name, source, Some(Text::from_str(alloc, path)?))
}

/// The file that a source is which is read from this path.
fn read(alloc: Global, name: &str, source: &str, path: Option<Text>) -> Result<File, Error>
    requires { length source.now ≤ 2147483647 }
    ensures told { IsTold name.now (Source source.now path) result }
    ensures cause { IfErr result (HasCause never name.now ⊥) }
{
    match parse(alloc, name, source) {
        Ok(file) => match Text::from_str(alloc, source) {
            Ok(source) => Ok(File {
                file,
                path,
                source: Some(source),
                encoded: None,
            }),
            Err(error) => {
                drop(file);
                Err(Error::from(error))
            }
        },
        Err(error) => Err(Error::from(error)),
    }
}

/// What looking a name up comes to is one thing at most.
pub fn looked_up_once()
    ensures { LookedUpOnce }
{
    pbx_parse::at_most_one();
}
