// What is known of finished files, found by their names.
ghost use Rattle.std.specs.Prelude.{◌≡◌, ◌<◌, [], ◌∷◌, ◌++◌, List, length, OnOk, OnErr};
ghost use Rattle.std.specs.Option.{option_copied};
ghost use Rattle.std.specs.List.{list_any};
ghost use Rattle.std.specs.Str.{bytes_eq};
ghost use Rattle.protox_file_sources.specs.Metadata.{Metadata};
ghost use Rattle.protox_compile_walk.specs.Compiled.{opened_at, opened_in, path_at, path_known, is_opened_at, is_opened_known};

use crate::indexes::Indexes;
use pbx_wire::NoMemory;
use protox_file_sources::FileMetadata;
use std::alloc::Global;
use std::marker::Model;

/// What is known of finished files, in order. A name is found by log n comparisons.
#[derive(Drop)]
pub(crate) struct Known {
    files: Vec<FileMetadata>,
    names: Indexes,
}

impl Model for Known {
    ghost use Rattle.std.specs.Prelude.{List};
    ghost use Rattle.protox_file_sources.specs.Metadata.{Metadata};
    ghost use Rattle.protox_compile_walk.specs.Compiled.{names_known};
    ghost use Rattle.protox_compile_walk.specs.Indexes.{AreIndexed};

    ghost Value = { List Metadata };

    ghost view = { λ k. k.files.items };

    ghost invariant = { λ k. AreIndexed k.names (names_known k.files.items) };
}

impl Known {
    /// No files; takes no memory.
    pub(crate) fn new(alloc: Global) -> Known
        ensures { result ≡ [] }
    {
        Known {
            files: Vec::new(alloc),
            names: Indexes::new(alloc),
        }
    }

    pub(crate) fn len(&self) -> usize
        ensures { result ≡ length self.now }
    {
        self.files.len()
    }

    /// What is known of each file, in order.
    pub(crate) fn as_slice(&self) -> &[FileMetadata]
        ensures { result.now ≡ self.now }
    {
        self.files.as_slice()
    }

    /// Whether a file has this name.
    pub(crate) fn contains(&self, name: &str) -> bool
        ensures { result ≡ list_any (λ m. bytes_eq m.name name.now) self.now }
    {
        self.names.get(name).is_some()
    }

    /// The path of the file of this name, if it has one.
    pub(crate) fn path_of(&self, name: &str) -> Option<&str>
        ensures { option_copied result ≡ path_known name.now self.now }
    {
        match self.names.get(name) {
            Some(index) => path_at(self.files.as_slice(), index),
            None => None,
        }
    }

    /// Whether the file of this name is marked as opened.
    pub(crate) fn is_opened(&self, name: &str) -> bool
        ensures { result ≡ is_opened_known name.now self.now }
    {
        match self.names.get(name) {
            Some(index) => is_opened_at(self.files.as_slice(), index),
            None => false,
        }
    }

    /// Marks the file of this name as opened.
    pub(crate) fn mark(&mut self, name: &str)
        ensures { self.new ≡ opened_in name.now self.old }
    {
        if let Some(index) = self.names.get(name) {
            set_opened(&mut self.files, index);
        }
    }

    /// Puts what is known of a file behind the others. A refused call changes nothing.
    pub(crate) fn add(&mut self, alloc: Global, file: FileMetadata) -> Result<(), NoMemory>
        ensures ok { OnOk result (self.new ≡ self.old ++ file ∷ []) }
        ensures err { OnErr result (self.new ≡ self.old) }
    {
        let index = self.files.len();
        self.files.push(file)?;
        if self
            .names
            .push(alloc, self.files[index].name(), index)
            .is_err()
        {
            self.files.pop();
            return Err(NoMemory);
        }
        Ok(())
    }

    /// Takes the last file out.
    pub(crate) fn remove_last(&mut self)
        ensures { (files : List Metadata) (last : Metadata) → self.old ≡ files ++ last ∷ [] → self.new ≡ files }
    {
        if let Some(file) = self.files.pop() {
            self.names.pop(file.name(), self.files.len());
        }
    }
}

/// The path of the file at the index, if it has one.
fn path_at(files: &[FileMetadata], index: usize) -> Option<&str>
    requires { index < length files.now }
    ensures { option_copied result ≡ path_at index files.now }
{
    files[index].path()
}

/// Whether the file at the index is marked as opened.
fn is_opened_at(files: &[FileMetadata], index: usize) -> bool
    requires { index < length files.now }
    ensures { result ≡ is_opened_at index files.now }
{
    !files[index].is_import()
}

/// Marks the file at the index as opened.
fn set_opened(files: &mut [FileMetadata], index: usize)
    requires { index < length files.old }
    ensures { files.new ≡ opened_at index files.old }
{
    let file = &mut files[index];
    file.set_import(false);
}
