ghost use Rattle.std.specs.Prelude.{◌≡◌, [], ◌∷◌, ◌++◌, true, map, length, IfErr, OnOk, OnErr, IfOk};
ghost use Rattle.std.specs.Option.{option_copied};
ghost use Rattle.std.specs.Str.{bytes_eq};
ghost use Rattle.pbx_link_rules.specs.Breaches.{keeps_rules};
ghost use Rattle.pbx_link_rules.specs.Pool.{ArePooled};
ghost use Rattle.protox_compile_walk.specs.Walk.{is_done, done_as, records, declared_name};
ghost use Rattle.protox_compile_walk.specs.Opening.{mark, path_in, is_opened};
ghost use Rattle.protox_compile_walk.specs.Compiled.{IsUnlinked, IsOrdered, metadata_of};

use crate::frame::Frame;
use crate::known::Known;
use pbx_link::DescriptorPool;
use pbx_wire::{NoMemory, Text};
use protox_file_sources::{Error, File, FileMetadata};
use std::alloc::Global;
use std::marker::Model;
use std::mem::drop;

/// Finished files in order, each behind all that it imports: what is known of each, and the pool of their linked records.
#[derive(Drop)]
pub struct FinishedFiles {
    known: Known,
    pool: DescriptorPool,
}

impl Model for FinishedFiles {
    ghost use Rattle.std.specs.Prelude.{List};
    ghost use Rattle.std.specs.Coded.{codes};
    ghost use Rattle.pbx_desc_records.specs.contracts.file.FileDescriptorProto as proto;
    ghost use Rattle.protox_compile_walk.specs.Walk.{Done};
    ghost use Rattle.protox_compile_walk.specs.Compiled.{done_of, AreRecorded};

    ghost Value = { List Done };

    ghost coded = { Prim.hlevel (codes, proto.the_row.coded) };

    ghost view = { λ c. done_of c.known c.pool };

    ghost invariant = { λ c. AreRecorded c.known c.pool };
}

impl FinishedFiles {
    /// No files. The only error is want of memory.
    pub fn new(alloc: Global) -> Result<FinishedFiles, NoMemory>
        ensures { IfOk result (λ files. files ≡ []) }
    {
        Ok(FinishedFiles {
            known: Known::new(alloc),
            pool: DescriptorPool::new(alloc)?,
        })
    }

    pub(crate) fn len(&self) -> usize
        ensures { result ≡ length self.now }
    {
        self.known.len()
    }

    /// Whether a file of this name is finished; takes no memory.
    pub fn contains(&self, name: &str) -> bool
        ensures { result ≡ is_done self.now name.now }
    {
        self.known.contains(name)
    }

    /// The path of the file of this name, if it has one.
    pub(crate) fn path_of(&self, name: &str) -> Option<&str>
        ensures { option_copied result ≡ path_in name.now self.now }
    {
        self.known.path_of(name)
    }

    /// Whether the file of this name is marked as opened.
    pub(crate) fn is_opened(&self, name: &str) -> bool
        ensures { result ≡ is_opened name.now self.now }
    {
        self.known.is_opened(name)
    }

    /// What is known of each file, in order; takes no memory.
    pub fn metadata(&self) -> &[FileMetadata]
        ensures { result.now ≡ map metadata_of self.now }
    {
        self.known.as_slice()
    }

    /// The linked records of the files, in order; takes no memory.
    pub fn pool(&self) -> DescriptorPool
        ensures pool { result ≡ records self.now }
        ensures ordered { IsOrdered [] self.now }
        ensures pooled { ArePooled [] (records self.now) }
    {
        let _files = self.pool.files();
        self.pool.copy()
    }

    /// Marks the file of this name as opened.
    pub(crate) fn mark(&mut self, name: &str)
        ensures { self.new ≡ mark name.now self.old }
    {
        self.known.mark(name);
    }

    /// Links an open file, and puts it behind those that are finished, as an import.
    pub(crate) fn finish(&mut self, alloc: Global, frame: Frame) -> Result<(), Error>
        ensures ok { OnOk result (self.new ≡ self.old ++ done_as self.old frame.name frame.entry ∷ []) }
        ensures linked { OnOk result (keeps_rules (records self.old) frame.entry.file ≡ true) }
        ensures refused { IfErr result (IsUnlinked (records self.old) frame.entry.file) }
        ensures declared { bytes_eq (declared_name frame.entry) frame.name ≡ true }
        ensures err { OnErr result (self.new ≡ self.old) }
    {
        let (name, file) = frame.into_parts();
        if add_known(alloc, &mut self.known, name, &file).is_err() {
            drop(file);
            return Err(Error::from(NoMemory));
        }
        match self
            .pool
            .add_file_descriptor_proto(file.into_file_descriptor_proto())
        {
            Ok(()) => Ok(()),
            Err(error) => {
                self.known.remove_last();
                Err(Error::from(error))
            }
        }
    }
}

/// Puts what is known of a file behind the others, as an import.
fn add_known(alloc: Global, known: &mut Known, name: Text, file: &File) -> Result<(), NoMemory>
    ensures ok { OnOk result (known.new ≡ known.old ++ record { name = name; path = file.now.path; is_import = true } ∷ []) }
    ensures err { OnErr result (known.new ≡ known.old) }
{
    let path = copy_path(alloc, file)?;
    known.add(alloc, FileMetadata::new(name, path, true))
}

fn copy_path(alloc: Global, file: &File) -> Result<Option<Text>, NoMemory>
    ensures { IfOk result (λ path. path ≡ file.now.path) }
{
    match file.path() {
        Some(path) => Ok(Some(Text::from_str(alloc, path)?)),
        None => Ok(None),
    }
}
