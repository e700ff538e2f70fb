//! The folders of a disk and the built-in files.

ghost use Rattle.std.specs.Prelude.{◌≡◌, Some, map, IsTrue, IfOk, IfErr, IfSome};
ghost use Rattle.protox_io.specs.Count.{Rose, Later};
ghost use Rattle.protox_io.specs.Disk.{Volume};
ghost use Rattle.protox_io.specs.FileNames.{name_of, resolved};
ghost use Rattle.pbx_wkt_files.specs.Files.{wkt_files};
ghost use Rattle.protox_file_sources.specs.Causes.{HasCause, IsTold};
ghost use Rattle.protox_file_sources.specs.Library.{below, never, pooled};
ghost use Rattle.protox_file.specs.Chained.{chained, first_told, first_resolved};
ghost use Rattle.protox_file.specs.Standard.{standard};

use crate::chain::is_not_found;
use pbx_wire::{NoMemory, Text, Texts};
use pbx_wkt_files::wkt_file;
use protox_file_sources::{
    Disk, Error, File, FileResolver, join_path, path_to_file_name, strip_prefix,
};
use std::alloc::Global;
use std::marker::Model;

/// The files of folders on a disk, the first folder first, and behind them the built-in files, such as
/// `google/protobuf/any.proto`. The disk is asked at most once for each folder, until one has the file; a fault of it is
/// the answer at once. A path below a folder is that of the file that the rest of it names; the first folder that resolves
/// the path decides.
#[derive(Drop)]
pub struct StandardResolver<D> {
    folders: Texts,
    disk: D,
}

impl<D> Model for StandardResolver<D> {
    ghost use Rattle.protox_file.specs.Standard.{Folders};

    ghost Value = { Folders D };

    ghost view = { λ r. record { folders = r.folders; disk = r.disk } };
}

impl<D: Disk> StandardResolver<D> {
    /// The files of the folders at these paths, and the built-in files. It is refused for want of memory alone, and then
    /// the disk is handed back. No file is opened yet.
    pub fn new(alloc: Global, disk: D, includes: &Texts) -> Result<Self, D>
        ensures made { IfOk result (λ r. r ≡ record { folders = includes.now; disk = disk }) }
        ensures back { IfErr result (λ back. back ≡ disk) }
    {
        match copied(alloc, includes) {
            Ok(folders) => Ok(StandardResolver { folders, disk }),
            Err(NoMemory) => Err(disk),
        }
    }

    /// The disk.
    pub fn into_disk(self) -> D
        ensures { result ≡ self.disk }
    {
        self.disk
    }
}

/// Equal texts. The only error is want of memory.
fn copied(alloc: Global, texts: &Texts) -> Result<Texts, NoMemory>
    ensures { IfOk result (λ copies. copies ≡ texts.now) }
{
    let mut copies = Texts::with_capacity(alloc, texts.len())?;
    for text in texts.as_slice() {
        copies.add(text.copy(alloc)?)?;
    }
    Ok(copies)
}

/// The name of the file at a path, if the path stands below a folder.
fn resolve_below(alloc: Global, folder: &str, path: &str) -> Result<Option<Text>, NoMemory>
    ensures told { IfOk result (λ name. name ≡ resolved folder.now path.now) }
    ensures named { IfOk result (λ name. IfSome name (λ n. name_of n ≡ Some n)) }
{
    match strip_prefix(path, folder) {
        Some(rest) => path_to_file_name(alloc, rest),
        None => Ok(None),
    }
}

/// The name of the file at a path, by the first of the folders that resolves it.
fn resolve_in(alloc: Global, folders: &[Text], path: &str) -> Result<Option<Text>, NoMemory>
    ensures told { (disk : Volume) → IfOk result (λ name. name ≡ first_resolved (map (below disk) folders.now) path.now) }
    ensures named { IfOk result (λ name. IfSome name (λ n. name_of n ≡ Some n)) }
{
    for folder in folders {
        if let Some(name) = resolve_below(alloc, folder.as_str(), path)? {
            return Ok(Some(name));
        }
    }
    Ok(None)
}

/// The file of a name in a folder of a disk.
fn open_below<D: Disk>(alloc: Global, disk: &mut D, folder: &str, name: &str) -> Result<File, Error>
    ensures told { IsTrue (D.volume disk.old).tells → IsTold name.now ((below (D.volume disk.old) folder.now).files name.now) result }
    ensures cause { IfErr result (HasCause (below (D.volume disk.old) folder.now).may_fail name.now (Rose (D.count disk.old) (D.count disk.new))) }
    ensures keeps { D.volume disk.new ≡ D.volume disk.old }
    ensures later { Later (D.count disk.old) (D.count disk.new) }
{
    let path = join_path(alloc, folder, name)?;
    File::open(alloc, disk, name, path.as_str())
}

/// The file of a name in the first of the folders that has it.
fn open_in<D: Disk>(
    alloc: Global,
    disk: &mut D,
    folders: &[Text],
    name: &str,
) -> Result<File, Error>
    ensures told { IsTrue (D.volume disk.old).tells →
        IsTold name.now (first_told (map (below (D.volume disk.old)) folders.now) name.now) result }
    ensures cause { IfErr result (HasCause (chained (map (below (D.volume disk.old)) folders.now)).may_fail name.now
        (Rose (D.count disk.old) (D.count disk.new))) }
    ensures keeps { D.volume disk.new ≡ D.volume disk.old }
    ensures later { Later (D.count disk.old) (D.count disk.new) }
{
    for folder in folders {
        let answer = open_below(alloc, disk, folder.as_str(), name);
        if !is_not_found(&answer) {
            return answer;
        }
        drop(answer);
    }
    Err(Error::file_not_found(alloc, name))
}

/// The built-in file of a name, of which only those that are asked for are made.
fn open_built_in(alloc: Global, name: &str) -> Result<File, Error>
    ensures told { IsTold name.now ((pooled wkt_files).files name.now) result }
    ensures cause { IfErr result (HasCause never name.now ⊥) }
{
    match wkt_file(alloc, name) {
        Ok(Some(file)) => Ok(File::from_file_descriptor_proto(file)),
        Ok(None) => Err(Error::file_not_found(alloc, name)),
        Err(error) => Err(Error::from(error)),
    }
}

impl<D: Disk> FileResolver for StandardResolver<D> {
    ghost library = { λ r. standard wkt_files (D.volume r.disk) r.folders };

    ghost count = { λ r. D.count r.disk };

    fn resolve_path(&self, alloc: Global, path: &str) -> Result<Option<Text>, NoMemory> {
        resolve_in(alloc, self.folders.as_slice(), path)
    }

    fn open_file(&mut self, alloc: Global, name: &str) -> Result<File, Error> {
        let answer = open_in(alloc, &mut self.disk, self.folders.as_slice(), name);
        if !is_not_found(&answer) {
            return answer;
        }
        drop(answer);
        open_built_in(alloc, name)
    }

    fn spent(&self) -> bool {
        self.disk.spent()
    }
}
