ghost use Rattle.std.specs.Prelude.{◌≡◌, ◌≤◌, ◌∷◌, ◌++◌, ◌==◌, ◌^◌, ◌-◌, [], ℕ, List, Some, None, OnOk, OnErr, IfOk, IfErr, IfSome};
ghost use Rattle.std.specs.Prelude.{IsTrue, IsFalse, MatchOption, true, cond, if◌then◌else◌};
ghost use Rattle.std.specs.BTreeMap.{get_by_text};
ghost use Rattle.std.specs.Option.{option_copied};
ghost use Rattle.std.specs.Str.{bytes_eq};
ghost use Rattle.protox_io.specs.Count.{Rose, Later, raised, counted};
ghost use Rattle.protox_file_sources.specs.Library.{never};
ghost use Rattle.protox_file_sources.specs.Causes.{HasCause, IsTold};
ghost use Rattle.protox_file_sources.specs.Memory.{library, by_text, told_put, stored_as, named_by, is_listed, IsFault};
ghost use Rattle.protox_io.specs.FileNames.{name_of};
ghost use Rattle.protox_file_sources.specs.Told.{Absent, Recorded, told_source};

use crate::file::File;
use crate::resolver::FileResolver;
use pbx_wire::{NoMemory, Text};
use protox_file_error::Error;
use std::alloc::Global;
use std::collections::BTreeMap;
use std::marker::Model;

/// What was put under a name.
#[derive(Drop)]
enum Put {
    Source(Text),
    File(File),
}

/// Files by name and names of paths, in memory, and the opens that fail.
#[derive(Drop)]
pub struct MemoryResolver {
    // What was put last under each name.
    files: BTreeMap<String, Put>,
    // The name that each path was mapped to last.
    names: BTreeMap<String, Text>,
    // The calls that fail. Its allocator is that of all, since a tree does not tell its own.
    failing: Vec<u64>,
    calls: u64,
    faults: u64,
}

impl Model for MemoryResolver {
    ghost use Rattle.std.specs.Coded.{codes};
    ghost use Rattle.pbx_desc_records.specs.contracts.file.FileDescriptorProto as proto;
    ghost use Rattle.protox_file_sources.specs.Memory.{ResolverState, by_text, AreNames};

    ghost Value = { ResolverState };

    ghost coded = { Prim.hlevel (codes, proto.the_row.coded) };

    ghost view = { λ r. record { files = by_text r.files; names = by_text r.names; listed = r.failing.items; calls = r.calls; faults = r.faults } };

    ghost invariant = { λ r. AreNames (by_text r.names) };
}

impl MemoryResolver {
    /// A resolver without files, of which no open fails.
    pub fn new(alloc: Global) -> Self
        ensures files { (name : List ℕ) → stored_as result.files name ≡ Absent }
        ensures names { (path : List ℕ) → named_by result.names path ≡ None }
        ensures listed { result.listed ≡ [] }
        ensures calls { result.calls ≡ 0 }
        ensures faults { result.faults ≡ 0 }
    {
        MemoryResolver {
            files: BTreeMap::new(alloc),
            names: BTreeMap::new(alloc),
            failing: Vec::new(alloc),
            calls: 0,
            faults: 0,
        }
    }

    /// Lets a source stand under a name, in place of what stood there.
    pub fn put(&mut self, name: &str, source: &str) -> Result<(), NoMemory>
        ensures set { OnOk result (stored_as self.new.files name.now ≡ told_source source.now None) }
        ensures others { (other : List ℕ) → ¬ (other ≡ name.now) → stored_as self.new.files other ≡ stored_as self.old.files other }
        ensures err { OnErr result (self.new.files ≡ self.old.files) }
        ensures names { self.new.names ≡ self.old.names }
        ensures listed { self.new.listed ≡ self.old.listed }
        ensures calls { self.new.calls ≡ self.old.calls }
        ensures faults { self.new.faults ≡ self.old.faults }
    {
        let alloc = *self.failing.allocator();
        let source = Text::from_str(alloc, source)?;
        put_under(alloc, &mut self.files, name, Put::Source(source))
    }

    /// Lets a file stand under a name, in place of what stood there. The record may declare another name.
    pub fn put_file(&mut self, name: &str, file: File) -> Result<(), NoMemory>
        ensures set { OnOk result (stored_as self.new.files name.now ≡ Recorded file) }
        ensures others { (other : List ℕ) → ¬ (other ≡ name.now) → stored_as self.new.files other ≡ stored_as self.old.files other }
        ensures err { OnErr result (self.new.files ≡ self.old.files) }
        ensures names { self.new.names ≡ self.old.names }
        ensures listed { self.new.listed ≡ self.old.listed }
        ensures calls { self.new.calls ≡ self.old.calls }
        ensures faults { self.new.faults ≡ self.old.faults }
    {
        let alloc = *self.failing.allocator();
        put_under(alloc, &mut self.files, name, Put::File(file))
    }

    /// Lets a path resolve to a name, in place of the name that it resolved to.
    pub fn map(&mut self, path: &str, name: &str) -> Result<(), NoMemory>
        // `path_to_file_name` of the name is the name.
        requires { name_of name.now ≡ Some name.now }
        ensures set { OnOk result (named_by self.new.names path.now ≡ Some name.now) }
        ensures others { (other : List ℕ) → ¬ (other ≡ path.now) → named_by self.new.names other ≡ named_by self.old.names other }
        ensures err { OnErr result (self.new.names ≡ self.old.names) }
        ensures files { self.new.files ≡ self.old.files }
        ensures listed { self.new.listed ≡ self.old.listed }
        ensures calls { self.new.calls ≡ self.old.calls }
        ensures faults { self.new.faults ≡ self.old.faults }
    {
        let alloc = *self.failing.allocator();
        let name = Text::from_str(alloc, name)?;
        put_under(alloc, &mut self.names, path, name)
    }

    /// Lets that open fail. Opens are counted from 0; past `u64::MAX` each has that number.
    pub fn fail_at(&mut self, call: u64) -> Result<(), NoMemory>
        ensures ok { OnOk result (self.new.listed ≡ self.old.listed ++ call ∷ []) }
        ensures err { OnErr result (self.new.listed ≡ self.old.listed) }
        ensures files { self.new.files ≡ self.old.files }
        ensures names { self.new.names ≡ self.old.names }
        ensures calls { self.new.calls ≡ self.old.calls }
        ensures faults { self.new.faults ≡ self.old.faults }
    {
        self.failing.push(call)?;
        Ok(())
    }

    /// Counts the open, and says whether it fails.
    fn fails(&mut self) -> bool
        ensures listed { result ≡ is_listed self.old }
        ensures calls { self.new.calls ≡ raised self.old.calls }
        ensures faults { self.new.faults ≡ (if result then raised self.old.faults else self.old.faults) }
        ensures files { self.new.files ≡ self.old.files }
        ensures names { self.new.names ≡ self.old.names }
        ensures keeps_listed { self.new.listed ≡ self.old.listed }
        ensures rose { IsTrue result → Rose (counted self.old.faults) (counted self.new.faults) }
        ensures later { Later (counted self.old.faults) (counted self.new.faults) }
    {
        let call = self.calls;
        self.calls = self.calls.saturating_add(1);
        let fails = self.failing.contains(&call);
        if fails {
            self.faults = self.faults.saturating_add(1);
        }
        fails
    }
}

/// Puts the value under the text, in place of what was there. A refused call changes nothing.
fn put_under<V: Drop>(
    alloc: Global,
    values: &mut BTreeMap<String, V>,
    text: &str,
    value: V,
) -> Result<(), NoMemory>
    ensures ok { OnOk result ((q : List ℕ) → get_by_text values.new q ≡ cond (bytes_eq text.now q) (Some value) (get_by_text values.old q)) }
    ensures err { OnErr result (by_text values.new ≡ by_text values.old) }
{
    let Ok(key) = String::from_str(alloc, text) else {
        drop(value);
        return Err(NoMemory);
    };
    match values.insert(key, value) {
        Ok(_) => Ok(()),
        Err(_) => Err(NoMemory),
    }
}

/// What was put last under the name, by log n comparisons.
fn find<'a>(files: &'a BTreeMap<String, Put>, name: &str) -> Option<&'a Put>
    ensures { MatchOption result (stored_as (by_text files.now) name.now ≡ Absent)
        (λ put. stored_as (by_text files.now) name.now ≡ told_put put.now) }
{
    files.get(name)
}

/// The name that the path was mapped to last, by log n comparisons.
fn find_name<'a>(names: &'a BTreeMap<String, Text>, path: &str) -> Option<&'a Text>
    ensures { option_copied result ≡ named_by (by_text names.now) path.now }
{
    names.get(path)
}

/// The file of what was put under the name.
fn open(alloc: Global, name: &str, put: &Put) -> Result<File, Error>
    ensures told { IsTold name.now (told_put put.now) result }
    ensures cause { IfErr result (HasCause never name.now ⊥) }
{
    match put {
        Put::Source(source) => File::from_source(alloc, name, source.as_str()),
        Put::File(file) => Ok(file.copy(alloc)?),
    }
}

impl FileResolver for MemoryResolver {
    ghost library = { library };

    ghost count = { λ r. counted r.faults };

    fn resolve_path(&self, alloc: Global, path: &str) -> Result<Option<Text>, NoMemory> {
        match find_name(&self.names, path) {
            Some(name) => Ok(Some(name.copy(alloc)?)),
            None => Ok(None),
        }
    }

    fn open_file(&mut self, alloc: Global, name: &str) -> Result<File, Error>
        ensures told { IsTold name.now (stored_as self.old.files name.now) result }
        ensures listed { IsTrue (is_listed self.old) → IsFault result }
        ensures unlisted { IsFalse (is_listed self.old) → IfErr result (HasCause never name.now ⊥) }
        ensures calls { self.new.calls ≡ raised self.old.calls }
        ensures counts { self.new.faults ≡ (if is_listed self.old then raised self.old.faults else self.old.faults) }
        ensures keeps_listed { self.new.listed ≡ self.old.listed }
        ensures keeps_files { self.new.files ≡ self.old.files }
        ensures keeps_names { self.new.names ≡ self.old.names }
        ensures keeps { library self.new ≡ library self.old }
        ensures cause { IfErr result (HasCause (library self.old).may_fail name.now (Rose (counted self.old.faults) (counted self.new.faults))) }
        ensures later { Later (counted self.old.faults) (counted self.new.faults) }
    {
        if self.fails() {
            return Err(Error::from_io(alloc, "failed to load file!"));
        }
        match find(&self.files, name) {
            Some(put) => open(alloc, name, put),
            None => Err(Error::file_not_found(alloc, name)),
        }
    }

    fn spent(&self) -> bool {
        self.faults == u64::MAX
    }
}
