//! The compiler: files and all that they import.

ghost use Rattle.std.specs.Prelude.{◌≡◌, ◌≤◌, ◌+◌, [], IfOk, IfErr, OnOk, OnErr, IsTrue, Some, drop, length, map, min, true};
ghost use Rattle.std.specs.Slice.Iter.{iter_rest};
ghost use Rattle.protox_file_sources.specs.Causes.{FaultCause, FaultsCause};
ghost use Rattle.pbx_link_rules.specs.Pool.{ArePooled};
ghost use Rattle.protox_file_sources.specs.Told.{ByLookups};
ghost use Rattle.protox_compile_walk.specs.Walk.{is_done, records};
ghost use Rattle.protox_compile_walk.specs.Opening.{opening, closure, root_of, report_of, Accepted};
ghost use Rattle.protox_compile_walk.specs.Refusals.{RefusesOpening, HasOpeningCause, Grows};
ghost use Rattle.protox_compile_walk.specs.Opens.{Opens, OpensTimes, StopsAmong, is_settled};
ghost use Rattle.protox_compile_walk.specs.Closures.{StopsAt};
ghost use Rattle.protox_compile_walk.specs.Compiled.{IsOrdered, metadata_of};
ghost use Rattle.protox_compile_laws.specs.Retry.{RefusesTries};
ghost use Rattle.protox_compile.specs.State.{KeepsSettings, fresh, most_files};
ghost use Rattle.protox_compile.specs.Sets.{listed as listed_of, IsSet, AreDecodable, IsUnencodable};
ghost use Rattle.protox_compile.specs.Tries.{told_before as told_before_of};

use crate::retry::{Tries, told_before};
use crate::sets::{encode_listed, listed};
use pbx_desc_records::FileDescriptorSet;
use pbx_link::DescriptorPool;
use pbx_wire::{NoMemory, Recs, Texts};
use protox_compile_laws::tries_are_one;
use protox_compile_walk::{FinishedFiles, Opened, open_path};
use protox_file::StandardResolver;
use protox_file_sources::{Disk, Error, FileMetadata, FileResolver, looked_up_once};
use std::alloc::Global;
use std::marker::Model;

// The most files, those that are open and those that are finished together.
const MOST_FILES: u32 = 65536;

/// Files in order, each with all that it imports before it, of one resolver.
#[derive(Drop)]
pub struct Compiler<R> {
    resolver: R,
    finished: FinishedFiles,
    limit: u32,
    imports: bool,
    source_info: bool,
    alloc: Global,
}

impl<R> Model for Compiler<R> {
    ghost use Rattle.std.specs.Coded.{codes};
    ghost use Rattle.pbx_desc_records.specs.contracts.file.FileDescriptorProto as proto;
    ghost use Rattle.protox_compile.specs.State.{State};

    ghost Value = { State R };

    ghost coded = { Prim.hlevel (codes, proto.the_row.coded, R.code) };

    ghost view = { λ c. record {
      resolver = c.resolver;
      done = c.finished;
      limit = c.limit;
      imports = c.imports;
      info = c.source_info;
    } };
}

impl<R: FileResolver> Compiler<R> {
    /// No files, of a resolver. Hands the resolver back where memory runs out.
    pub fn with_file_resolver(alloc: Global, resolver: R) -> Result<Compiler<R>, R>
        ensures ok { IfOk result (λ compiler. compiler ≡ fresh resolver) }
        ensures err { IfErr result (λ back. back ≡ resolver) }
    {
        match FinishedFiles::new(alloc) {
            Ok(finished) => Ok(Compiler {
                resolver,
                finished,
                limit: MOST_FILES,
                imports: false,
                source_info: false,
                alloc,
            }),
            Err(_) => Err(resolver),
        }
    }

    /// Sets how many files there may be, those that are open and those that are finished together; more than 65,536 is
    /// 65,536. Files that are there stay.
    pub fn file_limit(&mut self, limit: u32) -> &mut Self
        ensures same { result.ghost_name ≡ self.entry.ghost_name }
        ensures value { result.now ≡ record self.old { limit = min limit most_files } }
    {
        self.limit = limit.min(MOST_FILES);
        self
    }

    /// Whether sets have the files that are only imported; at first they have not.
    pub fn include_imports(&mut self, yes: bool) -> &mut Self
        ensures same { result.ghost_name ≡ self.entry.ghost_name }
        ensures value { result.now ≡ record self.old { imports = yes } }
    {
        self.imports = yes;
        self
    }

    /// Whether sets have source information; at first they have not.
    pub fn include_source_info(&mut self, yes: bool) -> &mut Self
        ensures same { result.ghost_name ≡ self.entry.ghost_name }
        ensures value { result.now ≡ record self.old { info = yes } }
    {
        self.source_info = yes;
        self
    }

    /// Opens the file at a path, with all that it imports, each before what imports it.
    ///
    /// Answers what the name of the path was before: `Compiled` where it was not compiled, `Import` where it was compiled and
    /// only imported, and `Again` where it was opened.
    ///
    /// The name of the path is what the resolver says, and else `path_to_file_name`. A file that is there already is
    /// marked as opened, unless the path was resolved and is another than the file's, and nothing is read. A refused call
    /// leaves the files that were there with their marks, and adds the imports that were finished, as imports.
    pub fn open_file(&mut self, path: &str) -> Result<Opened, Error>
        // Over a resolver that tells, it does what opening is, by look-ups of the names that it asked for.
        ensures ok { IsTrue (R.library self.old.resolver).tells → OnOk result (ByLookups (R.library self.old.resolver).files
            (λ lookups. opening lookups (R.library self.old.resolver).resolves self.old.limit path.now self.old.done ≡ (self.new.done, Accepted))) }

        // It answers what the name was before.
        ensures report { IsTrue (R.library self.old.resolver).tells →
            IfOk result (λ report. report_of (R.library self.old.resolver).resolves path.now self.old.done ≡ Some report) }

        // It is refused with the fault of the opening, or for want of memory or a fault of the resolver.
        ensures err { IsTrue (R.library self.old.resolver).tells → IfErr result (λ error. ByLookups (R.library self.old.resolver).files
            (λ lookups. RefusesOpening lookups (R.library self.old.resolver).resolves self.old.limit path.now self.old.done self.new.done error)) }
        ensures again { IsTrue (R.library self.old.resolver).tells → is_settled (root_of (R.library self.old.resolver).resolves path.now) self.old.done ≡ true →
            self.new.resolver ≡ self.old.resolver }

        // Over every resolver, files are added as imports, and then one of all is marked, of which the answer says what it was before; where
        // none is added, nothing is read.
        ensures opens { IfOk result (Opens self.old.done self.new.done) }
        ensures unread { OnOk result (length self.new.done ≡ length self.old.done → self.new.resolver ≡ self.old.resolver) }
        ensures grows { OnErr result (Grows self.old.done self.new.done) }
        ensures cause { IfErr result (HasOpeningCause self.old.limit path.now self.new.done
            (FaultCause (R.library self.old.resolver) (R.count self.old.resolver) (R.count self.new.resolver))) }
        ensures keeps { KeepsSettings R.library R.count self.old self.new }
    {
        open_path(
            &mut self.resolver,
            self.alloc,
            self.limit,
            &mut self.finished,
            path,
        )
    }

    /// Opens the files at paths in order, up to the first that is refused, as `open_file` does each. What the names were before is not told.
    pub fn open_files(&mut self, paths: &Texts) -> Result<(), Error>
        ensures ok { IsTrue (R.library self.old.resolver).tells → OnOk result (ByLookups (R.library self.old.resolver).files
            (λ lookups. closure lookups (R.library self.old.resolver).resolves self.old.limit paths.now self.old.done ≡ (self.new.done, Accepted))) }
        ensures err { IsTrue (R.library self.old.resolver).tells → IfErr result (λ error. ByLookups (R.library self.old.resolver).files
            (λ lookups. StopsAt lookups (R.library self.old.resolver).resolves self.old.limit paths.now self.old.done self.new.done error)) }
        // Over every resolver, each opened path adds files as imports and then marks one of all, and a refused one adds files as imports.
        ensures opens { OnOk result (OpensTimes (length paths.now) self.old.done self.new.done) }
        ensures stops { IfErr result (StopsAmong self.old.limit paths.now self.old.done self.new.done
            (FaultCause (R.library self.old.resolver) (R.count self.old.resolver) (R.count self.new.resolver))) }
        ensures keeps { KeepsSettings R.library R.count self.old self.new }
    {
        // So the look-ups of all paths agree.
        looked_up_once();
        for path in paths.as_slice() {
            match self.open_file(path.as_str()) {
                Ok(_) => {}
                Err(error) => return Err(error),
            }
        }
        Ok(())
    }

    /// Opens the file at a path as `open_file` does, and at most `tries` times again where that is refused for what may pass: a fault of reading
    /// (`OpenFile`), a fault of the resolver's own (`Custom`) or want of memory (`NoMemory`). Any other error is answered at once. The
    /// imports that a refused try finished stay, so the next one reads only what is left.
    ///
    /// Where the last try is refused for such, its error is answered, but `NoMemory` where any of them was refused for want of memory. So a
    /// fault is answered only where each of `tries + 1` openings met one.
    ///
    /// Answers what the name of the path was before the first try.
    pub fn open_retry(&mut self, path: &str, tries: u32) -> Result<Opened, Error>
        // Over a resolver that tells, what is accepted is what a single opening does, whatever was refused before.
        ensures ok { IsTrue (R.library self.old.resolver).tells → OnOk result (ByLookups (R.library self.old.resolver).files
            (λ lookups. opening lookups (R.library self.old.resolver).resolves self.old.limit path.now self.old.done ≡ (self.new.done, Accepted))) }
        ensures report { IsTrue (R.library self.old.resolver).tells →
            IfOk result (λ report. report_of (R.library self.old.resolver).resolves path.now self.old.done ≡ Some report) }

        // A single opening may be refused with this error too, and is where it is none that may pass; what it finishes begins with what is left.
        ensures err { IsTrue (R.library self.old.resolver).tells → IfErr result (λ error. ByLookups (R.library self.old.resolver).files
            (λ lookups. RefusesTries lookups (R.library self.old.resolver).resolves self.old.limit path.now self.old.done self.new.done error)) }
        ensures again { IsTrue (R.library self.old.resolver).tells → is_settled (root_of (R.library self.old.resolver).resolves path.now) self.old.done ≡ true →
            self.new.resolver ≡ self.old.resolver }

        // Over every resolver, as `open_file`; but a fault of the resolver comes only where its count rose at each opening.
        ensures opens { IfOk result (Opens self.old.done self.new.done) }
        ensures grows { OnErr result (Grows self.old.done self.new.done) }
        ensures cause { IfErr result (HasOpeningCause self.old.limit path.now self.new.done
            (FaultsCause (tries + 1) (R.library self.old.resolver) (R.count self.old.resolver) (R.count self.new.resolver))) }
        ensures keeps { KeepsSettings R.library R.count self.old self.new }
    {
        tries_are_one();
        let before = self.count();
        let mut left = Tries::new(tries);
        loop {
            match self.open_file(path) {
                Ok(report) => return Ok(self.told_before(before, report)),
                Err(error) => {
                    if let Err(answer) = left.next(error) {
                        return Err(answer);
                    }
                }
            }
        }
    }

    /// How many files there are.
    fn count(&self) -> usize
        ensures { result ≡ length self.now.done }
    {
        self.finished.metadata().len()
    }

    /// What a name was when there were so many files, where an opening marked it and told this.
    fn told_before(&self, before: usize, report: Opened) -> Opened
        requires { before ≤ length self.now.done }
        ensures { result ≡ told_before_of (drop before (map metadata_of self.now.done)) report }
    {
        told_before(self.finished.metadata(), before, report)
    }

    /// The set of the files: their linked records in order, without the files that are only imported and without source
    /// information, unless these are included. The only error is want of memory.
    pub fn file_descriptor_set(&self) -> Result<FileDescriptorSet, NoMemory>
        ensures { IfOk result (λ set. set ≡ record { file = listed_of self.now.imports self.now.info self.now.done; unknown = [] }) }
    {
        let pool = self.finished.pool();
        let file = listed(
            self.alloc,
            self.finished.metadata(),
            &pool,
            self.imports,
            self.source_info,
        )?;
        Ok(FileDescriptorSet {
            file,
            unknown: Recs::new(self.alloc),
        })
    }

    /// The bytes of that set. `Undecodable` comes exactly where one of its files cannot be read again, since it nests more
    /// than 100 levels or has options that do not decode, and names the first such file.
    pub fn encode_file_descriptor_set(&self) -> Result<Vec<u8>, Error>
        ensures ok { IfOk result (λ bytes. IsSet (listed_of self.now.imports self.now.info self.now.done) bytes.items) }
        ensures decodable { OnOk result (AreDecodable (listed_of self.now.imports self.now.info self.now.done)) }
        ensures err { IfErr result (IsUnencodable (listed_of self.now.imports self.now.info self.now.done)) }
    {
        let pool = self.finished.pool();
        encode_listed(
            self.alloc,
            self.finished.metadata(),
            &pool,
            self.imports,
            self.source_info,
        )
    }

    /// What is known of each file, in order; takes no memory.
    pub fn files(&self) -> Files<'_>
        ensures files { iter_rest result ≡ map metadata_of self.now.done }
    {
        self.finished.metadata().iter()
    }

    /// Whether a file of this name is there; takes no memory.
    pub fn is_compiled(&self, name: &str) -> bool
        ensures { result ≡ is_done self.now.done name.now }
    {
        self.finished.contains(name)
    }

    /// The records of the files, in order; takes no memory. What is opened later is not in it.
    pub fn descriptor_pool(&self) -> DescriptorPool
        ensures pool { result ≡ records self.now.done }
        // Each record has its file's name, no name stands twice, and each import of a file stands before it.
        ensures ordered { IsOrdered [] self.now.done }
        // Each record is linked among those before it, where it breaks no rule.
        ensures pooled { ArePooled [] (records self.now.done) }
    {
        self.finished.pool()
    }

    /// The resolver.
    pub fn into_resolver(self) -> R
        ensures { result ≡ self.resolver }
    {
        self.resolver
    }

    /// The resolver. The memory of the files is not given back, piece by piece, but stays taken until the process ends: for a caller whose
    /// process soon does. Where there is none for the box that keeps them, it is given back.
    pub fn leak_files(self) -> R
        ensures { result ≡ self.resolver }
    {
        let Compiler {
            resolver,
            finished,
            alloc,
            ..
        } = self;
        if let Ok(kept) = Box::new(alloc, finished) {
            let _ = Box::leak(kept);
        }
        resolver
    }
}

impl<D: Disk> Compiler<StandardResolver<D>> {
    /// No files, of the folders of a disk and the built-in files. Hands the disk back where memory runs out.
    pub fn new(alloc: Global, disk: D, includes: &Texts) -> Result<Compiler<StandardResolver<D>>, D>
        ensures ok { IfOk result (λ compiler. compiler ≡ fresh (record { folders = includes.now; disk = disk })) }
        ensures err { IfErr result (λ back. back ≡ disk) }
    {
        let resolver = match StandardResolver::new(alloc, disk, includes) {
            Ok(resolver) => resolver,
            Err(disk) => return Err(disk),
        };
        match Compiler::with_file_resolver(alloc, resolver) {
            Ok(compiler) => Ok(compiler),
            Err(resolver) => Err(resolver.into_disk()),
        }
    }
}

/// What is known of each file, in order.
pub type Files<'a> = std::slice::Iter<'a, FileMetadata>;
