//! Compiling the files at paths at once.

ghost use Rattle.std.specs.Prelude.{◌≡◌, ◌+◌, ◌++◌, [], length, IsTrue, IfOk, IfErr, OnOk, Some, List as ListOf};
ghost use Rattle.pbx_wkt_files.specs.Files.{wkt_files};
ghost use Rattle.protox_file_sources.specs.Causes.{FaultCause, FaultsCause};
ghost use Rattle.protox_file.specs.Standard.{standard};
ghost use Rattle.protox_compile_walk.specs.Walk.{Done};
ghost use Rattle.protox_compile_walk.specs.Opens.{OpensTimes};
ghost use Rattle.protox_compile.specs.State.{KeepsFiles, KeepsSettings, fresh};
ghost use Rattle.protox_compile.specs.Repeats.{index_if, is_again, repeats};
ghost use Rattle.protox_compile.specs.Compiling.{AreCompiled, Compiles, StopsCompiling, HasCompilingCause, whole_set};

use crate::compiler::Compiler;
use pbx_desc_records::FileDescriptorSet;
use pbx_link_laws::linking_ends;
use pbx_wire::{List, NoMemory, Texts};
use protox_compile_walk::Opened;
use protox_file::StandardResolver;
use protox_file_sources::{Disk, Error, FileResolver, looked_up_once};
use std::alloc::Global;

/// What compiling leaves: the disk, and the set of the files.
#[derive(Drop)]
pub struct Compiled<D> {
    /// The disk.
    pub disk: D,
    /// The set of the files, or why the files are refused.
    pub result: Result<FileDescriptorSet, Error>,
}

/// A compiler with files opened, and which of the paths were given again.
#[derive(Drop)]
pub struct OpenedAll<R> {
    /// The compiler.
    pub compiler: Compiler<R>,
    /// The indices of the paths whose name is that of an earlier path, in their order.
    pub repeated: List<u64>,
}

/// Adds the index of a path that was opened again.
fn note(repeated: &mut List<u64>, index: u64, report: Opened) -> Result<(), NoMemory>
    ensures { OnOk result (repeated.new ≡ repeated.old ++ index_if (is_again (Some report)) index []) }
{
    match report {
        Opened::Again => repeated.add(index),
        Opened::Compiled | Opened::Import => Ok(()),
    }
}

/// Opens the files at the paths in order, up to the first that is refused, and notes which ones are opened again.
fn open_each<R: FileResolver>(
    compiler: &mut Compiler<R>,
    files: &Texts,
    tries: u32,
    repeated: &mut List<u64>,
) -> Result<(), Error>
    requires empty { compiler.old ≡ fresh compiler.old.resolver }
    requires none { repeated.old ≡ [] }
    ensures ok { IsTrue (R.library compiler.old.resolver).tells →
        OnOk result (Compiles (R.library compiler.old.resolver) files.now (λ done. compiler.new.done ≡ done)) }
    ensures repeated { IsTrue (R.library compiler.old.resolver).tells →
        OnOk result (repeated.new ≡ repeats (R.library compiler.old.resolver).resolves files.now) }
    ensures err { IsTrue (R.library compiler.old.resolver).tells → IfErr result (StopsCompiling (R.library compiler.old.resolver) files.now) }
    ensures opens { OnOk result (OpensTimes (length files.now) [] compiler.new.done) }
    ensures cause { IfErr result (HasCompilingCause files.now
        (FaultsCause (tries + 1) (R.library compiler.old.resolver) (R.count compiler.old.resolver) (R.count compiler.new.resolver))) }
    ensures keeps { KeepsSettings R.library R.count compiler.old compiler.new }
{
    // So the look-ups of all paths agree.
    looked_up_once();
    let paths = files.as_slice();
    for index in 0..paths.len() {
        let report = compiler.open_retry(paths[index].as_str(), tries)?;
        note(repeated, index as u64, report)?;
    }
    Ok(())
}

/// A compiler of the resolver, with the files at the paths opened in order, and which of them were given again; or the resolver, and
/// why one is refused. Each path is opened as `Compiler::open_retry` does, again at most `tries` times.
pub fn open_all<R: FileResolver>(
    alloc: Global,
    resolver: R,
    files: &Texts,
    tries: u32,
) -> Result<OpenedAll<R>, (R, Error)>
    ensures ok { IsTrue (R.library resolver).tells → IfOk result (λ o. Compiles (R.library resolver) files.now (λ done. o.compiler.done ≡ done)) }
    ensures repeated { IsTrue (R.library resolver).tells → IfOk result (λ o. o.repeated ≡ repeats (R.library resolver).resolves files.now) }
    ensures err { IsTrue (R.library resolver).tells → IfErr result (λ e. StopsCompiling (R.library resolver) files.now e.1) }

    // Over every resolver, each path adds files as imports and then marks one of all.
    ensures opens { IfOk result (λ o. OpensTimes (length files.now) [] o.compiler.done) }
    ensures cause { IfErr result (λ e. HasCompilingCause files.now (FaultsCause (tries + 1) (R.library resolver) (R.count resolver) (R.count e.0)) e.1) }
    ensures keeps { IfOk result (λ o. KeepsFiles R.library R.count resolver o.compiler.resolver) }
    ensures back { IfErr result (λ e. KeepsFiles R.library R.count resolver e.0) }
{
    let mut compiler = match Compiler::with_file_resolver(alloc, resolver) {
        Ok(compiler) => compiler,
        Err(resolver) => return Err((resolver, Error::from(NoMemory))),
    };
    let mut repeated = List::new(alloc);
    match open_each(&mut compiler, files, tries, &mut repeated) {
        Ok(()) => Ok(OpenedAll { compiler, repeated }),
        Err(error) => Err((compiler.into_resolver(), error)),
    }
}

/// The set of the files at the paths and all that they import. The resolver is handed back.
#[tactic(auto, using(crate::proofs::Among::are_compiled, crate::proofs::Tried::compiling_once))]
fn compile_with<R: FileResolver>(
    alloc: Global,
    resolver: R,
    files: &Texts,
) -> (R, Result<FileDescriptorSet, Error>)
    ensures ok { IsTrue (R.library resolver).tells → IfOk result.1 (λ set. Compiles (R.library resolver) files.now (λ done. set ≡ whole_set done)) }
    ensures err { IsTrue (R.library resolver).tells → IfErr result.1 (StopsCompiling (R.library resolver) files.now) }
    ensures ordered { IfOk result.1 (λ set. (done : ListOf Done) × AreCompiled (length files.now) done × (set ≡ whole_set done)) }
    ensures cause { IfErr result.1 (HasCompilingCause files.now (FaultCause (R.library resolver) (R.count resolver) (R.count result.0))) }
    ensures keeps { KeepsFiles R.library R.count resolver result.0 }
{
    linking_ends();
    let mut compiler = match open_all(alloc, resolver, files, 0) {
        Ok(opened) => opened.compiler,
        Err((resolver, error)) => return (resolver, Err(error)),
    };
    let _ = compiler.include_imports(true);
    let _ = compiler.include_source_info(true);
    let _ordered = compiler.descriptor_pool();
    let result = match compiler.file_descriptor_set() {
        Ok(set) => Ok(set),
        Err(NoMemory) => Err(Error::from(NoMemory)),
    };
    (compiler.into_resolver(), result)
}

/// Compiles the files at paths with all that they import, from the folders of a disk and the built-in files, into one set
/// with imports and source information: each file once, behind all that it imports. At most 65,536 files are taken. The
/// disk is handed back.
///
/// The names of the paths, and the errors, are those of `Compiler::open_files`.
pub fn compile<D: Disk>(alloc: Global, disk: D, files: &Texts, includes: &Texts) -> Compiled<D>
    // Over a disk that tells, the set is that of the files of the paths.
    ensures ok { IsTrue (D.volume disk).tells → IfOk result.result
        (λ set. Compiles (standard wkt_files (D.volume disk) includes.now) files.now (λ done. set ≡ whole_set done)) }
    ensures err { IsTrue (D.volume disk).tells → IfErr result.result
        (StopsCompiling (standard wkt_files (D.volume disk) includes.now) files.now) }

    // Over every disk, the files stand in order, each once and behind its imports, and each is linked to itself among those before it.
    ensures ordered { IfOk result.result (λ set. (done : ListOf Done) × AreCompiled (length files.now) done × (set ≡ whole_set done)) }
    ensures cause { IfErr result.result (HasCompilingCause files.now
        (FaultCause (standard wkt_files (D.volume disk) includes.now) (D.count disk) (D.count result.disk))) }
    ensures keeps { KeepsFiles D.volume D.count disk result.disk }
{
    let resolver = match StandardResolver::new(alloc, disk, includes) {
        Ok(resolver) => resolver,
        Err(disk) => {
            return Compiled {
                disk,
                result: Err(Error::from(NoMemory)),
            };
        }
    };
    let (resolver, result) = compile_with(alloc, resolver, files);
    Compiled {
        disk: resolver.into_disk(),
        result,
    }
}
