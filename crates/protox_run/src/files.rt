//! What is made of the files, which come from folders or from a set.

ghost use Rattle.std.specs.Prelude.{◌≡◌, ◌+◌, ◌++◌, ◌∷◌, [], IfOk, IfErr, IsTrue};
ghost use Rattle.std.specs.Prelude.{string_bytes, codes, Some, None, true, false, is_some, option_map};
ghost use Rattle.std.specs.Option.{option_copied};
ghost use Rattle.std.specs.List.{concat};
ghost use Rattle.serde_json.specs.View.{view};
ghost use Rattle.serde_json.specs.Written.{has_float, compact_text};
ghost use Rattle.protox_io.specs.Count.{Rose, RoseTimes, Later};
ghost use Rattle.protox_io.specs.Disk.{Stored};
ghost use Rattle.protox_words.specs.Words.{folders, retries_of};
ghost use Rattle.protox_words.specs.Told.{args_told};
ghost use Rattle.protox_file_sources.specs.Causes.{FaultsCause};
ghost use Rattle.protox_file.specs.Sets.{AreFilesIn};
ghost use Rattle.protox_compile.specs.State.{KeepsFiles};
ghost use Rattle.protox_compile.specs.Repeats.{repeats};
ghost use Rattle.protox_compile.specs.Sets.{listed, IsUnencodable};
ghost use Rattle.protox_transcode.specs.Top.{IsCaused, Refuses};
ghost use Rattle.protox_run.specs.Class.{ForLibrary, IsStoredSet, set_at, resolves_of, write_to as write_to_of, options_of as options_told, WritesSet};
ghost use Rattle.protox_run.specs.Class.{Transcoded as IsTranscoded, Compiled};
ghost use Rattle.protox_run.specs.Parts.{HandsOn, IsFileCause, IsFileStop, IsJobRefusal, IsReadCause, IsReadStop, IsSetRefusal};
ghost use Rattle.protox_run.specs.Parts.{IsStopOf, IsStopWith, IsUnreadSet, Makes};
ghost use Rattle.protox_run.specs.Told.{stop_told, writes_told, line_told};

use crate::carry::{Ready, Write, write_to};
use crate::stop::{Object, Refusal, Stop};
use pbx_json_meaning::{SerializeOptions, canonical_is_plain};
use pbx_wire::{Blob, DecodeError, List, NoMemory, Text};
use protox_compile::{Compiler, OpenedAll, open_all};
use protox_file::{DescriptorSetFileResolver, StandardResolver};
use protox_file_sources::{Error, FileResolver};
use protox_io::{Disk, DiskAnswer, DiskError};
use protox_transcode::{Attempt, InputTree, TopError, Transcoded, file_error, transcode_files};
use protox_words::Args;
use serde_json::Value;
use std::alloc::Global;

/// What a plan leaves: the disk, and what is to be written.
#[derive(Drop)]
pub(crate) struct Planned<'w, D> {
    pub(crate) disk: D,
    pub(crate) result: Result<Ready<'w>, Stop<'w>>,
}

/// What is made of the files.
#[derive(Drop)]
pub(crate) enum Job<'j> {
    /// They are compiled, and a tree is transcoded as a message of the type of this name.
    Transcode { name: &'j str, tree: Value },
    /// They are compiled alone.
    Compile,
}

/// The stop of an error; where memory runs out for its line, that of want of memory.
pub(crate) fn stop_of<'w>(alloc: Global, error: &TopError) -> Stop<'w>
    ensures { IsStopOf error.now (stop_told result) }
{
    let Ok(line) = error.line(alloc) else {
        return Stop::NoMemory;
    };
    if error.is_refusal() {
        return Stop::Refused(Refusal::Top(line));
    }
    match error {
        TopError::File(_) => Stop::Broken(Object::Reading(line)),
        _ => Stop::NoMemory,
    }
}

/// The files of the folders that the words name, and the built-in ones. Hands the disk back for want of memory.
fn resolver_of<D: Disk>(alloc: Global, args: &Args<'_>, disk: D) -> Result<StandardResolver<D>, D>
    ensures ok { IfOk result (λ it. it ≡ record { folders = folders (args_told args.now); disk = disk }) }
    ensures err { IfErr result (λ back. back ≡ disk) }
{
    match args.folders(alloc) {
        Ok(folders) => StandardResolver::new(alloc, disk, &folders),
        Err(NoMemory) => Err(disk),
    }
}

/// How the message is written as JSON: as by default, but for what the flags change.
fn options_of(args: &Args<'_>) -> SerializeOptions
    ensures { result ≡ options_told (args_told args.now) }
{
    SerializeOptions::new()
        .stringify_64_bit_integers(!args.json.int64_numbers)
        .use_enum_numbers(args.json.enum_numbers)
        .use_proto_field_name(args.json.proto_names)
        .skip_default_fields(!args.json.defaults)
}

/// The set and the wire bytes, where paths are given for them, and the compact text of the tree.
fn write_transcoded<'w>(
    alloc: Global,
    args: &Args<'w>,
    done: Transcoded,
) -> Result<Ready<'w>, TopError>
    ensures writes { IfOk result (λ ready. writes_told ready
        ≡ write_to_of (option_copied args.now.output) done.set ++ write_to_of (option_copied args.now.wire) done.wire) }
    ensures text { IfOk result (λ ready. has_float (view done.tree) ≡ false →
        line_told (option_map string_bytes ready.line) ≡ compact_text (view done.tree) ++ codes "\n") }
    ensures repeated { IfOk result (λ ready. ready.repeated ≡ done.repeated) }
    ensures err { IfErr result (λ error. error ≡ TopError.NoMemory) }
{
    match done.tree.to_string(alloc) {
        Ok(line) => Ok(Ready {
            set: write_to(args.output, done.set),
            wire: write_to(args.wire, done.wire),
            line: Some(line),
            repeated: done.repeated,
        }),
        Err(_) => Err(TopError::NoMemory),
    }
}

/// Compiles the files with all that they import, and transcodes the tree as a message of the type. The resolver is handed back.
fn transcode_tree<'w, R: FileResolver>(
    alloc: Global,
    args: &Args<'w>,
    name: &str,
    tree: Value,
    resolver: R,
) -> (R, Result<Ready<'w>, TopError>)
    ensures ok { IsTrue (R.library resolver).tells → IfOk result.1 (λ ready. IsTranscoded (args_told args.now) name.now (R.library resolver) (view tree)
        (writes_told ready) (line_told (option_map string_bytes ready.line))) }
    ensures repeated { IsTrue (R.library resolver).tells → IfOk result.1 (λ ready. ready.repeated ≡ repeats (R.library resolver).resolves args.now.files) }
    ensures err { IsTrue (R.library resolver).tells → IfErr result.1
        (Refuses (R.library resolver).files (R.library resolver).resolves args.now.files name.now (view tree)) }
    ensures cause { IfErr result.1 (IsCaused (FaultsCause (retries_of (args_told args.now) + 1) (R.library resolver) (R.count resolver) (R.count result.0))) }
    ensures keeps { KeepsFiles R.library R.count resolver result.0 }
{
    let tree = InputTree::Owned(tree);
    let options = options_of(args);
    let Attempt { resolver, result } = transcode_files(
        alloc,
        resolver,
        &args.files,
        name,
        tree,
        args.retries(),
        &options,
    );
    match result {
        Ok(done) => {
            // So its text is the compact one.
            canonical_is_plain();
            (resolver, write_transcoded(alloc, args, done))
        }
        Err(error) => (resolver, Err(error)),
    }
}

/// The set of the files of a compiler, where a path is given for it.
fn write_set<'w, R: FileResolver>(
    path: Option<&'w str>,
    compiler: &Compiler<R>,
    repeated: List<u64>,
) -> Result<Ready<'w>, Error>
    ensures writes { IfOk result (λ ready.
        WritesSet (option_copied path.entry) (listed compiler.now.imports compiler.now.info compiler.now.done) (writes_told ready)) }
    ensures line { IfOk result (λ ready. line_told (option_map string_bytes ready.line) ≡ []) }
    ensures repeated { IfOk result (λ ready. ready.repeated ≡ repeated) }
    ensures err { IfErr result (λ error. (is_some (option_copied path.entry) ≡ true)
        × IsUnencodable (listed compiler.now.imports compiler.now.info compiler.now.done) error) }
{
    let Some(path) = path else {
        return Ok(Ready {
            set: None,
            wire: None,
            line: None,
            repeated,
        });
    };
    match compiler.encode_file_descriptor_set() {
        Ok(bytes) => Ok(Ready {
            set: Some(Write {
                path,
                bytes: Blob::from_vec(bytes),
            }),
            wire: None,
            line: None,
            repeated,
        }),
        Err(error) => Err(error),
    }
}

/// Compiles the files with all that they import, and makes their set. The resolver is handed back. The files are not let go, as the process
/// ends with the run.
fn compile_files<'w, R: FileResolver>(
    alloc: Global,
    args: &Args<'w>,
    resolver: R,
) -> (R, Result<Ready<'w>, TopError>)
    ensures ok { IsTrue (R.library resolver).tells → IfOk result.1 (λ ready.
        Compiled (args_told args.now) (R.library resolver) (writes_told ready) (line_told (option_map string_bytes ready.line))) }
    ensures repeated { IsTrue (R.library resolver).tells → IfOk result.1 (λ ready. ready.repeated ≡ repeats (R.library resolver).resolves args.now.files) }
    ensures err { IsTrue (R.library resolver).tells → IfErr result.1 (IsSetRefusal (args_told args.now) (R.library resolver)) }
    ensures cause { IfErr result.1 (IsCaused (FaultsCause (retries_of (args_told args.now) + 1) (R.library resolver) (R.count resolver) (R.count result.0))) }
    ensures keeps { KeepsFiles R.library R.count resolver result.0 }
{
    let opened = open_all(alloc, resolver, &args.files, args.retries());
    let OpenedAll { compiler, repeated } = match opened {
        Ok(opened) => opened,
        Err((resolver, error)) => return (resolver, Err(file_error(error))),
    };
    let mut compiler = compiler;
    let _ = compiler.include_imports(args.include_imports);
    let _ = compiler.include_source_info(args.include_source_info);
    let result = match write_set(args.output, &compiler, repeated) {
        Ok(ready) => Ok(ready),
        Err(error) => Err(file_error(error)),
    };
    (compiler.leak_files(), result)
}

/// What the job makes of the files. The resolver is handed back.
fn make<'w, R: FileResolver>(
    alloc: Global,
    args: &Args<'w>,
    job: Job<'_>,
    resolver: R,
) -> (R, Result<Ready<'w>, TopError>)
    ensures ok { IsTrue (R.library resolver).tells → IfOk result.1 (λ ready.
        Makes job.entry (args_told args.now) (R.library resolver) (writes_told ready) (line_told (option_map string_bytes ready.line))) }
    ensures repeated { IsTrue (R.library resolver).tells → IfOk result.1 (λ ready. ready.repeated ≡ repeats (R.library resolver).resolves args.now.files) }
    ensures err { IsTrue (R.library resolver).tells → IfErr result.1 (IsJobRefusal job.entry (args_told args.now) (R.library resolver)) }
    ensures cause { IfErr result.1 (IsCaused (FaultsCause (retries_of (args_told args.now) + 1) (R.library resolver) (R.count resolver) (R.count result.0))) }
    ensures keeps { KeepsFiles R.library R.count resolver result.0 }
{
    match job {
        Job::Transcode { name, tree } => transcode_tree(alloc, args, name, tree, resolver),
        Job::Compile => compile_files(alloc, args, resolver),
    }
}

/// What a job made, or the stop of its error.
fn or_stop<'w>(alloc: Global, made: Result<Ready<'w>, TopError>) -> Result<Ready<'w>, Stop<'w>>
    ensures { HandsOn made.entry result }
{
    match made {
        Ok(ready) => Ok(ready),
        Err(error) => {
            let stop = stop_of(alloc, &error);
            drop(error);
            Err(stop)
        }
    }
}

/// The stop of a set that was read and is none, with a line of these parts.
fn no_set<'w>(alloc: Global, before: &str, path: &str, behind: &str) -> Stop<'w>
    ensures { IsStopWith (concat (before.now ∷ path.now ∷ behind.now ∷ [])) (stop_told result) }
{
    match Text::joined(alloc, &[before, path, behind]) {
        Ok(line) => Stop::Refused(Refusal::Top(line)),
        Err(NoMemory) => Stop::NoMemory,
    }
}

/// The stop of a set that could not be read.
fn unread_set<'w>(alloc: Global, path: &str) -> Stop<'w>
    ensures { IsUnreadSet path.now (stop_told result) }
{
    match Text::joined(alloc, &["reading '", path, "' failed"]) {
        Ok(line) => Stop::Broken(Object::Reading(line)),
        Err(NoMemory) => Stop::NoMemory,
    }
}

/// The files of the bytes of the set at the path.
fn decode_set<'w>(
    alloc: Global,
    path: &str,
    bytes: &[u8],
) -> Result<DescriptorSetFileResolver, Stop<'w>>
    ensures files { IfOk result (AreFilesIn bytes.now) }
    ensures stop { IfErr result (λ stop. IsReadStop path.now (Stored bytes.now) (stop_told stop)) }
    ensures cause { IfErr result (λ stop. IsReadCause path.now ⊥ (stop_told stop)) }
{
    match DescriptorSetFileResolver::decode(alloc, bytes) {
        Ok(files) => Ok(files),
        Err(DecodeError::NoMemory) => Err(Stop::NoMemory),
        Err(_) => Err(no_set(alloc, "'", path, "' is not a descriptor set")),
    }
}

/// The files of the set at the path.
fn read_set<'w, D: Disk>(
    alloc: Global,
    disk: &mut D,
    path: &str,
) -> Result<DescriptorSetFileResolver, Stop<'w>>
    ensures files { IsTrue (D.volume disk.old).tells → IfOk result (IsStoredSet (set_at (D.volume disk.old) path.now)) }
    ensures stop { IsTrue (D.volume disk.old).tells → IfErr result (λ stop. IsReadStop path.now (set_at (D.volume disk.old) path.now) (stop_told stop)) }
    ensures cause { IfErr result (λ stop. IsReadCause path.now (Rose (D.count disk.old) (D.count disk.new)) (stop_told stop)) }
    ensures later { Later (D.count disk.old) (D.count disk.new) }
    ensures keeps { D.volume disk.new ≡ D.volume disk.old }
{
    match disk.read_file(alloc, path) {
        Ok(DiskAnswer::Bytes(bytes)) => decode_set(alloc, path, bytes.as_slice()),
        Ok(DiskAnswer::Absent) => Err(no_set(alloc, "file '", path, "' not found")),
        Ok(DiskAnswer::TooLarge) => Err(no_set(alloc, "file '", path, "' is too large")),
        Err(DiskError::Failed(_)) => Err(unread_set(alloc, path)),
        Err(DiskError::NoMemory) => Err(Stop::NoMemory),
    }
}

/// What the job makes of the files of the folders that the words name, and of the built-in ones.
fn from_folders<'w, D: Disk>(
    alloc: Global,
    args: &Args<'w>,
    job: Job<'_>,
    disk: D,
) -> Planned<'w, D>
    requires { option_copied args.now.descriptor_set_in ≡ None }
    ensures done { IsTrue (D.volume disk).tells → IfOk result.result (λ ready. ForLibrary (args_told args.now) (D.volume disk)
        (λ library. Makes job.entry (args_told args.now) library (writes_told ready) (line_told (option_map string_bytes ready.line)))) }
    ensures repeated { IsTrue (D.volume disk).tells → IfOk result.result (λ ready. ready.repeated ≡ repeats (resolves_of (args_told args.now)) args.now.files) }
    ensures stop { IsTrue (D.volume disk).tells → IfErr result.result (λ stop. IsFileStop job.entry (args_told args.now) (D.volume disk) (stop_told stop)) }
    ensures cause { IfErr result.result
        (λ stop. IsFileCause (args_told args.now) (λ times. RoseTimes times (D.count disk) (D.count result.disk)) (stop_told stop)) }
    ensures later { Later (D.count disk) (D.count result.disk) }
    ensures keeps { D.volume result.disk ≡ D.volume disk }
{
    let files = match resolver_of(alloc, args, disk) {
        Ok(files) => files,
        Err(disk) => {
            return Planned {
                disk,
                result: Err(Stop::NoMemory),
            };
        }
    };
    let (resolver, made) = make(alloc, args, job, files);
    let disk = resolver.into_disk();
    let result = or_stop(alloc, made);
    Planned { disk, result }
}

/// What the job makes of the files of the set at the path.
fn from_set<'w, D: Disk>(
    alloc: Global,
    args: &Args<'w>,
    job: Job<'_>,
    path: &str,
    disk: D,
) -> Planned<'w, D>
    requires { option_copied args.now.descriptor_set_in ≡ Some path.now }
    ensures done { IsTrue (D.volume disk).tells → IfOk result.result (λ ready. ForLibrary (args_told args.now) (D.volume disk)
        (λ library. Makes job.entry (args_told args.now) library (writes_told ready) (line_told (option_map string_bytes ready.line)))) }
    ensures repeated { IsTrue (D.volume disk).tells → IfOk result.result (λ ready. ready.repeated ≡ repeats (resolves_of (args_told args.now)) args.now.files) }
    ensures stop { IsTrue (D.volume disk).tells → IfErr result.result (λ stop. IsFileStop job.entry (args_told args.now) (D.volume disk) (stop_told stop)) }
    ensures cause { IfErr result.result
        (λ stop. IsFileCause (args_told args.now) (λ times. RoseTimes times (D.count disk) (D.count result.disk)) (stop_told stop)) }
    ensures later { Later (D.count disk) (D.count result.disk) }
    ensures keeps { D.volume result.disk ≡ D.volume disk }
{
    let mut disk = disk;
    let files = match read_set(alloc, &mut disk, path) {
        Ok(files) => files,
        Err(stop) => {
            return Planned {
                disk,
                result: Err(stop),
            };
        }
    };
    let (files, made) = make(alloc, args, job, files);
    drop(files);
    let result = or_stop(alloc, made);
    Planned { disk, result }
}

/// What the job makes of the files that the words name.
pub(crate) fn from_files<'w, D: Disk>(
    alloc: Global,
    args: &Args<'w>,
    job: Job<'_>,
    disk: D,
) -> Planned<'w, D>
    ensures done { IsTrue (D.volume disk).tells → IfOk result.result (λ ready. ForLibrary (args_told args.now) (D.volume disk)
        (λ library. Makes job.entry (args_told args.now) library (writes_told ready) (line_told (option_map string_bytes ready.line)))) }
    ensures repeated { IsTrue (D.volume disk).tells → IfOk result.result (λ ready. ready.repeated ≡ repeats (resolves_of (args_told args.now)) args.now.files) }
    ensures stop { IsTrue (D.volume disk).tells → IfErr result.result (λ stop. IsFileStop job.entry (args_told args.now) (D.volume disk) (stop_told stop)) }
    ensures cause { IfErr result.result
        (λ stop. IsFileCause (args_told args.now) (λ times. RoseTimes times (D.count disk) (D.count result.disk)) (stop_told stop)) }
    ensures later { Later (D.count disk) (D.count result.disk) }
    ensures keeps { D.volume result.disk ≡ D.volume disk }
{
    match args.descriptor_set_in {
        Some(path) => from_set(alloc, args, job, path, disk),
        None => from_folders(alloc, args, job, disk),
    }
}
