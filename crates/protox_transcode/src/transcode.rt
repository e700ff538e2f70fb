//! From files, a type's name and a tree to the set of the files, the wire bytes and the tree under options.

ghost use Rattle.std.specs.Prelude.{◌≡◌, ◌+◌, ◌≤◌, ◌⊎◌, length, IfOk, IfErr, OnOk, IsTrue, List as ListOf};
ghost use Rattle.serde_json.specs.View.{view};
ghost use Rattle.pbx_json_meaning.specs.Canonical.{canonical};
ghost use Rattle.pbx_json_meaning.specs.Options.{default_reading};
ghost use Rattle.pbx_json_meaning.specs.Trees.{HasTexts};
ghost use Rattle.pbx_link_meaning.specs.Descriptors.{message_of_name};
ghost use Rattle.pbx_link_meaning.specs.Shapes.{shape_of, place_of};
ghost use Rattle.pbx_message_dynamic.specs.Trees.{IsRead};
ghost use Rattle.protox_file_sources.specs.Causes.{FaultCause, FaultsCause};
ghost use Rattle.protox_compile_walk.specs.Walk.{Done, records};
ghost use Rattle.protox_compile.specs.Compiling.{AreCompiled};
ghost use Rattle.protox_compile.specs.State.{KeepsFiles};
ghost use Rattle.protox_compile.specs.Repeats.{repeats};
ghost use Rattle.protox_transcode.specs.Input.{data_of};
ghost use Rattle.protox_transcode.specs.Parts.{IsClear, IsNotClear, IsNotTold, IsNamed, IsNotNamed, IsNotWritten, IsWire, IsWritten};
ghost use Rattle.protox_transcode.specs.Top.{ForFiles, HaveClearNames, IsTranscoded, IsRefused, Refuses, IsCaused, IsJudged, Transcodes};

use crate::error::{TopError, file_error, json_error, names_error};
use crate::input_tree::InputTree;
use crate::set::set_of;
use pbx_content::encoding_decodes;
use pbx_desc_encoding::Message;
use pbx_json::{JsonMessage, SerializeOptions, check_names, fits_levels};
use pbx_json_laws::{
    canonical_stands, clear_by_any_name, fitting_is_written, shapes_are_well_named,
    values_have_texts,
};
use pbx_link::{DescriptorPool, MessageDescriptor};
use pbx_link_laws::linking_ends;
use pbx_message_dynamic::DynamicMessage;
use pbx_message_laws::kinds_have_types;
use pbx_wire::{Blob, List, NoMemory, Text, Texts};
use protox_compile::{OpenedAll, open_all};
use protox_file_sources::FileResolver;
use serde_json::Value;
use std::alloc::Global;

/// The set of the files, the wire bytes and the written tree, and which paths were given again.
#[derive(Drop)]
pub struct Transcoded {
    /// The `google.protobuf.FileDescriptorSet` of the files, each behind all that it imports.
    pub set: Blob,
    /// The message's bytes on the wire.
    pub wire: Blob,
    /// The message in JSON, under the options.
    pub tree: Value,
    /// The indices of the paths whose name is that of an earlier path, in their order.
    pub repeated: List<u64>,
}

/// What a transcoding leaves: the resolver, and what came of it.
#[derive(Drop)]
pub struct Attempt<R> {
    pub resolver: R,
    pub result: Result<Transcoded, TopError>,
}

fn type_not_found(alloc: Global, type_name: &str) -> TopError
    ensures { (result ≡ TopError.NoMemory) ⊎ (result ≡ TopError.TypeNotFound type_name.now) }
{
    match Text::from_str(alloc, type_name) {
        Ok(name) => TopError::TypeNotFound { name },
        Err(NoMemory) => TopError::NoMemory,
    }
}

/// The bytes of the message.
fn wire_of(alloc: Global, message: &DynamicMessage) -> Result<Blob, NoMemory>
    ensures { IfOk result (IsWire message.now) }
{
    let bytes = message.encode_to_vec(alloc)?;
    Ok(Blob::from_vec(bytes))
}

/// The wire bytes of the message, and its tree under the options.
fn write_both(
    alloc: Global,
    message: &DynamicMessage,
    options: &SerializeOptions,
) -> Result<(Blob, Value), TopError>
    ensures ok { IfOk result (λ done. IsWritten message.now.of message.now.content options.now done.0 (view done.1)) }
    ensures stop { IfErr result (IsNotWritten
        (canonical (shape_of message.now.of.pool) (place_of message.now.of) message.now.content options.now)) }
{
    let Ok(wire) = wire_of(alloc, message) else {
        return Err(TopError::NoMemory);
    };
    match message.serialize_with_options(alloc, options) {
        Ok(tree) => Ok((wire, tree)),
        Err(error) => Err(json_error(error)),
    }
}

/// The message of the type that the tree stands for; an own tree is let go.
fn message_of(
    alloc: Global,
    desc: MessageDescriptor,
    tree: InputTree<'_>,
) -> Result<DynamicMessage, TopError>
    ensures texts { HasTexts (data_of tree.entry) }
    ensures of { IfOk result (λ m. m.of ≡ desc) }
    ensures read { IfOk result (λ m. IsRead desc default_reading (data_of tree.entry) m.content) }
    ensures err { IfErr result (IsNotTold desc (data_of tree.entry)) }
{
    let value = tree.as_value();
    values_have_texts(value);
    match DynamicMessage::deserialize(alloc, desc, value) {
        Ok(message) => Ok(message),
        Err(error) => Err(json_error(error)),
    }
}

/// The wire bytes of the message of the type that the tree stands for, and its tree under the options.
fn transcode_as(
    alloc: Global,
    desc: MessageDescriptor,
    tree: InputTree<'_>,
    options: &SerializeOptions,
) -> Result<(Blob, Value), TopError>
    ensures ok { IsClear (shape_of desc.pool) →
        IfOk result (λ done. Transcodes (shape_of desc.pool) (place_of desc) (data_of tree.entry) options.now done.0 (view done.1)) }
    ensures err { IsClear (shape_of desc.pool) → IfErr result (IsNotTold desc (data_of tree.entry)) }
{
    // What the message is written as stands for it, and decodes to it.
    canonical_stands();
    clear_by_any_name();
    fitting_is_written();
    encoding_decodes();
    let message = match message_of(alloc, desc, tree) {
        Ok(message) => message,
        Err(error) => return Err(error),
    };
    // What it holds may be held by a message of its type.
    let _sound = message.descriptor();
    match fits_levels(alloc, &message) {
        Ok(true) => write_both(alloc, &message, options),
        Ok(false) => Err(TopError::TooDeep),
        Err(NoMemory) => Err(TopError::NoMemory),
    }
}

/// Refuses a pool of which a message's JSON has a key with two meanings, or a message of a well-known name has not its shape.
///
/// The errors are `JsonNames`, `WellKnownShape` and `NoMemory`.
pub fn check_clear(alloc: Global, pool: &DescriptorPool) -> Result<(), TopError>
    ensures ok { OnOk result (IsClear (shape_of pool.now)) }
    ensures err { IfErr result (IsNotClear pool.now) }
{
    shapes_are_well_named();
    let _pooled = pool.files();
    let Ok(schema) = pool.schema() else {
        return Err(TopError::NoMemory);
    };
    let _proper = schema.as_ref().shape();
    match check_names(alloc, pool) {
        Ok(()) => Ok(()),
        Err(fault) => Err(names_error(fault)),
    }
}

/// The tree as a message of a type of the pool's.
fn transcode_named(
    alloc: Global,
    pool: &DescriptorPool,
    type_name: &str,
    tree: InputTree<'_>,
    options: &SerializeOptions,
) -> Result<(Blob, Value), TopError>
    ensures ok { IsClear (shape_of pool.now) → IfOk result (λ done. IsNamed pool.now type_name.now (data_of tree.entry) options.now done.0 (view done.1)) }
    ensures err { IsClear (shape_of pool.now) → IfErr result (IsNotNamed pool.now type_name.now (data_of tree.entry)) }
{
    // The message is one of this pool's.
    kinds_have_types();
    let _pooled = pool.files();
    match pool.get_message_by_name(type_name) {
        Some(desc) => transcode_as(alloc, desc, tree, options),
        None => Err(type_not_found(alloc, type_name)),
    }
}

/// The tree as a message of a type of the pool's, and the set of the pool's files.
fn transcode_in(
    alloc: Global,
    pool: &DescriptorPool,
    type_name: &str,
    tree: InputTree<'_>,
    options: &SerializeOptions,
    repeated: List<u64>,
) -> Result<Transcoded, TopError>
    ensures ok { IfOk result (λ done. IsTranscoded type_name.now (data_of tree.entry) options.now pool.now done.set done.wire (view done.tree)) }
    ensures repeated { IfOk result (λ done. done.repeated ≡ repeated) }
    ensures err { IfErr result (IsRefused type_name.now (data_of tree.entry) pool.now) }
{
    let set = match set_of(alloc, pool) {
        Ok(set) => set,
        Err(error) => return Err(error),
    };
    match check_clear(alloc, pool) {
        Ok(()) => {}
        Err(error) => return Err(error),
    }
    match transcode_named(alloc, pool, type_name, tree, options) {
        Ok((wire, tree)) => Ok(Transcoded {
            set,
            wire,
            tree,
            repeated,
        }),
        Err(error) => Err(error),
    }
}

/// As `compile_and_transcode_retry`; an own tree is let go once it is read.
pub fn transcode_files<R: FileResolver>(
    alloc: Global,
    resolver: R,
    paths: &Texts,
    type_name: &str,
    tree: InputTree<'_>,
    tries: u32,
    options: &SerializeOptions,
) -> Attempt<R>
    // Over a resolver that tells, the files are the closure of the paths.
    ensures ok { IsTrue (R.library resolver).tells → IfOk result.result (λ done. ForFiles (R.library resolver).files (R.library resolver).resolves paths.now
        (λ files. IsTranscoded type_name.now (data_of tree.entry) options.now files done.set done.wire (view done.tree))) }
    ensures repeated { IsTrue (R.library resolver).tells → IfOk result.result (λ done. done.repeated ≡ repeats (R.library resolver).resolves paths.now) }
    ensures err { IsTrue (R.library resolver).tells → IfErr result.result
        (Refuses (R.library resolver).files (R.library resolver).resolves paths.now type_name.now (data_of tree.entry)) }
    ensures cause { IfErr result.result (IsCaused (FaultsCause (tries + 1) (R.library resolver) (R.count resolver) (R.count result.resolver))) }

    // Over every resolver, each path adds files as imports and then marks one of all; they stand in order, each once and behind its
    // imports, and each is linked to itself among those before it. An error is one of the walk or of such files.
    ensures ordered { IfOk result.result
        (λ done. (files : ListOf Done) × AreCompiled (length paths.now) files
        × IsTranscoded type_name.now (data_of tree.entry) options.now (records files) done.set done.wire (view done.tree)) }
    ensures judged { IfErr result.result (IsJudged paths.now type_name.now (data_of tree.entry)
        (FaultsCause (tries + 1) (R.library resolver) (R.count resolver) (R.count result.resolver))) }
    ensures keeps { KeepsFiles R.library R.count resolver result.resolver }
{
    linking_ends();
    let OpenedAll { compiler, repeated } = match open_all(alloc, resolver, paths, tries) {
        Ok(opened) => opened,
        Err((resolver, error)) => {
            return Attempt {
                resolver,
                result: Err(file_error(error)),
            };
        }
    };
    let pool = compiler.descriptor_pool();
    let result = transcode_in(alloc, &pool, type_name, tree, options, repeated);
    Attempt {
        resolver: compiler.into_resolver(),
        result,
    }
}

/// Compiles the files at the paths with all that they import, and transcodes a tree as a message of the type of that
/// full name: into the set of the files, each behind all that it imports, the wire bytes, and the message's tree under the
/// options, which stands for the message again. The tree is read with the default options.
/// At most 65,536 files are taken, and none that nests more than 100 levels or has options that do not decode, since no
/// reader of the set would take it; neither is a message that nests so deep, or has a payload that does. The resolver is
/// handed back.
///
/// The names of the paths are as those of `Compiler::open_file`; a path whose name an earlier one has is told. The tree is read
/// last: refused are, in this order, a file, a key with two meanings in the JSON of any message of the files, a message of a
/// well-known name without its shape, the type's name, a tree that stands for no message of the type, and a message that nests too deep, itself or in
/// a payload.
pub fn compile_and_transcode<R: FileResolver>(
    alloc: Global,
    resolver: R,
    paths: &Texts,
    type_name: &str,
    tree: &Value,
    options: &SerializeOptions,
) -> Attempt<R>
    // Over a resolver that tells, the files are the closure of the paths.
    ensures ok { IsTrue (R.library resolver).tells → IfOk result.result (λ done. ForFiles (R.library resolver).files (R.library resolver).resolves paths.now
        (λ files. IsTranscoded type_name.now (view tree.now) options.now files done.set done.wire (view done.tree))) }
    ensures repeated { IsTrue (R.library resolver).tells → IfOk result.result (λ done. done.repeated ≡ repeats (R.library resolver).resolves paths.now) }
    ensures err { IsTrue (R.library resolver).tells → IfErr result.result
        (Refuses (R.library resolver).files (R.library resolver).resolves paths.now type_name.now (view tree.now)) }
    ensures cause { IfErr result.result (IsCaused (FaultCause (R.library resolver) (R.count resolver) (R.count result.resolver))) }

    // Over every resolver, each path adds files as imports and then marks one of all; they stand in order, each once and behind its
    // imports, and each is linked to itself among those before it. An error is one of the walk or of such files.
    ensures ordered { IfOk result.result
        (λ done. (files : ListOf Done) × AreCompiled (length paths.now) files
        × IsTranscoded type_name.now (view tree.now) options.now (records files) done.set done.wire (view done.tree)) }
    ensures judged { IfErr result.result (IsJudged paths.now type_name.now (view tree.now)
        (FaultCause (R.library resolver) (R.count resolver) (R.count result.resolver))) }
    ensures keeps { KeepsFiles R.library R.count resolver result.resolver }
{
    let input = InputTree::Borrowed(tree);
    transcode_files(alloc, resolver, paths, type_name, input, 0, options)
}

/// As `compile_and_transcode`, but each path whose opening meets a fault of the resolver, or want of memory, is opened again, at most `tries`
/// times, as `Compiler::open_retry` does. So a fault of the resolver is told only where for one path each of `tries + 1` openings met one, and
/// faults in between change nothing of what is made.
pub fn compile_and_transcode_retry<R: FileResolver>(
    alloc: Global,
    resolver: R,
    paths: &Texts,
    type_name: &str,
    tree: &Value,
    tries: u32,
    options: &SerializeOptions,
) -> Attempt<R>
    // Over a resolver that tells, the files are the closure of the paths.
    ensures ok { IsTrue (R.library resolver).tells → IfOk result.result (λ done. ForFiles (R.library resolver).files (R.library resolver).resolves paths.now
        (λ files. IsTranscoded type_name.now (view tree.now) options.now files done.set done.wire (view done.tree))) }
    ensures repeated { IsTrue (R.library resolver).tells → IfOk result.result (λ done. done.repeated ≡ repeats (R.library resolver).resolves paths.now) }
    ensures err { IsTrue (R.library resolver).tells → IfErr result.result
        (Refuses (R.library resolver).files (R.library resolver).resolves paths.now type_name.now (view tree.now)) }
    ensures cause { IfErr result.result (IsCaused (FaultsCause (tries + 1) (R.library resolver) (R.count resolver) (R.count result.resolver))) }

    // Over every resolver, each path adds files as imports and then marks one of all; they stand in order, each once and behind its
    // imports, and each is linked to itself among those before it. An error is one of the walk or of such files.
    ensures ordered { IfOk result.result
        (λ done. (files : ListOf Done) × AreCompiled (length paths.now) files
        × IsTranscoded type_name.now (view tree.now) options.now (records files) done.set done.wire (view done.tree)) }
    ensures judged { IfErr result.result (IsJudged paths.now type_name.now (view tree.now)
        (FaultsCause (tries + 1) (R.library resolver) (R.count resolver) (R.count result.resolver))) }
    ensures keeps { KeepsFiles R.library R.count resolver result.resolver }
{
    let input = InputTree::Borrowed(tree);
    transcode_files(alloc, resolver, paths, type_name, input, tries, options)
}
