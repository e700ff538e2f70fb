//! The transcoding of a number, and its summary.

ghost use Rattle.std.specs.Prelude.{◌≡◌, ◌∷◌, [], ◌⊎◌, IfOk, IfErr, string_bytes, false, true};
ghost use Rattle.serde_json.specs.Read.{read as read_text};
ghost use Rattle.serde_json.specs.View.{view};
ghost use Rattle.serde_json.specs.Written.{has_float, compact_text};
ghost use Rattle.pbx_json_meaning.specs.Options.{default_writing};
ghost use Rattle.protox_transcode.specs.Top.{ForFiles, IsTranscoded, Refuses, is_refusal};
ghost use Rattle.protox_transcode.specs.declared.error.TopError.TheVariants as top;
ghost use Rattle.protox_generate.specs.Sources.{file_name as file_name_of, type_name as type_name_of, tree_text as tree_text_of};
ghost use Rattle.protox_generate.specs.Files.{sources};
ghost use Rattle.protox_generate.specs.Summary.{summary as summary_of, Summarizes, RefusesNumber};

use crate::files::GeneratedFiles;
use crate::sources::{file_name, tree_text, type_name};
use pbx_json_meaning::{SerializeOptions, canonical_is_plain};
use pbx_wire::{NoMemory, Text, Texts};
use protox_transcode::{InputTree, TopError, Transcoded, transcode_files};
use serde_json::Value;
use std::alloc::Global;

/// The path of the last file.
fn paths(alloc: Global, number: u16) -> Result<Texts, NoMemory>
    ensures { IfOk result (λ paths. paths ≡ file_name_of number ∷ []) }
{
    let mut paths = Texts::new(alloc);
    paths.add(Text::from_str(alloc, file_name(alloc, number)?.as_str())?)?;
    Ok(paths)
}

/// The tree. Its text is JSON, so only memory can lack.
fn tree(alloc: Global, number: u16) -> Result<Value, NoMemory>
    ensures { IfOk result (λ tree. read_text (tree_text_of number) ≡ Some (view tree)) }
{
    let text = tree_text(alloc, number)?;
    match Value::from_slice(alloc, text.as_bytes()) {
        Ok(tree) => Ok(tree),
        Err(_) => Err(NoMemory),
    }
}

/// The summary of what came of a transcoding.
fn summary(alloc: Global, number: u16, done: &Transcoded) -> Result<String, NoMemory>
    ensures { IfOk result (λ line. has_float (view done.now.tree) ≡ false →
        string_bytes line ≡ summary_of number done.now.set done.now.wire (compact_text (view done.now.tree))) }
{
    let text = done.tree.to_string(alloc)?;
    let (set, wire) = (done.set.as_slice().len(), done.wire.as_slice().len());
    Ok(format!(in alloc;
        "generated {number} set {set} wire {wire} json {}",
        text.len()
    )?)
}

/// The transcoding of the tree over the files, under the default options.
fn transcode(
    alloc: Global,
    number: u16,
    files: GeneratedFiles,
    tree: Value,
) -> Result<Transcoded, TopError>
    ensures ok { IfOk result (λ done. ForFiles (sources files).files (sources files).resolves (file_name_of number ∷ [])
        (λ fs. IsTranscoded (type_name_of number) (view tree) default_writing fs done.set done.wire (view done.tree))) }
    ensures err { IfErr result (Refuses (sources files).files (sources files).resolves (file_name_of number ∷ []) (type_name_of number) (view tree)) }
    ensures settled { IfErr result (λ error. (is_refusal error ≡ true) ⊎ (error ≡ top.NoMemory)) }
{
    let (Ok(paths), Ok(name)) = (paths(alloc, number), type_name(alloc, number)) else {
        return Err(TopError::NoMemory);
    };
    let options = SerializeOptions::new();
    transcode_files(
        alloc,
        files,
        &paths,
        name.as_str(),
        InputTree::Owned(tree),
        0,
        &options,
    )
    .result
}

/// Transcodes a tree over the files of the number: file `gI.proto` imports the two before it and defines the message `GI`, which has a number,
/// a text and fields of the messages of those two. The summary has the lengths of the set, of the wire bytes and of the
/// tree's compact text. What is refused is told as of any other files.
pub fn transcode_generated(alloc: Global, number: u16) -> Result<String, TopError>
    ensures ok { IfOk result (λ line. Summarizes number (string_bytes line)) }
    ensures err { IfErr result (λ error. RefusesNumber number error) }
    ensures settled { IfErr result (λ error. (is_refusal error ≡ true) ⊎ (error ≡ top.NoMemory)) }
{
    let (Ok(files), Ok(tree)) = (GeneratedFiles::new(alloc, number), tree(alloc, number)) else {
        return Err(TopError::NoMemory);
    };
    let done = match transcode(alloc, number, files, tree) {
        Ok(done) => done,
        Err(error) => return Err(error),
    };
    // So its text is the compact one.
    canonical_is_plain();
    match summary(alloc, number, &done) {
        Ok(line) => Ok(line),
        Err(NoMemory) => Err(TopError::NoMemory),
    }
}
