//! The errors of opening and importing.

ghost use Rattle.std.specs.Prelude.{◌≡◌, ◌∷◌, ◌++◌, reverse, IfOk, None, string_bytes};
ghost use Rattle.std.specs.List.{concat};
ghost use Rattle.protox_file_error.specs.Errors.{IsWhole};
ghost use Rattle.protox_file_error.specs.declared.error.ErrorKind.{ErrorKind};
ghost use Rattle.protox_compile_walk.specs.Places.{place_of_import};
ghost use Rattle.protox_compile_walk.specs.Walk.{chain_text, arrows_before, declared_name};
ghost use Rattle.protox_compile_walk.specs.Resume.{names_of};
ghost use Rattle.protox_compile_walk.specs.Refusals.{OrNoMemory, IsToldBy, is_absent};

use crate::frame::Frame;
use crate::stack::Stack;
use pbx_wire::{NoMemory, Text};
use protox_file_sources::{Error, ErrorKind, File};
use std::alloc::Global;

/// An index as an error holds it; past that it counts as want of memory.
fn index_of(index: usize) -> Result<u32, NoMemory>
    ensures { IfOk result (λ it. it ≡ index) }
{
    if index > u32::MAX as usize {
        return Err(NoMemory);
    }
    Ok(index as u32)
}

/// Names behind one another, with arrows between them.
fn join_chain(alloc: Global, names: &[Text]) -> Result<Text, NoMemory>
    ensures { IfOk result (λ text. text ≡ chain_text names.now) }
{
    match names.split_first() {
        Some((first, rest)) => {
            let text = with_arrows(String::from_str(alloc, first.as_str())?, rest)?;
            Text::from_str(alloc, text.as_str())
        }
        None => Text::from_str(alloc, ""),
    }
}

/// A text with names behind it, an arrow before each.
fn with_arrows(front: String, names: &[Text]) -> Result<String, NoMemory>
    ensures { IfOk result (λ text. string_bytes text ≡ string_bytes front ++ concat (arrows_before names.now)) }
{
    let mut text = front;
    for name in names {
        text.push_str(" -> ")?;
        text.push_str(name.as_str())?;
    }
    Ok(text)
}

/// The names of the open files, the outermost first, and the name that closes the circle.
fn cycle_of(alloc: Global, parents: &Stack, current: &Frame, name: &str) -> Result<Text, NoMemory>
    ensures { IfOk result (λ cycle. cycle ≡ chain_text (reverse (name.now ∷ names_of (current.now ∷ parents.now)))) }
{
    let mut cycle = parents.names(alloc)?;
    cycle.add(Text::from_str(alloc, current.name())?)?;
    cycle.add(Text::from_str(alloc, name)?)?;
    join_chain(alloc, cycle.as_slice())
}

/// The error of a kind, or want of memory where there was none for the kind.
fn error_of(made: Result<ErrorKind, NoMemory>) -> Error
    requires { IfOk made IsWhole }
    ensures { (kind : ErrorKind) → IfOk made (λ it. it ≡ kind) → OrNoMemory result kind }
{
    match made {
        Ok(kind) => Error::from_kind(kind),
        Err(NoMemory) => Error::from(NoMemory),
    }
}

fn try_duplicate(alloc: Global, current: &Frame, name: &str) -> Result<ErrorKind, NoMemory>
    ensures { IfOk result (λ e. e ≡ ErrorKind.DuplicateImport current.now.name current.now.next (place_of_import current.now.entry current.now.next) name.now) }
{
    Ok(ErrorKind::DuplicateImport {
        file: Text::from_str(alloc, current.name())?,
        index: index_of(current.next())?,
        place: current.place(),
        name: Text::from_str(alloc, name)?,
    })
}

pub(crate) fn duplicate(alloc: Global, current: &Frame, name: &str) -> Error
    ensures { OrNoMemory result (ErrorKind.DuplicateImport current.now.name current.now.next (place_of_import current.now.entry current.now.next) name.now) }
{
    error_of(try_duplicate(alloc, current, name))
}

fn try_circular(
    alloc: Global,
    parents: &Stack,
    current: &Frame,
    name: &str,
) -> Result<ErrorKind, NoMemory>
    ensures { IfOk result (λ e. e ≡ ErrorKind.CircularImport name.now (chain_text (reverse (name.now ∷ names_of (current.now ∷ parents.now))))) }
{
    Ok(ErrorKind::CircularImport {
        name: Text::from_str(alloc, name)?,
        cycle: cycle_of(alloc, parents, current, name)?,
    })
}

pub(crate) fn circular(alloc: Global, parents: &Stack, current: &Frame, name: &str) -> Error
    ensures { OrNoMemory result (ErrorKind.CircularImport name.now (chain_text (reverse (name.now ∷ names_of (current.now ∷ parents.now))))) }
{
    error_of(try_circular(alloc, parents, current, name))
}

fn try_import_not_found(alloc: Global, current: &Frame, name: &str) -> Result<ErrorKind, NoMemory>
    ensures { IfOk result (λ e. e ≡ ErrorKind.ImportNotFound current.now.name current.now.next (place_of_import current.now.entry current.now.next) name.now) }
{
    Ok(ErrorKind::ImportNotFound {
        file: Text::from_str(alloc, current.name())?,
        index: index_of(current.next())?,
        place: current.place(),
        name: Text::from_str(alloc, name)?,
    })
}

fn import_not_found(alloc: Global, current: &Frame, name: &str) -> Error
    ensures { OrNoMemory result (ErrorKind.ImportNotFound current.now.name current.now.next (place_of_import current.now.entry current.now.next) name.now) }
{
    error_of(try_import_not_found(alloc, current, name))
}

fn try_escaping(alloc: Global, current: &Frame, name: &str) -> Result<ErrorKind, NoMemory>
    ensures { IfOk result (λ e. e ≡ ErrorKind.ImportEscapes current.now.name current.now.next (place_of_import current.now.entry current.now.next) name.now) }
{
    Ok(ErrorKind::ImportEscapes {
        file: Text::from_str(alloc, current.name())?,
        index: index_of(current.next())?,
        place: current.place(),
        name: Text::from_str(alloc, name)?,
    })
}

pub(crate) fn escaping(alloc: Global, current: &Frame, name: &str) -> Error
    ensures { OrNoMemory result (ErrorKind.ImportEscapes current.now.name current.now.next (place_of_import current.now.entry current.now.next) name.now) }
{
    error_of(try_escaping(alloc, current, name))
}

fn is_absent(error: &Error) -> bool
    ensures { result ≡ is_absent error.now }
{
    matches!(error.kind(), ErrorKind::FileNotFound { .. })
}

/// The error of an import whose opening gave an error.
pub(crate) fn import_error(alloc: Global, current: &Frame, name: &str, error: Error) -> Error
    ensures { IsToldBy (ErrorKind.ImportNotFound current.now.name current.now.next (place_of_import current.now.entry current.now.next) name.now) error result }
{
    if is_absent(&error) {
        return import_not_found(alloc, current, name);
    }
    error
}

pub(crate) fn not_included(alloc: Global, path: &str) -> Error
    ensures { OrNoMemory result (ErrorKind.FileNotIncluded path.now) }
{
    match Text::from_str(alloc, path) {
        Ok(path) => Error::from_kind(ErrorKind::FileNotIncluded { path }),
        Err(NoMemory) => Error::from(NoMemory),
    }
}

/// The error of a root whose opening gave an error.
pub(crate) fn root_error(alloc: Global, path: &str, error: Error) -> Error
    ensures { IsToldBy (ErrorKind.FileNotIncluded path.now) error result }
{
    if is_absent(&error) {
        return not_included(alloc, path);
    }
    error
}

fn try_shadowed(alloc: Global, name: &str, path: &str, shadow: &str) -> Result<ErrorKind, NoMemory>
    ensures { IfOk result (λ e. e ≡ ErrorKind.FileShadowed name.now path.now shadow.now) }
{
    Ok(ErrorKind::FileShadowed {
        name: Text::from_str(alloc, name)?,
        path: Text::from_str(alloc, path)?,
        shadow: Text::from_str(alloc, shadow)?,
    })
}

pub(crate) fn shadowed(alloc: Global, name: &str, path: &str, shadow: &str) -> Error
    ensures { OrNoMemory result (ErrorKind.FileShadowed name.now path.now shadow.now) }
{
    error_of(try_shadowed(alloc, name, path, shadow))
}

fn try_mismatch(alloc: Global, name: &str, file: &File) -> Result<ErrorKind, NoMemory>
    ensures { IfOk result (λ e. e ≡ ErrorKind.NameMismatch name.now (declared_name file.now)) }
{
    Ok(ErrorKind::NameMismatch {
        asked: Text::from_str(alloc, name)?,
        declared: Text::from_str(alloc, file.name())?,
    })
}

pub(crate) fn mismatch(alloc: Global, name: &str, file: &File) -> Error
    ensures { OrNoMemory result (ErrorKind.NameMismatch name.now (declared_name file.now)) }
{
    error_of(try_mismatch(alloc, name, file))
}

pub(crate) fn too_many(limit: u32) -> Error
    ensures { result ≡ ErrorKind.FileLimit limit }
{
    Error::from_kind(ErrorKind::FileLimit { limit })
}
