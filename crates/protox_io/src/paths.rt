//! What paths say of the names of files.

ghost use Rattle.std.specs.Prelude.{◌≡◌, Some, ℕ, List, IfOk, OnOk, option_map, string_bytes};
ghost use Rattle.std.specs.Io.BufRead.{ends_with_byte};
ghost use Rattle.protox_io.specs.Paths.{components};
ghost use Rattle.protox_io.specs.FileNames.{name_of, escapes, path_equal, stripped, joined};
ghost use Rattle.protox_io.specs.Laws.{NamesNameThemselves, ResolvedStandBelow};
ghost use Rattle.protox_io.specs.Left.{with_part, named_so_far};

use crate::components::{Components, Part, same_part, starts_with_dot, starts_with_slash};
use pbx_wire::{NoMemory, Text};
use std::alloc::Global;

/// The name under which the file at a path is imported: its components joined by `/`. It is None where there is none, and
/// where one of them is a root, a leading `.` or a `..`. `NoMemory` comes for want of memory alone.
pub fn path_to_file_name(alloc: Global, path: &str) -> Result<Option<Text>, NoMemory>
    ensures { IfOk result (λ name. name ≡ name_of path.now) }
{
    if starts_with_dot(path) {
        return Ok(None);
    }
    let mut parts = Components::new(path);
    let mut name = String::new(alloc);
    'parts: loop {
        match parts.next() {
            Some(Part::Named(part)) => add_part(&mut name, part)?,
            Some(Part::Root) => return Ok(None),
            Some(Part::Parent) => return Ok(None),
            None => return finish(alloc, name.as_str()),
        }
    }
}

/// Whether a name leaves the folder in which its file is looked up: one of its components is a root or a `..`; it takes no
/// memory.
pub fn escapes(name: &str) -> bool
    ensures { result ≡ escapes name.now }
{
    let mut parts = Components::new(name);
    'parts: loop {
        match parts.next() {
            Some(Part::Root | Part::Parent) => return true,
            Some(Part::Named(_)) => {}
            None => return false,
        }
    }
}

/// Whether two paths have the same components, without `.`; it takes no memory.
pub fn path_eq(left: &str, right: &str) -> bool
    ensures { result ≡ path_equal left.now right.now }
{
    let mut left = Components::new(left);
    let mut right = Components::new(right);
    'parts: loop {
        match (left.next(), right.next()) {
            (None, None) => return true,
            (Some(a), Some(b)) => {
                if !same_part(a, b) {
                    return false;
                }
            }
            (None, Some(_)) => return false,
            (Some(_), None) => return false,
        }
    }
}

/// What stands in a path behind a folder, as a text whose components these are: the last bytes of the path, which may be
/// none. It is None where the path does not begin with the components of the folder, without `.`; it takes no memory.
pub fn strip_prefix<'a>(path: &'a str, folder: &str) -> Option<&'a str>
    ensures { option_map (λ rest. components rest.now) result ≡ stripped path.now folder.now }
{
    let mut path = Components::new(path);
    let mut folder = Components::new(folder);
    'parts: loop {
        match folder.next() {
            None => return Some(path.as_text()),
            Some(wanted) => match path.next() {
                None => return None,
                Some(part) => {
                    if !same_part(part, wanted) {
                        return None;
                    }
                }
            },
        }
    }
}

/// The path of a name in a folder: the name alone where it begins with `/` or the folder is empty, and else the folder, a
/// `/` unless the folder ends in one, and the name. `NoMemory` comes for want of memory alone.
pub fn join_path(alloc: Global, folder: &str, name: &str) -> Result<Text, NoMemory>
    ensures { IfOk result (λ path. path ≡ joined folder.now name.now) }
{
    if starts_with_slash(name) {
        return Text::from_str(alloc, name);
    }
    let mut path = String::from_str(alloc, folder)?;
    if !folder.is_empty() && !has_last_slash(folder) {
        path.push_str("/")?;
    }
    path.push_str(name)?;
    Text::from_str(alloc, path.as_str())
}

/// The file name of a name that is the file name of some path is that name.
pub fn names_name_themselves()
    ensures { NamesNameThemselves }
{}

/// A path that a folder resolves has the folder's components followed by those of the name, without `.`.
pub fn resolved_stand_below()
    ensures { ResolvedStandBelow }
{}

fn has_last_slash(folder: &str) -> bool
    ensures { result ≡ ends_with_byte 47 folder.now }
{
    let bytes = folder.as_bytes();
    if bytes.is_empty() {
        return false;
    }
    bytes[bytes.len() - 1] == b'/'
}

fn add_part(name: &mut String, part: &str) -> Result<(), NoMemory>
    ensures { OnOk result (string_bytes name.new ≡ with_part (string_bytes name.old) part.now) }
{
    if !name.is_empty() {
        name.push_str("/")?;
    }
    name.push_str(part)?;
    Ok(())
}

/// The name, unless it is empty.
fn finish(alloc: Global, name: &str) -> Result<Option<Text>, NoMemory>
    ensures { IfOk result (λ it. it ≡ named_so_far name.now) }
{
    if name.is_empty() {
        return Ok(None);
    }
    Ok(Some(Text::from_str(alloc, name)?))
}
