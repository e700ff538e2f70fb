// The name of a file and its imports (`descriptor.proto`: FileDescriptorProto.name, dependency, public_dependency and weak_dependency).
ghost use Rattle.std.specs.Prelude.{◌≡◌, not, is_some, is_none, position, IfOk};
ghost use Rattle.pbx_link_definitions.specs.Places.{IsAmong};
ghost use Rattle.pbx_link_scope.specs.Scope.{item_at};
ghost use Rattle.pbx_link_scope.specs.Pooled.{has_file as has_file_of};
ghost use Rattle.pbx_link_rules.specs.Rules.{missing_files, bad_indexes};
ghost use Rattle.pbx_link_rules.specs.Rules.{file_twice as file_twice_of, missing_imports as missing_imports_of};

use pbx_desc_records::FileDescriptorProto;
use pbx_link_definitions::{place_at, place_in};
use pbx_link_scope::Pooled;
use pbx_wire::{List, NoMemory, Text};
use std::alloc::Global;

/// A path of field numbers of `descriptor.proto` and of indexes.
pub(crate) type Place = List<i32>;

/// Whether a file of the pool has this name.
fn has_file<P: Pooled>(pool: &P, name: &str) -> bool
    ensures { result ≡ has_file_of (P.files pool.now) name.now }
{
    pool.file_index(name).is_some()
}

/// A place at which rule 1 is broken, if there is one: a file of the pool has the name of the file. The only error is want of memory.
pub(crate) fn file_twice<P: Pooled>(
    alloc: Global,
    pool: &P,
    file: &FileDescriptorProto,
) -> Result<Option<Place>, NoMemory>
    ensures { IfOk result (IsAmong (file_twice_of (P.files pool.now) file.now)) }
{
    match &file.name {
        Some(name) if has_file(pool, name.as_str()) => Ok(Some(place_at(alloc, &[], 1)?)),
        _ => Ok(None),
    }
}

/// The index of the first name that no file of the pool has.
fn missing_file<P: Pooled>(pool: &P, names: &[Text]) -> Option<usize>
    ensures { result ≡ position (λ name. not (has_file_of (P.files pool.now) name)) names.now }
{
    names.iter().position(|name| !has_file(pool, name.as_str()))
}

/// Whether the number is the index of one of the names.
fn is_index(names: &[Text], number: i32) -> bool
    ensures { result ≡ is_some (item_at names.now number) }
{
    match usize::try_from(number) {
        Ok(index) => index < names.len(),
        Err(_) => false,
    }
}

/// The index of the first number that is no index of a name.
fn no_index(names: &[Text], numbers: &[i32]) -> Option<usize>
    ensures { result ≡ position (λ number. is_none (item_at names.now number)) numbers.now }
{
    numbers.iter().position(|number| !is_index(names, *number))
}

fn missing_dependency<P: Pooled>(
    alloc: Global,
    pool: &P,
    names: &[Text],
) -> Result<Option<Place>, NoMemory>
    ensures { IfOk result (IsAmong (missing_files (P.files pool.now) names.now)) }
{
    match missing_file(pool, names) {
        Some(index) => Ok(Some(place_in(alloc, &[], 3, index)?)),
        None => Ok(None),
    }
}

/// The place of the first number in the list, the field of this number, that is no index of a name.
fn bad_index(
    alloc: Global,
    names: &[Text],
    list: u8,
    numbers: &[i32],
) -> Result<Option<Place>, NoMemory>
    ensures { IfOk result (IsAmong (bad_indexes names.now list numbers.now)) }
{
    match no_index(names, numbers) {
        Some(index) => Ok(Some(place_in(alloc, &[], list, index)?)),
        None => Ok(None),
    }
}

/// A place at which rule 2 is broken, if there is one: a dependency is no file of the pool, or the index of a public or a weak
/// dependency is no index of a dependency. The only error is want of memory; an index above those of 31 bits is refused likewise.
pub(crate) fn missing_imports<P: Pooled>(
    alloc: Global,
    pool: &P,
    file: &FileDescriptorProto,
) -> Result<Option<Place>, NoMemory>
    ensures { IfOk result (IsAmong (missing_imports_of (P.files pool.now) file.now)) }
{
    let names = file.dependency.as_slice();
    if let Some(place) = missing_dependency(alloc, pool, names)? {
        return Ok(Some(place));
    }
    if let Some(place) = bad_index(alloc, names, 10, file.public_dependency.as_slice())? {
        return Ok(Some(place));
    }
    bad_index(alloc, names, 11, file.weak_dependency.as_slice())
}
