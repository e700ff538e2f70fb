// Full names that are defined twice (language guide: "Packages and Name Resolution").
ghost use Rattle.std.specs.Prelude.{◌≡◌, ◌||◌, map, position, IfOk};
ghost use Rattle.pbx_link_definitions.specs.Definitions.{full_name};
ghost use Rattle.std.specs.Str.{bytes_eq};
ghost use Rattle.pbx_link_definitions.specs.Names.{among};
ghost use Rattle.pbx_link_definitions.specs.Places.{IsAmong};
ghost use Rattle.pbx_link_definitions.specs.Found.{IsIndex, is_earlier};
ghost use Rattle.pbx_link_rules.specs.Rules.{taken_names, definitions_twice, names_twice as names_twice_of};

use crate::imports::Place;
use crate::packages::{is_defined, is_defined_package, is_in_package};
use pbx_desc_records::FileDescriptorProto;
use pbx_link_definitions::{Definition, FileParts, name_in, place_at};
use pbx_link_scope::Pooled;
use pbx_wire::{List, NoMemory, Text};
use std::alloc::Global;
use std::collections::BTreeSet;

/// The full names of the definitions.
fn full_names(alloc: Global, definitions: &[Definition]) -> Result<List<Text>, NoMemory>
    ensures { IfOk result (λ names. names ≡ map full_name definitions.now) }
{
    let mut names = List::with_capacity(alloc, definitions.len())?;
    for definition in definitions {
        names.add(name_in(alloc, definition.scope(), definition.name())?)?;
    }
    Ok(names)
}

/// Whether a definition of the pool has this full name, or a package of the pool or of the file has it or begins with it.
fn is_taken<P: Pooled>(pool: &P, file: &FileDescriptorProto, name: &str) -> bool
    ensures { result ≡ among (taken_names (P.files pool.now) file.now) name.now }
{
    is_defined(pool, name) || is_in_package(&file.package, name) || pool.is_package(name)
}

/// The index of the first name that is taken.
fn taken_name<P: Pooled>(pool: &P, file: &FileDescriptorProto, names: &[Text]) -> Option<usize>
    ensures { result ≡ position (among (taken_names (P.files pool.now) file.now)) names.now }
{
    names
        .iter()
        .position(|name| is_taken(pool, file, name.as_str()))
}

/// The index of the first name that an earlier one equals.
fn repeated_name(alloc: Global, names: &[Text]) -> Result<Option<usize>, NoMemory>
    ensures { IfOk result (IsIndex (is_earlier bytes_eq names.now) names.now) }
{
    let mut seen = BTreeSet::new(alloc);
    for (index, name) in names.iter().enumerate() {
        if !seen.insert(name.as_str())? {
            return Ok(Some(index));
        }
    }
    Ok(None)
}

/// The index of a name that is taken, or that an earlier one equals.
fn name_twice<P: Pooled>(
    alloc: Global,
    pool: &P,
    file: &FileDescriptorProto,
    names: &[Text],
) -> Result<Option<usize>, NoMemory>
    ensures { IfOk result (IsIndex (λ i name. among (taken_names (P.files pool.now) file.now) name || is_earlier bytes_eq names.now i name) names.now) }
{
    match taken_name(pool, file, names) {
        Some(index) => Ok(Some(index)),
        None => repeated_name(alloc, names),
    }
}

/// The place of the name of a definition whose full name is taken or is that of an earlier one.
fn definition_twice<P: Pooled>(
    alloc: Global,
    pool: &P,
    parts: &FileParts<'_>,
) -> Result<Option<Place>, NoMemory>
    ensures { IfOk result (IsAmong (definitions_twice (P.files pool.now) parts.now)) }
{
    let definitions = parts.definitions();
    let names = full_names(alloc, definitions)?;
    match name_twice(alloc, pool, parts.file(), names.as_slice())? {
        Some(index) => Ok(Some(place_at(alloc, definitions[index].place(), 1)?)),
        None => Ok(None),
    }
}

/// A place at which rule 5 is broken, if there is one: the package or a name of whole parts that it begins with is the full name of a
/// definition of the pool; or the full name of a definition is that of one of the pool or of an earlier one of the file, or is a package
/// of the pool or of the file or what its name begins with (language guide: "Packages and Name Resolution"). The only error is want of
/// memory; an index above those of 31 bits is refused likewise.
pub(crate) fn names_twice<P: Pooled>(
    alloc: Global,
    pool: &P,
    parts: &FileParts<'_>,
) -> Result<Option<Place>, NoMemory>
    ensures { IfOk result (IsAmong (names_twice_of (P.files pool.now) parts.now)) }
{
    if is_defined_package(pool, &parts.file().package) {
        return Ok(Some(place_at(alloc, &[], 2)?));
    }
    definition_twice(alloc, pool, parts)
}
