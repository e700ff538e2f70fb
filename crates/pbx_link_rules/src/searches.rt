// The rules in order.
ghost use Rattle.std.specs.Prelude.{List as ListOf, IfOk};
ghost use Rattle.pbx_desc_records.specs.declared.file.FileDescriptorProto.{FileDescriptorProto as FileRecord};
ghost use Rattle.pbx_link_definitions.specs.Places.{IsAmong};
ghost use Rattle.pbx_link_scope.specs.Scope.{visible};
ghost use Rattle.pbx_link_rules.specs.Breaches.{bad_numbers as bad_numbers_of, bad_maps as bad_maps_of, IsFirstOf};

use crate::breach::Breach;
use crate::{file_twice, missing_imports, names_twice};
use pbx_link_definitions::FileParts;
use pbx_link_rules_field::{bad_field_numbers, bad_labels, bad_oneofs, bad_types};
use pbx_link_rules_record::{
    bad_entries, bad_enums, bad_names, bad_ranges, message_sets, uninterpreted_options,
    unknown_syntax,
};
use pbx_link_rules_scope::{bad_defaults, bad_extension_numbers, bad_map_fields, unbound_names};
use pbx_link_scope::{Pooled, Visible};
use pbx_wire::{List, NoMemory};
use std::alloc::Global;

/// A breach of the rules on the file's name, its imports and its syntax.
fn file_breach<P: Pooled>(
    alloc: Global,
    pool: &P,
    parts: &FileParts<'_>,
) -> Result<Option<Breach>, NoMemory>
    ensures { IfOk result (IsFirstOf (P.files pool.now) (visible (P.files pool.now) parts.now) parts.now 1 3) }
{
    let file = parts.file();
    if let Some(place) = file_twice(alloc, pool, file)? {
        return Ok(Some(Breach { rule: 1, place }));
    }
    if let Some(place) = missing_imports(alloc, pool, file)? {
        return Ok(Some(Breach { rule: 2, place }));
    }
    match unknown_syntax(alloc, parts)? {
        Some(place) => Ok(Some(Breach { rule: 3, place })),
        None => Ok(None),
    }
}

/// A breach of the rules on the names of definitions.
fn name_breach<P: Pooled>(
    alloc: Global,
    pool: &P,
    parts: &FileParts<'_>,
) -> Result<Option<Breach>, NoMemory>
    ensures { IfOk result (IsFirstOf (P.files pool.now) (visible (P.files pool.now) parts.now) parts.now 4 5) }
{
    if let Some(place) = bad_names(alloc, parts)? {
        return Ok(Some(Breach { rule: 4, place }));
    }
    match names_twice(alloc, pool, parts)? {
        Some(place) => Ok(Some(Breach { rule: 5, place })),
        None => Ok(None),
    }
}

/// The first breach of the rules 1 to 5, if there is one: those that do not ask what names in the file are bound to. Where there is none,
/// the full names that the pool and the file define are distinct. The only error is want of memory; an index above those of 31 bits is
/// refused likewise.
pub fn first_breach_alone<P: Pooled>(
    alloc: Global,
    pool: &P,
    parts: &FileParts<'_>,
) -> Result<Option<Breach>, NoMemory>
    ensures { IfOk result (IsFirstOf (P.files pool.now) (visible (P.files pool.now) parts.now) parts.now 1 5) }
{
    match file_breach(alloc, pool, parts)? {
        Some(breach) => Ok(Some(breach)),
        None => name_breach(alloc, pool, parts),
    }
}

/// A place at which rule 6 is broken, by a field or by an extension.
fn bad_numbers<P: Pooled, V: Visible>(
    alloc: Global,
    pool: &P,
    seen: &V,
    parts: &FileParts<'_>,
) -> Result<Option<List<i32>>, NoMemory>
    ensures { IfOk result (IsAmong (bad_numbers_of (P.files pool.now) (V.files seen.now) parts.now)) }
{
    match bad_field_numbers(alloc, parts)? {
        Some(place) => Ok(Some(place)),
        None => bad_extension_numbers(alloc, pool, seen, parts),
    }
}

/// A place at which rule 12 is broken, by an entry of a map or by a field.
fn bad_maps<V: Visible>(
    alloc: Global,
    seen: &V,
    parts: &FileParts<'_>,
) -> Result<Option<List<i32>>, NoMemory>
    ensures { IfOk result (IsAmong (bad_maps_of (V.files seen.now) parts.now)) }
{
    match bad_entries(alloc, parts)? {
        Some(place) => Ok(Some(place)),
        None => bad_map_fields(alloc, seen, parts),
    }
}

/// A breach of the rules on numbers, on what names are bound to, and on types.
fn type_breach<P: Pooled, V: Visible>(
    alloc: Global,
    pool: &P,
    seen: &V,
    parts: &FileParts<'_>,
) -> Result<Option<Breach>, NoMemory>
    ensures { IfOk result (IsFirstOf (P.files pool.now) (V.files seen.now) parts.now 6 8) }
{
    if let Some(place) = bad_numbers(alloc, pool, seen, parts)? {
        return Ok(Some(Breach { rule: 6, place }));
    }
    if let Some(place) = unbound_names(alloc, seen, parts)? {
        return Ok(Some(Breach { rule: 7, place }));
    }
    match bad_types(alloc, parts)? {
        Some(place) => Ok(Some(Breach { rule: 8, place })),
        None => Ok(None),
    }
}

/// A breach of the rules on oneofs, enums, defaults and maps.
fn value_breach<V: Visible>(
    alloc: Global,
    seen: &V,
    parts: &FileParts<'_>,
) -> Result<Option<Breach>, NoMemory>
    ensures { (files : ListOf FileRecord) → IfOk result (IsFirstOf files (V.files seen.now) parts.now 9 12) }
{
    if let Some(place) = bad_oneofs(alloc, parts)? {
        return Ok(Some(Breach { rule: 9, place }));
    }
    if let Some(place) = bad_enums(alloc, parts)? {
        return Ok(Some(Breach { rule: 10, place }));
    }
    if let Some(place) = bad_defaults(alloc, seen, parts)? {
        return Ok(Some(Breach { rule: 11, place }));
    }
    match bad_maps(alloc, seen, parts)? {
        Some(place) => Ok(Some(Breach { rule: 12, place })),
        None => Ok(None),
    }
}

/// A breach of the rules on labels, options and ranges.
fn option_breach(alloc: Global, parts: &FileParts<'_>) -> Result<Option<Breach>, NoMemory>
    ensures { (files seen : ListOf FileRecord) → IfOk result (IsFirstOf files seen parts.now 13 16) }
{
    if let Some(place) = bad_labels(alloc, parts)? {
        return Ok(Some(Breach { rule: 13, place }));
    }
    if let Some(place) = uninterpreted_options(alloc, parts)? {
        return Ok(Some(Breach { rule: 14, place }));
    }
    if let Some(place) = message_sets(alloc, parts)? {
        return Ok(Some(Breach { rule: 15, place }));
    }
    match bad_ranges(alloc, parts)? {
        Some(place) => Ok(Some(Breach { rule: 16, place })),
        None => Ok(None),
    }
}

/// The first breach of the rules 6 to 16, if there is one, by what names are bound to in the files that are seen. The only error is want
/// of memory; an index above those of 31 bits is refused likewise.
pub fn first_breach<P: Pooled, V: Visible>(
    alloc: Global,
    pool: &P,
    seen: &V,
    parts: &FileParts<'_>,
) -> Result<Option<Breach>, NoMemory>
    ensures { IfOk result (IsFirstOf (P.files pool.now) (V.files seen.now) parts.now 6 16) }
{
    if let Some(breach) = type_breach(alloc, pool, seen, parts)? {
        return Ok(Some(breach));
    }
    if let Some(breach) = value_breach(alloc, seen, parts)? {
        return Ok(Some(breach));
    }
    option_breach(alloc, parts)
}
