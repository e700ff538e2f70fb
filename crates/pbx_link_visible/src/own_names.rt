// The full names of a file's own messages, enums and services.
ghost use Rattle.std.specs.Prelude.{◌≡◌, ◌&&◌, ℕ, List as ListOf, Some, None, if◌then◌else◌, option_map, IfOk, OnOk};
ghost use Rattle.std.specs.List.{list_any};
ghost use Rattle.std.specs.Option.{option_or};
ghost use Rattle.std.specs.Str.{bytes_eq};
ghost use Rattle.std.specs.String.{string_bytes};
ghost use Rattle.std.specs.BTreeMap.{get_by_text};
ghost use Rattle.pbx_link_definitions.specs.Names.{qualified, text_or_empty as text_or_empty_of};
ghost use Rattle.pbx_link_definitions.specs.Definitions.{full_name, is_scope as is_scope_of, definitions};
ghost use Rattle.pbx_link_visible.specs.Names.{has_text, first_index, own_place, own_type as own_type_of, type_at_place, HasAddedNames};

use pbx_link_definitions::{Definition, FileParts, Named, Part, Sort, name_in};
use pbx_link_scope::Bound;
use pbx_wire::NoMemory;
use std::alloc::Global;
use std::collections::{BTreeMap, BTreeSet};

/// The full name of a name in its scope, as a key. The only error is want of memory.
fn name_key(alloc: Global, scope: &str, name: &str) -> Result<String, NoMemory>
    ensures { IfOk result (λ key. string_bytes key ≡ qualified scope.now name.now) }
{
    let full = name_in(alloc, scope, name)?;
    Ok(String::from_str(alloc, full.as_str())?)
}

/// Adds the sort and the index under the key, where the key is new. The only error is want of memory.
fn add_first(
    key: String,
    place: (Sort, usize),
    places: &mut BTreeMap<String, (Sort, usize)>,
) -> Result<(), NoMemory>
    ensures { OnOk result ((q : ListOf ℕ) →
        get_by_text places.new q ≡ option_or (get_by_text places.old q) (if bytes_eq (string_bytes key) q then Some place else None)) }
{
    places.entry(key)?.or_insert(place);
    Ok(())
}

/// Adds the full names of the parts that are new, each with the sort and the index of the first part that has it. The only error is want
/// of memory.
fn add_first_parts<T: Named>(
    alloc: Global,
    sort: Sort,
    parts: &[Part<'_, T>],
    places: &mut BTreeMap<String, (Sort, usize)>,
) -> Result<(), NoMemory>
    ensures { OnOk result ((q : ListOf ℕ) → get_by_text places.new q ≡ option_or (get_by_text places.old q)
        (option_map (λ i. (sort, i)) (first_index (λ p. bytes_eq (qualified p.scope (text_or_empty_of (T.name p.item))) q) 0 parts.now))) }
{
    for (index, part) in parts.iter().enumerate() {
        let key = name_key(alloc, part.scope(), part.item().own_name())?;
        add_first(key, (sort, index), places)?;
    }
    Ok(())
}

/// The full names of the file's own messages and enums, each with its sort and its index among those of its kind. A message is found
/// before an enum of its name. The only error is want of memory.
pub(crate) fn own_places(
    alloc: Global,
    parts: &FileParts<'_>,
) -> Result<BTreeMap<String, (Sort, usize)>, NoMemory>
    ensures { IfOk result (λ places. (q : ListOf ℕ) → get_by_text places q ≡ own_place parts.now q) }
{
    let mut places = BTreeMap::new(alloc);
    add_first_parts(alloc, Sort::Message, parts.messages(), &mut places)?;
    add_first_parts(alloc, Sort::Enum, parts.enums(), &mut places)?;
    Ok(places)
}

/// The message or the enum of the file at the index.
fn type_at<'b>(parts: &'b FileParts<'_>, sort: Sort, index: usize) -> Option<Bound<'b>>
    ensures { result ≡ type_at_place parts.now sort index }
{
    match sort {
        Sort::Message => match parts.messages().get(index) {
            Some(part) => Some(Bound::Message(part.as_ref())),
            None => None,
        },
        Sort::Enum => match parts.enums().get(index) {
            Some(part) => Some(Bound::Enum(part.as_ref())),
            None => None,
        },
        Sort::Field | Sort::Oneof | Sort::Value | Sort::Extension | Sort::Service | Sort::Method =>
            None,
    }
}

/// The first message of the file of exactly this full name, or else the first enum, by one search.
pub(crate) fn own_type<'b>(
    parts: &'b FileParts<'_>,
    places: &BTreeMap<String, (Sort, usize)>,
    name: &str,
) -> Option<Bound<'b>>
    requires { (q : ListOf ℕ) → get_by_text places.now q ≡ own_place parts.now q }
    ensures { result ≡ own_type_of parts.now name.now }
{
    match places.get(name) {
        Some(place) => type_at(parts, place.0, place.1),
        None => None,
    }
}

/// Adds the full name of the definition, if names may be looked up in what it defines.
fn add_scope(
    alloc: Global,
    definition: &Definition,
    names: &mut BTreeSet<String>,
) -> Result<(), NoMemory>
    ensures { OnOk result (HasAddedNames string_bytes
        (λ q. is_scope_of definition.now.sort && bytes_eq (full_name definition.now) q) names.old names.new) }
{
    if definition.sort().is_scope() {
        names.insert(name_key(alloc, definition.scope(), definition.name())?)?;
    }
    Ok(())
}

/// Adds the full names of the definitions in which names may be looked up.
fn add_scopes(
    alloc: Global,
    definitions: &[Definition],
    names: &mut BTreeSet<String>,
) -> Result<(), NoMemory>
    ensures { OnOk result (HasAddedNames string_bytes
        (λ q. list_any (λ d. is_scope_of d.sort && bytes_eq (full_name d) q) definitions.now) names.old names.new) }
{
    for definition in definitions {
        add_scope(alloc, definition, names)?;
    }
    Ok(())
}

/// The full names of the file's own messages, enums and services. The only error is want of memory.
pub(crate) fn scope_names(
    alloc: Global,
    parts: &FileParts<'_>,
) -> Result<BTreeSet<String>, NoMemory>
    ensures { IfOk result (λ names. (q : ListOf ℕ) →
        has_text string_bytes names q ≡ list_any (λ d. is_scope_of d.sort && bytes_eq (full_name d) q) (definitions parts.now)) }
{
    let mut names = BTreeSet::new(alloc);
    add_scopes(alloc, parts.definitions(), &mut names)?;
    Ok(names)
}
