// Rules on the syntax, the edition and the names of a file.
ghost use Rattle.std.specs.Prelude.{◌≡◌, IfOk};
ghost use Rattle.pbx_link_definitions.specs.Names.{is_full_ident as is_full_ident_of};
ghost use Rattle.pbx_link_definitions.specs.Definitions.{name_place};
ghost use Rattle.pbx_link_definitions.specs.Places.{IsAmong, places_where};
ghost use Rattle.pbx_link_rules_record.specs.FileRules.{is_unknown_syntax as is_unknown_syntax_of, is_bad_package as is_bad_package_of, is_bad_name};
ghost use Rattle.pbx_link_rules_record.specs.FileRules.{unknown_syntax as unknown_syntax_of, bad_names as bad_names_of};

use crate::options::has_record;
use pbx_link_definitions::{Definition, FileParts, is_ident, place_at};
use pbx_wire::{List, NoMemory, Text};
use std::alloc::Global;

fn is_unknown_syntax(syntax: &Option<Text>) -> bool
    ensures { result ≡ is_unknown_syntax_of syntax.now }
{
    match syntax {
        Some(name) => !matches!(name.as_str(), "proto2" | "proto3"),
        None => false,
    }
}

/// A syntax of another name than `proto2` and `proto3`, or an edition, rule 3. The only error is want of memory.
pub fn unknown_syntax(alloc: Global, parts: &FileParts<'_>) -> Result<Option<List<i32>>, NoMemory>
    ensures { IfOk result (IsAmong (unknown_syntax_of parts.now)) }
{
    let file = parts.file();
    if is_unknown_syntax(&file.syntax) {
        return Ok(Some(place_at(alloc, &[], 12)?));
    }
    if has_record(&file.unknown, 14) {
        return Ok(Some(place_at(alloc, &[], 14)?));
    }
    Ok(None)
}

/// Whether the text is identifiers joined by dots.
fn is_full_ident(text: &str) -> bool
    ensures { result ≡ is_full_ident_of text.now }
{
    text.split('.').all(|part| is_ident(part))
}

fn is_bad_package(name: &Option<Text>) -> bool
    ensures { result ≡ is_bad_package_of name.now }
{
    match name {
        Some(name) => !is_full_ident(name.as_str()),
        None => false,
    }
}

/// The name of a definition that is missing or no identifier.
#[tactic(auto, using(crate::proofs::Walked::where_here, crate::proofs::Walked::where_next))]
fn bad_name(alloc: Global, definitions: &[Definition]) -> Result<Option<List<i32>>, NoMemory>
    ensures { IfOk result (IsAmong (places_where is_bad_name name_place definitions.now)) }
{
    for definition in definitions {
        if !is_ident(definition.name()) {
            return Ok(Some(place_at(alloc, definition.place(), 1)?));
        }
    }
    Ok(None)
}

/// A file without a name, a package that is not identifiers joined by dots, or a definition whose own name is no identifier, rule 4.
/// The only error is want of memory.
pub fn bad_names(alloc: Global, parts: &FileParts<'_>) -> Result<Option<List<i32>>, NoMemory>
    ensures { IfOk result (IsAmong (bad_names_of parts.now)) }
{
    let file = parts.file();
    if file.name.is_none() {
        return Ok(Some(place_at(alloc, &[], 1)?));
    }
    if is_bad_package(&file.package) {
        return Ok(Some(place_at(alloc, &[], 2)?));
    }
    bad_name(alloc, parts.definitions())
}
