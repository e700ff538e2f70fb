//! The locations of a file.

ghost use Rattle.std.specs.Prelude.{◌≡◌, ◌≤◌, ◌++◌, [], ◌∷◌, length, map, option_map, pos, IfOk, OnOk};
ghost use Rattle.std.specs.List.{flat_map};
ghost use Rattle.pbx_parse_token.specs.View.{tokens_of};
ghost use Rattle.pbx_parse_tree.specs.Tree as tree;
ghost use Rattle.pbx_parse_tree.specs.View.{syntax_of, top_of, file_of};
ghost use Rattle.pbx_parse_tree.specs.Conditions.{packages};
ghost use Rattle.pbx_parse_locations.specs.Locations.{extent_of, package_location, import_at, top_imports, message_at, top_messages, enum_at, top_enums, service_at, top_services, field_at, top_extensions, syntax_location, numbered, locations_in};
ghost use Rattle.pbx_parse_locations.specs.Ascends.{Ascends};

use crate::block::top_message;
use crate::count::location_count;
use crate::enumeration::add_enum;
use crate::field::add_extensions;
use crate::message::add_message;
use crate::place::{add, add_part, element, next};
use crate::service::add_service;
use crate::tag;
use pbx_desc_records::Location;
use pbx_parse_token::{Span, Token};
use pbx_parse_tree::{File, Syntax, Top};
use pbx_wire::{List, NoMemory};
use std::alloc::Global;

/// From the first token of a file to its last.
#[derive(Clone, Copy)]
pub struct Extent {
    pub from: Span,
    pub to: Span,
}

/// The extent of a file of these tokens, which is the first column where there is none.
pub fn file_extent(tokens: &[Token<'_>]) -> Extent
    ensures { result ≡ extent_of (tokens_of tokens.now) }
{
    match (tokens.first(), tokens.last()) {
        (Some(first), Some(last)) => Extent {
            from: first.span,
            to: last.span,
        },
        _ => {
            let start = Span {
                line: 0,
                from: 0,
                to: 0,
            };
            Extent {
                from: start,
                to: start,
            }
        }
    }
}

fn add_package(alloc: Global, out: &mut List<Location>, tops: &[Top<'_>]) -> Result<(), NoMemory>
    ensures { OnOk result (out.new ≡ out.old ++ flat_map package_location (map top_of tops.now)) }
{
    let file = List::new(alloc);
    'each: for top in tops {
        if let Top::Package(package) = top {
            let start = package.keyword;
            add_part(alloc, out, &file, tag::file::PACKAGE, start, package.end)?;
        }
    }
    Ok(())
}

fn add_imports(alloc: Global, out: &mut List<Location>, tops: &[Top<'_>]) -> Result<(), NoMemory>
    ensures { OnOk result (out.new ≡ out.old ++ numbered import_at 0 (flat_map top_imports (map top_of tops.now))) }
{
    let file = List::new(alloc);
    let mut index = 0;
    'each: for top in tops {
        if let Top::Import(import) = top {
            let path = element(alloc, &file, tag::file::DEPENDENCY, index)?;
            add(alloc, out, &path, import.keyword, import.end)?;
            index = next(index)?;
        }
    }
    Ok(())
}

fn add_messages(alloc: Global, out: &mut List<Location>, tops: &[Top<'_>]) -> Result<(), NoMemory>
    ensures { OnOk result (out.new ≡ out.old ++ numbered message_at 0 (flat_map top_messages (map top_of tops.now))) }
{
    let file = List::new(alloc);
    let mut index = 0;
    'each: for top in tops {
        if let Some(block) = top_message(top) {
            let path = element(alloc, &file, tag::file::MESSAGE_TYPE, index)?;
            add_message(alloc, out, &path, block)?;
            index = next(index)?;
        }
    }
    Ok(())
}

fn add_enums(alloc: Global, out: &mut List<Location>, tops: &[Top<'_>]) -> Result<(), NoMemory>
    ensures { OnOk result (out.new ≡ out.old ++ numbered (enum_at [] 5) 0 (flat_map top_enums (map top_of tops.now))) }
{
    let file = List::new(alloc);
    let mut index = 0;
    'each: for top in tops {
        if let Top::Enum(item) = top {
            let path = element(alloc, &file, tag::file::ENUM_TYPE, index)?;
            add_enum(alloc, out, &path, item)?;
            index = next(index)?;
        }
    }
    Ok(())
}

fn add_services(alloc: Global, out: &mut List<Location>, tops: &[Top<'_>]) -> Result<(), NoMemory>
    ensures { OnOk result (out.new ≡ out.old ++ numbered service_at 0 (flat_map top_services (map top_of tops.now))) }
{
    let file = List::new(alloc);
    let mut index = 0;
    'each: for top in tops {
        if let Top::Service(service) = top {
            let path = element(alloc, &file, tag::file::SERVICE, index)?;
            add_service(alloc, out, &path, service)?;
            index = next(index)?;
        }
    }
    Ok(())
}

fn add_extension_blocks(
    alloc: Global,
    out: &mut List<Location>,
    tops: &[Top<'_>],
) -> Result<(), NoMemory>
    ensures { OnOk result (out.new ≡ out.old ++ numbered (field_at [] 7) 0 (flat_map top_extensions (map top_of tops.now))) }
{
    let file = List::new(alloc);
    let mut index = 0;
    'each: for top in tops {
        if let Top::Extend(extend) = top {
            let extensions = extend.extensions.as_slice();
            index = add_extensions(alloc, out, &file, tag::file::EXTENSION, index, extensions)?;
        }
    }
    Ok(())
}

fn add_syntax(
    alloc: Global,
    out: &mut List<Location>,
    syntax: &Option<Syntax<'_>>,
) -> Result<(), NoMemory>
    ensures { OnOk result (out.new ≡ out.old ++ syntax_location (option_map syntax_of syntax.now)) }
{
    match syntax {
        Some(syntax) => add_part(
            alloc,
            out,
            &List::new(alloc),
            tag::file::SYNTAX,
            syntax.keyword,
            syntax.end,
        ),
        None => Ok(()),
    }
}

/// Adds the locations of what stands at the top of a file, its syntax statement left out.
fn add_tops(alloc: Global, out: &mut List<Location>, tops: &[Top<'_>]) -> Result<(), NoMemory>
    ensures { OnOk result (out.new ≡ out.old
        ++ flat_map package_location (map top_of tops.now)
        ++ numbered import_at 0 (flat_map top_imports (map top_of tops.now))
        ++ numbered message_at 0 (flat_map top_messages (map top_of tops.now))
        ++ numbered (enum_at [] 5) 0 (flat_map top_enums (map top_of tops.now))
        ++ numbered service_at 0 (flat_map top_services (map top_of tops.now))
        ++ numbered (field_at [] 7) 0 (flat_map top_extensions (map top_of tops.now))) }
{
    add_package(alloc, out, tops)?;
    add_imports(alloc, out, tops)?;
    add_messages(alloc, out, tops)?;
    add_enums(alloc, out, tops)?;
    add_services(alloc, out, tops)?;
    add_extension_blocks(alloc, out, tops)
}

fn tops_of<'a, 's>(file: &'a File<'s>) -> &'a [Top<'s>]
    ensures { result.now ≡ file.now.tops.items }
{
    file.tops.as_slice()
}

/// Adds the locations of a file.
fn add_file(
    alloc: Global,
    out: &mut List<Location>,
    whole: Extent,
    file: &File<'_>,
) -> Result<(), NoMemory>
    ensures { OnOk result (out.old ≡ [] → out.new ≡ locations_in whole (file_of file.now)) }
{
    add(alloc, out, &List::new(alloc), whole.from, whole.to)?;
    add_tops(alloc, out, tops_of(file))?;
    add_syntax(alloc, out, &file.syntax)
}

/// The locations of a file, by their paths, which are those of descriptor.proto. The only error is want of memory, for
/// which also stands a line, a column or an index that does not fit an `i32`: that takes a source of 2 GiB.
pub fn locations(alloc: Global, whole: Extent, file: &File<'_>) -> Result<List<Location>, NoMemory>
    ensures { IfOk result (λ ls. ls ≡ locations_in whole (file_of file.now)) }
{
    let mut out = List::with_capacity(alloc, location_count(file))?;
    match add_file(alloc, &mut out, whole, file) {
        Ok(()) => Ok(out),
        Err(error) => {
            drop(out);
            Err(error)
        }
    }
}

/// The locations of a file with at most one package, as each has that meets `Conditions`, ascend by path, each path once.
pub fn locations_ascend()
    ensures { (whole : Extent) (f : tree.File) → length (packages f.tops) ≤ 1 → Ascends (locations_in whole f) }
{}
