//! Services and their methods.

ghost use Rattle.std.specs.Prelude.{◌≡◌, ◌++◌, [], ◌∷◌, map, OnOk};
ghost use Rattle.std.specs.List.{flat_map};
ghost use Rattle.pbx_parse_tree.specs.View.{type_of, method_end_of, method_of, service_item_of, service_of};
ghost use Rattle.pbx_parse_locations.specs.Locations.{type_part, last_of_method, method_locations, method_at, item_methods, numbered, service_locations};

use crate::field::{first_of_type, last_of_type};
use crate::place::{add, add_block, add_part, add_token, element, next};
use crate::tag;
use pbx_desc_records::Location;
use pbx_parse_token::Span;
use pbx_parse_tree::{Method, MethodEnd, Service, ServiceItem, TypeName};
use pbx_wire::{List, NoMemory};
use std::alloc::Global;

fn last_of_method(end: &MethodEnd<'_>) -> Span
    ensures { result ≡ last_of_method (method_end_of end.now) }
{
    match end {
        MethodEnd::Semicolon(span) => *span,
        MethodEnd::Block(_, _, close) => *close,
    }
}

/// Adds the name of a type as the field `field` of what has the path.
fn add_type(
    alloc: Global,
    out: &mut List<Location>,
    path: &List<i32>,
    field: u32,
    name: &TypeName<'_>,
) -> Result<(), NoMemory>
    ensures { OnOk result (out.new ≡ out.old ++ type_part path.now field (type_of name.now) ∷ []) }
{
    let first = first_of_type(name);
    add_part(alloc, out, path, field, first, last_of_type(name))
}

/// Adds a method and its parts.
fn add_method(
    alloc: Global,
    out: &mut List<Location>,
    path: &List<i32>,
    method: &Method<'_>,
) -> Result<(), NoMemory>
    ensures { OnOk result (out.new ≡ out.old ++ method_locations path.now (method_of method.now)) }
{
    let last = last_of_method(&method.end);
    let input = &method.input.name;
    let output = &method.output.name;
    add(alloc, out, path, method.keyword, last)?;
    add_token(alloc, out, path, tag::NAME, method.name.span)?;
    add_type(alloc, out, path, tag::method::INPUT_TYPE, input)?;
    add_type(alloc, out, path, tag::method::OUTPUT_TYPE, output)
}

fn add_methods(
    alloc: Global,
    out: &mut List<Location>,
    path: &List<i32>,
    items: &[ServiceItem<'_>],
) -> Result<(), NoMemory>
    ensures { OnOk result (out.new ≡ out.old ++ numbered (method_at path.now) 0 (flat_map item_methods (map service_item_of items.now))) }
{
    let mut index = 0;
    'each: for item in items {
        if let ServiceItem::Method(method) = item {
            let path = element(alloc, path, tag::service::METHOD, index)?;
            add_method(alloc, out, &path, method)?;
            index = next(index)?;
        }
    }
    Ok(())
}

/// Adds a service, its name and its methods.
pub fn add_service(
    alloc: Global,
    out: &mut List<Location>,
    path: &List<i32>,
    service: &Service<'_>,
) -> Result<(), NoMemory>
    ensures { OnOk result (out.new ≡ out.old ++ service_locations path.now (service_of service.now)) }
{
    add_block(
        alloc,
        out,
        path,
        service.keyword,
        service.name.span,
        service.close,
    )?;
    add_methods(alloc, out, path, service.items.as_slice())
}
