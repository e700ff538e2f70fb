//! Fields, extensions, members of oneofs and map fields.

ghost use Rattle.std.specs.Prelude.{◌≡◌, ◌++◌, [], ◌∷◌, option_map, map, pos, IfOk, OnOk};
ghost use Rattle.std.specs.List.{flat_map};
ghost use Rattle.pbx_parse_tree.specs.View.{type_of as view_of_type, settings_of, kind_of, tail_of, field_of, map_of, member_of, extension_of};
ghost use Rattle.pbx_parse_locations.specs.Locations.{first_of_type, last_of_type, settings_part, type_of_kind, type_field, parts_of_field, parts_of_map, member_parts, extension_parts, field_locations, field_at, Adds};

use crate::place::{add, add_part, add_token, element, next};
use crate::tag;
use pbx_desc_records::Location;
use pbx_parse_token::Span;
use pbx_parse_tree::{Extension, Field, Kind, MapField, Member, Settings, Tail, TypeName};
use pbx_wire::{List, NoMemory};
use std::alloc::Global;

/// The type of a field.
#[derive(Clone, Copy)]
pub struct Typed {
    /// Whether it is the name of a type or `map<..>`, and no scalar type.
    pub is_named: bool,

    /// Its first token.
    pub first: Span,
    /// Its last token.
    pub last: Span,
}

/// The first token of the name of a type.
pub fn first_of_type(name: &TypeName<'_>) -> Span
    ensures { result ≡ first_of_type (view_of_type name.now) }
{
    name.dot.unwrap_or(name.full.first.span)
}

/// The last token of the name of a type.
pub fn last_of_type(name: &TypeName<'_>) -> Span
    ensures { result ≡ last_of_type (view_of_type name.now) }
{
    match name.full.more.last() {
        Some((_, last)) => last.span,
        None => name.full.first.span,
    }
}

/// Adds options, if there are some, as the field `field` of what has the path.
pub fn add_settings(
    alloc: Global,
    out: &mut List<Location>,
    path: &List<i32>,
    field: u32,
    settings: &Option<Settings<'_>>,
) -> Result<(), NoMemory>
    ensures { OnOk result (out.new ≡ out.old ++ settings_part path.now field (option_map settings_of settings.now)) }
{
    match settings {
        Some(settings) => add_part(alloc, out, path, field, settings.open, settings.close),
        None => Ok(()),
    }
}

fn type_of_kind(kind: &Kind<'_>) -> Typed
    ensures { result ≡ type_of_kind (kind_of kind.now) }
{
    match kind {
        Kind::Scalar(_, span) => Typed {
            is_named: false,
            first: *span,
            last: *span,
        },
        Kind::Named(name) => Typed {
            is_named: true,
            first: first_of_type(name),
            last: last_of_type(name),
        },
    }
}

/// The field of `FieldDescriptorProto` that has the type.
fn type_field(typed: Typed) -> u32
    ensures { result ≡ type_field typed }
{
    if typed.is_named {
        tag::field::TYPE_NAME
    } else {
        tag::field::TYPE
    }
}

/// Adds a field, or what is like one, and its parts.
pub fn add_field(
    alloc: Global,
    out: &mut List<Location>,
    path: &List<i32>,
    label: Option<Span>,
    typed: Typed,
    tail: &Tail<'_>,
) -> Result<(), NoMemory>
    ensures { OnOk result (out.new ≡ out.old ++ field_locations path.now (record { label = label; typed = typed; tail = tail_of tail.now })) }
{
    add(alloc, out, path, label.unwrap_or(typed.first), tail.end)?;
    add_token(alloc, out, path, tag::NAME, tail.name.span)?;
    add_token(alloc, out, path, tag::field::NUMBER, tail.number.span)?;
    if let Some(label) = label {
        add_token(alloc, out, path, tag::field::LABEL, label)?;
    }
    add_part(alloc, out, path, type_field(typed), typed.first, typed.last)?;
    add_settings(alloc, out, path, tag::field::OPTIONS, &tail.settings)
}

/// Adds a field of a message or an `extend` block, and its parts.
pub fn add_labelled(
    alloc: Global,
    out: &mut List<Location>,
    path: &List<i32>,
    field: &Field<'_>,
) -> Result<(), NoMemory>
    ensures { OnOk result (out.new ≡ out.old ++ field_locations path.now (parts_of_field (field_of field.now))) }
{
    let label = field.label.map(|label| label.1);
    add_field(
        alloc,
        out,
        path,
        label,
        type_of_kind(&field.kind),
        &field.tail,
    )
}

/// Adds a map field and its parts. Its type is from `map` to `>`.
pub fn add_map(
    alloc: Global,
    out: &mut List<Location>,
    path: &List<i32>,
    map: &MapField<'_>,
) -> Result<(), NoMemory>
    ensures { OnOk result (out.new ≡ out.old ++ field_locations path.now (parts_of_map (map_of map.now))) }
{
    let typed = Typed {
        is_named: true,
        first: map.keyword,
        last: map.close,
    };
    add_field(alloc, out, path, None, typed, &map.tail)
}

/// Adds the members of a oneof as fields of a message, the first of them at `first`, and answers the index behind
/// the last.
pub fn add_members(
    alloc: Global,
    out: &mut List<Location>,
    path: &List<i32>,
    first: u32,
    members: &[Member<'_>],
) -> Result<u32, NoMemory>
    ensures { IfOk result (λ next. Adds (field_at path.now 2) (flat_map member_parts (map member_of members.now)) first next out.old out.new) }
{
    let mut index = first;
    'each: for member in members {
        if let Member::Field(kind, tail) = member {
            let path = element(alloc, path, tag::message::FIELD, index)?;
            add_field(alloc, out, &path, None, type_of_kind(kind), tail)?;
            index = next(index)?;
        }
    }
    Ok(index)
}

/// Adds the fields of an `extend` block as elements of the repeated field `field`, the first of them at `first`, and
/// answers the index behind the last.
pub fn add_extensions(
    alloc: Global,
    out: &mut List<Location>,
    path: &List<i32>,
    field: u32,
    first: u32,
    extensions: &[Extension<'_>],
) -> Result<u32, NoMemory>
    ensures { IfOk result (λ next. Adds (field_at path.now field) (flat_map extension_parts (map extension_of extensions.now)) first next out.old out.new) }
{
    let mut index = first;
    'each: for extension in extensions {
        if let Extension::Field(extension) = extension {
            let path = element(alloc, path, field, index)?;
            add_labelled(alloc, out, &path, extension)?;
            index = next(index)?;
        }
    }
    Ok(index)
}
