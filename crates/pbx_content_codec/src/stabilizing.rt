ghost use Rattle.std.specs.Prelude.{◌≡◌, true, Some, map, option_map, IfSome, IfNone, IfOk, OnOk};
ghost use Rattle.pbx_content.specs.declared.shape.Shape.{Shape};
ghost use Rattle.pbx_content.specs.Content.{empty, no_fields, fields as fields_of_content, with_option, with_fields};
ghost use Rattle.pbx_content.specs.Shape.{field_of, fields_of};
ghost use Rattle.pbx_content.specs.Onto.{message_held};
ghost use Rattle.pbx_content.specs.Sound.{IsProper};
ghost use Rattle.pbx_content_map.specs.Entries.{IsAscending};
ghost use Rattle.pbx_content_codec.specs.View.{content_of, val_of, entry_of, fields_in};
ghost use Rattle.pbx_content_codec.specs.Fields.{field_like};
ghost use Rattle.pbx_content_codec.specs.Stability.{stabilized_at, stabilized_by, HasStable, IsStableAt, IsStableTo, IsStabilizedFrom, IsStabilizedUnless};

use crate::contents::{Contents, Held};
use crate::defaults::unless_default;
use crate::fields::{FieldView, Owner, is_float, view_in};
use crate::pairs::{are_in_order, by_key, pairs_held};
use crate::scalars::list_held;
use pbx_content::{Cardinality, Kind, Schema};
use pbx_content_map::NumberMap;
use pbx_wire::NoMemory;
use std::alloc::Global;
use std::mem::replace;

// ---- contents that are stable already

/// Whether the values of a list, or the pairs of a map, are as they are read.
fn is_stable_value(view: FieldView, held: &Held) -> bool
    ensures { result ≡ true → (shape : Shape) → stabilized_by shape (field_like view) view.cardinality (Some (val_of held.now)) ≡ Some (val_of held.now) }
{
    match view.cardinality {
        Cardinality::Singular => true,
        Cardinality::Repeated => match held {
            Held::Many(many) => !many.is_empty(),
            _ => false,
        },
        Cardinality::Map(_) => match held {
            Held::Pairs(pairs) => !pairs.is_empty() && are_in_order(pairs.as_slice()),
            _ => false,
        },
    }
}

/// The message that a value is.
fn message_in(held: &Held) -> Option<&Contents>
    ensures message { IfSome result (λ contents. message_held (Some (val_of held.now)) ≡ content_of contents.now) }
    ensures none { IfNone result (message_held (Some (val_of held.now)) ≡ empty) }
{
    match held {
        Held::Message(contents) => Some(contents),
        _ => None,
    }
}

/// Whether the message that the value of a field is, is stable, to so many levels.
#[cycle(stable)]
fn has_stable_message(schema: &Schema, view: FieldView, held: &Held, levels: usize) -> bool
    requires { IsProper schema.now }
    ensures { result ≡ true → HasStable true schema.now levels (field_like view) (Some (val_of held.now)) }
{
    if levels == 0 {
        return true;
    }
    match view.kind {
        Kind::Message(type_at) => match message_in(held) {
            Some(contents) => is_stable(schema, type_at, contents, levels - 1),
            None => true,
        },
        _ => true,
    }
}

/// Whether the value of a number is stable, to so many levels.
#[cycle(stable)]
fn is_stable_field(schema: &Schema, type_at: usize, field: &(u32, Held), levels: usize) -> bool
    requires { IsProper schema.now }
    ensures { result ≡ true → IsStableAt schema.now levels (fields_of schema.now type_at) (entry_of field.now).0 (entry_of field.now).1 }
{
    let Some(view) = view_in(schema, Owner::Type(type_at), field.0) else {
        return false;
    };
    if is_float(view.kind) {
        return false;
    }
    if !is_stable_value(view, &field.1) {
        return false;
    }
    has_stable_message(schema, view, &field.1, levels)
}

/// Whether the content stays where no record comes, and the message in each of its fields of at most one does, to so many levels.
#[cycle(stable)]
pub(crate) fn is_stable(schema: &Schema, type_at: usize, contents: &Contents, levels: usize) -> bool
    requires { IsProper schema.now }
    ensures { result ≡ true → IsStableTo schema.now levels (fields_of schema.now type_at) (content_of contents.now) }
{
    let mut least = 0;
    for field in contents.fields.as_slice() {
        if field.0 <= least || !is_stable_field(schema, type_at, field, levels) {
            return false;
        }
        least = field.0;
    }
    true
}

// ---- contents that are not

/// What no records leave of the value of a field that is no float.
fn stabilized_value(
    alloc: Global,
    schema: &Schema,
    view: FieldView,
    held: Held,
) -> Result<Option<Held>, NoMemory>
    ensures { IfOk result (λ left. option_map val_of left ≡ stabilized_by schema.now (field_like view) view.cardinality (Some (val_of held))) }
{
    match view.cardinality {
        Cardinality::Singular => Ok(Some(held)),
        Cardinality::Repeated => {
            let many = list_held(alloc, Some(held));
            Ok(unless_default(schema, false, view.kind, Held::Many(many)))
        }
        Cardinality::Map(_) => {
            let pairs = by_key(alloc, pairs_held(alloc, Some(held)))?;
            Ok(unless_default(schema, false, view.kind, Held::Pairs(pairs)))
        }
    }
}

/// What no records leave of the value of a number.
fn stabilized_field(
    alloc: Global,
    schema: &Schema,
    type_at: usize,
    field: (u32, Held),
) -> Result<Option<Held>, NoMemory>
    ensures { IfOk result (λ left. option_map val_of left
        ≡ stabilized_at schema.now (field_of (entry_of field).0 (fields_of schema.now type_at)) (Some (entry_of field).1)) }
{
    let (number, held) = field;
    match view_in(schema, Owner::Type(type_at), number) {
        Some(view) => {
            if is_float(view.kind) {
                drop(held);
                return Ok(None);
            }
            stabilized_value(alloc, schema, view, held)
        }
        None => {
            drop(held);
            Ok(None)
        }
    }
}

/// Puts what is left of the value of a number in the place of what is there.
fn put_stabilized(
    alloc: Global,
    schema: &Schema,
    type_at: usize,
    into: &mut Contents,
    field: (u32, Held),
) -> Result<(), NoMemory>
    ensures { OnOk result (content_of into.new ≡ with_fields (content_of into.old) (with_option (entry_of field).0
        (stabilized_at schema.now (field_of (entry_of field).0 (fields_of schema.now type_at)) (Some (entry_of field).1))
        (fields_of_content (content_of into.old)))) }
{
    let number = field.0;
    match stabilized_field(alloc, schema, type_at, field)? {
        Some(held) => into.put(number, held),
        None => {
            into.clear(number);
            Ok(())
        }
    }
}

/// Takes the fields out, by ascending number.
fn take_fields(alloc: Global, contents: &mut Contents) -> Vec<(u32, Held)>
    ensures order { IsAscending result.items }
    ensures taken { fields_of_content (content_of contents.old) ≡ fields_in (map entry_of result.items) }
    ensures rest { content_of contents.new ≡ with_fields (content_of contents.old) no_fields }
{
    replace(&mut contents.fields, NumberMap::new(alloc)).into_entries()
}

/// Leaves of the content what no records leave of it. The values are put back by ascending number, each behind those
/// that are there, so that none moves.
fn stabilize(
    alloc: Global,
    schema: &Schema,
    type_at: usize,
    contents: &mut Contents,
) -> Result<(), NoMemory>
    requires { IsProper schema.now }
    ensures { OnOk result (IsStabilizedFrom schema.now (fields_of schema.now type_at) (content_of contents.old) (content_of contents.new)) }
{
    for field in take_fields(alloc, contents) {
        put_stabilized(alloc, schema, type_at, contents, field)?;
    }
    Ok(())
}

/// The same unless the content is stable.
pub(crate) fn stabilize_unless(
    alloc: Global,
    schema: &Schema,
    stable: bool,
    type_at: usize,
    contents: &mut Contents,
) -> Result<(), NoMemory>
    requires { IsProper schema.now }
    ensures { OnOk result (IsStabilizedUnless stable schema.now (fields_of schema.now type_at) (content_of contents.old) (content_of contents.new)) }
{
    if stable {
        return Ok(());
    }
    stabilize(alloc, schema, type_at, contents)
}
