ghost use Rattle.std.specs.Prelude.{◌≡◌, Some, true, false, option_map, slice_get, IfSome, IfNone, IfErr, OnOk};
ghost use Rattle.pbx_content.specs.Content.{message, kept};
ghost use Rattle.pbx_content.specs.Encoding.{type_of};
ghost use Rattle.pbx_content.specs.Shape.{declared_of as declared_of_type, field_of, is_float as is_float_of};
ghost use Rattle.pbx_content.specs.Sound.{IsProper};
ghost use Rattle.pbx_content_codec.specs.View.{content_of};
ghost use Rattle.pbx_json_meaning.specs.Forms.{is_object_type};
ghost use Rattle.pbx_json_meaning.specs.Canonical.{writing, key_of_field as key_of_field_of, keeps_float};
ghost use Rattle.pbx_json_writing.specs.Refusals.{Refused, IsKeptFloat};
ghost use Rattle.pbx_json_writing.specs.Kinds.{is_float_number};
ghost use Rattle.pbx_json_writing.specs.Writings.{plain};

use crate::Refusal;
use pbx_content::{FieldShape, Kind, MessageShape, Schema};
use pbx_content_codec::Contents;
use pbx_json_meaning::{JsonKind, SerializeOptions};
use pbx_json_schema::is_float;
use pbx_wire::Recs;
use std::alloc::Global;

/// The place of a message type.
pub(crate) fn message_type(kind: Kind) -> usize
    ensures { result ≡ type_of kind }
{
    match kind {
        Kind::Message(type_at) => type_at,
        _ => 0,
    }
}

/// The message type at a place.
fn message_at(schema: &Schema, type_at: usize) -> Option<&MessageShape>
    ensures { option_map (λ it. it.now) result ≡ slice_get schema.now.messages type_at }
{
    schema.shape().messages.as_slice().get(type_at)
}

/// The fields of a type in declared order, and behind them its extensions; a place outside the schema has none.
pub(crate) fn declared_of(schema: &Schema, type_at: usize) -> &[FieldShape]
    ensures { result.now ≡ declared_of_type schema.now type_at }
{
    match message_at(schema, type_at) {
        Some(found) => found.fields.as_slice(),
        None => &[],
    }
}

/// The field of a number in the type at a place.
pub(crate) fn field_numbered(schema: &Schema, type_at: usize, number: u32) -> Option<&FieldShape>
    ensures found { option_map (λ f. f.now) result ≡ field_of number (declared_of_type schema.now type_at) }
    ensures proper { IsProper schema.now }
{
    let _proper = schema.shape();
    schema.field_of(type_at, number)
}

/// The key that a field is written under: its JSON name, or by option its own name; an extension keeps its JSON name.
pub(crate) fn key_of_field<'f>(options: &SerializeOptions, field: &'f FieldShape) -> &'f str
    ensures { result.now ≡ key_of_field_of (plain options.now) field.now }
{
    if options.use_proto_field_name && !field.is_extension {
        field.name.as_str()
    } else {
        field.json_name.as_str()
    }
}

/// The float field of a number, if there is one.
fn float_field(schema: &Schema, type_at: usize, number: u32) -> Option<&FieldShape>
    ensures found { IfSome result (λ found. (field_of number (declared_of_type schema.now type_at) ≡ Some found.now) × (is_float_of found.now.kind ≡ true)) }
    ensures absent { IfNone result (is_float_number (declared_of_type schema.now type_at) number ≡ false) }
{
    match field_numbered(schema, type_at, number) {
        None => None,
        Some(field) => {
            if is_float(field.kind) {
                Some(field)
            } else {
                None
            }
        }
    }
}

/// The float field of a kept record, if there is one.
pub(crate) fn kept_float<'s>(
    schema: &'s Schema,
    type_at: usize,
    kept: &Recs,
) -> Option<&'s FieldShape>
    ensures found { IfSome result (λ found. IsKeptFloat (declared_of_type schema.now type_at) kept.now found.now) }
    ensures absent { IfNone result (keeps_float (declared_of_type schema.now type_at) kept.now ≡ false) }
{
    for rec in kept.as_slice() {
        if let Some(found) = float_field(schema, type_at, rec.number()) {
            return Some(found);
        }
    }
    None
}

/// Nothing, where the content keeps no record of a float field.
pub(crate) fn keeps_no_float(
    alloc: Global,
    schema: &Schema,
    options: &SerializeOptions,
    kind: Kind,
    contents: &Contents,
) -> Result<(), Refusal>
    requires { is_object_type schema.now (type_of kind) ≡ true }
    ensures whole { OnOk result (keeps_float (declared_of_type schema.now (type_of kind)) (kept (content_of contents.now)) ≡ false) }
    ensures refused { IfErr result (Refused schema.now (writing schema.now options.now) (message (content_of contents.now)) kind) }
{
    match kept_float(schema, message_type(kind), &contents.kept) {
        None => Ok(()),
        Some(field) => Err(Refusal::at_key(alloc, key_of_field(options, field), JsonKind::Float)),
    }
}
