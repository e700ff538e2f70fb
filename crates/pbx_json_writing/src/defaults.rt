ghost use Rattle.std.specs.Prelude.{◌≡◌, [], ◌∷◌, Some, true, false, IfOk, IfErr, OnOk};
ghost use Rattle.serde_json.specs.View.{view, members_view};
ghost use Rattle.pbx_content.specs.Content.{fields, kept, message};
ghost use Rattle.pbx_content.specs.Encoding.{type_of};
ghost use Rattle.pbx_content.specs.Shape.{declared_of as declared_of_type};
ghost use Rattle.pbx_content_codec.specs.View.{content_of};
ghost use Rattle.pbx_json_meaning.specs.Forms.{is_object_type};
ghost use Rattle.pbx_json_meaning.specs.Asked.{one};
ghost use Rattle.pbx_json_meaning.specs.Canonical.{default_tree as default_tree_of, is_written_default as is_written_default_of};
ghost use Rattle.pbx_json_meaning.specs.Canonical.{writing, tells, keeps_float};
ghost use Rattle.pbx_json_writing.specs.Lines.{with_lines, default_lines, field_members};
ghost use Rattle.pbx_json_writing.specs.Writings.{plain};
ghost use Rattle.pbx_json_writing.specs.Refusals.{Refused, IsDefaultRefused};
ghost use Rattle.pbx_json_writing.specs.declared.refusal.Refusal.TheVariants as refused;

use crate::fields::{declared_of, key_of_field, message_type};
use crate::members::add_member;
use crate::{Refusal, zero_tree};
use pbx_content::{Cardinality, FieldShape, Kind, Schema};
use pbx_content_codec::Contents;
use pbx_json_meaning::SerializeOptions;
use pbx_json_schema::{has_presence, is_float};
use pbx_wire::NoMemory;
use serde_json::{Map, Value};
use std::alloc::Global;

/// Whether the field is written though it has no value.
fn is_written_default(options: &SerializeOptions, contents: &Contents, field: &FieldShape) -> bool
    ensures { result ≡ is_written_default_of (plain options.now) (fields (content_of contents.now)) field.now }
{
    !options.skip_default_fields
        && !has_presence(field)
        && !is_float(field.kind)
        && !field.is_extension
        && contents.get(field.number).is_none()
}

/// What is written of a field without a value: its default, an empty array or an empty object.
fn default_tree(
    alloc: Global,
    schema: &Schema,
    options: &SerializeOptions,
    field: &FieldShape,
) -> Result<Value, Refusal>
    ensures written { IfOk result (λ tree. default_tree_of schema.now (writing schema.now options.now) field.now field.now.cardinality ≡ Some (view tree)) }
    ensures refused { IfErr result (λ r. r ≡ refused.Memory) }
{
    match field.cardinality {
        Cardinality::Singular => match zero_tree(alloc, schema, options, field.kind) {
            Ok(tree) => Ok(tree),
            Err(NoMemory) => Err(Refusal::Memory),
        },
        Cardinality::Repeated => Ok(Value::Array(Vec::new(alloc))),
        Cardinality::Map(_) => Ok(Value::Object(Map::new(alloc))),
    }
}

/// Adds the field, if it is written though it has no value.
fn add_default(
    alloc: Global,
    schema: &Schema,
    options: &SerializeOptions,
    contents: &Contents,
    field: &FieldShape,
    map: &mut Map<String, Value>,
) -> Result<(), Refusal>
    ensures written { OnOk result (with_lines (default_lines schema.now (writing schema.now options.now) (fields (content_of contents.now)) (field.now ∷ []))
        (Some (members_view map.old.entries)) ≡ Some (members_view map.new.entries)) }
    ensures refused { IfErr result (IsDefaultRefused (writing schema.now options.now) (fields (content_of contents.now)) field.now
        (members_view map.old.entries)) }
{
    if !is_written_default(options, contents, field) {
        return Ok(());
    }
    let written = default_tree(alloc, schema, options, field);
    add_member(alloc, key_of_field(options, field), written, map)
}

/// Adds the fields that are written though they have no value, where defaults are not skipped.
fn add_defaults(
    alloc: Global,
    schema: &Schema,
    options: &SerializeOptions,
    kind: Kind,
    contents: &Contents,
    map: &mut Map<String, Value>,
) -> Result<(), Refusal>
    requires plain { is_object_type schema.now (type_of kind) ≡ true }
    requires fields { field_members schema.now (writing schema.now options.now) (declared_of_type schema.now (type_of kind)) (content_of contents.now)
        ≡ Some (members_view map.old.entries) }
    ensures written { OnOk result
        (with_lines (default_lines schema.now (writing schema.now options.now) (fields (content_of contents.now)) (declared_of_type schema.now (type_of kind)))
        (Some (members_view map.old.entries)) ≡ Some (members_view map.new.entries)) }
    ensures refused { IfErr result (Refused schema.now (writing schema.now options.now) (message (content_of contents.now)) kind) }
{
    if options.skip_default_fields {
        return Ok(());
    }
    for field in declared_of(schema, message_type(kind)) {
        if let Err(refusal) = add_default(alloc, schema, options, contents, field, map) {
            return Err(refusal);
        }
    }
    Ok(())
}

/// The object of a message whose fields with values are these members.
pub(crate) fn with_defaults(
    alloc: Global,
    schema: &Schema,
    options: &SerializeOptions,
    kind: Kind,
    contents: &Contents,
    mut map: Map<String, Value>,
) -> Result<Value, Refusal>
    requires plain { is_object_type schema.now (type_of kind) ≡ true }
    requires whole { keeps_float (declared_of_type schema.now (type_of kind)) (kept (content_of contents.now)) ≡ false }
    requires fields { field_members schema.now (writing schema.now options.now) (declared_of_type schema.now (type_of kind)) (content_of contents.now)
        ≡ Some (members_view map.entries) }
    ensures written { IfOk result (λ tree. tells schema.now (writing schema.now options.now) (message (content_of contents.now)) (one kind)
        ≡ Some (view tree)) }
    ensures refused { IfErr result (Refused schema.now (writing schema.now options.now) (message (content_of contents.now)) kind) }
{
    match add_defaults(alloc, schema, options, kind, contents, &mut map) {
        Ok(()) => Ok(Value::Object(map)),
        Err(refusal) => Err(refusal),
    }
}
