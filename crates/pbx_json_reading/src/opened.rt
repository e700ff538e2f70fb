// What is read of a tree, before what is inside it is read.
ghost use Rattle.std.specs.Prelude.{◌≡◌, true, false};
ghost use Rattle.serde_json.specs.View.{view, items_view, members_view};
ghost use Rattle.pbx_wkt_types.specs.Types.{message_name as message_name_of};
ghost use Rattle.pbx_json_meaning.specs.Asked.{field_target, target_by, nothing, reads_null as reads_null_of};
ghost use Rattle.pbx_json_walk.specs.Opened.{reads_null_for, option_members, option_items, members_in};
ghost use Rattle.pbx_json_walk.specs.Opened.{items_of_list, members_of_map, items_if_none, members_if_none, wrong_kind_of};

use pbx_content::{Cardinality, FieldShape, Kind, Schema};
use pbx_json_meaning::JsonKind;
use pbx_json_schema::{is_float, is_null_value};
use serde_json::{Map, Value};

/// The full name of the message type at a place; a place outside the schema has the empty one.
fn message_name(schema: &Schema, place: usize) -> &str
    ensures { result.now ≡ message_name_of schema.now place }
{
    let messages = schema.shape().messages.as_slice();
    if place < messages.len() {
        messages[place].full_name.as_str()
    } else {
        ""
    }
}

/// Whether null is a value of the kind.
fn reads_null(schema: &Schema, kind: Kind) -> bool
    ensures { result ≡ reads_null_of schema.now kind }
{
    match kind {
        Kind::Message(place) => matches!(message_name(schema, place), "google.protobuf.Value"),
        Kind::Enum(place) => is_null_value(schema, place),
        _ => false,
    }
}

/// Whether null is read as a value of the field.
fn reads_null_as(schema: &Schema, field: &FieldShape) -> bool
    ensures { result ≡ reads_null_for schema.now field.now }
{
    match field.cardinality {
        Cardinality::Singular => reads_null(schema, field.kind),
        _ => false,
    }
}

/// Whether the tree leaves the field absent, as null mostly does.
pub(crate) fn is_left_out(schema: &Schema, field: &FieldShape, tree: &Value) -> bool
    ensures yes { result ≡ true → field_target schema.now (view tree.now) field.now ≡ nothing }
    ensures no { result ≡ false → field_target schema.now (view tree.now) field.now ≡ target_by field.now field.now.cardinality }
{
    match tree {
        Value::Null => !reads_null_as(schema, field),
        _ => false,
    }
}

/// The members of a tree that is read as an object of fields.
pub(crate) fn object_members(tree: &Value) -> Result<&Map<String, Value>, JsonKind>
    ensures { option_members result ≡ members_in (view tree.now) }
{
    match tree {
        Value::Object(members) => Ok(members),
        _ => Err(JsonKind::WrongKind),
    }
}

/// The elements of a list of floats, of which only the empty one is read.
fn no_items(items: &[Value]) -> Result<&[Value], JsonKind>
    ensures { option_items result ≡ items_if_none (items_view items.now) }
{
    if items.is_empty() {
        Ok(items)
    } else {
        Err(JsonKind::Float)
    }
}

/// The members of a map of floats, of which only the empty one is read.
fn no_members(members: &Map<String, Value>) -> Result<&Map<String, Value>, JsonKind>
    ensures { option_members result ≡ members_if_none (members_view members.now.entries) }
{
    if members.is_empty() {
        Ok(members)
    } else {
        Err(JsonKind::Float)
    }
}

/// The fault of a tree that is of no sort that is read, where values of a kind are.
fn wrong_kind(kind: Kind) -> JsonKind
    ensures { result ≡ wrong_kind_of kind }
{
    if is_float(kind) {
        JsonKind::Float
    } else {
        JsonKind::WrongKind
    }
}

/// The elements of a tree that is read as a list of a kind.
pub(crate) fn list_items<'t>(kind: Kind, tree: &'t Value) -> Result<&'t [Value], JsonKind>
    ensures { option_items result ≡ items_of_list kind (view tree.now) }
{
    match tree {
        Value::Array(items) => if is_float(kind) {
            no_items(items.as_slice())
        } else {
            Ok(items.as_slice())
        },
        _ => Err(wrong_kind(kind)),
    }
}

/// The members of a tree that is read as a map with values of a kind.
pub(crate) fn map_members<'t>(
    kind: Kind,
    tree: &'t Value,
) -> Result<&'t Map<String, Value>, JsonKind>
    ensures { option_members result ≡ members_of_map kind (view tree.now) }
{
    match tree {
        Value::Object(members) => if is_float(kind) {
            no_members(members)
        } else {
            Ok(members)
        },
        _ => Err(wrong_kind(kind)),
    }
}
