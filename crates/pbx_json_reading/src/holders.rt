// Messages whose trees have elements or members of any sort: `Struct`, `ListValue`, `Value`, and the payload of an `Any`.
ghost use Rattle.std.specs.Prelude.{◌≡◌, ◌⊎◌, false, Some, Ok, Err, IfOk, IfErr, option_map};
ghost use Rattle.serde_json.specs.View.{view};
ghost use Rattle.pbx_content.specs.Content.{text as text_val};
ghost use Rattle.pbx_content.specs.Meaning.{shown};
ghost use Rattle.pbx_content_codec.specs.View.{content_of, val_of};
ghost use Rattle.pbx_json_meaning.specs.Forms.{whole, holding as holding_of, type_at as type_at_of};
ghost use Rattle.pbx_json_meaning.specs.Forms.{struct_read, list_value_read, value_read, value_with};
ghost use Rattle.pbx_json_meaning.specs.declared.kind.JsonKind.TheVariants.{NoMemory as OutOfMemory};
ghost use Rattle.pbx_json_reading.specs.Holders.{own_of, held_in};

use crate::at_tree;
use crate::defaults::unless_kind_default;
use crate::forms::holding;
use pbx_content::{Kind, Schema};
use pbx_content_codec::{Contents, Held};
use pbx_json_meaning::{JsonError, JsonKind};
use pbx_json_schema::kind_at;
use pbx_wire::{NoMemory, Text};
use pbx_wkt_types::{Form, form_of};
use serde_json::Value;
use std::alloc::Global;

/// A `Value` that holds another message.
#[derive(Clone, Copy)]
pub(crate) struct Outer {
    /// The place of its type.
    pub place: usize,
    /// The number of the field that holds the message.
    pub number: u32,
}

/// A `Struct` or a `ListValue`, in the `Value` that holds it if there is one.
#[derive(Clone, Copy)]
pub(crate) struct Holder {
    /// The place of its type.
    pub place: usize,
    /// The `Value` that holds it.
    pub outer: Option<Outer>,
}

/// The payload of an `Any`.
#[derive(Clone, Copy)]
pub(crate) struct Packing<'t> {
    /// The place of the type of the `Any`.
    pub place: usize,
    /// The URL of the payload's type.
    pub url: &'t str,
    /// The place of the payload's type.
    pub payload: usize,
    /// Whether keys that name nothing are skipped.
    pub skips: bool,
}

/// What a message of a form of its own is read as.
#[derive(Drop)]
pub(crate) enum Own<'t> {
    /// Contents, which were read at once.
    Whole(Contents),
    /// The elements of the tree, of a `ListValue`.
    Elements(Holder),
    /// The members of the tree, of a `Struct`.
    Members(Holder),
    /// The members of the tree but that of the type, of the payload of an `Any`.
    Beside(Packing<'t>),
    /// The member `value` of the tree, which is the payload of an `Any`.
    Under(Packing<'t>),
}

/// The place of the type of the messages of a field.
fn type_at(schema: &Schema, place: usize, number: u32) -> usize
    ensures { result ≡ type_at_of schema.now place number }
{
    match kind_at(schema, place, number) {
        Kind::Message(inner) => inner,
        _ => 0,
    }
}

/// The `Struct` of a `Value`.
fn struct_inside<'t>(schema: &Schema, place: usize) -> Result<Own<'t>, JsonKind>
    ensures ok { IfOk result (λ own. struct_read schema.now (type_at_of schema.now place 5) (value_with schema.now place 5)
        ≡ Ok (own_of schema.now own)) }
    ensures err { IfErr result (λ e. struct_read schema.now (type_at_of schema.now place 5) (value_with schema.now place 5) ≡ Err e) }
{
    let inner = type_at(schema, place, 5);
    match form_of(schema, inner) {
        Form::Struct => Ok(Own::Members(Holder {
            place: inner,
            outer: Some(Outer { place, number: 5 }),
        })),
        _ => Err(JsonKind::Shape),
    }
}

/// The `ListValue` of a `Value`.
fn list_inside<'t>(schema: &Schema, place: usize) -> Result<Own<'t>, JsonKind>
    ensures ok { IfOk result (λ own. list_value_read schema.now (type_at_of schema.now place 6) (value_with schema.now place 6)
        ≡ Ok (own_of schema.now own)) }
    ensures err { IfErr result (λ e. list_value_read schema.now (type_at_of schema.now place 6) (value_with schema.now place 6) ≡ Err e) }
{
    let inner = type_at(schema, place, 6);
    match form_of(schema, inner) {
        Form::ListValue => Ok(Own::Elements(Holder {
            place: inner,
            outer: Some(Outer { place, number: 6 }),
        })),
        _ => Err(JsonKind::Shape),
    }
}

/// A `Value` of one value at a number.
fn whole_value<'t>(
    alloc: Global,
    schema: &Schema,
    place: usize,
    number: u32,
    held: Held,
) -> Result<Own<'t>, JsonKind>
    ensures ok { IfOk result (λ own. own_of schema.now own ≡ whole (holding_of schema.now place number (Some (val_of held)))) }
    ensures err { IfErr result (λ e. e ≡ OutOfMemory) }
{
    match holding(alloc, schema, place, number, Some(held)) {
        Ok(contents) => Ok(Own::Whole(contents)),
        Err(_) => Err(JsonKind::NoMemory),
    }
}

/// A `Value` of a text.
#[tactic(auto, using(crate::proofs::Tree::val_of_text))]
fn text_value<'t>(
    alloc: Global,
    schema: &Schema,
    place: usize,
    text: &str,
) -> Result<Own<'t>, JsonKind>
    ensures ok { IfOk result (λ own. own_of schema.now own ≡ whole (holding_of schema.now place 3 (Some (text_val text.now)))) }
    ensures err { IfErr result (λ e. e ≡ OutOfMemory) }
{
    match Text::from_str(alloc, text) {
        Ok(text) => whole_value(alloc, schema, place, 3, Held::Text(text)),
        Err(_) => Err(JsonKind::NoMemory),
    }
}

/// A `Value`.
pub(crate) fn read_value_tree<'t>(
    alloc: Global,
    schema: &Schema,
    place: usize,
    tree: &Value,
) -> Result<Own<'t>, JsonKind>
    ensures ok { IfOk result (λ own. value_read schema.now place (view tree.now) ≡ Ok (own_of schema.now own)) }
    ensures err { IfErr result (λ e. (e ≡ OutOfMemory) ⊎ (value_read schema.now place (view tree.now) ≡ Err e)) }
{
    match tree {
        Value::Null => whole_value(alloc, schema, place, 1, Held::I32(0)),
        Value::Bool(truth) => whole_value(alloc, schema, place, 4, Held::Bool(*truth)),
        Value::Number(_) => Err(JsonKind::Float),
        Value::String(text) => text_value(alloc, schema, place, text.as_str()),
        Value::Array(_) => list_inside(schema, place),
        Value::Object(_) => struct_inside(schema, place),
    }
}

/// The contents of a list or a map, in the `Value` that holds them if there is one.
#[tactic(auto, using(crate::proofs::Tree::val_of_message))]
fn held_contents(
    alloc: Global,
    schema: &Schema,
    holder: Holder,
    held: Option<Held>,
) -> Result<Contents, NoMemory>
    ensures { IfOk result (λ c. content_of c ≡ held_in schema.now holder (option_map val_of held)) }
{
    let contents = holding(alloc, schema, holder.place, 1, held)?;
    match holder.outer {
        Some(outer) => {
            let held = Some(Held::Message(contents));
            holding(alloc, schema, outer.place, outer.number, held)
        }
        None => Ok(contents),
    }
}

/// The contents of a list or a map with values of a kind; an empty one is absent.
pub(crate) fn hold(
    alloc: Global,
    schema: &Schema,
    kind: Kind,
    holder: Holder,
    held: Option<Held>,
) -> Result<Contents, JsonError>
    ensures ok { IfOk result (λ c. content_of c ≡ held_in schema.now holder (shown schema.now false kind (option_map val_of held))) }
    ensures err { IfErr result (λ e. e.kind ≡ OutOfMemory) }
{
    match held_contents(
        alloc,
        schema,
        holder,
        unless_kind_default(schema, kind, held),
    ) {
        Ok(contents) => Ok(contents),
        Err(_) => Err(at_tree(alloc, JsonKind::NoMemory)),
    }
}
