// The payload of a message of `google.protobuf.Any`, and where its tree stands.
ghost use Rattle.std.specs.Prelude.{◌≡◌, Some, IfOk, IfErr, IsOkAnd};
ghost use Rattle.serde_json.specs.Data.{string};
ghost use Rattle.serde_json.specs.View.{view};
ghost use Rattle.pbx_content.specs.Content.{fields, message};
ghost use Rattle.pbx_content.specs.Encoding.{type_of};
ghost use Rattle.pbx_content.specs.Meaning.{meaning_of};
ghost use Rattle.pbx_content.specs.Sound.{IsSound};
ghost use Rattle.pbx_content_codec.specs.View.{content_of};
ghost use Rattle.pbx_wkt_types.specs.Shapes.{form_of as form_of_type};
ghost use Rattle.pbx_wkt_types.specs.declared.form.Form.TheVariants as forms;
ghost use Rattle.pbx_json_meaning.specs.Canonical.{writing, any_with, with_type as with_type_of, type_and_value as type_and_value_of};
ghost use Rattle.pbx_json_meaning.specs.Urls.{stands_beside as stands_beside_of};
ghost use Rattle.pbx_json_meaning.specs.declared.options.SerializeOptions.{SerializeOptions as Options};
ghost use Rattle.pbx_json_writing.specs.Indexes.{AreIndexes};
ghost use Rattle.pbx_json_writing.specs.Payloads.{IsPayloadOf};
ghost use Rattle.pbx_json_writing.specs.Refusals.{Refused, IsPayloadRefused, IsTypeRefused, IsPayloadLifted, IsAnyRefused};
ghost use Rattle.pbx_json_writing.specs.declared.refusal.Refusal.TheVariants as refused;

use crate::{Indexes, Refusal, add_member, put, string_tree};
use pbx_content::{Kind, Schema, meaning_is_sound};
use pbx_content_codec::{Contents, decode};
use pbx_json_meaning::JsonKind;
use pbx_json_schema::{payload_bytes, type_url};
use pbx_wire::DecodeError;
use pbx_wkt_types::{Form, form_of};
use serde_json::{Map, Value};
use std::alloc::Global;

/// The payload of an `Any`.
#[derive(Drop)]
pub(crate) struct Payload {
    /// The place of its type.
    pub(crate) type_at: usize,
    /// What its bytes mean.
    pub(crate) contents: Contents,
}

// ---- the payload

/// What bytes mean as a message of a type.
fn decoded(
    alloc: Global,
    schema: &Schema,
    type_at: usize,
    bytes: &[u8],
) -> Result<Contents, Refusal>
    ensures found { IfOk result (λ contents. meaning_of schema.now type_at bytes.now ≡ Some (content_of contents)) }
    ensures sound { IfOk result (λ contents. IsSound schema.now type_at (content_of contents)) }
    ensures refused { IfErr result (IsPayloadRefused (meaning_of schema.now type_at bytes.now)) }
{
    let _proper = schema.shape();
    meaning_is_sound();
    match decode(alloc, schema, type_at, bytes) {
        Ok(contents) => Ok(contents),
        Err(DecodeError::NoMemory) => Err(Refusal::Memory),
        Err(_) => Err(Refusal::here(alloc, JsonKind::AnyPayload)),
    }
}

/// The payload of an `Any`, of the type that its URL names.
pub(crate) fn payload_of(
    contents: &Contents,
    alloc: Global,
    schema: &Schema,
    indexes: &mut Indexes,
    kind: Kind,
) -> Result<Payload, Refusal>
    requires form { form_of_type schema.now (type_of kind) ≡ forms.Any }
    requires known { AreIndexes schema.now indexes.old }
    ensures found { IfOk result (IsPayloadOf schema.now (fields (content_of contents.now))) }
    ensures refused { (options : Options) → IfErr result (Refused schema.now (writing schema.now options) (message (content_of contents.now)) kind) }
    ensures known { AreIndexes schema.now indexes.new }
{
    match indexes.type_of_url(alloc, schema, type_url(contents))? {
        Some(type_at) => match decoded(alloc, schema, type_at, payload_bytes(contents)) {
            Ok(contents) => Ok(Payload { type_at, contents }),
            Err(refusal) => Err(refusal),
        },
        None => Err(Refusal::here(alloc, JsonKind::AnyType)),
    }
}

// ---- its tree

/// Whether the payload's fields stand beside the URL of their type.
fn stands_beside(schema: &Schema, type_at: usize) -> bool
    ensures { result ≡ stands_beside_of schema.now type_at }
{
    matches!(form_of(schema, type_at), Form::Fields)
}

/// A URL as a tree.
fn url_tree(alloc: Global, url: &str) -> Result<Value, Refusal>
    ensures written { IfOk result (λ tree. view tree ≡ string url.now) }
    ensures refused { IfErr result (λ r. r ≡ refused.Memory) }
{
    Ok(string_tree(alloc, url)?)
}

/// The object with the type's URL among its members.
fn with_type(alloc: Global, url: &str, tree: Value) -> Result<Value, Refusal>
    ensures written { IfOk result (λ any. with_type_of url.now (view tree) ≡ Some (view any)) }
    ensures refused { IfErr result (IsTypeRefused (view tree)) }
{
    match tree {
        Value::Object(mut map) => match add_member(alloc, "@type", url_tree(alloc, url), &mut map) {
            Ok(()) => Ok(Value::Object(map)),
            Err(refusal) => Err(refusal),
        },
        _ => Err(Refusal::Memory),
    }
}

/// An object of the type's URL and the payload's tree.
fn type_and_value(alloc: Global, url: &str, tree: Value) -> Result<Value, Refusal>
    ensures written { IfOk result (λ any. type_and_value_of url.now (view tree) ≡ view any) }
    ensures refused { IfErr result (λ r. r ≡ refused.Memory) }
{
    let mut map = Map::new(alloc);
    put(alloc, "value", tree, &mut map)?;
    put(alloc, "@type", url_tree(alloc, url)?, &mut map)?;
    Ok(Value::Object(map))
}

/// The tree of an `Any` with that of its payload.
fn with_tree(
    alloc: Global,
    schema: &Schema,
    url: &str,
    type_at: usize,
    tree: Value,
) -> Result<Value, Refusal>
    ensures written { IfOk result (λ any. any_with schema.now url.now type_at (view tree) ≡ Some (view any)) }
    ensures refused { IfErr result (IsAnyRefused (stands_beside_of schema.now type_at) (Ok tree)) }
{
    if stands_beside(schema, type_at) {
        with_type(alloc, url, tree)
    } else {
        type_and_value(alloc, url, tree)
    }
}

/// The refusal of an `Any` whose payload is refused.
fn lifted(alloc: Global, schema: &Schema, type_at: usize, below: Refusal) -> Refusal
    ensures { IsPayloadLifted (stands_beside_of schema.now type_at) below result }
{
    if stands_beside(schema, type_at) {
        below
    } else {
        below.under_key(alloc, "value")
    }
}

/// The tree of an `Any` with what is written of its payload.
pub(crate) fn with_payload(
    alloc: Global,
    schema: &Schema,
    url: &str,
    type_at: usize,
    written: Result<Value, Refusal>,
) -> Result<Value, Refusal>
    ensures written { IfOk result (λ any. IsOkAnd written (λ tree. any_with schema.now url.now type_at (view tree) ≡ Some (view any))) }
    ensures refused { IfErr result (IsAnyRefused (stands_beside_of schema.now type_at) written) }
{
    match written {
        Ok(tree) => with_tree(alloc, schema, url, type_at, tree),
        Err(below) => Err(lifted(alloc, schema, type_at, below)),
    }
}
