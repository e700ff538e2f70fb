// Messages of `Any`, whose trees name the type of their payload (google/protobuf/any.proto; ProtoJSON Format: Any).
ghost use Rattle.std.specs.Prelude.{◌≡◌, ◌⊎◌, Ok, Err, IfOk, IfErr, option_map};
ghost use Rattle.serde_json.specs.Find.{get_member};
ghost use Rattle.serde_json.specs.View.{view, members_view};
ghost use Rattle.pbx_content.specs.Encoding.{encoded};
ghost use Rattle.pbx_content_codec.specs.View.{content_of};
ghost use Rattle.pbx_json_schema.specs.Index.{AreNamesIn};
ghost use Rattle.pbx_json_meaning.specs.Forms.{any_read, members_read, typed_read, payload_read};
ghost use Rattle.pbx_json_meaning.specs.Urls.{type_url as type_url_of, type_of_url, is_type_key as is_type_key_of, is_value_key as is_value_key_of};
ghost use Rattle.pbx_json_meaning.specs.declared.kind.JsonKind.TheVariants.{NoMemory as OutOfMemory};
ghost use Rattle.pbx_json_walk.specs.Walk.{payload_found as payload_found_of};
ghost use Rattle.pbx_json_reading.specs.Holders.{own_of, packed_by};

use crate::at_tree;
use crate::forms::two_values;
use crate::holders::{Own, Packing};
use bytes::Bytes;
use pbx_content::Schema;
use pbx_content_codec::{Contents, Held, encode};
use pbx_json_meaning::{JsonError, JsonKind};
use pbx_json_schema::SchemaNames;
use pbx_wire::{NoMemory, Text};
use pbx_wkt_types::{Form, form_of};
use serde_json::{Map, Value};
use std::alloc::Global;

/// Whether the key is that of the type.
pub(crate) fn is_type_key(key: &str) -> bool
    ensures { result ≡ is_type_key_of key.now }
{
    key == "@type"
}

/// Whether the key is that of a payload of a well-known type.
pub(crate) fn is_value_key(key: &str) -> bool
    ensures { result ≡ is_value_key_of key.now }
{
    key == "value"
}

/// The member of a key.
fn member<'t>(members: &'t Map<String, Value>, key: &str) -> Option<&'t Value>
    ensures { option_map (λ v. view v.now) result ≡ get_member key.now (members_view members.now.entries) }
{
    members.get(key)
}

/// The text under `@type`.
fn type_url(members: &Map<String, Value>) -> Option<&str>
    ensures { option_map (λ s. s.now) result ≡ type_url_of (members_view members.now.entries) }
{
    match member(members, "@type") {
        Some(tree) => tree.as_str(),
        None => None,
    }
}

/// What the payload of a type is read as: the members beside `@type`, or of a well-known type the member `value`.
fn payload_own<'t>(
    schema: &Schema,
    packing: Packing<'t>,
    members: &Map<String, Value>,
) -> Result<Own<'t>, JsonKind>
    ensures ok { IfOk result (λ own. payload_read schema.now packing.entry.skips packing.entry.place (members_view members.now.entries)
        packing.entry.url.now packing.entry.payload ≡ Ok (own_of schema.now own)) }
    ensures err { IfErr result (λ e. payload_read schema.now packing.entry.skips packing.entry.place (members_view members.now.entries)
        packing.entry.url.now packing.entry.payload ≡ Err e) }
{
    match form_of(schema, packing.payload) {
        Form::Fields => Ok(Own::Beside(packing)),
        _ => match member(members, "value") {
            Some(_) => Ok(Own::Under(packing)),
            None => Err(JsonKind::AnyValue),
        },
    }
}

/// What the payload of the type that a URL names is read as.
fn typed_own<'t>(
    alloc: Global,
    schema: &Schema,
    names: &mut SchemaNames,
    skips: bool,
    place: usize,
    members: &Map<String, Value>,
    url: &'t str,
) -> Result<Own<'t>, JsonKind>
    requires { AreNamesIn schema.now names.old }
    ensures ok { IfOk result (λ own. typed_read schema.now skips place (members_view members.now.entries) url.now
        (type_of_url schema.now url.now) ≡ Ok (own_of schema.now own)) }
    ensures err { IfErr result (λ e. (e ≡ OutOfMemory) ⊎ (typed_read schema.now skips place (members_view members.now.entries) url.now
        (type_of_url schema.now url.now) ≡ Err e)) }
    ensures names { AreNamesIn schema.now names.new }
{
    match names.find_type(alloc, schema, url) {
        Ok(Some(payload)) => {
            let packing = Packing {
                place,
                url,
                payload,
                skips,
            };
            payload_own(schema, packing, members)
        }
        Ok(None) => Err(JsonKind::AnyType),
        Err(_) => Err(JsonKind::NoMemory),
    }
}

/// What the members of an `Any` are read as.
fn members_own<'t>(
    alloc: Global,
    schema: &Schema,
    names: &mut SchemaNames,
    skips: bool,
    place: usize,
    members: &'t Map<String, Value>,
) -> Result<Own<'t>, JsonKind>
    requires { AreNamesIn schema.now names.old }
    ensures ok { IfOk result (λ own. members_read schema.now skips place (members_view members.now.entries)
        (type_url_of (members_view members.now.entries)) ≡ Ok (own_of schema.now own)) }
    ensures err { IfErr result (λ e. (e ≡ OutOfMemory) ⊎ (members_read schema.now skips place (members_view members.now.entries)
        (type_url_of (members_view members.now.entries)) ≡ Err e)) }
    ensures names { AreNamesIn schema.now names.new }
{
    match type_url(members) {
        Some(url) => typed_own(alloc, schema, names, skips, place, members, url),
        None => Err(JsonKind::AnyType),
    }
}

/// A `google.protobuf.Any`.
pub(crate) fn read_any_tree<'t>(
    alloc: Global,
    schema: &Schema,
    names: &mut SchemaNames,
    skips: bool,
    place: usize,
    tree: &'t Value,
) -> Result<Own<'t>, JsonKind>
    requires { AreNamesIn schema.now names.old }
    ensures ok { IfOk result (λ own. any_read schema.now skips place (view tree.now) ≡ Ok (own_of schema.now own)) }
    ensures err { IfErr result (λ e. (e ≡ OutOfMemory) ⊎ (any_read schema.now skips place (view tree.now) ≡ Err e)) }
    ensures names { AreNamesIn schema.now names.new }
{
    match tree {
        Value::Object(members) => members_own(alloc, schema, names, skips, place, members),
        _ => Err(JsonKind::WrongKind),
    }
}

/// The canonical encoding of a payload.
fn payload_bytes(
    alloc: Global,
    schema: &Schema,
    payload: usize,
    contents: &Contents,
) -> Result<Bytes, NoMemory>
    ensures { IfOk result (λ bytes. bytes ≡ encoded schema.now payload (content_of contents.now)) }
{
    let encoding = encode(alloc, schema, payload, contents)?;
    match Bytes::copy_from_slice(alloc, encoding.as_slice()) {
        Ok(bytes) => Ok(bytes),
        Err(_) => Err(NoMemory),
    }
}

/// The content of an `Any` with that of its payload.
fn packed_contents(
    alloc: Global,
    schema: &Schema,
    packing: Packing<'_>,
    contents: &Contents,
) -> Result<Contents, NoMemory>
    ensures { IfOk result (λ c. content_of c ≡ packed_by schema.now packing.entry (content_of contents.now)) }
{
    let bytes = payload_bytes(alloc, schema, packing.payload, contents)?;
    let url = Text::from_str(alloc, packing.url)?;
    two_values(
        alloc,
        schema,
        packing.place,
        Held::Text(url),
        Held::Bytes(bytes),
    )
}

/// The content of an `Any` whose payload was read.
pub(crate) fn pack(
    alloc: Global,
    schema: &Schema,
    packing: Packing<'_>,
    contents: Contents,
) -> Result<Contents, JsonError>
    ensures ok { IfOk result (λ c. content_of c ≡ packed_by schema.now packing.entry (content_of contents)) }
    ensures err { IfErr result (λ e. e.kind ≡ OutOfMemory) }
{
    let packed = packed_contents(alloc, schema, packing, &contents);
    drop(contents);
    match packed {
        Ok(packed) => Ok(packed),
        Err(_) => Err(at_tree(alloc, JsonKind::NoMemory)),
    }
}

/// The payload, if one was found.
pub(crate) fn payload_found(alloc: Global, found: Option<Contents>) -> Result<Contents, JsonError>
    ensures ok { IfOk result (λ c. payload_found_of (option_map content_of found) ≡ Ok (content_of c)) }
    ensures err { IfErr result (λ e. payload_found_of (option_map content_of found) ≡ Err e) }
{
    match found {
        Some(contents) => Ok(contents),
        None => Err(at_tree(alloc, JsonKind::AnyValue)),
    }
}
