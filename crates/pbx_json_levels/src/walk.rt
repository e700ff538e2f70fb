ghost use Rattle.std.specs.Prelude.{◌≡◌, map, IfOk};
ghost use Rattle.std.specs.List.{list_all};
ghost use Rattle.pbx_content.specs.Content.{fields, vals_of, pairs_of};
ghost use Rattle.pbx_content.specs.Shape.{fields_of};
ghost use Rattle.pbx_content_codec.specs.View.{content_of, val_of, entry_of, pair_of, fields_in};
ghost use Rattle.pbx_wkt_types.specs.Shapes.{form_of as form_of_type};
ghost use Rattle.pbx_json_meaning.specs.Fits.{fits as fits_of, payload_fits, payloads_fit, payload_by, val_payloads};
ghost use Rattle.pbx_json_meaning.specs.Fits.{fields_payloads, vals_payloads, pairs_payloads};
ghost use Rattle.pbx_json_schema.specs.Index.{AreTypesIn};

use crate::types::{kind_at, message_type};
use pbx_content::{Kind, Schema};
use pbx_content_codec::{Contents, Held, Pair, decode, depth};
use pbx_content_map::NumberMap;
use pbx_json_payload_laws::fits_by_content;
use pbx_json_schema::{TypeNames, payload_bytes, type_url};
use pbx_wire::{DecodeError, List, NoMemory};
use pbx_wkt_types::Form;
use std::alloc::Global;

/// How many levels may stand below the top of a message whose bytes are read again.
const LEVELS: u32 = 100;

/// How many messages, lists, maps and payloads may stand inside one another: the stack holds no more.
const DEEPEST: u32 = 2049;

/// Whether the payloads in a value of a kind are read again, where the stack holds `room` levels.
#[cycle(fit)]
fn held_fits(
    held: &Held,
    alloc: Global,
    schema: &Schema,
    types: &mut TypeNames,
    kind: Kind,
    room: u32,
) -> Result<bool, NoMemory>
    requires { AreTypesIn schema.now types.old }
    ensures fit { IfOk result (λ yes. yes ≡ list_all (payload_fits schema.now) (val_payloads schema.now (val_of held.now) kind)) }
    ensures known { AreTypesIn schema.now types.new }
{
    match held {
        Held::Message(contents) => contents_fit(
            contents,
            alloc,
            schema,
            types,
            message_type(kind),
            room,
        ),
        Held::Many(many) => many_fit(many, alloc, schema, types, kind, room),
        Held::Pairs(pairs) => pairs_fit(pairs, alloc, schema, types, kind, room),
        _ => Ok(true),
    }
}

/// Whether the payloads in the elements of a list are.
#[cycle(fit)]
fn many_fit(
    many: &List<Held>,
    alloc: Global,
    schema: &Schema,
    types: &mut TypeNames,
    kind: Kind,
    room: u32,
) -> Result<bool, NoMemory>
    requires { AreTypesIn schema.now types.old }
    ensures fit { IfOk result (λ yes. yes ≡ list_all (payload_fits schema.now) (vals_payloads schema.now (vals_of (map val_of many.now)) kind)) }
    ensures known { AreTypesIn schema.now types.new }
{
    if room == 0 {
        return Err(NoMemory);
    }
    for held in many.as_slice() {
        if !held_fits(held, alloc, schema, types, kind, room - 1)? {
            return Ok(false);
        }
    }
    Ok(true)
}

/// Whether the payloads in the values of a map are.
#[cycle(fit)]
fn pairs_fit(
    pairs: &List<Pair>,
    alloc: Global,
    schema: &Schema,
    types: &mut TypeNames,
    kind: Kind,
    room: u32,
) -> Result<bool, NoMemory>
    requires { AreTypesIn schema.now types.old }
    ensures fit { IfOk result (λ yes. yes ≡ list_all (payload_fits schema.now) (pairs_payloads schema.now (pairs_of (map pair_of pairs.now)) kind)) }
    ensures known { AreTypesIn schema.now types.new }
{
    if room == 0 {
        return Err(NoMemory);
    }
    for pair in pairs.as_slice() {
        if !held_fits(&pair.held, alloc, schema, types, kind, room - 1)? {
            return Ok(false);
        }
    }
    Ok(true)
}

/// Whether the payloads in the fields of a message are.
#[cycle(fit)]
fn fields_fit(
    fields: &NumberMap<Held>,
    alloc: Global,
    schema: &Schema,
    types: &mut TypeNames,
    place: usize,
    room: u32,
) -> Result<bool, NoMemory>
    requires { AreTypesIn schema.now types.old }
    ensures fit { IfOk result (λ yes. yes ≡ list_all (payload_fits schema.now)
        (fields_payloads schema.now (fields_of schema.now place) (fields_in (map entry_of fields.now)))) }
    ensures known { AreTypesIn schema.now types.new }
{
    for field in fields.as_slice() {
        let kind = kind_at(schema, place, field.0);
        if !held_fits(&field.1, alloc, schema, types, kind, room)? {
            return Ok(false);
        }
    }
    Ok(true)
}

/// Whether the payload of an `Any` is, if its URL names a type.
#[cycle(fit)]
fn own_payload_fits(
    contents: &Contents,
    alloc: Global,
    schema: &Schema,
    types: &mut TypeNames,
    room: u32,
) -> Result<bool, NoMemory>
    requires { AreTypesIn schema.now types.old }
    ensures fit { IfOk result (λ yes. yes ≡ list_all (payload_fits schema.now) (payload_by schema.now Form.Any (fields (content_of contents.now)))) }
    ensures known { AreTypesIn schema.now types.new }
{
    match types.find_url(alloc, schema, type_url(contents))? {
        Some(place) => payload_is_read(payload_bytes(contents), alloc, schema, types, place, room),
        None => Ok(true),
    }
}

/// Whether the bytes decode as a message of the type at a place, and the payloads in that message are read again.
#[cycle(fit)]
fn payload_is_read(
    bytes: &[u8],
    alloc: Global,
    schema: &Schema,
    types: &mut TypeNames,
    place: usize,
    room: u32,
) -> Result<bool, NoMemory>
    requires { AreTypesIn schema.now types.old }
    ensures fit { IfOk result (λ yes. yes ≡ payload_fits schema.now (record { type_at = place; bytes = bytes.now })) }
    ensures known { AreTypesIn schema.now types.new }
{
    // What the proof cites: a payload is read again where its content's payloads are.
    fits_by_content();
    match decode(alloc, schema, place, bytes) {
        Ok(contents) => contents_fit(&contents, alloc, schema, types, place, room),
        Err(DecodeError::NoMemory) => Err(NoMemory),
        Err(_) => Ok(false),
    }
}

/// Whether the payloads in a message of the type at a place are.
#[cycle(fit)]
fn contents_fit(
    contents: &Contents,
    alloc: Global,
    schema: &Schema,
    types: &mut TypeNames,
    place: usize,
    room: u32,
) -> Result<bool, NoMemory>
    requires { AreTypesIn schema.now types.old }
    ensures fit { IfOk result (λ yes. yes ≡ payloads_fit schema.now place (content_of contents.now)) }
    ensures known { AreTypesIn schema.now types.new }
{
    if room == 0 {
        return Err(NoMemory);
    }
    if matches!(types.form(schema, place)?, Form::Any) {
        if !own_payload_fits(contents, alloc, schema, types, room - 1)? {
            return Ok(false);
        }
    }
    fields_fit(&contents.fields, alloc, schema, types, place, room - 1)
}

/// Whether at most 100 levels stand below the top of a content of the type at a place of the schema, and each payload of a
/// `google.protobuf.Any` in it decodes as its type within 100 levels of its own, payloads inside payloads too. An `Any` whose URL
/// names no message of the schema, or that has not its shape, has no payload.
///
/// The only error is want of memory. The stack is memory too: where messages, lists, maps and payloads stand inside one another
/// more than 2,049 deep, that is `NoMemory`.
pub fn fits(
    alloc: Global,
    schema: &Schema,
    place: usize,
    contents: &Contents,
) -> Result<bool, NoMemory>
    ensures { IfOk result (λ yes. yes ≡ fits_of schema.now place (content_of contents.now)) }
{
    fits_by(
        &mut TypeNames::new(alloc, schema),
        alloc,
        schema,
        place,
        contents,
    )
}

/// `fits` by the types of the schema that were looked up before, for callers that ask of many messages. Types that a payload asks for
/// are kept for the next one.
pub fn fits_by(
    types: &mut TypeNames,
    alloc: Global,
    schema: &Schema,
    place: usize,
    contents: &Contents,
) -> Result<bool, NoMemory>
    requires { AreTypesIn schema.now types.old }
    ensures fit { IfOk result (λ yes. yes ≡ fits_of schema.now place (content_of contents.now)) }
    ensures known { AreTypesIn schema.now types.new }
{
    if depth(contents) > LEVELS {
        return Ok(false);
    }
    contents_fit(contents, alloc, schema, types, place, DEEPEST)
}
