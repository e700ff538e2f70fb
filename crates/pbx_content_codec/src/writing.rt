//! The text of a content, written as it is read off the tree: no record is made where none has to be put in order.

ghost use Rattle.std.specs.Prelude.{◌≡◌, [], ◌∷◌, ◌++◌, ◌^◌, ◌<◌, map, Some, IfOk, OnOk};
ghost use Rattle.pbx_wire.specs.declared.rec.Rec.TheVariants as rec;
ghost use Rattle.pbx_wire.specs.Text.{text as text_of_rec, text_of};
ghost use Rattle.pbx_content_map.specs.Entries.{IsAscending};
ghost use Rattle.pbx_content.specs.Content.{vals_of, pairs_of};
ghost use Rattle.pbx_content.specs.Shape.{fields_of, form_of, as_four};
ghost use Rattle.pbx_content.specs.Encoding.{encoded, fields_recs, field_recs, vals_recs, pairs_recs, val_rec};
ghost use Rattle.pbx_content.specs.Encoding.{key_rec, keys_of, payload, number_rec, packed_text, numeral as numeral_of};
ghost use Rattle.pbx_content_codec.specs.View.{val_of, content_of, entry_of, pair_of, key_of, fields_in};

use crate::contents::{Contents, Held, Pair};
use crate::encoding::{key_kind, message_type, records_of};
use crate::fields::{Form, form_of_kind};
use crate::key::MapKey;
use crate::levels::DEEPEST;
use crate::numeral::{is_packed, numeral, packed_payload, signed_number, unsigned_number};
use pbx_content::{FieldShape, Kind, Schema};
use pbx_content_map::NumberMap;
use pbx_wire::{
    Blob, List, NoMemory, put_bytes_rec, put_fixed32_rec, put_fixed64_rec, put_recs,
    put_varint_rec, recs_text,
};
use std::alloc::Global;

/// The room that a message's text is begun with: most messages are short.
const SHORT: usize = 64;

/// A number at a field number, in the form of its kind.
fn put_number(out: &mut Blob, number: u32, kind: Kind, value: u64) -> Result<(), NoMemory>
    requires { form_of kind ≡ as_four → value < 2 ^ 32 }
    ensures { OnOk result (out.new ≡ out.old ++ text_of_rec (number_rec number (form_of kind) value)) }
{
    match form_of_kind(kind) {
        Form::Varint => put_varint_rec(out, number, value),
        Form::Four => put_fixed32_rec(out, number, value as u32),
        Form::Eight => put_fixed64_rec(out, number, value),
        Form::Payload => put_bytes_rec(out, number, &[]),
    }
}

/// A key of a map at its number in the entry.
fn put_key(out: &mut Blob, kind: Kind, key: &MapKey) -> Result<(), NoMemory>
    ensures { OnOk result (out.new ≡ out.old ++ text_of_rec (key_rec kind (key_of key.now))) }
{
    match key {
        MapKey::Bool(value) => put_varint_rec(out, 1, u64::from(*value)),
        MapKey::I32(value) => put_number(out, 1, kind, signed_number(kind, i64::from(*value))),
        MapKey::I64(value) => put_number(out, 1, kind, signed_number(kind, *value)),
        MapKey::U32(value) => put_number(out, 1, kind, unsigned_number(kind, u64::from(*value))),
        MapKey::U64(value) => put_number(out, 1, kind, unsigned_number(kind, *value)),
        MapKey::String(text) => put_bytes_rec(out, 1, text.as_str().as_bytes()),
    }
}

/// The text of the key alone, in which that of the value is to follow.
fn key_text(alloc: Global, kind: Kind, key: &MapKey) -> Result<Blob, NoMemory>
    ensures { IfOk result (λ text. text ≡ text_of_rec (key_rec kind (key_of key.now))) }
{
    let mut text = Blob::with_capacity(alloc, SHORT)?;
    put_key(&mut text, kind, key)?;
    Ok(text)
}

/// The one record of a list of numbers.
fn put_packed(
    out: &mut Blob,
    alloc: Global,
    field: &FieldShape,
    many: &List<Held>,
) -> Result<(), NoMemory>
    ensures { OnOk result (out.new ≡ out.old ++ text_of_rec (rec.Bytes field.now.number (packed_text field.now.kind (vals_of (map val_of many.now))))) }
{
    let payload = packed_payload(alloc, field.kind, many.as_slice())?;
    put_bytes_rec(out, field.number, payload.as_slice())
}

/// A number or truth value at a number; of another value 0.
fn put_scalar(out: &mut Blob, number: u32, kind: Kind, held: &Held) -> Result<(), NoMemory>
    ensures { OnOk result (out.new ≡ out.old ++ text_of_rec (number_rec number (form_of kind) (numeral_of kind (val_of held.now)))) }
{
    put_number(out, number, kind, numeral(kind, held))
}

/// The text of the records in order.
fn sorted_text(
    contents: &Contents,
    alloc: Global,
    schema: &Schema,
    type_at: usize,
    room: u32,
) -> Result<Blob, NoMemory>
    ensures { IfOk result (λ text. text ≡ encoded schema.now type_at (content_of contents.now)) }
{
    let recs = records_of(contents, alloc, schema, type_at, room)?;
    recs_text(alloc, &recs)
}

/// One value of a kind, at a number. A list or a map inside a list or a map, which no message has, is an empty payload.
#[cycle(write)]
fn put_held(
    held: &Held,
    alloc: Global,
    schema: &Schema,
    number: u32,
    kind: Kind,
    room: u32,
    out: &mut Blob,
) -> Result<(), NoMemory>
    ensures { OnOk result (out.new ≡ out.old ++ text_of_rec (val_rec schema.now number kind (val_of held.now))) }
{
    match held {
        Held::Text(text) => put_bytes_rec(out, number, text.as_str().as_bytes()),
        Held::Bytes(bytes) => put_bytes_rec(out, number, bytes.as_slice()),
        Held::Message(inner) => match content_text(inner, alloc, schema, message_type(kind), room) {
            Ok(text) => put_bytes_rec(out, number, text.as_slice()),
            Err(error) => Err(error),
        },
        Held::Many(_) | Held::Pairs(_) => put_bytes_rec(out, number, &[]),
        _ => put_scalar(out, number, kind, held),
    }
}

/// A pair of a map: an entry with key and value.
#[cycle(write)]
fn put_pair(
    pair: &Pair,
    alloc: Global,
    schema: &Schema,
    number: u32,
    key: Kind,
    value: Kind,
    room: u32,
    out: &mut Blob,
) -> Result<(), NoMemory>
    ensures { OnOk result (out.new ≡ out.old
        ++ text_of_rec (payload number (key_rec key (pair_of pair.now).0 ∷ val_rec schema.now 2 value (pair_of pair.now).1 ∷ []))) }
{
    let mut entry = key_text(alloc, key, &pair.key)?;
    match put_held(&pair.held, alloc, schema, 2, value, room, &mut entry) {
        Ok(()) => put_bytes_rec(out, number, entry.as_slice()),
        Err(error) => Err(error),
    }
}

/// A record for each value of a list.
#[cycle(write)]
fn put_many(
    many: &List<Held>,
    alloc: Global,
    schema: &Schema,
    field: &FieldShape,
    room: u32,
    out: &mut Blob,
) -> Result<(), NoMemory>
    ensures { OnOk result (out.new ≡ out.old ++ text_of (vals_recs schema.now field.now.number field.now.kind (vals_of (map val_of many.now)))) }
{
    for held in many.as_slice() {
        put_held(held, alloc, schema, field.number, field.kind, room, out)?;
    }
    Ok(())
}

/// An entry for each pair of a map.
#[cycle(write)]
fn put_pairs(
    pairs: &List<Pair>,
    alloc: Global,
    schema: &Schema,
    field: &FieldShape,
    room: u32,
    out: &mut Blob,
) -> Result<(), NoMemory>
    ensures { OnOk result (out.new ≡ out.old
        ++ text_of (pairs_recs schema.now field.now.number (keys_of field.now.cardinality) field.now.kind (pairs_of (map pair_of pairs.now)))) }
{
    let key = key_kind(field.cardinality);
    for pair in pairs.as_slice() {
        put_pair(
            pair,
            alloc,
            schema,
            field.number,
            key,
            field.kind,
            room,
            out,
        )?;
    }
    Ok(())
}

/// The records of a field's value.
#[cycle(write)]
fn put_value(
    held: &Held,
    alloc: Global,
    schema: &Schema,
    field: &FieldShape,
    room: u32,
    out: &mut Blob,
) -> Result<(), NoMemory>
    ensures { OnOk result (out.new ≡ out.old ++ text_of (field_recs schema.now (Some field.now) (val_of held.now))) }
{
    match held {
        Held::Many(many) => {
            if is_packed(field) {
                put_packed(out, alloc, field, many)
            } else {
                put_many(many, alloc, schema, field, room, out)
            }
        }
        Held::Pairs(pairs) => put_pairs(pairs, alloc, schema, field, room, out),
        _ => put_held(held, alloc, schema, field.number, field.kind, room, out),
    }
}

/// The records of the fields, field by field. Of a number of no field nothing is written.
#[cycle(write)]
fn put_fields(
    fields: &NumberMap<Held>,
    alloc: Global,
    schema: &Schema,
    type_at: usize,
    room: u32,
    out: &mut Blob,
) -> Result<(), NoMemory>
    ensures text { OnOk result (out.new ≡ out.old
        ++ text_of (fields_recs schema.now (fields_of schema.now type_at) (fields_in (map entry_of fields.now)))) }
    ensures order { IsAscending fields.now }
{
    for field in fields.as_slice() {
        if let Some(found) = schema.field_of(type_at, field.0) {
            put_value(&field.1, alloc, schema, found, room, out)?;
        }
    }
    Ok(())
}

/// The text of a content, where the stack holds `room` levels. Only where kept records stand among the fields by their
/// numbers are records made, to be put in order.
#[cycle(write)]
fn content_text(
    contents: &Contents,
    alloc: Global,
    schema: &Schema,
    type_at: usize,
    room: u32,
) -> Result<Blob, NoMemory>
    ensures { IfOk result (λ text. text ≡ encoded schema.now type_at (content_of contents.now)) }
{
    if room == 0 {
        return Err(NoMemory);
    }
    if !contents.kept.is_empty() && !schema.keeps_order(type_at) {
        return sorted_text(contents, alloc, schema, type_at, room);
    }
    let mut text = Blob::with_capacity(alloc, SHORT)?;
    put_fields(
        &contents.fields,
        alloc,
        schema,
        type_at,
        room - 1,
        &mut text,
    )?;
    put_recs(&mut text, &contents.kept)?;
    Ok(text)
}

/// The canonical encoding of the content. The only error is want of memory. The stack is memory too: where messages nest
/// more than 1,024 levels below the top, that is `NoMemory`.
pub fn encode(
    alloc: Global,
    schema: &Schema,
    type_at: usize,
    contents: &Contents,
) -> Result<Blob, NoMemory>
    ensures { IfOk result (λ bytes. bytes ≡ encoded schema.now type_at (content_of contents.now)) }
{
    content_text(contents, alloc, schema, type_at, DEEPEST + 1)
}
