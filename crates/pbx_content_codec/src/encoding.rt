ghost use Rattle.std.specs.Prelude.{◌≡◌, [], ◌∷◌, ◌++◌, map, Some, IfOk, OnOk};
ghost use Rattle.pbx_wire.specs.declared.rec.Rec.TheVariants as rec;
ghost use Rattle.pbx_content.specs.Content.{vals_of, pairs_of};
ghost use Rattle.pbx_content.specs.Shape.{fields_of, form_of};
ghost use Rattle.pbx_content.specs.Encoding.{content_recs, fields_recs, field_recs, vals_recs, pairs_recs, val_rec};
ghost use Rattle.pbx_content.specs.Encoding.{key_rec, type_of, keys_of, payload, number_rec, packed_text, numeral as numeral_of};
ghost use Rattle.pbx_content_codec.specs.View.{val_of, content_of, entry_of, pair_of, key_of, fields_in};

use crate::contents::{Contents, Held, Pair};
use crate::key::MapKey;
use crate::levels::DEEPEST;
use crate::numeral::{
    is_packed, number_record, numeral, packed_payload, signed_number, unsigned_number,
};
use crate::order::with_kept;
use bytes::Bytes;
use pbx_content::{Cardinality, FieldShape, Kind, Schema};
use pbx_content_map::NumberMap;
use pbx_wire::{Blob, List, NoMemory, Rec, Recs, recs_text};
use std::alloc::Global;

/// The place of a message type.
pub(crate) fn message_type(kind: Kind) -> usize
    ensures { result ≡ type_of kind }
{
    match kind {
        Kind::Message(type_at) => type_at,
        _ => 0,
    }
}

/// The kind of the keys; a field that is no map has none, and any stands for it.
pub(crate) fn key_kind(cardinality: Cardinality) -> Kind
    ensures { result ≡ keys_of cardinality }
{
    match cardinality {
        Cardinality::Map(key) => key,
        Cardinality::Singular | Cardinality::Repeated => Kind::Bool,
    }
}

/// A text as the payload of a record.
fn text_record(alloc: Global, number: u32, text: &str) -> Result<Rec, NoMemory>
    ensures { IfOk result (λ it. it ≡ rec.Bytes number text.now) }
{
    Rec::from_payload(number, Blob::from_slice(alloc, text.as_bytes())?)
}

/// A key of a map at its number in the entry.
fn key_record(alloc: Global, kind: Kind, key: &MapKey) -> Result<Rec, NoMemory>
    ensures { IfOk result (λ it. it ≡ key_rec kind (key_of key.now)) }
{
    match key {
        MapKey::Bool(value) => Ok(Rec::Varint(1, u64::from(*value))),
        MapKey::I32(value) => number_record(alloc, 1, kind, signed_number(kind, i64::from(*value))),
        MapKey::I64(value) => number_record(alloc, 1, kind, signed_number(kind, *value)),
        MapKey::U32(value) => number_record(
            alloc,
            1,
            kind,
            unsigned_number(kind, u64::from(*value)),
        ),
        MapKey::U64(value) => number_record(alloc, 1, kind, unsigned_number(kind, *value)),
        MapKey::String(text) => text_record(alloc, 1, text.as_str()),
    }
}

/// A number or truth value at a number; of another value 0.
fn scalar_record(held: &Held, alloc: Global, number: u32, kind: Kind) -> Result<Rec, NoMemory>
    ensures { IfOk result (λ it. it ≡ number_rec number (form_of kind) (numeral_of kind (val_of held.now))) }
{
    number_record(alloc, number, kind, numeral(kind, held))
}

/// Bytes as the payload of a record.
fn bytes_record(number: u32, bytes: &Bytes) -> Result<Rec, NoMemory>
    ensures { IfOk result (λ it. it ≡ rec.Bytes number bytes.now) }
{
    Ok(Rec::Bytes(number, bytes.clone()?))
}

/// The records of a message as the payload of a record.
fn message_record(alloc: Global, number: u32, recs: Recs) -> Result<Rec, NoMemory>
    ensures { IfOk result (λ it. it ≡ payload number recs) }
{
    Rec::from_payload(number, recs_text(alloc, &recs)?)
}

/// One value of a kind, at a number. A list or a map inside a list or a map, which no message has, is an empty payload.
#[cycle(encode)]
fn held_record(
    held: &Held,
    alloc: Global,
    schema: &Schema,
    number: u32,
    kind: Kind,
    room: u32,
) -> Result<Rec, NoMemory>
    ensures { IfOk result (λ it. it ≡ val_rec schema.now number kind (val_of held.now)) }
{
    match held {
        Held::Text(text) => text_record(alloc, number, text.as_str()),
        Held::Bytes(bytes) => bytes_record(number, bytes),
        Held::Message(inner) => match records_of(inner, alloc, schema, message_type(kind), room) {
            Ok(recs) => message_record(alloc, number, recs),
            Err(error) => Err(error),
        },
        Held::Many(_) | Held::Pairs(_) => Rec::from_payload(number, Blob::new(alloc)),
        _ => scalar_record(held, alloc, number, kind),
    }
}

/// The record of the key in a list that has room for that of the value.
fn key_alone(alloc: Global, kind: Kind, key: &MapKey) -> Result<Recs, NoMemory>
    ensures { IfOk result (λ recs. recs ≡ key_rec kind (key_of key.now) ∷ []) }
{
    let mut entry = Recs::with_capacity(alloc, 2)?;
    entry.add(key_record(alloc, kind, key)?)?;
    Ok(entry)
}

/// An entry of a map with the key and the record of the value.
fn entry_record(
    alloc: Global,
    number: u32,
    kind: Kind,
    key: &MapKey,
    value: Rec,
) -> Result<Rec, NoMemory>
    ensures { IfOk result (λ it. it ≡ payload number (key_rec kind (key_of key.now) ∷ value ∷ [])) }
{
    let Ok(mut entry) = key_alone(alloc, kind, key) else {
        drop(value);
        return Err(NoMemory);
    };
    entry.add(value)?;
    message_record(alloc, number, entry)
}

/// A pair of a map: an entry with key and value.
#[cycle(encode)]
fn pair_record(
    pair: &Pair,
    alloc: Global,
    schema: &Schema,
    number: u32,
    key: Kind,
    value: Kind,
    room: u32,
) -> Result<Rec, NoMemory>
    ensures { IfOk result (λ it. it ≡ payload number (key_rec key (pair_of pair.now).0 ∷ val_rec schema.now 2 value (pair_of pair.now).1 ∷ [])) }
{
    match held_record(&pair.held, alloc, schema, 2, value, room) {
        Ok(value) => entry_record(alloc, number, key, &pair.key, value),
        Err(error) => Err(error),
    }
}

/// Adds a record for each value of a list.
#[cycle(encode)]
fn add_many(
    many: &List<Held>,
    alloc: Global,
    schema: &Schema,
    field: &FieldShape,
    room: u32,
    recs: &mut Recs,
) -> Result<(), NoMemory>
    ensures { OnOk result (recs.new ≡ recs.old ++ vals_recs schema.now field.now.number field.now.kind (vals_of (map val_of many.now))) }
{
    for held in many.as_slice() {
        let record = held_record(held, alloc, schema, field.number, field.kind, room)?;
        recs.add(record)?;
    }
    Ok(())
}

/// Adds an entry for each pair of a map.
#[cycle(encode)]
fn add_pairs(
    pairs: &List<Pair>,
    alloc: Global,
    schema: &Schema,
    field: &FieldShape,
    room: u32,
    recs: &mut Recs,
) -> Result<(), NoMemory>
    ensures { OnOk result (recs.new ≡ recs.old
        ++ pairs_recs schema.now field.now.number (keys_of field.now.cardinality) field.now.kind (pairs_of (map pair_of pairs.now))) }
{
    let key = key_kind(field.cardinality);
    for pair in pairs.as_slice() {
        let record = pair_record(pair, alloc, schema, field.number, key, field.kind, room)?;
        recs.add(record)?;
    }
    Ok(())
}

/// Adds the one record of a list of numbers.
fn add_packed(
    many: &List<Held>,
    alloc: Global,
    field: &FieldShape,
    recs: &mut Recs,
) -> Result<(), NoMemory>
    ensures { OnOk result (recs.new ≡ recs.old ++ rec.Bytes field.now.number (packed_text field.now.kind (vals_of (map val_of many.now))) ∷ []) }
{
    let payload = packed_payload(alloc, field.kind, many.as_slice())?;
    recs.add(Rec::from_payload(field.number, payload)?)
}

/// Adds the records of a field's value.
#[cycle(encode)]
fn add_held(
    held: &Held,
    alloc: Global,
    schema: &Schema,
    field: &FieldShape,
    room: u32,
    recs: &mut Recs,
) -> Result<(), NoMemory>
    ensures { OnOk result (recs.new ≡ recs.old ++ field_recs schema.now (Some field.now) (val_of held.now)) }
{
    match held {
        Held::Many(many) => {
            if is_packed(field) {
                add_packed(many, alloc, field, recs)
            } else {
                add_many(many, alloc, schema, field, room, recs)
            }
        }
        Held::Pairs(pairs) => add_pairs(pairs, alloc, schema, field, room, recs),
        _ => match held_record(held, alloc, schema, field.number, field.kind, room) {
            Ok(record) => recs.add(record),
            Err(error) => Err(error),
        },
    }
}

/// The records of the fields, field by field. Of a number of no field nothing is written.
#[cycle(encode)]
fn fields_records(
    fields: &NumberMap<Held>,
    alloc: Global,
    schema: &Schema,
    type_at: usize,
    room: u32,
) -> Result<Recs, NoMemory>
    ensures { IfOk result (λ recs. recs ≡ fields_recs schema.now (fields_of schema.now type_at) (fields_in (map entry_of fields.now))) }
{
    let mut recs = Recs::new(alloc);
    for field in fields.as_slice() {
        if let Some(found) = schema.field_of(type_at, field.0) {
            add_held(&field.1, alloc, schema, found, room, &mut recs)?;
        }
    }
    Ok(recs)
}

/// The records of a content, where the stack holds `room` levels.
#[cycle(encode)]
pub(crate) fn records_of(
    contents: &Contents,
    alloc: Global,
    schema: &Schema,
    type_at: usize,
    room: u32,
) -> Result<Recs, NoMemory>
    ensures { IfOk result (λ recs. recs ≡ content_recs schema.now type_at (content_of contents.now)) }
{
    if room == 0 {
        return Err(NoMemory);
    }
    let own = fields_records(&contents.fields, alloc, schema, type_at, room - 1)?;
    with_kept(alloc, schema.keeps_order(type_at), own, &contents.kept)
}

/// The records of the canonical encoding of the content. The only error is want of memory. The stack is memory too:
/// where messages nest more than 1,024 levels below the top, that is `NoMemory`.
pub fn content_records(
    alloc: Global,
    schema: &Schema,
    type_at: usize,
    contents: &Contents,
) -> Result<Recs, NoMemory>
    ensures { IfOk result (λ recs. recs ≡ content_recs schema.now type_at (content_of contents.now)) }
{
    records_of(contents, alloc, schema, type_at, DEEPEST + 1)
}
