ghost use Rattle.std.specs.Prelude.{◌≡◌, ℕ, ◌%◌, ◌^◌, ◌<◌, pos, map, IfOk};
ghost use Rattle.std.specs.List.{concat};
ghost use Rattle.std.specs.Int.{w32, w64, to_le_bytes};
ghost use Rattle.pbx_wire.specs.Varint.{varint};
ghost use Rattle.pbx_content.specs.Content.{vals_of};
ghost use Rattle.pbx_content.specs.Shape.{as_four, form_of};
ghost use Rattle.pbx_content.specs.Encoding.{zigzag as zigzag_of, wire_number, numeral as numeral_of, number_rec, packed_text, is_packed as is_packed_of};
ghost use Rattle.pbx_content_codec.specs.View.{val_of};

use crate::contents::Held;
use crate::fields::{Form, form_of_kind};
use pbx_content::{FieldShape, Kind};
use pbx_wire::{Blob, List, NoMemory, Rec, put_varint};
use std::alloc::Global;

fn zigzag(value: i64) -> u64
    ensures { result ≡ zigzag_of value % 2 ^ 64 }
{
    if value < 0 {
        2 * (-(value + 1)) as u64 + 1
    } else {
        2 * value as u64
    }
}

/// A signed number as it is on the wire.
pub(crate) fn signed_number(kind: Kind, value: i64) -> u64
    ensures { result ≡ wire_number kind value }
{
    match kind {
        Kind::Sint32 | Kind::Sint64 => zigzag(value),
        Kind::Fixed32 | Kind::Sfixed32 | Kind::Float => value.cast_unsigned() % 4294967296,
        _ => value.cast_unsigned(),
    }
}

/// An unsigned number as it is on the wire. Zigzag keeps its low 64 bits.
pub(crate) fn unsigned_number(kind: Kind, value: u64) -> u64
    ensures { result ≡ wire_number kind (pos value) }
{
    match kind {
        Kind::Sint32 | Kind::Sint64 => value.wrapping_mul(2),
        Kind::Fixed32 | Kind::Sfixed32 | Kind::Float => value % 4294967296,
        _ => value,
    }
}

/// The number that a scalar is written as.
pub(crate) fn numeral(kind: Kind, held: &Held) -> u64
    ensures { result ≡ numeral_of kind (val_of held.now) }
{
    match held {
        Held::I32(value) => signed_number(kind, i64::from(*value)),
        Held::I64(value) => signed_number(kind, *value),
        Held::U32(value) => unsigned_number(kind, u64::from(*value)),
        Held::U64(value) => unsigned_number(kind, *value),
        Held::Bool(value) => u64::from(*value),
        Held::Text(_) | Held::Bytes(_) | Held::Message(_) | Held::Many(_) | Held::Pairs(_) => 0,
    }
}

/// A number at a field number, in the form of its kind.
pub(crate) fn number_record(
    alloc: Global,
    number: u32,
    kind: Kind,
    value: u64,
) -> Result<Rec, NoMemory>
    requires { form_of kind ≡ as_four → value < 2 ^ 32 }
    ensures { IfOk result (λ it. it ≡ number_rec number (form_of kind) value) }
{
    match form_of_kind(kind) {
        Form::Varint => Ok(Rec::Varint(number, value)),
        Form::Four => Ok(Rec::Fixed32(number, value as u32)),
        Form::Eight => Ok(Rec::Fixed64(number, value)),
        Form::Payload => Rec::from_payload(number, Blob::new(alloc)),
    }
}

/// Whether a list of the field is written as one record.
pub(crate) fn is_packed(field: &FieldShape) -> bool
    ensures { result ≡ is_packed_of field.now }
{
    field.packed && !matches!(field.kind, Kind::String | Kind::Bytes | Kind::Message(_))
}

/// The numbers that the scalars are written as.
fn numerals(alloc: Global, kind: Kind, many: &[Held]) -> Result<List<u64>, NoMemory>
    ensures { IfOk result (λ values. values ≡ map (λ held. numeral_of kind (val_of held)) many.now) }
{
    let mut values = List::with_capacity(alloc, many.len())?;
    for held in many {
        values.add(numeral(kind, held))?;
    }
    Ok(values)
}

/// The shortest spellings of the numbers that the scalars are written as.
fn varints_payload(alloc: Global, kind: Kind, many: &[Held]) -> Result<Blob, NoMemory>
    ensures { IfOk result (λ blob. blob ≡ concat (map varint (map (λ held. numeral_of kind (val_of held)) many.now))) }
{
    let mut text = Blob::with_capacity(alloc, many.len())?;
    for held in many {
        put_varint(&mut text, numeral(kind, held))?;
    }
    Ok(text)
}

/// The numbers in four bytes each, of which the least comes first.
fn fours_text(alloc: Global, values: &[u64]) -> Result<Blob, NoMemory>
    ensures { IfOk result (λ blob. blob ≡ concat (map (to_le_bytes w32) values.now)) }
{
    let mut text = Blob::new(alloc);
    for value in values {
        let low = (*value % 4294967296) as u32;
        text.append(&low.to_le_bytes())?;
    }
    Ok(text)
}

/// The numbers in eight bytes each, of which the least comes first.
fn eights_text(alloc: Global, values: &[u64]) -> Result<Blob, NoMemory>
    ensures { IfOk result (λ blob. blob ≡ concat (map (to_le_bytes w64) values.now)) }
{
    let mut text = Blob::new(alloc);
    for value in values {
        text.append(&value.to_le_bytes())?;
    }
    Ok(text)
}

/// The numbers of a list, one after another.
pub(crate) fn packed_payload(alloc: Global, kind: Kind, many: &[Held]) -> Result<Blob, NoMemory>
    ensures { IfOk result (λ blob. blob ≡ packed_text kind (vals_of (map val_of many.now))) }
{
    match form_of_kind(kind) {
        Form::Varint => varints_payload(alloc, kind, many),
        Form::Four => fours_text(alloc, numerals(alloc, kind, many)?.as_slice()),
        Form::Eight => eights_text(alloc, numerals(alloc, kind, many)?.as_slice()),
        Form::Payload => Ok(Blob::new(alloc)),
    }
}
