ghost use Rattle.std.specs.Str.{is_utf8};
ghost use Rattle.std.specs.Int.{w32, w64};
ghost use Rattle.std.specs.Prelude.{◌≡◌, ◌⊎◌, ◌++◌, ◌∷◌, [], map, true, false, Some, IfOk, IfErr, OnOk, option_map, option_and_then};
ghost use Rattle.pbx_wire.specs.declared.error.DecodeError.TheVariants.{NoMemory as OutOfMemory, Utf8 as NotUtf8};
ghost use Rattle.pbx_wire.specs.View.{rec_of};
ghost use Rattle.pbx_content.specs.declared.shape.Shape.{Shape};
ghost use Rattle.pbx_content.specs.declared.shape.Kind.TheVariants.{String as StringKind, Bytes as BytesKind};
ghost use Rattle.pbx_content.specs.Shape.{form_of, is_float as is_float_of, is_packable as is_packable_of, as_varint, as_four, as_eight};
ghost use Rattle.pbx_content.specs.Content.{many as many_of, octets, vals_of};
ghost use Rattle.pbx_content.specs.Records.{bytes_of};
ghost use Rattle.pbx_content.specs.Meaning.{no_inner, as_text as as_text_of, alone as alone_of, spread as spread_of, shown as shown_of, packed as packed_of};
ghost use Rattle.pbx_content.specs.Onto.{elements as elements_of};
ghost use Rattle.pbx_content.proofs.OntoSplits.{is_plain};
ghost use Rattle.pbx_content_codec.specs.View.{val_of};
ghost use Rattle.pbx_content_codec.specs.Breaks.{front_number, AloneFails, PackedFails, SpreadFails};

use crate::contents::Held;
use crate::defaults::unless_default;
use crate::fields::{Form, form_of_kind, is_packable};
use crate::scalars::{from_eight, from_four, from_varint, list_held, number_alone};
use bytes::Bytes;
use pbx_content::{Kind, Schema};
use pbx_wire::{DecodeError, List, RecRef, Text, read_varint};
use std::alloc::Global;

/// The payload of a record of wire type 2.
pub(crate) fn payload<'a>(rec: &RecRef<'a>) -> Option<&'a [u8]>
    ensures { option_map (λ b. b.now) result ≡ bytes_of (rec_of rec.now) }
{
    match rec {
        RecRef::Bytes(_, bytes) => Some(*bytes),
        _ => None,
    }
}

/// The bytes as a text.
fn as_text(alloc: Global, at: usize, bytes: &[u8]) -> Result<Held, DecodeError>
    ensures found { IfOk result (λ held. as_text_of bytes.now ≡ Some (val_of held)) }
    ensures fault { IfErr result (λ e. (e ≡ OutOfMemory) ⊎ ((e ≡ NotUtf8 at) × (is_utf8 bytes.now ≡ false))) }
{
    match std::str::from_utf8(bytes) {
        Ok(text) => Ok(Held::Text(Text::from_str(alloc, text)?)),
        Err(_) => Err(DecodeError::Utf8(at)),
    }
}

fn text_alone(alloc: Global, at: usize, rec: &RecRef<'_>) -> Result<Held, DecodeError>
    ensures found { IfOk result (λ held. option_and_then as_text_of (bytes_of (rec_of rec.now)) ≡ Some (val_of held)) }
    ensures fault { IfErr result (λ e. (e ≡ OutOfMemory) ⊎ AloneFails StringKind at (rec_of rec.now) e) }
{
    match payload(rec) {
        Some(bytes) => as_text(alloc, at, bytes),
        None => Err(DecodeError::WireType(at)),
    }
}

fn bytes_alone(alloc: Global, at: usize, rec: &RecRef<'_>) -> Result<Held, DecodeError>
    ensures found { IfOk result (λ held. option_map octets (bytes_of (rec_of rec.now)) ≡ Some (val_of held)) }
    ensures fault { IfErr result (λ e. (e ≡ OutOfMemory) ⊎ AloneFails BytesKind at (rec_of rec.now) e) }
{
    match payload(rec) {
        Some(bytes) => Ok(Held::Bytes(Bytes::copy_from_slice(alloc, bytes)?)),
        None => Err(DecodeError::WireType(at)),
    }
}

/// The value of a record, where the kind is no float and no message.
fn alone(alloc: Global, kind: Kind, at: usize, rec: &RecRef<'_>) -> Result<Held, DecodeError>
    requires plain { is_plain kind ≡ true }
    requires read { is_float_of kind ≡ false }
    ensures found { IfOk result (λ held. (shape : Shape) → alone_of shape no_inner kind (rec_of rec.now) ≡ Some (val_of held)) }
    ensures fault { IfErr result (λ e. (e ≡ OutOfMemory) ⊎ AloneFails kind at (rec_of rec.now) e) }
{
    match kind {
        Kind::String => text_alone(alloc, at, rec),
        Kind::Bytes => bytes_alone(alloc, at, rec),
        _ => match number_alone(kind, rec) {
            Some(held) => Ok(held),
            None => Err(DecodeError::WireType(at)),
        },
    }
}

/// The values with the numbers of a payload of varints behind them.
fn push_varints(
    kind: Kind,
    at: usize,
    bytes: &[u8],
    many: List<Held>,
) -> Result<List<Held>, DecodeError>
    requires { form_of kind ≡ as_varint }
    ensures found { IfOk result (λ new. option_map (λ vs. map val_of many ++ vs) (packed_of kind bytes.now) ≡ Some (map val_of new)) }
    ensures fault { IfErr result (λ e. (e ≡ OutOfMemory) ⊎ PackedFails kind at bytes.now e) }
{
    let mut many = many;
    let mut rest = bytes;
    while rest.len() > 0 {
        match read_varint(at, rest) {
            Ok((value, after)) => {
                many.add(from_varint(kind, value))?;
                rest = after;
            }
            Err(fault) => return Err(fault),
        }
    }
    Ok(many)
}

/// The four bytes at the front as a number, and the bytes behind it.
fn front_four(bytes: &[u8]) -> Option<(u32, &[u8])>
    ensures { option_map (λ x. (x.0, x.1.now)) result ≡ front_number w32 4 bytes.now }
{
    if bytes.len() < 4 {
        return None;
    }
    let (front, rest) = bytes.split_at(4);
    let value = u32::from_le_bytes([front[0], front[1], front[2], front[3]]);
    Some((value, rest))
}

/// The eight bytes at the front as a number, and the bytes behind it.
fn front_eight(bytes: &[u8]) -> Option<(u64, &[u8])>
    ensures { option_map (λ x. (x.0, x.1.now)) result ≡ front_number w64 8 bytes.now }
{
    if bytes.len() < 8 {
        return None;
    }
    let (front, rest) = bytes.split_at(8);
    let value = u64::from_le_bytes([
        front[0], front[1], front[2], front[3], front[4], front[5], front[6], front[7],
    ]);
    Some((value, rest))
}

/// The same where each number has four bytes.
fn push_fours(
    kind: Kind,
    at: usize,
    bytes: &[u8],
    many: List<Held>,
) -> Result<List<Held>, DecodeError>
    requires { form_of kind ≡ as_four }
    ensures found { IfOk result (λ new. option_map (λ vs. map val_of many ++ vs) (packed_of kind bytes.now) ≡ Some (map val_of new)) }
    ensures fault { IfErr result (λ e. (e ≡ OutOfMemory) ⊎ PackedFails kind at bytes.now e) }
{
    let mut many = many;
    let mut rest = bytes;
    while rest.len() > 0 {
        match front_four(rest) {
            Some((value, after)) => {
                many.add(from_four(kind, value))?;
                rest = after;
            }
            None => return Err(DecodeError::Underflow(at)),
        }
    }
    Ok(many)
}

/// The same where each number has eight bytes.
fn push_eights(
    kind: Kind,
    at: usize,
    bytes: &[u8],
    many: List<Held>,
) -> Result<List<Held>, DecodeError>
    requires { form_of kind ≡ as_eight }
    ensures found { IfOk result (λ new. option_map (λ vs. map val_of many ++ vs) (packed_of kind bytes.now) ≡ Some (map val_of new)) }
    ensures fault { IfErr result (λ e. (e ≡ OutOfMemory) ⊎ PackedFails kind at bytes.now e) }
{
    let mut many = many;
    let mut rest = bytes;
    while rest.len() > 0 {
        match front_eight(rest) {
            Some((value, after)) => {
                many.add(from_eight(kind, value))?;
                rest = after;
            }
            None => return Err(DecodeError::Underflow(at)),
        }
    }
    Ok(many)
}

/// The values with the numbers of a payload behind them.
fn push_packed(
    kind: Kind,
    at: usize,
    bytes: &[u8],
    many: List<Held>,
) -> Result<List<Held>, DecodeError>
    requires { is_packable_of kind ≡ true }
    ensures found { IfOk result (λ new. option_map (λ vs. map val_of many ++ vs) (packed_of kind bytes.now) ≡ Some (map val_of new)) }
    ensures fault { IfErr result (λ e. (e ≡ OutOfMemory) ⊎ PackedFails kind at bytes.now e) }
{
    match form_of_kind(kind) {
        Form::Varint => push_varints(kind, at, bytes, many),
        Form::Four => push_fours(kind, at, bytes, many),
        _ => push_eights(kind, at, bytes, many),
    }
}

/// The values with the record's one behind them.
fn push_alone(
    alloc: Global,
    kind: Kind,
    at: usize,
    rec: &RecRef<'_>,
    many: List<Held>,
) -> Result<List<Held>, DecodeError>
    requires plain { is_plain kind ≡ true }
    requires read { is_float_of kind ≡ false }
    ensures found { IfOk result (λ new. (shape : Shape)
        → option_map (λ v. map val_of many ++ v ∷ []) (alone_of shape no_inner kind (rec_of rec.now)) ≡ Some (map val_of new)) }
    ensures fault { IfErr result (λ e. (e ≡ OutOfMemory) ⊎ AloneFails kind at (rec_of rec.now) e) }
{
    let mut many = many;
    match alone(alloc, kind, at, rec) {
        Ok(held) => {
            many.add(held)?;
            Ok(many)
        }
        Err(fault) => Err(fault),
    }
}

/// The values with those of a record behind them, which may be packed.
fn push_values(
    alloc: Global,
    kind: Kind,
    at: usize,
    rec: &RecRef<'_>,
    many: List<Held>,
) -> Result<List<Held>, DecodeError>
    requires plain { is_plain kind ≡ true }
    requires read { is_float_of kind ≡ false }
    ensures found { IfOk result (λ new. (shape : Shape)
        → option_map (λ vs. map val_of many ++ vs) (spread_of shape no_inner kind (rec_of rec.now)) ≡ Some (map val_of new)) }
    ensures fault { IfErr result (λ e. (e ≡ OutOfMemory) ⊎ SpreadFails kind at (rec_of rec.now) e) }
{
    if is_packable(kind) {
        match payload(rec) {
            Some(bytes) => push_packed(kind, at, bytes, many),
            None => push_alone(alloc, kind, at, rec, many),
        }
    } else {
        push_alone(alloc, kind, at, rec, many)
    }
}

/// What a field of at most one value has with a record, where its kind is no float and no message.
pub(crate) fn set_value(
    alloc: Global,
    schema: &Schema,
    presence: bool,
    kind: Kind,
    at: usize,
    held: &mut Option<Held>,
    rec: &RecRef<'_>,
) -> Result<(), DecodeError>
    requires plain { is_plain kind ≡ true }
    requires read { is_float_of kind ≡ false }
    ensures found { OnOk result (option_map (λ v. shown_of schema.now presence kind (Some v)) (alone_of schema.now no_inner kind (rec_of rec.now))
        ≡ Some (option_map val_of held.new)) }
    ensures fault { IfErr result (λ e. (e ≡ OutOfMemory) ⊎ AloneFails kind at (rec_of rec.now) e) }
{
    match alone(alloc, kind, at, rec) {
        Ok(new) => {
            *held = unless_default(schema, presence, kind, new);
            Ok(())
        }
        Err(fault) => Err(fault),
    }
}

/// What a repeated field has with a record, where its kind is no float and no message.
pub(crate) fn add_values(
    alloc: Global,
    schema: &Schema,
    kind: Kind,
    at: usize,
    held: &mut Option<Held>,
    rec: &RecRef<'_>,
) -> Result<(), DecodeError>
    requires plain { is_plain kind ≡ true }
    requires read { is_float_of kind ≡ false }
    ensures found { OnOk result (option_map (λ vs. shown_of schema.now false kind (Some (many_of (vals_of (elements_of (option_map val_of held.old) ++ vs)))))
        (spread_of schema.now no_inner kind (rec_of rec.now)) ≡ Some (option_map val_of held.new)) }
    ensures fault { IfErr result (λ e. (e ≡ OutOfMemory) ⊎ SpreadFails kind at (rec_of rec.now) e) }
{
    match push_values(alloc, kind, at, rec, list_held(alloc, held.take())) {
        Ok(many) => {
            *held = unless_default(schema, false, kind, Held::Many(many));
            Ok(())
        }
        Err(fault) => Err(fault),
    }
}
