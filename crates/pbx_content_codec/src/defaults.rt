//! Defaults of kinds (Protocol Buffers "Language Guide (proto 3)": Default Field Values), which are absent where a field has no
//! presence.

ghost use Rattle.std.specs.Prelude.{◌≡◌, Some, pos, option_map, IfOk};
ghost use Rattle.std.specs.Int.{w32};
ghost use Rattle.std.specs.Int.RustNames.{FitsSigned};
ghost use Rattle.std.specs.Ordering.{int_eq};
ghost use Rattle.pbx_content.specs.Meaning.{zero_of, zero_number as zero_number_of, is_default as is_default_of, shown as shown_of};
ghost use Rattle.pbx_content.specs.Shape.{first_number, first_of as first_of_values};
ghost use Rattle.pbx_content_codec.specs.View.{val_of};

use crate::contents::{Contents, Held};
use bytes::Bytes;
use pbx_content::{EnumShape, Kind, Schema};
use pbx_wire::{NoMemory, Text};
use std::alloc::Global;

/// The number of the default of a kind.
fn zero_number(schema: &Schema, kind: Kind) -> i32
    ensures { result ≡ zero_number_of schema.now kind }
{
    match kind {
        Kind::Enum(enum_at) => first_value(schema, enum_at),
        _ => 0,
    }
}

/// The number of the first value.
fn first_of(shape: &EnumShape) -> i32
    ensures is { result ≡ first_of_values shape.now.values }
    ensures fits { FitsSigned w32 result }
{
    match shape.values.as_slice().first() {
        Some(value) => value.number,
        None => 0,
    }
}

/// The number of an enum's first value, which is the enum's default; 0 at a place of no enum.
pub fn first_value(schema: &Schema, enum_at: usize) -> i32
    ensures { result ≡ first_number schema.now enum_at }
{
    let enums = schema.shape().enums.as_slice();
    if enum_at >= enums.len() {
        return 0;
    }
    first_of(&enums[enum_at])
}

/// Whether the value is the kind's default: zero, false, an enum's first value, an empty text, no bytes, no elements or no
/// pairs. A message never is.
#[tactic(auto, using(crate::proofs::Tree::default_many, crate::proofs::Tree::default_pairs))]
pub fn is_default(schema: &Schema, kind: Kind, held: &Held) -> bool
    ensures { result ≡ is_default_of schema.now kind (val_of held.now) }
{
    match held {
        Held::I32(value) => *value == zero_number(schema, kind),
        Held::I64(value) => *value == i64::from(zero_number(schema, kind)),
        Held::U32(value) => i64::from(*value) == i64::from(zero_number(schema, kind)),
        Held::U64(value) => is_zero(zero_number(schema, kind), *value),
        Held::Bool(value) => !*value,
        Held::Text(text) => text.as_str().is_empty(),
        Held::Bytes(bytes) => bytes.is_empty(),
        Held::Message(_) => false,
        Held::Many(many) => many.as_slice().is_empty(),
        Held::Pairs(pairs) => pairs.as_slice().is_empty(),
    }
}

/// Whether the numbers are equal.
fn is_zero(zero: i32, value: u64) -> bool
    ensures { result ≡ int_eq (pos value) zero }
{
    match u64::try_from(zero) {
        Ok(zero) => zero == value,
        Err(_) => false,
    }
}

/// The value of a field, unless it is the kind's default and the field has no presence: such a value is dropped.
pub fn unless_default(schema: &Schema, presence: bool, kind: Kind, held: Held) -> Option<Held>
    ensures { option_map val_of result ≡ shown_of schema.now presence kind (Some (val_of held)) }
{
    if presence {
        Some(held)
    } else if is_default(schema, kind, &held) {
        drop(held);
        None
    } else {
        Some(held)
    }
}

/// The default of a kind, as a value: zero, false, an enum's first value, an empty text, no bytes or a message that holds
/// nothing. The only error is want of memory.
pub fn kind_default(alloc: Global, schema: &Schema, kind: Kind) -> Result<Held, NoMemory>
    ensures { IfOk result (λ held. val_of held ≡ zero_of schema.now kind) }
{
    match kind {
        Kind::Bool => Ok(Held::Bool(false)),
        Kind::String => Ok(Held::Text(Text::from_str(alloc, "")?)),
        Kind::Bytes => Ok(Held::Bytes(Bytes::copy_from_slice(alloc, &[])?)),
        Kind::Message(_) => Ok(Held::Message(Contents::new(alloc))),
        Kind::Enum(_) => Ok(Held::I32(zero_number(schema, kind))),
        Kind::Int64 | Kind::Sint64 | Kind::Sfixed64 => Ok(Held::I64(0)),
        Kind::Uint32 | Kind::Fixed32 => Ok(Held::U32(0)),
        Kind::Uint64 | Kind::Fixed64 => Ok(Held::U64(0)),
        _ => Ok(Held::I32(0)),
    }
}
