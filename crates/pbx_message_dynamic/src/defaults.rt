// What fields have that have no value.
ghost use Rattle.std.specs.Prelude.{◌≡◌, ◌<◌, ◌^◌, ℕ, pos, List as ListOf, true, false, Some, unwrap_or, IsTrue, IfOk};
ghost use Rattle.std.specs.Int.{w32, w64};
ghost use Rattle.std.specs.Int.RustNames.{FitsSigned};
ghost use Rattle.std.specs.Str.{is_utf8};
ghost use Rattle.pbx_parse_token.specs.Escapes.{unescaped};
ghost use Rattle.pbx_content.specs.declared.shape.Kind.TheVariants as kinds;
ghost use Rattle.pbx_content.specs.Content.{octets, number as number_of};
ghost use Rattle.pbx_content.specs.Shape.{enum_values_of, is_float};
ghost use Rattle.pbx_content.specs.Sound.{IsNumber, IsElement};
ghost use Rattle.pbx_content_codec.specs.View.{val_of};
ghost use Rattle.pbx_link_definitions.specs.Says.{signed_or_zero};
ghost use Rattle.pbx_link_rules_scope.specs.Defaults.{decimal_value, digits_value as digits_value_of};
ghost use Rattle.pbx_link_rules_scope.specs.Digits.{with_digit as with_digit_of, small};
ghost use Rattle.pbx_message_laws.specs.Defaults.{number_named as number_named_of, enum_default as enum_default_of, declared_val, default_of};
ghost use Rattle.pbx_message_laws.specs.Pools.{IsReadable};
ghost use Rattle.pbx_message_laws.specs.Settable.{IsSettable};

use bytes::Bytes;
use pbx_content::{Cardinality, EnumValueShape, FieldShape, Kind, Schema};
use pbx_content_codec::{Held, first_value, kind_default};
use pbx_parse_token::unescape;
use pbx_wire::{List, NoMemory, Text};
use std::alloc::Global;

/// The number with a digit behind it, if it is a digit and the number is below 2^64.
fn with_digit(number: u64, digit: u8) -> Option<u64>
    ensures { result ≡ with_digit_of number digit }
{
    match digit {
        b'0'..=b'9' => number.checked_mul(10)?.checked_add(u64::from(digit - b'0')),
        _ => None,
    }
}

/// The number that digits spell, if these are digits, one or more, and it is below 2^64.
fn digits_value(digits: &[u8]) -> Option<u64>
    ensures { result ≡ small (digits_value_of digits.now) }
{
    if digits.is_empty() {
        return None;
    }
    let mut number = 0;
    for digit in digits {
        match with_digit(number, *digit) {
            Some(longer) => number = longer,
            None => return None,
        }
    }
    Some(number)
}

/// The number that digits spell, where it is below 2^64; 0 where they spell none.
#[tactic(auto, using(crate::proofs::Decimals::small_number))]
fn digits_number(digits: &[u8]) -> u64
    ensures { unwrap_or (digits_value_of digits.now) 0 < 2 ^ 64 → result ≡ unwrap_or (digits_value_of digits.now) 0 }
{
    digits_value(digits).unwrap_or(0)
}

/// The number that a decimal text spells; 0 where it spells none.
fn unsigned(text: &[u8]) -> u64
    ensures { (n : ℕ) → signed_or_zero (decimal_value true text.now) ≡ pos n → n < 2 ^ 64 → result ≡ n }
{
    match text {
        [b'+', digits @ ..] => digits_number(digits),
        _ => digits_number(text),
    }
}

/// The number that a decimal text spells; 0 where it spells none.
fn signed(text: &[u8]) -> i64
    ensures { FitsSigned w64 (signed_or_zero (decimal_value true text.now)) → result ≡ signed_or_zero (decimal_value true text.now) }
{
    match text {
        [b'-', digits @ ..] => 0u64.wrapping_sub(digits_number(digits)).cast_signed(),
        _ => unsigned(text).cast_signed(),
    }
}

/// The number of the kind that a decimal text spells.
fn number_held(kind: Kind, text: &[u8]) -> Held
    requires { IsNumber kind (signed_or_zero (decimal_value true text.now)) }
    ensures { val_of result ≡ number_of (signed_or_zero (decimal_value true text.now)) }
{
    match kind {
        Kind::Int64 | Kind::Sint64 | Kind::Sfixed64 => Held::I64(signed(text)),
        Kind::Uint32 | Kind::Fixed32 => Held::U32(u32::try_from(unsigned(text)).unwrap_or(0)),
        Kind::Uint64 | Kind::Fixed64 => Held::U64(unsigned(text)),
        _ => Held::I32(i32::try_from(signed(text)).unwrap_or(0)),
    }
}

/// The values of an enum.
fn enum_values(schema: &Schema, enum_at: usize) -> &[EnumValueShape]
    ensures { result.now ≡ enum_values_of schema.now enum_at }
{
    let enums = schema.shape().enums.as_slice();
    if enum_at >= enums.len() {
        return &[];
    }
    enums[enum_at].values.as_slice()
}

/// The number of the first value of the name, or this one where no value has it.
fn number_named(name: &str, number: i32, values: &[EnumValueShape]) -> i32
    ensures { result ≡ number_named_of name.now number values.now }
{
    for value in values {
        if value.name.as_str() == name {
            return value.number;
        }
    }
    number
}

/// The bytes that an escaped text stands for.
fn bytes_default(alloc: Global, text: &str) -> Result<Held, NoMemory>
    ensures { IfOk result (λ held. val_of held ≡ octets (unescaped text.now)) }
{
    let bytes = unescape(alloc, text)?;
    Ok(Held::Bytes(Bytes::copy_from_slice(alloc, bytes.as_slice())?))
}

/// The value that the text of a default says for a kind.
fn declared(alloc: Global, schema: &Schema, kind: Kind, text: &str) -> Result<Held, NoMemory>
    requires { IsElement schema.now kind (declared_val schema.now kind text.now) }
    ensures { IfOk result (λ held. val_of held ≡ declared_val schema.now kind text.now) }
{
    match kind {
        Kind::Bool => Ok(Held::Bool(text == "true")),
        Kind::String => Ok(Held::Text(Text::from_str(alloc, text)?)),
        Kind::Bytes => bytes_default(alloc, text),
        Kind::Enum(enum_at) => Ok(Held::I32(number_named(
            text,
            first_value(schema, enum_at),
            enum_values(schema, enum_at),
        ))),
        Kind::Message(_) => kind_default(alloc, schema, kind),
        _ => Ok(number_held(kind, text.as_bytes())),
    }
}

/// What the field has that has no value. The only error is want of memory.
pub(crate) fn default_held(
    alloc: Global,
    schema: &Schema,
    field: &FieldShape,
) -> Result<Held, NoMemory>
    requires { IsSettable schema.now field.now (default_of schema.now field.now) }
    ensures { IfOk result (λ held. val_of held ≡ default_of schema.now field.now) }
{
    match field.cardinality {
        Cardinality::Repeated => Ok(Held::Many(List::new(alloc))),
        Cardinality::Map(_) => Ok(Held::Pairs(List::new(alloc))),
        Cardinality::Singular => match &field.default {
            Some(text) => declared(alloc, schema, field.kind, text.as_str()),
            None => kind_default(alloc, schema, field.kind),
        },
    }
}

/// The number of an enum's default, by its name where one is declared. It has 32 bits, as numbers of values have.
fn enum_default(schema: &Schema, enum_at: usize, default: &Option<Text>) -> i32
    ensures is { result ≡ enum_default_of schema.now enum_at default.now }
    ensures fits { FitsSigned w32 result }
{
    let first = first_value(schema, enum_at);
    match default {
        Some(text) => number_named(text.as_str(), first, enum_values(schema, enum_at)),
        None => first,
    }
}

/// A declared default is UTF-8.
fn default_is_text(default: &Option<Text>)
    ensures { (t : ListOf ℕ) → default.now ≡ Some t → IsTrue (is_utf8 t) }
{
    if let Some(text) = default {
        let _utf8 = text.as_str();
    }
}

/// The number of an enum's default has 32 bits.
fn default_is_number(schema: &Schema, field: &FieldShape)
    ensures { (e : ℕ) → field.now.kind ≡ kinds.Enum e → FitsSigned w32 (enum_default_of schema.now e field.now.default) }
{
    if let Kind::Enum(enum_at) = field.kind {
        enum_default(schema, enum_at, &field.default);
    }
}

/// What the types of a field's parts say of its default.
pub(crate) fn default_is_readable(schema: &Schema, field: &FieldShape)
    requires { is_float field.now.kind ≡ false }
    ensures { IsReadable schema.now field.now }
{
    default_is_text(&field.default);
    default_is_number(schema, field);
}
