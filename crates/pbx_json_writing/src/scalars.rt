ghost use Rattle.std.specs.Prelude.{◌≡◌, ◌⊎◌, Some, true, Err, IfOk, IfErr};
ghost use Rattle.std.specs.Fmt.{signed_decimal};
ghost use Rattle.pbx_text.specs.Base64.{base64_text};
ghost use Rattle.serde_json.specs.Data.{string};
ghost use Rattle.serde_json.specs.View.{view};
ghost use Rattle.pbx_content.specs.Content.{number as number_of, truth, text as text_of, octets};
ghost use Rattle.pbx_content_codec.specs.View.{val_of, key_of};
ghost use Rattle.pbx_json_meaning.specs.Asked.{one};
ghost use Rattle.pbx_json_meaning.specs.Canonical.{is_wide as is_wide_of, integer, integer_tree as integer_tree_of, enum_tree as enum_tree_of};
ghost use Rattle.pbx_content.specs.Meaning.{zero_of};
ghost use Rattle.pbx_json_meaning.specs.Canonical.{default_by, writing, tells, truth_by, text_by, bytes_by, key_text as key_text_of};
ghost use Rattle.pbx_json_meaning.specs.Scalars.{family};
ghost use Rattle.pbx_json_writing.specs.Indexes.{AreIndexes};
ghost use Rattle.pbx_json_writing.specs.Kinds.{is_integer as is_integer_of, is_scalar};
ghost use Rattle.pbx_json_writing.specs.Writings.{plain};
ghost use Rattle.pbx_json_writing.specs.Refusals.{Refused, RefusedAnyhow};
ghost use Rattle.pbx_json_writing.specs.declared.refusal.Refusal.TheVariants as refused;

use crate::enums::value_of_number;
use crate::indexes::Indexes;
use crate::refusal::Refusal;
use pbx_content::{Kind, Schema};
use pbx_content_codec::{Held, MapKey};
use pbx_json_meaning::{JsonKind, SerializeOptions};
use pbx_json_schema::{first_value, is_null_value};
use pbx_text::{write_base64, write_signed, write_unsigned};
use pbx_wire::{NoMemory, Text};
use serde_json::Value;
use std::alloc::Global;

/// A text as a tree.
pub(crate) fn string_tree(alloc: Global, text: &str) -> Result<Value, NoMemory>
    ensures { IfOk result (λ tree. view tree ≡ string text.now) }
{
    Ok(Value::String(String::from_str(alloc, text)?))
}

/// Whether the kind's integers have 64 bits.
fn is_wide(kind: Kind) -> bool
    ensures { result ≡ is_wide_of kind }
{
    matches!(
        kind,
        Kind::Int64 | Kind::Uint64 | Kind::Sint64 | Kind::Fixed64 | Kind::Sfixed64
    )
}

/// Whether the kind is one of integers.
fn is_integer(kind: Kind) -> bool
    ensures { result ≡ is_integer_of kind }
{
    !matches!(
        kind,
        Kind::Double
            | Kind::Float
            | Kind::Bool
            | Kind::String
            | Kind::Bytes
            | Kind::Message(_)
            | Kind::Enum(_)
    )
}

/// A number of 64 bits as a number; of a greater one none is written.
fn plain_number(number: i128) -> Result<Value, NoMemory>
    ensures { IfOk result (λ tree. view tree ≡ integer number) }
{
    match i64::try_from(number) {
        Ok(signed) => Ok(Value::from(signed)),
        Err(_) => match u64::try_from(number) {
            Ok(unsigned) => Ok(Value::from(unsigned)),
            Err(_) => Err(NoMemory),
        },
    }
}

/// A number of 64 bits as a decimal text; of a greater one none is written.
fn decimal(alloc: Global, number: i128) -> Result<Text, NoMemory>
    ensures { IfOk result (λ text. text ≡ signed_decimal number) }
{
    match i64::try_from(number) {
        Ok(signed) => write_signed(alloc, signed),
        Err(_) => match u64::try_from(number) {
            Ok(unsigned) => write_unsigned(alloc, unsigned),
            Err(_) => Err(NoMemory),
        },
    }
}

/// An integer: of a kind of 64 bits as a decimal text, unless the option is off.
fn integer_tree(
    alloc: Global,
    options: &SerializeOptions,
    kind: Kind,
    number: i128,
) -> Result<Value, NoMemory>
    ensures { IfOk result (λ tree. view tree ≡ integer_tree_of (plain options.now) kind number) }
{
    if is_wide(kind) && options.stringify_64_bit_integers {
        let text = decimal(alloc, number)?;
        string_tree(alloc, text.as_str())
    } else {
        plain_number(number)
    }
}

/// A number of an enum: the first declared name, else the number, or always the number; null for `NullValue`.
fn enum_tree(
    alloc: Global,
    schema: &Schema,
    options: &SerializeOptions,
    place: usize,
    number: i128,
) -> Result<Value, NoMemory>
    ensures { IfOk result (λ tree. view tree ≡ enum_tree_of schema.now (writing schema.now options.now) place number) }
{
    if is_null_value(schema, place) {
        return Ok(Value::Null);
    }
    if options.use_enum_numbers {
        return plain_number(number);
    }
    match value_of_number(schema, place, number) {
        Some(value) => string_tree(alloc, value.name.as_str()),
        None => plain_number(number),
    }
}

/// A number of an enum, where values are found by indexes.
fn indexed_enum_tree(
    alloc: Global,
    schema: &Schema,
    options: &SerializeOptions,
    indexes: &mut Indexes,
    place: usize,
    number: i128,
) -> Result<Value, NoMemory>
    requires { AreIndexes schema.now indexes.old }
    ensures written { IfOk result (λ tree. view tree ≡ enum_tree_of schema.now (writing schema.now options.now) place number) }
    ensures known { AreIndexes schema.now indexes.new }
{
    if is_null_value(schema, place) {
        return Ok(Value::Null);
    }
    if options.use_enum_numbers {
        return plain_number(number);
    }
    match indexes.value_of_number(alloc, schema, place, number) {
        Ok(Some(value)) => string_tree(alloc, value.name.as_str()),
        Ok(None) => plain_number(number),
        Err(NoMemory) => Err(NoMemory),
    }
}

/// A number as one of a kind.
fn number_tree(
    alloc: Global,
    schema: &Schema,
    options: &SerializeOptions,
    indexes: &mut Indexes,
    kind: Kind,
    number: i128,
) -> Result<Value, Refusal>
    requires { AreIndexes schema.now indexes.old }
    ensures written { IfOk result (λ tree. tells schema.now (writing schema.now options.now) (number_of number) (one kind) ≡ Some (view tree)) }
    ensures refused { IfErr result (Refused schema.now (writing schema.now options.now) (number_of number) kind) }
    ensures known { AreIndexes schema.now indexes.new }
{
    if is_integer(kind) {
        return Ok(integer_tree(alloc, options, kind, number)?);
    }
    match kind {
        Kind::Enum(place) => {
            Ok(indexed_enum_tree(alloc, schema, options, indexes, place, number)?)
        }
        _ => Err(Refusal::here(alloc, JsonKind::WrongKind)),
    }
}

/// A truth value as one of a kind.
fn truth_tree(alloc: Global, kind: Kind, value: bool) -> Result<Value, Refusal>
    ensures written { IfOk result (λ tree. truth_by (family kind) value ≡ Some (view tree)) }
    ensures refused { IfErr result (RefusedAnyhow (truth value) kind) }
{
    match kind {
        Kind::Bool => Ok(Value::Bool(value)),
        _ => Err(Refusal::here(alloc, JsonKind::WrongKind)),
    }
}

/// A text as one of a kind.
fn text_tree(alloc: Global, kind: Kind, text: &str) -> Result<Value, Refusal>
    ensures written { IfOk result (λ tree. text_by (family kind) text.now ≡ Some (view tree)) }
    ensures refused { IfErr result (RefusedAnyhow (text_of text.now) kind) }
{
    match kind {
        Kind::String => Ok(string_tree(alloc, text)?),
        _ => Err(Refusal::here(alloc, JsonKind::WrongKind)),
    }
}

/// Bytes as a base64 text.
fn base64_tree(alloc: Global, bytes: &[u8]) -> Result<Value, NoMemory>
    ensures { IfOk result (λ tree. view tree ≡ string (base64_text bytes.now)) }
{
    let text = write_base64(alloc, bytes)?;
    string_tree(alloc, text.as_str())
}

/// Bytes as those of a kind.
fn bytes_tree(alloc: Global, kind: Kind, bytes: &[u8]) -> Result<Value, Refusal>
    ensures written { IfOk result (λ tree. bytes_by (family kind) bytes.now ≡ Some (view tree)) }
    ensures refused { IfErr result (RefusedAnyhow (octets bytes.now) kind) }
{
    match kind {
        Kind::Bytes => Ok(base64_tree(alloc, bytes)?),
        _ => Err(Refusal::here(alloc, JsonKind::WrongKind)),
    }
}

/// A value of one part as one of a kind. Of a message, a list or a map nothing is written here.
pub(crate) fn scalar_tree(
    held: &Held,
    alloc: Global,
    schema: &Schema,
    options: &SerializeOptions,
    indexes: &mut Indexes,
    kind: Kind,
) -> Result<Value, Refusal>
    requires { AreIndexes schema.now indexes.old }
    ensures written { IfOk result (λ tree. tells schema.now (writing schema.now options.now) (val_of held.now) (one kind) ≡ Some (view tree)) }
    ensures refused { IfErr result (Refused schema.now (writing schema.now options.now) (val_of held.now) kind) }
    ensures alone { (is_scalar (val_of held.now) ≡ true) ⊎ (result ≡ Err refused.Memory) }
    ensures known { AreIndexes schema.now indexes.new }
{
    match held {
        Held::I32(value) => number_tree(alloc, schema, options, indexes, kind, i128::from(*value)),
        Held::I64(value) => number_tree(alloc, schema, options, indexes, kind, i128::from(*value)),
        Held::U32(value) => number_tree(alloc, schema, options, indexes, kind, i128::from(*value)),
        Held::U64(value) => number_tree(alloc, schema, options, indexes, kind, i128::from(*value)),
        Held::Bool(value) => truth_tree(alloc, kind, *value),
        Held::Text(text) => text_tree(alloc, kind, text.as_str()),
        Held::Bytes(bytes) => bytes_tree(alloc, kind, bytes.as_slice()),
        Held::Message(_) | Held::Many(_) | Held::Pairs(_) => Err(Refusal::Memory),
    }
}

/// The default of a kind; of messages and floats none is written.
pub(crate) fn zero_tree(
    alloc: Global,
    schema: &Schema,
    options: &SerializeOptions,
    kind: Kind,
) -> Result<Value, NoMemory>
    ensures { IfOk result (λ tree. default_by schema.now (writing schema.now options.now) kind (zero_of schema.now kind) ≡ Some (view tree)) }
{
    if is_integer(kind) {
        return integer_tree(alloc, options, kind, 0);
    }
    match kind {
        Kind::Bool => Ok(Value::Bool(false)),
        Kind::String => Ok(Value::String(String::new(alloc))),
        Kind::Bytes => base64_tree(alloc, &[]),
        Kind::Enum(place) => enum_tree(
            alloc,
            schema,
            options,
            place,
            i128::from(first_value(schema, place)),
        ),
        _ => Err(NoMemory),
    }
}

/// The key of an entry as a text.
pub(crate) fn key_text(alloc: Global, key: &MapKey) -> Result<Text, NoMemory>
    ensures { IfOk result (λ text. text ≡ key_text_of (key_of key.now)) }
{
    match key {
        MapKey::Bool(value) => Text::from_str(alloc, if *value { "true" } else { "false" }),
        MapKey::I32(value) => write_signed(alloc, i64::from(*value)),
        MapKey::I64(value) => write_signed(alloc, *value),
        MapKey::U32(value) => write_unsigned(alloc, u64::from(*value)),
        MapKey::U64(value) => write_unsigned(alloc, *value),
        MapKey::String(text) => text.copy(alloc),
    }
}
