// Values of kinds that are no message.
ghost use Rattle.std.specs.Prelude.{◌≡◌, ◌⊎◌, Ok, Err, pos, negsuc, IfOk, IfErr, option_map};
ghost use Rattle.serde_json.specs.Data.{string};
ghost use Rattle.serde_json.specs.View.{view};
ghost use Rattle.pbx_content.specs.Shape.{enum_values_of};
ghost use Rattle.pbx_content_codec.specs.View.{val_of};
ghost use Rattle.pbx_json_schema.specs.Index.{AreNamesIn};
ghost use Rattle.pbx_json_meaning.specs.Scalars.{integer_read, as_number, scalar_of, scalar_read, enum_read, null_value_read};
ghost use Rattle.pbx_json_meaning.specs.Scalars.{enums, unknown_name as unknown_name_of};
ghost use Rattle.pbx_json_meaning.specs.declared.kind.JsonKind.TheVariants.{NoMemory as OutOfMemory};
ghost use Rattle.pbx_json_reading.specs.Scalars.{truth_answer, text_answer, bytes_answer, enum_number_answer};

use crate::integers::{signed, unsigned};
use bytes::Bytes;
use pbx_content::{Kind, Schema};
use pbx_content_codec::Held;
use pbx_json_meaning::JsonKind;
use pbx_json_schema::{SchemaNames, is_null_value};
use pbx_text::{TextFault, read_base64};
use pbx_wire::Text;
use serde_json::Value;
use std::alloc::Global;

/// An integer of 32 bits that may be below 0.
fn read_i32(tree: &Value) -> Result<Option<Held>, JsonKind>
    ensures ok { IfOk result (λ r. as_number (integer_read (negsuc 2147483647) (pos 2147483647) (view tree.now)) ≡ Ok (option_map val_of r)) }
    ensures err { IfErr result (λ e. as_number (integer_read (negsuc 2147483647) (pos 2147483647) (view tree.now)) ≡ Err e) }
{
    match signed(tree, i64::from(i32::MIN), i64::from(i32::MAX)) {
        Ok(number) => Ok(Some(Held::I32(number as i32))),
        Err(kind) => Err(kind),
    }
}

/// An integer of 64 bits that may be below 0.
fn read_i64(tree: &Value) -> Result<Option<Held>, JsonKind>
    ensures ok { IfOk result (λ r. as_number (integer_read (negsuc 9223372036854775807) (pos 9223372036854775807) (view tree.now))
        ≡ Ok (option_map val_of r)) }
    ensures err { IfErr result (λ e. as_number (integer_read (negsuc 9223372036854775807) (pos 9223372036854775807) (view tree.now)) ≡ Err e) }
{
    match signed(tree, i64::MIN, i64::MAX) {
        Ok(number) => Ok(Some(Held::I64(number))),
        Err(kind) => Err(kind),
    }
}

/// An integer of 32 bits from 0 on.
fn read_u32(tree: &Value) -> Result<Option<Held>, JsonKind>
    ensures ok { IfOk result (λ r. as_number (integer_read (pos 0) (pos 4294967295) (view tree.now)) ≡ Ok (option_map val_of r)) }
    ensures err { IfErr result (λ e. as_number (integer_read (pos 0) (pos 4294967295) (view tree.now)) ≡ Err e) }
{
    match unsigned(tree, u64::from(u32::MAX)) {
        Ok(number) => Ok(Some(Held::U32(number as u32))),
        Err(kind) => Err(kind),
    }
}

/// An integer of 64 bits from 0 on.
fn read_u64(tree: &Value) -> Result<Option<Held>, JsonKind>
    ensures ok { IfOk result (λ r. as_number (integer_read (pos 0) (pos 18446744073709551615) (view tree.now)) ≡ Ok (option_map val_of r)) }
    ensures err { IfErr result (λ e. as_number (integer_read (pos 0) (pos 18446744073709551615) (view tree.now)) ≡ Err e) }
{
    match unsigned(tree, u64::MAX) {
        Ok(number) => Ok(Some(Held::U64(number))),
        Err(kind) => Err(kind),
    }
}

/// A truth value.
fn read_truth(tree: &Value) -> Result<Option<Held>, JsonKind>
    ensures ok { IfOk result (λ r. truth_answer (view tree.now) ≡ Ok (option_map val_of r)) }
    ensures err { IfErr result (λ e. truth_answer (view tree.now) ≡ Err e) }
{
    match tree {
        Value::Bool(truth) => Ok(Some(Held::Bool(*truth))),
        _ => Err(JsonKind::WrongKind),
    }
}

/// A text.
fn read_text(alloc: Global, tree: &Value) -> Result<Option<Held>, JsonKind>
    ensures ok { IfOk result (λ r. text_answer (view tree.now) ≡ Ok (option_map val_of r)) }
    ensures err { IfErr result (λ e. (e ≡ OutOfMemory) ⊎ (text_answer (view tree.now) ≡ Err e)) }
{
    match tree {
        Value::String(text) => match Text::from_str(alloc, text.as_str()) {
            Ok(text) => Ok(Some(Held::Text(text))),
            Err(_) => Err(JsonKind::NoMemory),
        },
        _ => Err(JsonKind::WrongKind),
    }
}

/// The bytes of a base64 text.
fn base64_bytes(alloc: Global, text: &str) -> Result<Option<Held>, JsonKind>
    ensures ok { IfOk result (λ r. bytes_answer (string text.now) ≡ Ok (option_map val_of r)) }
    ensures err { IfErr result (λ e. (e ≡ OutOfMemory) ⊎ (bytes_answer (string text.now) ≡ Err e)) }
{
    match read_base64(alloc, text) {
        Ok(bytes) => match Bytes::copy_from_slice(alloc, bytes.as_slice()) {
            Ok(bytes) => Ok(Some(Held::Bytes(bytes))),
            Err(_) => Err(JsonKind::NoMemory),
        },
        Err(TextFault::NoMemory) => Err(JsonKind::NoMemory),
        Err(_) => Err(JsonKind::Base64),
    }
}

/// Bytes.
fn read_bytes(alloc: Global, tree: &Value) -> Result<Option<Held>, JsonKind>
    ensures ok { IfOk result (λ r. bytes_answer (view tree.now) ≡ Ok (option_map val_of r)) }
    ensures err { IfErr result (λ e. (e ≡ OutOfMemory) ⊎ (bytes_answer (view tree.now) ≡ Err e)) }
{
    match tree {
        Value::String(text) => base64_bytes(alloc, text.as_str()),
        _ => Err(JsonKind::WrongKind),
    }
}

/// A text that names no value of an enum.
fn unknown_name(allow: bool) -> Result<Option<Held>, JsonKind>
    ensures ok { IfOk result (λ r. unknown_name_of allow ≡ Ok (option_map val_of r)) }
    ensures err { IfErr result (λ e. unknown_name_of allow ≡ Err e) }
{
    if allow {
        Ok(None)
    } else {
        Err(JsonKind::UnknownEnum)
    }
}

/// A value of `google.protobuf.NullValue`.
fn read_null_value(allow: bool, tree: &Value) -> Result<Option<Held>, JsonKind>
    ensures ok { IfOk result (λ r. null_value_read allow (view tree.now) ≡ Ok (option_map val_of r)) }
    ensures err { IfErr result (λ e. null_value_read allow (view tree.now) ≡ Err e) }
{
    match tree {
        Value::Null => Ok(Some(Held::I32(0))),
        Value::String(text) => if matches!(text.as_str(), "NULL_VALUE") {
            Ok(Some(Held::I32(0)))
        } else {
            unknown_name(allow)
        },
        _ => Err(JsonKind::WrongKind),
    }
}

/// The number of an enum's value of a name.
fn named_value(
    alloc: Global,
    schema: &Schema,
    names: &mut SchemaNames,
    allow: bool,
    place: usize,
    text: &str,
) -> Result<Option<Held>, JsonKind>
    requires { AreNamesIn schema.now names.old }
    ensures ok { IfOk result (λ r. enum_read allow (enum_values_of schema.now place) (string text.now) ≡ Ok (option_map val_of r)) }
    ensures err { IfErr result (λ e. (e ≡ OutOfMemory) ⊎ (enum_read allow (enum_values_of schema.now place) (string text.now) ≡ Err e)) }
    ensures names { AreNamesIn schema.now names.new }
{
    match names.find_value(alloc, schema, place, text) {
        Ok(Some(value)) => Ok(Some(Held::I32(value.number))),
        Ok(None) => unknown_name(allow),
        Err(_) => Err(JsonKind::NoMemory),
    }
}

/// A number of an enum, also one that no value has.
fn enum_number(tree: &Value) -> Result<Option<Held>, JsonKind>
    ensures ok { IfOk result (λ r. enum_number_answer (view tree.now) ≡ Ok (option_map val_of r)) }
    ensures err { IfErr result (λ e. enum_number_answer (view tree.now) ≡ Err e) }
{
    match tree {
        Value::Number(_) => read_i32(tree),
        _ => Err(JsonKind::WrongKind),
    }
}

/// A value of an enum.
fn read_enum(
    alloc: Global,
    schema: &Schema,
    names: &mut SchemaNames,
    allow: bool,
    place: usize,
    tree: &Value,
) -> Result<Option<Held>, JsonKind>
    requires { AreNamesIn schema.now names.old }
    ensures ok { IfOk result (λ r. scalar_of schema.now allow (enums place) (view tree.now) ≡ Ok (option_map val_of r)) }
    ensures err { IfErr result (λ e. (e ≡ OutOfMemory) ⊎ (scalar_of schema.now allow (enums place) (view tree.now) ≡ Err e)) }
    ensures names { AreNamesIn schema.now names.new }
{
    if is_null_value(schema, place) {
        return read_null_value(allow, tree);
    }
    match tree {
        Value::String(text) => named_value(alloc, schema, names, allow, place, text.as_str()),
        _ => enum_number(tree),
    }
}

/// A value of a kind that is no message.
pub(crate) fn read_scalar(
    alloc: Global,
    schema: &Schema,
    names: &mut SchemaNames,
    allow: bool,
    kind: Kind,
    tree: &Value,
) -> Result<Option<Held>, JsonKind>
    requires { AreNamesIn schema.now names.old }
    ensures ok { IfOk result (λ r. scalar_read schema.now allow kind (view tree.now) ≡ Ok (option_map val_of r)) }
    ensures err { IfErr result (λ e. (e ≡ OutOfMemory) ⊎ (scalar_read schema.now allow kind (view tree.now) ≡ Err e)) }
    ensures names { AreNamesIn schema.now names.new }
{
    match kind {
        Kind::Double | Kind::Float => Err(JsonKind::Float),
        Kind::Int32 | Kind::Sint32 | Kind::Sfixed32 => read_i32(tree),
        Kind::Int64 | Kind::Sint64 | Kind::Sfixed64 => read_i64(tree),
        Kind::Uint32 | Kind::Fixed32 => read_u32(tree),
        Kind::Uint64 | Kind::Fixed64 => read_u64(tree),
        Kind::Bool => read_truth(tree),
        Kind::String => read_text(alloc, tree),
        Kind::Bytes => read_bytes(alloc, tree),
        Kind::Message(_) => Err(JsonKind::WrongKind),
        Kind::Enum(place) => read_enum(alloc, schema, names, allow, place, tree),
    }
}
