//! Values of fields as text.

use crate::said::add_bytes;
use pbx_desc_encoding::Message;
use pbx_message_dynamic::{DynamicMessage, MapKey, Value, ValueMap};
use std::alloc::Global;
use test_rows::Done;

fn add_text(alloc: Global, text: &mut String, value: &str) -> Done {
    text.push_str("'")?;
    add_bytes(alloc, text, value.as_bytes())
}

fn add_octets(alloc: Global, text: &mut String, value: &[u8]) -> Done {
    text.push_str("x")?;
    add_bytes(alloc, text, value)
}

fn add_truth(text: &mut String, value: bool) -> Done {
    text.push_str(if value { "true" } else { "false" })?;
    Ok(())
}

fn add_signed(text: &mut String, kind: &str, value: i64) -> Done {
    write!(text, "{kind} {value}")?;
    Ok(())
}

fn add_unsigned(text: &mut String, kind: &str, value: u64) -> Done {
    write!(text, "{kind} {value}")?;
    Ok(())
}

/// The bytes of a message in braces.
fn add_inner(alloc: Global, text: &mut String, message: &DynamicMessage) -> Done {
    let bytes = message.encode_to_vec(alloc)?;
    text.push_str("{")?;
    add_bytes(alloc, text, bytes.as_slice())?;
    text.push_str("}")?;
    Ok(())
}

/// A value that is no list and no map; a text and bytes by their hexadecimal digits.
fn add_single(alloc: Global, text: &mut String, value: &Value) -> Done {
    match value {
        Value::Bool(value) => add_truth(text, *value),
        Value::I32(value) => add_signed(text, "i32", i64::from(*value)),
        Value::I64(value) => add_signed(text, "i64", *value),
        Value::U32(value) => add_unsigned(text, "u32", u64::from(*value)),
        Value::U64(value) => add_unsigned(text, "u64", *value),
        Value::EnumNumber(number) => add_signed(text, "enum", i64::from(*number)),
        Value::String(value) => add_text(alloc, text, value.as_str()),
        Value::Bytes(value) => add_octets(alloc, text, value.as_slice()),
        Value::Message(message) => add_inner(alloc, text, message),
        Value::List(_) | Value::Map(_) => Ok(text.push_str("inside")?),
    }
}

fn add_key(alloc: Global, text: &mut String, key: &MapKey) -> Done {
    match key {
        MapKey::Bool(value) => add_truth(text, *value),
        MapKey::I32(value) => add_signed(text, "i32", i64::from(*value)),
        MapKey::I64(value) => add_signed(text, "i64", *value),
        MapKey::U32(value) => add_unsigned(text, "u32", u64::from(*value)),
        MapKey::U64(value) => add_unsigned(text, "u64", *value),
        MapKey::String(value) => add_text(alloc, text, value.as_str()),
    }
}

fn add_list(alloc: Global, text: &mut String, values: &[Value]) -> Done {
    text.push_str("[")?;
    for value in values {
        add_single(alloc, text, value)?;
        text.push_str(",")?;
    }
    text.push_str("]")?;
    Ok(())
}

fn add_map(alloc: Global, text: &mut String, values: &ValueMap) -> Done {
    text.push_str("<")?;
    for pair in values.as_slice() {
        add_key(alloc, text, &pair.0)?;
        text.push_str(":")?;
        add_single(alloc, text, &pair.1)?;
        text.push_str(",")?;
    }
    text.push_str(">")?;
    Ok(())
}

/// A value; the elements of a list in brackets, the pairs of a map by ascending key between `<` and `>`.
pub(crate) fn add_value(alloc: Global, text: &mut String, value: &Value) -> Done {
    match value {
        Value::List(values) => add_list(alloc, text, values.as_slice()),
        Value::Map(values) => add_map(alloc, text, values),
        single => add_single(alloc, text, single),
    }
}
