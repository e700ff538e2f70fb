//! Messages that are put into one another by hand, as deep as they may nest.

use crate::json_deep::fits_and_written;
use pbx_desc_encoding::Message;
use pbx_message_dynamic::{DynamicMessage, MapKey, SetFieldError, Value, ValueMap};
use pbx_wire::List;
use std::alloc::Global;
use std::mem::drop;
use test_rows::{Row, Stop};

/// A list of the message alone.
fn in_a_list(alloc: Global, message: DynamicMessage) -> Result<Value, Stop> {
    let mut list = List::new(alloc);
    match list.add(Value::Message(message)) {
        Ok(()) => Ok(Value::List(list)),
        Err(_) => Err(Stop::NoMemory),
    }
}

/// A map of the message alone.
fn in_a_map(alloc: Global, message: DynamicMessage) -> Result<Value, Stop> {
    let mut map = ValueMap::new(alloc);
    match map.insert(MapKey::I32(0), Value::Message(message)) {
        Ok(()) => Ok(Value::Map(map)),
        Err(_) => Err(Stop::NoMemory),
    }
}

/// The message as the value of a field of the form: of at most one value, of many, or a map.
fn value_of(alloc: Global, form: &str, message: DynamicMessage) -> Result<Value, Stop> {
    match form {
        "one" => Ok(Value::Message(message)),
        "many" => in_a_list(alloc, message),
        "map" => in_a_map(alloc, message),
        _ => {
            drop(message);
            Err(Stop::NoSuchWord)
        }
    }
}

/// A message of the same type, whose field holds the message, which is the one of this place in a row of them.
fn around(
    alloc: Global,
    row: &Row,
    message: DynamicMessage,
    at: u64,
) -> Result<DynamicMessage, Stop> {
    let mut outer = DynamicMessage::new(alloc, message.descriptor());
    let value = value_of(alloc, row.text(4), message)?;
    match outer.set_field_by_name(row.text(3), value) {
        Ok(()) => Ok(outer),
        Err(SetFieldError::NoMemory) => {
            let refused = format!(in alloc; "no memory at {at}")?;
            Err(Stop::Refused(refused))
        }
        Err(_) => Err(Stop::NoSuchWord),
    }
}

/// The message in one of its type, and that in another, so many times.
fn nested(
    alloc: Global,
    row: &Row,
    innermost: DynamicMessage,
    times: u64,
) -> Result<DynamicMessage, Stop> {
    let mut message = innermost;
    for at in 0..times {
        message = around(alloc, row, message, at + 1)?;
    }
    Ok(message)
}

/// The same, and where the row wants it the field is cleared then, and the message is put into others anew.
fn nested_by(alloc: Global, row: &Row, innermost: DynamicMessage) -> Result<DynamicMessage, Stop> {
    let mut message = nested(alloc, row, innermost, row.number(5))?;
    if row.len() <= 6 {
        return Ok(message);
    }
    message.clear_field_by_name(row.text(3));
    nested(alloc, row, message, row.number(6))
}

/// How many levels the message has, how long its bytes are, and whether it is read and written as JSON.
fn said(alloc: Global, message: &DynamicMessage) -> Result<String, Stop> {
    let bytes = message.encode_to_vec(alloc)?;
    let json = fits_and_written(alloc, message)?;
    Ok(format!(in alloc; "levels {}, bytes {}, {json}", message.depth(), bytes.len())?)
}

/// What comes of putting the message of the row into one of its type, and so on.
pub(crate) fn nest(alloc: Global, row: &Row, innermost: DynamicMessage) -> Result<String, Stop> {
    let message = nested_by(alloc, row, innermost)?;
    let told = said(alloc, &message);
    drop(message);
    told
}
