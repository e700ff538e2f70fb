//! Dynamic messages: the message that bytes mean as one of a type, and what becomes of it.

use crate::fields::{self, clear_field, field_said, set_field};
use crate::nesting::nest;
use crate::pool_of;
use crate::records::{from_file, to_file};
use crate::said::add_message;
use pbx_link::{DescriptorPool, MessageDescriptor};
use pbx_message_dynamic::{DynamicMessage, Value};
use pbx_wire::DecodeError;
use std::alloc::Global;
use std::mem::drop;
use test_rows::{Row, Stop};

fn type_of(pool: &DescriptorPool, name: &str) -> Result<MessageDescriptor, Stop> {
    pool.get_message_by_name(name).ok_or(Stop::NoSuchWord)
}

/// The fault of bytes.
fn fault(alloc: Global, fault: DecodeError) -> Stop {
    match format!(in alloc; "{fault}") {
        Ok(text) => Stop::Refused(text),
        Err(_) => Stop::NoMemory,
    }
}

/// The message of the type that the bytes mean.
fn message_of(
    alloc: Global,
    pool: &DescriptorPool,
    name: &str,
    digits: &str,
) -> Result<DynamicMessage, Stop> {
    let bytes = hex::decode(alloc, digits)?;
    let desc = type_of(pool, name)?;
    match DynamicMessage::decode(alloc, desc, bytes.as_slice()) {
        Ok(message) => Ok(message),
        Err(error) => Err(fault(alloc, error)),
    }
}

/// The message, as text.
fn message_said(alloc: Global, message: &DynamicMessage) -> Result<String, Stop> {
    let mut text = String::new(alloc);
    add_message(alloc, &mut text, message)?;
    Ok(text)
}

/// What came of merging the bytes of the row, and the message then.
fn merged(alloc: Global, row: &Row, message: &mut DynamicMessage) -> Result<String, Stop> {
    let bytes = hex::decode(alloc, row.text(3))?;
    let mut text = String::new(alloc);
    if let Err(error) = message.merge(bytes.as_slice()) {
        write!(text, "{error}; ")?;
    }
    add_message(alloc, &mut text, message)?;
    Ok(text)
}

/// The value of a field of the other message of the row.
fn value_of(alloc: Global, pool: &DescriptorPool, row: &Row) -> Result<Value, Stop> {
    let source = message_of(alloc, pool, row.text(4), row.text(5))?;
    let value = fields::value_of(alloc, pool, &source, row.text(6));
    drop(source);
    value
}

/// What came of setting a field to the value of a field of another message, and the message then.
fn set(
    alloc: Global,
    pool: &DescriptorPool,
    row: &Row,
    message: &mut DynamicMessage,
) -> Result<String, Stop> {
    let mut text = String::new(alloc);
    let value = value_of(alloc, pool, row)?;
    set_field(&mut text, pool, message, row.text(3), value)?;
    add_message(alloc, &mut text, message)?;
    Ok(text)
}

/// The message without the field of the row.
fn cleared(
    alloc: Global,
    pool: &DescriptorPool,
    row: &Row,
    message: &mut DynamicMessage,
) -> Result<String, Stop> {
    clear_field(pool, message, row.text(3))?;
    message_said(alloc, message)
}

/// What is told of the message of the row.
fn of_message(
    alloc: Global,
    pool: &DescriptorPool,
    row: &Row,
    message: &mut DynamicMessage,
) -> Result<String, Stop> {
    match row.asked() {
        "merge" => merged(alloc, row, message),
        "set" => set(alloc, pool, row, message),
        "get" => field_said(alloc, pool, message, row.text(3)),
        "to-file" => to_file(alloc, message),
        "from-file" => from_file(alloc, row, message),
        "clear" => cleared(alloc, pool, row, message),
        "read" => message_said(alloc, message),
        _ => Err(Stop::NoSuchWord),
    }
}

/// What is told of the row of a message of a type of the pool.
fn in_pool(alloc: Global, pool: &DescriptorPool, row: &Row) -> Result<String, Stop> {
    let mut message = message_of(alloc, pool, row.text(1), row.text(2))?;
    if row.asked() == "nest" {
        return nest(alloc, row, message);
    }
    let told = of_message(alloc, pool, row, &mut message);
    drop(message);
    told
}

/// What is told of the row of a message.
pub(crate) fn answer(alloc: Global, row: &Row) -> Result<String, Stop> {
    let pool = pool_of(alloc, row.text(0))?;
    let told = in_pool(alloc, &pool, row);
    drop(pool);
    told
}
