//! Fields by the three ways in which they are named.

use crate::said::add_got;
use pbx_link::{DescriptorPool, ExtensionDescriptor, FieldDescriptor};
use pbx_message_dynamic::{DynamicMessage, SetFieldError, Value};
use std::alloc::Global;
use std::mem::drop;
use test_rows::{Done, Stop};

/// A field, as a row names it.
#[derive(Drop)]
pub(crate) enum Named<'a> {
    Name(&'a str),
    Field(FieldDescriptor),
    Extension(ExtensionDescriptor),
}

/// The extension of the name between brackets, if it has these.
fn extension_of(pool: &DescriptorPool, word: &str) -> Option<ExtensionDescriptor> {
    let name = word.strip_prefix('[')?.strip_suffix(']')?;
    pool.get_extension_by_name(name)
}

/// The field of a type, if the word has both.
fn field_of(pool: &DescriptorPool, word: &str) -> Option<FieldDescriptor> {
    let (owner, name) = word.split_once('#')?;
    pool.get_message_by_name(owner)?.get_field_by_name(name)
}

/// The field that a word names.
fn field_named<'a>(pool: &DescriptorPool, word: &'a str) -> Named<'a> {
    if let Some(extension) = extension_of(pool, word) {
        return Named::Extension(extension);
    }
    match field_of(pool, word) {
        Some(field) => Named::Field(field),
        None => Named::Name(word),
    }
}

/// The value of the field, and whether the message has it.
fn got(
    alloc: Global,
    message: &DynamicMessage,
    field: &Named<'_>,
) -> Result<(bool, Option<Value>), Stop> {
    match field {
        Named::Name(name) => {
            let value = message.get_field_by_name(alloc, name)?;
            Ok((message.has_field_by_name(name), value))
        }
        Named::Field(field) => {
            let value = message.get_field(alloc, field)?;
            Ok((message.has_field(field), value))
        }
        Named::Extension(extension) => {
            let value = message.get_extension(alloc, extension)?;
            Ok((message.has_extension(extension), value))
        }
    }
}

/// The value of the field that the word names, which has to be there.
pub(crate) fn value_of(
    alloc: Global,
    pool: &DescriptorPool,
    message: &DynamicMessage,
    word: &str,
) -> Result<Value, Stop> {
    let field = field_named(pool, word);
    let found = got(alloc, message, &field);
    drop(field);
    match found {
        Ok((_, Some(value))) => Ok(value),
        Ok((_, None)) => Err(Stop::NoSuchWord),
        Err(stop) => Err(stop),
    }
}

/// Adds the value of the field, or its default.
fn add_said(alloc: Global, text: &mut String, message: &DynamicMessage, field: &Named<'_>) -> Done {
    let (has, value) = got(alloc, message, field)?;
    let done = add_got(alloc, text, has, &value);
    drop(value);
    done
}

/// The value of the field that the word names, or its default.
pub(crate) fn field_said(
    alloc: Global,
    pool: &DescriptorPool,
    message: &DynamicMessage,
    word: &str,
) -> Result<String, Stop> {
    let mut text = String::new(alloc);
    let field = field_named(pool, word);
    let done = add_said(alloc, &mut text, message, &field);
    drop(field);
    done?;
    Ok(text)
}

fn set_named(
    message: &mut DynamicMessage,
    field: &Named<'_>,
    value: Value,
) -> Result<(), SetFieldError> {
    match field {
        Named::Name(name) => message.set_field_by_name(name, value),
        Named::Field(field) => message.set_field(field, value),
        Named::Extension(extension) => message.set_extension(extension, value),
    }
}

/// Adds what came of setting a field.
fn add_set(text: &mut String, done: Result<(), SetFieldError>) -> Done {
    match done {
        Ok(()) => text.push_str("set; ")?,
        Err(SetFieldError::NotFound) => text.push_str("not found; ")?,
        Err(SetFieldError::InvalidType) => text.push_str("invalid type; ")?,
        Err(SetFieldError::NoMemory) => return Err(Stop::NoMemory),
    }
    Ok(())
}

/// Sets the field that the word names, and tells what came of it.
pub(crate) fn set_field(
    text: &mut String,
    pool: &DescriptorPool,
    message: &mut DynamicMessage,
    word: &str,
    value: Value,
) -> Done {
    let field = field_named(pool, word);
    let done = set_named(message, &field, value);
    drop(field);
    add_set(text, done)
}

/// Takes the value of the field away that the word names.
pub(crate) fn clear_field(pool: &DescriptorPool, message: &mut DynamicMessage, word: &str) -> Done {
    match field_named(pool, word) {
        Named::Name(name) => message.clear_field_by_name(name),
        Named::Field(field) => message.clear_field(&field),
        Named::Extension(extension) => message.clear_extension(&extension),
    }
    Ok(())
}
