//! What is told of a message.

use crate::values::add_value;
use pbx_desc_encoding::Message;
use pbx_link::{ExtensionDescriptor, FieldDescriptor, MessageDescriptor};
use pbx_message_dynamic::{DynamicMessage, Value};
use pbx_wire::{Blob, write_recs};
use std::alloc::Global;
use std::mem::drop;
use test_rows::Done;

/// The value of a field; `=` before it where the message has one, and else `~` before the default.
pub(crate) fn add_got(alloc: Global, text: &mut String, has: bool, value: &Option<Value>) -> Done {
    text.push_str(if has { "=" } else { "~" })?;
    match value {
        Some(value) => add_value(alloc, text, value),
        None => {
            text.push_str("none")?;
            Ok(())
        }
    }
}

/// What `add_got` adds of the field.
fn add_value_of(
    alloc: Global,
    text: &mut String,
    message: &DynamicMessage,
    field: &FieldDescriptor,
) -> Done {
    let value = message.get_field(alloc, field)?;
    let done = add_got(alloc, text, message.has_field(field), &value);
    drop(value);
    done
}

fn add_field(
    alloc: Global,
    text: &mut String,
    message: &DynamicMessage,
    field: &FieldDescriptor,
) -> Done {
    text.push_str(field.name())?;
    add_value_of(alloc, text, message, field)?;
    text.push_str(" ")?;
    Ok(())
}

/// What `add_got` adds of the extension.
fn add_value_of_extension(
    alloc: Global,
    text: &mut String,
    message: &DynamicMessage,
    extension: &ExtensionDescriptor,
) -> Done {
    let value = message.get_extension(alloc, extension)?;
    let done = add_got(alloc, text, message.has_extension(extension), &value);
    drop(value);
    done
}

fn add_extension(
    alloc: Global,
    text: &mut String,
    message: &DynamicMessage,
    extension: &ExtensionDescriptor,
) -> Done {
    write!(text, "[{}]", extension.full_name())?;
    add_value_of_extension(alloc, text, message, extension)?;
    text.push_str(" ")?;
    Ok(())
}

/// The bytes in hexadecimal digits.
pub(crate) fn add_bytes(alloc: Global, text: &mut String, bytes: &[u8]) -> Done {
    let digits = hex::encode(alloc, bytes)?;
    text.push_str(digits.as_str())?;
    Ok(())
}

/// Each field of the message's type.
fn add_fields(
    alloc: Global,
    text: &mut String,
    message: &DynamicMessage,
    desc: &MessageDescriptor,
) -> Done {
    for field in desc.fields() {
        let done = add_field(alloc, text, message, &field);
        drop(field);
        done?;
    }
    Ok(())
}

/// Each extension of the message's type.
fn add_extensions(
    alloc: Global,
    text: &mut String,
    message: &DynamicMessage,
    desc: &MessageDescriptor,
) -> Done {
    for extension in desc.extensions() {
        let done = add_extension(alloc, text, message, &extension);
        drop(extension);
        done?;
    }
    Ok(())
}

/// Each field and extension, the records that none of them reads, the bytes, and how many levels there are.
pub(crate) fn add_message(alloc: Global, text: &mut String, message: &DynamicMessage) -> Done {
    let desc = message.descriptor();
    let done = add_fields(alloc, text, message, &desc);
    drop(desc);
    done?;
    add_rest(alloc, text, message)
}

/// The bytes, and how many levels there are.
fn add_encoded(alloc: Global, text: &mut String, message: &DynamicMessage) -> Done {
    text.push_str(" bytes ")?;
    let bytes = message.encode_to_vec(alloc)?;
    add_bytes(alloc, text, bytes.as_slice())?;
    write!(text, " levels {}", message.depth())?;
    Ok(())
}

/// The same without the fields.
fn add_rest(alloc: Global, text: &mut String, message: &DynamicMessage) -> Done {
    let desc = message.descriptor();
    let done = add_extensions(alloc, text, message, &desc);
    drop(desc);
    done?;
    let mut unknown = Blob::new(alloc);
    write_recs(&mut unknown, message.unknown_fields())?;
    text.push_str("unknown ")?;
    add_bytes(alloc, text, unknown.as_slice())?;
    add_encoded(alloc, text, message)
}
