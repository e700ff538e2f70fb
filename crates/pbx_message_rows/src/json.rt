//! JSON: the message that a text stands for, and the text of a message.

use crate::json_deep::deep;
use crate::json_faults::fault;
use crate::pool_of;
use pbx_desc_encoding::Message;
use pbx_json::{
    DeserializeOptions, JsonMessage, NameFault, SerializeOptions, check_names, fits_levels,
};
use pbx_link::{DescriptorPool, MessageDescriptor};
use pbx_message_dynamic::DynamicMessage;
use pbx_wkt::has_shape;
use serde_json::Value;
use std::alloc::Global;
use std::mem::drop;
use test_rows::{Row, Stop};

/// The type that the row names.
fn type_of(pool: &DescriptorPool, row: &Row) -> Result<MessageDescriptor, Stop> {
    pool.get_message_by_name(row.text(1))
        .ok_or(Stop::NoSuchWord)
}

/// The message that a tree stands for.
fn message_of_tree(
    alloc: Global,
    pool: &DescriptorPool,
    row: &Row,
    tree: &Value,
    options: &DeserializeOptions,
) -> Result<DynamicMessage, Stop> {
    let desc = type_of(pool, row)?;
    match DynamicMessage::deserialize_with_options(alloc, desc, tree, options) {
        Ok(message) => Ok(message),
        Err(error) => Err(fault(alloc, error)),
    }
}

/// The message that a JSON text stands for.
fn message_of(
    alloc: Global,
    pool: &DescriptorPool,
    row: &Row,
    text: &str,
    options: &DeserializeOptions,
) -> Result<DynamicMessage, Stop> {
    let Ok(tree) = Value::from_str(alloc, text) else {
        return Err(Stop::NoSuchWord);
    };
    let message = message_of_tree(alloc, pool, row, &tree, options);
    drop(tree);
    message
}

fn text_of(
    alloc: Global,
    message: &DynamicMessage,
    options: &SerializeOptions,
) -> Result<String, Stop> {
    match message.serialize_with_options(alloc, options) {
        Ok(tree) => {
            let text = tree.to_string(alloc);
            drop(tree);
            Ok(text?)
        }
        Err(error) => Err(fault(alloc, error)),
    }
}

/// The bytes and the text of a message.
fn bytes_and_text(alloc: Global, message: &DynamicMessage) -> Result<String, Stop> {
    let bytes = message.encode_to_vec(alloc)?;
    let digits = hex::encode(alloc, bytes.as_slice())?;
    let text = text_of(alloc, message, &SerializeOptions::new())?;
    Ok(format!(in alloc; "{digits} {text}")?)
}

/// The bytes and the text of the message that a text stands for.
fn read(alloc: Global, pool: &DescriptorPool, row: &Row) -> Result<String, Stop> {
    let options = DeserializeOptions::new().deny_unknown_fields(row.text(2) != "allow");
    let message = message_of(alloc, pool, row, row.text(3), &options)?;
    let told = bytes_and_text(alloc, &message);
    drop(message);
    told
}

/// The message that bytes in hexadecimal digits mean.
fn decoded(
    alloc: Global,
    pool: &DescriptorPool,
    row: &Row,
    digits: &str,
) -> Result<DynamicMessage, Stop> {
    let bytes = hex::decode(alloc, digits)?;
    let desc = type_of(pool, row)?;
    match DynamicMessage::decode(alloc, desc, bytes.as_slice()) {
        Ok(message) => Ok(message),
        Err(_) => Err(Stop::NoSuchWord),
    }
}

/// The text of the message that bytes mean, under options by letters.
fn written(alloc: Global, pool: &DescriptorPool, row: &Row) -> Result<String, Stop> {
    let letters = row.text(2);
    let options = SerializeOptions::new()
        .stringify_64_bit_integers(!letters.contains('s'))
        .use_enum_numbers(letters.contains('e'))
        .use_proto_field_name(letters.contains('p'))
        .skip_default_fields(!letters.contains('d'));
    let message = decoded(alloc, pool, row, row.text(3))?;
    let text = text_of(alloc, &message, &options);
    drop(message);
    text
}

/// Whether the message and its payloads nest few levels, and the payloads decode.
fn fits_word(alloc: Global, message: &DynamicMessage) -> Result<String, Stop> {
    let word = if fits_levels(alloc, message)? {
        "fits"
    } else {
        "too deep"
    };
    Ok(String::from_str(alloc, word)?)
}

/// The same of the message that a text stands for.
fn levels(alloc: Global, pool: &DescriptorPool, row: &Row) -> Result<String, Stop> {
    let message = message_of(alloc, pool, row, row.text(2), &DeserializeOptions::new())?;
    let word = fits_word(alloc, &message);
    drop(message);
    word
}

/// The same of the message that bytes mean.
fn fits(alloc: Global, pool: &DescriptorPool, row: &Row) -> Result<String, Stop> {
    let message = decoded(alloc, pool, row, row.text(2))?;
    let word = fits_word(alloc, &message);
    drop(message);
    word
}

/// Whether the type that the row names has the shape of its well-known name.
fn shape(alloc: Global, pool: &DescriptorPool, row: &Row) -> Result<String, Stop> {
    let desc = type_of(pool, row)?;
    let has_its_shape = has_shape(&desc);
    drop(desc);
    let word = if has_its_shape {
        "has its shape"
    } else {
        "has another shape"
    };
    Ok(String::from_str(alloc, word)?)
}

/// The first message with a key that has two meanings, and the key, or the first that has not the shape of its well-known name.
fn names(alloc: Global, pool: &DescriptorPool) -> Result<String, Stop> {
    match check_names(alloc, pool) {
        Ok(()) => Ok(String::from_str(alloc, "clear")?),
        Err(NameFault::JsonNames { message, key }) => {
            let (message, key) = (message.as_str(), key.as_str());
            Ok(format!(in alloc; "{message} {key}")?)
        }
        Err(NameFault::WellKnownShape { message }) => {
            let message = message.as_str();
            Ok(format!(in alloc; "{message} has another shape")?)
        }
        Err(NameFault::NoMemory) => Err(Stop::NoMemory),
    }
}

/// What the word asks of the types of the pool.
fn of_pool(alloc: Global, pool: &DescriptorPool, row: &Row, word: &str) -> Result<String, Stop> {
    match word {
        "read" => read(alloc, pool, row),
        "write" => written(alloc, pool, row),
        "levels" => levels(alloc, pool, row),
        "fits" => fits(alloc, pool, row),
        "deep" => deep(alloc, type_of(pool, row)?, row.number(2)),
        "shape" => shape(alloc, pool, row),
        "names" => names(alloc, pool),
        _ => Err(Stop::NoSuchWord),
    }
}

/// What the word asks of the types of the row's set.
pub(crate) fn answer(alloc: Global, row: &Row, word: &str) -> Result<String, Stop> {
    let pool = pool_of(alloc, row.text(0))?;
    let told = of_pool(alloc, &pool, row, word);
    drop(pool);
    told
}
