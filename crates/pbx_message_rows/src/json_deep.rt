//! Trees that nest deeper than any text that is read.

use crate::json_faults::fault;
use pbx_json::{JsonMessage, fits_levels};
use pbx_link::MessageDescriptor;
use pbx_message_dynamic::DynamicMessage;
use serde_json::{Map, Value};
use std::alloc::Global;
use std::mem::{drop, replace};
use test_rows::{Done, Stop};

/// Puts the tree under the key `c` of an object, which takes its place.
fn enclose(alloc: Global, tree: &mut Value) -> Done {
    let key = String::from_str(alloc, "c")?;
    let mut members = Map::new(alloc);
    if members.insert(key, replace(tree, Value::Null)).is_err() {
        drop(members);
        return Err(Stop::NoMemory);
    }
    *tree = Value::Object(members);
    Ok(())
}

/// Puts so many objects around the tree, each into the next.
fn enclose_times(alloc: Global, tree: &mut Value, times: u64) -> Done {
    for _ in 0..times {
        enclose(alloc, tree)?;
    }
    Ok(())
}

/// An object under the key `c` of another one, and so on, so many times.
fn nested(alloc: Global, count: u64) -> Result<Value, Stop> {
    let mut tree = Value::Object(Map::new(alloc));
    if let Err(stop) = enclose_times(alloc, &mut tree, count) {
        drop(tree);
        return Err(stop);
    }
    Ok(tree)
}

/// Lets such a tree go from its root on, since to drop it whole takes a stack as deep as the tree.
fn unwind(count: u64, tree: Value) {
    let mut left = tree;
    for _ in 0..count {
        let Value::Object(mut members) = left else {
            return;
        };
        let Some(inner) = members.remove("c") else {
            return;
        };
        left = inner;
    }
}

/// What comes of writing the message.
fn rewritten(alloc: Global, message: &DynamicMessage) -> &'static str {
    match message.serialize(alloc) {
        Ok(_) => "written",
        Err(_) => "not written",
    }
}

/// Whether the message nests few levels, and what comes of writing it.
pub(crate) fn fits_and_written(alloc: Global, message: &DynamicMessage) -> Result<String, Stop> {
    let word = if fits_levels(alloc, message)? {
        "fits"
    } else {
        "too deep"
    };
    let written = rewritten(alloc, message);
    Ok(format!(in alloc; "{word}, {written}")?)
}

/// What comes of reading the tree as a message of the type, and of writing that.
fn came(alloc: Global, desc: MessageDescriptor, tree: &Value) -> Result<String, Stop> {
    match DynamicMessage::deserialize(alloc, desc, tree) {
        Ok(message) => {
            let told = fits_and_written(alloc, &message);
            drop(message);
            told
        }
        Err(error) => refusal(alloc, fault(alloc, error)),
    }
}

/// Want of memory is what is asked for here.
fn refusal(alloc: Global, stop: Stop) -> Result<String, Stop> {
    match stop {
        Stop::NoMemory => Ok(String::from_str(alloc, "no memory")?),
        stop => Err(stop),
    }
}

/// What comes of reading a tree of so many levels as a message of the type.
pub(crate) fn deep(alloc: Global, desc: MessageDescriptor, count: u64) -> Result<String, Stop> {
    match nested(alloc, count) {
        Ok(tree) => {
            let told = came(alloc, desc, &tree);
            unwind(count, tree);
            told
        }
        Err(stop) => {
            drop(desc);
            Err(stop)
        }
    }
}
