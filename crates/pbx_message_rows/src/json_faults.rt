//! Faults of trees as words.

use pbx_json::{JsonError, JsonKind, Step};
use std::alloc::Global;
use std::mem::drop;
use test_rows::{Done, Stop};

fn kind_word(kind: JsonKind) -> &'static str {
    match kind {
        JsonKind::WrongKind => "WrongKind",
        JsonKind::Range => "Range",
        JsonKind::NotDecimal => "NotDecimal",
        JsonKind::UnknownField => "UnknownField",
        JsonKind::UnknownEnum => "UnknownEnum",
        JsonKind::DuplicateField => "DuplicateField",
        JsonKind::DuplicateKey => "DuplicateKey",
        JsonKind::OneofTwice => "OneofTwice",
        JsonKind::Base64 => "Base64",
        JsonKind::Timestamp => "Timestamp",
        JsonKind::Duration => "Duration",
        JsonKind::Mask => "Mask",
        JsonKind::AnyType => "AnyType",
        JsonKind::AnyValue => "AnyValue",
        JsonKind::Float => "Float",
        JsonKind::Shape => "Shape",
        JsonKind::AnyPayload => "AnyPayload",
        JsonKind::NoMemory => "NoMemory",
    }
}

fn add_step(text: &mut String, step: &Step) -> Done {
    match step {
        Step::Key(key) => {
            let key = key.as_str();
            write!(text, ".{key}")?;
        }
        Step::Index(index) => write!(text, "[{index}]")?,
    }
    Ok(())
}

/// The kind and the place of a fault, as the refusal of a row; want of memory is none.
fn told(alloc: Global, error: &JsonError) -> Result<String, Stop> {
    let word = kind_word(error.kind);
    let mut text = format!(in alloc; "{word} at $")?;
    for step in error.place.as_slice() {
        add_step(&mut text, step)?;
    }
    Ok(text)
}

/// Why a row has no other answer than the fault.
fn stop_of(alloc: Global, error: &JsonError) -> Stop {
    if matches!(error.kind, JsonKind::NoMemory) {
        return Stop::NoMemory;
    }
    match told(alloc, error) {
        Ok(text) => Stop::Refused(text),
        Err(stop) => stop,
    }
}

/// The same of a fault that is not used any more.
pub(crate) fn fault(alloc: Global, error: JsonError) -> Stop {
    let stop = stop_of(alloc, &error);
    drop(error);
    stop
}
