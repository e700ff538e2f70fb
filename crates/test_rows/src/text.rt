//! What a text of a shape says.

use crate::error::ShapeTextError;
use pbx_content::{
    Cardinality, EnumShape, EnumValueShape, FieldShape, Kind, MessageShape, Schema, Shape,
};
use pbx_wire::{List, Text};
use std::alloc::Global;

/// The words of scalars.
static SCALARS: [(&str, Kind); 15] = [
    ("double", Kind::Double),
    ("float", Kind::Float),
    ("int32", Kind::Int32),
    ("int64", Kind::Int64),
    ("uint32", Kind::Uint32),
    ("uint64", Kind::Uint64),
    ("sint32", Kind::Sint32),
    ("sint64", Kind::Sint64),
    ("fixed32", Kind::Fixed32),
    ("fixed64", Kind::Fixed64),
    ("sfixed32", Kind::Sfixed32),
    ("sfixed64", Kind::Sfixed64),
    ("bool", Kind::Bool),
    ("string", Kind::String),
    ("bytes", Kind::Bytes),
];

fn place(text: &str) -> usize {
    text.parse::<usize>().unwrap_or(0)
}

fn scalar(word: &str) -> Result<Kind, ShapeTextError> {
    for (name, kind) in &SCALARS {
        if *name == word {
            return Ok(*kind);
        }
    }
    Err(ShapeTextError::NoShape)
}

fn kind_of(text: &str) -> Result<Kind, ShapeTextError> {
    match text.split_once(':') {
        Some(("message", at)) => Ok(Kind::Message(place(at))),
        Some(("enum", at)) => Ok(Kind::Enum(place(at))),
        _ => scalar(text),
    }
}

/// How many values a field has, whether it has presence, whether its lists are packed, and its oneof.
struct Manner(Cardinality, bool, bool, Option<u32>);

fn manner_of(text: &str, kind: Kind) -> Result<Manner, ShapeTextError> {
    let message = matches!(kind, Kind::Message(_));
    match text.split_once(' ') {
        Some(("map", key)) => Ok(Manner(Cardinality::Map(scalar(key)?), false, false, None)),
        Some(("oneof", at)) => {
            let oneof = at.parse::<u32>().unwrap_or(0);
            Ok(Manner(Cardinality::Singular, true, false, Some(oneof)))
        }
        _ => match text {
            "one" => Ok(Manner(Cardinality::Singular, message, false, None)),
            "some" => Ok(Manner(Cardinality::Singular, true, false, None)),
            "many" => Ok(Manner(Cardinality::Repeated, false, false, None)),
            "packed" => Ok(Manner(Cardinality::Repeated, false, true, None)),
            _ => Err(ShapeTextError::NoShape),
        },
    }
}

fn field(alloc: Global, text: &str) -> Result<FieldShape, ShapeTextError> {
    let (number, rest) = text.split_once(':').unwrap_or((text, ""));
    let (of, word) = rest.split_once(':').unwrap_or((rest, ""));
    let kind = kind_of(word)?;
    let Manner(cardinality, presence, packed, oneof) = manner_of(of, kind)?;
    Ok(FieldShape {
        number: number.parse::<u32>().unwrap_or(0),
        name: Text::from_str(alloc, number)?,
        json_name: Text::from_str(alloc, number)?,
        is_extension: false,
        kind,
        cardinality,
        presence,
        oneof,
        packed,
        default: None,
        entry: None,
    })
}

fn message(alloc: Global, text: &str) -> Result<MessageShape, ShapeTextError> {
    let (keeps_order, text) = match text.strip_prefix("!") {
        Some(rest) => (true, rest),
        None => (false, text),
    };
    let mut fields = List::new(alloc);
    for part in text.split(',') {
        if !part.is_empty() {
            fields.add(field(alloc, part)?)?;
        }
    }
    Ok(MessageShape {
        full_name: Text::from_str(alloc, "")?,
        fields,
        keeps_order,
        proto3: true,
    })
}

fn enumeration(alloc: Global, text: &str) -> Result<EnumShape, ShapeTextError> {
    let mut values = List::new(alloc);
    for part in text.split(',') {
        values.add(EnumValueShape {
            name: Text::from_str(alloc, part)?,
            number: part.parse::<i32>().unwrap_or(0),
        })?;
    }
    Ok(EnumShape {
        full_name: Text::from_str(alloc, "")?,
        values,
    })
}

fn messages(alloc: Global, text: &str) -> Result<List<MessageShape>, ShapeTextError> {
    let mut messages = List::new(alloc);
    for part in text.split(';') {
        messages.add(message(alloc, part)?)?;
    }
    Ok(messages)
}

fn enums(alloc: Global, text: &str) -> Result<List<EnumShape>, ShapeTextError> {
    let mut enums = List::new(alloc);
    for part in text.split(';') {
        enums.add(enumeration(alloc, part)?)?;
    }
    Ok(enums)
}

/// The shape that the text writes. A word that stands for nothing, and a shape that is not proper, is `NoShape`.
pub fn schema(alloc: Global, text: &str) -> Result<Schema, ShapeTextError> {
    let (types, enums_text) = text.split_once('|').unwrap_or((text, ""));
    let shape = Shape {
        messages: messages(alloc, types)?,
        enums: enums(alloc, enums_text)?,
    };
    Ok(Schema::new(alloc, shape)?)
}
