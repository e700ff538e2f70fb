//! Asks of `pbx_desc_shapes`, and the shapes that contents are read and written by.
//!
//! What is wanted of a field is what Python's `google.protobuf` 3.21 tells of the descriptors in `descriptor_pb2`.

use crate::said::small;
use pbx_content::{Cardinality, FieldShape, Kind, MessageShape, Schema, SchemaError, Shape};
use pbx_desc_shapes::{descriptor_place as place, descriptor_shape};
use pbx_wire::{List, NoMemory, Text};
use std::alloc::Global;
use test_rows::{Done, Row, Stop};

/// Places of the descriptor records' shape, by words.
static PLACES: [(&str, usize); 7] = [
    ("FILE", place::FILE),
    ("MESSAGE", place::MESSAGE),
    ("FIELD", place::FIELD),
    ("METHOD", place::METHOD),
    ("LOCATION", place::LOCATION),
    ("FILE_OPTIONS", place::FILE_OPTIONS),
    ("METHOD_OPTIONS", place::METHOD_OPTIONS),
];

fn place_of(word: &str) -> Result<usize, Stop> {
    for (name, at) in &PLACES {
        if *name == word {
            return Ok(*at);
        }
    }
    Err(Stop::NoSuchWord)
}

/// A field's number, name and JSON name.
fn add_field_line(lines: &mut String, field: &FieldShape) -> Done {
    let name = field.name.as_str();
    let json_name = field.json_name.as_str();
    write!(lines, "({} {name} {json_name})", field.number)?;
    Ok(())
}

/// Of a place and a number: the field's name and its JSON name.
fn field_of(alloc: Global, schema: &Schema, row: &Row) -> Result<String, Stop> {
    let mut line = String::new(alloc);
    if let Some(field) = schema.field_of(place_of(row.text(0))?, small(row.number(1))) {
        add_field_line(&mut line, field)?;
    }
    Ok(line)
}

/// Of a place: whether the type there keeps the order of its kept records.
fn keeps_order(alloc: Global, schema: &Schema, row: &Row) -> Result<String, Stop> {
    let keeps_order = schema.keeps_order(place_of(row.text(0))?);
    Ok(format!(in alloc; "{keeps_order}")?)
}

/// What the row asks of the shape of the descriptor records.
pub(crate) fn of_descriptors(alloc: Global, row: &Row, word: &str) -> Result<String, Stop> {
    let schema = descriptor_shape(alloc)?;
    match word {
        "field-of" => field_of(alloc, &schema, row),
        _ => keeps_order(alloc, &schema, row),
    }
}

/// A field: its number, name and JSON name, the kind of its values, how many there are, and whether it has presence.
struct FieldRow(u32, &'static str, &'static str, Kind, Cardinality, bool);

/// The fields of the type `row`, of which 4 and 5 are of one oneof, and 20 is an extension.
#[rattlefmt::skip]
static FIELDS: [FieldRow; 14] = [
    FieldRow(1, "a_number", "aNumber", Kind::Int32, Cardinality::Singular, false),
    FieldRow(2, "a_text", "aText", Kind::String, Cardinality::Singular, false),
    FieldRow(3, "a_row", "aRow", Kind::Message(0), Cardinality::Singular, false),
    FieldRow(4, "zigzag", "zigzag", Kind::Sint32, Cardinality::Singular, false),
    FieldRow(5, "truth", "truth", Kind::Bool, Cardinality::Singular, false),
    FieldRow(6, "numbers", "numbers", Kind::Int32, Cardinality::Repeated, false),
    FieldRow(7, "texts", "texts", Kind::String, Cardinality::Repeated, false),
    FieldRow(8, "large", "large", Kind::Uint64, Cardinality::Singular, false),
    FieldRow(12, "maybe", "maybe", Kind::Int32, Cardinality::Singular, true),
    FieldRow(13, "wide", "wide", Kind::Int64, Cardinality::Singular, false),
    FieldRow(14, "bytes", "bytes", Kind::Bytes, Cardinality::Singular, false),
    FieldRow(15, "pairs", "pairs", Kind::Int32, Cardinality::Map(Kind::String), false),
    FieldRow(16, "choice", "choice", Kind::Enum(0), Cardinality::Singular, false),
    FieldRow(20, "rows.extra", "[rows.extra]", Kind::Int32, Cardinality::Singular, true),
];

fn field(alloc: Global, row: &FieldRow) -> Result<FieldShape, NoMemory> {
    let FieldRow(number, name, json_name, kind, cardinality, presence) = row;
    let name = Text::from_str(alloc, name)?;
    Ok(FieldShape {
        number: *number,
        name,
        json_name: Text::from_str(alloc, json_name)?,
        is_extension: json_name.starts_with('['),
        kind: *kind,
        cardinality: *cardinality,
        presence: *presence,
        oneof: if *number == 4 || *number == 5 {
            Some(0)
        } else {
            None
        },
        packed: true,
        default: None,
        entry: None,
    })
}

/// Of the type `row`.
fn row_fields(alloc: Global) -> Result<List<FieldShape>, NoMemory> {
    let mut fields = List::new(alloc);
    for row in &FIELDS {
        fields.add(field(alloc, row)?)?;
    }
    Ok(fields)
}

/// The schema of one type: `row` has fields, and `options` and `options-in-order` have none.
pub(crate) fn schema_named(alloc: Global, name: &str) -> Result<Schema, Stop> {
    let full_name = Text::from_str(alloc, name)?;
    let fields = if name == "row" {
        row_fields(alloc)?
    } else {
        List::new(alloc)
    };
    let mut messages = List::new(alloc);
    messages.add(MessageShape {
        full_name,
        fields,
        keeps_order: name == "options-in-order",
        proto3: true,
    })?;
    let shape = Shape {
        messages,
        enums: List::new(alloc),
    };
    match Schema::new(alloc, shape) {
        Ok(schema) => Ok(schema),
        Err(SchemaError::Improper(_)) => Err(Stop::NoSuchWord),
        Err(SchemaError::NoMemory(_)) => Err(Stop::NoMemory),
    }
}
