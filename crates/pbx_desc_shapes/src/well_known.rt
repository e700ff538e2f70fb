ghost use Rattle.std.specs.Prelude.{◌≡◌, map, IfOk};
ghost use Rattle.pbx_desc_shapes.specs.TypesRows.{row_field, row_type};
ghost use Rattle.pbx_desc_shapes.specs.TypesShape.{types_shape as types_shape_of, cardinality_of, has_presence, oneof_of, entry_of};

use crate::well_known_place::STRUCT_ENTRY;
use crate::well_known_table::{FieldRow, Form, TYPES, TypeRow};
use pbx_content::{Cardinality, FieldShape, Kind, MessageShape, Schema, SchemaError, Shape};
use pbx_wire::{List, NoMemory, Text};
use std::alloc::Global;

fn cardinality(form: Form) -> Cardinality
    ensures { result ≡ cardinality_of form }
{
    match form {
        Form::One | Form::Member => Cardinality::Singular,
        Form::Many => Cardinality::Repeated,
        Form::Entries => Cardinality::Map(Kind::String),
    }
}

/// A message that stands alone, and a member of a oneof, have presence.
fn presence(kind: Kind, form: Form) -> bool
    ensures { result ≡ has_presence kind form }
{
    match form {
        Form::One => matches!(kind, Kind::Message(_)),
        Form::Member => true,
        Form::Many | Form::Entries => false,
    }
}

fn oneof(form: Form) -> Option<u32>
    ensures { result ≡ oneof_of form }
{
    match form {
        Form::Member => Some(0),
        _ => None,
    }
}

fn entry(form: Form) -> Option<usize>
    ensures { result ≡ entry_of form }
{
    match form {
        Form::Entries => Some(STRUCT_ENTRY),
        _ => None,
    }
}

fn field(alloc: Global, row: &FieldRow) -> Result<FieldShape, NoMemory>
    ensures { IfOk result (λ field. field ≡ row_field row.now) }
{
    let FieldRow(number, name, json_name, kind, form) = *row;
    Ok(FieldShape {
        number,
        name: Text::from_str(alloc, name)?,
        json_name: Text::from_str(alloc, json_name)?,
        is_extension: false,
        kind,
        cardinality: cardinality(form),
        presence: presence(kind, form),
        oneof: oneof(form),
        packed: false,
        default: None,
        entry: entry(form),
    })
}

fn message(alloc: Global, row: &TypeRow) -> Result<MessageShape, NoMemory>
    ensures { IfOk result (λ message. message ≡ row_type row.now) }
{
    let TypeRow(full_name, rows) = *row;
    let mut fields = List::new(alloc);
    for row in rows {
        fields.add(field(alloc, row)?)?;
    }
    Ok(MessageShape {
        full_name: Text::from_str(alloc, full_name)?,
        fields,
        keeps_order: false,
        proto3: true,
    })
}

fn messages(alloc: Global, rows: &[TypeRow]) -> Result<List<MessageShape>, NoMemory>
    ensures { IfOk result (λ messages. messages ≡ map row_type rows.now) }
{
    let mut messages = List::new(alloc);
    for row in rows {
        messages.add(message(alloc, row)?)?;
    }
    Ok(messages)
}

/// The shape of the well-known records and the wrappers, whose types have the places of the module
/// `place`. The only error is want of memory.
#[tactic(auto, unfolding(crate::specs::TypesShape::types_shape))]
pub fn types_shape(alloc: Global) -> Result<Schema, NoMemory>
    ensures { IfOk result (λ schema. schema ≡ types_shape_of) }
{
    let shape = Shape {
        messages: messages(alloc, &TYPES)?,
        enums: List::new(alloc),
    };
    match Schema::new(alloc, shape) {
        Ok(schema) => Ok(schema),
        Err(SchemaError::NoMemory(_)) => Err(NoMemory),
        Err(SchemaError::Improper(_)) => unreachable!(),
    }
}
