ghost use Rattle.std.specs.Prelude.{◌≡◌, map, IfOk};
ghost use Rattle.pbx_desc_shapes.specs.DescriptorRows.{row_field, row_type};
ghost use Rattle.pbx_desc_shapes.specs.DescriptorShape.{descriptor_shape as descriptor_shape_of};

use crate::descriptor_table::{FieldRow, Form, TYPES, TypeRow};
use pbx_content::{Cardinality, FieldShape, MessageShape, Schema, SchemaError, Shape};
use pbx_wire::{List, NoMemory, Text};
use std::alloc::Global;

fn field(alloc: Global, row: &FieldRow) -> Result<FieldShape, NoMemory>
    ensures { IfOk result (λ field. field ≡ row_field row.now) }
{
    let FieldRow(number, name, json_name, kind, form) = *row;
    let (cardinality, presence, packed) = match form {
        Form::One => (Cardinality::Singular, true, false),
        Form::Many => (Cardinality::Repeated, false, false),
        Form::Packed => (Cardinality::Repeated, false, true),
    };
    Ok(FieldShape {
        number,
        name: Text::from_str(alloc, name)?,
        json_name: Text::from_str(alloc, json_name)?,
        is_extension: false,
        kind,
        cardinality,
        presence,
        oneof: None,
        packed,
        default: None,
        entry: None,
    })
}

fn message(alloc: Global, row: &TypeRow) -> Result<MessageShape, NoMemory>
    ensures { IfOk result (λ message. message ≡ row_type row.now) }
{
    let TypeRow(full_name, rows, keeps_order) = *row;
    let mut fields = List::new(alloc);
    for row in rows {
        fields.add(field(alloc, row)?)?;
    }
    Ok(MessageShape {
        full_name: Text::from_str(alloc, full_name)?,
        fields,
        keeps_order,
        proto3: false,
    })
}

fn messages(alloc: Global, rows: &[TypeRow]) -> Result<List<MessageShape>, NoMemory>
    ensures { IfOk result (λ messages. messages ≡ map row_type rows.now) }
{
    let mut messages = List::new(alloc);
    for row in rows {
        messages.add(message(alloc, row)?)?;
    }
    Ok(messages)
}

/// The shape of the descriptor records, whose types have the places of the module `place`. The only
/// error is want of memory.
#[tactic(auto, unfolding(crate::specs::DescriptorShape::descriptor_shape))]
pub fn descriptor_shape(alloc: Global) -> Result<Schema, NoMemory>
    ensures { IfOk result (λ schema. schema ≡ descriptor_shape_of) }
{
    let shape = Shape {
        messages: messages(alloc, &TYPES)?,
        enums: List::new(alloc),
    };
    match Schema::new(alloc, shape) {
        Ok(schema) => Ok(schema),
        Err(SchemaError::NoMemory(_)) => Err(NoMemory),
        Err(SchemaError::Improper(_)) => unreachable!(),
    }
}
