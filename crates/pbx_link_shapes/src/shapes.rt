// The shape of the types of a pool.
ghost use Rattle.std.specs.Prelude.{◌≡◌, IfOk};
ghost use Rattle.pbx_content.specs.Sound.{IsProper};
ghost use Rattle.pbx_link_meaning.specs.Shapes.{shape_of as shape_of_files, message_named};
ghost use Rattle.pbx_link_shapes.specs.EnumNumbers.{HasEnumNumbers};

use crate::enums::{enum_shapes, enums_fit, numbers_fit};
use crate::extensions::add_extensions;
use crate::messages::message_shapes;
use crate::types::Types;
use pbx_content::{MessageShape, Schema, SchemaError, Shape};
use pbx_link_meaning::shape_is_proper;
use pbx_link_pool::Pool;
use pbx_wire::{List, NoMemory};
use std::alloc::Global;

/// The items as a list. The only error is want of memory.
fn list_of<T: Drop>(alloc: Global, items: Vec<T>) -> Result<List<T>, NoMemory>
    ensures { IfOk result (λ list. list ≡ items.items) }
{
    let mut list = List::with_capacity(alloc, items.len())?;
    for item in items {
        list.add(item)?;
    }
    Ok(list)
}

/// The messages of the pool, with the extensions. The only error is want of memory.
fn all_messages(alloc: Global, types: &Types<'_>) -> Result<List<MessageShape>, NoMemory>
    ensures { IfOk result (λ shapes. shapes ≡ (shape_of_files types.now).messages) }
{
    let mut shapes = message_shapes(alloc, types)?;
    add_extensions(alloc, types, &mut shapes)?;
    let list = list_of(alloc, shapes)?;
    Ok(list)
}

/// The shape as it is told. The only error is want of memory.
fn told_shape(alloc: Global, pool: &Pool) -> Result<Shape, NoMemory>
    ensures { IfOk result (λ shape. shape ≡ shape_of_files pool.now) }
{
    let types = Types::new(alloc, pool)?;
    let messages = all_messages(alloc, &types)?;
    let enums = enum_shapes(alloc, pool)?;
    Ok(Shape { messages, enums })
}

/// The shape is proper, by the rules of linking and by the type of the numbers of enums' values.
fn shape_fits(pool: &Pool, shape: &Shape)
    requires { shape.now ≡ shape_of_files pool.now }
    ensures proper { IsProper shape.now }
    ensures numbers { HasEnumNumbers shape.now }
{
    let _ = pool.tables();
    enums_fit(shape.enums.as_slice());
    numbers_fit(shape.enums.as_slice());
    shape_is_proper();
}

/// The shape of the types of a pool: its messages and its enums, file by file. It is always proper. The only error is want of memory.
pub fn shape_of(alloc: Global, pool: &Pool) -> Result<Schema, NoMemory>
    ensures is { IfOk result (λ schema. schema ≡ shape_of_files pool.now) }
    // The numbers of the values of enums have 32 bits.
    ensures numbers { IfOk result HasEnumNumbers }
{
    let shape = told_shape(alloc, pool)?;
    shape_fits(pool, &shape);
    match Schema::new(alloc, shape) {
        Ok(schema) => Ok(schema),
        Err(SchemaError::Improper(_)) => unreachable!(),
        Err(SchemaError::NoMemory(_)) => Err(NoMemory),
    }
}

/// The place of the message of exactly that full name, without a leading dot.
pub fn message_place(schema: &Schema, full_name: &str) -> Option<usize>
    ensures { result ≡ message_named full_name.now schema.now }
{
    schema
        .shape()
        .messages
        .as_slice()
        .iter()
        .position(|message| message.full_name.as_str() == full_name)
}
