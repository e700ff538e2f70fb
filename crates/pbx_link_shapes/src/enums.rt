// The shapes of enums.
ghost use Rattle.std.specs.Prelude.{◌≡◌, ◌++◌, ℕ, IfOk, OnOk, map};
ghost use Rattle.std.specs.List.{All};
ghost use Rattle.std.specs.Int.{w32};
ghost use Rattle.std.specs.Int.RustNames.{FitsSigned};
ghost use Rattle.pbx_content.specs.Shape.{first_of, enum_values_at};
ghost use Rattle.pbx_link_definitions.specs.Definitions.{enums as enums_of};
ghost use Rattle.pbx_link_meaning.specs.Descriptors.{all_enums};
ghost use Rattle.pbx_link_meaning.specs.Shapes.{enum_shape as enum_shape_of};
ghost use Rattle.pbx_link_shapes.specs.EnumNumbers.{AreEnumNumbers};
ghost use Rattle.pbx_link_shapes.specs.Items.{item_value, part_enum};

use crate::records::{signed_or_zero, text_copy};
use pbx_content::{EnumShape, EnumValueShape};
use pbx_desc_records::{EnumDescriptorProto, EnumValueDescriptorProto};
use pbx_link_definitions::{PartRef, name_in, text_or_empty};
use pbx_link_pool::Pool;
use pbx_link_tables::FileTable;
use pbx_wire::{List, NoMemory};
use std::alloc::Global;

/// The shapes of the values of an enum. The only error is want of memory.
fn value_shapes(
    alloc: Global,
    values: &[EnumValueDescriptorProto],
) -> Result<List<EnumValueShape>, NoMemory>
    ensures { IfOk result (λ shapes. shapes ≡ map item_value values.now) }
{
    let mut shapes = List::with_capacity(alloc, values.len())?;
    for value in values {
        let name = text_copy(alloc, &value.name)?;
        let number = signed_or_zero(value.number);
        shapes.add(EnumValueShape { name, number })?;
    }
    Ok(shapes)
}

/// The shape of an enum. The only error is want of memory.
#[tactic(auto, unfolding(crate::specs::Items::part_enum))]
fn enum_shape(alloc: Global, part: &PartRef<'_, EnumDescriptorProto>) -> Result<EnumShape, NoMemory>
    ensures { IfOk result (λ shape. shape ≡ part_enum part.now) }
{
    let item = part.item();
    let full_name = name_in(alloc, part.scope(), text_or_empty(&item.name))?;
    let values = value_shapes(alloc, item.value.as_slice())?;
    Ok(EnumShape { full_name, values })
}

/// Adds the enums of a file.
fn add_enums(alloc: Global, table: &FileTable, shapes: &mut List<EnumShape>) -> Result<(), NoMemory>
    ensures { OnOk result (shapes.new ≡ shapes.old ++ map part_enum (enums_of table.now)) }
{
    for index in 0..table.enum_count() {
        let Some(part) = table.enumeration(index) else {
            unreachable!();
        };
        let shape = enum_shape(alloc, &part)?;
        shapes.add(shape)?;
    }
    Ok(())
}

/// The enums of the pool, file by file. The only error is want of memory.
pub(crate) fn enum_shapes(alloc: Global, pool: &Pool) -> Result<List<EnumShape>, NoMemory>
    ensures { IfOk result (λ shapes. shapes ≡ map enum_shape_of (all_enums pool.now)) }
{
    let mut shapes = List::new(alloc);
    let tables = pool.tables();
    for table in tables {
        add_enums(alloc, table.as_ref(), &mut shapes)?;
    }
    Ok(shapes)
}

/// The enum's default.
fn default_of(shape: &EnumShape) -> i32
    ensures is { result ≡ first_of shape.now.values }
    ensures fits { FitsSigned w32 result }
{
    match shape.values.as_slice().first() {
        Some(value) => value.number,
        None => 0,
    }
}

/// The number of a value of an enum.
fn number_of(value: &EnumValueShape) -> i32
    ensures is { result ≡ value.now.number }
    ensures fits { FitsSigned w32 result }
{
    value.number
}

/// The numbers of the values are numbers of 32 bits.
fn values_fit(values: &[EnumValueShape])
    ensures { All (λ v. FitsSigned w32 v.number) values.now }
{
    for value in values {
        let _number = number_of(value);
    }
}

/// The number of each value of each enum is a number of 32 bits. That is so by its type alone; the walk only says it of all.
pub(crate) fn numbers_fit(enums: &[EnumShape])
    ensures { AreEnumNumbers enums.now }
{
    for shape in enums {
        values_fit(shape.values.as_slice());
    }
}

/// Each enum's default is a number of 32 bits. That is so by its type alone; the walk only says it of all.
pub(crate) fn enums_fit(enums: &[EnumShape])
    ensures { (e : ℕ) → FitsSigned w32 (first_of (enum_values_at enums.now e)) }
{
    for shape in enums {
        let _default = default_of(shape);
    }
}
