// The shapes of fields and extensions.
ghost use Rattle.std.specs.Prelude.{◌≡◌, IfOk, map};
ghost use Rattle.pbx_link_shapes.specs.Items.{item_shape, part_shape};

use crate::kinds::{FieldType, field_type};
use crate::records::{has_presence, index_if, is_packed, is_repeated, option_copy, text_copy};
use crate::types::Types;
use pbx_content::FieldShape;
use pbx_desc_records::FieldDescriptorProto;
use pbx_link_definitions::{PartRef, name_in, number_or_zero, text_or_empty};
use pbx_wire::{List, NoMemory, Text};
use std::alloc::Global;

/// The shape of a field of a message. The only error is want of memory.
#[tactic(auto, unfolding(crate::specs::Items::item_shape))]
fn field_shape(
    alloc: Global,
    types: &Types<'_>,
    proto3: bool,
    field: &FieldDescriptorProto,
) -> Result<FieldShape, NoMemory>
    ensures { IfOk result (λ shape. shape ≡ item_shape types.now proto3 field.now) }
{
    let FieldType {
        kind,
        cardinality,
        entry,
    } = field_type(types, field);
    Ok(FieldShape {
        number: number_or_zero(field.number),
        name: text_copy(alloc, &field.name)?,
        json_name: text_copy(alloc, &field.json_name)?,
        is_extension: false,
        kind,
        cardinality,
        presence: has_presence(proto3, field),
        oneof: index_if(field.oneof_index),
        packed: is_packed(proto3, field),
        default: option_copy(alloc, &field.default_value)?,
        entry,
    })
}

/// The shapes of the fields of a message. The only error is want of memory.
pub(crate) fn field_shapes(
    alloc: Global,
    types: &Types<'_>,
    proto3: bool,
    fields: &[FieldDescriptorProto],
) -> Result<List<FieldShape>, NoMemory>
    ensures { IfOk result (λ shapes. shapes ≡ map (item_shape types.now proto3) fields.now) }
{
    let mut shapes = List::with_capacity(alloc, fields.len())?;
    for field in fields {
        shapes.add(field_shape(alloc, types, proto3, field)?)?;
    }
    Ok(shapes)
}

/// The shape of an extension. The only error is want of memory.
#[tactic(auto, unfolding(crate::specs::Items::part_shape))]
pub(crate) fn extension_shape(
    alloc: Global,
    types: &Types<'_>,
    proto3: bool,
    part: &PartRef<'_, FieldDescriptorProto>,
) -> Result<FieldShape, NoMemory>
    ensures { IfOk result (λ shape. shape ≡ part_shape types.now proto3 part.now) }
{
    let field = part.item();
    let FieldType {
        kind,
        cardinality,
        entry,
    } = field_type(types, field);
    let name = name_in(alloc, part.scope(), text_or_empty(&field.name))?;
    let json_name = Text::between(alloc, "[", &name, "]")?;
    Ok(FieldShape {
        number: number_or_zero(field.number),
        name,
        json_name,
        is_extension: true,
        kind,
        cardinality,
        presence: !is_repeated(field),
        oneof: None,
        packed: is_packed(proto3, field),
        default: option_copy(alloc, &field.default_value)?,
        entry,
    })
}
