// Fields that are read, by their numbers.
ghost use Rattle.std.specs.Prelude.{◌≡◌, IfOk};
ghost use Rattle.pbx_content.specs.Sound.{IsSound};
ghost use Rattle.pbx_content_codec.specs.View.{content_of};
ghost use Rattle.pbx_link_meaning.specs.Shapes.{shape_of, place_of};
ghost use Rattle.pbx_message_dynamic.specs.Fields.{IsGot};
ghost use Rattle.pbx_message_dynamic.specs.Message.{dynamic};
ghost use Rattle.pbx_message_dynamic.specs.Targets.{IsNumbered};

use crate::giving::value_or_default;
use crate::typed::{is_float, value_type};
use crate::value::Value;
use pbx_content::Schema;
use pbx_content_codec::Contents;
use pbx_link::MessageDescriptor;
use pbx_message_laws::{defaults_are_settable, fields_are_listed, sound_values_are_settable};
use pbx_wire::NoMemory;
use std::alloc::Global;

/// The value of the field of the number, or its default.
pub(crate) fn numbered_value(
    desc: &MessageDescriptor,
    tree: &Contents,
    schema: &Schema,
    number: u32,
    alloc: Global,
) -> Result<Option<Value>, NoMemory>
    requires shape { schema.now ≡ shape_of desc.now.pool }
    requires sound { IsSound (shape_of desc.now.pool) (place_of desc.now) (content_of tree.now) }
    ensures { IfOk result (IsGot (dynamic desc.now (content_of tree.now)) (IsNumbered desc.now number)) }
{
    sound_values_are_settable();
    defaults_are_settable();
    fields_are_listed();
    let _pool = desc.parent_pool();
    let place = desc.place(schema);
    let Some(field) = schema.field_of(place, number) else {
        return Ok(None);
    };
    if is_float(field.kind) {
        return Ok(None);
    }
    let value_type = value_type(desc, schema, field.kind);
    let held = tree.get(number);
    match value_or_default(&value_type, schema, field, held, alloc) {
        Ok(value) => Ok(Some(value)),
        Err(refused) => Err(refused),
    }
}
