// Fields that are set, by their numbers.
ghost use Rattle.std.specs.Prelude.{◌≡◌, Some, IfOk, IfErr, OnOk, OnErr};
ghost use Rattle.pbx_content.specs.Content.{fields as fields_in_content};
ghost use Rattle.pbx_content.specs.Sound.{IsSound};
ghost use Rattle.pbx_content_codec.specs.View.{content_of};
ghost use Rattle.pbx_link_meaning.specs.Shapes.{shape_of, place_of};
ghost use Rattle.pbx_message_dynamic.specs.Fields.{IsFieldSet, IsNotSet};
ghost use Rattle.pbx_message_dynamic.specs.Members.{AreMembersIf};
ghost use Rattle.pbx_message_dynamic.specs.Message.{dynamic, type_fields};
ghost use Rattle.pbx_message_dynamic.specs.Targets.{IsNumbered};
ghost use Rattle.pbx_message_dynamic.specs.Typed.{IsHeldFor, IsNotHeld};
ghost use Rattle.pbx_message_dynamic.specs.Values.{IsOfField};

use crate::error::SetFieldError;
use crate::holding::field_held;
use crate::putting::put_value;
use crate::typed::{is_float, value_type};
use crate::value::Value;
use pbx_content::{FieldShape, Schema};
use pbx_content_codec::{Contents, Held};
use pbx_content_map::NumberMap;
use pbx_link::MessageDescriptor;
use pbx_message_laws::setting_is_sound;
use std::alloc::Global;

/// The value, where the field may be set to it.
fn held_for(
    desc: &MessageDescriptor,
    schema: &Schema,
    field: &FieldShape,
    value: Value,
    alloc: Global,
) -> Result<Held, SetFieldError>
    requires { schema.now ≡ shape_of desc.now.pool }
    ensures ok { IfOk result (IsHeldFor desc.now.pool field.now value) }
    ensures err { IfErr result (IsNotHeld (IsOfField desc.now.pool field.now value)) }
{
    if is_float(field.kind) {
        drop(value);
        return Err(SetFieldError::InvalidType);
    }
    let value_type = value_type(desc, schema, field.kind);
    field_held(&value_type, field.cardinality, value, alloc)
}

/// Gives the field of the number the value, and takes away those of the other members of its oneof. The value has these levels, which
/// are handed back; where it has too many, there are none, and it is refused. A refused call changes nothing.
pub(crate) fn set_numbered(
    desc: &MessageDescriptor,
    tree: &mut Contents,
    members: &mut Option<NumberMap<u32>>,
    alloc: Global,
    schema: &Schema,
    number: u32,
    value: Value,
    levels: Option<u32>,
) -> Result<u32, SetFieldError>
    requires shape { schema.now ≡ shape_of desc.now.pool }
    requires sound { IsSound (shape_of desc.now.pool) (place_of desc.now) (content_of tree.old) }
    requires known { AreMembersIf (type_fields desc.now) (fields_in_content (content_of tree.old)) members.old }
    ensures set { OnOk result
        (IsFieldSet (dynamic desc.now (content_of tree.old)) (IsNumbered desc.now number) value (dynamic desc.now (content_of tree.new))) }
    ensures refused { IfErr result (IsNotSet (dynamic desc.now (content_of tree.old)) (IsNumbered desc.now number) value) }
    ensures unchanged { OnErr result (content_of tree.new ≡ content_of tree.old) }
    ensures sound { IsSound (shape_of desc.now.pool) (place_of desc.now) (content_of tree.new) }
    ensures known { AreMembersIf (type_fields desc.now) (fields_in_content (content_of tree.new)) members.new }
    ensures levels { IfOk result (λ given. levels ≡ Some given) }
{
    setting_is_sound();
    let _proper = schema.shape();
    let place = desc.place(schema);
    match schema.field_of(place, number) {
        Some(field) => match held_for(desc, schema, field, value, alloc) {
            Ok(held) => {
                let Some(levels) = levels else {
                    drop(held);
                    return Err(SetFieldError::NoMemory);
                };
                match put_value(tree, members, alloc, schema, place, field, held) {
                    Ok(()) => Ok(levels),
                    Err(_refused) => Err(SetFieldError::NoMemory),
                }
            }
            Err(fault) => Err(fault),
        },
        None => {
            drop(value);
            Err(SetFieldError::NotFound)
        }
    }
}
