// Extensions behind the fields of the messages that they extend.
ghost use Rattle.std.specs.Prelude.{◌≡◌, [], OnOk, map, option_and_then};
ghost use Rattle.pbx_link_definitions.specs.Definitions.{extensions as extensions_of};
ghost use Rattle.pbx_link_definitions.specs.Says.{is_proto3 as is_proto3_of};
ghost use Rattle.pbx_link_meaning.specs.Descriptors.{described, referred as referred_of};
ghost use Rattle.pbx_link_meaning.specs.Shapes.{message_place as message_place_of, shape_of as shape_of_files};
ghost use Rattle.pbx_link_shapes.specs.Items.{with_field, part_shape};
ghost use Rattle.pbx_link_shapes.specs.Extending.{shapes_with, field_added, AddExtensions};

use crate::fields::extension_shape;
use crate::records::{is_proto3, referred};
use crate::types::Types;
use pbx_content::{FieldShape, MessageShape};
use pbx_desc_records::FieldDescriptorProto;
use pbx_link_definitions::PartRef;
use pbx_link_tables::FileTable;
use pbx_wire::NoMemory;
use std::alloc::Global;

/// Adds the field to the message.
fn add_field(message: &mut MessageShape, field: FieldShape) -> Result<(), NoMemory>
    ensures { OnOk result (message.new ≡ with_field field message.old) }
{
    message.fields.add(field)
}

/// Adds the field to the message at the place, if there is one.
fn add_at(messages: &mut Vec<MessageShape>, place: usize, field: FieldShape) -> Result<(), NoMemory>
    ensures { OnOk result (messages.new.items ≡ field_added (Some place) field messages.old.items) }
{
    match messages.get_mut(place) {
        Some(message) => add_field(message, field),
        None => Ok(()),
    }
}

/// The place of the message that the extension extends.
fn extended(types: &Types<'_>, field: &FieldDescriptorProto) -> Option<usize>
    ensures { result ≡ option_and_then (message_place_of types.now) (referred_of field.now.extendee) }
{
    match referred(&field.extendee) {
        Some(name) => types.message_place(name),
        None => None,
    }
}

/// Adds the extension to the message that it extends.
fn add_extension(
    alloc: Global,
    types: &Types<'_>,
    proto3: bool,
    part: &PartRef<'_, FieldDescriptorProto>,
    messages: &mut Vec<MessageShape>,
) -> Result<(), NoMemory>
    ensures { OnOk result (messages.new.items ≡ field_added
        (option_and_then (message_place_of types.now) (referred_of part.now.item.extendee)) (part_shape types.now proto3 part.now) messages.old.items) }
{
    match extended(types, part.item()) {
        Some(place) => {
            let field = extension_shape(alloc, types, proto3, part)?;
            add_at(messages, place, field)
        }
        None => Ok(()),
    }
}

/// Adds the extensions of a file.
fn add_file(
    alloc: Global,
    types: &Types<'_>,
    table: &FileTable,
    messages: &mut Vec<MessageShape>,
) -> Result<(), NoMemory>
    ensures { OnOk result (AddExtensions types.now (map (described types.now table.now) (extensions_of table.now)) messages.old.items messages.new.items) }
{
    let proto3 = is_proto3(table.file());
    for index in 0..table.extension_count() {
        let Some(part) = table.extension(index) else {
            unreachable!();
        };
        add_extension(alloc, types, proto3, &part, messages)?;
    }
    Ok(())
}

/// Adds the extensions of the pool, file by file, to its messages.
pub(crate) fn add_extensions(
    alloc: Global,
    types: &Types<'_>,
    messages: &mut Vec<MessageShape>,
) -> Result<(), NoMemory>
    ensures { OnOk result (messages.old.items ≡ shapes_with types.now [] → messages.new.items ≡ (shape_of_files types.now).messages) }
{
    let tables = types.pool().tables();
    for table in tables {
        add_file(alloc, types, table.as_ref(), messages)?;
    }
    Ok(())
}
