// The shapes of messages with their own fields.
ghost use Rattle.std.specs.Prelude.{◌≡◌, ◌++◌, [], IfOk, OnOk, map};
ghost use Rattle.pbx_link_definitions.specs.Definitions.{messages as messages_of};
ghost use Rattle.pbx_link_definitions.specs.Says.{is_proto3 as is_proto3_of};
ghost use Rattle.pbx_link_shapes.specs.Items.{own_shape};
ghost use Rattle.pbx_link_shapes.specs.Extending.{shapes_with};

use crate::fields::field_shapes;
use crate::records::is_proto3;
use crate::types::Types;
use pbx_content::MessageShape;
use pbx_desc_records::DescriptorProto;
use pbx_link_definitions::{PartRef, name_in, text_or_empty};
use pbx_link_tables::FileTable;
use pbx_wire::NoMemory;
use std::alloc::Global;

/// The shape of a message with its own fields. The only error is want of memory.
#[tactic(auto, unfolding(crate::specs::Items::own_shape))]
fn message_shape(
    alloc: Global,
    types: &Types<'_>,
    proto3: bool,
    part: &PartRef<'_, DescriptorProto>,
) -> Result<MessageShape, NoMemory>
    ensures { IfOk result (λ shape. shape ≡ own_shape types.now proto3 part.now) }
{
    let message = part.item();
    let full_name = name_in(alloc, part.scope(), text_or_empty(&message.name))?;
    let fields = field_shapes(alloc, types, proto3, message.field.as_slice())?;
    Ok(MessageShape {
        full_name,
        fields,
        keeps_order: false,
        proto3,
    })
}

/// Adds the messages of a file.
fn add_messages(
    alloc: Global,
    types: &Types<'_>,
    table: &FileTable,
    shapes: &mut Vec<MessageShape>,
) -> Result<(), NoMemory>
    ensures { OnOk result (shapes.new.items ≡ shapes.old.items ++ map (own_shape types.now (is_proto3_of table.now)) (messages_of table.now)) }
{
    let proto3 = is_proto3(table.file());
    for index in 0..table.message_count() {
        let Some(part) = table.message(index) else {
            unreachable!();
        };
        let shape = message_shape(alloc, types, proto3, &part)?;
        shapes.push(shape)?;
    }
    Ok(())
}

/// The messages of the pool with their own fields, file by file. The only error is want of memory.
pub(crate) fn message_shapes(
    alloc: Global,
    types: &Types<'_>,
) -> Result<Vec<MessageShape>, NoMemory>
    ensures { IfOk result (λ shapes. shapes.items ≡ shapes_with types.now []) }
{
    let mut shapes = Vec::new(alloc);
    let tables = types.pool().tables();
    for table in tables {
        add_messages(alloc, types, table.as_ref(), &mut shapes)?;
    }
    Ok(shapes)
}
