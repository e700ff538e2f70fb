//! Many messages of one type, from JSON trees.

ghost use Rattle.std.specs.Prelude.{◌≡◌, IfOk, IfErr};
ghost use Rattle.serde_json.specs.View.{view};
ghost use Rattle.pbx_json_meaning.specs.Fits.{fits};
ghost use Rattle.pbx_message_dynamic.specs.Message.{shape_in, place_in};
ghost use Rattle.pbx_message_dynamic.specs.Trees.{IsRead, IsReadFault, IsUnread};

use crate::message::DynamicMessage;
use crate::tree::no_memory;
use pbx_json_meaning::{DeserializeOptions, JsonError};
use pbx_json_schema::{SchemaNames, TypeNames};
use pbx_link::MessageDescriptor;
use pbx_wire::NoMemory;
use serde_json::Value;
use std::alloc::Global;
use std::marker::Model;

/// Reads JSON trees as messages of one type, one after the other. The names of fields, enums and types that a tree asks for are looked up
/// once and are kept for the trees behind it. Contracts see the type.
#[derive(Drop)]
pub struct MessageReader {
    message: MessageDescriptor,
    names: SchemaNames,
    types: TypeNames,
}

impl Model for MessageReader {
    ghost use Rattle.pbx_desc_records.specs.declared.message.DescriptorProto.{DescriptorProto};
    ghost use Rattle.pbx_desc_records.specs.contracts.message.DescriptorProto as message_proto;
    ghost use Rattle.pbx_json_schema.specs.Index.{AreNamesIn, AreTypesIn};
    ghost use Rattle.pbx_link_meaning.specs.Descriptors.{Described, described_code};
    ghost use Rattle.pbx_link_meaning.specs.Shapes.{shape_of};

    ghost Value = { Described DescriptorProto };

    ghost coded = { described_code message_proto.the_row.coded };

    ghost view = { λ r. r.message };

    ghost invariant = { λ r. AreNamesIn (shape_of r.message.pool) r.names × AreTypesIn (shape_of r.message.pool) r.types };
}

impl MessageReader {
    /// A reader of messages of the type that has looked up nothing yet. The only error is want of memory.
    pub fn new(alloc: Global, desc: MessageDescriptor) -> Result<MessageReader, NoMemory>
        ensures { IfOk result (λ r. r ≡ desc) }
    {
        let schema = desc.schema()?;
        let names = SchemaNames::new(alloc, schema.as_ref());
        let types = TypeNames::new(alloc, schema.as_ref());
        Ok(MessageReader {
            message: desc,
            names,
            types,
        })
    }

    /// The message that the tree stands for, as `DynamicMessage::from_tree` tells it.
    pub fn read(
        &mut self,
        alloc: Global,
        tree: &Value,
        options: &DeserializeOptions,
    ) -> Result<DynamicMessage, JsonError>
        ensures of { IfOk result (λ m. m.of ≡ self.old) }
        ensures read { IfOk result (λ m. IsRead self.old options.now (view tree.now) m.content) }
        ensures fault { IfErr result (IsReadFault self.old options.now (view tree.now)) }
        ensures refused { IfErr result (IsUnread self.old options.now (view tree.now)) }
        ensures same { self.new ≡ self.old }
    {
        let desc = self.message.copy();
        DynamicMessage::from_tree_by(&mut self.names, alloc, desc, tree, options)
    }

    /// Whether a message of the reader's pool is read again, as `DynamicMessage::fits_levels` tells it.
    pub fn fits_levels(&mut self, alloc: Global, message: &DynamicMessage) -> Result<bool, NoMemory>
        requires { message.now.of.pool ≡ self.old.pool }
        ensures fit { IfOk result (λ yes. yes ≡ fits (shape_in message.now) (place_in message.now) message.now.content) }
        ensures same { self.new ≡ self.old }
    {
        message.fits_levels_by(&mut self.types, alloc)
    }
}
