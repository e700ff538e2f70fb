ghost use Rattle.std.specs.Prelude.{◌≡◌, IfOk, IfErr};
ghost use Rattle.serde_json.specs.View.{view};
ghost use Rattle.pbx_content.specs.Content.{Content};
ghost use Rattle.pbx_desc_records.specs.declared.message.DescriptorProto.{DescriptorProto};
ghost use Rattle.pbx_link_meaning.specs.Descriptors.{Described};
ghost use Rattle.pbx_json_meaning.specs.Options.{default_reading, default_writing};
ghost use Rattle.pbx_message_dynamic.specs.Trees.{IsRead, IsReadFault, IsUnread, IsWritten, IsWriteFault, IsUnwritten};

use pbx_json_meaning::{DeserializeOptions, JsonError, SerializeOptions};
use pbx_link::MessageDescriptor;
use pbx_message_dynamic::DynamicMessage;
use serde_json::Value;
use std::alloc::Global;

/// Messages that are read from JSON trees and written as JSON trees.
///
/// Where messages nest more than 1,024 levels below the top, want of memory may be the answer, as the stack holds no more.
pub trait JsonMessage: Sized {
    /// The type of the message.
    ghost of: { Self → Described DescriptorProto };

    /// What the message holds.
    ghost content: { Self → Content };

    /// The message of the type that the tree stands for; keys that name no field and names that no enum value has are
    /// refused. An error tells the first place of the tree that breaks a rule, and which.
    fn deserialize(alloc: Global, desc: MessageDescriptor, tree: &Value) -> Result<Self, JsonError>
        ensures of { IfOk result (λ m. of m ≡ desc) }
        ensures read { IfOk result (λ m. IsRead desc default_reading (view tree.now) (content m)) }
        ensures fault { IfErr result (IsReadFault desc default_reading (view tree.now)) }
        ensures refused { IfErr result (IsUnread desc default_reading (view tree.now)) };

    /// As `deserialize`, under the options.
    fn deserialize_with_options(
        alloc: Global,
        desc: MessageDescriptor,
        tree: &Value,
        options: &DeserializeOptions,
    ) -> Result<Self, JsonError>
        ensures of { IfOk result (λ m. of m ≡ desc) }
        ensures read { IfOk result (λ m. IsRead desc options.now (view tree.now) (content m)) }
        ensures fault { IfErr result (IsReadFault desc options.now (view tree.now)) }
        ensures refused { IfErr result (IsUnread desc options.now (view tree.now)) };

    /// The canonical tree of the message. An error tells a place of the tree where a rule of writing is broken, and which.
    fn serialize(&self, alloc: Global) -> Result<Value, JsonError>
        ensures written { IfOk result (λ tree. IsWritten (of self.now) default_writing (content self.now) (view tree)) }
        ensures fault { IfErr result (IsWriteFault (of self.now) default_writing (content self.now)) }
        ensures refused { IfErr result (IsUnwritten (of self.now) default_writing (content self.now)) };

    /// As `serialize`, under the options.
    fn serialize_with_options(
        &self,
        alloc: Global,
        options: &SerializeOptions,
    ) -> Result<Value, JsonError>
        ensures written { IfOk result (λ tree. IsWritten (of self.now) options.now (content self.now) (view tree)) }
        ensures fault { IfErr result (IsWriteFault (of self.now) options.now (content self.now)) }
        ensures refused { IfErr result (IsUnwritten (of self.now) options.now (content self.now)) };
}

impl JsonMessage for DynamicMessage {
    ghost of = { λ m. m.of };

    ghost content = { λ m. m.content };

    fn deserialize(
        alloc: Global,
        desc: MessageDescriptor,
        tree: &Value,
    ) -> Result<DynamicMessage, JsonError> {
        DynamicMessage::from_tree(alloc, desc, tree, &DeserializeOptions::new())
    }

    fn deserialize_with_options(
        alloc: Global,
        desc: MessageDescriptor,
        tree: &Value,
        options: &DeserializeOptions,
    ) -> Result<DynamicMessage, JsonError> {
        DynamicMessage::from_tree(alloc, desc, tree, options)
    }

    fn serialize(&self, alloc: Global) -> Result<Value, JsonError> {
        self.to_tree(alloc, &SerializeOptions::new())
    }

    fn serialize_with_options(
        &self,
        alloc: Global,
        options: &SerializeOptions,
    ) -> Result<Value, JsonError> {
        self.to_tree(alloc, options)
    }
}
