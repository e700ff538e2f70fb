//! Dynamic messages as JSON trees.

ghost use Rattle.std.specs.Prelude.{◌≡◌, IfOk, IfErr};
ghost use Rattle.serde_json.specs.View.{view};
ghost use Rattle.pbx_json_meaning.specs.Fits.{fits};
ghost use Rattle.pbx_json_schema.specs.Index.{AreNamesIn, AreTypesIn};
ghost use Rattle.pbx_link_meaning.specs.Shapes.{shape_of};
ghost use Rattle.pbx_message_dynamic.specs.Message.{shape_in, place_in};
ghost use Rattle.pbx_message_dynamic.specs.Trees.{IsRead, IsReadFault, IsUnread, IsWritten, IsWriteFault, IsUnwritten};

use crate::message::DynamicMessage;
use pbx_json_laws::{shapes_are_well_named, stands_sound, values_have_texts};
use pbx_json_levels::fits_by;
use pbx_json_meaning::{DeserializeOptions, JsonError, JsonKind, Place, SerializeOptions};
use pbx_json_reading::read_content_by;
use pbx_json_schema::{SchemaNames, TypeNames};
use pbx_json_writing::write_content;
use pbx_link::MessageDescriptor;
use pbx_wire::NoMemory;
use serde_json::Value;
use std::alloc::Global;

pub(crate) fn no_memory(alloc: Global) -> JsonError
    ensures { result.kind ≡ JsonKind.NoMemory }
{
    JsonError {
        place: Place::new(alloc),
        kind: JsonKind::NoMemory,
    }
}

impl DynamicMessage {
    /// The message of the type that the tree stands for. An error tells the first place of the tree that breaks a rule,
    /// and which. Where the message would nest more than 1,024 levels, want of memory is the answer.
    pub fn from_tree(
        alloc: Global,
        desc: MessageDescriptor,
        tree: &Value,
        options: &DeserializeOptions,
    ) -> Result<DynamicMessage, JsonError>
        ensures of { IfOk result (λ m. m.of ≡ desc) }
        ensures read { IfOk result (λ m. IsRead desc options.now (view tree.now) m.content) }
        ensures fault { IfErr result (IsReadFault desc options.now (view tree.now)) }
        ensures refused { IfErr result (IsUnread desc options.now (view tree.now)) }
    {
        let Ok(schema) = desc.schema() else {
            return Err(no_memory(alloc));
        };
        let mut names = SchemaNames::new(alloc, schema.as_ref());
        DynamicMessage::from_tree_by(&mut names, alloc, desc, tree, options)
    }

    /// `from_tree` by the names of the pool's types that were looked up before; those that the tree asks for are kept for the next one.
    pub(crate) fn from_tree_by(
        names: &mut SchemaNames,
        alloc: Global,
        desc: MessageDescriptor,
        tree: &Value,
        options: &DeserializeOptions,
    ) -> Result<DynamicMessage, JsonError>
        requires { AreNamesIn (shape_of desc.pool) names.old }
        ensures of { IfOk result (λ m. m.of ≡ desc) }
        ensures read { IfOk result (λ m. IsRead desc options.now (view tree.now) m.content) }
        ensures fault { IfErr result (IsReadFault desc options.now (view tree.now)) }
        ensures refused { IfErr result (IsUnread desc options.now (view tree.now)) }
        ensures names { AreNamesIn (shape_of desc.pool) names.new }
    {
        // What the tree stands for is a content that the message may hold.
        stands_sound();
        values_have_texts(tree);
        shapes_are_well_named();
        let _pool = desc.parent_pool();
        let Ok(schema) = desc.schema() else {
            return Err(no_memory(alloc));
        };
        let _proper = schema.as_ref().shape();
        let place = desc.place(schema.as_ref());
        match read_content_by(names, alloc, schema.as_ref(), place, tree, options) {
            Ok(content) => match DynamicMessage::with_tree(alloc, desc, content) {
                Some(message) => Ok(message),
                None => Err(no_memory(alloc)),
            },
            Err(error) => Err(error),
        }
    }

    /// The canonical tree of the message under the options. An error tells a place of the tree where a rule of writing is
    /// broken, and which. Where payloads of `google.protobuf.Any` nest inside one another, many hundreds of levels together, want of
    /// memory may be the answer.
    pub fn to_tree(&self, alloc: Global, options: &SerializeOptions) -> Result<Value, JsonError>
        ensures written { IfOk result (λ tree. IsWritten self.now.of options.now self.now.content (view tree)) }
        ensures fault { IfErr result (IsWriteFault self.now.of options.now self.now.content) }
        ensures refused { IfErr result (IsUnwritten self.now.of options.now self.now.content) }
    {
        let Ok(schema) = self.desc.schema() else {
            return Err(no_memory(alloc));
        };
        let place = self.desc.place(schema.as_ref());
        write_content(alloc, schema.as_ref(), place, &self.tree, options)
    }

    /// Whether at most 100 levels stand below the top, and each payload of a `google.protobuf.Any` in the message decodes as its
    /// type within 100 levels of its own, payloads inside payloads too; a payload's type is a message of this one's pool. The only
    /// error is want of memory, which may be the answer where payloads nest inside one another, many hundreds of levels together.
    pub fn fits_levels(&self, alloc: Global) -> Result<bool, NoMemory>
        ensures { IfOk result (λ yes. yes ≡ fits (shape_in self.now) (place_in self.now) self.now.content) }
    {
        let schema = self.desc.schema()?;
        let mut types = TypeNames::new(alloc, schema.as_ref());
        self.fits_levels_by(&mut types, alloc)
    }

    /// `fits_levels` by the types of the pool that were looked up before; those that a payload asks for are kept for the next message.
    pub(crate) fn fits_levels_by(
        &self,
        types: &mut TypeNames,
        alloc: Global,
    ) -> Result<bool, NoMemory>
        requires { AreTypesIn (shape_in self.now) types.old }
        ensures fit { IfOk result (λ yes. yes ≡ fits (shape_in self.now) (place_in self.now) self.now.content) }
        ensures known { AreTypesIn (shape_in self.now) types.new }
    {
        let schema = self.desc.schema()?;
        let place = self.desc.place(schema.as_ref());
        fits_by(types, alloc, schema.as_ref(), place, &self.tree)
    }
}
