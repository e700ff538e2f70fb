ghost use Rattle.std.specs.Prelude.{◌≡◌, ◌≤◌, true, Some, IfSome, IfOk, IfErr, OnOk, OnErr};
ghost use Rattle.pbx_content.specs.Content.{empty, kept as kept_of, fields as fields_in_content, without, with_fields};
ghost use Rattle.pbx_content.specs.Encoding.{encoded};
ghost use Rattle.pbx_content.specs.Faults.{IsFaultOf, IsToldFault};
ghost use Rattle.pbx_content.specs.Meaning.{meaning_of};
ghost use Rattle.pbx_content.specs.Onto.{merged_of};
ghost use Rattle.pbx_content.specs.Sound.{IsSound, depth as depth_of};
ghost use Rattle.pbx_content_codec.specs.View.{content_of};
ghost use Rattle.pbx_desc.specs.Decoding.{meaning_by, IsFaultBy};
ghost use Rattle.pbx_link_meaning.specs.Shapes.{shape_of, place_of};
ghost use Rattle.pbx_message_dynamic.specs.Message.{shape_in, place_in, text_in, dynamic, with_content};
ghost use Rattle.pbx_message_dynamic.specs.Targets.{IsNumbered};
ghost use Rattle.pbx_message_dynamic.specs.Fields.{IsOwnField, IsOwnExtension, IsNamed, IsGot, HasValue, IsFieldSet, IsNotSet, IsCleared};

use crate::error::SetFieldError;
use crate::levels::{DECODED_LEVELS, MOST_LEVELS, value_levels};
use crate::own::{extension_number, field_number, kept_number, named_number};
use crate::reading::numbered_value;
use crate::setting::set_numbered;
use crate::value::Value;
use pbx_content::{encoding_decodes, meaning_is_sound, onto_is_following};
use pbx_content_codec::{Contents, decode, depth, encode, merge};
use pbx_content_map::NumberMap;
use pbx_desc::DecodeMessage;
use pbx_desc_encoding::Message;
use pbx_link::{ExtensionDescriptor, FieldDescriptor, MessageDescriptor};
use pbx_message_laws::{
    clearing_is_sound, empty_is_sound, fields_are_as_set, fields_are_listed,
    sound_values_are_settable,
};
use pbx_wire::{DecodeError, NoMemory, Recs};
use std::alloc::Global;
use std::marker::Model;

/// A message of a type that is known only when the program runs. Contracts see its type and what it holds, which is
/// always a content that a message of the type may have, of at most 1,024 levels.
#[derive(Drop)]
pub struct DynamicMessage {
    pub(crate) desc: MessageDescriptor,
    pub(crate) tree: Contents,
    /// The levels of the tree, or a greater number: a field that is cleared leaves it as it is.
    pub(crate) levels: u32,
    /// Under the index of a oneof its member that may have a value, once a member of a oneof was set.
    pub(crate) members: Option<NumberMap<u32>>,
    pub(crate) alloc: Global,
}

impl Model for DynamicMessage {
    ghost use Rattle.std.specs.Prelude.{◌≤◌};
    ghost use Rattle.pbx_content.specs.Content.{fields};
    ghost use Rattle.pbx_content.specs.Sound.{IsSound, depth};
    ghost use Rattle.pbx_content_codec.specs.View.{content_of};
    ghost use Rattle.pbx_link_meaning.specs.Shapes.{shape_of, place_of};
    ghost use Rattle.pbx_message_dynamic.specs.Members.{AreMembersIf};
    ghost use Rattle.pbx_message_dynamic.specs.Message.{Dynamic, dynamic_code, type_fields};

    ghost Value = { Dynamic };

    ghost coded = { dynamic_code };

    ghost view = { λ m. record { of = m.desc; content = content_of m.tree } };

    ghost invariant = { λ m. IsSound (shape_of m.desc.pool) (place_of m.desc) (content_of m.tree)
        × AreMembersIf (type_fields m.desc) (fields (content_of m.tree)) m.members
        × (depth (content_of m.tree) ≤ m.levels) × (m.levels ≤ 1024) };
}

impl DynamicMessage {
    /// The message of the type that holds nothing; takes no memory.
    pub fn new(alloc: Global, desc: MessageDescriptor) -> DynamicMessage
        ensures { result ≡ dynamic desc empty }
    {
        empty_is_sound();
        DynamicMessage {
            desc,
            tree: Contents::new(alloc),
            levels: 0,
            members: None,
            alloc,
        }
    }

    /// The message of the type that holds the tree, which is one that it may hold; None where the tree has more than 1,024 levels.
    pub(crate) fn with_tree(
        alloc: Global,
        desc: MessageDescriptor,
        tree: Contents,
    ) -> Option<DynamicMessage>
        requires { IsSound (shape_of desc.pool) (place_of desc) (content_of tree) }
        ensures { IfSome result (λ m. m ≡ dynamic desc (content_of tree)) }
    {
        let levels = depth(&tree);
        if levels > MOST_LEVELS {
            return None;
        }
        Some(DynamicMessage {
            desc,
            tree,
            levels,
            members: None,
            alloc,
        })
    }

    /// The message that the bytes mean.
    pub fn decode(
        alloc: Global,
        desc: MessageDescriptor,
        bytes: &[u8],
    ) -> Result<DynamicMessage, DecodeError>
        ensures of { IfOk result (λ m. m.of ≡ desc) }
        ensures found { IfOk result (λ m. meaning_of (shape_of desc.pool) (place_of desc) bytes.now ≡ Some m.content) }
        ensures fault { IfErr result (IsToldFault (meaning_of (shape_of desc.pool) (place_of desc) bytes.now)
            (IsFaultOf (shape_of desc.pool) (place_of desc) bytes.now)) }
    {
        meaning_is_sound();
        let schema = desc.schema()?;
        let _proper = schema.as_ref().shape();
        let tree = decode(alloc, schema.as_ref(), desc.place(schema.as_ref()), bytes)?;
        Ok(DynamicMessage {
            desc,
            tree,
            levels: DECODED_LEVELS,
            members: None,
            alloc,
        })
    }

    /// Adds what the bytes mean, as if their records followed those of the message. A refused call changes nothing.
    pub fn merge(&mut self, bytes: &[u8]) -> Result<(), DecodeError>
        ensures of { OnOk result (self.new.of ≡ self.old.of) }
        ensures merged { OnOk result (merged_of (shape_in self.old) (place_in self.old) self.old.content bytes.now ≡ Some self.new.content) }
        ensures fault { IfErr result (IsToldFault (merged_of (shape_in self.old) (place_in self.old) self.old.content bytes.now)
            (IsFaultOf (shape_in self.old) (place_in self.old) bytes.now)) }
        ensures unchanged { OnErr result (self.new ≡ self.old) }
    {
        onto_is_following();
        let schema = self.desc.schema()?;
        let _proper = schema.as_ref().shape();
        let place = self.desc.place(schema.as_ref());
        match merge(self.alloc, schema.as_ref(), place, &self.tree, bytes) {
            Ok(tree) => {
                self.tree = tree;
                self.levels = self.levels.max(DECODED_LEVELS);
                self.members = None;
                Ok(())
            }
            Err(fault) => Err(fault),
        }
    }

    /// The value of the field of the number, or its default.
    fn get_number(&self, alloc: Global, number: u32) -> Result<Option<Value>, NoMemory>
        ensures { IfOk result (IsGot self.now (IsNumbered self.now.of number)) }
    {
        match self.desc.schema() {
            Ok(schema) => numbered_value(&self.desc, &self.tree, schema.as_ref(), number, alloc),
            Err(refused) => Err(refused),
        }
    }

    /// Whether the field of the number has a value.
    fn has_number(&self, number: u32) -> bool
        ensures { HasValue self.now (IsNumbered self.now.of number) result }
    {
        sound_values_are_settable();
        fields_are_as_set();
        fields_are_listed();
        self.tree.get(number).is_some()
    }

    /// Gives the field of the number the value, and takes away those of the other members of its oneof.
    fn set_number(&mut self, number: u32, value: Value) -> Result<(), SetFieldError>
        ensures set { OnOk result (IsFieldSet self.old (IsNumbered self.old.of number) value self.new) }
        ensures shallow { OnOk result (depth_of self.new.content ≤ 1024) }
        ensures refused { IfErr result (IsNotSet self.old (IsNumbered self.old.of number) value) }
        ensures unchanged { OnErr result (self.new ≡ self.old) }
    {
        let levels = value_levels(&value);
        match self.desc.schema() {
            Ok(schema) => match set_numbered(
                &self.desc,
                &mut self.tree,
                &mut self.members,
                self.alloc,
                schema.as_ref(),
                number,
                value,
                levels,
            ) {
                Ok(levels) => {
                    self.levels = self.levels.max(levels);
                    Ok(())
                }
                Err(fault) => Err(fault),
            },
            Err(_refused) => {
                drop(value);
                Err(SetFieldError::NoMemory)
            }
        }
    }

    /// Takes the value of the field of the number away.
    fn clear_number(&mut self, number: u32)
        ensures { self.new ≡ with_content self.old (with_fields self.old.content (without number (fields_in_content self.old.content))) }
    {
        clearing_is_sound();
        self.tree.clear(number);
    }

    /// The field's value, or its default where it has none; None for a field of another message or of a float kind. It is
    /// a copy. The only error is want of memory.
    pub fn get_field(
        &self,
        alloc: Global,
        field: &FieldDescriptor,
    ) -> Result<Option<Value>, NoMemory>
        ensures { IfOk result (IsGot self.now (IsOwnField self.now.of field.now)) }
    {
        match field_number(&self.desc, field) {
            Some(number) => self.get_number(alloc, number),
            None => Ok(None),
        }
    }

    /// Whether the field is the message's own and has a value.
    pub fn has_field(&self, field: &FieldDescriptor) -> bool
        ensures { HasValue self.now (IsOwnField self.now.of field.now) result }
    {
        match field_number(&self.desc, field) {
            Some(number) => self.has_number(number),
            None => false,
        }
    }

    /// Gives the field the value, and takes away those of the other members of its oneof. A refused call changes
    /// nothing.
    ///
    /// Where the message would nest more than 1,024 levels below the top, that is `NoMemory`: a message is walked, copied and let go
    /// by recursion, and the stack is memory too. A message in a field is one level, an entry of a map one more.
    pub fn set_field(&mut self, field: &FieldDescriptor, value: Value) -> Result<(), SetFieldError>
        ensures set { OnOk result (IsFieldSet self.old (IsOwnField self.old.of field.now) value self.new) }
        ensures shallow { OnOk result (depth_of self.new.content ≤ 1024) }
        ensures refused { IfErr result (IsNotSet self.old (IsOwnField self.old.of field.now) value) }
        ensures unchanged { OnErr result (self.new ≡ self.old) }
    {
        match field_number(&self.desc, field) {
            Some(number) => self.set_number(number, value),
            None => {
                drop(value);
                Err(SetFieldError::NotFound)
            }
        }
    }

    /// Takes the field's value away. Kept records stay, and a field of another message changes nothing.
    pub fn clear_field(&mut self, field: &FieldDescriptor)
        ensures { IsCleared self.old (IsOwnField self.old.of field.now) self.new }
    {
        match field_number(&self.desc, field) {
            Some(number) => self.clear_number(number),
            None => {}
        }
    }

    /// As `get_field` of the field of that name; a name that no field has counts as a field of another message.
    pub fn get_field_by_name(&self, alloc: Global, name: &str) -> Result<Option<Value>, NoMemory>
        ensures { IfOk result (IsGot self.now (IsNamed self.now.of name.now)) }
    {
        match kept_number(&self.desc, name)? {
            Some(number) => self.get_number(alloc, number),
            None => Ok(None),
        }
    }

    /// As `has_field` of the field of that name.
    pub fn has_field_by_name(&self, name: &str) -> bool
        ensures { HasValue self.now (IsNamed self.now.of name.now) result }
    {
        if self.tree.fields.len() == 0 {
            return false;
        }
        match named_number(&self.desc, name) {
            Some(number) => self.has_number(number),
            None => false,
        }
    }

    /// As `set_field` of the field of that name.
    pub fn set_field_by_name(&mut self, name: &str, value: Value) -> Result<(), SetFieldError>
        ensures set { OnOk result (IsFieldSet self.old (IsNamed self.old.of name.now) value self.new) }
        ensures shallow { OnOk result (depth_of self.new.content ≤ 1024) }
        ensures refused { IfErr result (IsNotSet self.old (IsNamed self.old.of name.now) value) }
        ensures unchanged { OnErr result (self.new ≡ self.old) }
    {
        match kept_number(&self.desc, name)? {
            Some(number) => self.set_number(number, value),
            None => {
                drop(value);
                Err(SetFieldError::NotFound)
            }
        }
    }

    /// As `clear_field` of the field of that name.
    pub fn clear_field_by_name(&mut self, name: &str)
        ensures { IsCleared self.old (IsNamed self.old.of name.now) self.new }
    {
        if self.tree.fields.len() == 0 {
            return;
        }
        match named_number(&self.desc, name) {
            Some(number) => self.clear_number(number),
            None => {}
        }
    }

    /// As `get_field`, of an extension of the message.
    pub fn get_extension(
        &self,
        alloc: Global,
        field: &ExtensionDescriptor,
    ) -> Result<Option<Value>, NoMemory>
        ensures { IfOk result (IsGot self.now (IsOwnExtension self.now.of field.now)) }
    {
        match extension_number(&self.desc, field) {
            Some(number) => self.get_number(alloc, number),
            None => Ok(None),
        }
    }

    /// As `has_field`, of an extension of the message.
    pub fn has_extension(&self, field: &ExtensionDescriptor) -> bool
        ensures { HasValue self.now (IsOwnExtension self.now.of field.now) result }
    {
        match extension_number(&self.desc, field) {
            Some(number) => self.has_number(number),
            None => false,
        }
    }

    /// As `set_field`, of an extension of the message.
    pub fn set_extension(
        &mut self,
        field: &ExtensionDescriptor,
        value: Value,
    ) -> Result<(), SetFieldError>
        ensures set { OnOk result (IsFieldSet self.old (IsOwnExtension self.old.of field.now) value self.new) }
        ensures shallow { OnOk result (depth_of self.new.content ≤ 1024) }
        ensures refused { IfErr result (IsNotSet self.old (IsOwnExtension self.old.of field.now) value) }
        ensures unchanged { OnErr result (self.new ≡ self.old) }
    {
        match extension_number(&self.desc, field) {
            Some(number) => self.set_number(number, value),
            None => {
                drop(value);
                Err(SetFieldError::NotFound)
            }
        }
    }

    /// As `clear_field`, of an extension of the message.
    pub fn clear_extension(&mut self, field: &ExtensionDescriptor)
        ensures { IsCleared self.old (IsOwnExtension self.old.of field.now) self.new }
    {
        match extension_number(&self.desc, field) {
            Some(number) => self.clear_number(number),
            None => {}
        }
    }

    /// The records that no field reads, in order of arrival.
    pub fn unknown_fields(&self) -> &Recs
        ensures { result.now ≡ kept_of self.now.content }
    {
        &self.tree.kept
    }

    /// The message's type.
    pub fn descriptor(&self) -> MessageDescriptor
        ensures same { result ≡ self.now.of }
        // What the message holds is what a message of its type may hold.
        ensures sound { IsSound (shape_in self.now) (place_in self.now) self.now.content }
    {
        self.desc.copy()
    }

    /// The levels below the top.
    pub fn depth(&self) -> u32
        ensures is { result ≡ depth_of self.now.content }
        ensures shallow { depth_of self.now.content ≤ 1024 }
    {
        depth(&self.tree)
    }

    /// Adds what the value's bytes mean as a message of this type. A refused call changes nothing.
    pub fn transcode_from<T: Message>(
        &mut self,
        alloc: Global,
        value: &T,
    ) -> Result<(), DecodeError>
        ensures of { OnOk result (self.new.of ≡ self.old.of) }
        ensures merged { OnOk result (merged_of (shape_in self.old) (place_in self.old) self.old.content
            (encoded (T.shape «value».now) (T.type_at «value».now) (T.content «value».now)) ≡ Some self.new.content) }
        ensures fault { IfErr result (IsToldFault
            (merged_of (shape_in self.old) (place_in self.old) self.old.content (encoded (T.shape «value».now) (T.type_at «value».now) (T.content «value».now)))
            (IsFaultOf (shape_in self.old) (place_in self.old) (encoded (T.shape «value».now) (T.type_at «value».now) (T.content «value».now)))) }
        ensures unchanged { OnErr result (self.new ≡ self.old) }
    {
        let bytes = value.encode_to_vec(alloc)?;
        self.merge(bytes.as_slice())
    }

    /// The value that the message's bytes mean.
    pub fn transcode_to<T: DecodeMessage>(&self, alloc: Global) -> Result<T, DecodeError>
        ensures found { IfOk result (λ made. meaning_by T.DECODING T.SHAPE T.TYPE_AT (text_in self.now) ≡ Some (T.content made)) }

        // And nothing beside it.
        ensures exact { IfOk result (λ made. T.is_exact made ≡ true) }
        ensures typed { IfOk result (λ made. (T.shape made ≡ T.SHAPE) × (T.type_at made ≡ T.TYPE_AT)) }
        ensures fault { IfErr result (IsToldFault
            (meaning_by T.DECODING T.SHAPE T.TYPE_AT (text_in self.now)) (IsFaultBy T.DECODING T.SHAPE T.TYPE_AT (text_in self.now))) }
    {
        let bytes = self.encode_to_vec(alloc)?;
        T::decode(alloc, bytes.as_slice())
    }
}

impl Message for DynamicMessage {
    ghost shape = { shape_in };

    ghost type_at = { place_in };

    ghost content = { λ m. m.content };

    fn encode_to_vec(&self, alloc: Global) -> Result<Vec<u8>, NoMemory> {
        encoding_decodes();
        let schema = self.desc.schema()?;
        let _proper = schema.as_ref().shape();
        let place = self.desc.place(schema.as_ref());
        let text = encode(alloc, schema.as_ref(), place, &self.tree)?;
        Ok(Vec::from_slice(alloc, text.as_slice())?)
    }
}
