ghost use Rattle.std.specs.Prelude.{◌≡◌, map, IfOk, OnOk};
ghost use Rattle.pbx_content.specs.declared.shape.Cardinality.TheVariants.{Repeated};
ghost use Rattle.pbx_content.specs.declared.shape.Kind.TheVariants as kind;
ghost use Rattle.pbx_content.specs.Content.{message};
ghost use Rattle.pbx_content_codec.specs.View.{val_of};
ghost use Rattle.pbx_desc_shapes.specs.DescriptorShape.{descriptor_shape};
ghost use Rattle.pbx_desc_records.specs.declared.message.DescriptorProto.{out-DescriptorProto};
ghost use Rattle.pbx_desc_encoding.specs.Building.{Holds, Writes, IsWritten};
ghost use Rattle.pbx_desc_encoding.specs.Sound.{AreOf};
ghost use Rattle.pbx_desc_encoding.specs.Content.{of_records, message_content, extension_range_content, reserved_range_content};

use crate::contents::{FieldList, HasContents};
use crate::encoding::{Message, record_bytes};
use crate::parts::{Put, put_contents, put_each, put_each_by_content, put_payload};
use crate::values::{put_options, put_text, put_texts};
use pbx_content::Schema;
use pbx_content_codec::{Contents, Held};
use pbx_desc_records::{DescriptorProto, ExtensionRange, ReservedRange};
use pbx_desc_shapes::descriptor_place as place;
use pbx_wire::{List, NoMemory};
use std::alloc::Global;

impl HasContents for DescriptorProto {
    ghost TYPE_AT = { 2 };

    ghost content = { message_content };

    const TYPE_AT: usize = place::MESSAGE;

    fn to_contents(&self, alloc: Global) -> Result<Contents, NoMemory> {
        message_contents(self, alloc)
    }
}

impl Put for DescriptorProto {
    fn put(&self, alloc: Global, schema: &Schema, out: &mut Vec<u8>) -> Result<(), NoMemory> {
        put_message(alloc, schema, self, out)
    }
}

#[cycle(contents)]
fn message_contents(message: &DescriptorProto, alloc: Global) -> Result<Contents, NoMemory>
    ensures { IfOk result (Holds 2 (message_content message.now)) }
{
    let mut fields = FieldList::new(alloc);
    fields.text(1, &message.name)?;
    fields.records(2, &message.field)?;
    fields.list(3, nested_values(&message.nested_type, alloc)?)?;
    fields.records(4, &message.enum_type)?;
    fields.records(5, &message.extension_range)?;
    fields.records(6, &message.extension)?;
    fields.options(7, &message.options)?;
    fields.records(8, &message.oneof_decl)?;
    fields.records(9, &message.reserved_range)?;
    fields.texts(10, &message.reserved_name)?;
    fields.with_unknown(&message.unknown, &[1, 2, 3, 4, 5, 6, 7, 8, 9, 10])
}

#[cycle(contents)]
fn nested_values(messages: &List<DescriptorProto>, alloc: Global) -> Result<List<Held>, NoMemory>
    ensures values { IfOk result (λ values.
        map val_of values ≡ map (λ m. message (message_content m)) messages.now) }
    ensures sound { OnOk result
        (AreOf descriptor_shape (kind.Message 2) (map (λ m. message (message_content m)) messages.now)) }
{
    let mut values = List::with_capacity(alloc, messages.len())?;
    for message in messages.as_slice() {
        values.add(Held::Message(message_contents(message, alloc)?))?;
    }
    Ok(values)
}

/// Puts the encoding behind the text by way of the content, among whose fields unknown records stand.
fn put_message_by_content(
    alloc: Global,
    schema: &Schema,
    message: &DescriptorProto,
    out: &mut Vec<u8>,
) -> Result<(), NoMemory>
    requires { schema.now ≡ descriptor_shape }
    ensures { OnOk result (IsWritten 2 (message_content message.now) out.old.items out.new.items) }
{
    let contents = message_contents(message, alloc)?;
    put_contents(alloc, schema, place::MESSAGE, &contents, out)
}

/// Puts the encoding behind the text, part by part where no unknown record stands among the fields.
#[cycle(writing)]
fn put_message(
    alloc: Global,
    schema: &Schema,
    message: &DescriptorProto,
    out: &mut Vec<u8>,
) -> Result<(), NoMemory>
    requires { schema.now ≡ descriptor_shape }
    ensures { OnOk result (IsWritten 2 (message_content message.now) out.old.items out.new.items) }
{
    if !message.unknown.is_empty() {
        return put_message_by_content(alloc, schema, message, out);
    }
    put_text(1, &message.name, out)?;
    put_each(alloc, schema, 2, &message.field, out)?;
    put_nested(alloc, schema, &message.nested_type, out)?;
    put_each(alloc, schema, 4, &message.enum_type, out)?;
    put_each_by_content(alloc, schema, 5, &message.extension_range, out)?;
    put_each(alloc, schema, 6, &message.extension, out)?;
    put_options(
        alloc,
        schema,
        place::MESSAGE_OPTIONS,
        7,
        &message.options,
        out,
    )?;
    put_each_by_content(alloc, schema, 8, &message.oneof_decl, out)?;
    put_each_by_content(alloc, schema, 9, &message.reserved_range, out)?;
    put_texts(10, &message.reserved_name, out)
}

/// Puts the messages behind the text, each as a nested message.
#[cycle(writing)]
fn put_nested(
    alloc: Global,
    schema: &Schema,
    messages: &List<DescriptorProto>,
    out: &mut Vec<u8>,
) -> Result<(), NoMemory>
    requires { schema.now ≡ descriptor_shape }
    ensures { OnOk result
        (Writes Repeated (kind.Message 2) 3 (of_records message_content messages.now) out.old.items out.new.items) }
{
    let mut text = Vec::new(alloc);
    for message in messages.as_slice() {
        text.clear();
        put_message(alloc, schema, message, &mut text)?;
        put_payload(3, text.as_slice(), out)?;
    }
    Ok(())
}

impl Message for DescriptorProto {
    ghost shape = { λ _. descriptor_shape };

    ghost type_at = { λ _. 2 };

    ghost content = { message_content };

    fn encode_to_vec(&self, alloc: Global) -> Result<Vec<u8>, NoMemory> {
        record_bytes(alloc, self)
    }
}

impl HasContents for ExtensionRange {
    ghost TYPE_AT = { 4 };

    ghost content = { extension_range_content };

    const TYPE_AT: usize = place::EXTENSION_RANGE;

    fn to_contents(&self, alloc: Global) -> Result<Contents, NoMemory> {
        let mut fields = FieldList::new(alloc);
        fields.number(1, self.start)?;
        fields.number(2, self.end)?;
        fields.options(3, &self.options)?;
        fields.with_unknown(&self.unknown, &[1, 2, 3])
    }
}

impl Message for ExtensionRange {
    ghost shape = { λ _. descriptor_shape };

    ghost type_at = { λ _. 4 };

    ghost content = { extension_range_content };

    fn encode_to_vec(&self, alloc: Global) -> Result<Vec<u8>, NoMemory> {
        record_bytes(alloc, self)
    }
}

impl HasContents for ReservedRange {
    ghost TYPE_AT = { 5 };

    ghost content = { reserved_range_content };

    const TYPE_AT: usize = place::RESERVED_RANGE;

    fn to_contents(&self, alloc: Global) -> Result<Contents, NoMemory> {
        let mut fields = FieldList::new(alloc);
        fields.number(1, self.start)?;
        fields.number(2, self.end)?;
        fields.with_unknown(&self.unknown, &[1, 2])
    }
}

impl Message for ReservedRange {
    ghost shape = { λ _. descriptor_shape };

    ghost type_at = { λ _. 5 };

    ghost content = { reserved_range_content };

    fn encode_to_vec(&self, alloc: Global) -> Result<Vec<u8>, NoMemory> {
        record_bytes(alloc, self)
    }
}
