// Values of fields, put behind a text one by one, each under the number of its field; only options have a content. Where memory runs
// out, a part may be appended.

ghost use Rattle.std.specs.Prelude.{◌≡◌, ◌++◌, [], OnOk};
ghost use Rattle.std.specs.Int.{w32};
ghost use Rattle.std.specs.Int.RustNames.{FitsSigned};
ghost use Rattle.pbx_wire.specs.Text.{text as text_of_rec};
ghost use Rattle.pbx_wire.specs.declared.rec.Rec.TheVariants as rec;
ghost use Rattle.pbx_content.specs.declared.shape.Cardinality.TheVariants.{Singular, Repeated};
ghost use Rattle.pbx_content.specs.declared.shape.Kind.TheVariants as kind;
ghost use Rattle.pbx_content.specs.Content.{number as number_val, truth};
ghost use Rattle.pbx_content.specs.Encoding.{numeral};
ghost use Rattle.pbx_content.specs.Shape.{fields_of};
ghost use Rattle.pbx_desc_shapes.specs.DescriptorShape.{descriptor_shape};
ghost use Rattle.pbx_desc_encoding.specs.Building.{Writes};
ghost use Rattle.pbx_desc_encoding.specs.Content.{of_text, of_texts, of_number, of_truth, of_options};

use crate::contents::FieldList;
use crate::parts::{put_payload, put_varint};
use pbx_content::Schema;
use pbx_content_codec::encode;
use pbx_desc_records::Options;
use pbx_wire::{NoMemory, Text, Texts};
use std::alloc::Global;

/// A number as it is on the wire.
pub(crate) fn wire_number(value: i32) -> u64
    ensures numeral { result ≡ numeral kind.Int32 (number_val value) }
    ensures fits { FitsSigned w32 value }
{
    i64::from(value).cast_unsigned()
}

/// Puts a varint behind the text, under this number.
fn put_numeral(number: u32, numeral: u64, out: &mut Vec<u8>) -> Result<(), NoMemory>
    ensures { OnOk result (out.new.items ≡ out.old.items ++ text_of_rec (rec.Varint number numeral)) }
{
    put_varint(u64::from(number) * 8, out)?;
    put_varint(numeral, out)
}

/// Puts the number behind the text, under this number of a field, if there is one.
pub(crate) fn put_number(number: u32, value: Option<i32>, out: &mut Vec<u8>) -> Result<(), NoMemory>
    ensures { OnOk result (Writes Singular kind.Int32 number (of_number value) out.old.items out.new.items) }
{
    match value {
        Some(value) => put_numeral(number, wire_number(value), out),
        None => Ok(()),
    }
}

/// A truth value as it is on the wire.
fn wire_truth(value: bool) -> u64
    ensures { result ≡ numeral kind.Bool (truth value) }
{
    if value { 1 } else { 0 }
}

/// Puts the truth value behind the text, under this number, if there is one.
pub(crate) fn put_truth(number: u32, value: Option<bool>, out: &mut Vec<u8>) -> Result<(), NoMemory>
    ensures { OnOk result (Writes Singular kind.Bool number (of_truth value) out.old.items out.new.items) }
{
    match value {
        Some(value) => put_numeral(number, wire_truth(value), out),
        None => Ok(()),
    }
}

/// Puts the text behind the others, under this number, if there is one.
pub(crate) fn put_text(number: u32, text: &Option<Text>, out: &mut Vec<u8>) -> Result<(), NoMemory>
    ensures { OnOk result (Writes Singular kind.String number (of_text text.now) out.old.items out.new.items) }
{
    if let Some(text) = text {
        put_payload(number, text.as_str().as_bytes(), out)?;
    }
    Ok(())
}

/// Puts the texts behind the others, each under this number.
pub(crate) fn put_texts(number: u32, texts: &Texts, out: &mut Vec<u8>) -> Result<(), NoMemory>
    ensures { OnOk result (Writes Repeated kind.String number (of_texts texts.now) out.old.items out.new.items) }
{
    for text in texts.as_slice() {
        put_payload(number, text.as_str().as_bytes(), out)?;
    }
    Ok(())
}

/// Puts the options behind the text, under this number, if there are any. They are of whatever type has no field.
pub(crate) fn put_options(
    alloc: Global,
    schema: &Schema,
    type_at: usize,
    number: u32,
    options: &Option<Options>,
    out: &mut Vec<u8>,
) -> Result<(), NoMemory>
    requires { schema.now ≡ descriptor_shape }
    ensures { OnOk result (fields_of descriptor_shape type_at ≡ []
        → Writes Singular (kind.Message type_at) number (of_options options.now) out.old.items out.new.items) }
{
    if let Some(options) = options {
        let contents = FieldList::new(alloc).with_unknown(&options.recs, &[])?;
        let own = encode(alloc, schema, type_at, &contents)?;
        put_payload(number, own.as_slice(), out)?;
    }
    Ok(())
}
