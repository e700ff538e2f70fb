ghost use Rattle.std.specs.Prelude.{◌≡◌, ◌++◌, true, filter, OnOk};
ghost use Rattle.pbx_wire.specs.Text.{text as text_of_rec, are_fit};
ghost use Rattle.pbx_wire.specs.Varint.{varint};
ghost use Rattle.pbx_wire.specs.declared.rec.Rec.TheVariants as rec;
ghost use Rattle.pbx_content_map.specs.Entries.{IsAscending};
ghost use Rattle.pbx_content.specs.declared.shape.Cardinality.TheVariants.{Singular, Repeated};
ghost use Rattle.pbx_content.specs.declared.shape.Kind.TheVariants as kind;
ghost use Rattle.pbx_content.specs.Content.{content};
ghost use Rattle.pbx_content.specs.Encoding.{encoded};
ghost use Rattle.pbx_content_codec.specs.View.{content_of};
ghost use Rattle.pbx_desc_shapes.specs.DescriptorShape.{descriptor_shape};
ghost use Rattle.pbx_desc_encoding.specs.Building.{entries, Writes, IsWritten};
ghost use Rattle.pbx_desc_encoding.specs.Content.{of_record, of_records, source_code_info_content};
ghost use Rattle.pbx_wire.specs.Number.{is_writable_beside};

use crate::contents::{FieldList, HasContents};
use crate::source::write_source;
use pbx_content::Schema;
use pbx_content_codec::{Contents, encode};
use pbx_desc_records::SourceCodeInfo;
use pbx_wire::{List, NoMemory, Recs};
use std::alloc::Global;

/// A record whose values are put behind a text one by one. It has a content only where it holds unknown records, which stand among its fields.
pub(crate) trait Put: HasContents {
    /// Puts the encoding behind the text. Where memory runs out, a part may be appended.
    fn put(&self, alloc: Global, schema: &Schema, out: &mut Vec<u8>) -> Result<(), NoMemory>
        requires { schema.now ≡ descriptor_shape }
        ensures { OnOk result (IsWritten Self.TYPE_AT (Self.content self.now) out.old.items out.new.items) };
}

/// Puts the shortest spelling of the number behind the text, as `pbx_wire` does for a `Blob`: what is written here goes out as a `Vec`.
/// Where memory runs out, a part of it may be appended.
#[tactic(auto, using(pbx_wire::proofs::Varints::varint_steps))]
pub(crate) fn put_varint(value: u64, out: &mut Vec<u8>) -> Result<(), NoMemory>
    ensures { OnOk result (out.new.items ≡ out.old.items ++ varint value) }
{
    let mut rest = value;
    while rest >= 128 {
        out.push((rest % 128) as u8 + 128)?;
        rest /= 128;
    }
    out.push(rest as u8)?;
    Ok(())
}

/// Puts a payload behind the text, under this number. Where memory runs out, a part of it may be appended.
pub(crate) fn put_payload(number: u32, payload: &[u8], out: &mut Vec<u8>) -> Result<(), NoMemory>
    ensures { OnOk result (out.new.items ≡ out.old.items ++ text_of_rec (rec.Bytes number payload.now)) }
{
    put_varint(u64::from(number) * 8 + 2, out)?;
    put_varint(payload.len() as u64, out)?;
    out.extend_from_slice(payload)?;
    Ok(())
}

/// Puts the encoding of these fields behind the text, with those of the unknown records that may be written and have no
/// known number.
pub(crate) fn put_fields(
    alloc: Global,
    schema: &Schema,
    type_at: usize,
    fields: FieldList,
    unknown: &Recs,
    known: &[u32],
    out: &mut Vec<u8>,
) -> Result<(), NoMemory>
    ensures text { OnOk result (IsAscending fields.list → out.new.items
        ≡ out.old.items ++ encoded schema.now type_at (content (entries fields.list) (filter (is_writable_beside known.now) unknown.now))) }
    ensures fit { OnOk result (are_fit (filter (is_writable_beside known.now) unknown.now) ≡ true) }
{
    let contents = fields.with_unknown(unknown, known)?;
    put_contents(alloc, schema, type_at, &contents, out)
}

/// Puts the encoding of the content behind the text.
pub(crate) fn put_contents(
    alloc: Global,
    schema: &Schema,
    type_at: usize,
    contents: &Contents,
    out: &mut Vec<u8>,
) -> Result<(), NoMemory>
    ensures { OnOk result (out.new.items ≡ out.old.items ++ encoded schema.now type_at (content_of contents.now)) }
{
    let own = encode(alloc, schema, type_at, contents)?;
    out.extend_from_slice(own.as_slice())?;
    Ok(())
}

/// Puts the encoding behind the text by way of the content: the way of records that hold unknown records.
pub(crate) fn put_by_content<R: HasContents>(
    alloc: Global,
    schema: &Schema,
    record: &R,
    out: &mut Vec<u8>,
) -> Result<(), NoMemory>
    requires { schema.now ≡ descriptor_shape }
    ensures { OnOk result (IsWritten R.TYPE_AT (R.content «record».now) out.old.items out.new.items) }
{
    let contents = record.to_contents(alloc)?;
    put_contents(alloc, schema, R::TYPE_AT, &contents, out)
}

/// Puts the records behind the text, each by way of its content, as a message under this number. One content at a time is there.
pub(crate) fn put_each_by_content<R: HasContents>(
    alloc: Global,
    schema: &Schema,
    number: u32,
    records: &List<R>,
    out: &mut Vec<u8>,
) -> Result<(), NoMemory>
    requires { schema.now ≡ descriptor_shape }
    ensures { OnOk result
        (Writes Repeated (kind.Message R.TYPE_AT) number (of_records R.content records.now) out.old.items out.new.items) }
{
    for record in records.as_slice() {
        let contents = record.to_contents(alloc)?;
        let own = encode(alloc, schema, R::TYPE_AT, &contents)?;
        put_payload(number, own.as_slice(), out)?;
    }
    Ok(())
}

/// Puts the records behind the text, each as a message under this number. All share the memory that each is written in.
pub(crate) fn put_each<R: Put>(
    alloc: Global,
    schema: &Schema,
    number: u32,
    records: &List<R>,
    out: &mut Vec<u8>,
) -> Result<(), NoMemory>
    requires { schema.now ≡ descriptor_shape }
    ensures { OnOk result
        (Writes Repeated (kind.Message R.TYPE_AT) number (of_records R.content records.now) out.old.items out.new.items) }
{
    let mut text = Vec::new(alloc);
    for record in records.as_slice() {
        text.clear();
        record.put(alloc, schema, &mut text)?;
        put_payload(number, text.as_slice(), out)?;
    }
    Ok(())
}

/// Puts the places behind the text, as a message under this number, if there are any.
pub(crate) fn put_source(
    alloc: Global,
    schema: &Schema,
    number: u32,
    source: &Option<SourceCodeInfo>,
    out: &mut Vec<u8>,
) -> Result<(), NoMemory>
    requires { schema.now ≡ descriptor_shape }
    ensures { OnOk result
        (Writes Singular (kind.Message 12) number (of_record source_code_info_content source.now) out.old.items out.new.items) }
{
    if let Some(source) = source {
        let mut own = Vec::new(alloc);
        write_source(alloc, schema, source, &mut own)?;
        put_payload(number, own.as_slice(), out)?;
    }
    Ok(())
}
