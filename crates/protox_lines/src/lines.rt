//! Lines of JSON converted to records.

ghost use Rattle.std.specs.Prelude.{◌≡◌, false, Some, IfOk, IfErr, option_and_then};
ghost use Rattle.serde_json.specs.View.{view};
ghost use Rattle.pbx_content_codec.specs.View.{content_of};
ghost use Rattle.pbx_json_meaning.specs.Stands.{content_for};
ghost use Rattle.protox_lines.specs.Target.{target};
ghost use Rattle.protox_lines.specs.Converted.{to_record, record_of, behind_length, IsLineFault};
ghost use Rattle.protox_lines.specs.Parts.{IsTreeFault, IsContentFault};

use crate::fault::json_fault;
use pbx_content::Schema;
use pbx_content_codec::{Contents, encode};
use pbx_json_levels::fits_by;
use pbx_json_meaning::DeserializeOptions;
use pbx_json_reading::read_content_by;
use pbx_json_schema::{SchemaNames, TypeNames};
use pbx_wire::{Blob, NoMemory, put_varint};
use protox_lines_items::{ConvertItem, ItemFault};
use protox_transcode::read_json_text;
use serde_json::Value;
use std::alloc::Global;
use std::marker::Model;

/// Converts lines of JSON to records. What a line asks for of the schema is kept for the lines behind it.
#[derive(Drop)]
pub(crate) struct LineConverter<'s> {
    schema: &'s Schema,
    place: usize,
    names: SchemaNames,
    types: TypeNames,
}

impl<'s> Model for LineConverter<'s> {
    ghost use Rattle.pbx_json_schema.specs.Index.{AreNamesIn, AreTypesIn};
    ghost use Rattle.protox_lines.specs.Target.{Target, target, target_code};

    ghost Value = { Target };

    ghost coded = { target_code };

    ghost view = { λ c. target c.schema.now c.place };

    ghost invariant = { λ c. AreNamesIn c.schema.now c.names × AreTypesIn c.schema.now c.types };
}

/// The bytes, with their length before them. The only error is want of memory.
fn with_length(alloc: Global, bytes: &[u8]) -> Result<Blob, NoMemory>
    ensures { IfOk result (λ text. text ≡ behind_length bytes.now) }
{
    let mut record = Blob::with_capacity(alloc, bytes.len().saturating_add(10))?;
    put_varint(&mut record, bytes.len() as u64)?;
    record.append(bytes)?;
    Ok(record)
}

impl<'s> LineConverter<'s> {
    /// A converter to messages of the type at the place that has looked up nothing yet.
    pub(crate) fn new(alloc: Global, schema: &'s Schema, place: usize) -> LineConverter<'s>
        ensures { result ≡ target schema.now place }
    {
        LineConverter {
            schema,
            place,
            names: SchemaNames::new(alloc, schema),
            types: TypeNames::new(alloc, schema),
        }
    }

    /// The record of a content.
    fn content_record(&mut self, alloc: Global, content: &Contents) -> Result<Blob, ItemFault>
        ensures ok { IfOk result (λ bytes. record_of self.old.shape self.old.place (content_of content.now) ≡ Some bytes) }
        ensures err { IfErr result (IsContentFault self.old.shape self.old.place (content_of content.now)) }
        ensures same { self.new ≡ self.old }
    {
        match fits_by(&mut self.types, alloc, self.schema, self.place, content) {
            Ok(true) => {}
            Ok(false) => return Err(ItemFault::TooDeep),
            Err(NoMemory) => return Err(ItemFault::NoMemory),
        }
        let Ok(bytes) = encode(alloc, self.schema, self.place, content) else {
            return Err(ItemFault::NoMemory);
        };
        match with_length(alloc, bytes.as_slice()) {
            Ok(record) => Ok(record),
            Err(NoMemory) => Err(ItemFault::NoMemory),
        }
    }

    /// The record of the message that the tree stands for.
    fn tree_record(&mut self, alloc: Global, tree: &Value) -> Result<Blob, ItemFault>
        ensures ok { IfOk result (λ bytes. option_and_then (record_of self.old.shape self.old.place)
            (content_for self.old.shape self.old.place false (view tree.now)) ≡ Some bytes) }
        ensures err { IfErr result (IsTreeFault self.old.shape self.old.place (view tree.now)) }
        ensures same { self.new ≡ self.old }
    {
        let options = DeserializeOptions::new();
        let read = read_content_by(
            &mut self.names,
            alloc,
            self.schema,
            self.place,
            tree,
            &options,
        );
        match read {
            Ok(content) => self.content_record(alloc, &content),
            Err(error) => Err(json_fault(error)),
        }
    }
}

impl ConvertItem for LineConverter<'_> {
    ghost converted = { λ c. to_record c.shape c.place };

    ghost faulty = { λ c. IsLineFault c.shape c.place };

    fn convert(&mut self, alloc: Global, item: &[u8]) -> Result<Blob, ItemFault> {
        match read_json_text(alloc, item) {
            Ok(Some(tree)) => self.tree_record(alloc, &tree),
            Ok(None) => Err(ItemFault::NotJson),
            Err(NoMemory) => Err(ItemFault::NoMemory),
        }
    }
}
