//! Records converted to lines of JSON.

ghost use Rattle.std.specs.Prelude.{◌≡◌, ◌++◌, false, Some, IfOk, IfErr, OnOk, codes, option_map, string_bytes};
ghost use Rattle.serde_json.specs.View.{view};
ghost use Rattle.serde_json.specs.Written.{compact_text, has_float};
ghost use Rattle.pbx_content.specs.Sound.{IsSound};
ghost use Rattle.pbx_content_codec.specs.View.{content_of};
ghost use Rattle.pbx_json_meaning.specs.Canonical.{canonical};
ghost use Rattle.pbx_json_meaning.specs.Options.{default_writing};
ghost use Rattle.protox_lines.specs.Target.{target};
ghost use Rattle.protox_lines.specs.Converted.{to_line, IsRecordFault};
ghost use Rattle.protox_lines.specs.Parts.{IsLineless};

use crate::fault::json_fault;
use pbx_content::{Schema, meaning_is_sound};
use pbx_content_codec::{Contents, decode};
use pbx_json_meaning::{SerializeOptions, canonical_is_plain};
use pbx_json_writing::{Indexes, write_content_by};
use pbx_wire::{Blob, DecodeError, NoMemory};
use protox_lines_items::{ConvertItem, ItemFault};
use serde_json::Value;
use std::alloc::Global;
use std::marker::Model;

/// Converts records to lines of JSON. What a record asks for of the schema is kept for the records behind it.
#[derive(Drop)]
pub(crate) struct RecordConverter<'s> {
    schema: &'s Schema,
    place: usize,
    indexes: Indexes,
}

impl<'s> Model for RecordConverter<'s> {
    ghost use Rattle.pbx_json_writing.specs.Indexes.{AreIndexes};
    ghost use Rattle.protox_lines.specs.Target.{Target, target, target_code};

    ghost Value = { Target };

    ghost coded = { target_code };

    ghost view = { λ c. target c.schema.now c.place };

    ghost invariant = { λ c. AreIndexes c.schema.now c.indexes };
}

/// The compact text of a tree without fractions, and a line feed. The only error is want of memory.
fn text_line(alloc: Global, tree: &Value) -> Result<Blob, NoMemory>
    ensures { has_float (view tree.now) ≡ false → IfOk result (λ line. line ≡ compact_text (view tree.now) ++ codes "\n") }
{
    let Ok(mut text) = tree.to_string(alloc) else {
        return Err(NoMemory);
    };
    text.push_str("\n")?;
    Ok(Blob::from_vec(text.into_bytes()))
}

impl<'s> RecordConverter<'s> {
    /// A converter of messages of the type at the place that has looked up nothing yet.
    pub(crate) fn new(alloc: Global, schema: &'s Schema, place: usize) -> RecordConverter<'s>
        ensures { result ≡ target schema.now place }
    {
        RecordConverter {
            schema,
            place,
            indexes: Indexes::new(alloc, schema),
        }
    }

    /// The line of a content that a message of the type may hold.
    fn content_line(&mut self, alloc: Global, content: &Contents) -> Result<Blob, ItemFault>
        requires { IsSound self.old.shape self.old.place (content_of content.now) }
        ensures ok { IfOk result (λ line. option_map (λ tree. compact_text tree ++ codes "\n")
            (canonical self.old.shape self.old.place (content_of content.now) default_writing) ≡ Some line) }
        ensures err { IfErr result (IsLineless self.old.shape self.old.place (content_of content.now)) }
        ensures same { self.new ≡ self.old }
    {
        // So its text is the compact one.
        canonical_is_plain();
        let options = SerializeOptions::new();
        let written = write_content_by(
            &mut self.indexes,
            alloc,
            self.schema,
            self.place,
            content,
            &options,
        );
        match written {
            Ok(tree) => match text_line(alloc, &tree) {
                Ok(line) => Ok(line),
                Err(NoMemory) => Err(ItemFault::NoMemory),
            },
            Err(error) => Err(json_fault(error)),
        }
    }
}

impl ConvertItem for RecordConverter<'_> {
    ghost converted = { λ c. to_line c.shape c.place };

    ghost faulty = { λ c. IsRecordFault c.shape c.place };

    fn convert(&mut self, alloc: Global, item: &[u8]) -> Result<Blob, ItemFault> {
        meaning_is_sound();
        let _proper = self.schema.shape();
        match decode(alloc, self.schema, self.place, item) {
            Ok(content) => self.content_line(alloc, &content),
            Err(DecodeError::NoMemory) => Err(ItemFault::NoMemory),
            Err(error) => Err(ItemFault::Decode(error)),
        }
    }
}
