ghost use Rattle.std.specs.Prelude.{◌≡◌, ℕ, [], true, filter, map, IfOk, OnOk};
ghost use Rattle.std.specs.Int.{w32};
ghost use Rattle.std.specs.Int.RustNames.{FitsSigned};
ghost use Rattle.pbx_wire.specs.Text.{are_fit};
ghost use Rattle.pbx_content_map.specs.Entries.{IsAscending};
ghost use Rattle.pbx_content.specs.declared.shape.Cardinality.TheVariants.{Singular, Repeated};
ghost use Rattle.pbx_content.specs.declared.shape.Kind.{Kind};
ghost use Rattle.pbx_content.specs.declared.shape.Kind.TheVariants as kind;
ghost use Rattle.pbx_content.specs.Content.{Content, content as content_from, message, number as number_val, text as text_val};
ghost use Rattle.pbx_content.specs.Shape.{fields_of};
ghost use Rattle.pbx_content_codec.specs.View.{content_of, val_of};
ghost use Rattle.pbx_desc_shapes.specs.DescriptorShape.{descriptor_shape};
ghost use Rattle.pbx_desc_encoding.specs.Building.{entries, Puts, Holds};
ghost use Rattle.pbx_desc_encoding.specs.Content.{of_text, of_number, of_truth, of_texts, of_numbers, of_record, of_records, of_options, listed};
ghost use Rattle.pbx_desc_encoding.specs.Sound.{AreOf};
ghost use Rattle.pbx_wire.specs.Number.{is_writable_beside};

use pbx_content_codec::{Contents, Held};
use pbx_content_map::NumberMap;
use pbx_desc_records::Options;
use pbx_wire::{List, NoMemory, Recs, Text, Texts, writable_beside};
use std::alloc::Global;

/// A record that has a content as a message of one of the types of the descriptor records.
pub(crate) trait HasContents {
    /// The place of the type.
    ghost TYPE_AT: { ℕ };

    /// What the record holds.
    ghost content: { Self → Content };

    const TYPE_AT: usize;

    /// The content as a tree. The only error is want of memory.
    fn to_contents(&self, alloc: Global) -> Result<Contents, NoMemory>
        ensures { IfOk result (Holds TYPE_AT (content self.now)) };
}

/// Fields with their values, which are put in by ascending number. An absent value puts nothing in.
#[derive(Drop)]
pub(crate) struct FieldList {
    alloc: Global,
    list: List<(u32, Held)>,
}

impl FieldList {
    pub(crate) fn new(alloc: Global) -> FieldList
        ensures { result.list ≡ [] }
    {
        FieldList {
            alloc,
            list: List::new(alloc),
        }
    }

    pub(crate) fn text(&mut self, number: u32, text: &Option<Text>) -> Result<(), NoMemory>
        ensures { OnOk result (Puts Singular kind.String number (of_text text.now) self.old.list self.new.list) }
    {
        if let Some(text) = text {
            let copy = Text::from_str(self.alloc, text.as_str())?;
            self.list.add((number, Held::Text(copy)))?;
        }
        Ok(())
    }

    pub(crate) fn number(&mut self, number: u32, value: Option<i32>) -> Result<(), NoMemory>
        ensures { OnOk result (Puts Singular kind.Int32 number (of_number value) self.old.list self.new.list) }
    {
        if let Some(value) = value {
            self.list.add((number, number_value(value)))?;
        }
        Ok(())
    }

    pub(crate) fn truth(&mut self, number: u32, value: Option<bool>) -> Result<(), NoMemory>
        ensures { OnOk result (Puts Singular kind.Bool number (of_truth value) self.old.list self.new.list) }
    {
        if let Some(value) = value {
            self.list.add((number, Held::Bool(value)))?;
        }
        Ok(())
    }

    pub(crate) fn record<R: HasContents>(
        &mut self,
        number: u32,
        record: &Option<R>,
    ) -> Result<(), NoMemory>
        ensures { OnOk result
            (Puts Singular (kind.Message R.TYPE_AT) number (of_record R.content «record».now) self.old.list self.new.list) }
    {
        if let Some(record) = record {
            let contents = record.to_contents(self.alloc)?;
            self.list.add((number, Held::Message(contents)))?;
        }
        Ok(())
    }

    /// Options are of whatever type has no field.
    pub(crate) fn options(&mut self, number: u32, options: &Option<Options>) -> Result<(), NoMemory>
        ensures { OnOk result ((type_at : ℕ) → fields_of descriptor_shape type_at ≡ []
            → Puts Singular (kind.Message type_at) number (of_options options.now) self.old.list self.new.list) }
    {
        if let Some(options) = options {
            let contents = FieldList::new(self.alloc).with_unknown(&options.recs, &[])?;
            self.list.add((number, Held::Message(contents)))?;
        }
        Ok(())
    }

    /// An empty list puts nothing in.
    pub(crate) fn list(&mut self, number: u32, values: List<Held>) -> Result<(), NoMemory>
        ensures { OnOk result ((k : Kind) → AreOf descriptor_shape k (map val_of values)
            → Puts Repeated k number (listed (map val_of values)) self.old.list self.new.list) }
    {
        if !values.is_empty() {
            self.list.add((number, Held::Many(values)))?;
        }
        Ok(())
    }

    pub(crate) fn texts(&mut self, number: u32, texts: &Texts) -> Result<(), NoMemory>
        ensures { OnOk result (Puts Repeated kind.String number (of_texts texts.now) self.old.list self.new.list) }
    {
        self.list(number, text_values(self.alloc, texts)?)
    }

    pub(crate) fn numbers(&mut self, number: u32, numbers: &List<i32>) -> Result<(), NoMemory>
        ensures { OnOk result (Puts Repeated kind.Int32 number (of_numbers numbers.now) self.old.list self.new.list) }
    {
        self.list(number, number_values(self.alloc, numbers)?)
    }

    pub(crate) fn records<R: HasContents>(
        &mut self,
        number: u32,
        records: &List<R>,
    ) -> Result<(), NoMemory>
        ensures { OnOk result
            (Puts Repeated (kind.Message R.TYPE_AT) number (of_records R.content records.now) self.old.list self.new.list) }
    {
        self.list(number, record_values(self.alloc, records)?)
    }

    /// The fields, with those of the unknown records that may be written and have no known number.
    pub(crate) fn with_unknown(self, unknown: &Recs, known: &[u32]) -> Result<Contents, NoMemory>
        ensures content { IfOk result (λ contents. IsAscending self.list →
            content_of contents ≡ content_from (entries self.list) (filter (is_writable_beside known.now) unknown.now)) }
        ensures fit { OnOk result (are_fit (filter (is_writable_beside known.now) unknown.now) ≡ true) }
    {
        let kept = writable_beside(self.alloc, unknown, known)?;
        let fields = NumberMap::from_entries(self.alloc, self.list.into_vec())?;
        Ok(Contents { fields, kept })
    }
}

/// The value of a field, which fits its kind.
fn number_value(value: i32) -> Held
    ensures value { val_of result ≡ number_val value }
    ensures fits { FitsSigned w32 value }
{
    Held::I32(value)
}

fn text_values(alloc: Global, texts: &Texts) -> Result<List<Held>, NoMemory>
    ensures values { IfOk result (λ values. map val_of values ≡ map text_val texts.now) }
    ensures sound { OnOk result (AreOf descriptor_shape kind.String (map text_val texts.now)) }
{
    let mut values = List::with_capacity(alloc, texts.len())?;
    for text in texts.as_slice() {
        let copy = Text::from_str(alloc, text.as_str())?;
        values.add(Held::Text(copy))?;
    }
    Ok(values)
}

fn number_values(alloc: Global, numbers: &List<i32>) -> Result<List<Held>, NoMemory>
    ensures values { IfOk result (λ values. map val_of values ≡ map number_val numbers.now) }
    ensures sound { OnOk result (AreOf descriptor_shape kind.Int32 (map number_val numbers.now)) }
{
    let mut values = List::with_capacity(alloc, numbers.len())?;
    for number in numbers.as_slice() {
        values.add(number_value(*number))?;
    }
    Ok(values)
}

fn record_values<R: HasContents>(alloc: Global, records: &List<R>) -> Result<List<Held>, NoMemory>
    ensures values { IfOk result (λ values. map val_of values ≡ map (λ r. message (R.content r)) records.now) }
    ensures sound { OnOk result
        (AreOf descriptor_shape (kind.Message R.TYPE_AT) (map (λ r. message (R.content r)) records.now)) }
{
    let mut values = List::with_capacity(alloc, records.len())?;
    for record in records.as_slice() {
        let contents = record.to_contents(alloc)?;
        values.add(Held::Message(contents))?;
    }
    Ok(values)
}
