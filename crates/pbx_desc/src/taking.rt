ghost use Rattle.std.specs.Prelude.{◌≡◌, ℕ, Bool, true, [], map, IfOk};
ghost use Rattle.pbx_content.specs.declared.shape.Cardinality.TheVariants.{Singular, Repeated};
ghost use Rattle.pbx_content.specs.declared.shape.Kind.{Kind};
ghost use Rattle.pbx_content.specs.declared.shape.Kind.TheVariants as kind;
ghost use Rattle.pbx_content.specs.Content.{Content, kept};
ghost use Rattle.pbx_content.specs.Shape.{fields_of};
ghost use Rattle.pbx_content.specs.Sound.{IsSound};
ghost use Rattle.pbx_content_codec.specs.View.{content_of, val_of};
ghost use Rattle.pbx_desc_shapes.specs.DescriptorShape.{descriptor_shape};
ghost use Rattle.pbx_desc_encoding.specs.Content.{of_text, of_number, of_truth, of_texts, of_numbers, of_record, of_records, of_options};
ghost use Rattle.pbx_desc.specs.Exact.{are_exact, is_exact_if, is_exact_options};
ghost use Rattle.pbx_desc.specs.Taking.{Takes, TakesList};

use crate::elements::{
    message_of, number_list, number_of, record_list, text_list, text_of, truth_of, values_of,
};
use crate::options::options_of;
use pbx_content_codec::{Contents, Held};
use pbx_desc_records::Options;
use pbx_wire::{List, NoMemory, Recs, Text, Texts};
use std::alloc::Global;

/// A record that is made of a content of one of the types of the descriptor records.
pub(crate) trait FromContents: Drop + Sized {
    /// The place of the type.
    ghost TYPE_AT: { ℕ };

    /// What the record holds.
    ghost content: { Self → Content };

    /// Whether nothing stands in it beside that.
    ghost is_exact: { Self → Bool };

    const TYPE_AT: usize;

    /// The record of the content, where a message of the type may have it. The only error is want of memory.
    fn from_contents(contents: Contents, alloc: Global) -> Result<Self, NoMemory>
        ensures { IfOk result (λ value.
            IsSound descriptor_shape TYPE_AT (content_of contents) → (content value ≡ content_of contents) × (is_exact value ≡ true)) };
}

/// Takes a text out.
pub(crate) fn take_text(contents: &mut Contents, number: u32) -> Option<Text>
    ensures { Takes Singular kind.String number (of_text result) true (content_of contents.old) (content_of contents.new) }
{
    match contents.take(number) {
        Some(held) => text_of(held),
        None => None,
    }
}

/// Takes a number out.
pub(crate) fn take_number(contents: &mut Contents, number: u32) -> Option<i32>
    ensures { Takes Singular kind.Int32 number (of_number result) true (content_of contents.old) (content_of contents.new) }
{
    match contents.take(number) {
        Some(held) => number_of(held),
        None => None,
    }
}

/// Takes a truth value out.
pub(crate) fn take_truth(contents: &mut Contents, number: u32) -> Option<bool>
    ensures { Takes Singular kind.Bool number (of_truth result) true (content_of contents.old) (content_of contents.new) }
{
    match contents.take(number) {
        Some(held) => truth_of(held),
        None => None,
    }
}

/// Takes a record out.
pub(crate) fn take_record<R: FromContents>(
    contents: &mut Contents,
    number: u32,
    alloc: Global,
) -> Result<Option<R>, NoMemory>
    ensures { IfOk result (λ found.
        Takes Singular (kind.Message R.TYPE_AT) number (of_record R.content found) (is_exact_if R.is_exact found)
        (content_of contents.old) (content_of contents.new)) }
{
    match contents.take(number) {
        Some(held) => match R::from_contents(message_of(held, alloc), alloc) {
            Ok(found) => Ok(Some(found)),
            Err(error) => Err(error),
        },
        None => Ok(None),
    }
}

/// Takes options out, which are of whatever type has no field.
pub(crate) fn take_options(contents: &mut Contents, number: u32, alloc: Global) -> Option<Options>
    ensures { (type_at : ℕ) → fields_of descriptor_shape type_at ≡ []
        → Takes Singular (kind.Message type_at) number (of_options result) (is_exact_if is_exact_options result)
        (content_of contents.old) (content_of contents.new) }
{
    match contents.take(number) {
        Some(held) => Some(options_of(message_of(held, alloc))),
        None => None,
    }
}

/// Takes a list out.
pub(crate) fn take_values(contents: &mut Contents, number: u32, alloc: Global) -> List<Held>
    ensures { (k : Kind) → TakesList k number (map val_of result) (content_of contents.old) (content_of contents.new) }
{
    match contents.take(number) {
        Some(held) => values_of(held, alloc),
        None => List::new(alloc),
    }
}

/// Takes a list of texts out.
pub(crate) fn take_texts(
    contents: &mut Contents,
    number: u32,
    alloc: Global,
) -> Result<Texts, NoMemory>
    ensures { IfOk result (λ texts.
        Takes Repeated kind.String number (of_texts texts) true (content_of contents.old) (content_of contents.new)) }
{
    text_list(take_values(contents, number, alloc), alloc)
}

/// Takes a list of numbers out.
pub(crate) fn take_numbers(
    contents: &mut Contents,
    number: u32,
    alloc: Global,
) -> Result<List<i32>, NoMemory>
    ensures { IfOk result (λ numbers.
        Takes Repeated kind.Int32 number (of_numbers numbers) true (content_of contents.old) (content_of contents.new)) }
{
    number_list(take_values(contents, number, alloc), alloc)
}

/// Takes a list of records out.
pub(crate) fn take_records<R: FromContents>(
    contents: &mut Contents,
    number: u32,
    alloc: Global,
) -> Result<List<R>, NoMemory>
    ensures { IfOk result (λ records.
        Takes Repeated (kind.Message R.TYPE_AT) number (of_records R.content records) (are_exact R.is_exact records)
        (content_of contents.old) (content_of contents.new)) }
{
    record_list(take_values(contents, number, alloc), alloc)
}

/// The records that no field reads.
pub(crate) fn kept_records(contents: Contents) -> Recs
    ensures { result ≡ kept (content_of contents) }
{
    contents.kept
}
