ghost use Rattle.std.specs.Prelude.{◌≡◌, ℕ, Bool, true, map, option_map, IfOk};
ghost use Rattle.pbx_content.specs.declared.shape.Kind.{Kind};
ghost use Rattle.pbx_content.specs.declared.shape.Kind.TheVariants as kind;
ghost use Rattle.pbx_content.specs.Content.{Content, kept, number as number_val, truth, text, octets};
ghost use Rattle.pbx_content.specs.Sound.{IsSound};
ghost use Rattle.pbx_content_codec.specs.View.{content_of, val_of, pair_of};
ghost use Rattle.pbx_desc_shapes.specs.TypesShape.{types_shape};
ghost use Rattle.pbx_types.specs.Taking.{Takes, TakesList, TakesPairs};

use crate::elements::{int32_of, int64_of, octets_of, pairs_in, text_of, truth_of, values_of};
use bytes::Bytes;
use pbx_content_codec::{Contents, Held, Pair};
use pbx_wire::{List, NoMemory, Recs, Text};
use std::alloc::Global;

/// A record that is made of a content of one of the well-known types.
pub(crate) trait FromContents: Drop + Sized {
    /// The place of the type.
    ghost TYPE_AT: { ℕ };

    /// What the record holds.
    ghost content: { Self → Content };

    /// Whether nothing stands in it beside that.
    ghost is_exact: { Self → Bool };

    const TYPE_AT: usize;

    /// The record of the content, where a message of the type may have it. The only error is want of memory.
    fn from_contents(contents: Contents, alloc: Global) -> Result<Self, NoMemory>
        ensures { IfOk result (λ value.
            IsSound types_shape TYPE_AT (content_of contents) → (content value ≡ content_of contents) × (is_exact value ≡ true)) };
}

/// Takes a text out.
pub(crate) fn take_text(contents: &mut Contents, number: u32) -> Option<Text>
    ensures { Takes kind.String number (option_map text result) (content_of contents.old) (content_of contents.new) }
{
    match contents.take(number) {
        Some(held) => text_of(held),
        None => None,
    }
}

/// Takes bytes out.
pub(crate) fn take_octets(contents: &mut Contents, number: u32) -> Option<Bytes>
    ensures { Takes kind.Bytes number (option_map octets result) (content_of contents.old) (content_of contents.new) }
{
    match contents.take(number) {
        Some(held) => octets_of(held),
        None => None,
    }
}

/// Takes a number out.
pub(crate) fn take_int32(contents: &mut Contents, number: u32) -> Option<i32>
    ensures { Takes kind.Int32 number (option_map number_val result) (content_of contents.old) (content_of contents.new) }
{
    match contents.take(number) {
        Some(held) => int32_of(held),
        None => None,
    }
}

/// Takes a number out.
pub(crate) fn take_int64(contents: &mut Contents, number: u32) -> Option<i64>
    ensures { Takes kind.Int64 number (option_map number_val result) (content_of contents.old) (content_of contents.new) }
{
    match contents.take(number) {
        Some(held) => int64_of(held),
        None => None,
    }
}

/// Takes a truth value out.
pub(crate) fn take_truth(contents: &mut Contents, number: u32) -> Option<bool>
    ensures { Takes kind.Bool number (option_map truth result) (content_of contents.old) (content_of contents.new) }
{
    match contents.take(number) {
        Some(held) => truth_of(held),
        None => None,
    }
}

/// Takes a list out.
pub(crate) fn take_values(contents: &mut Contents, number: u32, alloc: Global) -> List<Held>
    ensures { (k : Kind) → TakesList k number (map val_of result) (content_of contents.old) (content_of contents.new) }
{
    match contents.take(number) {
        Some(held) => values_of(held, alloc),
        None => List::new(alloc),
    }
}

/// Takes the pairs of a map out.
pub(crate) fn take_pairs(contents: &mut Contents, number: u32, alloc: Global) -> List<Pair>
    ensures { (key k : Kind) → TakesPairs key k number (map pair_of result) (content_of contents.old) (content_of contents.new) }
{
    match contents.take(number) {
        Some(held) => pairs_in(held, alloc),
        None => List::new(alloc),
    }
}

/// The records that no field reads.
pub(crate) fn kept_records(contents: Contents) -> Recs
    ensures { result ≡ kept (content_of contents) }
{
    contents.kept
}
