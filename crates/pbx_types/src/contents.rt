ghost use Rattle.std.specs.Prelude.{◌≡◌, ℕ, pos, Some, true, false, filter, map, option_map, IfOk, OnOk};
ghost use Rattle.std.specs.Ordering.{int_eq};
ghost use Rattle.pbx_wire.specs.Text.{are_fit};
ghost use Rattle.pbx_content.specs.declared.shape.Kind.{Kind};
ghost use Rattle.pbx_content.specs.declared.shape.Kind.TheVariants as kind;
ghost use Rattle.pbx_content.specs.Content.{Content, content, no_fields, number as number_val, text as text_val, octets as octets_val};
ghost use Rattle.pbx_content.specs.Content.{many, vals_of, keyed, pairs_of};
ghost use Rattle.pbx_content.specs.Sound.{AreElements, ArePairs};
ghost use Rattle.pbx_content_codec.specs.View.{content_of, val_of, pair_of};
ghost use Rattle.pbx_content.specs.declared.shape.Cardinality.TheVariants.{Singular, Repeated, Map};
ghost use Rattle.pbx_desc_shapes.specs.TypesShape.{types_shape};
ghost use Rattle.pbx_types.specs.Building.{Puts, Holds};
ghost use Rattle.pbx_wire.specs.Number.{is_writable_beside};

use bytes::Bytes;
use pbx_content_codec::{Contents, Held, Pair};
use pbx_content_map::NumberMap;
use pbx_wire::{List, NoMemory, Recs, Text, Texts, writable_beside};
use std::alloc::Global;

/// A record that has a content as a message of one of the well-known types.
pub(crate) trait HasContents {
    /// The place of the type.
    ghost TYPE_AT: { ℕ };

    /// What the record holds.
    ghost content: { Self → Content };

    const TYPE_AT: usize;

    /// The content as a tree. The only error is want of memory.
    fn to_contents(&self, alloc: Global) -> Result<Contents, NoMemory>
        ensures { IfOk result (Holds TYPE_AT (content self.now)) };
}

/// No fields, with those of the unknown records that may be written and have no known number.
pub(crate) fn kept_contents(
    unknown: &Recs,
    known: &[u32],
    alloc: Global,
) -> Result<Contents, NoMemory>
    ensures content { IfOk result (λ contents.
        content_of contents ≡ content no_fields (filter (is_writable_beside known.now) unknown.now)) }
    ensures fit { OnOk result (are_fit (filter (is_writable_beside known.now) unknown.now) ≡ true) }
{
    let kept = writable_beside(alloc, unknown, known)?;
    Ok(Contents {
        fields: NumberMap::new(alloc),
        kept,
    })
}

/// Puts a text in, unless it is absent or empty.
pub(crate) fn put_text(
    contents: &mut Contents,
    number: u32,
    text: &Option<Text>,
    alloc: Global,
) -> Result<(), NoMemory>
    ensures { OnOk result
        (Puts Singular false kind.String number (option_map text_val text.now) (content_of contents.old) (content_of contents.new)) }
{
    match text {
        Some(text) => put_some_text(contents, number, text, alloc),
        None => Ok(()),
    }
}

fn put_some_text(
    contents: &mut Contents,
    number: u32,
    text: &Text,
    alloc: Global,
) -> Result<(), NoMemory>
    ensures { OnOk result
        (Puts Singular false kind.String number (Some (text_val text.now)) (content_of contents.old) (content_of contents.new)) }
{
    if text.as_str().is_empty() {
        return Ok(());
    }
    let copy = Text::from_str(alloc, text.as_str())?;
    contents.put(number, Held::Text(copy))
}

/// Puts bytes in, unless they are absent or none.
pub(crate) fn put_octets(
    contents: &mut Contents,
    number: u32,
    octets: &Option<Bytes>,
) -> Result<(), NoMemory>
    ensures { OnOk result
        (Puts Singular false kind.Bytes number (option_map octets_val octets.now) (content_of contents.old) (content_of contents.new)) }
{
    match octets {
        Some(octets) => put_some_octets(contents, number, octets),
        None => Ok(()),
    }
}

fn put_some_octets(contents: &mut Contents, number: u32, octets: &Bytes) -> Result<(), NoMemory>
    ensures { OnOk result
        (Puts Singular false kind.Bytes number (Some (octets_val octets.now)) (content_of contents.old) (content_of contents.new)) }
{
    if octets.is_empty() {
        return Ok(());
    }
    contents.put(number, Held::Bytes(octets.clone()?))
}

/// Puts a number in, unless it is absent or 0.
pub(crate) fn put_int64(
    contents: &mut Contents,
    number: u32,
    value: Option<i64>,
) -> Result<(), NoMemory>
    ensures { OnOk result
        (Puts Singular false kind.Int64 number (option_map number_val value) (content_of contents.old) (content_of contents.new)) }
{
    match value {
        Some(value) if !is_zero(value) => contents.put(number, Held::I64(value)),
        _ => Ok(()),
    }
}

/// Puts a number in, unless it is absent or 0.
pub(crate) fn put_int32(
    contents: &mut Contents,
    number: u32,
    value: Option<i32>,
) -> Result<(), NoMemory>
    ensures { OnOk result
        (Puts Singular false kind.Int32 number (option_map number_val value) (content_of contents.old) (content_of contents.new)) }
{
    match value {
        Some(value) if !is_zero(i64::from(value)) => contents.put(number, Held::I32(value)),
        _ => Ok(()),
    }
}

fn is_zero(value: i64) -> bool
    ensures { result ≡ int_eq value (pos 0) }
{
    value == 0
}

/// Puts a list in, unless it is empty.
pub(crate) fn put_list(
    contents: &mut Contents,
    number: u32,
    values: List<Held>,
) -> Result<(), NoMemory>
    ensures { OnOk result ((k : Kind) → AreElements types_shape k (vals_of (map val_of values))
        → Puts Repeated false k number (Some (many (vals_of (map val_of values)))) (content_of contents.old) (content_of contents.new)) }
{
    if values.is_empty() {
        return Ok(());
    }
    contents.put(number, Held::Many(values))
}

/// Puts the pairs of a map in, unless there are none.
pub(crate) fn put_pairs(
    contents: &mut Contents,
    number: u32,
    pairs: List<Pair>,
) -> Result<(), NoMemory>
    ensures { OnOk result ((key k : Kind) → ArePairs types_shape key k (pairs_of (map pair_of pairs))
        → Puts (Map key) false k number (Some (keyed (pairs_of (map pair_of pairs)))) (content_of contents.old) (content_of contents.new)) }
{
    if pairs.is_empty() {
        return Ok(());
    }
    contents.put(number, Held::Pairs(pairs))
}

/// The texts as values.
pub(crate) fn text_values(texts: &Texts, alloc: Global) -> Result<List<Held>, NoMemory>
    ensures values { IfOk result (λ values. map val_of values ≡ map text_val texts.now) }
    ensures sound { OnOk result (AreElements types_shape kind.String (vals_of (map text_val texts.now))) }
{
    let mut values = List::with_capacity(alloc, texts.len())?;
    for text in texts.as_slice() {
        let copy = Text::from_str(alloc, text.as_str())?;
        values.add(Held::Text(copy))?;
    }
    Ok(values)
}
