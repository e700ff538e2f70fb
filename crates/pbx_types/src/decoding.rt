ghost use Rattle.std.specs.Prelude.{◌≡◌, Some, true, map, option_map, IfOk};
ghost use Rattle.pbx_content.specs.declared.shape.Kind.TheVariants as kind;
ghost use Rattle.pbx_content.specs.Content.{message, pairs_of, get, fields as fields_in};
ghost use Rattle.pbx_content.specs.Sound.{IsSound, ArePairs, IsKeyOf};
ghost use Rattle.pbx_content_codec.specs.View.{content_of, val_of, pair_of};
ghost use Rattle.pbx_desc_shapes.specs.TypesShape.{types_shape};
ghost use Rattle.pbx_types.specs.Sound.{AreOf, MayBe};
ghost use Rattle.pbx_types.specs.Taking.{Takes};
ghost use Rattle.pbx_types.specs.Content.{struct_content, list_content, value_content};
ghost use Rattle.pbx_types.specs.Layers.{exact_under, value_message, value_pair, held_pair};
ghost use Rattle.pbx_desc.specs.Decoding.{Whole};
ghost use Rattle.pbx_desc.specs.Exact.{are_exact, is_exact_if};
ghost use Rattle.pbx_types.specs.Exact.{is_exact_struct, is_exact_value, is_exact_list};

use crate::tree::{ListValue, Struct, Value};
use crate::{
    FromContents, TextMap, kept_records, message_of, record_from_bytes, take_int32, take_pairs,
    take_text, take_truth, take_values,
};
use pbx_content_codec::{Contents, Held, MapKey, Pair};
use pbx_desc::DecodeMessage;
use pbx_desc_shapes::well_known_place as place;
use pbx_wire::{DecodeError, List, NoMemory, Text};
use std::alloc::Global;

/// How many values may stand in one another: each takes the stack of four calls.
const DEEPEST: u32 = 1024;

/// Values that nest deeper than 1,024 are `NoMemory`: the stack is memory too.
impl FromContents for Struct {
    ghost TYPE_AT = { 4 };

    ghost content = { struct_content };

    ghost is_exact = { is_exact_struct };

    const TYPE_AT: usize = place::STRUCT;

    fn from_contents(contents: Contents, alloc: Global) -> Result<Struct, NoMemory> {
        struct_from(contents, alloc, DEEPEST)
    }
}

impl DecodeMessage for Struct {
    ghost SHAPE = { types_shape };

    ghost TYPE_AT = { 4 };

    ghost DECODING = { Whole };

    ghost is_exact = { is_exact_struct };

    fn decode(alloc: Global, bytes: &[u8]) -> Result<Struct, DecodeError> {
        record_from_bytes(alloc, bytes)
    }
}

/// As for a `Struct`.
impl FromContents for Value {
    ghost TYPE_AT = { 6 };

    ghost content = { value_content };

    ghost is_exact = { is_exact_value };

    const TYPE_AT: usize = place::VALUE;

    fn from_contents(contents: Contents, alloc: Global) -> Result<Value, NoMemory> {
        value_from(contents, alloc, DEEPEST)
    }
}

impl DecodeMessage for Value {
    ghost SHAPE = { types_shape };

    ghost TYPE_AT = { 6 };

    ghost DECODING = { Whole };

    ghost is_exact = { is_exact_value };

    fn decode(alloc: Global, bytes: &[u8]) -> Result<Value, DecodeError> {
        record_from_bytes(alloc, bytes)
    }
}

/// As for a `Struct`.
impl FromContents for ListValue {
    ghost TYPE_AT = { 7 };

    ghost content = { list_content };

    ghost is_exact = { is_exact_list };

    const TYPE_AT: usize = place::LIST_VALUE;

    fn from_contents(contents: Contents, alloc: Global) -> Result<ListValue, NoMemory> {
        list_from(contents, alloc, DEEPEST)
    }
}

impl DecodeMessage for ListValue {
    ghost SHAPE = { types_shape };

    ghost TYPE_AT = { 7 };

    ghost DECODING = { Whole };

    ghost is_exact = { is_exact_list };

    fn decode(alloc: Global, bytes: &[u8]) -> Result<ListValue, DecodeError> {
        record_from_bytes(alloc, bytes)
    }
}

/// The value of the content, where so many more may stand in one another.
#[cycle(tree)]
fn value_from(mut contents: Contents, alloc: Global, room: u32) -> Result<Value, NoMemory>
    ensures { IfOk result (λ value. IsSound types_shape 6 (content_of contents)
        → (value_content value ≡ content_of contents) × (is_exact_value value ≡ true)) }
{
    if room == 0 {
        return Err(NoMemory);
    }
    let struct_value = take_struct(&mut contents, alloc, room - 1)?;
    let list_value = take_list(&mut contents, alloc, room - 1)?;
    let null_value = take_int32(&mut contents, 1);
    let string_value = take_text(&mut contents, 3);
    let bool_value = take_truth(&mut contents, 4);
    Ok(Value {
        null_value,
        string_value,
        bool_value,
        struct_value,
        list_value,
        unknown: kept_records(contents),
    })
}

/// Takes an object out.
#[cycle(tree)]
fn take_struct(
    contents: &mut Contents,
    alloc: Global,
    room: u32,
) -> Result<Option<Struct>, NoMemory>
    ensures { IfOk result (λ found.
        Takes (kind.Message 4) 5 (option_map message (option_map struct_content found)) (content_of contents.old) (content_of contents.new)
        × (MayBe (kind.Message 4) (get 5 (fields_in (content_of contents.old))) → is_exact_if is_exact_struct found ≡ true)) }
{
    match contents.take(5) {
        Some(held) => match struct_from(message_of(held, alloc), alloc, room) {
            Ok(found) => Ok(Some(found)),
            Err(error) => Err(error),
        },
        None => Ok(None),
    }
}

/// Takes an array out.
#[cycle(tree)]
fn take_list(
    contents: &mut Contents,
    alloc: Global,
    room: u32,
) -> Result<Option<ListValue>, NoMemory>
    ensures { IfOk result (λ found.
        Takes (kind.Message 7) 6 (option_map message (option_map list_content found)) (content_of contents.old) (content_of contents.new)
        × (MayBe (kind.Message 7) (get 6 (fields_in (content_of contents.old))) → is_exact_if is_exact_list found ≡ true)) }
{
    match contents.take(6) {
        Some(held) => match list_from(message_of(held, alloc), alloc, room) {
            Ok(found) => Ok(Some(found)),
            Err(error) => Err(error),
        },
        None => Ok(None),
    }
}

#[cycle(tree)]
fn struct_from(mut contents: Contents, alloc: Global, room: u32) -> Result<Struct, NoMemory>
    ensures { IfOk result (λ value. IsSound types_shape 4 (content_of contents)
        → (struct_content value ≡ content_of contents) × (is_exact_struct value ≡ true)) }
{
    let pairs = take_pairs(&mut contents, 1, alloc);
    let fields = fields_from(pairs, alloc, room)?;
    Ok(Struct {
        fields,
        unknown: kept_records(contents),
    })
}

/// The values that the pairs are, under their names.
#[cycle(tree)]
fn fields_from(pairs: List<Pair>, alloc: Global, room: u32) -> Result<TextMap<Value>, NoMemory>
    ensures { IfOk result (λ fields. ArePairs types_shape kind.String (kind.Message 6) (pairs_of (map pair_of pairs))
        → (map value_pair fields ≡ map pair_of pairs) × (are_exact exact_under fields ≡ true)) }
{
    let mut fields = TextMap::new(alloc);
    for pair in pairs.into_vec() {
        if let Some((name, held)) = under_name(pair) {
            fields.add(name, value_from(message_of(held, alloc), alloc, room)?)?;
        }
    }
    Ok(fields)
}

#[cycle(tree)]
fn list_from(mut contents: Contents, alloc: Global, room: u32) -> Result<ListValue, NoMemory>
    ensures { IfOk result (λ value. IsSound types_shape 7 (content_of contents)
        → (list_content value ≡ content_of contents) × (is_exact_list value ≡ true)) }
{
    let helds = take_values(&mut contents, 1, alloc);
    let values = values_from(helds, alloc, room)?;
    Ok(ListValue {
        values,
        unknown: kept_records(contents),
    })
}

/// The values that the elements are.
#[cycle(tree)]
fn values_from(helds: List<Held>, alloc: Global, room: u32) -> Result<List<Value>, NoMemory>
    ensures { IfOk result (λ values. AreOf (kind.Message 6) (map val_of helds)
        → (map value_message values ≡ map val_of helds) × (are_exact is_exact_value values ≡ true)) }
{
    let mut values = List::with_capacity(alloc, helds.len())?;
    for held in helds.into_vec() {
        let value = value_from(message_of(held, alloc), alloc, room)?;
        values.add(value)?;
    }
    Ok(values)
}

/// The value of a pair under the text that its key is.
fn under_name(pair: Pair) -> Option<(Text, Held)>
    ensures { IsKeyOf kind.String (pair_of pair).0 → option_map held_pair result ≡ Some (pair_of pair) }
{
    let Pair { key, held } = pair;
    match key {
        MapKey::String(name) => Some((name, held)),
        _ => {
            drop(held);
            None
        }
    }
}
