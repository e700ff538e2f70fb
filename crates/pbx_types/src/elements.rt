ghost use Rattle.std.specs.Prelude.{◌≡◌, ℕ, Some, false, map, option_map, IfOk};
ghost use Rattle.pbx_content.specs.declared.shape.Cardinality.TheVariants.{Repeated, Map};
ghost use Rattle.pbx_content.specs.declared.shape.Kind.{Kind};
ghost use Rattle.pbx_content.specs.declared.shape.Kind.TheVariants as kind;
ghost use Rattle.pbx_content.specs.Content.{number, truth, text, octets, message};
ghost use Rattle.pbx_content_codec.specs.View.{content_of, val_of, pair_of};
ghost use Rattle.pbx_types.specs.Sound.{IsOf, AreOf, some_field};
ghost use Rattle.pbx_types.specs.Taking.{IsAt, IsList, IsMap};

use bytes::Bytes;
use pbx_content_codec::{Contents, Held, Pair};
use pbx_wire::{List, NoMemory, Text, Texts};
use std::alloc::Global;

/// The text that a value is.
pub(crate) fn text_of(held: Held) -> Option<Text>
    ensures { IsOf kind.String (val_of held) → option_map text result ≡ Some (val_of held) }
{
    match held {
        Held::Text(text) => Some(text),
        _ => None,
    }
}

/// The bytes that a value is.
pub(crate) fn octets_of(held: Held) -> Option<Bytes>
    ensures { IsOf kind.Bytes (val_of held) → option_map octets result ≡ Some (val_of held) }
{
    match held {
        Held::Bytes(octets) => Some(octets),
        _ => None,
    }
}

/// The number that a value is, of whatever width, where it fits.
pub(crate) fn int32_of(held: Held) -> Option<i32>
    ensures { IsOf kind.Int32 (val_of held) → option_map number result ≡ Some (val_of held) }
{
    match held {
        Held::I32(value) => Some(value),
        Held::I64(value) => i32::try_from(value).ok(),
        Held::U32(value) => i32::try_from(value).ok(),
        Held::U64(value) => i32::try_from(value).ok(),
        _ => None,
    }
}

/// The number that a value is, of whatever width, where it fits.
pub(crate) fn int64_of(held: Held) -> Option<i64>
    ensures { IsOf kind.Int64 (val_of held) → option_map number result ≡ Some (val_of held) }
{
    match held {
        Held::I32(value) => Some(i64::from(value)),
        Held::I64(value) => Some(value),
        Held::U32(value) => Some(i64::from(value)),
        Held::U64(value) => i64::try_from(value).ok(),
        _ => None,
    }
}

/// The truth value that a value is.
pub(crate) fn truth_of(held: Held) -> Option<bool>
    ensures { IsOf kind.Bool (val_of held) → option_map truth result ≡ Some (val_of held) }
{
    match held {
        Held::Bool(value) => Some(value),
        _ => None,
    }
}

/// The content of the message that a value is, and the empty one where it is none.
pub(crate) fn message_of(held: Held, alloc: Global) -> Contents
    ensures { (type_at : ℕ) → IsOf (kind.Message type_at) (val_of held) → val_of held ≡ message (content_of result) }
{
    match held {
        Held::Message(contents) => contents,
        _ => Contents::new(alloc),
    }
}

/// The values that a list holds.
pub(crate) fn values_of(held: Held, alloc: Global) -> List<Held>
    ensures { (k : Kind) → IsAt (some_field Repeated false k) (Some (val_of held)) → IsList k (map val_of result) (Some (val_of held)) }
{
    match held {
        Held::Many(values) => values,
        _ => List::new(alloc),
    }
}

/// The pairs that a map holds.
pub(crate) fn pairs_in(held: Held, alloc: Global) -> List<Pair>
    ensures { (key k : Kind) → IsAt (some_field (Map key) false k) (Some (val_of held)) → IsMap key k (map pair_of result) (Some (val_of held)) }
{
    match held {
        Held::Pairs(pairs) => pairs,
        _ => List::new(alloc),
    }
}

/// The texts that the values are.
pub(crate) fn text_list(values: List<Held>, alloc: Global) -> Result<Texts, NoMemory>
    ensures { IfOk result (λ texts. AreOf kind.String (map val_of values) → map text texts ≡ map val_of values) }
{
    let mut texts = List::with_capacity(alloc, values.len())?;
    for value in values.into_vec() {
        if let Some(text) = text_of(value) {
            texts.add(text)?;
        }
    }
    Ok(texts)
}
