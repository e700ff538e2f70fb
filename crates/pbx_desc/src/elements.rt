ghost use Rattle.std.specs.Prelude.{◌≡◌, ℕ, true, Some, map, option_map, IfOk};
ghost use Rattle.pbx_content.specs.declared.shape.Cardinality.TheVariants.{Repeated};
ghost use Rattle.pbx_content.specs.declared.shape.Kind.{Kind};
ghost use Rattle.pbx_content.specs.declared.shape.Kind.TheVariants as kind;
ghost use Rattle.pbx_content.specs.Content.{number, truth, text, message};
ghost use Rattle.pbx_content_codec.specs.View.{content_of, val_of};
ghost use Rattle.pbx_desc_shapes.specs.DescriptorShape.{descriptor_shape};
ghost use Rattle.pbx_desc_encoding.specs.Content.{listed};
ghost use Rattle.pbx_desc_encoding.specs.Sound.{IsOf, AreOf, MayBe};
ghost use Rattle.pbx_desc.specs.Exact.{are_exact};

use crate::taking::FromContents;
use pbx_content_codec::{Contents, Held};
use pbx_wire::{List, NoMemory, Text, Texts};
use std::alloc::Global;

/// The text that a value is.
pub(crate) fn text_of(held: Held) -> Option<Text>
    ensures { IsOf descriptor_shape kind.String (val_of held) → option_map text result ≡ Some (val_of held) }
{
    match held {
        Held::Text(text) => Some(text),
        _ => None,
    }
}

/// The number that a value is, of whatever width, where it fits.
pub(crate) fn number_of(held: Held) -> Option<i32>
    ensures { IsOf descriptor_shape kind.Int32 (val_of held) → option_map number result ≡ Some (val_of held) }
{
    match held {
        Held::I32(value) => Some(value),
        Held::I64(value) => i32::try_from(value).ok(),
        Held::U32(value) => i32::try_from(value).ok(),
        Held::U64(value) => i32::try_from(value).ok(),
        _ => None,
    }
}

/// The truth value that a value is.
pub(crate) fn truth_of(held: Held) -> Option<bool>
    ensures { IsOf descriptor_shape kind.Bool (val_of held) → option_map truth result ≡ Some (val_of held) }
{
    match held {
        Held::Bool(value) => Some(value),
        _ => None,
    }
}

/// The content of the message that a value is, and the empty one where it is none.
pub(crate) fn message_of(held: Held, alloc: Global) -> Contents
    ensures { (type_at : ℕ) → IsOf descriptor_shape (kind.Message type_at) (val_of held) → val_of held ≡ message (content_of result) }
{
    match held {
        Held::Message(contents) => contents,
        _ => Contents::new(alloc),
    }
}

/// The values that a list holds.
pub(crate) fn values_of(held: Held, alloc: Global) -> List<Held>
    ensures { (k : Kind) → MayBe descriptor_shape Repeated k (Some (val_of held))
        → (listed (map val_of result) ≡ Some (val_of held)) × AreOf descriptor_shape k (map val_of result) }
{
    match held {
        Held::Many(values) => values,
        _ => List::new(alloc),
    }
}

/// The texts that the values are.
pub(crate) fn text_list(values: List<Held>, alloc: Global) -> Result<Texts, NoMemory>
    ensures { IfOk result (λ texts. AreOf descriptor_shape kind.String (map val_of values) → map text texts ≡ map val_of values) }
{
    let mut texts = List::with_capacity(alloc, values.len())?;
    for value in values.into_vec() {
        if let Some(text) = text_of(value) {
            texts.add(text)?;
        }
    }
    Ok(texts)
}

/// The numbers that the values are.
pub(crate) fn number_list(values: List<Held>, alloc: Global) -> Result<List<i32>, NoMemory>
    ensures { IfOk result (λ numbers. AreOf descriptor_shape kind.Int32 (map val_of values) → map number numbers ≡ map val_of values) }
{
    let mut numbers = List::with_capacity(alloc, values.len())?;
    for value in values.into_vec() {
        if let Some(number) = number_of(value) {
            numbers.add(number)?;
        }
    }
    Ok(numbers)
}

/// The records that the values are.
pub(crate) fn record_list<R: FromContents>(
    values: List<Held>,
    alloc: Global,
) -> Result<List<R>, NoMemory>
    ensures { IfOk result (λ records. AreOf descriptor_shape (kind.Message R.TYPE_AT) (map val_of values)
        → (map (λ r. message (R.content r)) records ≡ map val_of values) × (are_exact R.is_exact records ≡ true)) }
{
    let mut records = List::with_capacity(alloc, values.len())?;
    for value in values.into_vec() {
        let record = R::from_contents(message_of(value, alloc), alloc)?;
        records.add(record)?;
    }
    Ok(records)
}
