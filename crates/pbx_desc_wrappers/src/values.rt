ghost use Rattle.std.specs.Prelude.{◌≡◌, [], pos, false, option_map, string_bytes, IfOk};
ghost use Rattle.pbx_content.specs.declared.shape.Kind.TheVariants as kind;
ghost use Rattle.pbx_content.specs.Content.{number, truth, text as text_val, octets};
ghost use Rattle.pbx_content.specs.Meaning.{or_else};
ghost use Rattle.pbx_content_codec.specs.View.{val_of};
ghost use Rattle.pbx_desc_wrappers.specs.Wrapped.{MayBeOf};

use bytes::Bytes;
use pbx_content_codec::Held;
use pbx_wire::NoMemory;
use std::alloc::Global;

/// The truth value that a field has, and false where it is absent.
pub fn truth_in(held: Option<Held>) -> bool
    ensures { MayBeOf kind.Bool (option_map val_of held) → or_else (option_map val_of held) (truth false) ≡ truth result }
{
    match held {
        Some(Held::Bool(value)) => value,
        _ => false,
    }
}

/// The text that a field has, and the empty one where it is absent.
pub fn string_in(held: Option<Held>, alloc: Global) -> Result<String, NoMemory>
    ensures { IfOk result (λ text. MayBeOf kind.String (option_map val_of held)
        → or_else (option_map val_of held) (text_val []) ≡ text_val (string_bytes text)) }
{
    match held {
        Some(Held::Text(text)) => Ok(String::from_str(alloc, text.as_str())?),
        _ => Ok(String::new(alloc)),
    }
}

/// The bytes that a field has, and none where it is absent.
pub fn octets_in(held: Option<Held>) -> Bytes
    ensures { MayBeOf kind.Bytes (option_map val_of held) → or_else (option_map val_of held) (octets []) ≡ octets result }
{
    match held {
        Some(Held::Bytes(value)) => value,
        _ => Bytes::new(),
    }
}

/// The number that a field has, of whatever width, and 0 where it is absent.
pub fn i32_in(held: Option<Held>) -> i32
    ensures { MayBeOf kind.Int32 (option_map val_of held) → or_else (option_map val_of held) (number (pos 0)) ≡ number result }
{
    match held {
        Some(Held::I32(value)) => value,
        Some(Held::I64(value)) => i32::try_from(value).unwrap_or(0),
        Some(Held::U32(value)) => i32::try_from(value).unwrap_or(0),
        Some(Held::U64(value)) => i32::try_from(value).unwrap_or(0),
        _ => 0,
    }
}

/// The number that a field has, of whatever width, and 0 where it is absent.
pub fn i64_in(held: Option<Held>) -> i64
    ensures { MayBeOf kind.Int64 (option_map val_of held) → or_else (option_map val_of held) (number (pos 0)) ≡ number result }
{
    match held {
        Some(Held::I32(value)) => i64::try_from(value).unwrap_or(0),
        Some(Held::I64(value)) => value,
        Some(Held::U32(value)) => i64::try_from(value).unwrap_or(0),
        Some(Held::U64(value)) => i64::try_from(value).unwrap_or(0),
        _ => 0,
    }
}

/// The number that a field has, of whatever width, and 0 where it is absent.
pub fn u32_in(held: Option<Held>) -> u32
    ensures { MayBeOf kind.Uint32 (option_map val_of held) → or_else (option_map val_of held) (number (pos 0)) ≡ number (pos result) }
{
    match held {
        Some(Held::I32(value)) => u32::try_from(value).unwrap_or(0),
        Some(Held::I64(value)) => u32::try_from(value).unwrap_or(0),
        Some(Held::U32(value)) => value,
        Some(Held::U64(value)) => u32::try_from(value).unwrap_or(0),
        _ => 0,
    }
}

/// The number that a field has, of whatever width, and 0 where it is absent.
pub fn u64_in(held: Option<Held>) -> u64
    ensures { MayBeOf kind.Uint64 (option_map val_of held) → or_else (option_map val_of held) (number (pos 0)) ≡ number (pos result) }
{
    match held {
        Some(Held::I32(value)) => u64::try_from(value).unwrap_or(0),
        Some(Held::I64(value)) => u64::try_from(value).unwrap_or(0),
        Some(Held::U32(value)) => u64::try_from(value).unwrap_or(0),
        Some(Held::U64(value)) => value,
        _ => 0,
    }
}
