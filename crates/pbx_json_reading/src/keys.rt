// Keys of objects as keys of maps.
ghost use Rattle.std.specs.Prelude.{◌≡◌, ◌⊎◌, Ok, Err, pos, negsuc, IfOk, IfErr};
ghost use Rattle.pbx_content.specs.Content.{text_key as text_key_of};
ghost use Rattle.pbx_content_codec.specs.View.{key_of as key_of_key};
ghost use Rattle.pbx_json_meaning.specs.Scalars.{key_read};
ghost use Rattle.pbx_json_meaning.specs.declared.kind.JsonKind.TheVariants.{NoMemory as OutOfMemory};
ghost use Rattle.pbx_json_reading.specs.Scalars.{truth_key_answer, number_key_answer};

use crate::integers::{signed_text, unsigned_text};
use pbx_content::Kind;
use pbx_content_codec::MapKey;
use pbx_json_meaning::JsonKind;
use pbx_wire::Text;
use std::alloc::Global;

/// The key of a bool map.
fn truth_key(text: &str) -> Result<MapKey, JsonKind>
    ensures ok { IfOk result (λ k. truth_key_answer text.now ≡ Ok (key_of_key k)) }
    ensures err { IfErr result (λ e. truth_key_answer text.now ≡ Err e) }
{
    match text {
        "true" => Ok(MapKey::Bool(true)),
        "false" => Ok(MapKey::Bool(false)),
        _ => Err(JsonKind::WrongKind),
    }
}

/// The key of a map with texts as keys.
fn text_key(alloc: Global, text: &str) -> Result<MapKey, JsonKind>
    ensures ok { IfOk result (λ k. text_key_of text.now ≡ key_of_key k) }
    ensures err { IfErr result (λ e. e ≡ OutOfMemory) }
{
    match Text::from_str(alloc, text) {
        Ok(text) => Ok(MapKey::String(text)),
        Err(_) => Err(JsonKind::NoMemory),
    }
}

/// The key of a map with integers of 32 bits that may be below 0.
fn i32_key(text: &str) -> Result<MapKey, JsonKind>
    ensures ok { IfOk result (λ k. number_key_answer (negsuc 2147483647) (pos 2147483647) text.now ≡ Ok (key_of_key k)) }
    ensures err { IfErr result (λ e. number_key_answer (negsuc 2147483647) (pos 2147483647) text.now ≡ Err e) }
{
    match signed_text(text, i64::from(i32::MIN), i64::from(i32::MAX)) {
        Ok(number) => Ok(MapKey::I32(number as i32)),
        Err(kind) => Err(kind),
    }
}

/// The key of a map with integers of 64 bits that may be below 0.
fn i64_key(text: &str) -> Result<MapKey, JsonKind>
    ensures ok { IfOk result (λ k. number_key_answer (negsuc 9223372036854775807) (pos 9223372036854775807) text.now ≡ Ok (key_of_key k)) }
    ensures err { IfErr result (λ e. number_key_answer (negsuc 9223372036854775807) (pos 9223372036854775807) text.now ≡ Err e) }
{
    match signed_text(text, i64::MIN, i64::MAX) {
        Ok(number) => Ok(MapKey::I64(number)),
        Err(kind) => Err(kind),
    }
}

/// The key of a map with integers of 32 bits from 0 on.
fn u32_key(text: &str) -> Result<MapKey, JsonKind>
    ensures ok { IfOk result (λ k. number_key_answer (pos 0) (pos 4294967295) text.now ≡ Ok (key_of_key k)) }
    ensures err { IfErr result (λ e. number_key_answer (pos 0) (pos 4294967295) text.now ≡ Err e) }
{
    match unsigned_text(text, u64::from(u32::MAX)) {
        Ok(number) => Ok(MapKey::U32(number as u32)),
        Err(kind) => Err(kind),
    }
}

/// The key of a map with integers of 64 bits from 0 on.
fn u64_key(text: &str) -> Result<MapKey, JsonKind>
    ensures ok { IfOk result (λ k. number_key_answer (pos 0) (pos 18446744073709551615) text.now ≡ Ok (key_of_key k)) }
    ensures err { IfErr result (λ e. number_key_answer (pos 0) (pos 18446744073709551615) text.now ≡ Err e) }
{
    match unsigned_text(text, u64::MAX) {
        Ok(number) => Ok(MapKey::U64(number)),
        Err(kind) => Err(kind),
    }
}

/// What a key of an object is as the key of a map.
pub(crate) fn read_key(alloc: Global, kind: Kind, text: &str) -> Result<MapKey, JsonKind>
    ensures ok { IfOk result (λ k. key_read kind text.now ≡ Ok (key_of_key k)) }
    ensures err { IfErr result (λ e. (e ≡ OutOfMemory) ⊎ (key_read kind text.now ≡ Err e)) }
{
    match kind {
        Kind::Int32 | Kind::Sint32 | Kind::Sfixed32 => i32_key(text),
        Kind::Int64 | Kind::Sint64 | Kind::Sfixed64 => i64_key(text),
        Kind::Uint32 | Kind::Fixed32 => u32_key(text),
        Kind::Uint64 | Kind::Fixed64 => u64_key(text),
        Kind::Bool => truth_key(text),
        _ => text_key(alloc, text),
    }
}
