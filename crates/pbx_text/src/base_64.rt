ghost use Rattle.std.specs.Prelude.{◌≡◌, ◌==◌, if◌then◌else◌, ◌∷◌, [], ◌⊎◌, ◌<◌, ◌≤◌, length, Ok, Err, Some, None, IfOk, IfErr, IfSome};
ghost use Rattle.pbx_text.specs.Base64.{base64_read, base64_text, bytes_in, symbols_of, value_in, without_padding};
ghost use Rattle.pbx_text.specs.declared.fault.TextFault.TheVariants.{Form, NoMemory as OutOfMemory};

use crate::fault::TextFault;
use base64::engine::general_purpose::STANDARD;
use pbx_wire::{Blob, NoMemory, Text};
use std::alloc::Global;

/// The two alphabets.
#[derive(Clone, Copy)]
pub(crate) enum Alphabet {
    Standard,
    /// For URLs and file names.
    Url,
}

/// The value of a symbol that is no letter and no digit, where these two have the values 62 and 63.
fn mark_value(symbol: u8, first: u8, second: u8) -> Option<u8>
    ensures { result ≡ (if symbol == first then Some 62 else if symbol == second then Some 63 else None) }
{
    if symbol == first {
        return Some(62);
    }
    if symbol == second { Some(63) } else { None }
}

/// The value of a symbol.
fn value(alphabet: Alphabet, symbol: u8) -> Option<u8>
    ensures is { result ≡ value_in (symbols_of alphabet) symbol }
    ensures small { IfSome result (λ v. v < 64) }
{
    if symbol.is_ascii_uppercase() {
        return Some(symbol - b'A');
    }
    if symbol.is_ascii_lowercase() {
        return Some(symbol - b'a' + 26);
    }
    if symbol.is_ascii_digit() {
        return Some(symbol - b'0' + 52);
    }
    match alphabet {
        Alphabet::Standard => mark_value(symbol, b'+', b'/'),
        Alphabet::Url => mark_value(symbol, b'-', b'_'),
    }
}

/// The three bytes of four symbols.
fn three_bytes(alphabet: Alphabet, a: u8, b: u8, c: u8, d: u8) -> Option<[u8; 3]>
    ensures { result ≡ bytes_in (symbols_of alphabet) (a ∷ b ∷ c ∷ d ∷ []) }
{
    let a = value(alphabet, a)?;
    let b = value(alphabet, b)?;
    let c = value(alphabet, c)?;
    let d = value(alphabet, d)?;
    Some([a * 4 + b / 16, b % 16 * 16 + c / 4, c % 4 * 64 + d])
}

/// The two bytes of three symbols at the end.
fn two_bytes(alphabet: Alphabet, a: u8, b: u8, c: u8) -> Option<[u8; 2]>
    ensures { result ≡ bytes_in (symbols_of alphabet) (a ∷ b ∷ c ∷ []) }
{
    let a = value(alphabet, a)?;
    let b = value(alphabet, b)?;
    let c = value(alphabet, c)?;
    Some([a * 4 + b / 16, b % 16 * 16 + c / 4])
}

/// The byte of two symbols at the end.
fn one_byte(alphabet: Alphabet, a: u8, b: u8) -> Option<[u8; 1]>
    ensures { result ≡ bytes_in (symbols_of alphabet) (a ∷ b ∷ []) }
{
    let a = value(alphabet, a)?;
    let b = value(alphabet, b)?;
    Some([a * 4 + b / 16])
}

/// The bytes of symbols of the alphabet.
fn decoded(alloc: Global, alphabet: Alphabet, symbols: &[u8]) -> Result<Blob, TextFault>
    ensures ok { IfOk result (λ bytes. bytes_in (symbols_of alphabet) symbols.now ≡ Some bytes) }
    ensures err { IfErr result (λ e. (e ≡ OutOfMemory) ⊎ ((e ≡ Form) × (bytes_in (symbols_of alphabet) symbols.now ≡ None))) }
{
    let mut bytes = Blob::new(alloc);
    let mut rest = symbols;
    'groups: loop {
        match rest {
            [a, b, c, d, after @ ..] => {
                let Some(group) = three_bytes(alphabet, *a, *b, *c, *d) else {
                    return Err(TextFault::Form);
                };
                bytes.append(&group)?;
                rest = after;
            }
            [a, b, c] => {
                let Some(group) = two_bytes(alphabet, *a, *b, *c) else {
                    return Err(TextFault::Form);
                };
                bytes.append(&group)?;
                return Ok(bytes);
            }
            [a, b] => {
                let Some(group) = one_byte(alphabet, *a, *b) else {
                    return Err(TextFault::Form);
                };
                bytes.append(&group)?;
                return Ok(bytes);
            }
            [_] => return Err(TextFault::Form),
            [] => return Ok(bytes),
        }
    }
}

/// The text without the `=` at its end.
#[tactic(auto, using(crate::proofs::Padding::padding_before, crate::proofs::Padding::padding_done))]
fn unpadded(text: &[u8]) -> &[u8]
    ensures is { result.now ≡ without_padding text.now }
    ensures within { length result.now ≤ length text.now }
{
    let mut end = text.len();
    while end > 0 && text[end - 1] == b'=' {
        end -= 1;
    }
    &text[..end]
}

/// The bytes of a base64 text in the standard alphabet or in that for URLs, with or without padding.
#[tactic(auto, unfolding(crate::specs::Base64::base64_of))]
pub fn read_base64(alloc: Global, text: &str) -> Result<Blob, TextFault>
    ensures ok { IfOk result (λ bytes. base64_read text.now ≡ Ok bytes) }
    ensures err { IfErr result (λ e. (e ≡ OutOfMemory) ⊎ (base64_read text.now ≡ Err e)) }
{
    let symbols = unpadded(text.as_bytes());
    if text.len() - symbols.len() > (4 - symbols.len() % 4) % 4 {
        return Err(TextFault::Form);
    }
    match decoded(alloc, Alphabet::Standard, symbols) {
        Err(TextFault::Form) => decoded(alloc, Alphabet::Url, symbols),
        result => result,
    }
}

/// The bytes in the standard alphabet, with padding.
#[tactic(auto, unfolding(crate::specs::Base64::base64_text))]
pub fn write_base64(alloc: Global, bytes: &[u8]) -> Result<Text, NoMemory>
    ensures { IfOk result (λ text. text ≡ base64_text bytes.now) }
{
    let text = STANDARD.encode(alloc, bytes)?;
    Text::from_str(alloc, text.as_str())
}
