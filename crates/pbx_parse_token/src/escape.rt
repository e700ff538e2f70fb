//! The escapes of strings, and the bytes that strings stand for.

ghost use Rattle.std.specs.Prelude.{◌≡◌, ◌≤◌, ℕ, List, map, length, IfOk, IfSome, IsTrue, is_none, ◌↔◌};
ghost use Rattle.std.specs.Str.{IsUtf8};
ghost use Rattle.pbx_parse_token.specs.View.{IsCut};
ghost use Rattle.pbx_parse_token.specs.Escapes.{simple_value, number_at, escape_at, first_at, Character, value_of, characters_text, AreCharacters, unescaped};
ghost use Rattle.pbx_parse_token.specs.Scan.{is_bad, has_good_escapes};

use crate::digits::digits_value;
use crate::run::{Run, run_len};
use std::alloc::{AllocError, Global};

/// The byte that an escape stands for, and how many bytes it has after its backslash.
#[derive(Clone, Copy, Debug)]
pub struct Escape {
    pub value: u8,
    pub size: usize,
}

/// The byte that a backslash and this byte stand for, if they are an escape.
fn simple_value(b: u8) -> Option<u8>
    ensures { result ≡ simple_value b }
{
    match b {
        b'\\' | b'\'' | b'"' | b'?' => Some(b),
        b'n' => Some(b'\n'),
        b'r' => Some(b'\r'),
        b't' => Some(b'\t'),
        b'a' => Some(7),
        b'b' => Some(8),
        b'f' => Some(12),
        b'v' => Some(11),
        _ => None,
    }
}

/// The digits of a base at the front, at most so many, as an escape of a value that fits a byte.
fn number_at(base: u64, most: usize, bytes: &[u8]) -> Option<Escape>
    requires { base ≤ 16 }
    ensures is { result ≡ number_at base most bytes.now }
    ensures within { IfSome result (λ e. e.size ≤ length bytes.now) }
{
    let n = run_len(bytes.get(..most).unwrap_or(bytes), Run::Digits(base));
    match digits_value(base, 0, &bytes[..n]) {
        Some(value) if n > 0 && value <= 255 => Some(Escape {
            value: value as u8,
            size: n,
        }),
        _ => None,
    }
}

/// The escape of which these bytes follow the backslash.
#[tactic(auto, unfolding(crate::specs::Escapes::escape_at))]
fn escape_at(bytes: &[u8]) -> Option<Escape>
    ensures is { result ≡ escape_at bytes.now }
    ensures within { IfSome result (λ e. e.size ≤ length bytes.now) }
{
    match bytes {
        [] => None,
        [b'x', rest @ ..] => number_at(16, 2, rest).map(|digits| Escape {
            value: digits.value,
            size: digits.size + 1,
        }),
        [b'0'..=b'7', ..] => number_at(8, 3, bytes),
        [b, ..] => simple_value(*b).map(|value| Escape { value, size: 1 }),
    }
}

/// What a byte stands for, with the bytes after it that belong to it. A backslash that begins no escape stands
/// for itself.
pub fn first_at(b: u8, rest: &[u8]) -> Escape
    ensures is { result ≡ first_at b rest.now }
    ensures within { result.size ≤ length rest.now }
{
    let itself = Escape { value: b, size: 0 };
    if b == b'\\' {
        escape_at(rest).unwrap_or(itself)
    } else {
        itself
    }
}

/// Whether it is a backslash that begins no escape with what follows it.
fn is_bad(b: u8, rest: &[u8]) -> bool
    ensures { result ≡ is_bad b rest.now }
{
    b == b'\\' && escape_at(rest).is_none()
}

/// How many bytes are left at the first backslash that begins no escape.
pub fn bad_escape(text: &[u8]) -> Option<usize>
    ensures is { has_good_escapes text.now ≡ is_none result }
    ensures within { IfSome result (λ left. left ≤ length text.now) }
    ensures cut { IfSome result (λ left. IsUtf8 text.now → IsCut text.now left) }
{
    let mut rest = text;
    'scan: loop {
        match rest {
            [] => return None,
            [a, tail @ ..] => {
                if is_bad(*a, tail) {
                    return Some(rest.len());
                }
                rest = &tail[first_at(*a, tail).size..];
            }
        }
    }
}

/// The bytes that the text of a string token stands for, which may be no UTF-8. The error is want of memory.
///
/// In a text that no token has, a backslash that begins no escape stands for itself.
pub fn unescape(alloc: Global, text: &str) -> Result<Vec<u8>, AllocError>
    ensures { IfOk result (λ v. v.items ≡ unescaped text.now) }
{
    let mut bytes = Vec::with_capacity(alloc, text.len())?;
    let mut rest = text.as_bytes();
    'scan: loop {
        match rest {
            [] => return Ok(bytes),
            [a, tail @ ..] => {
                let first = first_at(*a, tail);
                bytes.push(first.value)?;
                rest = &tail[first.size..];
            }
        }
    }
}

/// Whether the text of a string token stands for these bytes; takes no memory.
pub fn stands_for(text: &str, bytes: &[u8]) -> bool
    ensures { IsTrue result ↔ (unescaped text.now ≡ bytes.now) }
{
    let mut rest = text.as_bytes();
    let mut wanted = bytes;
    'scan: loop {
        let [a, tail @ ..] = rest else {
            return wanted.is_empty();
        };
        let [b, others @ ..] = wanted else {
            return false;
        };
        let first = first_at(*a, tail);
        if first.value != *b {
            return false;
        }
        rest = &tail[first.size..];
        wanted = others;
    }
}

/// A string stands for the values of its characters.
pub fn stands_for_values()
    ensures { (quote : ℕ) (all : List Character) → AreCharacters quote all → unescaped (characters_text all) ≡ map value_of all }
{}
