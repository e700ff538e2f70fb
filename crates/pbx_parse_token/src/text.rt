//! Whether strings stand for UTF-8.

ghost use Rattle.std.specs.Prelude.{◌≡◌, ◌≤◌, ◌<◌, ◌↔◌, ◌∷◌, length, MatchOption, IfSome, IsTrue};
ghost use Rattle.std.specs.Str.{IsUtf8, continuation_len};
ghost use Rattle.pbx_parse_token.specs.Escapes.{unescaped, StandsForText};

use crate::escape::first_at;

/// How many bytes follow this one in a character that it begins.
fn continuation_len(first: u8) -> usize
    ensures is { result ≡ continuation_len first }
    ensures few { result < 4 }
{
    match first {
        0..=127 => 0,
        128..=223 => 1,
        224..=239 => 2,
        _ => 3,
    }
}

/// What is left of a string after the character that this byte begins, if it is a character.
fn after_char(first: u8, text: &[u8]) -> Option<&[u8]>
    ensures is { MatchOption result (¬ (IsUtf8 (first ∷ unescaped text.now))) (λ rest. IsUtf8 (first ∷ unescaped text.now) ↔ IsUtf8 (unescaped rest.now)) }
    ensures within { IfSome result (λ rest. length rest.now ≤ length text.now) }
{
    let more = continuation_len(first);
    let mut bytes = [first, 0, 0, 0];
    let mut at = 0;
    let mut rest = text;
    'each: while at < more {
        let [a, tail @ ..] = rest else {
            return None;
        };
        let next = first_at(*a, tail);
        at += 1;
        bytes[at] = next.value;
        rest = &tail[next.size..];
    }
    match str::from_utf8(&bytes[..at + 1]) {
        Ok(_) => Some(rest),
        Err(_) => None,
    }
}

/// Whether the bytes that the text of a string token stands for are UTF-8; takes no memory.
pub fn stands_for_text(text: &str) -> bool
    ensures { IsTrue result ↔ StandsForText text.now }
{
    let mut rest = text.as_bytes();
    'scan: loop {
        let [a, tail @ ..] = rest else {
            return true;
        };
        let first = first_at(*a, tail);
        match after_char(first.value, &tail[first.size..]) {
            None => return false,
            Some(after) => rest = after,
        }
    }
}
