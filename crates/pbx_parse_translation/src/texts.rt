//! Names, texts and numbers in the words of the records.

ghost use Rattle.std.specs.Prelude.{◌≡◌, ◌<◌, ◌++◌, ◌∷◌, [], true, Some, IfOk, OnOk, string_bytes};
ghost use Rattle.pbx_parse_tree.specs.View.{name_of, literal_of, type_of, separated_of, number_of, enum_number_of};
ghost use Rattle.pbx_parse_translation.specs.Texts.{string_text as string_text_of, full_text as full_text_of, type_text as type_text_of, camel_from};
ghost use Rattle.pbx_parse_translation.specs.Texts.{entry_name as entry_name_of, octal as octal_of, escape as escape_of, escaped as escaped_of};
ghost use Rattle.pbx_parse_translation.specs.Texts.{number_text as number_text_of, signed as signed_of};

use itoa::Buffer;
use pbx_parse_token::unescape;
use pbx_parse_tree::{EnumNumber, Literal, Name, Number, Separated, TypeName};
use pbx_wire::{NoMemory, Text};
use std::alloc::Global;

/// Adds the names, with the dots between them.
#[tactic(auto, unfolding(crate::specs::Texts::full_text))]
fn add_full_text(full: &Separated<Name<'_>>, text: &mut String) -> Result<(), NoMemory>
    ensures { OnOk result (string_bytes text.new ≡ string_bytes text.old ++ full_text_of (separated_of name_of full.now)) }
{
    text.push_str(full.first.text)?;
    'each: for (_, name) in &full.more {
        text.push_str(".")?;
        text.push_str(name.text)?;
    }
    Ok(())
}

/// Names with the dots between them.
#[tactic(auto, unfolding(crate::specs::Texts::full_text))]
pub(crate) fn full_text(alloc: Global, full: &Separated<Name<'_>>) -> Result<Text, NoMemory>
    ensures { IfOk result (λ t. t ≡ full_text_of (separated_of name_of full.now)) }
{
    let mut text = String::new(alloc);
    add_full_text(full, &mut text)?;
    Text::from_str(alloc, text.as_str())
}

/// The text of a field that is there.
pub(crate) fn some_text(alloc: Global, text: &str) -> Result<Option<Text>, NoMemory>
    ensures { IfOk result (λ it. it ≡ Some text.now) }
{
    Ok(Some(Text::from_str(alloc, text)?))
}

/// The name of a type as it is written, without blanks.
#[tactic(auto, unfolding(crate::specs::Texts::type_text))]
pub(crate) fn type_text(alloc: Global, name: &TypeName<'_>) -> Result<Text, NoMemory>
    ensures { IfOk result (λ t. t ≡ type_text_of (type_of name.now)) }
{
    let mut text = String::new(alloc);
    if name.dot.is_some() {
        text.push_str(".")?;
    }
    add_full_text(&name.full, &mut text)?;
    Text::from_str(alloc, text.as_str())
}

/// The name without its `_`, what stands behind one and the first in upper case.
fn camel(alloc: Global, name: &str) -> Result<String, NoMemory>
    ensures { IfOk result (λ t. string_bytes t ≡ camel_from true name.now) }
{
    let mut camel = String::new(alloc);
    let mut up = true;
    for c in name.chars() {
        if c == '_' {
            up = true;
        } else {
            camel.push(if up { c.to_ascii_uppercase() } else { c })?;
            up = false;
        }
    }
    Ok(camel)
}

/// The name of the message that holds the entries of a map field of this name.
#[tactic(auto, unfolding(crate::specs::Texts::entry_name))]
pub(crate) fn entry_name(alloc: Global, name: &str) -> Result<Text, NoMemory>
    ensures { IfOk result (λ t. t ≡ entry_name_of name.now) }
{
    let mut text = camel(alloc, name)?;
    text.push_str("Entry")?;
    Text::from_str(alloc, text.as_str())
}

/// The text that a string stands for, or else the string as it is written.
#[tactic(auto, unfolding(crate::specs::Texts::string_text))]
pub(crate) fn string_text(alloc: Global, literal: &Literal<'_>) -> Result<Text, NoMemory>
    ensures { IfOk result (λ t. t ≡ string_text_of (literal_of literal.now)) }
{
    let bytes = unescape(alloc, literal.text)?;
    match str::from_utf8(bytes.as_slice()) {
        Ok(text) => Text::from_str(alloc, text),
        Err(_) => Text::from_str(alloc, literal.text),
    }
}

/// Adds a backslash and a character.
fn add_short(c: char, text: &mut String) -> Result<(), NoMemory>
    requires { c < 128 }
    ensures { OnOk result (string_bytes text.new ≡ string_bytes text.old ++ 92 ∷ c ∷ []) }
{
    text.push('\\')?;
    text.push(c)?;
    Ok(())
}

/// Adds a backslash and three octal digits.
fn add_octal(b: u8, text: &mut String) -> Result<(), NoMemory>
    ensures { OnOk result (string_bytes text.new ≡ string_bytes text.old ++ octal_of b) }
{
    text.push('\\')?;
    text.push((b'0' + b / 64) as char)?;
    text.push((b'0' + b / 8 % 8) as char)?;
    text.push((b'0' + b % 8) as char)?;
    Ok(())
}

/// Adds what a string literal of C has for the byte.
fn add_escape(b: u8, text: &mut String) -> Result<(), NoMemory>
    ensures { OnOk result (string_bytes text.new ≡ string_bytes text.old ++ escape_of b) }
{
    match b {
        b'\n' => add_short('n', text),
        b'\r' => add_short('r', text),
        b'\t' => add_short('t', text),
        b'"' | b'\'' | b'\\' => add_short(b as char, text),
        32..=126 => {
            text.push(b as char)?;
            Ok(())
        }
        _ => add_octal(b, text),
    }
}

/// Bytes as the text that a string literal of C has for them.
#[tactic(auto, unfolding(crate::specs::Texts::escaped))]
pub(crate) fn escaped(alloc: Global, bytes: &[u8]) -> Result<Text, NoMemory>
    ensures { IfOk result (λ t. t ≡ escaped_of bytes.now) }
{
    let mut text = String::new(alloc);
    'each: for b in bytes {
        add_escape(*b, &mut text)?;
    }
    Text::from_str(alloc, text.as_str())
}

/// An integer in decimal, with its sign.
#[tactic(auto, unfolding(crate::specs::Texts::number_text))]
pub(crate) fn number_text(alloc: Global, number: &Number) -> Result<Text, NoMemory>
    ensures { IfOk result (λ t. t ≡ number_text_of (number_of number.now)) }
{
    let mut text = String::new(alloc);
    if number.minus.is_some() {
        text.push_str("-")?;
    }
    let mut buffer = Buffer::new();
    text.push_str(buffer.format(number.value))?;
    Text::from_str(alloc, text.as_str())
}

/// An integer with its sign.
pub(crate) fn signed(number: &EnumNumber) -> i32
    ensures { result ≡ signed_of (enum_number_of number.now) }
{
    match number.minus {
        Some(_) => (0 - number.value as i64) as i32,
        None => number.value as i32,
    }
}
