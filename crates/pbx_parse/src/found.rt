//! What an error says of the text that stands at its place.

ghost use Rattle.std.specs.Prelude.{◌≡◌, ◌<◌, false, IfOk, OnOk, string_bytes};
ghost use Rattle.std.specs.Char.{is_control};
ghost use Rattle.pbx_parse.specs.Errors.{IsOneLine};

use pbx_text::is_invisible;
use pbx_wire::{NoMemory, Text};
use std::alloc::Global;

/// Adds a character that is no control character.
fn add_char(text: &mut String, c: char) -> Result<(), NoMemory>
    requires { is_control c ≡ false }
    ensures { IsOneLine (string_bytes text.old) → OnOk result (IsOneLine (string_bytes text.new)) }
{
    text.push(c)?;
    Ok(())
}

/// The digit of a number below 16.
fn hexadecimal_digit(number: u32) -> char
    requires { number < 16 }
    ensures { is_control result ≡ false }
{
    match number {
        0..=9 => (b'0' + number as u8) as char,
        _ => (b'a' + (number as u8 - 10)) as char,
    }
}

/// Adds `\` and a letter.
fn add_escape(text: &mut String, letter: char) -> Result<(), NoMemory>
    requires { is_control letter ≡ false }
    ensures { IsOneLine (string_bytes text.old) → OnOk result (IsOneLine (string_bytes text.new)) }
{
    add_char(text, '\\')?;
    add_char(text, letter)
}

/// Adds the last four hexadecimal digits of a number.
fn add_digits(text: &mut String, number: u32) -> Result<(), NoMemory>
    ensures { IsOneLine (string_bytes text.old) → OnOk result (IsOneLine (string_bytes text.new)) }
{
    add_char(text, hexadecimal_digit(number / 4096 % 16))?;
    add_char(text, hexadecimal_digit(number / 256 % 16))?;
    add_char(text, hexadecimal_digit(number / 16 % 16))?;
    add_char(text, hexadecimal_digit(number % 16))
}

/// Adds a character's number as `\u` and four hexadecimal digits, or as `\U` and eight.
fn add_number(text: &mut String, number: u32) -> Result<(), NoMemory>
    ensures { IsOneLine (string_bytes text.old) → OnOk result (IsOneLine (string_bytes text.new)) }
{
    if number < 65536 {
        add_escape(text, 'u')?;
        return add_digits(text, number);
    }
    add_escape(text, 'U')?;
    add_digits(text, number / 65536)?;
    add_digits(text, number)
}

/// Adds a character, or its escape where nobody would see it.
fn add_shown(text: &mut String, c: char) -> Result<(), NoMemory>
    ensures { IsOneLine (string_bytes text.old) → OnOk result (IsOneLine (string_bytes text.new)) }
{
    match c {
        '\n' => add_escape(text, 'n'),
        '\r' => add_escape(text, 'r'),
        '\t' => add_escape(text, 't'),
        _ if is_invisible(c) => add_number(text, c as u32),
        _ => add_char(text, c),
    }
}

/// Adds the text with its invisible characters as escapes.
fn add_all_shown(text: &mut String, found: &str) -> Result<(), NoMemory>
    ensures { IsOneLine (string_bytes text.old) → OnOk result (IsOneLine (string_bytes text.new)) }
{
    'each: for c in found.chars() {
        add_shown(text, c)?;
    }
    Ok(())
}

/// Adds what may stand in a number by mistake, up to the first character that may not.
fn add_number_at(text: &mut String, rest: &str) -> Result<(), NoMemory>
    ensures { IsOneLine (string_bytes text.old) → OnOk result (IsOneLine (string_bytes text.new)) }
{
    'each: for c in rest.chars() {
        if !(c.is_ascii_alphanumeric() || c == '_' || c == '.') {
            return Ok(());
        }
        add_shown(text, c)?;
    }
    Ok(())
}

/// What stands at the place of an error.
#[derive(Clone, Copy)]
pub enum Found<'a> {
    /// The source ends there.
    End,
    Character(char),
    Name(&'a str),
    /// A string: its quote, and what is written between its quotes.
    String(char, &'a str),
    /// What begins with a number, which goes as far as letters, digits, `_` and `.` do.
    Number(&'a str),
}

/// Adds a string with its quotes.
fn add_string(text: &mut String, quote: char, written: &str) -> Result<(), NoMemory>
    ensures { IsOneLine (string_bytes text.old) → OnOk result (IsOneLine (string_bytes text.new)) }
{
    add_shown(text, quote)?;
    add_all_shown(text, written)?;
    add_shown(text, quote)
}

fn add_found(text: &mut String, found: Found<'_>) -> Result<(), NoMemory>
    ensures { IsOneLine (string_bytes text.old) → OnOk result (IsOneLine (string_bytes text.new)) }
{
    match found {
        Found::End => add_all_shown(text, "end of file"),
        Found::Character(character) => add_shown(text, character),
        Found::Name(name) => add_all_shown(text, name),
        Found::String(quote, written) => add_string(text, quote, written),
        Found::Number(rest) => add_number_at(text, rest),
    }
}

/// What was found in single quotes, but for the end.
fn add_quoted(text: &mut String, found: Found<'_>) -> Result<(), NoMemory>
    ensures { IsOneLine (string_bytes text.old) → OnOk result (IsOneLine (string_bytes text.new)) }
{
    if matches!(found, Found::End) {
        return add_found(text, found);
    }
    add_char(text, '\'')?;
    add_found(text, found)?;
    add_char(text, '\'')
}

/// A text in one line: invisible characters stand as escapes, control characters among them.
pub fn one_line(alloc: Global, words: &str) -> Result<Text, NoMemory>
    ensures { IfOk result (λ t. IsOneLine t) }
{
    let mut text = String::new(alloc);
    add_all_shown(&mut text, words)?;
    Text::from_str(alloc, text.as_str())
}

/// What an error says of what was found, in one line: invisible characters stand as escapes, control characters among them.
pub fn found_text(alloc: Global, found: Found<'_>) -> Result<Text, NoMemory>
    ensures { IfOk result (λ t. IsOneLine t) }
{
    let mut text = String::new(alloc);
    add_quoted(&mut text, found)?;
    Text::from_str(alloc, text.as_str())
}
