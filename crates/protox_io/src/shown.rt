ghost use Rattle.std.specs.List.{flat_map, list_any};
ghost use Rattle.std.specs.Prelude.{◌≡◌, ◌<◌, IsTrue, IfErr, map};
ghost use Rattle.std.specs.Str.{chars};
ghost use Rattle.pbx_text.specs.Invisible.{is_invisible as is_invisible_of};
ghost use Rattle.protox_io.specs.Count.{Rose, Later};
ghost use Rattle.protox_io.specs.Shown.{hexadecimal, hexadecimals, numbered, escape, shown_char, shown, shown_line, ShownIsPlain};
ghost use Rattle.protox_io.specs.Sink.{RefusesFor, Appends, Prints};

use crate::{Sink, SinkError, write_all};
use pbx_text::is_invisible;

/// The digit of a number below 16.
fn hexadecimal_digit(number: u32) -> u8
    requires { number < 16 }
    ensures { result ≡ hexadecimal number }
{
    if number < 10 {
        b'0' + number as u8
    } else {
        b'a' + (number as u8 - 10)
    }
}

/// The last four hexadecimal digits of a number.
fn hexadecimal_digits(number: u32) -> [u8; 4]
    ensures { result ≡ hexadecimals number }
{
    [
        hexadecimal_digit(number / 4096 % 16),
        hexadecimal_digit(number / 256 % 16),
        hexadecimal_digit(number / 16 % 16),
        hexadecimal_digit(number % 16),
    ]
}

/// Writes a character's number.
fn write_number<K: Sink>(sink: &mut K, c: char) -> Result<(), SinkError>
    ensures told { IsTrue (K.output sink.old).tells → Appends (K.output sink.old).held (K.output sink.new).held (Prints (numbered c) result) }
    ensures cause { IfErr result (RefusesFor (Rose (K.count sink.old) (K.count sink.new)) (IsTrue (K.output sink.new).short)) }
    ensures later { Later (K.count sink.old) (K.count sink.new) }
    ensures keeps_tells { (K.output sink.new).tells ≡ (K.output sink.old).tells }
{
    let code = c as u32;
    let low = hexadecimal_digits(code);
    if code < 65536 {
        return write_all(sink, &[b'\\', b'u', low[0], low[1], low[2], low[3]]);
    }
    let high = hexadecimal_digits(code / 65536);
    write_all(
        sink,
        &[
            b'\\', b'U', high[0], high[1], high[2], high[3], low[0], low[1], low[2], low[3],
        ],
    )
}

/// Writes what stands for an invisible character.
fn write_escape<K: Sink>(sink: &mut K, c: char) -> Result<(), SinkError>
    ensures told { IsTrue (K.output sink.old).tells → Appends (K.output sink.old).held (K.output sink.new).held (Prints (escape c) result) }
    ensures cause { IfErr result (RefusesFor (Rose (K.count sink.old) (K.count sink.new)) (IsTrue (K.output sink.new).short)) }
    ensures later { Later (K.count sink.old) (K.count sink.new) }
    ensures keeps_tells { (K.output sink.new).tells ≡ (K.output sink.old).tells }
{
    match c {
        '\n' => write_all(sink, b"\\n"),
        '\r' => write_all(sink, b"\\r"),
        '\t' => write_all(sink, b"\\t"),
        _ => write_number(sink, c),
    }
}

fn write_char<K: Sink>(sink: &mut K, c: char) -> Result<(), SinkError>
    ensures told { IsTrue (K.output sink.old).tells → Appends (K.output sink.old).held (K.output sink.new).held (Prints (shown_char c) result) }
    ensures cause { IfErr result (RefusesFor (Rose (K.count sink.old) (K.count sink.new)) (IsTrue (K.output sink.new).short)) }
    ensures later { Later (K.count sink.old) (K.count sink.new) }
    ensures keeps_tells { (K.output sink.new).tells ≡ (K.output sink.old).tells }
{
    if is_invisible(c) {
        return write_escape(sink, c);
    }
    let mut bytes = [0u8; 4];
    write_all(sink, c.encode_utf8(&mut bytes).as_bytes())
}

/// Whether an invisible character stands in the text.
fn has_invisible(text: &str) -> bool
    ensures { result ≡ list_any is_invisible_of (chars text.now) }
{
    for c in text.chars() {
        if is_invisible(c) {
            return true;
        }
    }
    false
}

/// Writes the characters of the text, invisible ones as escapes.
fn write_chars<K: Sink>(sink: &mut K, text: &str) -> Result<(), SinkError>
    ensures told { IsTrue (K.output sink.old).tells → Appends (K.output sink.old).held (K.output sink.new).held (Prints (shown text.now) result) }
    ensures cause { IfErr result (RefusesFor (Rose (K.count sink.old) (K.count sink.new)) (IsTrue (K.output sink.new).short)) }
    ensures later { Later (K.count sink.old) (K.count sink.new) }
    ensures keeps_tells { (K.output sink.new).tells ≡ (K.output sink.old).tells }
{
    for c in text.chars() {
        match write_char(sink, c) {
            Ok(()) => {}
            Err(error) => return Err(error),
        }
    }
    Ok(())
}

/// Writes the text with its invisible characters as escapes, unless a write is refused. Then the first of its bytes may
/// stand in the sink. It takes no memory of its own. A text without such characters is written as a whole, another one
/// character by character.
#[tactic(auto, using(crate::proofs::Showing::plain_shown))]
pub fn write_shown<K: Sink>(sink: &mut K, text: &str) -> Result<(), SinkError>
    ensures told { IsTrue (K.output sink.old).tells → Appends (K.output sink.old).held (K.output sink.new).held (Prints (shown text.now) result) }
    ensures cause { IfErr result (RefusesFor (Rose (K.count sink.old) (K.count sink.new)) (IsTrue (K.output sink.new).short)) }
    ensures later { Later (K.count sink.old) (K.count sink.new) }
    ensures keeps_tells { (K.output sink.new).tells ≡ (K.output sink.old).tells }
{
    if has_invisible(text) {
        return write_chars(sink, text);
    }
    write_all(sink, text.as_bytes())
}

/// Writes the texts in a row as `write_shown` does each, unless a write is refused.
fn write_all_shown<K: Sink>(sink: &mut K, texts: &[&str]) -> Result<(), SinkError>
    ensures told { IsTrue (K.output sink.old).tells →
        Appends (K.output sink.old).held (K.output sink.new).held (Prints (flat_map (λ text. shown text.now) texts.now) result) }
    ensures cause { IfErr result (RefusesFor (Rose (K.count sink.old) (K.count sink.new)) (IsTrue (K.output sink.new).short)) }
    ensures later { Later (K.count sink.old) (K.count sink.new) }
    ensures keeps_tells { (K.output sink.new).tells ≡ (K.output sink.old).tells }
{
    for text in texts {
        match write_shown(sink, text) {
            Ok(()) => {}
            Err(error) => return Err(error),
        }
    }
    Ok(())
}

/// Writes the texts in a row, with their invisible characters as escapes, and a line feed, unless a write is refused. Then
/// the first bytes of the line may stand in the sink. It takes no memory of its own, so that a line can be said when memory
/// has run out.
pub fn write_line<K: Sink>(sink: &mut K, texts: &[&str]) -> Result<(), SinkError>
    ensures told { IsTrue (K.output sink.old).tells →
        Appends (K.output sink.old).held (K.output sink.new).held (Prints (shown_line (map (λ text. text.now) texts.now)) result) }
    ensures cause { IfErr result (RefusesFor (Rose (K.count sink.old) (K.count sink.new)) (IsTrue (K.output sink.new).short)) }
    ensures later { Later (K.count sink.old) (K.count sink.new) }
    ensures keeps_tells { (K.output sink.new).tells ≡ (K.output sink.old).tells }
{
    match write_all_shown(sink, texts) {
        Ok(()) => write_all(sink, b"\n"),
        Err(error) => Err(error),
    }
}

/// A text as it is shown has no control character.
pub fn shown_is_plain()
    ensures { ShownIsPlain }
{}
