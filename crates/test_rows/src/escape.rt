//! Escapes in fields and in answers.

use std::alloc::{AllocError, Global};

/// What stands before the next byte of a field.
#[derive(Clone, Copy)]
enum Before {
    Nothing,
    Backslash,
    /// `\x`
    Hex,
    /// `\x` and a digit of this value
    HexDigit(u8),
}

fn digit(byte: u8) -> u8 {
    match byte {
        b'0'..=b'9' => byte - b'0',
        b'a'..=b'f' => byte - b'a' + 10,
        _ => 0,
    }
}

/// The byte that a letter behind a backslash stands for.
fn letter(byte: u8) -> u8 {
    match byte {
        b'n' => b'\n',
        b'r' => b'\r',
        b't' => b'\t',
        other => other,
    }
}

/// Adds what the byte gives behind what stands before it, and tells what stands before the next.
fn add(bytes: &mut Vec<u8>, before: Before, byte: u8) -> Result<Before, AllocError> {
    match before {
        Before::Nothing => {
            if byte == b'\\' {
                return Ok(Before::Backslash);
            }
            bytes.push(byte)?;
        }
        Before::Backslash => {
            if byte == b'x' {
                return Ok(Before::Hex);
            }
            bytes.push(letter(byte))?;
        }
        Before::Hex => return Ok(Before::HexDigit(digit(byte))),
        Before::HexDigit(high) => bytes.push(high << 4 | digit(byte))?,
    }
    Ok(Before::Nothing)
}

/// The bytes that a field stands for.
pub fn unescaped(alloc: Global, field: &str) -> Result<Vec<u8>, AllocError> {
    let mut bytes = Vec::new(alloc);
    let mut before = Before::Nothing;
    for byte in field.as_bytes() {
        before = add(&mut bytes, before, *byte)?;
    }
    Ok(bytes)
}

fn push_escaped(line: &mut String, letter: char) -> Result<(), AllocError> {
    match letter {
        '\n' => line.push_str("\\n"),
        '\r' => line.push_str("\\r"),
        '\t' => line.push_str("\\t"),
        '\\' => line.push_str("\\\\"),
        '\0' => line.push_str("\\x00"),
        _ => line.push(letter),
    }
}

/// The text on one line: line ends, tabs, backslashes and NUL as escapes.
pub fn escaped(alloc: Global, text: &str) -> Result<String, AllocError> {
    let mut line = String::new(alloc);
    for letter in text.chars() {
        push_escaped(&mut line, letter)?;
    }
    Ok(line)
}
