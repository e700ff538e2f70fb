ghost use Rattle.std.specs.Prelude.{◌≡◌, ◌⊎◌, ◌++◌, Ok, Err, IfOk, IfErr, OnOk, string_bytes, encode_utf8};
ghost use Rattle.std.specs.List.{flat_map};
ghost use Rattle.pbx_text.specs.Mask.{camel_written, mask_read, mask_written, snake_char, snake_read};
ghost use Rattle.pbx_text.specs.declared.fault.TextFault.TheVariants.{NoMemory as OutOfMemory};

use crate::fault::TextFault;
use pbx_wire::{NoMemory, Text, Texts};
use std::alloc::Global;

/// Adds a character, an ASCII letter in upper case as `_` and its lower case.
#[tactic(auto, using(crate::proofs::Masks::snake_upper, crate::proofs::Masks::snake_other))]
fn push_snake(snake: &mut String, letter: char) -> Result<(), NoMemory>
    ensures { OnOk result (string_bytes snake.new ≡ string_bytes snake.old ++ flat_map snake_char (encode_utf8 letter)) }
{
    if letter.is_ascii_uppercase() {
        snake.push('_')?;
    }
    snake.push(letter.to_ascii_lowercase())?;
    Ok(())
}

/// The part in snake_case; one with a `_` is refused.
pub fn camel_case_to_snake_case(alloc: Global, part: &str) -> Result<Text, TextFault>
    ensures ok { IfOk result (λ text. snake_read part.now ≡ Ok text) }
    ensures err { IfErr result (λ e. (e ≡ OutOfMemory) ⊎ (snake_read part.now ≡ Err e)) }
{
    let mut snake = String::new(alloc);
    for c in part.chars() {
        if c == '_' {
            return Err(TextFault::Form);
        }
        push_snake(&mut snake, c)?;
    }
    let text = Text::from_str(alloc, snake.as_str())?;
    Ok(text)
}

/// Adds a character.
fn push_letter(text: &mut String, letter: char) -> Result<(), NoMemory>
    ensures { OnOk result (string_bytes text.new ≡ string_bytes text.old ++ encode_utf8 letter) }
{
    text.push(letter)?;
    Ok(())
}

/// Adds a piece behind a separator.
fn push_piece(text: &mut String, separator: &str, piece: &str) -> Result<(), NoMemory>
    ensures { OnOk result (string_bytes text.new ≡ string_bytes text.old ++ separator.now ++ piece.now) }
{
    text.push_str(separator)?;
    text.push_str(piece)?;
    Ok(())
}

/// The part in lowerCamelCase; an empty one is refused, and one with a comma, an ASCII letter in upper case or a `_`
/// that no ASCII letter in lower case follows.
#[tactic(auto, using(crate::proofs::Camels::raised_fails, crate::proofs::Camels::plain_fails, crate::proofs::Camels::ends_raised, crate::proofs::Camels::ends))]
pub fn snake_case_to_camel_case(alloc: Global, part: &str) -> Result<Text, TextFault>
    ensures ok { IfOk result (λ text. camel_written part.now ≡ Ok text) }
    ensures err { IfErr result (λ e. (e ≡ OutOfMemory) ⊎ (camel_written part.now ≡ Err e)) }
{
    if part.is_empty() {
        return Err(TextFault::Form);
    }
    let mut camel = String::new(alloc);
    let mut raised = false;
    for c in part.chars() {
        if raised {
            if !c.is_ascii_lowercase() {
                return Err(TextFault::Form);
            }
            push_letter(&mut camel, c.to_ascii_uppercase())?;
            raised = false;
        } else if c == '_' {
            raised = true;
        } else {
            if c == ',' || c.is_ascii_uppercase() {
                return Err(TextFault::Form);
            }
            push_letter(&mut camel, c)?;
        }
    }
    if raised {
        return Err(TextFault::Form);
    }
    let text = Text::from_str(alloc, camel.as_str())?;
    Ok(text)
}

/// The paths of a mask text, in snake_case: the pieces between its commas, of which empty ones are dropped; a piece
/// with a `_` is refused.
pub fn read_mask(alloc: Global, text: &str) -> Result<Texts, TextFault>
    ensures ok { IfOk result (λ paths. mask_read text.now ≡ Ok paths) }
    ensures err { IfErr result (λ e. (e ≡ OutOfMemory) ⊎ (mask_read text.now ≡ Err e)) }
{
    let mut paths = Texts::new(alloc);
    for piece in text.split(',') {
        if !piece.is_empty() {
            let path = camel_case_to_snake_case(alloc, piece)?;
            paths.add(path)?;
        }
    }
    Ok(paths)
}

/// The mask text of paths in snake_case; a path that has no form in lowerCamelCase is refused.
pub fn write_mask(alloc: Global, paths: &Texts) -> Result<Text, TextFault>
    ensures ok { IfOk result (λ text. mask_written paths.now ≡ Ok text) }
    ensures err { IfErr result (λ e. (e ≡ OutOfMemory) ⊎ (mask_written paths.now ≡ Err e)) }
{
    let mut text = String::new(alloc);
    let mut separator = "";
    for path in paths.as_slice() {
        let piece = snake_case_to_camel_case(alloc, path.as_str())?;
        push_piece(&mut text, separator, piece.as_str())?;
        separator = ",";
    }
    let text = Text::from_str(alloc, text.as_str())?;
    Ok(text)
}
