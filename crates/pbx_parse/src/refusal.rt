//! What is said of a source that has no record.

ghost use Rattle.std.specs.Prelude.{◌≡◌, ◌≤◌, ℕ, List, length, IfOk, IfSome, IfNone};
ghost use Rattle.pbx_parse_token.specs.View.{IsCut, BeginsIn, BeginIn, IsWithin, FailsNot as lexed};
ghost use Rattle.pbx_parse_reader.specs.View.{left_at, FailsNot as spelled};
ghost use Rattle.pbx_parse.specs.Errors.{IsOneLine, Refuses};

use crate::error::ParseError;
use crate::found::{Found, found_text, one_line};
use pbx_parse_reader::{ReadError, read_file};
use pbx_parse_token::{Fault, LexError, Place, Token, Word, after, tokens_before_fault};
use pbx_parse_tree::Expected;
use pbx_wire::{NoMemory, Text};
use std::alloc::Global;

/// The source before so many last bytes, and those.
fn cut(source: &str, left: usize) -> (&str, &str)
    requires within { left ≤ length source.now }
    requires cut { IsCut source.now left }
    ensures { length result.0.now ≤ length source.now }
{
    source.split_at(source.len() - left)
}

/// A token as it is written in the source.
fn token_found<'a>(source: &'a str, token: Token<'a>) -> Found<'a>
    requires { BeginsIn source.now token }
{
    let (_, rest) = cut(source, token.left as usize);
    match token.word {
        Word::Ident(text) => Found::Name(text),
        Word::Int(_) => Found::Number(rest),
        Word::Str(text) if rest.starts_with('"') => Found::String('"', text),
        Word::Str(text) => Found::String('\'', text),
        Word::Mark(mark) => Found::Character(mark as char),
    }
}

/// A number with what may not follow it, else one character.
fn fault_found(rest: &str, fault: Fault) -> Found<'_> {
    match (rest.chars().next(), fault) {
        (None, _) => Found::End,
        (Some(_), Fault::Integer) => Found::Number(rest),
        (Some(character), _) => Found::Character(character),
    }
}

/// The place behind a text.
fn place_behind(text: &str) -> Place
    requires { length text.now ≤ 2147483647 }
{
    let origin = Place { line: 0, column: 0 };
    after(origin, text.as_bytes())
}

/// The error of this place. The sums do not saturate, since a source has fewer lines and columns.
fn refused(
    alloc: Global,
    name: &str,
    place: Place,
    expected: Text,
    found: Found<'_>,
) -> Result<ParseError, NoMemory>
    requires { IsOneLine expected }
    ensures { IfOk result (λ e. Refuses name.now (Unit {0}) e) }
{
    Ok(ParseError::Syntax {
        file: Text::from_str(alloc, name)?,
        line: place.line.saturating_add(1),
        column: place.column.saturating_add(1),
        expected,
        found: found_text(alloc, found)?,
    })
}

/// The error of a token that cannot stand where it does.
fn at_token(
    alloc: Global,
    name: &str,
    source: &str,
    token: Token<'_>,
    expected: Expected,
) -> Result<ParseError, NoMemory>
    requires { BeginsIn source.now token }
    ensures { IfOk result (λ e. Refuses name.now (Unit {0}) e) }
{
    let place = Place {
        line: token.span.line,
        column: token.span.from,
    };
    let expected = one_line(alloc, expected.words())?;
    refused(alloc, name, place, expected, token_found(source, token))
}

/// The error of a source that ends where something has to stand.
fn at_end(
    alloc: Global,
    name: &str,
    source: &str,
    expected: Expected,
) -> Result<ParseError, NoMemory>
    requires { length source.now ≤ 2147483647 }
    ensures { IfOk result (λ e. Refuses name.now (Unit {0}) e) }
{
    let expected = one_line(alloc, expected.words())?;
    refused(alloc, name, place_behind(source), expected, Found::End)
}

/// The first of the tokens of which so many are left, and none at the end.
fn token_left<'a>(tokens: &[Token<'a>], left: usize) -> Option<Token<'a>>
    requires { left ≤ length tokens.now }
    ensures starts { (source : List ℕ) → BeginIn source tokens.now → IfSome result (λ t. BeginsIn source t) }
    ensures end { IfNone result (left ≡ 0) }
{
    if left == 0 {
        return None;
    }
    Some(tokens[tokens.len() - left])
}

/// The token at which reading stopped, none at the end, and what could stand there; nothing where memory ran out.
fn stop_of<'a>(tokens: &[Token<'a>], error: ReadError) -> Option<(Option<Token<'a>>, Expected)>
    requires { left_at error ≤ length tokens.now }
    ensures starts { (source : List ℕ) → BeginIn source tokens.now → IfSome result (λ x. IfSome x.0 (λ t. BeginsIn source t)) }
    ensures fails { IfSome result (λ _. ¬ (spelled error)) }
{
    match error {
        ReadError::NoMemory => None,
        ReadError::Unexpected { left, expected } => Some((token_left(tokens, left), expected)),
    }
}

/// The first token of a source with a fault that cannot stand where it does, if one stands before the fault, and
/// what could stand there or at the fault.
fn stop<'a>(alloc: Global, source: &'a str) -> Result<(Option<Token<'a>>, Expected), NoMemory>
    requires { length source.now ≤ 2147483647 }
    ensures { IfOk result (λ x. IfSome x.0 (λ t. BeginsIn source.now t)) }
{
    let tokens = tokens_before_fault(alloc, source)?;
    match read_file(alloc, tokens.as_slice()) {
        // A statement could follow a whole file.
        Ok(_) => Ok((None, Expected::Top)),
        Err(error) => match stop_of(tokens.as_slice(), error) {
            Some(stop) => Ok(stop),
            None => Err(NoMemory),
        },
    }
}

/// What could stand at a fault, where the grammar expects this.
fn fault_text(alloc: Global, fault: Fault, expected: Expected) -> Result<Text, NoMemory>
    ensures { IfOk result (λ t. IsOneLine t) }
{
    match fault {
        Fault::Token | Fault::Integer => one_line(alloc, expected.words()),
        Fault::CommentEnd => one_line(alloc, "'*/'"),
        Fault::Quote(_) => one_line(alloc, "a closing quote"),
        Fault::Escape => one_line(alloc, "a valid escape"),
    }
}

/// The error of a fault, or of a token before it that cannot stand where it does.
fn at_fault(
    alloc: Global,
    name: &str,
    source: &str,
    left: usize,
    fault: Fault,
) -> Result<ParseError, NoMemory>
    requires few { length source.now ≤ 2147483647 }
    requires within { left ≤ length source.now }
    requires cut { IsCut source.now left }
    ensures { IfOk result (λ e. Refuses name.now (Unit {0}) e) }
{
    let (earlier, expected) = stop(alloc, source)?;
    if let Some(token) = earlier {
        return at_token(alloc, name, source, token, expected);
    }
    let (before, rest) = cut(source, left);
    let expected = fault_text(alloc, fault, expected)?;
    refused(
        alloc,
        name,
        place_behind(before),
        expected,
        fault_found(rest, fault),
    )
}

/// The error of a source without tokens.
pub fn of_lexing(alloc: Global, name: &str, source: &str, error: LexError) -> ParseError
    requires few { length source.now ≤ 2147483647 }
    requires within { IsWithin source.now error }
    ensures { Refuses name.now (¬ (lexed error)) result }
{
    match error {
        LexError::NoMemory => ParseError::NoMemory,
        LexError::Fault { left, fault, .. } => match at_fault(alloc, name, source, left, fault) {
            Ok(refused) => refused,
            Err(_) => ParseError::NoMemory,
        },
    }
}

/// The error of a token that cannot stand where it does, or of the end.
fn at_stop(
    alloc: Global,
    name: &str,
    source: &str,
    token: Option<Token<'_>>,
    expected: Expected,
) -> Result<ParseError, NoMemory>
    requires few { length source.now ≤ 2147483647 }
    requires start { IfSome token (λ t. BeginsIn source.now t) }
    ensures { IfOk result (λ e. Refuses name.now (Unit {0}) e) }
{
    match token {
        Some(token) => at_token(alloc, name, source, token, expected),
        None => at_end(alloc, name, source, expected),
    }
}

/// The error of tokens that spell no file.
pub fn of_reading(
    alloc: Global,
    name: &str,
    source: &str,
    tokens: &[Token<'_>],
    error: ReadError,
) -> ParseError
    requires few { length source.now ≤ 2147483647 }
    requires starts { BeginIn source.now tokens.now }
    requires told { left_at error ≤ length tokens.now }
    ensures { Refuses name.now (¬ (spelled error)) result }
{
    let Some((token, expected)) = stop_of(tokens, error) else {
        return ParseError::NoMemory;
    };
    match at_stop(alloc, name, source, token, expected) {
        Ok(refused) => refused,
        Err(_) => ParseError::NoMemory,
    }
}
