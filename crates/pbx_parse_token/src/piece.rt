//! One piece of a source: a blank, a comment or a token.

ghost use Rattle.std.specs.Prelude.{◌≡◌, ◌≤◌, ◌<◌, ◌+◌, length, take, drop, false, IfSome, IfOk, IfErr, IsTrue, option_map};
ghost use Rattle.std.specs.List.{prefix_len};
ghost use Rattle.std.specs.Str.{IsUtf8};
ghost use Rattle.pbx_parse_token.specs.Bytes.{passes, class_of, first_class_of, is_break};
ghost use Rattle.pbx_parse_token.specs.Scan.{block_end, begins_slash, quoted_end, piece_at, piece_by, quoted_at, Gives, kept};
ghost use Rattle.pbx_parse_token.specs.View.{IsCut, IsWithin, word_of};
ghost use Rattle.pbx_parse_token.specs.declared.piece.LexError.TheVariants.{NoMemory};

use crate::digits::int_of;
use crate::escape::bad_escape;
use crate::run::{Run, run_len};
use crate::token::Word;
use std::alloc::{AllocError, AllocFailed};

/// What the source lacks at a fault.
#[derive(Clone, Copy, Debug, PartialEq, Eq)]
pub enum Fault {
    /// The byte there begins no token.
    Token,
    /// What begins there with a digit is no integer.
    Integer,
    /// The source ends inside a `/*` comment.
    CommentEnd,
    /// The byte there, or the end, cannot stand inside a string, and this quote has not come.
    Quote(u8),
    /// The backslash there begins no escape.
    Escape,
}

/// Why a source has no tokens.
#[derive(Clone, Copy, Debug, PartialEq, Eq)]
pub enum LexError {
    NoMemory,
    Fault {
        /// How many bytes of the source are left at the fault.
        left: usize,
        /// How many are left where the token or comment begins in which the fault lies.
        begun: usize,
        fault: Fault,
    },
}

impl LexError {
    fn at(rest: &[u8], fault: Fault) -> LexError
        ensures is { result ≡ LexError.Fault (length rest.now) (length rest.now) fault }
        ensures within { IsWithin rest.now result }
    {
        LexError::Fault {
            left: rest.len(),
            begun: rest.len(),
            fault,
        }
    }
}

impl From<AllocError> for LexError {
    ghost from_gives = { λ _ e. e ≡ NoMemory };

    fn from(_refused: AllocError) -> LexError {
        LexError::NoMemory
    }
}

impl<T: Drop> From<AllocFailed<T>> for LexError {
    ghost from_gives = { λ _ e. e ≡ NoMemory };

    fn from(_refused: AllocFailed<T>) -> LexError {
        LexError::NoMemory
    }
}

/// What the first bytes of a piece begin.
#[derive(Clone, Copy, Debug)]
pub enum Class {
    Blank,
    Line,
    Block,
    Identifier,
    Number,
    Quote,
    Mark,
    Bad,
}

fn first_class(b: u8) -> Class
    ensures { result ≡ first_class_of b }
{
    match b {
        b' ' | 9..=13 => Class::Blank,
        b'a'..=b'z' | b'A'..=b'Z' | b'_' => Class::Identifier,
        b'0'..=b'9' => Class::Number,
        b'"' | b'\'' => Class::Quote,
        b';' | b'{' | b'}' | b'[' | b']' | b'(' | b')' | b'<' | b'>' | b'=' | b',' | b'.' | b'-' =>
            { Class::Mark }
        _ => Class::Bad,
    }
}

fn class_at(bytes: &[u8]) -> Class
    ensures { result ≡ class_of bytes.now }
{
    match bytes {
        [] => Class::Bad,
        [b'/', b'/', ..] => Class::Line,
        [b'/', b'*', ..] => Class::Block,
        [b, ..] => first_class(*b),
    }
}

/// How many bytes stand before the first `*/`.
#[tactic(auto, unfolding(crate::specs::Scan::block_end))]
fn block_len(bytes: &[u8]) -> Option<usize>
    ensures is { result ≡ block_end bytes.now }
    ensures within { IfSome result (λ n. n + 2 ≤ length bytes.now) }
{
    let mut rest = bytes;
    let mut n = 0;
    'scan: loop {
        match rest {
            [] => return None,
            [a, tail @ ..] => {
                if *a == b'*' && slash(tail) {
                    return Some(n);
                }
                rest = tail;
                n += 1;
            }
        }
    }
}

fn slash(bytes: &[u8]) -> bool
    ensures is { result ≡ begins_slash bytes.now }
    ensures some { IsTrue result → 0 < length bytes.now }
{
    match bytes {
        [] => false,
        [b, ..] => *b == b'/',
    }
}

/// Whether no string holds a byte.
fn breaks(b: u8) -> bool
    ensures { result ≡ is_break b }
{
    b == b'\n' || b == 0
}

/// How many bytes stand before the first quote that no backslash escapes.
#[tactic(auto, unfolding(crate::specs::Scan::quoted_end))]
fn quoted_len(bytes: &[u8], quote: u8) -> Option<usize>
    ensures is { result ≡ quoted_end quote false bytes.now }
    ensures within { IfSome result (λ n. n + 1 ≤ length bytes.now) }
{
    let mut rest = bytes;
    let mut n = 0;
    let mut escaped = false;
    'scan: loop {
        match rest {
            [] => return None,
            [a, tail @ ..] => {
                if *a == quote && !escaped {
                    return Some(n);
                }
                if breaks(*a) {
                    return None;
                }
                escaped = *a == b'\\' && !escaped;
                rest = tail;
                n += 1;
            }
        }
    }
}

/// How many bytes are left at the first that no string holds, or at the end.
fn left_unbroken(text: &[u8]) -> usize
    ensures within { result ≤ length text.now }
    ensures cut { IsUtf8 text.now → IsCut text.now result }
{
    let mut rest = text;
    'scan: loop {
        match rest {
            [] => return 0,
            [a, tail @ ..] => {
                if breaks(*a) {
                    return rest.len();
                }
                rest = tail;
            }
        }
    }
}

/// Bytes that are text.
fn text_of(bytes: &[u8]) -> &str
    requires { IsUtf8 bytes.now }
    ensures { result.now ≡ bytes.now }
{
    match str::from_utf8(bytes) {
        Ok(text) => text,
        Err(_) => unreachable!(),
    }
}

/// The letters, digits and `_` at the front, which are text since they are ASCII.
fn identifier_at(bytes: &[u8]) -> (&str, &[u8])
    ensures text { result.0.now ≡ take (prefix_len (passes Run.Identifier) bytes.now) bytes.now }
    ensures rest { result.1.now ≡ drop (prefix_len (passes Run.Identifier) bytes.now) bytes.now }
{
    let n = run_len(bytes, Run::Identifier);
    (text_of(&bytes[..n]), &bytes[n..])
}

/// The string at the front, and what follows it.
fn quoted(bytes: &[u8]) -> Result<(Option<Word<'_>>, &[u8]), LexError>
    requires quote { class_of bytes.now ≡ Class.Quote }
    requires text { IsUtf8 bytes.now }
    ensures read { Gives (λ x. (option_map word_of x.0, x.1.now)) (kept (quoted_at bytes.now)) result }
    ensures shorter { IfOk result (λ x. length x.1.now < length bytes.now) }
    ensures fault { IfErr result (λ e. IsWithin bytes.now e) }
{
    let [quote, text @ ..] = bytes else {
        return Err(LexError::at(bytes, Fault::Token));
    };
    let Some(n) = quoted_len(text, *quote) else {
        return Err(LexError::Fault {
            left: left_unbroken(text),
            begun: bytes.len(),
            fault: Fault::Quote(*quote),
        });
    };
    if let Some(left) = bad_escape(&text[..n]) {
        return Err(LexError::Fault {
            left: text.len() - n + left,
            begun: bytes.len(),
            fault: Fault::Escape,
        });
    }
    Ok((Some(Word::Str(text_of(&text[..n]))), &text[n + 1..]))
}

/// What follows the `/*` comment that begins at the front.
fn block(bytes: &[u8]) -> Result<(Option<Word<'_>>, &[u8]), LexError>
    requires { IsUtf8 bytes.now }
    ensures read { Gives (λ x. (option_map word_of x.0, x.1.now)) (kept (piece_by Class.Block bytes.now)) result }
    ensures shorter { IfOk result (λ x. length x.1.now < length bytes.now) }
    ensures fault { IfErr result (λ e. IsWithin bytes.now e) }
{
    let text = bytes.get(2..).unwrap_or(&[]);
    match block_len(text) {
        None => Err(LexError::Fault {
            left: 0,
            begun: bytes.len(),
            fault: Fault::CommentEnd,
        }),
        Some(n) => Ok((None, &text[n + 2..])),
    }
}

/// The integer at the front, and what follows it.
fn integer(bytes: &[u8]) -> Result<(Option<Word<'_>>, &[u8]), LexError>
    ensures read { Gives (λ x. (option_map word_of x.0, x.1.now)) (kept (piece_by Class.Number bytes.now)) result }
    ensures shorter { IfOk result (λ x. length x.1.now < length bytes.now) }
    ensures fault { IfErr result (λ e. IsWithin bytes.now e) }
{
    let n = run_len(bytes, Run::Number);
    match int_of(&bytes[..n]) {
        None => Err(LexError::at(bytes, Fault::Integer)),
        Some(value) => Ok((Some(Word::Int(value)), &bytes[n..])),
    }
}

/// The piece at the front: its word, if it is a token, and what follows it.
#[tactic(auto, unfolding(crate::specs::Scan::piece_at))]
pub fn piece(bytes: &[u8]) -> Result<(Option<Word<'_>>, &[u8]), LexError>
    requires { IsUtf8 bytes.now }
    ensures read { Gives (λ x. (option_map word_of x.0, x.1.now)) (kept (piece_at bytes.now)) result }
    ensures shorter { IfOk result (λ x. length x.1.now < length bytes.now) }
    ensures fault { IfErr result (λ e. IsWithin bytes.now e) }
{
    match class_at(bytes) {
        Class::Bad => Err(LexError::at(bytes, Fault::Token)),
        Class::Blank => match bytes {
            [] => Err(LexError::at(bytes, Fault::Token)),
            [_, rest @ ..] => Ok((None, rest)),
        },
        Class::Mark => match bytes {
            [] => Err(LexError::at(bytes, Fault::Token)),
            [b, rest @ ..] => Ok((Some(Word::Mark(*b)), rest)),
        },
        Class::Line => {
            let text = bytes.get(2..).unwrap_or(&[]);
            Ok((None, &text[run_len(text, Run::Line)..]))
        }
        Class::Block => block(bytes),
        Class::Identifier => {
            let (text, rest) = identifier_at(bytes);
            Ok((Some(Word::Ident(text)), rest))
        }
        Class::Number => integer(bytes),
        Class::Quote => quoted(bytes),
    }
}
