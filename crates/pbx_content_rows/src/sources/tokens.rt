//! What tokens a source has.

use crate::sources::words::source;
use pbx_parse_token::{LexError, Token, Word, lex, unescape};
use std::alloc::{AllocError, Global};
use std::fmt::Write;
use test_rows::{Row, Stop};

/// A token as text; of a string what is written and the bytes that it stands for.
fn add_token(alloc: Global, out: &mut String, word: Word<'_>) -> Result<(), AllocError> {
    match word {
        Word::Ident(text) => write!(out, " {text}"),
        Word::Int(value) => write!(out, " #{value}"),
        Word::Mark(mark) => write!(out, " {}", mark as char),
        Word::Str(text) => {
            let bytes = unescape(alloc, text)?;
            write!(out, " {text} {bytes:?}")
        }
    }
}

fn words(alloc: Global, tokens: &[Token<'_>]) -> Result<String, Stop> {
    let mut out = String::new(alloc);
    for token in tokens {
        add_token(alloc, &mut out, token.word)?;
    }
    Ok(out)
}

fn places(alloc: Global, tokens: &[Token<'_>]) -> Result<String, Stop> {
    let mut out = String::new(alloc);
    for token in tokens {
        write!(out, " {:?}", token.span)?;
    }
    Ok(out)
}

/// What the source lacks, with the number of bytes left.
fn fault_told(alloc: Global, error: LexError) -> Result<String, Stop> {
    match error {
        LexError::NoMemory => Err(Stop::NoMemory),
        LexError::Fault { left, begun, fault } => Ok(format!(in alloc;
            "{left} of {begun} left, lacks {fault:?}"
        )?),
    }
}

fn of_tokens(alloc: Global, word: &str, tokens: &[Token<'_>]) -> Result<String, Stop> {
    match word {
        "places" => places(alloc, tokens),
        _ => words(alloc, tokens),
    }
}

/// The tokens of a source or their places, or its fault.
pub(crate) fn shown(alloc: Global, row: &Row, word: &str) -> Result<String, Stop> {
    match lex(alloc, source(row)) {
        Ok(tokens) => of_tokens(alloc, word, tokens.as_slice()),
        Err(error) => fault_told(alloc, error),
    }
}

/// Whether what is written between quotes stands for these bytes.
pub(crate) fn stands_for(alloc: Global, row: &Row) -> Result<String, Stop> {
    let stands = pbx_parse_token::stands_for(row.text(0), row.bytes(1));
    Ok(format!(in alloc; "{stands}")?)
}

/// Whether what is written between quotes stands for a text.
pub(crate) fn stands_for_text(alloc: Global, row: &Row) -> Result<String, Stop> {
    let stands = pbx_parse_token::stands_for_text(row.text(0));
    Ok(format!(in alloc; "{stands}")?)
}
