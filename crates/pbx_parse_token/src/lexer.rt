//! All tokens of a source.

ghost use Rattle.std.specs.Prelude.{◌≡◌, [], ◌<◌, ◌^◌, ◌++◌, ◌&&◌, ℕ, List, length, false, option_map, IfOk, IfErr, OnOk};
ghost use Rattle.std.specs.Str.{IsUtf8};
ghost use Rattle.pbx_parse_token.specs.Tokens as tokens;
ghost use Rattle.pbx_parse_token.specs.Pieces.{tokens_from, origin, is_semicolon, significant, Lexes};
ghost use Rattle.pbx_parse_token.specs.Scan.{pieces_at, Gives, ends_after, AllStay, Keeps};
ghost use Rattle.pbx_parse_token.specs.View.{ReadsAs, UnlessMemory, IsWithin, IsStart, BeginIn, tokens_of, word_of};

use crate::piece::{LexError, piece};
use crate::token::{Place, Span, Token, Word, after};
use std::alloc::{AllocError, Global};

fn is_semicolon(word: Word<'_>) -> bool
    ensures { result ≡ is_semicolon (word_of word.entry) }
{
    matches!(word, Word::Mark(b';'))
}

/// Whether the last two tokens are `;`.
fn end_in_semicolons(tokens: &[Token<'_>]) -> bool
    ensures { result ≡ ends_after false (tokens_of tokens.now) }
{
    match tokens {
        [.., first, second] => is_semicolon(first.word) && is_semicolon(second.word),
        _ => false,
    }
}

/// Whether a token with this word is a `;` behind two.
fn is_third_semicolon(tokens: &[Token<'_>], word: Word<'_>) -> bool
    ensures { result ≡ (is_semicolon (word_of word.entry) && ends_after false (tokens_of tokens.now)) }
{
    is_semicolon(word) && end_in_semicolons(tokens)
}

/// Adds a token with this word, if there is one, which begins with so many bytes left. A `;` that then stands between two `;` goes.
fn add<'a>(
    tokens: &mut Vec<Token<'a>>,
    word: Option<Word<'a>>,
    from: Place,
    to: Place,
    left: u32,
) -> Result<(), AllocError>
    ensures same { OnOk result (Keeps (tokens_of tokens.old.items) (option_map word_of word.entry) from to (tokens_of tokens.new.items)) }
    ensures stays { OnOk result (AllStay (tokens_of tokens.old.items) → AllStay (tokens_of tokens.new.items)) }
    ensures starts { (source : List ℕ) → IsStart source left from → BeginIn source tokens.old.items → OnOk result (BeginIn source tokens.new.items) }
{
    let Some(word) = word else {
        return Ok(());
    };
    if is_third_semicolon(tokens.as_slice(), word) {
        tokens.pop();
    }
    let span = Span {
        line: from.line,
        from: from.column,
        to: to.column,
    };
    tokens.push(Token { word, span, left })?;
    Ok(())
}

/// Puts the tokens of the source into an empty list, to its end or to the first fault.
fn add_all<'a>(source: &'a [u8], tokens: &mut Vec<Token<'a>>) -> Result<(), LexError>
    requires few { length source.now < 2 ^ 31 }
    requires text { IsUtf8 source.now }
    requires empty { tokens.old.items ≡ [] }
    ensures read { Gives (λ _. tokens_of tokens.new.items) (option_map (λ ps. significant (tokens_from origin ps)) (pieces_at source.now)) result }
    ensures starts { UnlessMemory result (BeginIn source.now tokens.new.items) }
    ensures fault { IfErr result (λ e. IsWithin source.now e) }
{
    let mut rest = source;
    let mut line = 0;
    let mut column = 0;
    'pieces: while !rest.is_empty() {
        let (word, next) = piece(rest)?;
        let from = Place { line, column };
        let to = after(from, &rest[..rest.len() - next.len()]);
        add(tokens, word, from, to, rest.len() as u32)?;
        line = to.line;
        column = to.column;
        rest = next;
    }
    Ok(())
}

/// The same of a text.
fn add_tokens<'a>(source: &'a str, into: &mut Vec<Token<'a>>) -> Result<(), LexError>
    requires few { length source.now < 2 ^ 31 }
    requires empty { into.old.items ≡ [] }
    ensures found { OnOk result (Lexes source.now (tokens_of into.new.items)) }
    ensures only { (ts : List tokens.Token) → Lexes source.now ts → ReadsAs (λ _. tokens_of into.new.items) ts result }
    ensures starts { UnlessMemory result (BeginIn source.now into.new.items) }
    ensures fault { IfErr result (λ e. IsWithin source.now e) }
{
    add_all(source.as_bytes(), into)
}

/// The tokens of a source, in order, which borrow from it.
///
/// Of `;` one after another the first and the last are tokens, so a long run of them takes the memory of two.
///
/// A byte that begins no token, digits that are no integer below 2^64 or that a letter, a `_` or a dot follows, a
/// string with a bad escape, a line feed or a zero byte, and a comment or a string that does not end is a `Fault`;
/// want of memory is `NoMemory`.
pub fn lex(alloc: Global, source: &str) -> Result<Vec<Token<'_>>, LexError>
    requires { length source.now < 2 ^ 31 }
    // What is given are its tokens.
    ensures found { IfOk result (λ x. Lexes source.now (tokens_of x.items)) }
    // Its tokens are given, unless memory runs out.
    ensures only { (ts : List tokens.Token) → Lexes source.now ts → ReadsAs (λ x. tokens_of x.items) ts result }
    // Each begins where it says that so many bytes of the source are left.
    ensures starts { IfOk result (λ x. BeginIn source.now x.items) }
    // A fault lies between two characters of the source.
    ensures fault { IfErr result (λ e. IsWithin source.now e) }
{
    let mut tokens = Vec::new(alloc);
    match add_tokens(source, &mut tokens) {
        Ok(()) => Ok(tokens),
        Err(error) => Err(error),
    }
}

/// The tokens of a source before its first fault, and all where it has none. The only error is want of memory.
pub fn tokens_before_fault(alloc: Global, source: &str) -> Result<Vec<Token<'_>>, AllocError>
    requires { length source.now < 2 ^ 31 }
    // Each begins where it says that so many bytes of the source are left.
    ensures starts { IfOk result (λ x. BeginIn source.now x.items) }
    // Where the source has tokens, they are these.
    ensures only { (ts : List tokens.Token) → Lexes source.now ts → IfOk result (λ x. tokens_of x.items ≡ ts) }
{
    let mut tokens = Vec::new(alloc);
    match add_tokens(source, &mut tokens) {
        Ok(()) => Ok(tokens),
        Err(LexError::NoMemory) => Err(AllocError),
        Err(LexError::Fault { .. }) => Ok(tokens),
    }
}

/// A source has at most one list of tokens.
pub fn at_most_one()
    ensures { (source : List ℕ) (a b : List tokens.Token) → Lexes source a → Lexes source b → a ≡ b }
{}
