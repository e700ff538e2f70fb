//! The tokens of a source file, each with its place.
#![tactic(auto)]

mod digits;
mod escape;
mod lexer;
mod piece;
mod run;
mod text;
mod token;

pub use escape::{stands_for, stands_for_values, unescape};
pub use lexer::{at_most_one, lex, tokens_before_fault};
pub use piece::{Fault, LexError};
pub use text::stands_for_text;
pub use token::{Place, Span, Token, Word, after};
