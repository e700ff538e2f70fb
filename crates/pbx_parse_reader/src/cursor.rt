//! Readers of one token or of a few, over the tokens that are left.
//!
//! Each says both that what it gives is spelled by the tokens that it took, and that what is spelled there is given.

ghost use Rattle.std.specs.Prelude.{◌≡◌, ◌∷◌, ◌+◌, [], List, ℕ, ◌<◌, ◌≤◌, Bool, true, false, Option, nat_le, length, MatchOption, OnOk, IfOk};
ghost use Rattle.pbx_parse_token.specs.Tokens as tokens;
ghost use Rattle.pbx_parse_token.specs.declared.token.Span.{Span};
ghost use Rattle.pbx_parse_token.specs.View.{token_of};
ghost use Rattle.pbx_parse_tree.specs.Tree as tree;
ghost use Rattle.pbx_parse_tree.specs.Grammar.{marked, worded, named, quoted, counted, mark_then, word_then, number_then};
ghost use Rattle.pbx_parse_tree.specs.Conditions.{is_text as text_fits_of, is_field_number, is_range_number, is_enum_number};
ghost use Rattle.pbx_parse_tree.specs.View.{name_of, literal_of, field_number_of, range_number_of, enum_number_of, number_of};
ghost use Rattle.pbx_parse_reader.specs.View.{left, sees_mark, sees_word, sees_both, sees_without, word_follows, tail, ends_block, sees_string};
ghost use Rattle.pbx_parse_reader.specs.View.{sees_number, sees_type, number, Reaches, TakesSome};

use crate::error::ReadError;
use pbx_parse_token::{Span, Token, Word};
use pbx_parse_tree::{
    EnumNumber, Expected, FieldNumber, Literal, Name, Number, RangeNumber, text_fits,
};

/// Tokens, of which those before `at` have been read.
#[derive(Drop)]
pub struct Cursor<'s, 'a> {
    pub tokens: &'s [Token<'a>],
    pub at: usize,
}

/// The greatest number that gives an `i32` with this sign.
fn most_with(minus: Option<Span>) -> u64
    ensures { (n : tree.Number) → n.minus ≡ minus → is_enum_number n ≡ nat_le n.value result }
{
    match minus {
        Some(_) => 2_147_483_648,
        None => 2_147_483_647,
    }
}

impl<'s, 'a> Cursor<'s, 'a> {
    pub fn peek(&self) -> Option<Token<'a>>
        ensures { MatchOption result (left self.now ≡ []) (λ t. left self.now ≡ token_of t ∷ left (record self.now { at = self.now.at + 1 })) }
    {
        if self.at < self.tokens.len() {
            Some(self.tokens[self.at])
        } else {
            None
        }
    }

    /// How many tokens are left.
    pub fn tokens_left(&self) -> usize
        ensures { result ≡ length (left self.now) }
    {
        match self.tokens.get(self.at..) {
            Some(left) => left.len(),
            None => 0,
        }
    }

    pub fn unexpected(&self, expected: Expected) -> ReadError
        ensures { result ≡ ReadError.Unexpected (length (left self.now)) expected }
    {
        ReadError::Unexpected {
            left: self.tokens_left(),
            expected,
        }
    }

    /// Whether this mark is next.
    pub fn sees(&self, wanted: u8) -> bool
        ensures { result ≡ sees_mark wanted (left self.now) }
    {
        match self.peek() {
            Some(token) => match token.word {
                Word::Mark(b) => b == wanted,
                _ => false,
            },
            None => false,
        }
    }

    /// Whether this word is next.
    pub fn sees_word(&self, wanted: &str) -> bool
        ensures { result ≡ sees_word wanted.now (left self.now) }
    {
        match self.peek() {
            Some(token) => match token.word {
                Word::Ident(text) => text == wanted,
                _ => false,
            },
            None => false,
        }
    }

    /// Whether this mark stands after the next token.
    fn sees_next(&self, wanted: u8) -> bool
        ensures { result ≡ sees_mark wanted (tail (left self.now)) }
    {
        match self.peek() {
            Some(_) => {
                let next = Cursor {
                    tokens: self.tokens,
                    at: self.at + 1,
                };
                next.sees(wanted)
            }
            None => false,
        }
    }

    /// Whether this word is next, and this mark after it.
    pub fn sees_both(&self, wanted: &str, mark: u8) -> bool
        ensures { result ≡ sees_both mark wanted.now (left self.now) }
    {
        self.sees_word(wanted) && self.sees_next(mark)
    }

    /// Whether this word is next, and no such mark after it.
    pub fn sees_without(&self, wanted: &str, mark: u8) -> bool
        ensures { result ≡ sees_without mark wanted.now (left self.now) }
    {
        self.sees_word(wanted) && !self.sees_next(mark)
    }

    /// Whether nothing more stands in a block.
    pub fn ends_block(&self) -> bool
        ensures { result ≡ ends_block (left self.now) }
    {
        match self.peek() {
            Some(token) => matches!(token.word, Word::Mark(b'}')),
            None => true,
        }
    }

    /// Whether a string is next.
    pub fn sees_string(&self) -> bool
        ensures { result ≡ sees_string (left self.now) }
    {
        match self.peek() {
            Some(token) => matches!(token.word, Word::Str(_)),
            None => false,
        }
    }

    /// Whether an integer or a minus is next.
    pub fn sees_number(&self) -> bool
        ensures { result ≡ sees_number (left self.now) }
    {
        match self.peek() {
            Some(token) => match token.word {
                Word::Int(_) => true,
                Word::Mark(b) => b == b'-',
                _ => false,
            },
            None => false,
        }
    }

    /// Whether a name or a dot is next.
    pub fn sees_type(&self) -> bool
        ensures { result ≡ sees_type (left self.now) }
    {
        match self.peek() {
            Some(token) => match token.word {
                Word::Ident(_) => true,
                Word::Mark(b) => b == b'.',
                _ => false,
            },
            None => false,
        }
    }

    /// The mark, or else what could stand there.
    pub fn mark_or(&mut self, wanted: u8, expected: Expected) -> Result<Span, ReadError>
        ensures found { IfOk result (λ s. left self.old ≡ marked wanted s ∷ left self.new) }
        ensures only { (s : Span) (rest : List tokens.Token) → left self.old ≡ marked wanted s ∷ rest → Reaches (λ x. x) s rest result (left self.new) }
        ensures shorter { TakesSome result (left self.old) (left self.new) }
    {
        if let Some(token) = self.peek() {
            if let Word::Mark(b) = token.word {
                if b == wanted {
                    self.at += 1;
                    return Ok(token.span);
                }
            }
        }
        Err(self.unexpected(expected))
    }

    pub fn mark(&mut self, wanted: u8) -> Result<Span, ReadError>
        ensures found { IfOk result (λ s. left self.old ≡ marked wanted s ∷ left self.new) }
        ensures only { (s : Span) (rest : List tokens.Token) → left self.old ≡ marked wanted s ∷ rest → Reaches (λ x. x) s rest result (left self.new) }
        ensures shorter { TakesSome result (left self.old) (left self.new) }
    {
        self.mark_or(wanted, Expected::Mark(wanted))
    }

    /// The mark; where the other mark is next instead, this is told.
    pub fn mark_unless(&mut self, wanted: u8, other: u8, told: Expected) -> Result<Span, ReadError>
        ensures found { IfOk result (λ s. left self.old ≡ marked wanted s ∷ left self.new) }
        ensures only { (s : Span) (rest : List tokens.Token) → left self.old ≡ marked wanted s ∷ rest → Reaches (λ x. x) s rest result (left self.new) }
        ensures shorter { TakesSome result (left self.old) (left self.new) }
    {
        let expected = if self.sees(other) {
            told
        } else {
            Expected::Mark(wanted)
        };
        self.mark_or(wanted, expected)
    }

    /// The mark, if it is next.
    pub fn eat(&mut self, wanted: u8) -> Option<Span>
        ensures found { left self.old ≡ mark_then wanted result (left self.new) }
        ensures only { (o : Option Span) (rest : List tokens.Token) → sees_mark wanted rest ≡ false → left self.old ≡ mark_then wanted o rest →
            (result ≡ o) × (left self.new ≡ rest) }
        ensures shorter { length (left self.new) ≤ length (left self.old) }
    {
        if let Some(token) = self.peek() {
            if let Word::Mark(b) = token.word {
                if b == wanted {
                    self.at += 1;
                    return Some(token.span);
                }
            }
        }
        None
    }

    /// The keyword, or else what could stand there.
    pub fn keyword(&mut self, wanted: &str, expected: Expected) -> Result<Span, ReadError>
        ensures found { IfOk result (λ s. left self.old ≡ worded wanted.now s ∷ left self.new) }
        ensures only { (s : Span) (rest : List tokens.Token) → left self.old ≡ worded wanted.now s ∷ rest → Reaches (λ x. x) s rest result (left self.new) }
        ensures shorter { TakesSome result (left self.old) (left self.new) }
    {
        if let Some(token) = self.peek() {
            if let Word::Ident(text) = token.word {
                if text == wanted {
                    self.at += 1;
                    return Ok(token.span);
                }
            }
        }
        Err(self.unexpected(expected))
    }

    /// The keyword, if it is next.
    pub fn eat_word(&mut self, wanted: &str) -> Option<Span>
        ensures found { left self.old ≡ word_then wanted.now result (left self.new) }
        ensures ends { word_follows wanted.now result (left self.new) ≡ true }
        ensures only { (o : Option Span) (rest : List tokens.Token) → word_follows wanted.now o rest ≡ true →
            left self.old ≡ word_then wanted.now o rest → (result ≡ o) × (left self.new ≡ rest) }
        ensures shorter { length (left self.new) ≤ length (left self.old) }
    {
        if let Some(token) = self.peek() {
            if let Word::Ident(text) = token.word {
                if text == wanted {
                    self.at += 1;
                    return Some(token.span);
                }
            }
        }
        None
    }

    /// A name, or else what could stand there.
    pub fn name_or(&mut self, expected: Expected) -> Result<Name<'a>, ReadError>
        ensures found { IfOk result (λ n. left self.old ≡ named (name_of n) ∷ left self.new) }
        ensures only { (n : tree.Name) (rest : List tokens.Token) → left self.old ≡ named n ∷ rest → Reaches name_of n rest result (left self.new) }
        ensures shorter { TakesSome result (left self.old) (left self.new) }
    {
        if let Some(token) = self.peek() {
            if let Word::Ident(text) = token.word {
                self.at += 1;
                return Ok(Name {
                    text,
                    span: token.span,
                });
            }
        }
        Err(self.unexpected(expected))
    }

    pub fn name(&mut self) -> Result<Name<'a>, ReadError>
        ensures found { IfOk result (λ n. left self.old ≡ named (name_of n) ∷ left self.new) }
        ensures only { (n : tree.Name) (rest : List tokens.Token) → left self.old ≡ named n ∷ rest → Reaches name_of n rest result (left self.new) }
        ensures shorter { TakesSome result (left self.old) (left self.new) }
    {
        self.name_or(Expected::Identifier)
    }

    /// A string, or else what could stand there.
    pub fn literal(&mut self, expected: Expected) -> Result<Literal<'a>, ReadError>
        ensures found { IfOk result (λ l. left self.old ≡ quoted (literal_of l) ∷ left self.new) }
        ensures only { (l : tree.Literal) (rest : List tokens.Token) → left self.old ≡ quoted l ∷ rest → Reaches literal_of l rest result (left self.new) }
        ensures shorter { TakesSome result (left self.old) (left self.new) }
    {
        if let Some(token) = self.peek() {
            if let Word::Str(text) = token.word {
                self.at += 1;
                return Ok(Literal::new(text, token.span));
            }
        }
        Err(self.unexpected(expected))
    }

    /// A string that stands for UTF-8; where no string is next, what could stand there.
    pub fn text(&mut self, expected: Expected) -> Result<Literal<'a>, ReadError>
        ensures found { IfOk result (λ l. left self.old ≡ quoted (literal_of l) ∷ left self.new) }
        ensures fits { IfOk result (λ l. text_fits_of (literal_of l) ≡ true) }
        ensures only { (l : tree.Literal) (rest : List tokens.Token) → text_fits_of l ≡ true → left self.old ≡ quoted l ∷ rest →
            Reaches literal_of l rest result (left self.new) }
        ensures shorter { TakesSome result (left self.old) (left self.new) }
    {
        let left = self.tokens_left();
        let literal = self.literal(expected)?;
        match text_fits(&literal) {
            Ok(()) => Ok(literal),
            Err(expected) => Err(ReadError::Unexpected { left, expected }),
        }
    }

    /// An integer with its span, or else what could stand there.
    fn int(&mut self, expected: Expected) -> Result<(u64, Span), ReadError>
        ensures found { IfOk result (λ n. left self.old ≡ number n.0 n.1 ∷ left self.new) }
        ensures only { (n : ℕ) (s : Span) (rest : List tokens.Token) → left self.old ≡ number n s ∷ rest →
            Reaches {Y = ℕ × Span} (λ x. (x.0, x.1)) (n, s) rest result (left self.new) }
        ensures shorter { TakesSome result (left self.old) (left self.new) }
    {
        if let Some(token) = self.peek() {
            if let Word::Int(n) = token.word {
                self.at += 1;
                return Ok((n, token.span));
            }
        }
        Err(self.unexpected(expected))
    }

    /// An integer of at most so much.
    fn int_up_to(&mut self, most: u64, expected: Expected) -> Result<(u64, Span), ReadError>
        ensures found { IfOk result (λ n. left self.old ≡ number n.0 n.1 ∷ left self.new) }
        ensures fits { IfOk result (λ n. nat_le n.0 most ≡ true) }
        ensures only { (n : ℕ) (s : Span) (rest : List tokens.Token) → nat_le n most ≡ true → left self.old ≡ number n s ∷ rest →
            Reaches {Y = ℕ × Span} (λ x. (x.0, x.1)) (n, s) rest result (left self.new) }
        ensures shorter { TakesSome result (left self.old) (left self.new) }
    {
        let left = self.tokens_left();
        let (value, span) = self.int(expected)?;
        if value > most {
            return Err(ReadError::Unexpected { left, expected });
        }
        Ok((value, span))
    }

    pub fn field_number(&mut self) -> Result<FieldNumber, ReadError>
        ensures found { IfOk result (λ n. left self.old ≡ counted (field_number_of n) ∷ left self.new) }
        ensures fits { IfOk result (λ n. is_field_number (field_number_of n) ≡ true) }
        ensures only { (n : tree.Count) (rest : List tokens.Token) → is_field_number n ≡ true → left self.old ≡ counted n ∷ rest →
            Reaches field_number_of n rest result (left self.new) }
        ensures shorter { TakesSome result (left self.old) (left self.new) }
    {
        let (value, span) = self.int_up_to(2_147_483_647, Expected::FieldNumber)?;
        Ok(FieldNumber { value, span })
    }

    pub fn range_number(&mut self) -> Result<RangeNumber, ReadError>
        ensures found { IfOk result (λ n. left self.old ≡ counted (range_number_of n) ∷ left self.new) }
        ensures fits { IfOk result (λ n. is_range_number (range_number_of n) ≡ true) }
        ensures only { (n : tree.Count) (rest : List tokens.Token) → is_range_number n ≡ true → left self.old ≡ counted n ∷ rest →
            Reaches range_number_of n rest result (left self.new) }
        ensures shorter { TakesSome result (left self.old) (left self.new) }
    {
        let (value, span) = self.int_up_to(536_870_911, Expected::RangeNumber)?;
        Ok(RangeNumber { value, span })
    }

    /// An integer with its sign, which is an `i32`.
    pub fn enum_number(&mut self) -> Result<EnumNumber, ReadError>
        ensures found { IfOk result (λ n. left self.old ≡ number_then (enum_number_of n) (left self.new)) }
        ensures fits { IfOk result (λ n. is_enum_number (enum_number_of n) ≡ true) }
        ensures only { (n : tree.Number) (rest : List tokens.Token) → is_enum_number n ≡ true → left self.old ≡ number_then n rest →
            Reaches enum_number_of n rest result (left self.new) }
        ensures shorter { TakesSome result (left self.old) (left self.new) }
    {
        let minus = self.eat(b'-');
        let (value, span) = self.int_up_to(most_with(minus), Expected::EnumNumber)?;
        Ok(EnumNumber { minus, value, span })
    }

    /// An integer with its sign, or else what could stand there.
    pub fn number(&mut self, expected: Expected) -> Result<Number, ReadError>
        ensures found { IfOk result (λ n. left self.old ≡ number_then (number_of n) (left self.new)) }
        ensures only { (n : tree.Number) (rest : List tokens.Token) → left self.old ≡ number_then n rest → Reaches number_of n rest result (left self.new) }
        ensures shorter { TakesSome result (left self.old) (left self.new) }
    {
        let minus = self.eat(b'-');
        let (value, span) = self.int(expected)?;
        Ok(Number { minus, value, span })
    }
}
