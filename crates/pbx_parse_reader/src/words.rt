//! Readers of the words that stand for something.

ghost use Rattle.std.specs.Prelude.{◌≡◌, ◌∷◌, List, ◌<◌, ◌≤◌, true, false, Option, length, MatchOption, IfSome, IfNone, OnSome};
ghost use Rattle.pbx_parse_token.specs.Tokens as tokens;
ghost use Rattle.pbx_parse_token.specs.declared.token.Span.{Span};
ghost use Rattle.pbx_parse_tree.specs.declared.tree.Scalar.{Scalar};
ghost use Rattle.pbx_parse_tree.specs.declared.tree.Label.{Label};
ghost use Rattle.pbx_parse_tree.specs.declared.tree.Modifier.{Modifier};
ghost use Rattle.pbx_parse_tree.specs.Words.{scalar_word, label_word, modifier_word, is_scalar_word, is_label_word};
ghost use Rattle.pbx_parse_tree.specs.Grammar.{worded, label_then, modifier_then};
ghost use Rattle.pbx_parse_reader.specs.View.{left, sees_string, sees, label_follows};

use crate::cursor::Cursor;
use pbx_parse_token::{Span, Word};
use pbx_parse_tree::{Label, Modifier, Scalar};

fn scalar_named(text: &str) -> Option<Scalar>
    ensures { MatchOption result (is_scalar_word text.now ≡ false) (λ s. text.now ≡ scalar_word s) }
{
    match text {
        "double" => Some(Scalar::Double),
        "float" => Some(Scalar::Float),
        "int32" => Some(Scalar::Int32),
        "int64" => Some(Scalar::Int64),
        "uint32" => Some(Scalar::Uint32),
        "uint64" => Some(Scalar::Uint64),
        "sint32" => Some(Scalar::Sint32),
        "sint64" => Some(Scalar::Sint64),
        "fixed32" => Some(Scalar::Fixed32),
        "fixed64" => Some(Scalar::Fixed64),
        "sfixed32" => Some(Scalar::Sfixed32),
        "sfixed64" => Some(Scalar::Sfixed64),
        "bool" => Some(Scalar::Bool),
        "string" => Some(Scalar::String),
        "bytes" => Some(Scalar::Bytes),
        _ => None,
    }
}

fn label_named(text: &str) -> Option<Label>
    ensures { MatchOption result (is_label_word text.now ≡ false) (λ l. text.now ≡ label_word l) }
{
    match text {
        "optional" => Some(Label::Optional),
        "required" => Some(Label::Required),
        "repeated" => Some(Label::Repeated),
        _ => None,
    }
}

fn modifier_named(text: &str) -> Option<Modifier>
    ensures { MatchOption result ((m : Modifier) → text.now ≡ modifier_word m → ⊥) (λ m. text.now ≡ modifier_word m) }
{
    match text {
        "public" => Some(Modifier::Public),
        "weak" => Some(Modifier::Weak),
        _ => None,
    }
}

impl<'s, 'a> Cursor<'s, 'a> {
    /// The scalar type, if its word is next.
    #[tactic(auto, using(crate::proofs::Spelling::scalar_same, crate::proofs::Spelling::word_of_scalar))]
    pub fn eat_scalar(&mut self) -> Option<(Scalar, Span)>
        ensures found { IfSome result (λ x. left self.old ≡ worded (scalar_word x.0) x.1 ∷ left self.new) }
        ensures none { IfNone result ((left self.new ≡ left self.old) × (sees is_scalar_word (left self.old) ≡ false)) }
        ensures only { (s : Scalar) (p : Span) (rest : List tokens.Token) → left self.old ≡ worded (scalar_word s) p ∷ rest → (result ≡ Some (s, p)) ×
            (left self.new ≡ rest) }
        ensures shorter { OnSome result (length (left self.new) < length (left self.old)) }
    {
        let token = self.peek()?;
        let Word::Ident(text) = token.word else {
            return None;
        };
        let scalar = scalar_named(text)?;
        self.at += 1;
        Some((scalar, token.span))
    }

    /// The label, if one is next.
    #[tactic(auto, using(crate::proofs::Spelling::label_same, crate::proofs::Spelling::word_of_label))]
    pub fn eat_label(&mut self) -> Option<(Label, Span)>
        ensures found { left self.old ≡ label_then result (left self.new) }
        ensures ends { label_follows result (left self.new) ≡ true }
        ensures only { (o : Option (Label × Span)) (rest : List tokens.Token) → label_follows o rest ≡ true → left self.old ≡ label_then o rest →
            (result ≡ o) × (left self.new ≡ rest) }
        ensures shorter { length (left self.new) ≤ length (left self.old) }
    {
        if let Some(token) = self.peek() {
            if let Word::Ident(text) = token.word {
                if let Some(label) = label_named(text) {
                    self.at += 1;
                    return Some((label, token.span));
                }
            }
        }
        None
    }

    /// What stands between `import` and the file's name, if it does.
    #[tactic(auto, using(crate::proofs::Spelling::modifier_same))]
    pub fn eat_modifier(&mut self) -> Option<(Modifier, Span)>
        ensures found { left self.old ≡ modifier_then result (left self.new) }
        ensures only { (o : Option (Modifier × Span)) (rest : List tokens.Token) → sees_string rest ≡ true → left self.old ≡ modifier_then o rest →
            (result ≡ o) × (left self.new ≡ rest) }
        ensures shorter { length (left self.new) ≤ length (left self.old) }
    {
        if let Some(token) = self.peek() {
            if let Word::Ident(text) = token.word {
                if let Some(modifier) = modifier_named(text) {
                    self.at += 1;
                    return Some((modifier, token.span));
                }
            }
        }
        None
    }
}
