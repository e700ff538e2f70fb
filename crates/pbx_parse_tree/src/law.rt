//! What the grammar and the conditions say together.

ghost use Rattle.std.specs.Prelude.{◌≡◌, List, []};
ghost use Rattle.pbx_parse_token.specs.Tokens.{Token};
ghost use Rattle.pbx_parse_tree.specs.Tree.{File};
ghost use Rattle.pbx_parse_tree.specs.Grammar.{file_then};
ghost use Rattle.pbx_parse_tree.specs.Conditions.{Conditions};

/// Tokens spell at most one tree that meets the conditions.
pub fn at_most_one()
    ensures { (ts : List Token) (a b : File) → Conditions a → Conditions b → ts ≡ file_then a [] → ts ≡ file_then b [] → a ≡ b }
{}
