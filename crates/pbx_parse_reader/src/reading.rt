//! The reader of a file.

ghost use Rattle.std.specs.Prelude.{◌≡◌, ◌≤◌, List, [], length, map, true, IfOk, IfErr};
ghost use Rattle.pbx_parse_token.specs.View.{tokens_of};
ghost use Rattle.pbx_parse_tree.specs.Tree as tree;
ghost use Rattle.pbx_parse_tree.specs.Grammar.{list_then, top_then, file_then};
ghost use Rattle.pbx_parse_tree.specs.Conditions.{tops_fit, Conditions};
ghost use Rattle.pbx_parse_tree.specs.View.{top_of, file_of};
ghost use Rattle.pbx_parse_reader.specs.View.{left, left_at, ReadsAs};

use crate::blocks::block;
use crate::cursor::Cursor;
use crate::error::ReadError;
use crate::tops::syntax;
use pbx_parse_token::Token;
use pbx_parse_tree::{File, Top, Version};
use std::alloc::Global;

/// What stands at the top of a file, to its end.
#[tactic(auto, using(crate::proofs::Judged::tops_judged, crate::proofs::Judged::tops_from))]
fn tops<'a>(
    alloc: Global,
    cursor: &mut Cursor<'_, 'a>,
    version: Version,
) -> Result<Vec<Top<'a>>, ReadError>
    ensures found { IfOk result (λ x. left cursor.old ≡ list_then top_then (map top_of x.items) []) }
    ensures fits { IfOk result (λ x. tops_fit version (map top_of x.items) ≡ true) }
    ensures only { (ts : List tree.Top) → tops_fit version ts ≡ true → left cursor.old ≡ list_then top_then ts [] →
        ReadsAs (λ x. map top_of x.items) ts result }
    ensures told { IfErr result (λ e. left_at e ≤ length (left cursor.old)) }
{
    block(alloc, cursor, version)
}

/// The syntax tree that a file's tokens spell.
///
/// An error other than `NoMemory` comes exactly where they spell none that meets the conditions.
pub fn read_file<'a>(alloc: Global, tokens: &[Token<'a>]) -> Result<File<'a>, ReadError>
    // What is given spells the tokens.
    ensures found { IfOk result (λ f. tokens_of tokens.now ≡ file_then (file_of f) []) }
    // It meets the conditions.
    ensures fits { IfOk result (λ f. Conditions (file_of f)) }
    // Such a tree is given, unless memory runs out.
    ensures only { (t : tree.File) → Conditions t → tokens_of tokens.now ≡ file_then t [] → ReadsAs file_of t result }
    // An error is told at one of the tokens, or at their end.
    ensures told { IfErr result (λ e. left_at e ≤ length tokens.now) }
{
    let mut cursor = Cursor { tokens, at: 0 };
    let (syntax, version) = syntax(&mut cursor)?;
    let tops = tops(alloc, &mut cursor, version)?;
    Ok(File { syntax, tops })
}
