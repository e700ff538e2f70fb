//! Lists of one production.

ghost use Rattle.std.specs.Prelude.{◌≡◌, ◌∷◌, ◌<◌, ◌≤◌, List, length, [], map, true, false, OnOk, IfOk, Bool};
ghost use Rattle.std.specs.List.{list_all};
ghost use Rattle.pbx_parse_token.specs.Tokens as tokens;
ghost use Rattle.pbx_parse_token.specs.declared.token.Span.{Span};
ghost use Rattle.pbx_parse_tree.specs.declared.tree.Version.{Version};
ghost use Rattle.pbx_parse_tree.specs.Tree as tree;
ghost use Rattle.pbx_parse_tree.specs.Tree.{all_of};
ghost use Rattle.pbx_parse_tree.specs.Grammar.{marked, list_then, next_then, separated_then};
ghost use Rattle.pbx_parse_tree.specs.View.{next_of, separated_of};
ghost use Rattle.pbx_parse_reader.specs.View.{left, sees_mark, next_fits, Reaches, TakesSome, TakesAny};

use crate::cursor::Cursor;
use crate::error::ReadError;
use pbx_parse_token::Span;
use pbx_parse_tree::{Separated, Version};
use std::alloc::Global;

/// What is read from tokens by itself.
pub trait Production<'a>: Drop + Sized {
    /// Its syntax tree.
    ghost Tree: { Type 0 };

    ghost view: { Self → Tree };

    ghost spelled: { Tree → List tokens.Token → List tokens.Token };

    ghost fits: { Version → Tree → Bool };

    /// What may stand after it.
    ghost follows: { List tokens.Token → Bool };

    fn read(alloc: Global, cursor: &mut Cursor<'_, 'a>, version: Version) -> Result<Self, ReadError>
        ensures found { IfOk result (λ x. left cursor.old ≡ spelled (view x) (left cursor.new)) }
        ensures fit { IfOk result (λ x. fits version (view x) ≡ true) }
        ensures only { (t : Tree) (rest : List tokens.Token) → fits version t ≡ true → follows rest ≡ true → left cursor.old ≡ spelled t rest →
            Reaches view t rest result (left cursor.new) }
        ensures shorter { TakesSome result (left cursor.old) (left cursor.new) };
}

/// What stands in a list without marks between its items.
pub trait ListItem<'a>: Production<'a> {
    /// The list ends here.
    ghost stop: { List tokens.Token → Bool };

    fn stops(cursor: &Cursor<'_, 'a>) -> bool
        ensures is { result ≡ stop (left cursor.now) }
        // A list does not end where one of these begins.
        ensures goes { (t : Self.Tree) (rest : List tokens.Token) → stop (Self.spelled t rest) ≡ false };
}

/// Any number of them.
pub fn all<'a, P: ListItem<'a>>(
    alloc: Global,
    cursor: &mut Cursor<'_, 'a>,
    version: Version,
) -> Result<Vec<P>, ReadError>
    ensures found { IfOk result (λ x. left cursor.old ≡ list_then P.spelled (map P.view x.items) (left cursor.new)) }
    ensures ends { OnOk result (P.stop (left cursor.new) ≡ true) }
    ensures fit { IfOk result (λ x. list_all (P.fits version) (map P.view x.items) ≡ true) }
    ensures only { ((ts : List tokens.Token) → P.follows ts ≡ true) → (ts : List P.Tree) (rest : List tokens.Token) →
        list_all (P.fits version) ts ≡ true → P.stop rest ≡ true → left cursor.old ≡ list_then P.spelled ts rest →
        Reaches (λ x. map P.view x.items) ts rest result (left cursor.new) }
    ensures shorter { TakesAny result (left cursor.old) (left cursor.new) }
{
    let mut items = Vec::new(alloc);
    'each: while !P::stops(cursor) {
        items.push(P::read(alloc, cursor, version)?)?;
    }
    items.shrink_to_fit();
    Ok(items)
}

/// Any number of them, and the `}` behind them.
pub fn all_closed<'a, P: ListItem<'a>>(
    alloc: Global,
    cursor: &mut Cursor<'_, 'a>,
    version: Version,
) -> Result<(Vec<P>, Span), ReadError>
    ensures found { IfOk result (λ x. left cursor.old ≡ list_then P.spelled (map P.view x.0.items) (marked 125 x.1 ∷ left cursor.new)) }
    ensures fit { IfOk result (λ x. list_all (P.fits version) (map P.view x.0.items) ≡ true) }
    ensures only { ((ts : List tokens.Token) → P.follows ts ≡ true) → ((s : Span) (ts : List tokens.Token) → P.stop (marked 125 s ∷ ts) ≡ true) →
        (ts : List P.Tree) (close : Span) (rest : List tokens.Token) → list_all (P.fits version) ts ≡ true →
        left cursor.old ≡ list_then P.spelled ts (marked 125 close ∷ rest) →
        Reaches {Y = List P.Tree × Span} (λ x. (map P.view x.0.items, x.1)) (ts, close) rest result (left cursor.new) }
    ensures shorter { TakesSome result (left cursor.old) (left cursor.new) }
{
    let items = all(alloc, cursor, version)?;
    match cursor.mark(b'}') {
        Ok(close) => Ok((items, close)),
        Err(error) => Err(error),
    }
}

/// A mark, and one of them.
fn next<'a, P: Production<'a>>(
    alloc: Global,
    cursor: &mut Cursor<'_, 'a>,
    version: Version,
    mark: u8,
) -> Result<(Span, P), ReadError>
    ensures found { IfOk result (λ x. left cursor.old ≡ next_then mark P.spelled (next_of P.view x) (left cursor.new)) }
    ensures fit { IfOk result (λ x. P.fits version (P.view x.1) ≡ true) }
    ensures only { (t : Span × P.Tree) (rest : List tokens.Token) → P.fits version t.1 ≡ true → P.follows rest ≡ true →
        left cursor.old ≡ next_then mark P.spelled t rest → Reaches (next_of P.view) t rest result (left cursor.new) }
    ensures shorter { TakesSome result (left cursor.old) (left cursor.new) }
{
    let mark = cursor.mark(mark)?;
    Ok((mark, P::read(alloc, cursor, version)?))
}

/// As many as follow with the mark before each.
fn more<'a, P: Production<'a>>(
    alloc: Global,
    cursor: &mut Cursor<'_, 'a>,
    version: Version,
    mark: u8,
) -> Result<Vec<(Span, P)>, ReadError>
    ensures found { IfOk result (λ x. left cursor.old ≡ list_then (next_then mark P.spelled) (map (next_of P.view) x.items) (left cursor.new)) }
    ensures fit { IfOk result (λ x. list_all (next_fits P.fits version) (map (next_of P.view) x.items) ≡ true) }
    ensures only { ((s : Span) (ts : List tokens.Token) → P.follows (marked mark s ∷ ts) ≡ true) →
        (ts : List (Span × P.Tree)) (rest : List tokens.Token) → list_all (next_fits P.fits version) ts ≡ true → P.follows rest ≡ true →
        sees_mark mark rest ≡ false → left cursor.old ≡ list_then (next_then mark P.spelled) ts rest →
        Reaches (λ x. map (next_of P.view) x.items) ts rest result (left cursor.new) }
    ensures shorter { TakesAny result (left cursor.old) (left cursor.new) }
{
    let mut items = Vec::new(alloc);
    'each: while cursor.sees(mark) {
        items.push(next(alloc, cursor, version, mark)?)?;
    }
    items.shrink_to_fit();
    Ok(items)
}

/// One or more, with the mark between them.
pub fn separated<'a, P: Production<'a>>(
    alloc: Global,
    cursor: &mut Cursor<'_, 'a>,
    version: Version,
    mark: u8,
) -> Result<Separated<P>, ReadError>
    ensures found { IfOk result (λ x. left cursor.old ≡ separated_then mark P.spelled (separated_of P.view x) (left cursor.new)) }
    ensures fit { IfOk result (λ x. list_all (P.fits version) (all_of (separated_of P.view x)) ≡ true) }
    ensures only { ((s : Span) (ts : List tokens.Token) → P.follows (marked mark s ∷ ts) ≡ true) →
        (t : tree.Separated P.Tree) (rest : List tokens.Token) → list_all (P.fits version) (all_of t) ≡ true → P.follows rest ≡ true →
        sees_mark mark rest ≡ false → left cursor.old ≡ separated_then mark P.spelled t rest →
        Reaches (separated_of P.view) t rest result (left cursor.new) }
    ensures shorter { TakesSome result (left cursor.old) (left cursor.new) }
{
    let first = P::read(alloc, cursor, version)?;
    let more = more(alloc, cursor, version, mark)?;
    Ok(Separated { first, more })
}
