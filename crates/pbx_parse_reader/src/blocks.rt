//! Lists of what stands in a block, of which each is judged behind those before it.

ghost use Rattle.std.specs.Prelude.{◌≡◌, ◌∷◌, ◌++◌, ◌<◌, ◌≤◌, List, length, [], map, true, false, OnOk, IfOk, IfErr, Bool};
ghost use Rattle.pbx_parse_token.specs.Tokens as tokens;
ghost use Rattle.pbx_parse_token.specs.declared.token.Span.{Span};
ghost use Rattle.pbx_parse_tree.specs.declared.tree.Version.{Version};
ghost use Rattle.pbx_parse_tree.specs.Grammar.{marked, list_then};
ghost use Rattle.pbx_parse_reader.specs.Blocks.{Before, nothing, before_of, all_behind};
ghost use Rattle.pbx_parse_reader.specs.View.{left, FailsNot, Reaches, TakesSome, TakesAny};

use crate::cursor::Cursor;
use crate::error::ReadError;
use pbx_parse_token::Span;
use pbx_parse_tree::{Setting, Version};
use std::alloc::Global;

/// What the statements read so far set.
#[derive(Drop)]
pub struct Seen<'a> {
    pub settings: Vec<Setting<'a>>,
    /// Whether one of them names a package.
    pub named: bool,
}

/// Adds it at the end.
pub fn add<T: Drop>(items: &mut Vec<T>, item: T) -> Result<(), ReadError>
    ensures ok { OnOk result (items.new.items ≡ items.old.items ++ item ∷ []) }
    ensures err { IfErr result (λ e. FailsNot e) }
{
    match items.push(item) {
        Ok(()) => Ok(()),
        Err(_) => Err(ReadError::NoMemory),
    }
}

/// What stands in a block, where an option is set once.
pub trait BlockItem<'a>: Drop + Sized {
    /// Its syntax tree.
    ghost Tree: { Type 0 };

    ghost view: { Self → Tree };

    ghost spelled: { Tree → List tokens.Token → List tokens.Token };

    /// It may stand behind what sets this.
    ghost behind: { Version → Before → Tree → Bool };

    /// What is set behind it.
    ghost after: { Before → Tree → Before };

    /// The block ends here.
    ghost stop: { List tokens.Token → Bool };

    fn stops(cursor: &Cursor<'_, 'a>) -> bool
        ensures is { result ≡ stop (left cursor.now) }
        // A block does not end where one of these begins.
        ensures goes { (t : Tree) (rest : List tokens.Token) → stop (spelled t rest) ≡ false };

    fn read_behind(
        alloc: Global,
        cursor: &mut Cursor<'_, 'a>,
        version: Version,
        seen: &Seen<'a>,
    ) -> Result<Self, ReadError>
        ensures found { IfOk result (λ x. left cursor.old ≡ spelled (view x) (left cursor.new)) }
        ensures fit { IfOk result (λ x. behind version (before_of seen.now) (view x) ≡ true) }
        ensures only { (t : Tree) (rest : List tokens.Token) → behind version (before_of seen.now) t ≡ true → left cursor.old ≡ spelled t rest →
            Reaches view t rest result (left cursor.new) }
        ensures shorter { TakesSome result (left cursor.old) (left cursor.new) };

    /// Adds what it sets.
    fn note(&self, seen: &mut Seen<'a>) -> Result<(), ReadError>
        ensures ok { OnOk result (before_of seen.new ≡ after (before_of seen.old) (view self.now)) }
        ensures err { IfErr result (λ e. FailsNot e) };
}

/// Any number of them.
pub fn block<'a, P: BlockItem<'a>>(
    alloc: Global,
    cursor: &mut Cursor<'_, 'a>,
    version: Version,
) -> Result<Vec<P>, ReadError>
    ensures found { IfOk result (λ x. left cursor.old ≡ list_then P.spelled (map P.view x.items) (left cursor.new)) }
    ensures ends { OnOk result (P.stop (left cursor.new) ≡ true) }
    ensures fit { IfOk result (λ x. all_behind (P.behind version) P.after nothing (map P.view x.items) ≡ true) }
    ensures only { (ts : List P.Tree) (rest : List tokens.Token) → all_behind (P.behind version) P.after nothing ts ≡ true → P.stop rest ≡ true →
        left cursor.old ≡ list_then P.spelled ts rest → Reaches (λ x. map P.view x.items) ts rest result (left cursor.new) }
    ensures shorter { TakesAny result (left cursor.old) (left cursor.new) }
{
    let mut items = Vec::new(alloc);
    let mut seen = Seen {
        settings: Vec::new(alloc),
        named: false,
    };
    'each: while !P::stops(cursor) {
        let item = P::read_behind(alloc, cursor, version, &seen)?;
        item.note(&mut seen)?;
        add(&mut items, item)?;
    }
    items.shrink_to_fit();
    Ok(items)
}

/// Any number of them, and the `}` behind them.
pub fn closed_block<'a, P: BlockItem<'a>>(
    alloc: Global,
    cursor: &mut Cursor<'_, 'a>,
    version: Version,
) -> Result<(Vec<P>, Span), ReadError>
    ensures found { IfOk result (λ x. left cursor.old ≡ list_then P.spelled (map P.view x.0.items) (marked 125 x.1 ∷ left cursor.new)) }
    ensures fit { IfOk result (λ x. all_behind (P.behind version) P.after nothing (map P.view x.0.items) ≡ true) }
    ensures only { ((s : Span) (ts : List tokens.Token) → P.stop (marked 125 s ∷ ts) ≡ true) →
        (xs : List P.Tree) (close : Span) (rest : List tokens.Token) → all_behind (P.behind version) P.after nothing xs ≡ true →
        left cursor.old ≡ list_then P.spelled xs (marked 125 close ∷ rest) →
        Reaches {Y = List P.Tree × Span} (λ x. (map P.view x.0.items, x.1)) (xs, close) rest result (left cursor.new) }
    ensures shorter { TakesSome result (left cursor.old) (left cursor.new) }
{
    let items = block(alloc, cursor, version)?;
    match cursor.mark(b'}') {
        Ok(close) => Ok((items, close)),
        Err(error) => Err(error),
    }
}
