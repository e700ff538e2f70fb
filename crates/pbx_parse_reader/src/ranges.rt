//! Readers of ranges.

ghost use Rattle.std.specs.Prelude.{◌≡◌, ◌∷◌, ◌<◌, ◌≤◌, List, Bool, Option, option_map, not, length, true, false, OnOk, IfOk, codes};
ghost use Rattle.std.specs.List.{list_all};
ghost use Rattle.pbx_parse_token.specs.Tokens as tokens;
ghost use Rattle.pbx_parse_token.specs.declared.token.Span.{Span};
ghost use Rattle.pbx_parse_tree.specs.Tree as tree;
ghost use Rattle.pbx_parse_tree.specs.Grammar.{count_then, number_then, literal_then, range_end_then, to_then, range_then, extensions_then, reserved_then};
ghost use Rattle.pbx_parse_tree.specs.Conditions.{is_range_number, is_enum_number, is_text, range_end_fits, to_fits, range_fits, extensions_fit, reserved_fits};
ghost use Rattle.pbx_parse_tree.specs.View.{range_number_of, enum_number_of, literal_of, next_of, range_end_of, range_of, extensions_of, reserved_of};
ghost use Rattle.pbx_parse_reader.specs.View.{left, sees_word, sees_number, Reaches, TakesSome, TakesAny};

use crate::cursor::Cursor;
use crate::error::ReadError;
use crate::many::{Production, separated};
use pbx_parse_token::Span;
use pbx_parse_tree::{
    EnumNumber, Expected, Extensions, Literal, Range, RangeEnd, RangeNumber, Reserved, Version,
};
use std::alloc::Global;

/// A number in a range.
pub trait RangeBound: Copy + Drop {
    /// Its syntax tree.
    ghost Tree: { Type 0 };

    ghost view: { Self → Tree };

    ghost spelled: { Tree → List tokens.Token → List tokens.Token };

    ghost fits: { Tree → Bool };

    fn begins(cursor: &Cursor<'_, '_>) -> bool
        ensures is { result ≡ sees_number (left cursor.now) }
        ensures number { (t : Tree) (rest : List tokens.Token) → sees_number (spelled t rest) ≡ true };

    fn read_bound(cursor: &mut Cursor<'_, '_>) -> Result<Self, ReadError>
        ensures found { IfOk result (λ x. left cursor.old ≡ spelled (view x) (left cursor.new)) }
        ensures fit { IfOk result (λ x. fits (view x) ≡ true) }
        ensures only { (t : Tree) (rest : List tokens.Token) → fits t ≡ true → left cursor.old ≡ spelled t rest → Reaches view t rest result (left cursor.new) }
        ensures shorter { TakesSome result (left cursor.old) (left cursor.new) };
}

impl RangeBound for RangeNumber {
    ghost Tree = { tree.Count };

    ghost view = { range_number_of };

    ghost spelled = { count_then };

    ghost fits = { is_range_number };

    fn begins(cursor: &Cursor<'_, '_>) -> bool {
        cursor.sees_number()
    }

    fn read_bound(cursor: &mut Cursor<'_, '_>) -> Result<RangeNumber, ReadError> {
        cursor.range_number()
    }
}

impl RangeBound for EnumNumber {
    ghost Tree = { tree.Number };

    ghost view = { enum_number_of };

    ghost spelled = { number_then };

    ghost fits = { is_enum_number };

    fn begins(cursor: &Cursor<'_, '_>) -> bool {
        cursor.sees_number()
    }

    fn read_bound(cursor: &mut Cursor<'_, '_>) -> Result<EnumNumber, ReadError> {
        cursor.enum_number()
    }
}

fn range_end<N: RangeBound>(cursor: &mut Cursor<'_, '_>) -> Result<RangeEnd<N>, ReadError>
    ensures found { IfOk result (λ e. left cursor.old ≡ range_end_then N.spelled (range_end_of N.view e) (left cursor.new)) }
    ensures fit { IfOk result (λ e. range_end_fits N.fits (range_end_of N.view e) ≡ true) }
    ensures only { (e : tree.RangeEnd N.Tree) (rest : List tokens.Token) → range_end_fits N.fits e ≡ true →
        left cursor.old ≡ range_end_then N.spelled e rest → Reaches (range_end_of N.view) e rest result (left cursor.new) }
    ensures shorter { TakesSome result (left cursor.old) (left cursor.new) }
{
    if N::begins(cursor) {
        return Ok(RangeEnd::Number(N::read_bound(cursor)?));
    }
    Ok(RangeEnd::Max(cursor.keyword("max", Expected::RangeEnd)?))
}

/// `to` and the end of a range, if `to` is next.
fn range_to<N: RangeBound>(
    cursor: &mut Cursor<'_, '_>,
) -> Result<Option<(Span, RangeEnd<N>)>, ReadError>
    ensures found { IfOk result (λ t. left cursor.old ≡ to_then N.spelled (option_map (next_of (range_end_of N.view)) t) (left cursor.new)) }
    ensures fit { IfOk result (λ t. to_fits N.fits (option_map (next_of (range_end_of N.view)) t) ≡ true) }
    ensures only { (t : Option (Span × tree.RangeEnd N.Tree)) (rest : List tokens.Token) → to_fits N.fits t ≡ true →
        sees_word (codes "to") rest ≡ false → left cursor.old ≡ to_then N.spelled t rest →
        Reaches (option_map (next_of (range_end_of N.view))) t rest result (left cursor.new) }
    ensures shorter { TakesAny result (left cursor.old) (left cursor.new) }
{
    if !cursor.sees_word("to") {
        return Ok(None);
    }
    let to = cursor.keyword("to", Expected::Mark(b';'))?;
    Ok(Some((to, range_end(cursor)?)))
}

impl<'a, N: RangeBound> Production<'a> for Range<N> {
    ghost Tree = { tree.Range N.Tree };

    ghost view = { range_of N.view };

    ghost spelled = { range_then N.spelled };

    ghost fits = { λ _ r. range_fits N.fits r };

    ghost follows = { λ ts. not (sees_word (codes "to") ts) };

    fn read(
        _alloc: Global,
        cursor: &mut Cursor<'_, 'a>,
        _version: Version,
    ) -> Result<Range<N>, ReadError> {
        let from = N::read_bound(cursor)?;
        let to = range_to(cursor)?;
        Ok(Range { from, to })
    }
}

impl<'a> Production<'a> for Literal<'a> {
    ghost Tree = { tree.Literal };

    ghost view = { literal_of };

    ghost spelled = { literal_then };

    ghost fits = { λ _ l. is_text l };

    ghost follows = { λ _. true };

    fn read(
        _alloc: Global,
        cursor: &mut Cursor<'_, 'a>,
        _version: Version,
    ) -> Result<Literal<'a>, ReadError> {
        cursor.text(Expected::String)
    }
}

/// Extension ranges of a message.
pub fn extensions(alloc: Global, cursor: &mut Cursor<'_, '_>) -> Result<Extensions, ReadError>
    ensures found { IfOk result (λ e. left cursor.old ≡ extensions_then (extensions_of e) (left cursor.new)) }
    ensures fits { IfOk result (λ e. extensions_fit (extensions_of e) ≡ true) }
    ensures only { (e : tree.Extensions) (rest : List tokens.Token) → extensions_fit e ≡ true → left cursor.old ≡ extensions_then e rest →
        Reaches extensions_of e rest result (left cursor.new) }
    ensures shorter { TakesSome result (left cursor.old) (left cursor.new) }
{
    let keyword = cursor.keyword("extensions", Expected::Keyword)?;
    // Ranges are alike in all versions.
    let ranges = separated(alloc, cursor, Version::Proto3, b',')?;
    let end = cursor.mark_unless(b';', b'[', Expected::NoRangeOptions)?;
    Ok(Extensions {
        keyword,
        ranges,
        end,
    })
}

/// Ranges or names that are reserved.
pub fn reserved<'a, N: RangeBound>(
    alloc: Global,
    cursor: &mut Cursor<'_, 'a>,
) -> Result<Reserved<'a, N>, ReadError>
    ensures found { IfOk result (λ r. left cursor.old ≡ reserved_then N.spelled (reserved_of N.view r) (left cursor.new)) }
    ensures fits { IfOk result (λ r. reserved_fits N.fits (reserved_of N.view r) ≡ true) }
    ensures only { (r : tree.Reserved N.Tree) (rest : List tokens.Token) → reserved_fits N.fits r ≡ true →
        left cursor.old ≡ reserved_then N.spelled r rest → Reaches (reserved_of N.view) r rest result (left cursor.new) }
    ensures shorter { TakesSome result (left cursor.old) (left cursor.new) }
{
    let keyword = cursor.keyword("reserved", Expected::Keyword)?;
    // Ranges and names are alike in all versions.
    if N::begins(cursor) {
        let ranges = separated(alloc, cursor, Version::Proto3, b',')?;
        let end = cursor.mark(b';')?;
        return Ok(Reserved::Ranges(keyword, ranges, end));
    }
    let names = separated(alloc, cursor, Version::Proto3, b',')?;
    let end = cursor.mark(b';')?;
    Ok(Reserved::Names(keyword, names, end))
}
