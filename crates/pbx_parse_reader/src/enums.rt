//! Readers of enums.

ghost use Rattle.std.specs.Prelude.{◌≡◌, ◌<◌, List, length, true, OnOk, IfOk};
ghost use Rattle.pbx_parse_token.specs.Tokens as tokens;
ghost use Rattle.pbx_parse_tree.specs.Tree as tree;
ghost use Rattle.pbx_parse_tree.specs.Grammar.{value_then, enum_item_then, enum_then};
ghost use Rattle.pbx_parse_tree.specs.Conditions.{value_fits, enum_fits};
ghost use Rattle.pbx_parse_tree.specs.View.{value_of, enum_item_of, enum_of};
ghost use Rattle.pbx_parse_reader.specs.Blocks.{enum_behind, enum_after};
ghost use Rattle.pbx_parse_reader.specs.Firsts.{first_in_enum_of};
ghost use Rattle.pbx_parse_reader.specs.View.{left, ends_block, Reaches, TakesSome};

use crate::blocks::{BlockItem, Seen, add, closed_block};
use crate::cursor::Cursor;
use crate::error::ReadError;
use crate::parts::{block_head, settings, statement};
use crate::ranges::reserved;
use pbx_parse_tree::{Allowed, Enum, EnumItem, Expected, OptionPlace, Value, Version};
use std::alloc::Global;

/// A value of an enum.
fn value<'a>(alloc: Global, cursor: &mut Cursor<'_, 'a>) -> Result<Value<'a>, ReadError>
    ensures found { IfOk result (λ v. left cursor.old ≡ value_then (value_of v) (left cursor.new)) }
    ensures fits { IfOk result (λ v. value_fits (value_of v) ≡ true) }
    ensures only { (v : tree.Value) (rest : List tokens.Token) → value_fits v ≡ true → left cursor.old ≡ value_then v rest →
        Reaches value_of v rest result (left cursor.new) }
    ensures shorter { TakesSome result (left cursor.old) (left cursor.new) }
{
    let name = cursor.name()?;
    let equals = cursor.mark(b'=')?;
    let number = cursor.enum_number()?;
    let settings = settings(alloc, cursor, Allowed::Option(OptionPlace::EnumValue))?;
    let end = match cursor.mark(b';') {
        Ok(end) => end,
        Err(error) => {
            drop(settings);
            return Err(error);
        }
    };
    Ok(Value {
        name,
        equals,
        number,
        settings,
        end,
    })
}

/// What stands next in an enum.
#[derive(Clone, Copy)]
pub enum FirstInEnum {
    Empty,
    Reserved,
    Option,
    Value,
}

/// The sort of what is next, as its first word tells.
fn first_in_enum(cursor: &Cursor<'_, '_>) -> FirstInEnum
    ensures { result ≡ first_in_enum_of (left cursor.now) }
{
    if cursor.sees(b';') {
        FirstInEnum::Empty
    } else if cursor.sees_without("reserved", b'=') {
        FirstInEnum::Reserved
    } else if cursor.sees_without("option", b'=') {
        FirstInEnum::Option
    } else {
        FirstInEnum::Value
    }
}

impl<'a> BlockItem<'a> for EnumItem<'a> {
    ghost Tree = { tree.EnumItem };

    ghost view = { enum_item_of };

    ghost spelled = { enum_item_then };

    ghost behind = { λ _ b i. enum_behind b i };

    ghost after = { enum_after };

    ghost stop = { ends_block };

    #[tactic(auto, using(crate::proofs::Begin::enum_item_goes))]
    fn stops(cursor: &Cursor<'_, 'a>) -> bool {
        cursor.ends_block()
    }

    #[tactic(auto, using(crate::proofs::Begin::value_begins, crate::proofs::Begin::reserved_goes))]
    fn read_behind(
        alloc: Global,
        cursor: &mut Cursor<'_, 'a>,
        _version: Version,
        seen: &Seen<'a>,
    ) -> Result<EnumItem<'a>, ReadError> {
        match first_in_enum(cursor) {
            FirstInEnum::Empty => match cursor.mark(b';') {
                Ok(part) => Ok(EnumItem::Empty(part)),
                Err(error) => Err(error),
            },
            FirstInEnum::Reserved => match reserved(alloc, cursor) {
                Ok(part) => Ok(EnumItem::Reserved(part)),
                Err(error) => Err(error),
            },
            FirstInEnum::Option => match statement(
                cursor,
                Expected::Keyword,
                OptionPlace::Enum,
                seen.settings.as_slice(),
            ) {
                Ok(part) => Ok(EnumItem::Option(part)),
                Err(error) => Err(error),
            },
            FirstInEnum::Value => match value(alloc, cursor) {
                Ok(part) => Ok(EnumItem::Value(part)),
                Err(error) => Err(error),
            },
        }
    }

    fn note(&self, seen: &mut Seen<'a>) -> Result<(), ReadError> {
        match self {
            EnumItem::Option(statement) => add(&mut seen.settings, statement.setting),
            _ => Ok(()),
        }
    }
}

/// An enum.
#[tactic(auto, using(crate::proofs::Judged::enum_judged, crate::proofs::Judged::enum_from))]
pub fn enumeration<'a>(
    alloc: Global,
    cursor: &mut Cursor<'_, 'a>,
    version: Version,
) -> Result<Enum<'a>, ReadError>
    ensures found { IfOk result (λ e. left cursor.old ≡ enum_then (enum_of e) (left cursor.new)) }
    ensures fits { IfOk result (λ e. enum_fits (enum_of e) ≡ true) }
    ensures only { (e : tree.Enum) (rest : List tokens.Token) → enum_fits e ≡ true → left cursor.old ≡ enum_then e rest →
        Reaches enum_of e rest result (left cursor.new) }
    ensures shorter { TakesSome result (left cursor.old) (left cursor.new) }
{
    let head = block_head(cursor, "enum")?;
    let (items, close) = closed_block(alloc, cursor, version)?;
    Ok(Enum {
        keyword: head.keyword,
        name: head.name,
        open: head.open,
        items,
        close,
    })
}
