//! Readers of messages, and of messages in messages.

ghost use Rattle.std.specs.Prelude.{◌≡◌, ◌∷◌, ◌++◌, [], ℕ, ◌<◌, ◌≤◌, List, option_map, length, map, true, false, OnOk, IfOk, IfErr, codes};
ghost use Rattle.pbx_parse_token.specs.Tokens as tokens;
ghost use Rattle.pbx_parse_token.specs.declared.token.Span.{Span};
ghost use Rattle.pbx_parse_tree.specs.Tree as tree;
ghost use Rattle.pbx_parse_tree.specs.Grammar.{head_then, item_then, body_then, top_then};
ghost use Rattle.pbx_parse_tree.specs.View.{head_of, setting_of, BodyItem, plain, nested, item_of, body_of, body_item_setting, message_of};
ghost use Rattle.pbx_parse_reader.specs.Blocks.{settings_after, item_behind};
ghost use Rattle.pbx_parse_reader.specs.Bodies.{body_item_then, body_item_behind, message_fits};
ghost use Rattle.pbx_parse_reader.specs.Items.{first_of};
ghost use Rattle.pbx_parse_reader.specs.View.{left, sees_word, ends_block, FailsNot, Reaches, TakesSome, TakesAny};

use crate::blocks::add;
use crate::cursor::Cursor;
use crate::enums::enumeration;
use crate::error::ReadError;
use crate::fields::{extend, field, map_field, oneof};
use crate::parts::statement;
use crate::ranges::{extensions, reserved};
use pbx_parse_token::Word;
use pbx_parse_tree::{Expected, Head, Item, Message, OptionPlace, Setting, Version};
use std::alloc::Global;

fn head<'a>(cursor: &mut Cursor<'_, 'a>) -> Result<Head<'a>, ReadError>
    ensures found { IfOk result (λ h. left cursor.old ≡ head_then (head_of h) (left cursor.new)) }
    ensures only { (h : tree.Head) (rest : List tokens.Token) → left cursor.old ≡ head_then h rest → Reaches head_of h rest result (left cursor.new) }
    ensures shorter { TakesSome result (left cursor.old) (left cursor.new) }
{
    let keyword = cursor.keyword("message", Expected::Keyword)?;
    let name = cursor.name()?;
    let open = cursor.mark(b'{')?;
    Ok(Head {
        keyword,
        name,
        open,
    })
}

/// What the next item of a message is, where it is no message.
#[derive(Clone, Copy)]
pub enum First {
    Empty,
    Map,
    Oneof,
    Enum,
    Extend,
    Extensions,
    Reserved,
    Option,
    Field,
}

/// The sort of the next item, as its first word tells.
pub fn first_item(cursor: &Cursor<'_, '_>) -> First
    ensures { result ≡ first_of (left cursor.now) }
{
    let Some(token) = cursor.peek() else {
        return First::Field;
    };
    match token.word {
        Word::Mark(b';') => First::Empty,
        Word::Ident(text) => match text {
            "oneof" => First::Oneof,
            "enum" => First::Enum,
            "extend" => First::Extend,
            "extensions" => First::Extensions,
            "reserved" => First::Reserved,
            "option" => First::Option,
            _ if cursor.sees_both("map", b'<') => First::Map,
            _ => First::Field,
        },
        _ => First::Field,
    }
}

/// What stands in a message and is no message itself. Its first word decides what it is.
fn plain_item<'a>(
    alloc: Global,
    cursor: &mut Cursor<'_, 'a>,
    version: Version,
    seen: &[Setting<'a>],
) -> Result<Item<'a>, ReadError>
    requires { sees_word (codes "message") (left cursor.old) ≡ false }
    ensures found { IfOk result (λ i. left cursor.old ≡ body_item_then (item_of i) (left cursor.new)) }
    ensures fits { IfOk result (λ i. (levels : ℕ) → body_item_behind version levels (map setting_of seen.now) (item_of i) ≡ true) }
    ensures only { (i : tree.Item) (rest : List tokens.Token) → item_behind version (map setting_of seen.now) i ≡ true →
        left cursor.old ≡ item_then i rest → Reaches item_of (plain i) rest result (left cursor.new) }
    ensures shorter { TakesSome result (left cursor.old) (left cursor.new) }
{
    match first_item(cursor) {
        First::Empty => match cursor.mark(b';') {
            Ok(part) => Ok(Item::Empty(part)),
            Err(error) => Err(error),
        },
        First::Map => match map_field(alloc, cursor) {
            Ok(part) => Ok(Item::Map(part)),
            Err(error) => Err(error),
        },
        First::Oneof => match oneof(alloc, cursor, version) {
            Ok(part) => Ok(Item::Oneof(part)),
            Err(error) => Err(error),
        },
        First::Enum => match enumeration(alloc, cursor, version) {
            Ok(part) => Ok(Item::Enum(part)),
            Err(error) => Err(error),
        },
        First::Extend => match extend(alloc, cursor, version) {
            Ok(part) => Ok(Item::Extend(part)),
            Err(error) => Err(error),
        },
        First::Extensions => match extensions(alloc, cursor) {
            Ok(part) => Ok(Item::Extensions(part)),
            Err(error) => Err(error),
        },
        First::Reserved => match reserved(alloc, cursor) {
            Ok(part) => Ok(Item::Reserved(part)),
            Err(error) => Err(error),
        },
        First::Option => match statement(cursor, Expected::Keyword, OptionPlace::Message, seen) {
            Ok(part) => Ok(Item::Option(part)),
            Err(error) => Err(error),
        },
        First::Field => match field(alloc, cursor, version) {
            Ok(part) => Ok(Item::Field(part)),
            Err(error) => Err(error),
        },
    }
}

/// What the item sets, if it is an option statement.
fn set_by<'a>(item: &Item<'a>) -> Option<Setting<'a>>
    ensures { option_map setting_of result ≡ body_item_setting (item_of item.now) }
{
    match item {
        Item::Option(statement) => Some(statement.setting),
        _ => None,
    }
}

/// Adds it at the end, and what it sets to what was seen.
fn add_item<'a>(
    items: &mut Vec<Item<'a>>,
    seen: &mut Vec<Setting<'a>>,
    item: Item<'a>,
) -> Result<(), ReadError>
    ensures item { OnOk result (items.new.items ≡ items.old.items ++ item.entry ∷ []) }
    ensures seen { OnOk result (map setting_of seen.new.items ≡ settings_after (map setting_of seen.old.items) (body_item_setting (item_of item.entry))) }
    ensures err { IfErr result (λ e. FailsNot e) }
{
    let set = set_by(&item);
    if let Err(error) = add(items, item) {
        return Err(error);
    }
    match set {
        Some(setting) => add(seen, setting),
        None => Ok(()),
    }
}

/// What stands in a message, in which messages nest at most so many levels.
#[cycle(body)]
fn one_item<'a>(
    alloc: Global,
    cursor: &mut Cursor<'_, 'a>,
    version: Version,
    levels: u32,
    seen: &[Setting<'a>],
) -> Result<Item<'a>, ReadError>
    ensures found { IfOk result (λ i. left cursor.old ≡ body_item_then (item_of i) (left cursor.new)) }
    ensures fits { IfOk result (λ i. body_item_behind version levels (map setting_of seen.now) (item_of i) ≡ true) }
    ensures only { (p : BodyItem) (rest : List tokens.Token) → body_item_behind version levels (map setting_of seen.now) p ≡ true →
        left cursor.old ≡ body_item_then p rest → Reaches item_of p rest result (left cursor.new) }
    ensures shorter { TakesSome result (left cursor.old) (left cursor.new) }
{
    if !cursor.sees_word("message") {
        return plain_item(alloc, cursor, version, seen);
    }
    if levels == 0 {
        return Err(cursor.unexpected(Expected::Level));
    }
    match message(alloc, cursor, version, levels - 1) {
        Ok(message) => Ok(Item::Message(message.head, message.items, message.close)),
        Err(error) => Err(error),
    }
}

#[cycle(body)]
fn items<'a>(
    alloc: Global,
    cursor: &mut Cursor<'_, 'a>,
    version: Version,
    levels: u32,
) -> Result<Vec<Item<'a>>, ReadError>
    ensures found { IfOk result (λ x. left cursor.old ≡ body_then (body_of x.items) (left cursor.new)) }
    ensures fits { IfOk result (λ x. message_fits version levels (body_of x.items) ≡ true) }
    ensures only { (b : tree.Body) (rest : List tokens.Token) → message_fits version levels b ≡ true → ends_block rest ≡ true →
        left cursor.old ≡ body_then b rest → Reaches (λ x. body_of x.items) b rest result (left cursor.new) }
    ensures shorter { TakesAny result (left cursor.old) (left cursor.new) }
{
    let mut items = Vec::new(alloc);
    let mut seen = Vec::new(alloc);
    'each: while !cursor.ends_block() {
        let item = one_item(alloc, cursor, version, levels, seen.as_slice())?;
        add_item(&mut items, &mut seen, item)?;
    }
    items.shrink_to_fit();
    Ok(items)
}

/// A message, in which messages nest at most so many levels.
#[cycle(body)]
pub fn message<'a>(
    alloc: Global,
    cursor: &mut Cursor<'_, 'a>,
    version: Version,
    levels: u32,
) -> Result<Message<'a>, ReadError>
    ensures found { IfOk result (λ m. left cursor.old ≡ top_then (message_of m) (left cursor.new)) }
    ensures fits { IfOk result (λ m. message_fits version levels (body_of m.items.items) ≡ true) }
    ensures only { (h : tree.Head) (b : tree.Body) (close : Span) (rest : List tokens.Token) → message_fits version levels b ≡ true →
        left cursor.old ≡ top_then (tree.top_message h b close) rest → Reaches message_of (tree.top_message h b close) rest result (left cursor.new) }
    ensures shorter { TakesSome result (left cursor.old) (left cursor.new) }
{
    let head = head(cursor)?;
    let items = items(alloc, cursor, version, levels)?;
    let close = cursor.mark(b'}')?;
    Ok(Message { head, items, close })
}
