//! Messages as what their locations are made of.

ghost use Rattle.std.specs.Prelude.{MatchOption};
ghost use Rattle.pbx_parse_tree.specs.View.{item_of, top_of};
ghost use Rattle.pbx_parse_locations.specs.Blocks.{IsNested, HasNone, IsMessage};

use pbx_parse_token::Span;
use pbx_parse_tree::{Item, Top};

/// A message from its keyword to its `}`.
#[derive(Clone, Copy)]
pub struct Block<'a, 's> {
    pub keyword: Span,
    /// Where its name stands.
    pub name: Span,
    pub items: &'a [Item<'s>],
    pub close: Span,
}

/// The nested message that is made of an item.
#[derive(Clone, Copy)]
pub enum Nested<'a, 's> {
    Message(Block<'a, 's>),
    /// The entry of a map field, which has no location.
    Entry,
    None,
}

/// The nested message that is made of the item.
pub fn nested_message<'a, 's>(item: &'a Item<'s>) -> Nested<'a, 's>
    ensures { IsNested (item_of item.now) result }
{
    match item {
        Item::Message(head, items, close) => Nested::Message(Block {
            keyword: head.keyword,
            name: head.name.span,
            items: items.as_slice(),
            close: *close,
        }),
        Item::Map(_) => Nested::Entry,
        _ => Nested::None,
    }
}

/// What stands at the top of a file, if it is a message.
pub fn top_message<'a, 's>(top: &'a Top<'s>) -> Option<Block<'a, 's>>
    ensures { MatchOption result (HasNone (top_of top.now)) (IsMessage (top_of top.now)) }
{
    match top {
        Top::Message(message) => Some(Block {
            keyword: message.head.keyword,
            name: message.head.name.span,
            items: message.items.as_slice(),
            close: message.close,
        }),
        _ => None,
    }
}
