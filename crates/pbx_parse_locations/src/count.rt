//! How many locations a file has, so that room for them is made once: there are many, and a list that grows leaves holes
//! where it was. No clause says the number, since a list grows where it has too little room.

ghost use Rattle.std.specs.Prelude.{◌≤◌};

use pbx_parse_token::Span;
use pbx_parse_tree::{
    Enum, EnumItem, Extension, File, Item, Label, Member, Service, ServiceItem, Tail, Top,
};

/// What has a keyword, a name and a block has its own and that of its name.
const BLOCK: usize = 2;

/// A method has its own, and those of its name, its input and its output.
const METHOD: usize = 4;

/// What is there has one.
fn of_option<T>(option: &Option<T>) -> usize
    ensures { result ≤ 1 }
{
    match option {
        Some(_) => 1,
        None => 0,
    }
}

/// A field has its own, those of its name, number and type, and those of its label and options, if it has some.
fn of_field(label: &Option<(Label, Span)>, tail: &Tail<'_>) -> usize {
    4 + of_option(label) + of_option(&tail.settings)
}

fn of_members(members: &[Member<'_>]) -> usize {
    let mut count: usize = 0;
    for member in members {
        if let Member::Field(_, tail) = member {
            count = count.saturating_add(of_field(&None, tail));
        }
    }
    count
}

fn of_extensions(extensions: &[Extension<'_>]) -> usize {
    let mut count: usize = 0;
    for extension in extensions {
        if let Extension::Field(field) = extension {
            count = count.saturating_add(of_field(&field.label, &field.tail));
        }
    }
    count
}

/// A value has its own, those of its name and number, and that of its options, if it has some.
fn of_enum(item: &Enum<'_>) -> usize {
    let mut count = BLOCK;
    for item in &item.items {
        if let EnumItem::Value(value) = item {
            count = count.saturating_add(3 + of_option(&value.settings));
        }
    }
    count
}

fn of_service(service: &Service<'_>) -> usize {
    let mut count = BLOCK;
    for item in &service.items {
        if let ServiceItem::Method(_) = item {
            count = count.saturating_add(METHOD);
        }
    }
    count
}

#[cycle(count)]
fn of_item(item: &Item<'_>) -> usize {
    match item {
        Item::Field(field) => of_field(&field.label, &field.tail),
        Item::Map(map) => of_field(&None, &map.tail),
        Item::Oneof(oneof) => of_members(oneof.members.as_slice()).saturating_add(BLOCK),
        Item::Message(_, items, _) => of_items(items.as_slice()).saturating_add(BLOCK),
        Item::Enum(item) => of_enum(item),
        Item::Extend(extend) => of_extensions(extend.extensions.as_slice()),
        _ => 0,
    }
}

#[cycle(count)]
fn of_items(items: &[Item<'_>]) -> usize {
    let mut count: usize = 0;
    for item in items {
        count = count.saturating_add(of_item(item));
    }
    count
}

fn of_top(top: &Top<'_>) -> usize {
    match top {
        Top::Package(_) | Top::Import(_) => 1,
        Top::Message(message) => of_items(message.items.as_slice()).saturating_add(BLOCK),
        Top::Enum(item) => of_enum(item),
        Top::Extend(extend) => of_extensions(extend.extensions.as_slice()),
        Top::Service(service) => of_service(service),
        _ => 0,
    }
}

/// The file has its own, and one for its syntax statement, if it has one.
pub fn location_count(file: &File<'_>) -> usize {
    let mut count = 1 + of_option(&file.syntax);
    for top in &file.tops {
        count = count.saturating_add(of_top(top));
    }
    count
}
