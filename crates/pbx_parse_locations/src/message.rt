//! Messages, with what they hold.

ghost use Rattle.std.specs.Prelude.{◌≡◌, ◌++◌, pos, IfOk, OnOk};
ghost use Rattle.pbx_parse_tree.specs.View.{item_of, body_of};
ghost use Rattle.pbx_parse_locations.specs.Locations.{field_at, enum_at, oneof_at, item_fields, item_enums, item_extensions, item_oneofs, of_items, numbered, Adds, nested_from, message_locations};
ghost use Rattle.pbx_parse_locations.specs.BodyItems.{of_body_item};

use crate::block::{Block, Nested, nested_message};
use crate::enumeration::add_enum;
use crate::field::{add_extensions, add_labelled, add_map, add_members};
use crate::place::{add_block, element, next};
use crate::tag;
use pbx_desc_records::Location;
use pbx_parse_tree::Item;
use pbx_wire::{List, NoMemory};
use std::alloc::Global;

/// Adds the fields of an item, the first of them at `first`, and answers the index behind the last.
fn add_item_fields(
    alloc: Global,
    out: &mut List<Location>,
    path: &List<i32>,
    first: u32,
    item: &Item<'_>,
) -> Result<u32, NoMemory>
    ensures { IfOk result (λ next. Adds (field_at path.now 2) (of_body_item item_fields (item_of item.now)) first next out.old out.new) }
{
    match item {
        Item::Field(field) => {
            let path = element(alloc, path, tag::message::FIELD, first)?;
            add_labelled(alloc, out, &path, field)?;
            next(first)
        }
        Item::Map(map) => {
            let path = element(alloc, path, tag::message::FIELD, first)?;
            add_map(alloc, out, &path, map)?;
            next(first)
        }
        Item::Oneof(oneof) => add_members(alloc, out, path, first, oneof.members.as_slice()),
        _ => Ok(first),
    }
}

fn add_fields(
    alloc: Global,
    out: &mut List<Location>,
    path: &List<i32>,
    items: &[Item<'_>],
) -> Result<(), NoMemory>
    ensures { OnOk result (out.new ≡ out.old ++ numbered (field_at path.now 2) 0 (of_items item_fields (body_of items.now))) }
{
    let mut index = 0;
    'each: for item in items {
        index = add_item_fields(alloc, out, path, index, item)?;
    }
    Ok(())
}

fn add_enums(
    alloc: Global,
    out: &mut List<Location>,
    path: &List<i32>,
    items: &[Item<'_>],
) -> Result<(), NoMemory>
    ensures { OnOk result (out.new ≡ out.old ++ numbered (enum_at path.now 4) 0 (of_items item_enums (body_of items.now))) }
{
    let mut index = 0;
    'each: for item in items {
        if let Item::Enum(item) = item {
            let path = element(alloc, path, tag::message::ENUM_TYPE, index)?;
            add_enum(alloc, out, &path, item)?;
            index = next(index)?;
        }
    }
    Ok(())
}

fn add_extension_blocks(
    alloc: Global,
    out: &mut List<Location>,
    path: &List<i32>,
    items: &[Item<'_>],
) -> Result<(), NoMemory>
    ensures { OnOk result (out.new ≡ out.old ++ numbered (field_at path.now 6) 0 (of_items item_extensions (body_of items.now))) }
{
    let mut index = 0;
    'each: for item in items {
        if let Item::Extend(extend) = item {
            let extensions = extend.extensions.as_slice();
            index = add_extensions(alloc, out, path, tag::message::EXTENSION, index, extensions)?;
        }
    }
    Ok(())
}

fn add_oneofs(
    alloc: Global,
    out: &mut List<Location>,
    path: &List<i32>,
    items: &[Item<'_>],
) -> Result<(), NoMemory>
    ensures { OnOk result (out.new ≡ out.old ++ numbered (oneof_at path.now) 0 (of_items item_oneofs (body_of items.now))) }
{
    let mut index = 0;
    'each: for item in items {
        if let Item::Oneof(oneof) = item {
            let path = element(alloc, path, tag::message::ONEOF_DECL, index)?;
            add_block(
                alloc,
                out,
                &path,
                oneof.keyword,
                oneof.name.span,
                oneof.close,
            )?;
            index = next(index)?;
        }
    }
    Ok(())
}

/// Adds the messages in a message. A map field is a nested message too, its entry, which has no location.
#[cycle(message)]
fn add_nested(
    alloc: Global,
    out: &mut List<Location>,
    path: &List<i32>,
    items: &[Item<'_>],
) -> Result<(), NoMemory>
    ensures { OnOk result (out.new ≡ out.old ++ nested_from path.now 0 (body_of items.now)) }
{
    let mut index = 0;
    'each: for item in items {
        match nested_message(item) {
            Nested::Message(block) => {
                let path = element(alloc, path, tag::message::NESTED_TYPE, index)?;
                add_message(alloc, out, &path, block)?;
                index = next(index)?;
            }
            Nested::Entry => index = next(index)?,
            Nested::None => {}
        }
    }
    Ok(())
}

/// Adds a message, its name and what it holds.
#[cycle(message)]
pub fn add_message(
    alloc: Global,
    out: &mut List<Location>,
    path: &List<i32>,
    block: Block<'_, '_>,
) -> Result<(), NoMemory>
    ensures { OnOk result (out.new ≡ out.old ++ message_locations path.now block.entry.keyword block.entry.name (body_of block.entry.items.now) block.entry.close) }
{
    add_block(alloc, out, path, block.keyword, block.name, block.close)?;
    add_fields(alloc, out, path, block.items)?;
    add_nested(alloc, out, path, block.items)?;
    add_enums(alloc, out, path, block.items)?;
    add_extension_blocks(alloc, out, path, block.items)?;
    add_oneofs(alloc, out, path, block.items)
}
