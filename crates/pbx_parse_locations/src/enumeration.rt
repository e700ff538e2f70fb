//! Enums and their values.

ghost use Rattle.std.specs.Prelude.{◌≡◌, ◌++◌, map, OnOk};
ghost use Rattle.std.specs.List.{flat_map};
ghost use Rattle.pbx_parse_tree.specs.View.{value_of, enum_item_of, enum_of};
ghost use Rattle.pbx_parse_locations.specs.Locations.{value_locations, value_at, item_values, numbered, enum_locations};

use crate::field::add_settings;
use crate::place::{add, add_block, add_part, add_token, element, next};
use crate::tag;
use pbx_desc_records::Location;
use pbx_parse_tree::{Enum, EnumItem, Value};
use pbx_wire::{List, NoMemory};
use std::alloc::Global;

/// Adds a value and its parts.
fn add_value(
    alloc: Global,
    out: &mut List<Location>,
    path: &List<i32>,
    value: &Value<'_>,
) -> Result<(), NoMemory>
    ensures { OnOk result (out.new ≡ out.old ++ value_locations path.now (value_of value.now)) }
{
    let number = value.number;
    let start = number.minus.unwrap_or(number.span);
    add(alloc, out, path, value.name.span, value.end)?;
    add_token(alloc, out, path, tag::NAME, value.name.span)?;
    add_part(alloc, out, path, tag::value::NUMBER, start, number.span)?;
    add_settings(alloc, out, path, tag::value::OPTIONS, &value.settings)
}

fn add_values(
    alloc: Global,
    out: &mut List<Location>,
    path: &List<i32>,
    items: &[EnumItem<'_>],
) -> Result<(), NoMemory>
    ensures { OnOk result (out.new ≡ out.old ++ numbered (value_at path.now) 0 (flat_map item_values (map enum_item_of items.now))) }
{
    let mut index = 0;
    'each: for item in items {
        if let EnumItem::Value(value) = item {
            let path = element(alloc, path, tag::enumeration::VALUE, index)?;
            add_value(alloc, out, &path, value)?;
            index = next(index)?;
        }
    }
    Ok(())
}

/// Adds an enum, its name and its values.
pub fn add_enum(
    alloc: Global,
    out: &mut List<Location>,
    path: &List<i32>,
    item: &Enum<'_>,
) -> Result<(), NoMemory>
    ensures { OnOk result (out.new ≡ out.old ++ enum_locations path.now (enum_of item.now)) }
{
    add_block(alloc, out, path, item.keyword, item.name.span, item.close)?;
    add_values(alloc, out, path, item.items.as_slice())
}
