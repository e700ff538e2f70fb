//! Records of enums.

ghost use Rattle.std.specs.Prelude.{◌≡◌, Some, map, pos, IfOk, OnOk};
ghost use Rattle.std.specs.List.{flat_map, filter_map};
ghost use Rattle.pbx_parse_tree.specs.declared.options.OptionPlace.TheVariants as places;
ghost use Rattle.pbx_parse_tree.specs.Conditions.{enum_setting};
ghost use Rattle.pbx_parse_tree.specs.View.{literal_of, range_of, enum_number_of, value_of, enum_item_of, enum_of};
ghost use Rattle.pbx_parse_translation.specs.Texts.{string_text as string_text_of};
ghost use Rattle.pbx_parse_translation.specs.Settings.{options_of};
ghost use Rattle.pbx_parse_translation.specs.Enums.{last_number as last_number_of, value_record as value_record_of, enum_value_records, enum_range};
ghost use Rattle.pbx_parse_translation.specs.Enums.{range_records, reserved_names_in, enum_record as enum_record_of};

use crate::passes::{Becomes, Gives, add_each, all_given, put};
use crate::settings::{listed_options, options};
use crate::texts::{signed, some_text, string_text};
use pbx_desc_records::{EnumDescriptorProto, EnumReservedRange, EnumValueDescriptorProto, Options};
use pbx_parse_tree::{
    Enum, EnumItem, EnumNumber, Literal, OptionPlace, Range, RangeEnd, Reserved, Value, Version,
    enum_settings,
};
use pbx_wire::{List, NoMemory, Recs, Text};
use std::alloc::Global;

#[tactic(auto, unfolding(crate::specs::Enums::value_record))]
fn value_record(alloc: Global, value: &Value<'_>) -> Result<EnumValueDescriptorProto, NoMemory>
    ensures { IfOk result (λ it. it ≡ value_record_of (value_of value.now)) }
{
    Ok(EnumValueDescriptorProto {
        name: Some(Text::from_str(alloc, value.name.text)?),
        number: Some(signed(&value.number)),
        options: listed_options(alloc, OptionPlace::EnumValue, &value.settings)?,
        unknown: Recs::new(alloc),
    })
}

impl Gives<EnumValueDescriptorProto> for EnumItem<'_> {
    ghost given = { λ version item. enum_value_records (enum_item_of item) };

    fn give(
        &self,
        alloc: Global,
        _version: Version,
        records: &mut List<EnumValueDescriptorProto>,
    ) -> Result<(), NoMemory> {
        match self {
            EnumItem::Value(value) => records.add(value_record(alloc, value)?),
            _ => Ok(()),
        }
    }
}

/// The last number of a range.
fn last_number(range: &Range<EnumNumber>) -> i32
    ensures { result ≡ last_number_of (range_of enum_number_of range.now).from (range_of enum_number_of range.now).to }
{
    match &range.to {
        None => signed(&range.from),
        Some((_, RangeEnd::Number(number))) => signed(number),
        Some((_, RangeEnd::Max(_))) => i32::MAX,
    }
}

#[tactic(auto, unfolding(crate::specs::Enums::enum_range))]
impl Becomes<EnumReservedRange> for Range<EnumNumber> {
    ghost record_of = { λ range. enum_range (range_of enum_number_of range) };

    fn record(&self, alloc: Global) -> Result<EnumReservedRange, NoMemory> {
        let mut record = EnumReservedRange::new(alloc);
        record.start = Some(signed(&self.from));
        record.end = Some(last_number(self));
        Ok(record)
    }
}

impl Gives<EnumReservedRange> for EnumItem<'_> {
    ghost given = { λ version item. range_records (enum_item_of item) };

    fn give(
        &self,
        alloc: Global,
        _version: Version,
        records: &mut List<EnumReservedRange>,
    ) -> Result<(), NoMemory> {
        match self {
            EnumItem::Reserved(Reserved::Ranges(_, ranges, _)) => add_each(alloc, ranges, records),
            _ => Ok(()),
        }
    }
}

impl Becomes<Text> for Literal<'_> {
    ghost record_of = { λ literal. string_text_of (literal_of literal) };

    fn record(&self, alloc: Global) -> Result<Text, NoMemory> {
        string_text(alloc, self)
    }
}

impl Gives<Text> for EnumItem<'_> {
    ghost given = { λ version item. reserved_names_in (enum_item_of item) };

    fn give(
        &self,
        alloc: Global,
        _version: Version,
        records: &mut List<Text>,
    ) -> Result<(), NoMemory> {
        match self {
            EnumItem::Reserved(Reserved::Names(_, names, _)) => add_each(alloc, names, records),
            _ => Ok(()),
        }
    }
}

/// The options record of an enum.
fn enum_options(alloc: Global, items: &[EnumItem<'_>]) -> Result<Option<Options>, NoMemory>
    ensures { IfOk result (λ set. set ≡ options_of places.Enum (filter_map enum_setting (map enum_item_of items.now))) }
{
    let settings = enum_settings(alloc, items)?;
    options(alloc, OptionPlace::Enum, settings.as_slice())
}

/// Fills all but what no source gives.
fn fill(
    alloc: Global,
    version: Version,
    name: &str,
    items: &[EnumItem<'_>],
    parts: &mut EnumDescriptorProto,
) -> Result<(), NoMemory>
    ensures { OnOk result (parts.new ≡ record parts.old {
      name = Some name.now;
      value = flat_map (λ i. enum_value_records (enum_item_of i)) items.now;
      options = options_of places.Enum (filter_map enum_setting (map enum_item_of items.now));
      reserved_range = flat_map (λ i. range_records (enum_item_of i)) items.now;
      reserved_name = flat_map (λ i. reserved_names_in (enum_item_of i)) items.now;
    }) }
{
    put(&mut parts.name, some_text(alloc, name))?;
    put(&mut parts.value, all_given(alloc, version, items))?;
    put(&mut parts.options, enum_options(alloc, items))?;
    put(&mut parts.reserved_range, all_given(alloc, version, items))?;
    put(&mut parts.reserved_name, all_given(alloc, version, items))
}

/// The record of an enum.
#[tactic(auto, unfolding(crate::specs::Enums::enum_record))]
pub(crate) fn enum_record(
    alloc: Global,
    version: Version,
    item: &Enum<'_>,
) -> Result<EnumDescriptorProto, NoMemory>
    ensures { IfOk result (λ it. it ≡ enum_record_of (enum_of item.now)) }
{
    let items = item.items.as_slice();
    let mut parts = EnumDescriptorProto::new(alloc);
    match fill(alloc, version, item.name.text, items, &mut parts) {
        Ok(()) => Ok(parts),
        Err(error) => {
            drop(parts);
            Err(error)
        }
    }
}
