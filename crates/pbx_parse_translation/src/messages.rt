//! Records of messages.

ghost use Rattle.std.specs.Prelude.{◌≡◌, ◌+◌, ◌++◌, ◌∷◌, [], pos, length, map, IfOk, OnOk};
ghost use Rattle.std.specs.List.{flat_map};
ghost use Rattle.pbx_parse_tree.specs.declared.options.OptionPlace.TheVariants as places;
ghost use Rattle.pbx_parse_tree.specs.Conditions.{body_settings};
ghost use Rattle.pbx_parse_tree.specs.View.{range_of, range_number_of, reserved_of, map_of, item_of, body_of};
ghost use Rattle.pbx_parse_translation.specs.Settings.{options_of};
ghost use Rattle.pbx_parse_translation.specs.Fields.{entry_record as entry_record_of};
ghost use Rattle.pbx_parse_translation.specs.Enums.{names_reserved};
ghost use Rattle.pbx_parse_translation.specs.Messages.{last_number as last_number_of, reserved_range, extension_range, ranges_reserved};
ghost use Rattle.pbx_parse_translation.specs.Messages.{reserved_ranges_in, reserved_names_in, extension_ranges_in, enums_in, extensions_in};
ghost use Rattle.pbx_parse_translation.specs.Messages.{oneofs_in as oneofs_in_of, optional_names_in, fields_in, fields_from, fields_of};
ghost use Rattle.pbx_parse_translation.specs.Messages.{oneof_records, body_items, message_with as message_with_of, nested_types as nested_types_of};

use crate::enums::enum_record;
use crate::fields::{
    add_extensions, add_members, entry_record, field_record, is_proto3_optional, map_record,
};
use crate::passes::{Becomes, Gives, add_each, all_given, put};
use crate::settings::options;
use crate::synthetic::{add_synthetic_oneofs, oneof_record};
use pbx_desc_records::{
    DescriptorProto, EnumDescriptorProto, ExtensionRange, FieldDescriptorProto,
    OneofDescriptorProto, Options, ReservedRange,
};
use pbx_parse_tree::{
    Item, MapField, OptionPlace, Range, RangeEnd, RangeNumber, Reserved, Version, message_settings,
};
use pbx_wire::{List, NoMemory, Recs, Text, Texts};
use std::alloc::Global;

/// The greatest number of a field.
const GREATEST: i32 = 536870911;

/// The number behind the last of a range.
fn range_end(range: &Range<RangeNumber>) -> i32
    ensures { result ≡ pos (last_number_of (range_of range_number_of range.now).from (range_of range_number_of range.now).to + 1) }
{
    match &range.to {
        None => range.from.value as i32 + 1,
        Some((_, RangeEnd::Number(number))) => number.value as i32 + 1,
        Some((_, RangeEnd::Max(_))) => GREATEST + 1,
    }
}

#[tactic(auto, unfolding(crate::specs::Messages::reserved_range))]
impl Becomes<ReservedRange> for Range<RangeNumber> {
    ghost record_of = { λ range. reserved_range (range_of range_number_of range) };

    fn record(&self, alloc: Global) -> Result<ReservedRange, NoMemory> {
        let mut record = ReservedRange::new(alloc);
        record.start = Some(self.from.value as i32);
        record.end = Some(range_end(self));
        Ok(record)
    }
}

#[tactic(auto, unfolding(crate::specs::Messages::extension_range))]
impl Becomes<ExtensionRange> for Range<RangeNumber> {
    ghost record_of = { λ range. extension_range (range_of range_number_of range) };

    fn record(&self, alloc: Global) -> Result<ExtensionRange, NoMemory> {
        let mut record = ExtensionRange::new(alloc);
        record.start = Some(self.from.value as i32);
        record.end = Some(range_end(self));
        Ok(record)
    }
}

/// Adds the ranges of numbers that the statement reserves.
fn add_reserved_ranges(
    alloc: Global,
    reserved: &Reserved<'_, RangeNumber>,
    records: &mut List<ReservedRange>,
) -> Result<(), NoMemory>
    ensures { OnOk result (records.new ≡ records.old ++ ranges_reserved (reserved_of range_number_of reserved.now)) }
{
    match reserved {
        Reserved::Ranges(_, ranges, _) => add_each(alloc, ranges, records),
        Reserved::Names(_, _, _) => Ok(()),
    }
}

/// Adds the names that the statement reserves.
fn add_reserved_names(
    alloc: Global,
    reserved: &Reserved<'_, RangeNumber>,
    records: &mut List<Text>,
) -> Result<(), NoMemory>
    ensures { OnOk result (records.new ≡ records.old ++ names_reserved (reserved_of range_number_of reserved.now)) }
{
    match reserved {
        Reserved::Ranges(_, _, _) => Ok(()),
        Reserved::Names(_, names, _) => add_each(alloc, names, records),
    }
}

impl Gives<ReservedRange> for Item<'_> {
    ghost given = { λ version item. reserved_ranges_in (item_of item) };

    fn give(
        &self,
        alloc: Global,
        _version: Version,
        records: &mut List<ReservedRange>,
    ) -> Result<(), NoMemory> {
        match self {
            Item::Reserved(reserved) => add_reserved_ranges(alloc, reserved, records),
            _ => Ok(()),
        }
    }
}

impl Gives<Text> for Item<'_> {
    ghost given = { λ version item. reserved_names_in (item_of item) };

    fn give(
        &self,
        alloc: Global,
        _version: Version,
        records: &mut List<Text>,
    ) -> Result<(), NoMemory> {
        match self {
            Item::Reserved(reserved) => add_reserved_names(alloc, reserved, records),
            _ => Ok(()),
        }
    }
}

impl Gives<ExtensionRange> for Item<'_> {
    ghost given = { λ version item. extension_ranges_in (item_of item) };

    fn give(
        &self,
        alloc: Global,
        _version: Version,
        records: &mut List<ExtensionRange>,
    ) -> Result<(), NoMemory> {
        match self {
            Item::Extensions(extensions) => add_each(alloc, &extensions.ranges, records),
            _ => Ok(()),
        }
    }
}

impl Gives<EnumDescriptorProto> for Item<'_> {
    ghost given = { λ version item. enums_in (item_of item) };

    fn give(
        &self,
        alloc: Global,
        version: Version,
        records: &mut List<EnumDescriptorProto>,
    ) -> Result<(), NoMemory> {
        match self {
            Item::Enum(item) => records.add(enum_record(alloc, version, item)?),
            _ => Ok(()),
        }
    }
}

impl Gives<FieldDescriptorProto> for Item<'_> {
    // Its extensions: fields are counted as they are read, so they are gathered by themselves.
    ghost given = { λ version item. extensions_in version (item_of item) };

    fn give(
        &self,
        alloc: Global,
        version: Version,
        records: &mut List<FieldDescriptorProto>,
    ) -> Result<(), NoMemory> {
        match self {
            Item::Extend(extend) => add_extensions(alloc, version, extend, records),
            _ => Ok(()),
        }
    }
}

impl Gives<OneofDescriptorProto> for Item<'_> {
    ghost given = { λ version item. oneofs_in_of (item_of item) };

    fn give(
        &self,
        alloc: Global,
        _version: Version,
        records: &mut List<OneofDescriptorProto>,
    ) -> Result<(), NoMemory> {
        match self {
            Item::Oneof(oneof) => records.add(oneof_record(alloc, oneof.name.text)?),
            _ => Ok(()),
        }
    }
}

/// How many oneofs the item writes.
fn oneofs_in(item: &Item<'_>) -> usize
    ensures { result ≡ length (oneofs_in_of (item_of item.now)) }
{
    match item {
        Item::Oneof(_) => 1,
        _ => 0,
    }
}

/// How many fields of the item have a synthetic oneof.
fn optionals_in(version: Version, item: &Item<'_>) -> usize
    ensures { result ≡ length (optional_names_in version (item_of item.now)) }
{
    match item {
        Item::Field(field) if is_proto3_optional(version, &field.label) => 1,
        _ => 0,
    }
}

/// Adds the fields of the item, where so many oneofs are written before it, and the next synthetic one has this
/// index.
fn add_fields(
    alloc: Global,
    version: Version,
    written: usize,
    synthetic: usize,
    item: &Item<'_>,
    records: &mut List<FieldDescriptorProto>,
) -> Result<(), NoMemory>
    ensures { OnOk result (records.new ≡ records.old ++ fields_in version written synthetic (item_of item.now)) }
{
    match item {
        Item::Field(field) => records.add(field_record(alloc, version, synthetic, field)?),
        Item::Map(map) => records.add(map_record(alloc, map)?),
        Item::Oneof(oneof) => add_members(alloc, written, oneof.members.as_slice(), records),
        _ => Ok(()),
    }
}

/// The fields of a message with so many written oneofs.
fn fields(
    alloc: Global,
    version: Version,
    oneofs: usize,
    items: &[Item<'_>],
) -> Result<List<FieldDescriptorProto>, NoMemory>
    ensures { IfOk result (λ records. records ≡ fields_from version 0 oneofs (map item_of items.now)) }
{
    let mut all = List::new(alloc);
    let mut written = 0;
    let mut synthetic = oneofs;
    'each: for item in items {
        add_fields(alloc, version, written, synthetic, item, &mut all)?;
        written = counted(written, oneofs_in(item))?;
        synthetic = counted(synthetic, optionals_in(version, item))?;
    }
    Ok(all)
}

/// So many more.
fn counted(count: usize, more: usize) -> Result<usize, NoMemory>
    ensures { IfOk result (λ n. n ≡ count + more) }
{
    count.checked_add(more).ok_or(NoMemory)
}

/// The fields and the oneofs of a message.
fn fields_and_oneofs(
    alloc: Global,
    version: Version,
    items: &[Item<'_>],
) -> Result<(List<FieldDescriptorProto>, List<OneofDescriptorProto>), NoMemory>
    ensures { IfOk result (λ r. (r.0 ≡ fields_of version (body_items (body_of items.now))) × (r.1 ≡ oneof_records version (body_items (body_of items.now)))) }
{
    let mut oneofs = all_given(alloc, version, items)?;
    let fields = fields(alloc, version, oneofs.len(), items)?;
    add_synthetic_oneofs(alloc, version, items, &mut oneofs)?;
    Ok((fields, oneofs))
}

/// The enums and the extensions that stand in a message.
fn enums_and_extensions(
    alloc: Global,
    version: Version,
    items: &[Item<'_>],
) -> Result<(List<EnumDescriptorProto>, List<FieldDescriptorProto>), NoMemory>
    ensures { IfOk result (λ r. (r.0 ≡ flat_map enums_in (body_items (body_of items.now))) ×
        (r.1 ≡ flat_map (extensions_in version) (body_items (body_of items.now)))) }
{
    let enums = all_given(alloc, version, items)?;
    let extensions = all_given(alloc, version, items)?;
    Ok((enums, extensions))
}

/// The ranges and the names that a message reserves.
fn ranges_and_names(
    alloc: Global,
    version: Version,
    items: &[Item<'_>],
) -> Result<(List<ReservedRange>, Texts), NoMemory>
    ensures { IfOk result (λ r. (r.0 ≡ flat_map reserved_ranges_in (body_items (body_of items.now))) ×
        (r.1 ≡ flat_map reserved_names_in (body_items (body_of items.now)))) }
{
    let ranges = all_given(alloc, version, items)?;
    let names = all_given(alloc, version, items)?;
    Ok((ranges, names))
}

/// The numbers that extensions of a message may have.
fn extension_ranges(
    alloc: Global,
    version: Version,
    items: &[Item<'_>],
) -> Result<List<ExtensionRange>, NoMemory>
    ensures { IfOk result (λ r. r ≡ flat_map extension_ranges_in (body_items (body_of items.now))) }
{
    let ranges = all_given(alloc, version, items)?;
    Ok(ranges)
}

/// The options record of a message.
fn message_options(alloc: Global, items: &[Item<'_>]) -> Result<Option<Options>, NoMemory>
    ensures { IfOk result (λ options. options ≡ options_of places.Message (body_settings (body_of items.now))) }
{
    let settings = message_settings(alloc, items)?;
    options(alloc, OptionPlace::Message, settings.as_slice())
}

/// What a message has, its name and the messages in it left out.
#[derive(Drop)]
struct OwnParts {
    /// The fields and the oneofs.
    fields: (List<FieldDescriptorProto>, List<OneofDescriptorProto>),
    /// The enums and the extensions.
    enums: (List<EnumDescriptorProto>, List<FieldDescriptorProto>),
    /// The ranges and the names that are reserved.
    reserved: (List<ReservedRange>, Texts),
    ranges: List<ExtensionRange>,
    options: Option<Options>,
}

/// Each absent; takes no memory.
fn no_parts(alloc: Global) -> OwnParts {
    OwnParts {
        fields: (List::new(alloc), List::new(alloc)),
        enums: (List::new(alloc), List::new(alloc)),
        reserved: (List::new(alloc), Texts::new(alloc)),
        ranges: List::new(alloc),
        options: None,
    }
}

fn fill_parts(
    alloc: Global,
    version: Version,
    items: &[Item<'_>],
    own: &mut OwnParts,
) -> Result<(), NoMemory>
    ensures fields { OnOk result ((own.new.fields.0 ≡ fields_of version (body_items (body_of items.now))) ×
        (own.new.fields.1 ≡ oneof_records version (body_items (body_of items.now)))) }
    ensures enums { OnOk result ((own.new.enums.0 ≡ flat_map enums_in (body_items (body_of items.now))) ×
        (own.new.enums.1 ≡ flat_map (extensions_in version) (body_items (body_of items.now)))) }
    ensures reserved { OnOk result ((own.new.reserved.0 ≡ flat_map reserved_ranges_in (body_items (body_of items.now))) ×
        (own.new.reserved.1 ≡ flat_map reserved_names_in (body_items (body_of items.now)))) }
    ensures ranges { OnOk result (own.new.ranges ≡ flat_map extension_ranges_in (body_items (body_of items.now))) }
    ensures options { OnOk result (own.new.options ≡ options_of places.Message (body_settings (body_of items.now))) }
{
    put(&mut own.fields, fields_and_oneofs(alloc, version, items))?;
    put(&mut own.enums, enums_and_extensions(alloc, version, items))?;
    put(&mut own.reserved, ranges_and_names(alloc, version, items))?;
    put(&mut own.ranges, extension_ranges(alloc, version, items))?;
    put(&mut own.options, message_options(alloc, items))
}

/// What a message of these items has.
fn own_parts(alloc: Global, version: Version, items: &[Item<'_>]) -> Result<OwnParts, NoMemory>
    ensures fields { IfOk result (λ own. (own.fields.0 ≡ fields_of version (body_items (body_of items.now))) ×
        (own.fields.1 ≡ oneof_records version (body_items (body_of items.now)))) }
    ensures enums { IfOk result (λ own. (own.enums.0 ≡ flat_map enums_in (body_items (body_of items.now))) ×
        (own.enums.1 ≡ flat_map (extensions_in version) (body_items (body_of items.now)))) }
    ensures reserved { IfOk result (λ own. (own.reserved.0 ≡ flat_map reserved_ranges_in (body_items (body_of items.now))) ×
        (own.reserved.1 ≡ flat_map reserved_names_in (body_items (body_of items.now)))) }
    ensures ranges { IfOk result (λ own. own.ranges ≡ flat_map extension_ranges_in (body_items (body_of items.now))) }
    ensures options { IfOk result (λ own. own.options ≡ options_of places.Message (body_settings (body_of items.now))) }
{
    let mut own = no_parts(alloc);
    fill_parts(alloc, version, items, &mut own)?;
    Ok(own)
}

/// The message of this name, these items and these nested types.
#[tactic(auto, unfolding(crate::specs::Messages::message_with))]
fn message_with(
    alloc: Global,
    version: Version,
    name: &str,
    items: &[Item<'_>],
    types: List<DescriptorProto>,
) -> Result<DescriptorProto, NoMemory>
    ensures { IfOk result (λ it. it ≡ message_with_of version name.now (body_of items.now) types) }
{
    let name = Text::from_str(alloc, name)?;
    let OwnParts {
        fields,
        enums,
        reserved,
        ranges,
        options,
    } = own_parts(alloc, version, items)?;
    let (field, oneof_decl) = fields;
    let (enum_type, extension) = enums;
    let (reserved_range, reserved_name) = reserved;
    Ok(DescriptorProto {
        name: Some(name),
        field,
        nested_type: types,
        enum_type,
        extension_range: ranges,
        extension,
        options,
        oneof_decl,
        reserved_range,
        reserved_name,
        unknown: Recs::new(alloc),
    })
}

/// Adds the message of this name, these items and these nested types.
pub(crate) fn add_message(
    alloc: Global,
    version: Version,
    name: &str,
    items: &[Item<'_>],
    types: List<DescriptorProto>,
    records: &mut List<DescriptorProto>,
) -> Result<(), NoMemory>
    ensures { OnOk result (records.new ≡ records.old ++ message_with_of version name.now (body_of items.now) types ∷ []) }
{
    records.add(message_with(alloc, version, name, items, types)?)
}

/// Adds the entry of a map field.
fn add_entry(
    alloc: Global,
    map: &MapField<'_>,
    records: &mut List<DescriptorProto>,
) -> Result<(), NoMemory>
    ensures { OnOk result (records.new ≡ records.old ++ entry_record_of (map_of map.now) ∷ []) }
{
    records.add(entry_record(alloc, map)?)
}

/// The messages and the entries of maps among the items of a message.
pub(crate) fn nested_types(
    items: &Vec<Item<'_>>,
    alloc: Global,
    version: Version,
) -> Result<List<DescriptorProto>, NoMemory>
    ensures { IfOk result (λ records. records ≡ nested_types_of version (body_of items.now.items)) }
{
    let mut records = List::new(alloc);
    'each: for item in items {
        match item {
            Item::Message(head, inner, _) => {
                let types = nested_types(inner, alloc, version)?;
                add_message(alloc, version, head.name.text, inner, types, &mut records)?;
            }
            Item::Map(map) => add_entry(alloc, map, &mut records)?,
            _ => {}
        }
    }
    Ok(records)
}
