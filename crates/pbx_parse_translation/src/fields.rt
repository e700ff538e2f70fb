//! Records of fields, extensions and the entries of maps.

ghost use Rattle.std.specs.Prelude.{◌≡◌, ◌++◌, pos, map, option_map, IfOk, OnOk};
ghost use Rattle.std.specs.List.{flat_map};
ghost use Rattle.pbx_parse_token.specs.Escapes.{unescaped};
ghost use Rattle.pbx_parse_tree.specs.Conditions.{settings_of as some_settings_of};
ghost use Rattle.pbx_parse_tree.specs.View.{constant_of, settings_of, type_of, kind_of, tail_of, field_of, map_of, member_of, extension_of, extend_of};
ghost use Rattle.pbx_parse_translation.specs.Texts.{escaped as escaped_of};
ghost use Rattle.pbx_parse_translation.specs.Fields.{label_of, type_number as type_number_of, kind_number as kind_number_of};
ghost use Rattle.pbx_parse_translation.specs.Fields.{kind_name as kind_name_of, default_text as default_text_of, default_of, json_name_of};
ghost use Rattle.pbx_parse_translation.specs.Fields.{untyped_field as untyped_field_of, typed_field as typed_field_of};
ghost use Rattle.pbx_parse_translation.specs.Fields.{labelled_field as labelled_field_of, is_proto3_optional as is_proto3_optional_of};
ghost use Rattle.pbx_parse_translation.specs.Fields.{field_record as field_record_of, member_records, extension_record as extension_record_of};
ghost use Rattle.pbx_parse_translation.specs.Fields.{extension_records, extend_records, map_record as map_record_of, entry_field as entry_field_of};
ghost use Rattle.pbx_parse_translation.specs.Fields.{entry_fields as entry_fields_of, entry_options as entry_options_of};
ghost use Rattle.pbx_parse_translation.specs.Fields.{entry_record as entry_record_of};

use crate::settings::{listed_options, set_to};
use crate::texts::{entry_name, escaped, number_text, string_text, type_text};
use pbx_desc_records::{DescriptorProto, FieldDescriptorProto, Options};
use pbx_parse_token::{Span, unescape};
use pbx_parse_tree::{
    Constant, Extend, Extension, Field, Kind, Label, Literal, MapField, Member, OptionPlace,
    Scalar, Settings, Tail, TypeName, Version, listed,
};
use pbx_wire::{List, NoMemory, Rec, Recs, Text};
use std::alloc::Global;

/// `LABEL_OPTIONAL` of `FieldDescriptorProto.Label`.
const LABEL_OPTIONAL: i32 = 1;

/// `LABEL_REPEATED` of `FieldDescriptorProto.Label`.
const LABEL_REPEATED: i32 = 3;

/// The number of `map_entry` in `MessageOptions`.
const MAP_ENTRY: u32 = 7;

/// The number of `FieldDescriptorProto.Label`.
fn label_number(label: &Option<(Label, Span)>) -> i32
    ensures { result ≡ pos (label_of label.now) }
{
    match label {
        None | Some((Label::Optional, _)) => LABEL_OPTIONAL,
        Some((Label::Required, _)) => 2,
        Some((Label::Repeated, _)) => LABEL_REPEATED,
    }
}

/// The number of `FieldDescriptorProto.Type`.
fn type_number(scalar: Scalar) -> i32
    ensures { result ≡ pos (type_number_of scalar) }
{
    match scalar {
        Scalar::Double => 1,
        Scalar::Float => 2,
        Scalar::Int64 => 3,
        Scalar::Uint64 => 4,
        Scalar::Int32 => 5,
        Scalar::Fixed64 => 6,
        Scalar::Fixed32 => 7,
        Scalar::Bool => 8,
        Scalar::String => 9,
        Scalar::Bytes => 12,
        Scalar::Uint32 => 13,
        Scalar::Sfixed32 => 15,
        Scalar::Sfixed64 => 16,
        Scalar::Sint32 => 17,
        Scalar::Sint64 => 18,
    }
}

/// The number of a scalar type.
fn kind_number(kind: &Kind<'_>) -> Option<i32>
    ensures { result ≡ kind_number_of (kind_of kind.now) }
{
    match kind {
        Kind::Scalar(scalar, _) => Some(type_number(*scalar)),
        Kind::Named(_) => None,
    }
}

/// The name of a type that is no scalar.
fn kind_name(alloc: Global, kind: &Kind<'_>) -> Result<Option<Text>, NoMemory>
    ensures { IfOk result (λ name. name ≡ kind_name_of (kind_of kind.now)) }
{
    match kind {
        Kind::Scalar(_, _) => Ok(None),
        Kind::Named(name) => Ok(Some(type_text(alloc, name)?)),
    }
}

/// The bytes that a string stands for, as a string literal of C has them.
fn escaped_string(alloc: Global, literal: &Literal<'_>) -> Result<Text, NoMemory>
    ensures { IfOk result (λ t. t ≡ escaped_of (unescaped literal.now.text.now)) }
{
    let bytes = unescape(alloc, literal.text)?;
    escaped(alloc, bytes.as_slice())
}

/// The text of a default.
fn default_text(alloc: Global, kind: &Kind<'_>, value: &Constant<'_>) -> Result<Text, NoMemory>
    ensures { IfOk result (λ t. t ≡ default_text_of (kind_of kind.now) (constant_of value.now)) }
{
    match (value, kind) {
        (Constant::Number(number), _) => number_text(alloc, number),
        (Constant::Identifier(word), _) => Text::from_str(alloc, word.text),
        (Constant::String(literal), Kind::Scalar(Scalar::Bytes, _)) => {
            escaped_string(alloc, literal)
        }
        (Constant::String(literal), _) => string_text(alloc, literal),
    }
}

/// The default, where one is written.
#[tactic(auto, unfolding(crate::specs::Fields::default_of))]
fn default_value(
    alloc: Global,
    kind: &Kind<'_>,
    settings: &Option<Settings<'_>>,
) -> Result<Option<Text>, NoMemory>
    ensures { IfOk result (λ t. t ≡ default_of (kind_of kind.now) (some_settings_of (option_map settings_of settings.now))) }
{
    let settings = listed(alloc, settings)?;
    match set_to("default", settings.as_slice()) {
        Some(value) => Ok(Some(default_text(alloc, kind, &value)?)),
        None => Ok(None),
    }
}

/// The JSON name, where one is written.
#[tactic(auto, unfolding(crate::specs::Fields::json_name_of))]
fn json_name(alloc: Global, settings: &Option<Settings<'_>>) -> Result<Option<Text>, NoMemory>
    ensures { IfOk result (λ t. t ≡ json_name_of (some_settings_of (option_map settings_of settings.now))) }
{
    let settings = listed(alloc, settings)?;
    match set_to("json_name", settings.as_slice()) {
        Some(Constant::String(literal)) => Ok(Some(string_text(alloc, &literal)?)),
        _ => Ok(None),
    }
}

/// A field of this label, by what follows its type.
#[tactic(auto, unfolding(crate::specs::Fields::untyped_field))]
fn untyped_field(
    alloc: Global,
    label: i32,
    tail: &Tail<'_>,
) -> Result<FieldDescriptorProto, NoMemory>
    ensures { IfOk result (λ it. it ≡ untyped_field_of label (tail_of tail.now)) }
{
    let name = Text::from_str(alloc, tail.name.text)?;
    let options = listed_options(alloc, OptionPlace::Field, &tail.settings)?;
    let json_name = json_name(alloc, &tail.settings)?;
    let mut record = FieldDescriptorProto::new(alloc);
    record.name = Some(name);
    record.number = Some(tail.number.value as i32);
    record.label = Some(label);
    record.options = options;
    record.json_name = json_name;
    Ok(record)
}

/// The same with its type and its default.
#[tactic(auto, unfolding(crate::specs::Fields::typed_field))]
fn typed_field(
    alloc: Global,
    label: i32,
    kind: &Kind<'_>,
    tail: &Tail<'_>,
) -> Result<FieldDescriptorProto, NoMemory>
    ensures { IfOk result (λ it. it ≡ typed_field_of label (kind_of kind.now) (tail_of tail.now)) }
{
    let type_name = kind_name(alloc, kind)?;
    let default_value = default_value(alloc, kind, &tail.settings)?;
    let mut record = untyped_field(alloc, label, tail)?;
    record.kind = kind_number(kind);
    record.type_name = type_name;
    record.default_value = default_value;
    Ok(record)
}

#[tactic(auto, unfolding(crate::specs::Fields::labelled_field))]
fn labelled_field(alloc: Global, field: &Field<'_>) -> Result<FieldDescriptorProto, NoMemory>
    ensures { IfOk result (λ it. it ≡ labelled_field_of (field_of field.now)) }
{
    typed_field(alloc, label_number(&field.label), &field.kind, &field.tail)
}

/// In proto3 the label `optional` says that the field has presence.
pub(crate) fn is_proto3_optional(version: Version, label: &Option<(Label, Span)>) -> bool
    ensures { result ≡ is_proto3_optional_of version label.now }
{
    matches!(
        (version, label),
        (Version::Proto3, Some((Label::Optional, _)))
    )
}

/// An index, as the records have it. More than an `i32` counts is more than memory holds.
pub(crate) fn index(index: usize) -> Result<i32, NoMemory>
    ensures { IfOk result (λ i. i ≡ pos index) }
{
    if index <= 2147483647 {
        Ok(index as i32)
    } else {
        Err(NoMemory)
    }
}

/// A field of a message, where the next synthetic oneof has this index.
#[tactic(auto, unfolding(crate::specs::Fields::field_record))]
pub(crate) fn field_record(
    alloc: Global,
    version: Version,
    synthetic: usize,
    field: &Field<'_>,
) -> Result<FieldDescriptorProto, NoMemory>
    ensures { IfOk result (λ it. it ≡ field_record_of version synthetic (field_of field.now)) }
{
    if !is_proto3_optional(version, &field.label) {
        return labelled_field(alloc, field);
    }
    let oneof_index = index(synthetic)?;
    let mut record = labelled_field(alloc, field)?;
    record.oneof_index = Some(oneof_index);
    record.proto3_optional = Some(true);
    Ok(record)
}

/// Adds what stands in the oneof of the index.
#[tactic(auto, unfolding(crate::specs::Fields::member_records))]
fn add_member(
    alloc: Global,
    oneof: usize,
    member: &Member<'_>,
    records: &mut List<FieldDescriptorProto>,
) -> Result<(), NoMemory>
    ensures { OnOk result (records.new ≡ records.old ++ member_records oneof (member_of member.now)) }
{
    match member {
        Member::Empty(_) => Ok(()),
        Member::Field(kind, tail) => {
            let oneof_index = index(oneof)?;
            let mut record = typed_field(alloc, LABEL_OPTIONAL, kind, tail)?;
            record.oneof_index = Some(oneof_index);
            records.add(record)
        }
    }
}

/// Adds the members of the oneof of the index.
pub(crate) fn add_members(
    alloc: Global,
    oneof: usize,
    members: &[Member<'_>],
    records: &mut List<FieldDescriptorProto>,
) -> Result<(), NoMemory>
    ensures { OnOk result (records.new ≡ records.old ++ flat_map (member_records oneof) (map member_of members.now)) }
{
    'each: for member in members {
        add_member(alloc, oneof, member, records)?;
    }
    Ok(())
}

/// An extension of the type.
fn extension_record(
    alloc: Global,
    version: Version,
    extendee: &TypeName<'_>,
    field: &Field<'_>,
) -> Result<FieldDescriptorProto, NoMemory>
    ensures { IfOk result (λ it. it ≡ extension_record_of version (type_of extendee.now) (field_of field.now)) }
{
    let extendee = type_text(alloc, extendee)?;
    let mut record = labelled_field(alloc, field)?;
    record.extendee = Some(extendee);
    if is_proto3_optional(version, &field.label) {
        record.proto3_optional = Some(true);
    }
    Ok(record)
}

/// Adds what stands in a block of extensions of the type.
#[tactic(auto, unfolding(crate::specs::Fields::extension_records))]
fn add_extension(
    alloc: Global,
    version: Version,
    extendee: &TypeName<'_>,
    extension: &Extension<'_>,
    records: &mut List<FieldDescriptorProto>,
) -> Result<(), NoMemory>
    ensures { OnOk result (records.new ≡ records.old ++ extension_records version (type_of extendee.now) (extension_of extension.now)) }
{
    match extension {
        Extension::Empty(_) => Ok(()),
        Extension::Field(field) => records.add(extension_record(alloc, version, extendee, field)?),
    }
}

/// Adds the extensions of a block.
#[tactic(auto, unfolding(crate::specs::Fields::extend_records))]
pub(crate) fn add_extensions(
    alloc: Global,
    version: Version,
    extend: &Extend<'_>,
    records: &mut List<FieldDescriptorProto>,
) -> Result<(), NoMemory>
    ensures { OnOk result (records.new ≡ records.old ++ extend_records version (extend_of extend.now)) }
{
    'each: for extension in &extend.extensions {
        add_extension(alloc, version, &extend.extendee, extension, records)?;
    }
    Ok(())
}

/// A map field, which is a list of its entries.
#[tactic(auto, unfolding(crate::specs::Fields::map_record))]
pub(crate) fn map_record(
    alloc: Global,
    map: &MapField<'_>,
) -> Result<FieldDescriptorProto, NoMemory>
    ensures { IfOk result (λ it. it ≡ map_record_of (map_of map.now)) }
{
    let type_name = entry_name(alloc, map.tail.name.text)?;
    let mut record = untyped_field(alloc, LABEL_REPEATED, &map.tail)?;
    record.type_name = Some(type_name);
    Ok(record)
}

/// The key or the value of an entry.
fn entry_field(
    alloc: Global,
    name: &str,
    number: i32,
    kind: Option<i32>,
    type_name: Option<Text>,
) -> Result<FieldDescriptorProto, NoMemory>
    ensures { IfOk result (λ it. it ≡ entry_field_of name.now number kind type_name) }
{
    let name = Text::from_str(alloc, name)?;
    let mut record = FieldDescriptorProto::new(alloc);
    record.name = Some(name);
    record.number = Some(number);
    record.label = Some(LABEL_OPTIONAL);
    record.kind = kind;
    record.type_name = type_name;
    Ok(record)
}

/// The key and the value of an entry.
fn entry_fields(alloc: Global, map: &MapField<'_>) -> Result<List<FieldDescriptorProto>, NoMemory>
    ensures { IfOk result (λ fields. fields ≡ entry_fields_of (map_of map.now)) }
{
    let key = entry_field(alloc, "key", 1, Some(type_number(map.key)), None)?;
    let mut fields = List::new(alloc);
    fields.add(key)?;
    let type_name = kind_name(alloc, &map.value)?;
    let value = entry_field(alloc, "value", 2, kind_number(&map.value), type_name)?;
    fields.add(value)?;
    Ok(fields)
}

/// The options of an entry.
fn entry_options(alloc: Global) -> Result<Options, NoMemory>
    ensures { IfOk result (λ options. options ≡ entry_options_of) }
{
    let mut recs = Recs::new(alloc);
    recs.add(Rec::Varint(MAP_ENTRY, 1))?;
    Ok(Options { recs })
}

/// The entry of a map field.
#[tactic(auto, unfolding(crate::specs::Fields::entry_record))]
pub(crate) fn entry_record(alloc: Global, map: &MapField<'_>) -> Result<DescriptorProto, NoMemory>
    ensures { IfOk result (λ it. it ≡ entry_record_of (map_of map.now)) }
{
    let name = entry_name(alloc, map.tail.name.text)?;
    let field = entry_fields(alloc, map)?;
    let options = entry_options(alloc)?;
    let mut record = DescriptorProto::new(alloc);
    record.name = Some(name);
    record.field = field;
    record.options = Some(options);
    Ok(record)
}
