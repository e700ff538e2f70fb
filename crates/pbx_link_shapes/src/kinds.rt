// The kinds of fields.
ghost use Rattle.std.specs.Prelude.{◌≡◌, option_copied};
ghost use Rattle.pbx_link_definitions.specs.Says.{own_fields};
ghost use Rattle.pbx_link_meaning.specs.Shapes.{scalar_kind as scalar_kind_of, kind_by as kind_by_of};
ghost use Rattle.pbx_link_shapes.specs.Items.{item_kind, entry_of as entry_of_item, item_numbered, item_entry_kind, item_type};

use crate::records::{is_entry, is_number, is_repeated};
use crate::types::Types;
use pbx_content::{Cardinality, Kind};
use pbx_desc_records::{DescriptorProto, FieldDescriptorProto};
use pbx_link_definitions::number_or_zero;
use pbx_wire::Text;

/// What the values of a field are, how many there are, and of a map the place of the type of its entries.
pub(crate) struct FieldType {
    pub(crate) kind: Kind,
    pub(crate) cardinality: Cardinality,
    pub(crate) entry: Option<usize>,
}

/// The scalar of a number of `FieldDescriptorProto.Type`; 10, 11 and 14 are no scalars.
fn scalar_kind(number: u32) -> Kind
    ensures { result ≡ scalar_kind_of number }
{
    match number {
        1 => Kind::Double,
        2 => Kind::Float,
        3 => Kind::Int64,
        4 => Kind::Uint64,
        5 => Kind::Int32,
        6 => Kind::Fixed64,
        7 => Kind::Fixed32,
        8 => Kind::Bool,
        9 => Kind::String,
        12 => Kind::Bytes,
        13 => Kind::Uint32,
        15 => Kind::Sfixed32,
        16 => Kind::Sfixed64,
        17 => Kind::Sint32,
        _ => Kind::Sint64,
    }
}

/// The kind of a type number and a type name.
fn kind_by(types: &Types<'_>, number: u32, name: &Option<Text>) -> Kind
    ensures { result ≡ kind_by_of types.now number name.now }
{
    match number {
        11 => Kind::Message(types.place_of_message(name)),
        14 => Kind::Enum(types.place_of_enum(name)),
        _ => scalar_kind(number),
    }
}

/// The kind of a field; of a map that of the entry.
#[tactic(auto, unfolding(crate::specs::Items::item_kind))]
fn kind_of(types: &Types<'_>, field: &FieldDescriptorProto) -> Kind
    ensures { result ≡ item_kind types.now field.now }
{
    kind_by(types, number_or_zero(field.kind), &field.type_name)
}

/// The entry, if the field is a map.
#[tactic(auto, unfolding(crate::specs::Items::entry_of))]
fn entry_of<'a>(types: &Types<'a>, field: &FieldDescriptorProto) -> Option<&'a DescriptorProto>
    ensures { option_copied result ≡ entry_of_item types.now field.now }
{
    if !is_repeated(field) {
        return None;
    }
    match types.message_item(&field.type_name) {
        Some(message) if is_entry(message) => Some(message),
        _ => None,
    }
}

/// The first of the fields with this number.
fn numbered(fields: &[FieldDescriptorProto], number: u8) -> Option<&FieldDescriptorProto>
    ensures { option_copied result ≡ item_numbered number fields.now }
{
    fields.iter().find(|field| is_number(field.number, number))
}

/// The kind of the field of this number of an entry, if the entry has it.
#[tactic(auto, unfolding(crate::specs::Items::item_entry_kind))]
fn entry_kind(types: &Types<'_>, entry: &DescriptorProto, number: u8) -> Kind
    ensures { result ≡ item_entry_kind types.now number entry.now }
{
    match numbered(entry.field.as_slice(), number) {
        Some(field) => kind_of(types, field),
        None => Kind::Float,
    }
}

/// The type of a field; of a map it tells the type of its entries.
#[tactic(auto, unfolding(crate::specs::Items::item_type))]
pub(crate) fn field_type(types: &Types<'_>, field: &FieldDescriptorProto) -> FieldType
    ensures { result ≡ item_type types.now field.now }
{
    match entry_of(types, field) {
        Some(entry) => FieldType {
            kind: entry_kind(types, entry, 2),
            cardinality: Cardinality::Map(entry_kind(types, entry, 1)),
            entry: Some(types.place_of_message(&field.type_name)),
        },
        None if is_repeated(field) => FieldType {
            kind: kind_of(types, field),
            cardinality: Cardinality::Repeated,
            entry: None,
        },
        None => FieldType {
            kind: kind_of(types, field),
            cardinality: Cardinality::Singular,
            entry: None,
        },
    }
}
