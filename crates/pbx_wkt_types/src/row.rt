// Whether a field is as a row of the table declares it.
ghost use Rattle.std.specs.Prelude.{◌≡◌};
ghost use Rattle.pbx_wkt_types.specs.Shapes.{type_number as type_number_of, has_sort as has_sort_of, same_cardinality as are_same_cardinality};
ghost use Rattle.pbx_wkt_types.specs.Shapes.{same_oneof as are_same_oneof, has_member_presence as has_member_presence_of, is_row as is_row_of, has_row as has_row_of};
ghost use Rattle.pbx_wkt_types.specs.Rows.{row_sort, row_field};

use crate::place::{enum_name, message_name};
use crate::table::{FieldRow, Sort};
use pbx_content::{Cardinality, FieldShape, Kind, Schema};

/// The number of a kind in `FieldDescriptorProto.Type` (google/protobuf/descriptor.proto).
fn type_number(kind: Kind) -> u8
    ensures { result ≡ type_number_of kind }
{
    match kind {
        Kind::Double => 1,
        Kind::Float => 2,
        Kind::Int64 => 3,
        Kind::Uint64 => 4,
        Kind::Int32 => 5,
        Kind::Fixed64 => 6,
        Kind::Fixed32 => 7,
        Kind::Bool => 8,
        Kind::String => 9,
        Kind::Message(_) => 11,
        Kind::Bytes => 12,
        Kind::Uint32 => 13,
        Kind::Enum(_) => 14,
        Kind::Sfixed32 => 15,
        Kind::Sfixed64 => 16,
        Kind::Sint32 => 17,
        Kind::Sint64 => 18,
    }
}

/// Whether one value of the kind is what the row says.
fn has_sort(schema: &Schema, sort: Sort, kind: Kind) -> bool
    ensures { result ≡ has_sort_of schema.now (row_sort sort) kind }
{
    match (sort, kind) {
        (Sort::Scalar(scalar), _) => type_number(scalar) == type_number(kind),
        (Sort::Message(name), Kind::Message(place)) => message_name(schema, place) == name,
        (Sort::Enum(name), Kind::Enum(place)) => enum_name(schema, place) == name,
        _ => false,
    }
}

/// Whether both have as many values, of a map under keys of one kind.
fn same_cardinality(one: Cardinality, other: Cardinality) -> bool
    ensures { result ≡ are_same_cardinality one other }
{
    match (one, other) {
        (Cardinality::Singular, Cardinality::Singular) => true,
        (Cardinality::Repeated, Cardinality::Repeated) => true,
        (Cardinality::Map(key), Cardinality::Map(other_key)) => {
            type_number(key) == type_number(other_key)
        }
        _ => false,
    }
}

/// Whether neither is a member of a oneof, or both of that of one place.
fn same_oneof(one: Option<u32>, other: Option<u32>) -> bool
    ensures { result ≡ are_same_oneof one other }
{
    match (one, other) {
        (None, None) => true,
        (Some(place), Some(other_place)) => place == other_place,
        _ => false,
    }
}

/// Whether a field with that presence has it, where its row is a member of a oneof.
pub fn has_member_presence(oneof: Option<u32>, presence: bool) -> bool
    ensures { result ≡ has_member_presence_of oneof presence }
{
    match oneof {
        None => true,
        Some(_) => presence,
    }
}

/// Whether the field is as the row declares it.
fn is_row(schema: &Schema, row: &FieldRow, field: &FieldShape) -> bool
    ensures { result ≡ is_row_of schema.now (row_field row.now) field.now }
{
    row.1 == field.name.as_str()
        && row.2 == field.json_name.as_str()
        && same_cardinality(row.4, field.cardinality)
        && has_sort(schema, row.3, field.kind)
        && same_oneof(row.5, field.oneof)
        && !field.is_extension
        && has_member_presence(row.5, field.presence)
}

/// Whether the type at the place has the field that the row declares.
pub(crate) fn has_row(schema: &Schema, place: usize, row: &FieldRow) -> bool
    ensures { result ≡ has_row_of schema.now place (row_field row.now) }
{
    match schema.field_of(place, row.0) {
        Some(field) => is_row(schema, row, field),
        None => false,
    }
}
