// What one value of a field is.
ghost use Rattle.std.specs.Prelude.{◌≡◌, Some};
ghost use Rattle.pbx_link.specs.Kinds.{described_kind};
ghost use Rattle.pbx_wkt_types.specs.Shapes.{type_number as type_number_of};
ghost use Rattle.pbx_wkt.specs.Kinds.{kind_number as kind_number_of, kind_has_sort, entry_told, value_told, has_sort_if};
ghost use Rattle.pbx_wkt_types.specs.Known.{scalar};
ghost use Rattle.pbx_wkt_types.specs.Rows.{row_sort};

use pbx_content::Kind as Scalar;
use pbx_link::{FieldDescriptor, Kind};
use pbx_wkt_types::Sort;

/// The number of a kind of a row in `FieldDescriptorProto.Type` (google/protobuf/descriptor.proto).
fn type_number(kind: Scalar) -> u8
    ensures { result ≡ type_number_of kind }
{
    match kind {
        Scalar::Double => 1,
        Scalar::Float => 2,
        Scalar::Int64 => 3,
        Scalar::Uint64 => 4,
        Scalar::Int32 => 5,
        Scalar::Fixed64 => 6,
        Scalar::Fixed32 => 7,
        Scalar::Bool => 8,
        Scalar::String => 9,
        Scalar::Message(_) => 11,
        Scalar::Bytes => 12,
        Scalar::Uint32 => 13,
        Scalar::Enum(_) => 14,
        Scalar::Sfixed32 => 15,
        Scalar::Sfixed64 => 16,
        Scalar::Sint32 => 17,
        Scalar::Sint64 => 18,
    }
}

/// The same number of a kind that a descriptor answers.
fn kind_number(kind: &Kind) -> u8
    ensures { result ≡ kind_number_of kind.now }
{
    match kind {
        Kind::Double => 1,
        Kind::Float => 2,
        Kind::Int64 => 3,
        Kind::Uint64 => 4,
        Kind::Int32 => 5,
        Kind::Fixed64 => 6,
        Kind::Fixed32 => 7,
        Kind::Bool => 8,
        Kind::String => 9,
        Kind::Message(_) => 11,
        Kind::Bytes => 12,
        Kind::Uint32 => 13,
        Kind::Enum(_) => 14,
        Kind::Sfixed32 => 15,
        Kind::Sfixed64 => 16,
        Kind::Sint32 => 17,
        Kind::Sint64 => 18,
    }
}

/// Whether one value of the kind is what the row says.
fn kind_is(sort: Sort, kind: &Kind) -> bool
    ensures { result ≡ kind_has_sort (row_sort sort) kind.now }
{
    match sort {
        Sort::Scalar(scalar) => type_number(scalar) == kind_number(kind),
        Sort::Message(name) => match kind {
            Kind::Message(message) => message.full_name() == name,
            _ => false,
        },
        Sort::Enum(name) => match kind {
            Kind::Enum(enumeration) => enumeration.full_name() == name,
            _ => false,
        },
    }
}

/// What one value of the field of this number of a map's entry is.
fn entry_kind(field: &FieldDescriptor, number: u32) -> Kind
    ensures { entry_told number (described_kind field.now) ≡ Some result }
{
    match field.kind() {
        Kind::Message(entry) => match entry.get_field(number) {
            Some(part) => part.kind(),
            None => Kind::Float,
        },
        _ => Kind::Float,
    }
}

/// What one value of the field is, and of a map what stands under a key.
fn value_kind(field: &FieldDescriptor) -> Kind
    ensures { value_told field.now ≡ Some result }
{
    if field.is_map() {
        entry_kind(field, 2)
    } else {
        field.kind()
    }
}

/// Whether the keys of a map are of the kind.
pub(crate) fn has_key(field: &FieldDescriptor, key: Scalar) -> bool
    ensures { result ≡ has_sort_if (scalar key) (entry_told 1 (described_kind field.now)) }
{
    let kind = entry_kind(field, 1);
    kind_is(Sort::Scalar(key), &kind)
}

/// Whether one value of the field, of a map what stands under a key, is what the row says.
pub(crate) fn has_sort(field: &FieldDescriptor, sort: Sort) -> bool
    ensures { result ≡ has_sort_if (row_sort sort) (value_told field.now) }
{
    let kind = value_kind(field);
    kind_is(sort, &kind)
}
