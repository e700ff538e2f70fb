// What of a record and of its field reading asks for.
ghost use Rattle.std.specs.Prelude.{◌≡◌, option_map};
ghost use Rattle.pbx_wire.specs.View.{rec_of};
ghost use Rattle.pbx_content.specs.declared.shape.Cardinality.TheVariants.{Singular};
ghost use Rattle.pbx_content.specs.Records.{bytes_of};
ghost use Rattle.pbx_content.specs.Shape.{field_of, form_of, is_float as is_float_of, is_packable as is_packable_of};
ghost use Rattle.pbx_content.specs.Faults.{reads as reads_of, wire_type, wire_type_of};
ghost use Rattle.pbx_desc_decodable.specs.Fields.{view_of, fields_at};

use pbx_content::{Cardinality, FieldShape, Kind, Schema};
use pbx_wire::RecRef;

/// Whose fields are read.
#[derive(Clone, Copy)]
pub(crate) enum Owner {
    /// The message type at a place.
    Type(usize),
    /// An entry of a map whose keys and values are of these kinds.
    Entry(Kind, Kind),
}

/// What of a field reading asks for.
#[derive(Clone, Copy)]
pub(crate) struct FieldView {
    pub kind: Kind,
    pub cardinality: Cardinality,
}

/// The wire type in the key of a record.
fn record_wire_type(rec: &RecRef<'_>) -> u32
    ensures { result ≡ wire_type_of (rec_of rec.now) }
{
    match rec {
        RecRef::Varint(_, _) => 0,
        RecRef::Fixed64(_, _) => 1,
        RecRef::Bytes(_, _) => 2,
        RecRef::Group(_, _) => 3,
        RecRef::Fixed32(_, _) => 5,
    }
}

/// The payload of a record of wire type 2.
pub(crate) fn payload<'a>(rec: &RecRef<'a>) -> Option<&'a [u8]>
    ensures { option_map (λ b. b.now) result ≡ bytes_of (rec_of rec.now) }
{
    match rec {
        RecRef::Bytes(_, bytes) => Some(*bytes),
        _ => None,
    }
}

pub(crate) fn is_float(kind: Kind) -> bool
    ensures { result ≡ is_float_of kind }
{
    match kind {
        Kind::Double => true,
        Kind::Float => true,
        _ => false,
    }
}

/// The wire type of one value of the kind.
fn kind_wire_type(kind: Kind) -> u32
    ensures { result ≡ wire_type (form_of kind) }
{
    match kind {
        Kind::Double | Kind::Fixed64 | Kind::Sfixed64 => 1,
        Kind::Float | Kind::Fixed32 | Kind::Sfixed32 => 5,
        Kind::String | Kind::Bytes | Kind::Message(_) => 2,
        _ => 0,
    }
}

fn is_packable(kind: Kind) -> bool
    ensures { result ≡ is_packable_of kind }
{
    match kind {
        Kind::String | Kind::Bytes | Kind::Message(_) => false,
        _ => true,
    }
}

/// Whether such a field reads the record, by its wire type.
pub(crate) fn reads(view: FieldView, rec: &RecRef<'_>) -> bool
    ensures { result ≡ reads_of view.cardinality view.kind (wire_type_of (rec_of rec.now)) }
{
    let wire = record_wire_type(rec);
    match view.cardinality {
        Cardinality::Singular => wire == kind_wire_type(view.kind),
        Cardinality::Repeated => {
            wire == kind_wire_type(view.kind) || (is_packable(view.kind) && wire == 2)
        }
        Cardinality::Map(_) => wire == 2,
    }
}

fn view(field: &FieldShape) -> FieldView
    ensures { result ≡ view_of field.now }
{
    FieldView {
        kind: field.kind,
        cardinality: field.cardinality,
    }
}

fn entry_view(kind: Kind) -> FieldView
    ensures { result ≡ record { kind = kind; cardinality = Singular } }
{
    FieldView {
        kind,
        cardinality: Cardinality::Singular,
    }
}

/// The field of a number.
pub(crate) fn view_in(schema: &Schema, owner: Owner, number: u32) -> Option<FieldView>
    ensures { result ≡ option_map view_of (field_of number (fields_at schema.now owner)) }
{
    match owner {
        Owner::Type(type_at) => match schema.field_of(type_at, number) {
            Some(field) => Some(view(field)),
            None => None,
        },
        Owner::Entry(key, value) => match number {
            1 => Some(entry_view(key)),
            2 => Some(entry_view(value)),
            _ => None,
        },
    }
}
