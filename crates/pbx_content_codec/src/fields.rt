ghost use Rattle.std.specs.Prelude.{◌≡◌, true, None, option_map};
ghost use Rattle.pbx_content.specs.declared.shape.Cardinality.TheVariants.{Singular};
ghost use Rattle.pbx_content.specs.Shape.{field_of, form_of, is_float as is_float_of, is_packable as is_packable_of};
ghost use Rattle.pbx_content.specs.Faults.{reads as reads_of};
ghost use Rattle.pbx_content.specs.Laws.{takes_key as takes_key_of};
ghost use Rattle.pbx_content_codec.specs.Fields.{view_of, fields_at, form_in};

use pbx_content::{Cardinality, FieldShape, Kind, Schema};

/// What of a field reading asks for.
#[derive(Clone, Copy)]
pub(crate) struct FieldView {
    pub number: u32,
    pub kind: Kind,
    pub cardinality: Cardinality,
    pub presence: bool,
    pub oneof: Option<u32>,
}

/// Whose fields are read.
#[derive(Clone, Copy)]
pub(crate) enum Owner {
    /// The message type at a place.
    Type(usize),
    /// An entry of a map whose keys and values are of these kinds.
    Entry(Kind, Kind),
}

/// How a value stands behind its key.
#[derive(Clone, Copy)]
pub(crate) enum Form {
    Varint,
    Four,
    Eight,
    Payload,
}

pub(crate) fn is_float(kind: Kind) -> bool
    ensures { result ≡ is_float_of kind }
{
    match kind {
        Kind::Double => true,
        Kind::Float => true,
        _ => false,
    }
}

pub(crate) fn form_of_kind(kind: Kind) -> Form
    ensures { form_in result ≡ form_of kind }
{
    match kind {
        Kind::Double => Form::Eight,
        Kind::Float => Form::Four,
        Kind::Fixed32 => Form::Four,
        Kind::Sfixed32 => Form::Four,
        Kind::Fixed64 => Form::Eight,
        Kind::Sfixed64 => Form::Eight,
        Kind::String => Form::Payload,
        Kind::Bytes => Form::Payload,
        Kind::Message(_) => Form::Payload,
        _ => Form::Varint,
    }
}

pub(crate) fn is_packable(kind: Kind) -> bool
    ensures { result ≡ is_packable_of kind }
{
    match form_of_kind(kind) {
        Form::Payload => false,
        _ => true,
    }
}

fn is_own_type(kind: Kind, wire: u32) -> bool
    ensures { result ≡ reads_of Singular kind wire }
{
    match form_of_kind(kind) {
        Form::Varint => wire == 0,
        Form::Eight => wire == 1,
        Form::Payload => wire == 2,
        Form::Four => wire == 5,
    }
}

/// Whether such a field reads records of the wire type.
fn reads(cardinality: Cardinality, kind: Kind, wire: u32) -> bool
    ensures { result ≡ reads_of cardinality kind wire }
{
    match cardinality {
        Cardinality::Singular => is_own_type(kind, wire),
        Cardinality::Repeated => is_own_type(kind, wire) || (is_packable(kind) && wire == 2),
        Cardinality::Map(_) => wire == 2,
    }
}

fn view(field: &FieldShape) -> FieldView
    ensures { result ≡ view_of field.now }
{
    FieldView {
        number: field.number,
        kind: field.kind,
        cardinality: field.cardinality,
        presence: field.presence,
        oneof: field.oneof,
    }
}

/// A field of an entry: of at most one value, with presence.
fn entry_view(number: u32, kind: Kind) -> FieldView
    ensures { result ≡ record { number = number; kind = kind; cardinality = Singular; presence = true; oneof = None } }
{
    FieldView {
        number,
        kind,
        cardinality: Cardinality::Singular,
        presence: true,
        oneof: None,
    }
}

/// The field of a number.
pub(crate) fn view_in(schema: &Schema, owner: Owner, number: u32) -> Option<FieldView>
    ensures { result ≡ option_map view_of (field_of number (fields_at schema.now owner)) }
{
    match owner {
        Owner::Type(type_at) => match schema.field_of(type_at, number) {
            Some(field) => Some(view(field)),
            None => None,
        },
        Owner::Entry(key, value) => match number {
            1 => Some(entry_view(1, key)),
            2 => Some(entry_view(2, value)),
            _ => None,
        },
    }
}

/// Whether the key at the front, where there is one, is not that of a field with a wire type that the field does
/// not read.
pub(crate) fn takes_key(schema: &Schema, owner: Owner, key: Option<(u32, u32)>) -> bool
    ensures { result ≡ takes_key_of (fields_at schema.now owner) key }
{
    let Some((number, wire)) = key else {
        return true;
    };
    match view_in(schema, owner, number) {
        Some(view) => is_float(view.kind)
            || (wire == 4 || reads(view.cardinality, view.kind, wire)),
        None => true,
    }
}
