// Kinds, fields and forms.
ghost use Rattle.std.specs.Prelude.{◌≡◌};
ghost use Rattle.pbx_content.specs.Shape.{is_float as is_float_of};
ghost use Rattle.pbx_json_meaning.specs.Asked.{has_presence as has_presence_of};
ghost use Rattle.pbx_json_meaning.specs.Forms.{is_object_form as is_object_form_of, kind_at as kind_at_of};

use pbx_content::{Cardinality, FieldShape, Kind, Schema};
use pbx_wkt_types::Form;

/// Whether the kind is a float.
pub fn is_float(kind: Kind) -> bool
    ensures { result ≡ is_float_of kind }
{
    matches!(kind, Kind::Double | Kind::Float)
}

/// The kind of the field of a number in the type at a place; where there is none, one that no tree is read as or written for.
pub fn kind_at(schema: &Schema, place: usize, number: u32) -> Kind
    ensures { result ≡ kind_at_of schema.now place number }
{
    match schema.field_of(place, number) {
        Some(field) => field.kind,
        None => Kind::Double,
    }
}

/// Whether the field's default is told apart from no value.
pub fn has_presence(field: &FieldShape) -> bool
    ensures { result ≡ has_presence_of field.now }
{
    match field.cardinality {
        Cardinality::Singular => match field.kind {
            Kind::Message(_) => true,
            _ => field.presence,
        },
        _ => false,
    }
}

/// Whether messages of the form are objects of fields.
pub fn is_object_form(form: Form) -> bool
    ensures { result ≡ is_object_form_of form }
{
    matches!(form, Form::Fields | Form::Empty)
}
