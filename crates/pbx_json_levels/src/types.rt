// Types of messages and kinds of fields, as the walk asks for them.
ghost use Rattle.std.specs.Prelude.{◌≡◌};
ghost use Rattle.pbx_content.specs.Encoding.{type_of};
ghost use Rattle.pbx_content.specs.Shape.{field_of, fields_of};
ghost use Rattle.pbx_json_meaning.specs.Forms.{kind_in};

use pbx_content::{Kind, Schema};

/// The place of the message type of a kind; a kind that is no message has 0.
pub(crate) fn message_type(kind: Kind) -> usize
    ensures { result ≡ type_of kind }
{
    match kind {
        Kind::Message(place) => place,
        _ => 0,
    }
}

/// The kind of the field of a number in the type at a place; where there is none, one that no message has.
pub(crate) fn kind_at(schema: &Schema, place: usize, number: u32) -> Kind
    ensures { result ≡ kind_in (field_of number (fields_of schema.now place)) }
{
    match schema.field_of(place, number) {
        Some(field) => field.kind,
        None => Kind::Double,
    }
}
