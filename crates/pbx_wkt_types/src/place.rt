// What a schema says of the type or enum at a place.
ghost use Rattle.std.specs.Prelude.{◌≡◌, length};
ghost use Rattle.pbx_content.specs.Shape.{declared_of};
ghost use Rattle.pbx_wkt_types.specs.Types.{message_name as message_name_of, enum_name as enum_name_of};
ghost use Rattle.pbx_wkt_types.specs.Shapes.{is_proto3_at};

use pbx_content::Schema;

/// The full name of the message type; a place outside the schema has the empty one.
pub(crate) fn message_name(schema: &Schema, place: usize) -> &str
    ensures { result.now ≡ message_name_of schema.now place }
{
    let messages = schema.shape().messages.as_slice();
    if place < messages.len() {
        messages[place].full_name.as_str()
    } else {
        ""
    }
}

/// The full name of the enum; a place outside the schema has the empty one.
pub(crate) fn enum_name(schema: &Schema, place: usize) -> &str
    ensures { result.now ≡ enum_name_of schema.now place }
{
    let enums = schema.shape().enums.as_slice();
    if place < enums.len() {
        enums[place].full_name.as_str()
    } else {
        ""
    }
}

/// Whether the message type stands in a file of proto3.
pub(crate) fn is_proto3(schema: &Schema, place: usize) -> bool
    ensures { result ≡ is_proto3_at schema.now.messages place }
{
    let messages = schema.shape().messages.as_slice();
    place < messages.len() && messages[place].proto3
}

/// How many fields and extensions the message type has.
pub(crate) fn field_count(schema: &Schema, place: usize) -> usize
    ensures { result ≡ length (declared_of schema.now place) }
{
    let messages = schema.shape().messages.as_slice();
    if place < messages.len() {
        messages[place].fields.as_slice().len()
    } else {
        0
    }
}
