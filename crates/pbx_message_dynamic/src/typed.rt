// The types of values: their kinds, and the message types that kinds name by places.
ghost use Rattle.std.specs.Prelude.{◌≡◌};
ghost use Rattle.pbx_content.specs.Shape.{is_float as is_float_of};
ghost use Rattle.pbx_link_meaning.specs.Shapes.{shape_of};
ghost use Rattle.pbx_message_dynamic.specs.Typed.{IsTypeOf, IsFoundAt, IsTyped};
ghost use Rattle.pbx_message_dynamic.specs.Values.{variant_of};
ghost use Rattle.pbx_message_dynamic.specs.Variants.{variant_number};

use pbx_content::{Kind, Schema};
use pbx_link::MessageDescriptor;
use pbx_message_laws::{kinds_have_types, messages_are_placed};

/// The type of a value of a field of `holder`.
#[derive(Drop)]
pub(crate) struct ValueType {
    pub(crate) holder: MessageDescriptor,
    pub(crate) kind: Kind,
    /// The message type, where the kind is one of the pool.
    pub(crate) message: Option<MessageDescriptor>,
}

/// Whether it is one of the kinds whose values are not read.
pub(crate) fn is_float(kind: Kind) -> bool
    ensures { result ≡ is_float_of kind }
{
    matches!(kind, Kind::Double | Kind::Float)
}

/// The place of the variant of the kind's values.
pub(crate) fn kind_variant(kind: Kind) -> u8
    ensures { result ≡ variant_number (variant_of kind) }
{
    match kind {
        Kind::Bool => 0,
        Kind::Int32 | Kind::Sint32 | Kind::Sfixed32 => 1,
        Kind::Int64 | Kind::Sint64 | Kind::Sfixed64 => 2,
        Kind::Uint32 | Kind::Fixed32 => 3,
        Kind::Uint64 | Kind::Fixed64 => 4,
        Kind::String => 5,
        Kind::Bytes => 6,
        Kind::Enum(_) => 7,
        Kind::Message(_) => 8,
        Kind::Double | Kind::Float => 11,
    }
}

/// The message of the pool at the place.
fn message_at(
    holder: &MessageDescriptor,
    schema: &Schema,
    place: usize,
) -> Option<MessageDescriptor>
    requires { schema.now ≡ shape_of holder.now.pool }
    ensures { IsFoundAt holder.now.pool place result }
{
    kinds_have_types();
    messages_are_placed();
    let messages = schema.shape().messages.as_slice();
    if place >= messages.len() {
        return None;
    }
    let pool = holder.parent_pool();
    pool.get_message_by_name(messages[place].full_name.as_str())
}

/// The type of the values of a kind, of a field of `holder`.
pub(crate) fn value_type(holder: &MessageDescriptor, schema: &Schema, kind: Kind) -> ValueType
    requires { schema.now ≡ shape_of holder.now.pool }
    ensures kind { result.kind ≡ kind }
    ensures holder { result.holder ≡ holder.now }
    ensures typed { IsTyped result }
{
    let message = match kind {
        Kind::Message(place) => message_at(holder, schema, place),
        _ => None,
    };
    ValueType {
        holder: holder.copy(),
        kind,
        message,
    }
}
