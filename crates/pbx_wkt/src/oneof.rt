// Which oneof a field is a member of.
ghost use Rattle.std.specs.Prelude.{◌≡◌, slice_get};
ghost use Rattle.pbx_link_meaning.specs.Descriptors.{fields_of_oneof, oneofs_of_message};
ghost use Rattle.pbx_wkt.specs.Told.{has_number as has_number_of, has_oneof as has_oneof_of};

use pbx_link::{FieldDescriptor, MessageDescriptor, OneofDescriptor};

/// The oneof at the place among those of the message.
fn oneof_at(desc: &MessageDescriptor, place: u32) -> Option<OneofDescriptor>
    ensures { result ≡ slice_get (oneofs_of_message desc.now) place }
{
    let mut left = place;
    for oneof in desc.oneofs() {
        if left == 0 {
            return Some(oneof);
        }
        left -= 1;
    }
    None
}

/// Whether a member of the oneof has the number.
fn has_number(oneof: &OneofDescriptor, number: u32) -> bool
    ensures { result ≡ has_number_of number (fields_of_oneof oneof.now) }
{
    for field in oneof.fields() {
        if field.number() == number {
            return true;
        }
    }
    false
}

/// Whether the field of the message is a member of no oneof, or of the one at the place.
pub(crate) fn has_oneof(
    desc: &MessageDescriptor,
    place: Option<u32>,
    field: &FieldDescriptor,
) -> bool
    ensures { result ≡ has_oneof_of desc.now place field.now }
{
    let Some(place) = place else {
        return field.containing_oneof().is_none();
    };
    match oneof_at(desc, place) {
        Some(oneof) => has_number(&oneof, field.number()),
        None => false,
    }
}
