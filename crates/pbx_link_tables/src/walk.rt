// Parts of a file's record, found by their places.
ghost use Rattle.std.specs.Prelude.{◌≡◌, option_copied, slice_get};
ghost use Rattle.pbx_link_tables.specs.Places.{first_item as first_item_of, message_below as message_below_of, message_at as message_at_of};
ghost use Rattle.pbx_link_tables.specs.Places.{holder as holder_of, enum_at as enum_at_of, extension_at as extension_at_of};

use pbx_desc_records::{
    DescriptorProto, EnumDescriptorProto, FieldDescriptorProto, FileDescriptorProto,
};

/// The item of this index.
pub(crate) fn item<T>(items: &[T], index: usize) -> Option<&T>
    ensures { option_copied result ≡ slice_get items.now index }
{
    items.get(index)
}

/// The item of the index that stands second in the place, which is none where the index is negative or does not stand there.
fn first_item<'a, T>(items: &'a [T], place: &[i32]) -> Option<&'a T>
    ensures { option_copied result ≡ first_item_of place.now items.now }
{
    if place.len() < 2 {
        return None;
    }
    let index = place[1];
    if index < 0 {
        return None;
    }
    item(items, index as usize)
}

/// The message at the rest of a place, from a message on.
fn message_below<'a>(message: &'a DescriptorProto, place: &[i32]) -> Option<&'a DescriptorProto>
    ensures { option_copied result ≡ message_below_of message.now place.now }
{
    let mut here = message;
    let mut rest = place;
    while rest.len() > 1 {
        let Some(nested) = first_item(here.nested_type.as_slice(), rest) else {
            return None;
        };
        here = nested;
        rest = &rest[2..];
    }
    Some(here)
}

/// The message at the place.
pub(crate) fn message_at<'a>(
    file: &'a FileDescriptorProto,
    place: &[i32],
) -> Option<&'a DescriptorProto>
    ensures { option_copied result ≡ message_at_of file.now place.now }
{
    match first_item(file.message_type.as_slice(), place) {
        Some(message) => message_below(message, &place[2..]),
        None => None,
    }
}

/// The place of what holds what stands at the place.
pub(crate) fn holder(place: &[i32]) -> &[i32]
    ensures { result.now ≡ holder_of place.now }
{
    match place {
        [holder @ .., _, _] => holder,
        _ => &[],
    }
}

/// The enum of this index in the message at the place, or in the file where the place is empty.
pub(crate) fn enum_at<'a>(
    file: &'a FileDescriptorProto,
    place: &[i32],
    index: usize,
) -> Option<&'a EnumDescriptorProto>
    ensures { option_copied result ≡ enum_at_of file.now place.now index }
{
    if place.len() == 0 {
        return item(file.enum_type.as_slice(), index);
    }
    match message_at(file, place) {
        Some(message) => item(message.enum_type.as_slice(), index),
        None => None,
    }
}

/// The same of extensions.
pub(crate) fn extension_at<'a>(
    file: &'a FileDescriptorProto,
    place: &[i32],
    index: usize,
) -> Option<&'a FieldDescriptorProto>
    ensures { option_copied result ≡ extension_at_of file.now place.now index }
{
    if place.len() == 0 {
        return item(file.extension.as_slice(), index);
    }
    match message_at(file, place) {
        Some(message) => item(message.extension.as_slice(), index),
        None => None,
    }
}
