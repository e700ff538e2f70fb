//! Messages of a pool.

use crate::fields::{tell_extension, tell_field};
use crate::told::Told;
use pbx_link::{
    DescriptorPool, ExtensionDescriptor, FieldDescriptor, MessageDescriptor, OneofDescriptor,
};

/// Tells the names of a message, its file, and whether it is the entry of a map.
fn tell_names(told: &mut Told, message: &MessageDescriptor) {
    told.add_all(&[message.name(), " ", message.full_name(), " in "]);
    told.add(message.parent_file().name());
    if message.is_map_entry() {
        told.add(" entry");
    }
}

/// Whether it is a field of this full name.
fn is_it(found: Option<FieldDescriptor>, full_name: &str) -> bool {
    match found {
        Some(field) => field.full_name() == full_name,
        None => false,
    }
}

/// Whether the message finds the field by its number and its names.
fn is_found(message: &MessageDescriptor, field: &FieldDescriptor) -> bool {
    let name = field.full_name();
    is_it(message.get_field(field.number()), name)
        && is_it(message.get_field_by_name(field.name()), name)
        && is_it(message.get_field_by_json_name(field.json_name()), name)
}

/// Tells of a field of a message; a mark behind one that is not found by its number and names.
fn tell_own_field(told: &mut Told, message: &MessageDescriptor, field: &FieldDescriptor) {
    tell_field(told, field);
    if !is_found(message, field) {
        told.add("!");
    }
}

/// Tells of the fields of a message, in declared order.
fn tell_fields(told: &mut Told, message: &MessageDescriptor) {
    for field in message.fields() {
        tell_own_field(told, message, &field);
    }
}

/// Tells a oneof with its fields.
fn tell_oneof(told: &mut Told, oneof: &OneofDescriptor) {
    told.add_all(&["<", oneof.name()]);
    for field in oneof.fields() {
        told.add_all(&[" ", field.name()]);
    }
    told.add(">");
}

/// Tells the oneofs of a message, in declared order.
fn tell_oneofs(told: &mut Told, message: &MessageDescriptor) {
    for oneof in message.oneofs() {
        tell_oneof(told, &oneof);
    }
}

/// Whether it is an extension of this full name.
fn is_that(found: Option<ExtensionDescriptor>, full_name: &str) -> bool {
    match found {
        Some(extension) => extension.full_name() == full_name,
        None => false,
    }
}

/// Whether the message finds the extension by its number and its JSON name.
fn is_extension_found(message: &MessageDescriptor, extension: &ExtensionDescriptor) -> bool {
    let name = extension.full_name();
    let json_name = extension.json_name();
    is_that(message.get_extension(extension.number()), name)
        && is_that(message.get_extension_by_json_name(json_name), name)
}

/// Tells of an extension of a message; a mark behind one that is not found by its number and JSON name.
fn tell_own_extension(
    told: &mut Told,
    message: &MessageDescriptor,
    extension: &ExtensionDescriptor,
) {
    tell_extension(told, extension);
    if !is_extension_found(message, extension) {
        told.add("!");
    }
}

/// Tells of the extensions of a message, in the order of the pool.
fn tell_extensions(told: &mut Told, message: &MessageDescriptor) {
    for extension in message.extensions() {
        tell_own_extension(told, message, &extension);
    }
}

/// Tells of a message, with its fields, oneofs and extensions.
fn tell_message(told: &mut Told, message: &MessageDescriptor) {
    tell_names(told, message);
    tell_fields(told, message);
    tell_oneofs(told, message);
    tell_extensions(told, message);
}

/// Of a full name: the message of this name.
pub(crate) fn message(told: &mut Told, pool: &DescriptorPool, name: &str) {
    match pool.get_message_by_name(name) {
        Some(message) => tell_message(told, &message),
        None => told.add("none"),
    }
}

/// The full name of each message.
pub(crate) fn messages(told: &mut Told, pool: &DescriptorPool) {
    for message in pool.all_messages() {
        told.add_all(&["(", message.full_name(), ")"]);
    }
}
