//! Fields and extensions of a pool.

use crate::told::{Told, where_it};
use pbx_link::{Cardinality, DescriptorPool, ExtensionDescriptor, FieldDescriptor, Kind};

/// The word of a label.
fn label_word(label: Cardinality) -> &'static str {
    match label {
        Cardinality::Optional => "optional",
        Cardinality::Required => "required",
        Cardinality::Repeated => "repeated",
    }
}

/// The word of a kind.
fn kind_word(kind: &Kind) -> &'static str {
    match kind {
        Kind::Double => "double",
        Kind::Float => "float",
        Kind::Int32 => "int32",
        Kind::Int64 => "int64",
        Kind::Uint32 => "uint32",
        Kind::Uint64 => "uint64",
        Kind::Sint32 => "sint32",
        Kind::Sint64 => "sint64",
        Kind::Fixed32 => "fixed32",
        Kind::Fixed64 => "fixed64",
        Kind::Sfixed32 => "sfixed32",
        Kind::Sfixed64 => "sfixed64",
        Kind::Bool => "bool",
        Kind::String => "string",
        Kind::Bytes => "bytes",
        Kind::Message(_) => "message ",
        Kind::Enum(_) => "enum ",
    }
}

/// The full name of a message or an enum.
fn type_name(kind: &Kind) -> &str {
    match kind {
        Kind::Message(message) => message.full_name(),
        Kind::Enum(found) => found.full_name(),
        _ => "",
    }
}

/// What is told alike of a field and of an extension.
#[derive(Drop)]
struct Traits<'a> {
    number: u32,
    full_name: &'a str,
    json_name: &'a str,
    label: Cardinality,
    is_list: bool,
    is_map: bool,
    is_packed: bool,
    has_presence: bool,
}

/// Tells the number and the names.
fn tell_names(told: &mut Told, traits: &Traits<'_>) {
    told.add("(");
    told.add_number(i128::from(traits.number));
    told.add_all(&[" ", traits.full_name, " ", traits.json_name, " "]);
}

/// Tells what else holds, in words.
fn tell_words(told: &mut Told, traits: &Traits<'_>) {
    told.add_all(&[
        " ",
        label_word(traits.label),
        where_it(traits.is_list, " list"),
        where_it(traits.is_map, " map"),
        where_it(traits.is_packed, " packed"),
        where_it(traits.has_presence, " presence"),
    ]);
}

/// Tells number, names, kind, label, and what else holds.
fn tell_traits(told: &mut Told, traits: &Traits<'_>, kind: &Kind) {
    tell_names(told, traits);
    told.add(kind_word(kind));
    told.add(type_name(kind));
    tell_words(told, traits);
}

/// Tells the default, if there is one.
fn tell_default(told: &mut Told, default: Option<&str>) {
    if let Some(default) = default {
        told.add_all(&[" default=", default]);
    }
}

/// What is told of a field.
fn traits_of_field(field: &FieldDescriptor) -> Traits<'_> {
    Traits {
        number: field.number(),
        full_name: field.full_name(),
        json_name: field.json_name(),
        label: field.cardinality(),
        is_list: field.is_list(),
        is_map: field.is_map(),
        is_packed: field.is_packed(),
        has_presence: field.supports_presence(),
    }
}

/// Tells the oneof that a field is a member of.
fn tell_oneof(told: &mut Told, field: &FieldDescriptor) {
    if let Some(oneof) = field.containing_oneof() {
        told.add_all(&[" in ", oneof.name()]);
    }
}

/// Tells of a field of a message: numbers, names, kind and label, and what else holds of it.
pub(crate) fn tell_field(told: &mut Told, field: &FieldDescriptor) {
    tell_traits(told, &traits_of_field(field), &field.kind());
    tell_oneof(told, field);
    tell_default(told, field.default_text());
    told.add(")");
}

/// What is told of an extension.
fn traits_of_extension(extension: &ExtensionDescriptor) -> Traits<'_> {
    Traits {
        number: extension.number(),
        full_name: extension.full_name(),
        json_name: extension.json_name(),
        label: extension.cardinality(),
        is_list: extension.is_list(),
        is_map: extension.is_map(),
        is_packed: extension.is_packed(),
        has_presence: extension.supports_presence(),
    }
}

/// Tells the message in whose body an extension stands.
fn tell_parent(told: &mut Told, extension: &ExtensionDescriptor) {
    if let Some(parent) = extension.parent_message() {
        told.add_all(&[" in ", parent.full_name()]);
    }
}

/// Tells of an extension: as of a field, what it extends, and in what it stands.
pub(crate) fn tell_extension(told: &mut Told, extension: &ExtensionDescriptor) {
    tell_traits(told, &traits_of_extension(extension), &extension.kind());
    tell_default(told, extension.default_text());
    told.add_all(&[" extends ", extension.containing_message().full_name()]);
    tell_parent(told, extension);
    told.add(")");
}

/// Of a full name: the extension of this name.
pub(crate) fn extension(told: &mut Told, pool: &DescriptorPool, name: &str) {
    match pool.get_extension_by_name(name) {
        Some(extension) => tell_extension(told, &extension),
        None => told.add("none"),
    }
}

/// The full name of each extension.
pub(crate) fn extensions(told: &mut Told, pool: &DescriptorPool) {
    for extension in pool.all_extensions() {
        told.add_all(&["(", extension.full_name(), ")"]);
    }
}
