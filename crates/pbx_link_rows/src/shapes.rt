//! The shape of the types of a pool.

use crate::told::{Told, where_it};
use pbx_content::{Cardinality, EnumShape, FieldShape, Kind, MessageShape, Schema};
use pbx_link::DescriptorPool;
use pbx_link_shapes::message_place;
use pbx_wire::Text;

/// Tells the kind's own words; a message or an enum by its place.
fn tell_kind(told: &mut Told, kind: Kind) {
    match kind {
        Kind::Message(at) => told.add_counted(" message", at),
        Kind::Enum(at) => told.add_counted(" enum", at),
        scalar => told.add_kind(scalar),
    }
}

/// Tells how many values there are.
fn tell_cardinality(told: &mut Told, cardinality: Cardinality) {
    match cardinality {
        Cardinality::Singular => {}
        Cardinality::Repeated => told.add(" repeated"),
        Cardinality::Map(key) => {
            told.add(" map");
            tell_kind(told, key);
        }
    }
}

/// Tells what else holds of a field, in words.
fn tell_traits(told: &mut Told, field: &FieldShape) {
    told.add_all(&[
        where_it(field.is_extension, " extension"),
        where_it(field.presence, " presence"),
        where_it(field.packed, " packed"),
    ]);
}

/// Tells the place of the oneof, if there is one.
fn tell_oneof(told: &mut Told, oneof: Option<u32>) {
    if let Some(oneof) = oneof {
        told.add_counted(" oneof", oneof as usize);
    }
}

/// Tells the default, if there is one.
fn tell_default(told: &mut Told, default: &Option<Text>) {
    if let Some(default) = default {
        told.add_all(&[" default=", default.as_str()]);
    }
}

/// Tells of a field.
fn tell_field(told: &mut Told, field: &FieldShape) {
    told.add_counted("(", field.number as usize);
    told.add_all(&[" ", field.name.as_str(), " ", field.json_name.as_str()]);
    tell_kind(told, field.kind);
    tell_cardinality(told, field.cardinality);
    tell_traits(told, field);
    tell_oneof(told, field.oneof);
    tell_default(told, &field.default);
    told.add(")");
}

/// Tells of a message.
fn tell_message(told: &mut Told, message: &MessageShape) {
    told.add(message.full_name.as_str());
    for field in message.fields.as_slice() {
        tell_field(told, field);
    }
}

/// Tells of an enum.
fn tell_enum(told: &mut Told, shape: &EnumShape) {
    told.add_all(&["<", shape.full_name.as_str()]);
    for value in shape.values.as_slice() {
        told.add_all(&[" ", value.name.as_str(), "="]);
        told.add_number(i128::from(value.number));
    }
    told.add(">");
}

/// Tells of all enums.
fn tell_enums(told: &mut Told, enums: &[EnumShape]) {
    for shape in enums {
        tell_enum(told, shape);
    }
}

/// Tells the place of the message of this name, its fields, and all enums.
fn tell_named(told: &mut Told, schema: &Schema, name: &str) {
    let Some(at) = message_place(schema, name) else {
        return told.add("none");
    };
    told.add_count(at);
    told.add(" ");
    if let Some(message) = schema.shape().messages.as_slice().get(at) {
        tell_message(told, message);
    }
    tell_enums(told, schema.shape().enums.as_slice());
}

/// Of a full name: the place in the pool's shape of the message of this name, its fields, and all enums.
pub(crate) fn shape(told: &mut Told, pool: &DescriptorPool, name: &str) {
    match pool.schema() {
        Ok(schema) => tell_named(told, schema.as_ref(), name),
        Err(_) => told.run_short(),
    }
}
