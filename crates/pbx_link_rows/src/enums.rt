//! Enums of a pool.

use crate::told::Told;
use pbx_link::{DescriptorPool, EnumDescriptor, EnumValueDescriptor};

/// Tells the name of the first value of this number.
fn tell_first(told: &mut Told, found: &EnumDescriptor, number: i32) {
    if let Some(first) = found.get_value(number) {
        told.add_all(&[" ", first.name()]);
    }
}

/// Tells the number of the value of this name.
fn tell_named(told: &mut Told, found: &EnumDescriptor, name: &str) {
    if let Some(named) = found.get_value_by_name(name) {
        told.add(" ");
        told.add_number(i128::from(named.number()));
    }
}

/// Tells the name and the number of a value, the name of the first value of its number, and the number of the value of its name.
fn tell_value(told: &mut Told, found: &EnumDescriptor, value: &EnumValueDescriptor) {
    told.add_all(&["(", value.name(), " "]);
    told.add_number(i128::from(value.number()));
    tell_first(told, found, value.number());
    tell_named(told, found, value.name());
    told.add(")");
}

/// Tells the name of an enum, and its values in declared order.
fn tell_enum(told: &mut Told, found: &EnumDescriptor) {
    told.add(found.full_name());
    for value in found.values() {
        tell_value(told, found, &value);
    }
}

/// Of a full name: the enum of this name, with its values.
pub(crate) fn enumeration(told: &mut Told, pool: &DescriptorPool, name: &str) {
    match pool.get_enum_by_name(name) {
        Some(found) => tell_enum(told, &found),
        None => told.add("none"),
    }
}
