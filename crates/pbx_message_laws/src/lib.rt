//! Fields of dynamic messages: what setting and clearing them does, what their defaults are, and which are a message's own.
#![tactic(auto)]

mod laws;

pub use laws::{
    clearing_is_sound, defaults_are_settable, empty_is_sound, fields_are_as_set, fields_are_listed,
    fields_of_messages, items_are_of_kinds, keys_are_in_order, kinds_have_types, members_of_oneofs,
    messages_are_placed, setting_is_sound, sound_values_are_settable,
};
