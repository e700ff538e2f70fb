// What records say.
ghost use Rattle.std.specs.Prelude.{◌≡◌, IfOk, option_copied};
ghost use Rattle.pbx_link_definitions.specs.Names.{text_or_empty as text_or_empty_of};
ghost use Rattle.pbx_link_definitions.specs.Says.{is_repeated as is_repeated_of, is_number as is_number_of, is_entry as is_entry_of};
ghost use Rattle.pbx_link_definitions.specs.Says.{is_proto3 as is_proto3_of, option_bool as option_bool_of, signed_or_zero as signed_or_zero_of};
ghost use Rattle.pbx_link_meaning.specs.Descriptors.{is_packable as is_packable_of, behind_dot as behind_dot_of, referred as referred_of};
ghost use Rattle.pbx_link_meaning.specs.Shapes.{index_if as index_if_of};
ghost use Rattle.pbx_link_shapes.specs.Items.{item_packed, item_presence};

use pbx_desc_records::{DescriptorProto, FieldDescriptorProto, FileDescriptorProto, Options};
use pbx_link_definitions::{is_named, text_or_empty};
use pbx_wire::{NoMemory, Text};
use std::alloc::Global;

/// A copy of the text, or the empty one.
pub(crate) fn text_copy(alloc: Global, text: &Option<Text>) -> Result<Text, NoMemory>
    ensures { IfOk result (λ copy. copy ≡ text_or_empty_of text.now) }
{
    Text::from_str(alloc, text_or_empty(text))
}

/// A copy of the text, if there is one.
pub(crate) fn option_copy(alloc: Global, text: &Option<Text>) -> Result<Option<Text>, NoMemory>
    ensures { IfOk result (λ copy. copy ≡ text.now) }
{
    match text {
        Some(text) => Ok(Some(text.copy(alloc)?)),
        None => Ok(None),
    }
}

/// What stands behind a leading dot.
fn behind_dot(name: &str) -> Option<&str>
    ensures { option_copied result ≡ behind_dot_of name.now }
{
    name.strip_prefix('.')
}

/// The full name that a linked reference names.
pub(crate) fn referred(name: &Option<Text>) -> Option<&str>
    ensures { option_copied result ≡ referred_of name.now }
{
    match name {
        Some(name) => behind_dot(name.as_str()),
        None => None,
    }
}

/// Whether the file is of proto3.
pub(crate) fn is_proto3(file: &FileDescriptorProto) -> bool
    ensures { result ≡ is_proto3_of file.now }
{
    is_named(&file.syntax, "proto3")
}

/// Whether the number is there, and is this one.
pub(crate) fn is_number(number: Option<i32>, wanted: u8) -> bool
    ensures { result ≡ is_number_of number wanted }
{
    match number {
        Some(number) => number == i32::from(wanted),
        None => false,
    }
}

/// An index, if there is one.
pub(crate) fn index_if(index: Option<i32>) -> Option<u32>
    ensures { result ≡ index_if_of index }
{
    match index {
        Some(index) if index > 0 => Some(index as u32),
        Some(_) => Some(0),
        None => None,
    }
}

/// The number, or 0.
pub(crate) fn signed_or_zero(number: Option<i32>) -> i32
    ensures { result ≡ signed_or_zero_of number }
{
    match number {
        Some(number) => number,
        None => 0,
    }
}

/// Whether the label is `repeated`.
pub(crate) fn is_repeated(field: &FieldDescriptorProto) -> bool
    ensures { result ≡ is_repeated_of field.now }
{
    matches!(field.label, Some(3))
}

/// The option of this number as a truth value, if it is given.
fn option_bool(options: &Option<Options>, number: u32) -> Option<bool>
    ensures { result ≡ option_bool_of number options.now }
{
    match options {
        Some(options) => options.bool_of(number),
        None => None,
    }
}

/// Whether the message is the entry of a map.
pub(crate) fn is_entry(message: &DescriptorProto) -> bool
    ensures { result ≡ is_entry_of message.now }
{
    match &message.options {
        Some(options) => options.bool_of(7).unwrap_or(false),
        None => false,
    }
}

/// Whether a list of the type of this number may be packed.
fn is_packable(kind: Option<i32>) -> bool
    ensures { result ≡ is_packable_of kind }
{
    !matches!(kind, Some(9 | 11 | 12))
}

/// Whether a list of the field is written as one record.
pub(crate) fn is_packed(proto3: bool, field: &FieldDescriptorProto) -> bool
    ensures { result ≡ item_packed proto3 field.now }
{
    is_repeated(field)
        && is_packable(field.kind)
        && option_bool(&field.options, 2).unwrap_or(proto3)
}

/// Whether a default of the field differs from no value.
pub(crate) fn has_presence(proto3: bool, field: &FieldDescriptorProto) -> bool
    ensures { result ≡ item_presence proto3 field.now }
{
    !is_repeated(field) && (!proto3 || is_number(field.kind, 11) || field.oneof_index.is_some())
}
