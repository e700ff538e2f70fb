// What the record of a field or an extension says.
ghost use Rattle.std.specs.Prelude.{◌≡◌, ◌&&◌, option_copied};
ghost use Rattle.pbx_link_definitions.specs.Says.{is_repeated as is_repeated_of, option_bool as option_bool_of};
ghost use Rattle.pbx_link_meaning.specs.Descriptors.{is_packable as is_packable_of, packed_by};
ghost use Rattle.pbx_link.specs.Kinds.{labelled};

use crate::kind::Cardinality;
use pbx_desc_records::{FieldDescriptorProto, Options};
use pbx_wire::Text;

/// The text, if there is one.
pub(crate) fn text(text: &Option<Text>) -> Option<&str>
    ensures { option_copied result ≡ text.now }
{
    match text {
        Some(text) => Some(text.as_str()),
        None => None,
    }
}

/// The label of this number.
pub(crate) fn cardinality(label: Option<i32>) -> Cardinality
    ensures { result ≡ labelled label }
{
    match label {
        Some(2) => Cardinality::Required,
        Some(3) => Cardinality::Repeated,
        _ => Cardinality::Optional,
    }
}

/// Whether the label is `repeated`.
pub(crate) fn is_repeated(field: &FieldDescriptorProto) -> bool
    ensures { result ≡ is_repeated_of field.now }
{
    matches!(field.label, Some(3))
}

/// The option of this number as a truth value, if it is given.
fn option_bool(options: &Option<Options>, number: u32) -> Option<bool>
    ensures { result ≡ option_bool_of number options.now }
{
    match options {
        Some(options) => options.bool_of(number),
        None => None,
    }
}

/// Whether a list of the type of this number may be packed.
fn is_packable(kind: Option<i32>) -> bool
    ensures { result ≡ is_packable_of kind }
{
    !matches!(kind, Some(9 | 11 | 12))
}

/// Whether the list of the field is written as one record, in a file of this language.
pub(crate) fn is_packed(field: &FieldDescriptorProto, is_proto3: bool) -> bool
    ensures { result ≡ (is_repeated_of field.now && is_packable_of field.now.kind && packed_by is_proto3 (option_bool_of 2 field.now.options)) }
{
    is_repeated(field)
        && is_packable(field.kind)
        && option_bool(&field.options, 2).unwrap_or(is_proto3)
}
