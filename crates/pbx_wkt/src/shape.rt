// Whether a message has the shape of its name.
ghost use Rattle.std.specs.Prelude.{◌≡◌, ◌+◌, ◌<◌, ◌==◌, length, map, MatchOption};
ghost use Rattle.pbx_link_definitions.specs.Says.{is_proto3 as is_proto3_of};
ghost use Rattle.pbx_link_meaning.specs.Descriptors.{fields_of_message, extensions_of_message, with_number};
ghost use Rattle.pbx_wkt_types.specs.Rows.{row_field, row_type};
ghost use Rattle.pbx_wkt.specs.Told.{has_rows as has_rows_of, has_struct_entry as has_struct_entry_of, has_entry as has_entry_of};
ghost use Rattle.pbx_wkt.specs.Told.{is_as_declared as is_as_declared_of, has_shape as has_shape_of};

use crate::row::has_each;
use pbx_link::{Kind, MessageDescriptor, Syntax};
use pbx_wkt_types::{FieldRow, Form, STRUCT_ENTRY_NAME, TypeRow, known_of, struct_entry};

/// Whether the message stands in a file of proto3.
fn is_proto3(desc: &MessageDescriptor) -> bool
    ensures { result ≡ is_proto3_of desc.now.file }
{
    matches!(desc.parent_file().syntax(), Syntax::Proto3)
}

/// What is left of the count without the fields of the message. None where they are more.
fn without_fields(desc: &MessageDescriptor, count: usize) -> Option<usize>
    ensures { MatchOption result (count < length (fields_of_message desc.now)) (λ left. length (fields_of_message desc.now) + left ≡ count) }
{
    let mut left = count;
    for _field in desc.fields() {
        if left == 0 {
            return None;
        }
        left -= 1;
    }
    Some(left)
}

/// Whether the message has that many extensions.
fn has_extensions(desc: &MessageDescriptor, count: usize) -> bool
    ensures { result ≡ (length (extensions_of_message desc.now) == count) }
{
    let mut left = count;
    for _extension in desc.extensions() {
        if left == 0 {
            return false;
        }
        left -= 1;
    }
    left == 0
}

/// Whether the message has that many fields and extensions.
fn has_count(desc: &MessageDescriptor, count: usize) -> bool
    ensures { result ≡ (length (fields_of_message desc.now) + length (extensions_of_message desc.now) == count) }
{
    match without_fields(desc, count) {
        Some(left) => has_extensions(desc, left),
        None => false,
    }
}

/// Whether the message has a field for each row, and no other field or extension.
#[tactic(auto, unfolding(crate::specs::Told::has_rows))]
fn has_rows(desc: &MessageDescriptor, rows: &[FieldRow]) -> bool
    ensures { result ≡ has_rows_of desc.now (map row_field rows.now) }
{
    has_count(desc, rows.len()) && has_each(desc, rows)
}

/// Whether the first field is a map of which the entry is that of `Struct`.
fn has_struct_entry(desc: &MessageDescriptor) -> bool
    ensures { result ≡ has_struct_entry_of (with_number (fields_of_message desc.now) 1) }
{
    let Some(field) = desc.get_field(1) else {
        return false;
    };
    if !field.is_map() {
        return false;
    }
    match field.kind() {
        Kind::Message(entry) => {
            entry.full_name() == STRUCT_ENTRY_NAME && has_rows(&entry, struct_entry())
        }
        _ => false,
    }
}

/// Whether the entry of the map of a `Struct` is that of `Struct`.
fn has_entry(desc: &MessageDescriptor, form: Form) -> bool
    ensures { result ≡ has_entry_of desc.now form }
{
    match form {
        Form::Struct => has_struct_entry(desc),
        _ => true,
    }
}

/// Whether the message is as the row declares it.
#[tactic(auto, unfolding(crate::specs::Told::is_as_declared))]
fn is_as_declared(desc: &MessageDescriptor, row: &TypeRow) -> bool
    ensures { result ≡ is_as_declared_of desc.now (row_type row.now) }
{
    is_proto3(desc) && has_rows(desc, row.2) && has_entry(desc, row.1)
}

/// Whether the message has the shape of its name, as its descriptor tells it.
#[tactic(auto, unfolding(crate::specs::Told::has_shape))]
pub(crate) fn is_shaped(desc: &MessageDescriptor) -> bool
    ensures { result ≡ has_shape_of desc.now }
{
    match known_of(desc.full_name()) {
        None => true,
        Some(row) => is_as_declared(desc, row),
    }
}
