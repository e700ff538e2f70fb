// Whether a type has the shape of its name.
ghost use Rattle.std.specs.Prelude.{◌≡◌, map, find, option_map};
ghost use Rattle.std.specs.Str.{bytes_eq};
ghost use Rattle.std.specs.List.{list_all};
ghost use Rattle.pbx_content.specs.Shape.{field_of, fields_of};
ghost use Rattle.pbx_wkt_types.specs.Known.{known_of as known_type, struct_entry as struct_entry_rows};
ghost use Rattle.pbx_wkt_types.specs.Rows.{row_field, row_type};
ghost use Rattle.pbx_wkt_types.specs.Shapes.{has_row as has_row_of, has_rows as has_rows_of, has_struct_entry as has_struct_entry_of, has_entry as has_entry_of};
ghost use Rattle.pbx_wkt_types.specs.Shapes.{is_as_declared as is_as_declared_of, form_of as form_of_type, meets_shape};

use crate::form::Form;
use crate::place::{field_count, is_proto3, message_name};
use crate::row::has_row;
use crate::table::{FieldRow, STRUCT_ENTRY, STRUCT_ENTRY_NAME, TYPES, TypeRow};
use pbx_content::Schema;

/// The first of the types that has the name.
fn named(types: &'static [TypeRow], full_name: &str) -> Option<&'static TypeRow>
    ensures { option_map (λ row. row_type row.now) result ≡ find (λ known. bytes_eq known.name full_name.now) (map row_type types.now) }
{
    for row in types {
        if row.0 == full_name {
            return Some(row);
        }
    }
    None
}

/// The type of a full name, without a leading dot, if it is one of the seventeen.
pub fn known_of(full_name: &str) -> Option<&'static TypeRow>
    ensures { option_map (λ row. row_type row.now) result ≡ known_type full_name.now }
{
    // Most types are of another package, which one look tells.
    if full_name.starts_with("google.protobuf.") {
        named(&TYPES, full_name)
    } else {
        None
    }
}

/// Whether the type at the place has the field that each row declares.
fn has_each(schema: &Schema, place: usize, rows: &[FieldRow]) -> bool
    ensures { result ≡ list_all (has_row_of schema.now place) (map row_field rows.now) }
{
    for row in rows {
        if !has_row(schema, place, row) {
            return false;
        }
    }
    true
}

/// Whether the type at the place has a field for each row, and no others.
fn has_rows(schema: &Schema, place: usize, rows: &[FieldRow]) -> bool
    ensures { result ≡ has_rows_of schema.now place (map row_field rows.now) }
{
    field_count(schema, place) == rows.len() && has_each(schema, place, rows)
}

/// The fields of the entry of the map of a `Struct`.
pub fn struct_entry() -> &'static [FieldRow]
    ensures { map row_field result.now ≡ struct_entry_rows }
{
    &STRUCT_ENTRY
}

/// Whether the first field is a map of which the entry is that of `Struct`.
fn has_struct_entry(schema: &Schema, place: usize) -> bool
    ensures { result ≡ has_struct_entry_of schema.now (field_of 1 (fields_of schema.now place)) }
{
    let Some(field) = schema.field_of(place, 1) else {
        return false;
    };
    let Some(entry) = field.entry else {
        return false;
    };
    message_name(schema, entry) == STRUCT_ENTRY_NAME && has_rows(schema, entry, struct_entry())
}

/// Whether the entry of the map of a `Struct` is that of `Struct`.
fn has_entry(schema: &Schema, place: usize, form: Form) -> bool
    ensures { result ≡ has_entry_of schema.now place form }
{
    match form {
        Form::Struct => has_struct_entry(schema, place),
        _ => true,
    }
}

/// Whether the type at the place is as the row declares it.
#[tactic(auto, unfolding(crate::specs::Shapes::is_as_declared))]
fn is_as_declared(schema: &Schema, place: usize, row: &TypeRow) -> bool
    ensures { result ≡ is_as_declared_of schema.now place (row_type row.now) }
{
    is_proto3(schema, place) && has_rows(schema, place, row.2) && has_entry(schema, place, row.1)
}

/// How JSON tells the messages of the type at a place of the schema.
#[tactic(auto, unfolding(crate::specs::Shapes::form_of))]
pub fn form_of(schema: &Schema, place: usize) -> Form
    ensures { result ≡ form_of_type schema.now place }
{
    match known_of(message_name(schema, place)) {
        None => Form::Fields,
        Some(row) if is_as_declared(schema, place, row) => row.1,
        Some(_) => Form::Misshapen,
    }
}

/// Whether the type at a place has the shape of its name; a type of any other name has.
pub fn type_has_shape(schema: &Schema, place: usize) -> bool
    ensures { result ≡ meets_shape schema.now place }
{
    !matches!(form_of(schema, place), Form::Misshapen)
}
