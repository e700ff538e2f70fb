// Enums by their places.
ghost use Rattle.std.specs.Prelude.{◌≡◌};
ghost use Rattle.std.specs.Int.{w32};
ghost use Rattle.std.specs.Int.RustNames.{FitsSigned};
ghost use Rattle.pbx_content.specs.Shape.{first_of as first_of_values, first_number};
ghost use Rattle.pbx_wkt_types.specs.Types.{enum_name as enum_name_of};
ghost use Rattle.pbx_json_meaning.specs.Scalars.{is_null_value as is_null_value_of};

use pbx_content::{EnumShape, Schema};

/// The number of the first value.
fn first_of(shape: &EnumShape) -> i32
    ensures is { result ≡ first_of_values shape.now.values }
    ensures fits { FitsSigned w32 result }
{
    match shape.values.as_slice().first() {
        Some(value) => value.number,
        None => 0,
    }
}

/// The number of an enum's first value, which is its default; a place outside the schema has 0.
pub fn first_value(schema: &Schema, enum_at: usize) -> i32
    ensures { result ≡ first_number schema.now enum_at }
{
    let enums = schema.shape().enums.as_slice();
    if enum_at >= enums.len() {
        return 0;
    }
    first_of(&enums[enum_at])
}

/// The full name of the enum at a place; a place outside the schema has the empty one.
fn enum_name(schema: &Schema, place: usize) -> &str
    ensures { result.now ≡ enum_name_of schema.now place }
{
    let enums = schema.shape().enums.as_slice();
    if place < enums.len() {
        enums[place].full_name.as_str()
    } else {
        ""
    }
}

/// Whether the enum is `google.protobuf.NullValue`, where its first number is 0.
pub fn is_null_value(schema: &Schema, place: usize) -> bool
    ensures { result ≡ is_null_value_of schema.now place }
{
    matches!(enum_name(schema, place), "google.protobuf.NullValue")
        && first_value(schema, place) == 0
}
