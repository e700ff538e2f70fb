// Values of enums by their numbers.
ghost use Rattle.std.specs.Prelude.{◌≡◌, IfOk, option_map, slice_get};
ghost use Rattle.pbx_content.specs.Shape.{enum_values_of};
ghost use Rattle.pbx_json_meaning.specs.Canonical.{value_of_number as value_of_number_of};
ghost use Rattle.pbx_json_writing.specs.Indexes.{value_at as value_at_of, IsIndexOf, AreEnumIndexes};

use pbx_content::{EnumShape, EnumValueShape, Schema};
use pbx_wire::NoMemory;
use std::alloc::Global;
use std::collections::BTreeMap;

/// Of enums that were looked into, the place of the first value of each number.
pub(crate) type EnumIndexes = BTreeMap<usize, BTreeMap<i128, usize>>;

/// Up to how many values an enum is gone through, without an index.
const SHORT: usize = 16;

/// The enum at a place.
fn enum_at(schema: &Schema, place: usize) -> Option<&EnumShape>
    ensures { option_map (λ it. it.now) result ≡ slice_get schema.now.enums place }
{
    schema.shape().enums.as_slice().get(place)
}

/// The first of these values that has the number.
fn first_of_number(values: &[EnumValueShape], number: i128) -> Option<&EnumValueShape>
    ensures { option_map (λ it. it.now) result ≡ value_of_number_of number values.now }
{
    values
        .iter()
        .find(|value| i128::from(value.number) == number)
}

/// The first declared value of a number, found by going through the values: fit for the number of a default, which the
/// first value has.
pub(crate) fn value_of_number(
    schema: &Schema,
    place: usize,
    number: i128,
) -> Option<&EnumValueShape>
    ensures { option_map (λ it. it.now) result ≡ value_of_number_of number (enum_values_of schema.now place) }
{
    match enum_at(schema, place) {
        None => None,
        Some(found) => first_of_number(found.values.as_slice(), number),
    }
}

/// The number of a value.
fn number_of(value: &EnumValueShape) -> i128
    ensures { result ≡ value.now.number }
{
    i128::from(value.number)
}

/// The place of the first value of each number.
fn index_of(alloc: Global, values: &[EnumValueShape]) -> Result<BTreeMap<i128, usize>, NoMemory>
    ensures { IfOk result (IsIndexOf values.now) }
{
    let mut index = BTreeMap::new(alloc);
    let mut left = values.len();
    while left > 0 {
        left -= 1;
        index.insert(number_of(&values[left]), left)?;
    }
    Ok(index)
}

/// Adds the index of an enum, unless it is there.
fn add_index(
    alloc: Global,
    schema: &Schema,
    indexes: &mut EnumIndexes,
    place: usize,
    values: &[EnumValueShape],
) -> Result<(), NoMemory>
    requires known { AreEnumIndexes schema.now indexes.old }
    requires values { values.now ≡ enum_values_of schema.now place }
    ensures { AreEnumIndexes schema.now indexes.new }
{
    if indexes.contains_key(&place) {
        return Ok(());
    }
    let index = index_of(alloc, values)?;
    indexes.insert(place, index)?;
    Ok(())
}

/// The value at a place.
fn value_in(values: &[EnumValueShape], place: usize) -> Option<&EnumValueShape>
    ensures { option_map (λ it. it.now) result ≡ slice_get values.now place }
{
    values.get(place)
}

/// The value that an index tells for a number.
fn value_at<'s>(
    values: &'s [EnumValueShape],
    index: &BTreeMap<i128, usize>,
    number: i128,
) -> Option<&'s EnumValueShape>
    ensures { option_map (λ it. it.now) result ≡ value_at_of values.now index.now number }
{
    match index.get(&number) {
        Some(place) => value_in(values, *place),
        None => None,
    }
}

/// The first declared value of a number, found by log n comparisons once the enum has an index.
pub(crate) fn value_by_index<'s>(
    alloc: Global,
    schema: &'s Schema,
    indexes: &mut EnumIndexes,
    place: usize,
    number: i128,
) -> Result<Option<&'s EnumValueShape>, NoMemory>
    requires { AreEnumIndexes schema.now indexes.old }
    ensures known { AreEnumIndexes schema.now indexes.new }
    ensures value { IfOk result (λ found. option_map (λ it. it.now) found ≡ value_of_number_of number (enum_values_of schema.now place)) }
{
    let Some(found) = enum_at(schema, place) else {
        return Ok(None);
    };
    let values = found.values.as_slice();
    if values.len() <= SHORT {
        return Ok(first_of_number(values, number));
    }
    add_index(alloc, schema, indexes, place, values)?;
    match indexes.get(&place) {
        Some(index) => Ok(value_at(values, index, number)),
        None => Err(NoMemory),
    }
}
