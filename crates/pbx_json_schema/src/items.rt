ghost use Rattle.std.specs.Prelude.{◌≡◌, ◌<◌, ℕ, List as ListOf, length, slice_get, cond, OnOk, option_map};
ghost use Rattle.std.specs.Option.{option_or};
ghost use Rattle.std.specs.Str.{bytes_eq};
ghost use Rattle.pbx_json_schema.specs.Index.{item_at as item_at_place, item_under as item_under_name};

use crate::name_places::NamePlaces;
use pbx_wire::NoMemory;
use std::alloc::Global;

/// The element at a place.
fn item_at<T>(items: &[T], place: Option<usize>) -> Option<&T>
    ensures { option_map (λ item. item.now) result ≡ item_at_place items.now place }
{
    match place {
        Some(place) => items.get(place),
        None => None,
    }
}

/// The element under a name, by log n comparisons.
pub(crate) fn item_under<'t, T>(items: &'t [T], places: &NamePlaces, name: &str) -> Option<&'t T>
    ensures { option_map (λ item. item.now) result ≡ item_under_name items.now places.now name.now }
{
    item_at(items, places.get(name))
}

/// Puts the element at the place under the name, where none is there yet.
pub(crate) fn add<T>(
    places: &mut NamePlaces,
    alloc: Global,
    items: &[T],
    place: usize,
    name: &str,
) -> Result<(), NoMemory>
    requires { place < length items.now }
    ensures { OnOk result ((q : ListOf ℕ) → item_under_name items.now places.new q
        ≡ option_or (item_under_name items.now places.old q) (cond (bytes_eq name.now q) (slice_get items.now place) None)) }
{
    if item_under(items, places, name).is_some() {
        return Ok(());
    }
    places.put(alloc, name, place)
}
