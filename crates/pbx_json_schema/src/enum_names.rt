ghost use Rattle.std.specs.Prelude.{◌≡◌, IfOk, option_map};
ghost use Rattle.pbx_json_meaning.specs.Scalars.{value_named};
ghost use Rattle.pbx_json_schema.specs.Index.{AreNamesOf};

use crate::items::{add, item_under};
use crate::name_places::NamePlaces;
use pbx_content::EnumValueShape;
use pbx_wire::NoMemory;
use std::alloc::Global;

/// The places of an enum's values under their names, by n log n comparisons.
pub(crate) fn value_places(alloc: Global, values: &[EnumValueShape]) -> Result<NamePlaces, NoMemory>
    ensures { IfOk result (λ places. AreNamesOf values.now places) }
{
    let mut places = NamePlaces::new(alloc);
    for place in 0..values.len() {
        add(
            &mut places,
            alloc,
            values,
            place,
            values[place].name.as_str(),
        )?;
    }
    Ok(places)
}

/// The first value of a name, by log n comparisons.
pub(crate) fn find_value<'v>(
    values: &'v [EnumValueShape],
    places: &NamePlaces,
    name: &str,
) -> Option<&'v EnumValueShape>
    ensures { AreNamesOf values.now places.now → option_map (λ v. v.now) result ≡ value_named name.now values.now }
{
    item_under(values, places, name)
}
