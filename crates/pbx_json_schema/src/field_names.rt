ghost use Rattle.std.specs.Prelude.{◌≡◌, ℕ, List as ListOf, IfOk, OnOk, option_map, find};
ghost use Rattle.std.specs.Option.{option_or};
ghost use Rattle.pbx_json_meaning.specs.Names.{field_named, name_is};
ghost use Rattle.pbx_json_schema.specs.Index.{item_under as item_under_name, IsIndexOf, is_named, is_called};

use crate::items::{add, item_under};
use crate::name_places::NamePlaces;
use pbx_content::FieldShape;
use pbx_wire::NoMemory;
use std::alloc::Global;

/// The sorts of names that a field has.
#[derive(Clone, Copy)]
enum Sort {
    /// The key in JSON of a field of the message itself.
    Json,
    /// The name in the source of a field of the message itself.
    Source,
    /// The key in JSON of an extension.
    Extension,
}

/// The fields of one message type by their names. It holds none of the fields, and each look-up is given them again.
#[derive(Drop)]
pub(crate) struct FieldNames {
    by_key: NamePlaces,
    by_name: NamePlaces,
}

/// The field's name of a sort.
fn name_of(sort: Sort, field: &FieldShape) -> Option<&str>
    ensures { (key : ListOf ℕ) → is_called (option_map (λ n. n.now) result) key ≡ is_named sort key field.now }
{
    match sort {
        Sort::Json if !field.is_extension => Some(field.json_name.as_str()),
        Sort::Source if !field.is_extension => Some(field.name.as_str()),
        Sort::Extension if field.is_extension => Some(field.json_name.as_str()),
        _ => None,
    }
}

/// Puts each field under its name of the sort, where none is under that name yet.
fn add_all(
    places: &mut NamePlaces,
    alloc: Global,
    fields: &[FieldShape],
    sort: Sort,
) -> Result<(), NoMemory>
    ensures { OnOk result ((q : ListOf ℕ) → item_under_name fields.now places.new q
        ≡ option_or (item_under_name fields.now places.old q) (find (is_named sort q) fields.now)) }
{
    for place in 0..fields.len() {
        if let Some(name) = name_of(sort, &fields[place]) {
            add(places, alloc, fields, place, name)?;
        }
    }
    Ok(())
}

impl FieldNames {
    /// The index of these fields, by n log n comparisons. The only error is want of memory.
    pub fn new(alloc: Global, fields: &[FieldShape]) -> Result<FieldNames, NoMemory>
        ensures { IfOk result (λ names. IsIndexOf fields.now names) }
    {
        let mut by_key = NamePlaces::new(alloc);
        add_all(&mut by_key, alloc, fields, Sort::Json)?;
        add_all(&mut by_key, alloc, fields, Sort::Source)?;
        add_all(&mut by_key, alloc, fields, Sort::Extension)?;
        let mut by_name = NamePlaces::new(alloc);
        add_all(&mut by_name, alloc, fields, Sort::Source)?;
        Ok(FieldNames { by_key, by_name })
    }

    /// The field that a key of an object names, by log n comparisons, where the index is of these fields: the first of that
    /// JSON name, else the first of that name in the source, else the first extension of that JSON name.
    pub fn find_key<'f>(&self, fields: &'f [FieldShape], key: &str) -> Option<&'f FieldShape>
        ensures { IsIndexOf fields.now self.now → option_map (λ f. f.now) result ≡ field_named key.now fields.now }
    {
        item_under(fields, &self.by_key, key)
    }

    /// The first field of a name in the source, by log n comparisons, where the index is of these fields.
    pub fn find_name<'f>(&self, fields: &'f [FieldShape], name: &str) -> Option<&'f FieldShape>
        ensures { IsIndexOf fields.now self.now → option_map (λ f. f.now) result ≡ find (name_is name.now) fields.now }
    {
        item_under(fields, &self.by_name, name)
    }
}
