// Message types by the URLs that name them, and their forms.
ghost use Rattle.std.specs.Prelude.{◌≡◌, ℕ, List as ListOf, cond, IfOk, OnOk, option_map};
ghost use Rattle.std.specs.Option.{option_or};
ghost use Rattle.std.specs.Str.{bytes_eq};
ghost use Rattle.pbx_wkt_types.specs.Shapes.{form_of};
ghost use Rattle.pbx_json_meaning.specs.Urls.{after_slash, type_of_url};
ghost use Rattle.pbx_json_schema.specs.Index.{ArePlacesOf, AreTypesIn};
ghost use Rattle.pbx_json_schema.specs.Places.{place_under};

use crate::name_places::NamePlaces;
use crate::type_forms::TypeForms;
use pbx_content::{MessageShape, Schema};
use pbx_wire::NoMemory;
use pbx_wkt_types::Form;
use std::alloc::Global;

/// The places of a schema's message types under their full names, made where a type is first asked for and kept from then on, and the forms
/// of its well-known types.
#[derive(Drop)]
pub struct TypeNames {
    places: Option<NamePlaces>,
    forms: TypeForms,
}

/// The full name in a type's URL: what stands behind its last `/`, if it has one.
fn name_in(url: &str) -> Option<&str>
    ensures { option_map (λ name. name.now) result ≡ after_slash url.now }
{
    match url.rsplit_once('/') {
        Some(parts) => Some(parts.1),
        None => None,
    }
}

/// Puts the place under the name, where none is there yet.
fn add_place(
    places: &mut NamePlaces,
    alloc: Global,
    name: &str,
    place: usize,
) -> Result<(), NoMemory>
    ensures { OnOk result ((q : ListOf ℕ) → place_under q places.new
        ≡ option_or (place_under q places.old) (cond (bytes_eq name.now q) (Some place) None)) }
{
    if places.get(name).is_some() {
        return Ok(());
    }
    places.put(alloc, name, place)
}

/// The places of the types under their full names, by n log n comparisons.
fn type_places(alloc: Global, messages: &[MessageShape]) -> Result<NamePlaces, NoMemory>
    ensures { IfOk result (λ places. ArePlacesOf messages.now places) }
{
    let mut places = NamePlaces::new(alloc);
    for place in 0..messages.len() {
        add_place(
            &mut places,
            alloc,
            messages[place].full_name.as_str(),
            place,
        )?;
    }
    Ok(places)
}

impl TypeNames {
    /// No index yet; takes no memory.
    pub fn new(alloc: Global, schema: &Schema) -> TypeNames
        ensures { AreTypesIn schema.now result }
    {
        TypeNames {
            places: None,
            forms: TypeForms::new(alloc, schema),
        }
    }

    /// How JSON tells the messages of the type at a place, where the forms are of this schema: a well-known type is compared with its
    /// public file where it is asked for first. The only error is want of memory.
    pub fn form(&mut self, schema: &Schema, place: usize) -> Result<Form, NoMemory>
        ensures form { AreTypesIn schema.now self.old → IfOk result (λ form. form ≡ form_of schema.now place) }
        ensures names { AreTypesIn schema.now self.old → AreTypesIn schema.now self.new }
    {
        self.forms.find(schema, place)
    }

    /// Makes the index, where there is none yet.
    fn prepare(&mut self, alloc: Global, schema: &Schema) -> Result<(), NoMemory>
        ensures { AreTypesIn schema.now self.old → AreTypesIn schema.now self.new }
    {
        if self.places.is_none() {
            let places = type_places(alloc, schema.shape().messages.as_slice())?;
            self.places = Some(places);
        }
        Ok(())
    }

    /// The place of the message type that a type's URL names, where the index is of this schema: by log n comparisons, and by n log n
    /// where a type is asked for first. The only error is want of memory.
    pub fn find_url(
        &mut self,
        alloc: Global,
        schema: &Schema,
        url: &str,
    ) -> Result<Option<usize>, NoMemory>
        ensures place { AreTypesIn schema.now self.old → IfOk result (λ found. found ≡ type_of_url schema.now url.now) }
        ensures names { AreTypesIn schema.now self.old → AreTypesIn schema.now self.new }
    {
        let Some(name) = name_in(url) else {
            return Ok(None);
        };
        self.prepare(alloc, schema)?;
        match &self.places {
            Some(places) => Ok(places.get(name)),
            None => Err(NoMemory),
        }
    }
}
