ghost use Rattle.std.specs.Prelude.{◌≡◌, IfOk, option_map};
ghost use Rattle.pbx_content.specs.Shape.{declared_of, enum_values_of};
ghost use Rattle.pbx_wkt_types.specs.Shapes.{form_of};
ghost use Rattle.pbx_json_meaning.specs.Names.{field_named};
ghost use Rattle.pbx_json_meaning.specs.Scalars.{value_named};
ghost use Rattle.pbx_json_meaning.specs.Urls.{type_of_url};
ghost use Rattle.pbx_json_schema.specs.Index.{AreNamesIn};

use crate::enum_names::{find_value, value_places};
use crate::field_names::FieldNames;
use crate::name_places::NamePlaces;
use crate::type_names::TypeNames;
use pbx_content::{EnumValueShape, FieldShape, Schema};
use pbx_wire::NoMemory;
use pbx_wkt_types::Form;
use std::alloc::Global;
use std::collections::BTreeMap;

/// The indices of the types and enums of a schema and of its types' names, each made where it is first asked for and kept from then on.
#[derive(Drop)]
pub struct SchemaNames {
    types: BTreeMap<usize, FieldNames>,
    enums: BTreeMap<usize, NamePlaces>,
    urls: TypeNames,
}

/// The fields of the type at a place in declared order, and behind them its extensions; a place outside the schema has none.
fn declared_fields(schema: &Schema, place: usize) -> &[FieldShape]
    ensures { result.now ≡ declared_of schema.now place }
{
    let messages = schema.shape().messages.as_slice();
    if place < messages.len() {
        messages[place].fields.as_slice()
    } else {
        &[]
    }
}

/// The values of the enum at a place; a place outside the schema has none.
fn declared_values(schema: &Schema, place: usize) -> &[EnumValueShape]
    ensures { result.now ≡ enum_values_of schema.now place }
{
    let enums = schema.shape().enums.as_slice();
    if place < enums.len() {
        enums[place].values.as_slice()
    } else {
        &[]
    }
}

impl SchemaNames {
    /// No index yet; takes no memory.
    pub fn new(alloc: Global, schema: &Schema) -> SchemaNames
        ensures { AreNamesIn schema.now result }
    {
        SchemaNames {
            types: BTreeMap::new(alloc),
            enums: BTreeMap::new(alloc),
            urls: TypeNames::new(alloc, schema),
        }
    }

    /// Makes the index of a type, where there is none yet.
    fn prepare_type(&mut self, alloc: Global, schema: &Schema, place: usize) -> Result<(), NoMemory>
        ensures { AreNamesIn schema.now self.old → AreNamesIn schema.now self.new }
    {
        if self.types.contains_key(&place) {
            return Ok(());
        }
        let names = FieldNames::new(alloc, declared_fields(schema, place))?;
        match self.types.insert(place, names) {
            Ok(_) => Ok(()),
            Err(_) => Err(NoMemory),
        }
    }

    /// The field that a key of an object names in the type at a place, where the indices are of this schema: by log n comparisons, and
    /// by n log n where the type is asked for first. The only error is want of memory.
    pub fn find_field<'s>(
        &mut self,
        alloc: Global,
        schema: &'s Schema,
        place: usize,
        key: &str,
    ) -> Result<Option<&'s FieldShape>, NoMemory>
        ensures field { AreNamesIn schema.now self.old
            → IfOk result (λ found. option_map (λ f. f.now) found ≡ field_named key.now (declared_of schema.now place)) }
        ensures names { AreNamesIn schema.now self.old → AreNamesIn schema.now self.new }
    {
        self.prepare_type(alloc, schema, place)?;
        match self.types.get(&place) {
            Some(names) => Ok(names.find_key(declared_fields(schema, place), key)),
            None => Err(NoMemory),
        }
    }

    /// Makes the index of an enum, where there is none yet.
    fn prepare_enum(&mut self, alloc: Global, schema: &Schema, place: usize) -> Result<(), NoMemory>
        ensures { AreNamesIn schema.now self.old → AreNamesIn schema.now self.new }
    {
        if self.enums.contains_key(&place) {
            return Ok(());
        }
        let places = value_places(alloc, declared_values(schema, place))?;
        match self.enums.insert(place, places) {
            Ok(_) => Ok(()),
            Err(_) => Err(NoMemory),
        }
    }

    /// The first value of a name of the enum at a place, where the indices are of this schema: by log n comparisons, and by n log n
    /// where the enum is asked for first. The only error is want of memory.
    pub fn find_value<'s>(
        &mut self,
        alloc: Global,
        schema: &'s Schema,
        place: usize,
        name: &str,
    ) -> Result<Option<&'s EnumValueShape>, NoMemory>
        ensures value { AreNamesIn schema.now self.old
            → IfOk result (λ found. option_map (λ v. v.now) found ≡ value_named name.now (enum_values_of schema.now place)) }
        ensures names { AreNamesIn schema.now self.old → AreNamesIn schema.now self.new }
    {
        self.prepare_enum(alloc, schema, place)?;
        match self.enums.get(&place) {
            Some(places) => Ok(find_value(declared_values(schema, place), places, name)),
            None => Err(NoMemory),
        }
    }

    /// How JSON tells the messages of the type at a place, where the indices are of this schema. The only error is want of memory.
    pub fn form(&mut self, schema: &Schema, place: usize) -> Result<Form, NoMemory>
        ensures form { AreNamesIn schema.now self.old → IfOk result (λ form. form ≡ form_of schema.now place) }
        ensures names { AreNamesIn schema.now self.old → AreNamesIn schema.now self.new }
    {
        self.urls.form(schema, place)
    }

    /// The place of the message type that a type's URL names, where the indices are of this schema: by log n comparisons, and by n log n
    /// where a type is asked for first. The only error is want of memory.
    pub fn find_type(
        &mut self,
        alloc: Global,
        schema: &Schema,
        url: &str,
    ) -> Result<Option<usize>, NoMemory>
        ensures place { AreNamesIn schema.now self.old → IfOk result (λ found. found ≡ type_of_url schema.now url.now) }
        ensures names { AreNamesIn schema.now self.old → AreNamesIn schema.now self.new }
    {
        self.urls.find_url(alloc, schema, url)
    }
}
