// What was looked up in a schema.
ghost use Rattle.std.specs.Prelude.{◌≡◌, IfOk, option_map};
ghost use Rattle.pbx_content.specs.Shape.{enum_values_of};
ghost use Rattle.pbx_wkt_types.specs.Shapes.{form_of};
ghost use Rattle.pbx_json_meaning.specs.Canonical.{value_of_number as value_of_number_of};
ghost use Rattle.pbx_json_meaning.specs.Urls.{type_of_url};
ghost use Rattle.pbx_json_writing.specs.Indexes.{AreIndexes};

use crate::enums::{EnumIndexes, value_by_index};
use pbx_content::{EnumValueShape, Schema};
use pbx_json_schema::TypeNames;
use pbx_wire::NoMemory;
use pbx_wkt_types::Form;
use std::alloc::Global;

/// Values of enums by their numbers, and message types by their URLs, of those that were asked for.
#[derive(Drop)]
pub struct Indexes {
    enums: EnumIndexes,
    types: TypeNames,
}

impl Indexes {
    /// Nothing was asked for yet; takes no memory.
    pub fn new(alloc: Global, schema: &Schema) -> Indexes
        ensures { AreIndexes schema.now result }
    {
        Indexes {
            enums: EnumIndexes::new(alloc),
            types: TypeNames::new(alloc, schema),
        }
    }

    /// The first declared value of a number.
    pub(crate) fn value_of_number<'s>(
        &mut self,
        alloc: Global,
        schema: &'s Schema,
        place: usize,
        number: i128,
    ) -> Result<Option<&'s EnumValueShape>, NoMemory>
        requires { AreIndexes schema.now self.old }
        ensures known { AreIndexes schema.now self.new }
        ensures value { IfOk result (λ found. option_map (λ it. it.now) found ≡ value_of_number_of number (enum_values_of schema.now place)) }
    {
        value_by_index(alloc, schema, &mut self.enums, place, number)
    }

    /// How JSON tells the messages of the type at a place.
    pub(crate) fn form(&mut self, schema: &Schema, place: usize) -> Result<Form, NoMemory>
        requires { AreIndexes schema.now self.old }
        ensures known { AreIndexes schema.now self.new }
        ensures form { IfOk result (λ form. form ≡ form_of schema.now place) }
    {
        self.types.form(schema, place)
    }

    /// The message type that a URL names.
    pub(crate) fn type_of_url(
        &mut self,
        alloc: Global,
        schema: &Schema,
        url: &str,
    ) -> Result<Option<usize>, NoMemory>
        requires { AreIndexes schema.now self.old }
        ensures known { AreIndexes schema.now self.new }
        ensures place { IfOk result (λ found. found ≡ type_of_url schema.now url.now) }
    {
        self.types.find_url(alloc, schema, url)
    }
}
