// Forms of message types, as they are asked for.
ghost use Rattle.std.specs.Prelude.{◌≡◌, IfOk};
ghost use Rattle.pbx_wkt_types.specs.Shapes.{form_of as form_of_type};
ghost use Rattle.pbx_json_schema.specs.Index.{AreFormsIn};

use pbx_content::Schema;
use pbx_wire::NoMemory;
use pbx_wkt_types::{Form, form_of};
use std::alloc::Global;
use std::collections::BTreeMap;

/// The forms of the well-known types of a schema under their places: to find one, the type is compared with its public file.
#[derive(Drop)]
pub(crate) struct TypeForms {
    forms: BTreeMap<usize, Form>,
}

impl TypeForms {
    /// No form yet; takes no memory.
    pub(crate) fn new(alloc: Global, schema: &Schema) -> TypeForms
        ensures { AreFormsIn schema.now result }
    {
        TypeForms {
            forms: BTreeMap::new(alloc),
        }
    }

    /// How JSON tells the messages of the type at a place, where the forms are of this schema. That of a well-known type is kept; every
    /// other has one that a look at its name tells. The only error is want of memory.
    pub(crate) fn find(&mut self, schema: &Schema, place: usize) -> Result<Form, NoMemory>
        ensures form { AreFormsIn schema.now self.old → IfOk result (λ form. form ≡ form_of_type schema.now place) }
        ensures forms { AreFormsIn schema.now self.old → AreFormsIn schema.now self.new }
    {
        if let Some(form) = self.forms.get(&place) {
            return Ok(*form);
        }
        let form = form_of(schema, place);
        if matches!(form, Form::Fields) {
            return Ok(form);
        }
        match self.forms.insert(place, form) {
            Ok(_) => Ok(form),
            Err(_) => Err(NoMemory),
        }
    }
}
