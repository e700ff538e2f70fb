// The fields of message types by their names.
ghost use Rattle.std.specs.Prelude.{◌≡◌, ℕ, List as ListOf, IsTrue, IfOk, IfSome};
ghost use Rattle.pbx_content.specs.Shape.{declared_of};
ghost use Rattle.pbx_link_names.specs.Names.{under, first_under};
ghost use Rattle.pbx_link_shapes.specs.Named.{is_named as is_named_of, number_in, number_named as number_named_of};

use pbx_content::{FieldShape, Schema};
use pbx_link_names::NameMap;
use pbx_shared::Shared;
use pbx_wire::{NoMemory, Text};
use std::alloc::Global;
use std::cell::OnceCell;

/// The numbers of the fields of a message type under their names.
#[derive(Drop)]
pub(crate) struct TypeNames {
    pub(crate) schema: Shared<Schema>,
    pub(crate) place: usize,
    pub(crate) numbers: NameMap<u32>,
    ghost are_those: { (name : ListOf ℕ) → under name numbers ≡ number_named_of schema place name },
}

/// The fields of the type, in declared order.
fn declared_fields(schema: &Schema, place: usize) -> &[FieldShape]
    ensures { result.now ≡ declared_of schema.now place }
{
    let messages = schema.shape().messages.as_slice();
    if place >= messages.len() {
        return &[];
    }
    messages[place].fields.as_slice()
}

/// The names of the fields with their numbers, extensions aside. The only error is want of memory.
fn named_numbers(alloc: Global, fields: &[FieldShape]) -> Result<Vec<(Text, u32)>, NoMemory>
    ensures { IfOk result (λ items. (name : ListOf ℕ) → first_under name items.items ≡ number_in name fields.now) }
{
    let mut items = Vec::new(alloc);
    for field in fields {
        if !field.is_extension {
            items.push((field.name.copy(alloc)?, field.number))?;
        }
    }
    Ok(items)
}

/// Whether it is a field of the message itself, of this name.
fn is_named(field: &FieldShape, name: &str) -> bool
    ensures { result ≡ is_named_of name.now field.now }
{
    !field.is_extension && field.name.as_str() == name
}

/// The number of the first of the fields of the name.
fn first_named(fields: &[FieldShape], name: &str) -> Option<u32>
    ensures { result ≡ number_in name.now fields.now }
{
    let found = fields.iter().find(|field| is_named(field, name));
    found.map(|field| field.number)
}

/// The number of the first field of the name in the message type at the place, extensions aside. It goes over the fields.
pub fn number_named(schema: &Schema, place: usize, name: &str) -> Option<u32>
    ensures { result ≡ number_named_of schema.now place name.now }
{
    first_named(declared_fields(schema, place), name)
}

impl TypeNames {
    /// Those of the type at the place. The only error is want of memory.
    pub(crate) fn new(
        alloc: Global,
        schema: Shared<Schema>,
        place: usize,
    ) -> Result<TypeNames, NoMemory>
        ensures schema { IfOk result (λ names. names.schema ≡ schema) }
        ensures place { IfOk result (λ names. names.place ≡ place) }
    {
        let items = named_numbers(alloc, declared_fields(schema.as_ref(), place))?;
        let mut numbers = NameMap::new(alloc);
        numbers.add_all(alloc, items.as_slice())?;
        Ok(TypeNames {
            schema,
            place,
            numbers,
        })
    }

    /// The number of the field of the name, by log n comparisons.
    pub(crate) fn number(&self, name: &str) -> Option<u32>
        ensures { result ≡ number_named_of self.now.schema self.now.place name.now }
    {
        self.numbers.get(name).copied()
    }

    /// Whether they are those of the type at the place of this handle's schema. A no says nothing of equal ones.
    fn are_of(&self, schema: &Shared<Schema>, place: usize) -> bool
        ensures { IsTrue result → (self.now.schema ≡ schema.now) × (self.now.place ≡ place) }
    {
        self.place == place && self.schema.ptr_eq(schema)
    }
}

/// The names of the types that were asked for, each made once.
#[derive(Drop)]
pub(crate) struct KeptNames {
    types: OnceCell<Vec<OnceCell<TypeNames>>>,
}

/// So many cells that keep nothing. The only error is want of memory.
fn no_names(alloc: Global, count: usize) -> Result<Vec<OnceCell<TypeNames>>, NoMemory> {
    let mut types = Vec::with_capacity(alloc, count)?;
    for _ in 0..count {
        types.push(OnceCell::new())?;
    }
    Ok(types)
}

impl KeptNames {
    /// None yet; takes no memory.
    pub(crate) fn new() -> KeptNames {
        KeptNames {
            types: OnceCell::new(),
        }
    }

    /// The cell of the type at the place, if there is one.
    fn cell(&self, place: usize) -> Option<&OnceCell<TypeNames>> {
        self.types.get()?.as_slice().get(place)
    }

    /// The number of the field of the name, by log n comparisons, where the names of the type are kept.
    pub(crate) fn number(
        &self,
        schema: &Shared<Schema>,
        place: usize,
        name: &str,
    ) -> Option<Option<u32>>
        ensures { IfSome result (λ number. number ≡ number_named_of schema.now place name.now) }
    {
        match self.cell(place)?.get() {
            Some(names) if names.are_of(schema, place) => Some(names.number(name)),
            _ => None,
        }
    }

    /// Keeps the names, of one of so many types. The only error is want of memory.
    pub(crate) fn keep(
        &self,
        alloc: Global,
        count: usize,
        names: TypeNames,
    ) -> Result<(), NoMemory> {
        if self.types.get().is_none() {
            let _ = self.types.set(no_names(alloc, count)?);
        }
        if let Some(cell) = self.cell(names.place) {
            let _ = cell.set(names);
        }
        Ok(())
    }
}
