// The shape of the types of a pool, and the places of messages in it.
ghost use Rattle.std.specs.Prelude.{◌≡◌, [], Some, slice_get, IfOk, OnOk, IfSome};
ghost use Rattle.pbx_link_meaning.specs.Descriptors.{all_messages};
ghost use Rattle.pbx_link_meaning.specs.Shapes.{shape_of as shape_of_files, place_of, message_place as message_place_of};
ghost use Rattle.pbx_link_shapes.specs.EnumNumbers.{HasEnumNumbers};

use crate::message::MessageDescriptor;
use crate::pool::DescriptorPool;
use pbx_content::Schema;
use pbx_link_pool::Pool;
use pbx_link_shapes::{ShapedPool, message_place, shape_of};
use pbx_shared::Shared;
use pbx_wire::NoMemory;
use std::alloc::Global;

/// The shape of the types of no files. The only error is want of memory.
fn empty_schema(alloc: Global) -> Result<Shared<Schema>, NoMemory>
    ensures is { IfOk result (λ schema. schema ≡ shape_of_files []) }
    ensures numbers { OnOk result (HasEnumNumbers (shape_of_files [])) }
{
    let none = Pool::new(alloc);
    match Shared::new(alloc, shape_of(alloc, &none)?) {
        Ok(schema) => Ok(schema),
        Err(_) => Err(NoMemory),
    }
}

impl DescriptorPool {
    /// The shape of the types of the pool: its messages and its enums, file by file. The only error is want of memory.
    ///
    /// It is made when it is first asked for, and is then shared by the pool, its copies and its descriptors until a file is added.
    pub fn schema(&self) -> Result<Shared<Schema>, NoMemory>
        ensures is { IfOk result (λ schema. schema ≡ shape_of_files self.now) }
        // The numbers of the values of enums have 32 bits.
        ensures numbers { OnOk result (HasEnumNumbers (shape_of_files self.now)) }
    {
        match &self.pool {
            Some(pool) => pool.schema(self.alloc),
            None => empty_schema(self.alloc),
        }
    }

    /// The pool with the shape of its types, where it was asked for.
    pub(crate) fn shaped(&self) -> Option<&ShapedPool>
        ensures { IfSome result (λ shaped. shaped.now ≡ self.now) }
    {
        match &self.pool {
            Some(pool) => pool.shaped(),
            None => None,
        }
    }

    /// The place of the message of exactly this full name in the shape of the types of the pool.
    fn place_in(&self, schema: &Schema, name: &str) -> Option<usize>
        ensures { schema.now ≡ shape_of_files self.now → result ≡ message_place_of self.now name.now }
    {
        match self.shaped() {
            Some(shaped) => shaped.message_place(name),
            None => message_place(schema, name),
        }
    }
}

impl MessageDescriptor {
    /// The shape of the types of the message's pool, as the pool has it. The only error is want of memory.
    pub fn schema(&self) -> Result<Shared<Schema>, NoMemory>
        ensures is { IfOk result (λ schema. schema ≡ shape_of_files self.now.pool) }
        // The numbers of the values of enums have 32 bits.
        ensures numbers { OnOk result (HasEnumNumbers (shape_of_files self.now.pool)) }
    {
        self.pool.schema()
    }

    /// The place of the message in the shape of the types of its pool. It takes no memory, and the logarithm of the count of names where
    /// the pool was asked for its shape; else all messages are looked through.
    pub fn place(&self, schema: &Schema) -> usize
        ensures place { schema.now ≡ shape_of_files self.now.pool → result ≡ place_of self.now }
        // The message stands there.
        ensures message { schema.now ≡ shape_of_files self.now.pool → slice_get (all_messages self.now.pool) result ≡ Some self.now }
    {
        let pool = self.pool();
        pool.place_in(schema, self.full_name()).unwrap_or(0)
    }
}
