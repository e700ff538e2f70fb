// The numbers of the fields of messages by their names.
ghost use Rattle.std.specs.Prelude.{◌≡◌, IfOk, IfSome};
ghost use Rattle.pbx_link_meaning.specs.Shapes.{shape_of as shape_of_files, place_of};
ghost use Rattle.pbx_link_shapes.specs.Named.{number_named as number_named_of};

use crate::message::MessageDescriptor;
use pbx_link_shapes::number_named;
use pbx_wire::NoMemory;

impl MessageDescriptor {
    /// The number of the field of the name, by log n comparisons where the pool keeps the names of the message's fields. It
    /// takes no memory.
    pub fn kept_field_number(&self, name: &str) -> Option<Option<u32>>
        ensures { IfSome result (λ number. number ≡ number_named_of (shape_of_files self.now.pool) (place_of self.now) name.now) }
    {
        let shaped = self.pool().shaped()?;
        let place = shaped.message_place(self.full_name())?;
        shaped.kept_number(place, name)
    }

    /// The number of the field of the name. The pool keeps the names of the message's fields with the shape of its types, so
    /// that log n comparisons find it from the second time on. The only error is want of memory.
    pub fn field_number(&self, name: &str) -> Result<Option<u32>, NoMemory>
        ensures { IfOk result (λ number. number ≡ number_named_of (shape_of_files self.now.pool) (place_of self.now) name.now) }
    {
        let schema = self.schema()?;
        let place = self.place(schema.as_ref());
        match self.pool().shaped() {
            Some(shaped) => shaped.number_named(self.pool.alloc, place, name),
            None => Ok(number_named(schema.as_ref(), place, name)),
        }
    }
}
