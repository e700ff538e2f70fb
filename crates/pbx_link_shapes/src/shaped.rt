// A pool with the shape of its types.
ghost use Rattle.std.specs.Prelude.{◌≡◌, IfOk, IfSome, IsTrue};
ghost use Rattle.pbx_link_definitions.specs.Definitions.{messages as messages_of};
ghost use Rattle.pbx_link_meaning.specs.Shapes.{shape_of as shape_of_files, message_place as message_place_of};
ghost use Rattle.pbx_link_shapes.specs.EnumNumbers.{HasEnumNumbers};
ghost use Rattle.pbx_link_shapes.specs.Named.{number_named as number_named_of};
ghost use Rattle.pbx_link_shapes.specs.Starts.{AreStarts, counts};

use crate::shapes::shape_of;
use crate::starts::Starts;
use crate::type_names::{KeptNames, TypeNames};
use pbx_content::Schema;
use pbx_link_pool::Pool;
use pbx_shared::Shared;
use pbx_wire::NoMemory;
use std::alloc::Global;
use std::marker::Model;

/// A pool with the shape of its types, and with the places of its messages in it. Contracts see the records of the pool.
#[derive(Drop)]
pub struct ShapedPool {
    pool: Shared<Pool>,
    schema: Shared<Schema>,
    messages: Starts,
    names: KeptNames,
}

impl Model for ShapedPool {
    ghost use Rattle.std.specs.Prelude.{◌≡◌, List};
    ghost use Rattle.std.specs.Coded.{coded_list};
    ghost use Rattle.pbx_desc_records.specs.contracts.file.FileDescriptorProto as proto;
    ghost use Rattle.pbx_desc_records.specs.declared.file.FileDescriptorProto.{FileDescriptorProto};
    ghost use Rattle.pbx_link_definitions.specs.Definitions.{messages as messages_of};
    ghost use Rattle.pbx_link_meaning.specs.Shapes.{shape_of as shape_of_files};
    ghost use Rattle.pbx_link_shapes.specs.EnumNumbers.{HasEnumNumbers};
    ghost use Rattle.pbx_link_shapes.specs.Starts.{AreStarts, counts};

    ghost Value = { List FileDescriptorProto };

    ghost coded = { coded_list proto.the_row.coded };

    ghost view = { λ p. p.pool };

    ghost invariant = { λ p. (p.schema ≡ shape_of_files p.pool) × AreStarts (counts messages_of p.pool) p.messages × HasEnumNumbers p.schema };
}

/// Where the messages of each file begin among those of all files. The only error is want of memory.
fn message_starts(alloc: Global, pool: &Pool) -> Result<Starts, NoMemory>
    ensures { IfOk result (λ starts. AreStarts (counts messages_of pool.now) starts) }
{
    let mut starts = Starts::new(alloc);
    let tables = pool.tables();
    for table in tables {
        starts.add(table.as_ref().message_count())?;
    }
    Ok(starts)
}

impl ShapedPool {
    /// The pool with the shape of its types. The only error is want of memory.
    pub fn new(alloc: Global, pool: Shared<Pool>) -> Result<ShapedPool, NoMemory>
        ensures { IfOk result (λ shaped. shaped ≡ pool) }
    {
        let messages = message_starts(alloc, pool.as_ref())?;
        let shape = shape_of(alloc, pool.as_ref())?;
        match Shared::new(alloc, shape) {
            Ok(schema) => Ok(ShapedPool {
                pool,
                schema,
                messages,
                names: KeptNames::new(),
            }),
            Err(_) => Err(NoMemory),
        }
    }

    /// Whether it was made of this handle's pool. It compares no files: a no says nothing of whether they are the same.
    pub fn is_of(&self, pool: &Shared<Pool>) -> bool
        ensures { IsTrue result → self.now ≡ pool.now }
    {
        self.pool.ptr_eq(pool)
    }

    /// The shape of the types of the pool. It takes no memory.
    pub fn schema(&self) -> Shared<Schema>
        ensures is { result ≡ shape_of_files self.now }
        // The numbers of the values of enums have 32 bits.
        ensures numbers { HasEnumNumbers (shape_of_files self.now) }
    {
        self.schema.copy()
    }

    /// The place in the shape of the message of exactly this full name, by the logarithm of the count of names.
    pub fn message_place(&self, name: &str) -> Option<usize>
        ensures { result ≡ message_place_of self.now name.now }
    {
        match self.pool.as_ref().message_place(name) {
            Some((file, index)) => self.messages.place(file, index),
            None => None,
        }
    }

    /// The number of the first field of the name in the message type at the place, extensions aside, by log n comparisons
    /// where the names of the type are kept. It takes no memory.
    pub fn kept_number(&self, place: usize, name: &str) -> Option<Option<u32>>
        ensures { IfSome result (λ number. number ≡ number_named_of (shape_of_files self.now) place name.now) }
    {
        self.names.number(&self.schema, place, name)
    }

    /// The number of the first field of the name in the message type at the place, extensions aside. The names of the type
    /// are kept, so that log n comparisons find it from then on. The only error is want of memory.
    pub fn number_named(
        &self,
        alloc: Global,
        place: usize,
        name: &str,
    ) -> Result<Option<u32>, NoMemory>
        ensures { IfOk result (λ number. number ≡ number_named_of (shape_of_files self.now) place name.now) }
    {
        if let Some(number) = self.kept_number(place, name) {
            return Ok(number);
        }
        let names = TypeNames::new(alloc, self.schema.copy(), place)?;
        let number = names.number(name);
        let count = self.schema.as_ref().shape().messages.len();
        self.names.keep(alloc, count, names)?;
        Ok(number)
    }
}
