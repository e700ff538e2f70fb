// Adding a file to a pool.
ghost use Rattle.std.specs.Prelude.{◌≡◌, [], true, List as ListOf, IfOk, IfErr, OnOk, OnErr};
ghost use Rattle.pbx_desc_records.specs.declared.file.FileDescriptorProto.{FileDescriptorProto as FileRecord};
ghost use Rattle.pbx_link_definitions.specs.Names.{text_or_empty as text_or_empty_of};
ghost use Rattle.pbx_link_rules.specs.Breaches.{keeps_rules};
ghost use Rattle.pbx_link_rules.specs.Pool.{with_file};
ghost use Rattle.pbx_link_pool.specs.Refused.{IsRefused as IsRefusedByPool};
ghost use Rattle.pbx_link.specs.Pool.{IsRefused};
ghost use Rattle.pbx_link.specs.Tables.{files_of};

use crate::handle::PoolHandle;
use crate::pool::DescriptorPool;
use pbx_desc_records::FileDescriptorProto;
use pbx_link_definitions::{DescriptorError, text_or_empty};
use pbx_link_pool::{Pool, Refusal};
use pbx_link_rules::Breach;
use pbx_shared::{Shared, Unique};
use pbx_wire::{NoMemory, Text};
use std::alloc::Global;

/// A pool, and what came of adding a file to it.
#[derive(Drop)]
struct Addition<P> {
    pool: P,
    outcome: Result<(), Refusal>,
}

/// The error of a pool that refuses the file of this name.
fn descriptor_error(file: Text, refusal: Refusal) -> DescriptorError
    ensures { (files : ListOf FileRecord) (f : FileRecord) → file ≡ text_or_empty_of f.name → IsRefusedByPool files f refusal → IsRefused files f result }
{
    match refusal {
        Refusal::Breach(breach) => {
            let Breach { rule, place } = breach;
            DescriptorError::Rule { file, place, rule }
        }
        Refusal::NoMemory => DescriptorError::NoMemory,
    }
}

/// Adds the file to a pool that nothing else holds.
fn add_in_place(pool: Unique<Pool>, file: FileDescriptorProto) -> Addition<Shared<Pool>>
    ensures added { OnOk result.outcome (result.pool ≡ with_file pool file) }
    ensures accepted { OnOk result.outcome (keeps_rules pool file ≡ true) }
    ensures refused { IfErr result.outcome (IsRefusedByPool pool file) }
    ensures unchanged { OnErr result.outcome (result.pool ≡ pool) }
{
    let mut pool = pool;
    let outcome = pool.get_mut().add(file);
    Addition {
        pool: pool.share(),
        outcome,
    }
}

/// Adds the file to the pool, and shares the pool.
fn add_and_share(
    alloc: Global,
    pool: Pool,
    file: FileDescriptorProto,
) -> Result<Shared<Pool>, Refusal>
    ensures added { IfOk result (λ more. more ≡ with_file pool file) }
    ensures accepted { OnOk result (keeps_rules pool file ≡ true) }
    ensures refused { IfErr result (IsRefusedByPool pool file) }
{
    let mut pool = pool;
    if let Err(refusal) = pool.add(file) {
        drop(pool);
        return Err(refusal);
    }
    match Shared::new(alloc, pool) {
        Ok(shared) => Ok(shared),
        Err(_) => Err(Refusal::NoMemory),
    }
}

/// Adds the file to a copy of the pool.
fn add_to_copy(
    alloc: Global,
    pool: &Pool,
    file: FileDescriptorProto,
) -> Result<Shared<Pool>, Refusal>
    ensures added { IfOk result (λ more. more ≡ with_file pool.now file) }
    ensures accepted { OnOk result (keeps_rules pool.now file ≡ true) }
    ensures refused { IfErr result (IsRefusedByPool pool.now file) }
{
    match pool.copy(alloc) {
        Ok(copy) => add_and_share(alloc, copy, file),
        Err(_) => {
            drop(file);
            Err(Refusal::NoMemory)
        }
    }
}

/// Adds the file in place where nothing else holds the pool, and to a copy otherwise. Where it is refused the pool is as it was.
fn add_to_shared(
    alloc: Global,
    pool: Shared<Pool>,
    file: FileDescriptorProto,
) -> Addition<Shared<Pool>>
    ensures added { OnOk result.outcome (result.pool ≡ with_file pool file) }
    ensures accepted { OnOk result.outcome (keeps_rules pool file ≡ true) }
    ensures refused { IfErr result.outcome (IsRefusedByPool pool file) }
    ensures unchanged { OnErr result.outcome (result.pool ≡ pool) }
{
    match pool.into_unique() {
        Ok(alone) => add_in_place(alone, file),
        Err(shared) => match add_to_copy(alloc, shared.as_ref(), file) {
            Ok(more) => Addition {
                pool: more,
                outcome: Ok(()),
            },
            Err(refusal) => Addition {
                pool: shared,
                outcome: Err(refusal),
            },
        },
    }
}

impl PoolHandle {
    /// Adds the file to the pool, and lets go the shape that is kept. It goes first: what is kept has a handle of the pool.
    fn add(self, alloc: Global, file: FileDescriptorProto) -> Addition<PoolHandle>
        ensures added { OnOk result.outcome (result.pool ≡ with_file self file) }
        ensures accepted { OnOk result.outcome (keeps_rules self file ≡ true) }
        ensures refused { IfErr result.outcome (IsRefusedByPool self file) }
        ensures unchanged { OnErr result.outcome (result.pool ≡ self) }
    {
        let PoolHandle { pool, shape } = self;
        match shape.emptied(alloc) {
            Ok(shape) => {
                let Addition { pool, outcome } = add_to_shared(alloc, pool, file);
                Addition {
                    pool: PoolHandle { pool, shape },
                    outcome,
                }
            }
            Err(shape) => {
                drop(file);
                Addition {
                    pool: PoolHandle { pool, shape },
                    outcome: Err(Refusal::NoMemory),
                }
            }
        }
    }
}

/// Adds the first file of a pool.
fn add_first(alloc: Global, file: FileDescriptorProto) -> Result<PoolHandle, Refusal>
    ensures added { IfOk result (λ first. first ≡ with_file [] file) }
    ensures accepted { OnOk result (keeps_rules [] file ≡ true) }
    ensures refused { IfErr result (IsRefusedByPool [] file) }
{
    let pool = add_and_share(alloc, Pool::new(alloc), file)?;
    match PoolHandle::new(alloc, pool) {
        Ok(first) => Ok(first),
        Err(NoMemory) => Err(Refusal::NoMemory),
    }
}

/// Adds the file to the pool, or to one without files where there is none.
fn add_to_pool(
    alloc: Global,
    pool: Option<PoolHandle>,
    file: FileDescriptorProto,
) -> Addition<Option<PoolHandle>>
    ensures added { OnOk result.outcome (files_of result.pool ≡ with_file (files_of pool) file) }
    ensures accepted { OnOk result.outcome (keeps_rules (files_of pool) file ≡ true) }
    ensures refused { IfErr result.outcome (IsRefusedByPool (files_of pool) file) }
    ensures unchanged { OnErr result.outcome (files_of result.pool ≡ files_of pool) }
{
    match pool {
        Some(pool) => {
            let Addition { pool, outcome } = pool.add(alloc, file);
            Addition {
                pool: Some(pool),
                outcome,
            }
        }
        None => match add_first(alloc, file) {
            Ok(first) => Addition {
                pool: Some(first),
                outcome: Ok(()),
            },
            Err(refusal) => Addition {
                pool: None,
                outcome: Err(refusal),
            },
        },
    }
}

impl DescriptorPool {
    /// Adds the file as `add_to_pool` does.
    fn add(&mut self, file: FileDescriptorProto) -> Result<(), Refusal>
        ensures added { OnOk result (self.new ≡ with_file self.old file) }
        ensures accepted { OnOk result (keeps_rules self.old file ≡ true) }
        ensures refused { IfErr result (IsRefusedByPool self.old file) }
        ensures unchanged { OnErr result (self.new ≡ self.old) }
    {
        let Addition { pool, outcome } = add_to_pool(self.alloc, self.pool.take(), file);
        self.pool = pool;
        outcome
    }

    /// Links the record among the files of the pool and adds it, where it breaks no rule among them. The first rule that it breaks is told
    /// otherwise, and the pool stays as it was.
    pub fn add_file_descriptor_proto(
        &mut self,
        file: FileDescriptorProto,
    ) -> Result<(), DescriptorError>
        ensures added { OnOk result (self.new ≡ with_file self.old file) }
        ensures accepted { OnOk result (keeps_rules self.old file ≡ true) }
        ensures refused { IfErr result (IsRefused self.old file) }
        ensures unchanged { OnErr result (self.new ≡ self.old) }
    {
        let name = match Text::from_str(self.alloc, text_or_empty(&file.name)) {
            Ok(name) => name,
            Err(_) => {
                drop(file);
                return Err(DescriptorError::NoMemory);
            }
        };
        match self.add(file) {
            Ok(()) => Ok(()),
            Err(refusal) => Err(descriptor_error(name, refusal)),
        }
    }
}
