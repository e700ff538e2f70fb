// The pool of the built-in files.
ghost use Rattle.std.specs.Prelude.{◌≡◌, true, IfOk, OnOk};
ghost use Rattle.pbx_link_rules.specs.Breaches.{keeps_rules};
ghost use Rattle.pbx_link_rules.specs.Pool.{with_file};
ghost use Rattle.pbx_wkt_files.specs.Files.{wkt_files};

use pbx_desc_records::FileDescriptorProto;
use pbx_link::{DescriptorError, DescriptorPool};
use pbx_wire::NoMemory;
use pbx_wkt_files::{file_count, wkt_file_at};
use std::alloc::Global;

/// Adds a file that breaks no rule, so that memory alone can be wanting.
fn add(pool: &mut DescriptorPool, file: FileDescriptorProto) -> Result<(), NoMemory>
    requires { keeps_rules pool.old file ≡ true }
    ensures { OnOk result (pool.new ≡ with_file pool.old file) }
{
    match pool.add_file_descriptor_proto(file) {
        Ok(()) => Ok(()),
        Err(DescriptorError::NoMemory) => Err(NoMemory),
        Err(DescriptorError::Rule { .. }) => unreachable!(),
        Err(DescriptorError::Decode(_)) => unreachable!(),
    }
}

/// The pool of the twelve built-in files, each linked among those before it. The only error is want of memory.
pub fn make_wkt_descriptor_pool(alloc: Global) -> Result<DescriptorPool, NoMemory>
    ensures { IfOk result (λ pool. pool ≡ wkt_files) }
{
    let mut pool = DescriptorPool::new(alloc)?;
    for index in 0..file_count() {
        add(&mut pool, wkt_file_at(alloc, index)?)?;
    }
    Ok(pool)
}
