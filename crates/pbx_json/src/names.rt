ghost use Rattle.std.specs.Prelude.{◌≡◌, ◌⊎◌, Some, None, OnOk, IfErr};
ghost use Rattle.pbx_link_meaning.specs.Shapes.{shape_of};
ghost use Rattle.pbx_json_meaning.specs.Clash.{ByAnyName, name_fault};
ghost use Rattle.pbx_json_meaning.specs.Laws.{EachWrittenStands};

use pbx_json_check_names::first_fault;
use pbx_json_laws::{canonical_stands, shapes_are_well_named};
use pbx_json_meaning::NameFault;
use pbx_link::DescriptorPool;
use pbx_wire::NoMemory;
use std::alloc::Global;

/// Whether each key has one meaning in the JSON of each message of the pool, and each message of a well-known name has the
/// shape of that name. Where it is so, each tree that is written, under any options, of what a tree stands for stands for
/// it too.
///
/// An error tells the first message in the order of `all_messages` with a key of two meanings, and the least such key by
/// its bytes; where there is none, the first message that has a well-known name and not its shape. A key has two meanings
/// where two fields share it as their JSON name, where an extension of the message has it, where it is `@type`, and where
/// it is the name of another field.
pub fn check_names(alloc: Global, pool: &DescriptorPool) -> Result<(), NameFault>
    ensures clear { OnOk result (name_fault ByAnyName (shape_of pool.now) ≡ None) }
    ensures written { OnOk result (EachWrittenStands (shape_of pool.now)) }
    ensures fault { IfErr result (λ e. (e ≡ NameFault.NoMemory) ⊎ (name_fault ByAnyName (shape_of pool.now) ≡ Some e)) }
{
    canonical_stands();
    shapes_are_well_named();
    let _pooled = pool.files();
    match pool.schema() {
        Ok(shared) => {
            let schema = shared.as_ref();
            let _proper = schema.shape();
            first_fault(alloc, schema)
        }
        Err(NoMemory) => Err(NameFault::NoMemory),
    }
}
