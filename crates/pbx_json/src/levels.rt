ghost use Rattle.std.specs.Prelude.{◌≡◌, IfOk};
ghost use Rattle.pbx_link_meaning.specs.Shapes.{shape_of, place_of};
ghost use Rattle.pbx_json_meaning.specs.Fits.{fits};

use pbx_message_dynamic::DynamicMessage;
use pbx_wire::NoMemory;
use std::alloc::Global;

/// Whether the message nests at most 100 levels, and each payload of a `google.protobuf.Any` in it decodes as its type within 100
/// levels of its own, payloads inside payloads too. An `Any` whose type text names no message of the pool, or that has not its
/// shape, has no payload. The only error is want of memory.
pub fn fits_levels(alloc: Global, message: &DynamicMessage) -> Result<bool, NoMemory>
    ensures { IfOk result (λ yes. yes ≡ fits (shape_of message.now.of.pool) (place_of message.now.of) message.now.content) }
{
    message.fits_levels(alloc)
}
