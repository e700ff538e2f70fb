// Whether a message of a well-known name is the message that the public file declares, told by its descriptor.

ghost use Rattle.std.specs.Prelude.{◌≡◌};
ghost use Rattle.pbx_link_meaning.specs.Shapes.{shape_of, place_of};
ghost use Rattle.pbx_wkt_types.specs.Shapes.{meets_shape};

use crate::shape::is_shaped;
use pbx_link::MessageDescriptor;

/// Whether the message has the shape of its well-known name; a message of any other name has. What a shape is, `pbx_wkt_types` says.
///
/// The descriptor alone is asked, so that no shape of the pool is made, and it takes no memory.
pub fn has_shape(desc: &MessageDescriptor) -> bool
    ensures { result ≡ meets_shape (shape_of desc.now.pool) (place_of desc.now) }
{
    let _pool = desc.parent_pool();
    is_shaped(desc)
}
