ghost use Rattle.std.specs.Prelude.{box_value};

use crate::encoding::Message;
use pbx_wire::NoMemory;
use std::alloc::Global;

/// The message in the box.
impl<M: Message> Message for Box<M> {
    ghost shape = { λ it. M.shape (box_value it) };

    ghost type_at = { λ it. M.type_at (box_value it) };

    ghost content = { λ it. M.content (box_value it) };

    fn encode_to_vec(&self, alloc: Global) -> Result<Vec<u8>, NoMemory> {
        (**self).encode_to_vec(alloc)
    }
}
