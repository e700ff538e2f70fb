// What has a message type by what it holds.
ghost use Rattle.std.specs.Prelude.{Some, box_value};

use crate::reflect::ReflectMessage;
use pbx_link::{DescriptorPool, MessageDescriptor};
use pbx_message_dynamic::DynamicMessage;

/// Its own type, whatever the pool.
impl ReflectMessage for DynamicMessage {
    ghost own = { λ m. Some m.of };

    fn descriptor(&self, _pool: &DescriptorPool) -> Option<MessageDescriptor> {
        Some(DynamicMessage::descriptor(self))
    }
}

/// The type of the value in the box.
impl<M: ReflectMessage> ReflectMessage for Box<M> {
    ghost own = { λ m. M.own (box_value m) };

    fn descriptor(&self, pool: &DescriptorPool) -> Option<MessageDescriptor> {
        (**self).descriptor(pool)
    }
}
