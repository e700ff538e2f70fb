// The records of well-known types.
#![tactic(auto, unfolding(pbx_desc_shapes::specs::TypesShape::types_shape))]

ghost use Rattle.std.specs.Prelude.{None};

use crate::reflect::ReflectMessage;
use pbx_link::{DescriptorPool, MessageDescriptor};
use pbx_types::{Any, Duration, Empty, FieldMask, ListValue, Struct, Timestamp, Value};

impl ReflectMessage for Any {
    ghost own = { λ _. None };

    fn descriptor(&self, pool: &DescriptorPool) -> Option<MessageDescriptor> {
        pool.get_message_by_name("google.protobuf.Any")
    }
}

impl ReflectMessage for Duration {
    ghost own = { λ _. None };

    fn descriptor(&self, pool: &DescriptorPool) -> Option<MessageDescriptor> {
        pool.get_message_by_name("google.protobuf.Duration")
    }
}

impl ReflectMessage for Empty {
    ghost own = { λ _. None };

    fn descriptor(&self, pool: &DescriptorPool) -> Option<MessageDescriptor> {
        pool.get_message_by_name("google.protobuf.Empty")
    }
}

impl ReflectMessage for FieldMask {
    ghost own = { λ _. None };

    fn descriptor(&self, pool: &DescriptorPool) -> Option<MessageDescriptor> {
        pool.get_message_by_name("google.protobuf.FieldMask")
    }
}

impl ReflectMessage for Struct {
    ghost own = { λ _. None };

    fn descriptor(&self, pool: &DescriptorPool) -> Option<MessageDescriptor> {
        pool.get_message_by_name("google.protobuf.Struct")
    }
}

impl ReflectMessage for Value {
    ghost own = { λ _. None };

    fn descriptor(&self, pool: &DescriptorPool) -> Option<MessageDescriptor> {
        pool.get_message_by_name("google.protobuf.Value")
    }
}

impl ReflectMessage for ListValue {
    ghost own = { λ _. None };

    fn descriptor(&self, pool: &DescriptorPool) -> Option<MessageDescriptor> {
        pool.get_message_by_name("google.protobuf.ListValue")
    }
}

impl ReflectMessage for Timestamp {
    ghost own = { λ _. None };

    fn descriptor(&self, pool: &DescriptorPool) -> Option<MessageDescriptor> {
        pool.get_message_by_name("google.protobuf.Timestamp")
    }
}
