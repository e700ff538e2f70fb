// The scalar types, by the names of their wrappers.
#![tactic(auto, unfolding(pbx_desc_shapes::specs::TypesShape::types_shape))]

ghost use Rattle.std.specs.Prelude.{None};

use crate::reflect::ReflectMessage;
use bytes::Bytes;
use pbx_link::{DescriptorPool, MessageDescriptor};

impl ReflectMessage for () {
    ghost own = { λ _. None };

    fn descriptor(&self, pool: &DescriptorPool) -> Option<MessageDescriptor> {
        pool.get_message_by_name("google.protobuf.Empty")
    }
}

impl ReflectMessage for bool {
    ghost own = { λ _. None };

    fn descriptor(&self, pool: &DescriptorPool) -> Option<MessageDescriptor> {
        pool.get_message_by_name("google.protobuf.BoolValue")
    }
}

impl ReflectMessage for i32 {
    ghost own = { λ _. None };

    fn descriptor(&self, pool: &DescriptorPool) -> Option<MessageDescriptor> {
        pool.get_message_by_name("google.protobuf.Int32Value")
    }
}

impl ReflectMessage for i64 {
    ghost own = { λ _. None };

    fn descriptor(&self, pool: &DescriptorPool) -> Option<MessageDescriptor> {
        pool.get_message_by_name("google.protobuf.Int64Value")
    }
}

impl ReflectMessage for u32 {
    ghost own = { λ _. None };

    fn descriptor(&self, pool: &DescriptorPool) -> Option<MessageDescriptor> {
        pool.get_message_by_name("google.protobuf.UInt32Value")
    }
}

impl ReflectMessage for u64 {
    ghost own = { λ _. None };

    fn descriptor(&self, pool: &DescriptorPool) -> Option<MessageDescriptor> {
        pool.get_message_by_name("google.protobuf.UInt64Value")
    }
}

impl ReflectMessage for String {
    ghost own = { λ _. None };

    fn descriptor(&self, pool: &DescriptorPool) -> Option<MessageDescriptor> {
        pool.get_message_by_name("google.protobuf.StringValue")
    }
}

impl ReflectMessage for Vec<u8> {
    ghost own = { λ _. None };

    fn descriptor(&self, pool: &DescriptorPool) -> Option<MessageDescriptor> {
        pool.get_message_by_name("google.protobuf.BytesValue")
    }
}

impl ReflectMessage for Bytes {
    ghost own = { λ _. None };

    fn descriptor(&self, pool: &DescriptorPool) -> Option<MessageDescriptor> {
        pool.get_message_by_name("google.protobuf.BytesValue")
    }
}
