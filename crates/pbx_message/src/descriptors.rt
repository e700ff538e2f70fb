// The descriptor records.
#![tactic(auto, unfolding(pbx_desc_shapes::specs::DescriptorShape::descriptor_shape))]

ghost use Rattle.std.specs.Prelude.{None};

use crate::reflect::ReflectMessage;
use pbx_desc_encoding::{
    DescriptorProto, EnumDescriptorProto, EnumReservedRange, EnumValueDescriptorProto,
    ExtensionRange, FieldDescriptorProto, FileDescriptorProto, FileDescriptorSet, Location,
    MethodDescriptorProto, OneofDescriptorProto, ReservedRange, ServiceDescriptorProto,
    SourceCodeInfo,
};
use pbx_link::{DescriptorPool, MessageDescriptor};

impl ReflectMessage for FileDescriptorSet {
    ghost own = { λ _. None };

    fn descriptor(&self, pool: &DescriptorPool) -> Option<MessageDescriptor> {
        pool.get_message_by_name("google.protobuf.FileDescriptorSet")
    }
}

impl ReflectMessage for FileDescriptorProto {
    ghost own = { λ _. None };

    fn descriptor(&self, pool: &DescriptorPool) -> Option<MessageDescriptor> {
        pool.get_message_by_name("google.protobuf.FileDescriptorProto")
    }
}

impl ReflectMessage for DescriptorProto {
    ghost own = { λ _. None };

    fn descriptor(&self, pool: &DescriptorPool) -> Option<MessageDescriptor> {
        pool.get_message_by_name("google.protobuf.DescriptorProto")
    }
}

impl ReflectMessage for ExtensionRange {
    ghost own = { λ _. None };

    fn descriptor(&self, pool: &DescriptorPool) -> Option<MessageDescriptor> {
        pool.get_message_by_name("google.protobuf.DescriptorProto.ExtensionRange")
    }
}

impl ReflectMessage for ReservedRange {
    ghost own = { λ _. None };

    fn descriptor(&self, pool: &DescriptorPool) -> Option<MessageDescriptor> {
        pool.get_message_by_name("google.protobuf.DescriptorProto.ReservedRange")
    }
}

impl ReflectMessage for FieldDescriptorProto {
    ghost own = { λ _. None };

    fn descriptor(&self, pool: &DescriptorPool) -> Option<MessageDescriptor> {
        pool.get_message_by_name("google.protobuf.FieldDescriptorProto")
    }
}

impl ReflectMessage for OneofDescriptorProto {
    ghost own = { λ _. None };

    fn descriptor(&self, pool: &DescriptorPool) -> Option<MessageDescriptor> {
        pool.get_message_by_name("google.protobuf.OneofDescriptorProto")
    }
}

impl ReflectMessage for EnumDescriptorProto {
    ghost own = { λ _. None };

    fn descriptor(&self, pool: &DescriptorPool) -> Option<MessageDescriptor> {
        pool.get_message_by_name("google.protobuf.EnumDescriptorProto")
    }
}

impl ReflectMessage for EnumReservedRange {
    ghost own = { λ _. None };

    fn descriptor(&self, pool: &DescriptorPool) -> Option<MessageDescriptor> {
        pool.get_message_by_name("google.protobuf.EnumDescriptorProto.EnumReservedRange")
    }
}

impl ReflectMessage for EnumValueDescriptorProto {
    ghost own = { λ _. None };

    fn descriptor(&self, pool: &DescriptorPool) -> Option<MessageDescriptor> {
        pool.get_message_by_name("google.protobuf.EnumValueDescriptorProto")
    }
}

impl ReflectMessage for ServiceDescriptorProto {
    ghost own = { λ _. None };

    fn descriptor(&self, pool: &DescriptorPool) -> Option<MessageDescriptor> {
        pool.get_message_by_name("google.protobuf.ServiceDescriptorProto")
    }
}

impl ReflectMessage for MethodDescriptorProto {
    ghost own = { λ _. None };

    fn descriptor(&self, pool: &DescriptorPool) -> Option<MessageDescriptor> {
        pool.get_message_by_name("google.protobuf.MethodDescriptorProto")
    }
}

impl ReflectMessage for SourceCodeInfo {
    ghost own = { λ _. None };

    fn descriptor(&self, pool: &DescriptorPool) -> Option<MessageDescriptor> {
        pool.get_message_by_name("google.protobuf.SourceCodeInfo")
    }
}

impl ReflectMessage for Location {
    ghost own = { λ _. None };

    fn descriptor(&self, pool: &DescriptorPool) -> Option<MessageDescriptor> {
        pool.get_message_by_name("google.protobuf.SourceCodeInfo.Location")
    }
}
