use crate::equals::Equals;
use pbx_desc_records::{MethodDescriptorProto, ServiceDescriptorProto};

impl Equals for ServiceDescriptorProto {
    fn equals(&self, other: &ServiceDescriptorProto) -> bool {
        self.name.equals(&other.name)
            && self.method.equals(&other.method)
            && self.options.equals(&other.options)
            && self.unknown.equals(&other.unknown)
    }
}

impl Equals for MethodDescriptorProto {
    fn equals(&self, other: &MethodDescriptorProto) -> bool {
        self.name.equals(&other.name)
            && self.input_type.equals(&other.input_type)
            && self.output_type.equals(&other.output_type)
            && self.options.equals(&other.options)
            && self.client_streaming.equals(&other.client_streaming)
            && self.server_streaming.equals(&other.server_streaming)
            && self.unknown.equals(&other.unknown)
    }
}
