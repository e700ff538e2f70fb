use crate::equals::Equals;
use pbx_desc_records::{FieldDescriptorProto, OneofDescriptorProto};

impl Equals for FieldDescriptorProto {
    fn equals(&self, other: &FieldDescriptorProto) -> bool {
        self.name.equals(&other.name)
            && self.extendee.equals(&other.extendee)
            && self.number.equals(&other.number)
            && self.label.equals(&other.label)
            && self.kind.equals(&other.kind)
            && self.type_name.equals(&other.type_name)
            && self.default_value.equals(&other.default_value)
            && self.options.equals(&other.options)
            && self.oneof_index.equals(&other.oneof_index)
            && self.json_name.equals(&other.json_name)
            && self.proto3_optional.equals(&other.proto3_optional)
            && self.unknown.equals(&other.unknown)
    }
}

impl Equals for OneofDescriptorProto {
    fn equals(&self, other: &OneofDescriptorProto) -> bool {
        self.name.equals(&other.name)
            && self.options.equals(&other.options)
            && self.unknown.equals(&other.unknown)
    }
}
