use crate::equals::Equals;
use pbx_desc_records::{EnumDescriptorProto, EnumReservedRange, EnumValueDescriptorProto};

impl Equals for EnumDescriptorProto {
    fn equals(&self, other: &EnumDescriptorProto) -> bool {
        self.name.equals(&other.name)
            && self.value.equals(&other.value)
            && self.options.equals(&other.options)
            && self.reserved_range.equals(&other.reserved_range)
            && self.reserved_name.equals(&other.reserved_name)
            && self.unknown.equals(&other.unknown)
    }
}

impl Equals for EnumReservedRange {
    fn equals(&self, other: &EnumReservedRange) -> bool {
        self.start.equals(&other.start)
            && self.end.equals(&other.end)
            && self.unknown.equals(&other.unknown)
    }
}

impl Equals for EnumValueDescriptorProto {
    fn equals(&self, other: &EnumValueDescriptorProto) -> bool {
        self.name.equals(&other.name)
            && self.number.equals(&other.number)
            && self.options.equals(&other.options)
            && self.unknown.equals(&other.unknown)
    }
}
