use crate::equals::Equals;
use pbx_desc_records::FileDescriptorProto;

impl Equals for FileDescriptorProto {
    fn equals(&self, other: &FileDescriptorProto) -> bool {
        self.name.equals(&other.name)
            && self.package.equals(&other.package)
            && self.dependency.equals(&other.dependency)
            && self.message_type.equals(&other.message_type)
            && self.enum_type.equals(&other.enum_type)
            && self.service.equals(&other.service)
            && self.extension.equals(&other.extension)
            && self.options.equals(&other.options)
            && self.source_code_info.equals(&other.source_code_info)
            && self.public_dependency.equals(&other.public_dependency)
            && self.weak_dependency.equals(&other.weak_dependency)
            && self.syntax.equals(&other.syntax)
            && self.unknown.equals(&other.unknown)
    }
}
