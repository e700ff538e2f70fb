ghost use Rattle.pbx_desc_shapes.specs.DescriptorShape.{descriptor_shape};
ghost use Rattle.pbx_desc_encoding.specs.Content.{service_content, method_content};

use crate::contents::{FieldList, HasContents};
use crate::encoding::{Message, record_bytes};
use pbx_content_codec::Contents;
use pbx_desc_records::{MethodDescriptorProto, ServiceDescriptorProto};
use pbx_desc_shapes::descriptor_place as place;
use pbx_wire::NoMemory;
use std::alloc::Global;

impl HasContents for ServiceDescriptorProto {
    ghost TYPE_AT = { 10 };

    ghost content = { service_content };

    const TYPE_AT: usize = place::SERVICE;

    fn to_contents(&self, alloc: Global) -> Result<Contents, NoMemory> {
        let mut fields = FieldList::new(alloc);
        fields.text(1, &self.name)?;
        fields.records(2, &self.method)?;
        fields.options(3, &self.options)?;
        fields.with_unknown(&self.unknown, &[1, 2, 3])
    }
}

impl Message for ServiceDescriptorProto {
    ghost shape = { λ _. descriptor_shape };

    ghost type_at = { λ _. 10 };

    ghost content = { service_content };

    fn encode_to_vec(&self, alloc: Global) -> Result<Vec<u8>, NoMemory> {
        record_bytes(alloc, self)
    }
}

impl HasContents for MethodDescriptorProto {
    ghost TYPE_AT = { 11 };

    ghost content = { method_content };

    const TYPE_AT: usize = place::METHOD;

    fn to_contents(&self, alloc: Global) -> Result<Contents, NoMemory> {
        let mut fields = FieldList::new(alloc);
        fields.text(1, &self.name)?;
        fields.text(2, &self.input_type)?;
        fields.text(3, &self.output_type)?;
        fields.options(4, &self.options)?;
        fields.truth(5, self.client_streaming)?;
        fields.truth(6, self.server_streaming)?;
        fields.with_unknown(&self.unknown, &[1, 2, 3, 4, 5, 6])
    }
}

impl Message for MethodDescriptorProto {
    ghost shape = { λ _. descriptor_shape };

    ghost type_at = { λ _. 11 };

    ghost content = { method_content };

    fn encode_to_vec(&self, alloc: Global) -> Result<Vec<u8>, NoMemory> {
        record_bytes(alloc, self)
    }
}
