ghost use Rattle.pbx_desc_shapes.specs.DescriptorShape.{descriptor_shape};
ghost use Rattle.pbx_desc_encoding.specs.Content.{field_content, oneof_content};

use crate::contents::{FieldList, HasContents};
use crate::encoding::{Message, record_bytes};
use crate::parts::{Put, put_by_content};
use crate::values::{put_number, put_options, put_text, put_truth};
use pbx_content::Schema;
use pbx_content_codec::Contents;
use pbx_desc_records::{FieldDescriptorProto, OneofDescriptorProto};
use pbx_desc_shapes::descriptor_place as place;
use pbx_wire::NoMemory;
use std::alloc::Global;

impl HasContents for FieldDescriptorProto {
    ghost TYPE_AT = { 3 };

    ghost content = { field_content };

    const TYPE_AT: usize = place::FIELD;

    fn to_contents(&self, alloc: Global) -> Result<Contents, NoMemory> {
        let mut fields = FieldList::new(alloc);
        fields.text(1, &self.name)?;
        fields.text(2, &self.extendee)?;
        fields.number(3, self.number)?;
        fields.number(4, self.label)?;
        fields.number(5, self.kind)?;
        fields.text(6, &self.type_name)?;
        fields.text(7, &self.default_value)?;
        fields.options(8, &self.options)?;
        fields.number(9, self.oneof_index)?;
        fields.text(10, &self.json_name)?;
        fields.truth(17, self.proto3_optional)?;
        fields.with_unknown(&self.unknown, &[1, 2, 3, 4, 5, 6, 7, 8, 9, 10, 17])
    }
}

impl Put for FieldDescriptorProto {
    /// Field by field where no unknown record stands among the fields.
    fn put(&self, alloc: Global, schema: &Schema, out: &mut Vec<u8>) -> Result<(), NoMemory> {
        if !self.unknown.is_empty() {
            return put_by_content(alloc, schema, self, out);
        }
        put_text(1, &self.name, out)?;
        put_text(2, &self.extendee, out)?;
        put_number(3, self.number, out)?;
        put_number(4, self.label, out)?;
        put_number(5, self.kind, out)?;
        put_text(6, &self.type_name, out)?;
        put_text(7, &self.default_value, out)?;
        put_options(alloc, schema, place::FIELD_OPTIONS, 8, &self.options, out)?;
        put_number(9, self.oneof_index, out)?;
        put_text(10, &self.json_name, out)?;
        put_truth(17, self.proto3_optional, out)
    }
}

impl Message for FieldDescriptorProto {
    ghost shape = { λ _. descriptor_shape };

    ghost type_at = { λ _. 3 };

    ghost content = { field_content };

    fn encode_to_vec(&self, alloc: Global) -> Result<Vec<u8>, NoMemory> {
        record_bytes(alloc, self)
    }
}

impl HasContents for OneofDescriptorProto {
    ghost TYPE_AT = { 6 };

    ghost content = { oneof_content };

    const TYPE_AT: usize = place::ONEOF;

    fn to_contents(&self, alloc: Global) -> Result<Contents, NoMemory> {
        let mut fields = FieldList::new(alloc);
        fields.text(1, &self.name)?;
        fields.options(2, &self.options)?;
        fields.with_unknown(&self.unknown, &[1, 2])
    }
}

impl Message for OneofDescriptorProto {
    ghost shape = { λ _. descriptor_shape };

    ghost type_at = { λ _. 6 };

    ghost content = { oneof_content };

    fn encode_to_vec(&self, alloc: Global) -> Result<Vec<u8>, NoMemory> {
        record_bytes(alloc, self)
    }
}
