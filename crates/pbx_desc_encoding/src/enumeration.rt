ghost use Rattle.pbx_desc_shapes.specs.DescriptorShape.{descriptor_shape};
ghost use Rattle.pbx_desc_encoding.specs.Content.{enum_content, enum_reserved_range_content, enum_value_content};

use crate::contents::{FieldList, HasContents};
use crate::encoding::{Message, record_bytes};
use crate::parts::{Put, put_by_content, put_each, put_each_by_content};
use crate::values::{put_number, put_options, put_text, put_texts};
use pbx_content::Schema;
use pbx_content_codec::Contents;
use pbx_desc_records::{EnumDescriptorProto, EnumReservedRange, EnumValueDescriptorProto};
use pbx_desc_shapes::descriptor_place as place;
use pbx_wire::NoMemory;
use std::alloc::Global;

impl HasContents for EnumDescriptorProto {
    ghost TYPE_AT = { 7 };

    ghost content = { enum_content };

    const TYPE_AT: usize = place::ENUM;

    fn to_contents(&self, alloc: Global) -> Result<Contents, NoMemory> {
        let mut fields = FieldList::new(alloc);
        fields.text(1, &self.name)?;
        fields.records(2, &self.value)?;
        fields.options(3, &self.options)?;
        fields.records(4, &self.reserved_range)?;
        fields.texts(5, &self.reserved_name)?;
        fields.with_unknown(&self.unknown, &[1, 2, 3, 4, 5])
    }
}

impl Put for EnumDescriptorProto {
    /// Part by part where no unknown record stands among the fields.
    fn put(&self, alloc: Global, schema: &Schema, out: &mut Vec<u8>) -> Result<(), NoMemory> {
        if !self.unknown.is_empty() {
            return put_by_content(alloc, schema, self, out);
        }
        put_text(1, &self.name, out)?;
        put_each(alloc, schema, 2, &self.value, out)?;
        put_options(alloc, schema, place::ENUM_OPTIONS, 3, &self.options, out)?;
        put_each_by_content(alloc, schema, 4, &self.reserved_range, out)?;
        put_texts(5, &self.reserved_name, out)
    }
}

impl Message for EnumDescriptorProto {
    ghost shape = { λ _. descriptor_shape };

    ghost type_at = { λ _. 7 };

    ghost content = { enum_content };

    fn encode_to_vec(&self, alloc: Global) -> Result<Vec<u8>, NoMemory> {
        record_bytes(alloc, self)
    }
}

impl HasContents for EnumReservedRange {
    ghost TYPE_AT = { 8 };

    ghost content = { enum_reserved_range_content };

    const TYPE_AT: usize = place::ENUM_RESERVED_RANGE;

    fn to_contents(&self, alloc: Global) -> Result<Contents, NoMemory> {
        let mut fields = FieldList::new(alloc);
        fields.number(1, self.start)?;
        fields.number(2, self.end)?;
        fields.with_unknown(&self.unknown, &[1, 2])
    }
}

impl Message for EnumReservedRange {
    ghost shape = { λ _. descriptor_shape };

    ghost type_at = { λ _. 8 };

    ghost content = { enum_reserved_range_content };

    fn encode_to_vec(&self, alloc: Global) -> Result<Vec<u8>, NoMemory> {
        record_bytes(alloc, self)
    }
}

impl HasContents for EnumValueDescriptorProto {
    ghost TYPE_AT = { 9 };

    ghost content = { enum_value_content };

    const TYPE_AT: usize = place::ENUM_VALUE;

    fn to_contents(&self, alloc: Global) -> Result<Contents, NoMemory> {
        let mut fields = FieldList::new(alloc);
        fields.text(1, &self.name)?;
        fields.number(2, self.number)?;
        fields.options(3, &self.options)?;
        fields.with_unknown(&self.unknown, &[1, 2, 3])
    }
}

impl Put for EnumValueDescriptorProto {
    /// Field by field where no unknown record stands among the fields.
    fn put(&self, alloc: Global, schema: &Schema, out: &mut Vec<u8>) -> Result<(), NoMemory> {
        if !self.unknown.is_empty() {
            return put_by_content(alloc, schema, self, out);
        }
        put_text(1, &self.name, out)?;
        put_number(2, self.number, out)?;
        put_options(
            alloc,
            schema,
            place::ENUM_VALUE_OPTIONS,
            3,
            &self.options,
            out,
        )
    }
}

impl Message for EnumValueDescriptorProto {
    ghost shape = { λ _. descriptor_shape };

    ghost type_at = { λ _. 9 };

    ghost content = { enum_value_content };

    fn encode_to_vec(&self, alloc: Global) -> Result<Vec<u8>, NoMemory> {
        record_bytes(alloc, self)
    }
}
