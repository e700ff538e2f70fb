ghost use Rattle.std.specs.Prelude.{◌≡◌, OnOk};
ghost use Rattle.pbx_desc_shapes.specs.DescriptorShape.{descriptor_shape as descriptor_shape_of};
ghost use Rattle.pbx_desc_encoding.specs.Building.{IsWritten};
ghost use Rattle.pbx_desc_encoding.specs.Content.{source_code_info_content, location_content};

use crate::contents::{FieldList, HasContents};
use crate::encoding::{Message, record_bytes};
use crate::location::put_locations;
use crate::parts::put_fields;
use pbx_content::{Schema, encoding_decodes};
use pbx_content_codec::Contents;
use pbx_desc_records::{Location, SourceCodeInfo};
use pbx_desc_shapes::{descriptor_place as place, descriptor_shape};
use pbx_wire::NoMemory;
use std::alloc::Global;

impl HasContents for SourceCodeInfo {
    ghost TYPE_AT = { 12 };

    ghost content = { source_code_info_content };

    const TYPE_AT: usize = place::SOURCE_CODE_INFO;

    fn to_contents(&self, alloc: Global) -> Result<Contents, NoMemory> {
        let mut fields = FieldList::new(alloc);
        fields.records(1, &self.location)?;
        fields.with_unknown(&self.unknown, &[1])
    }
}

impl Message for SourceCodeInfo {
    ghost shape = { λ _. descriptor_shape_of };

    ghost type_at = { λ _. 12 };

    ghost content = { source_code_info_content };

    fn encode_to_vec(&self, alloc: Global) -> Result<Vec<u8>, NoMemory> {
        encoding_decodes();
        let schema = descriptor_shape(alloc)?;
        let mut bytes = Vec::new(alloc);
        write_source(alloc, &schema, self, &mut bytes)?;
        Ok(bytes)
    }
}

impl HasContents for Location {
    ghost TYPE_AT = { 13 };

    ghost content = { location_content };

    const TYPE_AT: usize = place::LOCATION;

    fn to_contents(&self, alloc: Global) -> Result<Contents, NoMemory> {
        let mut fields = FieldList::new(alloc);
        fields.numbers(1, &self.path)?;
        fields.numbers(2, &self.span)?;
        fields.text(3, &self.leading_comments)?;
        fields.text(4, &self.trailing_comments)?;
        fields.texts(6, &self.leading_detached_comments)?;
        fields.with_unknown(&self.unknown, &[1, 2, 3, 4, 6])
    }
}

impl Message for Location {
    ghost shape = { λ _. descriptor_shape_of };

    ghost type_at = { λ _. 13 };

    ghost content = { location_content };

    fn encode_to_vec(&self, alloc: Global) -> Result<Vec<u8>, NoMemory> {
        record_bytes(alloc, self)
    }
}

/// Puts the encoding behind the text, place by place.
pub(crate) fn write_source(
    alloc: Global,
    schema: &Schema,
    source: &SourceCodeInfo,
    out: &mut Vec<u8>,
) -> Result<(), NoMemory>
    requires { schema.now ≡ descriptor_shape_of }
    ensures { OnOk result (IsWritten 12 (source_code_info_content source.now) out.old.items out.new.items) }
{
    put_locations(alloc, schema, 1, &source.location, out)?;
    let none = FieldList::new(alloc);
    put_fields(
        alloc,
        schema,
        place::SOURCE_CODE_INFO,
        none,
        &source.unknown,
        &[1],
        out,
    )
}
