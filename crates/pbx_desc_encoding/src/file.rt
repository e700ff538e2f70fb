ghost use Rattle.std.specs.Prelude.{◌≡◌, IfOk, OnOk};
ghost use Rattle.pbx_content.specs.Sound.{IsSound};
ghost use Rattle.pbx_content_codec.specs.View.{content_of};
ghost use Rattle.pbx_desc_shapes.specs.DescriptorShape.{descriptor_shape as descriptor_shape_of};
ghost use Rattle.pbx_desc_encoding.specs.Building.{IsWritten};
ghost use Rattle.pbx_desc_encoding.specs.Content.{file_set_content, file_content};

use crate::contents::{FieldList, HasContents};
use crate::encoding::{Message, record_bytes};
use crate::parts::{put_each, put_each_by_content, put_fields, put_source};
use pbx_content::{Schema, encoding_decodes};
use pbx_content_codec::Contents;
use pbx_desc_records::{FileDescriptorProto, FileDescriptorSet};
use pbx_desc_shapes::{descriptor_place as place, descriptor_shape};
use pbx_wire::{NoMemory, Recs};
use std::alloc::Global;

impl HasContents for FileDescriptorSet {
    ghost TYPE_AT = { 0 };

    ghost content = { file_set_content };

    const TYPE_AT: usize = place::FILE_SET;

    fn to_contents(&self, alloc: Global) -> Result<Contents, NoMemory> {
        let mut fields = FieldList::new(alloc);
        fields.records(1, &self.file)?;
        fields.with_unknown(&self.unknown, &[1])
    }
}

impl Message for FileDescriptorSet {
    ghost shape = { λ _. descriptor_shape_of };

    ghost type_at = { λ _. 0 };

    ghost content = { file_set_content };

    fn encode_to_vec(&self, alloc: Global) -> Result<Vec<u8>, NoMemory> {
        record_bytes(alloc, self)
    }
}

impl HasContents for FileDescriptorProto {
    ghost TYPE_AT = { 1 };

    ghost content = { file_content };

    const TYPE_AT: usize = place::FILE;

    fn to_contents(&self, alloc: Global) -> Result<Contents, NoMemory> {
        let mut fields = FieldList::new(alloc);
        fields.text(1, &self.name)?;
        fields.text(2, &self.package)?;
        fields.texts(3, &self.dependency)?;
        fields.records(4, &self.message_type)?;
        fields.records(5, &self.enum_type)?;
        fields.records(6, &self.service)?;
        fields.records(7, &self.extension)?;
        fields.options(8, &self.options)?;
        fields.record(9, &self.source_code_info)?;
        fields.numbers(10, &self.public_dependency)?;
        fields.numbers(11, &self.weak_dependency)?;
        fields.text(12, &self.syntax)?;
        fields.with_unknown(&self.unknown, &[1, 2, 3, 4, 5, 6, 7, 8, 9, 10, 11, 12])
    }
}

impl Message for FileDescriptorProto {
    ghost shape = { λ _. descriptor_shape_of };

    ghost type_at = { λ _. 1 };

    ghost content = { file_content };

    fn encode_to_vec(&self, alloc: Global) -> Result<Vec<u8>, NoMemory> {
        encoding_decodes();
        let schema = descriptor_shape(alloc)?;
        let mut bytes = Vec::new(alloc);
        write_file(alloc, &schema, self, &mut bytes)?;
        Ok(bytes)
    }
}

/// Puts the encoding behind the text, part by part: the content of the whole would be larger than the file itself.
pub(crate) fn write_file(
    alloc: Global,
    schema: &Schema,
    file: &FileDescriptorProto,
    out: &mut Vec<u8>,
) -> Result<(), NoMemory>
    requires { schema.now ≡ descriptor_shape_of }
    ensures { OnOk result (IsWritten 1 (file_content file.now) out.old.items out.new.items) }
{
    let none = Recs::new(alloc);
    let mut front = FieldList::new(alloc);
    front.text(1, &file.name)?;
    front.text(2, &file.package)?;
    front.texts(3, &file.dependency)?;
    put_fields(alloc, schema, place::FILE, front, &none, &[], out)?;
    put_each(alloc, schema, 4, &file.message_type, out)?;
    put_each(alloc, schema, 5, &file.enum_type, out)?;
    put_each_by_content(alloc, schema, 6, &file.service, out)?;
    put_each(alloc, schema, 7, &file.extension, out)?;
    let mut middle = FieldList::new(alloc);
    middle.options(8, &file.options)?;
    put_fields(alloc, schema, place::FILE, middle, &none, &[], out)?;
    put_source(alloc, schema, 9, &file.source_code_info, out)?;
    let mut back = FieldList::new(alloc);
    back.numbers(10, &file.public_dependency)?;
    back.numbers(11, &file.weak_dependency)?;
    back.text(12, &file.syntax)?;
    let known = [1, 2, 3, 4, 5, 6, 7, 8, 9, 10, 11, 12];
    put_fields(alloc, schema, place::FILE, back, &file.unknown, &known, out)
}

/// What the file holds as a message of its type. The only error is want of memory.
pub fn file_contents(alloc: Global, file: &FileDescriptorProto) -> Result<Contents, NoMemory>
    ensures content { IfOk result (λ contents. content_of contents ≡ file_content file.now) }
    ensures sound { OnOk result (IsSound descriptor_shape_of 1 (file_content file.now)) }
{
    file.to_contents(alloc)
}
