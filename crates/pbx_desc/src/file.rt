ghost use Rattle.std.specs.Prelude.{OnOk};
ghost use Rattle.pbx_content_codec.specs.View.{content_of};
ghost use Rattle.pbx_desc_shapes.specs.DescriptorShape.{descriptor_shape as descriptor_shape_of, file_fields};
ghost use Rattle.pbx_desc_encoding.specs.Content.{file_set_content, file_values, file_content};
ghost use Rattle.pbx_desc.specs.Taking.{AreTaken};
ghost use Rattle.pbx_desc.specs.Messages.{file_exact};
ghost use Rattle.pbx_desc.specs.Decoding.{ByParts, Whole};
ghost use Rattle.pbx_desc.specs.Exact.{is_exact_file_set, is_exact_file};

use crate::decoding::{DecodeMessage, record_from_bytes};
use crate::taking::{
    FromContents, kept_records, take_numbers, take_options, take_record, take_records, take_text,
    take_texts,
};
use pbx_content::meaning_is_sound;
use pbx_content_codec::{Contents, decode_parts};
use pbx_desc_records::{FileDescriptorProto, FileDescriptorSet};
use pbx_desc_shapes::{descriptor_place as place, descriptor_shape};
use pbx_wire::{DecodeError, NoMemory};
use std::alloc::Global;

impl FromContents for FileDescriptorSet {
    ghost TYPE_AT = { 0 };

    ghost content = { file_set_content };

    ghost is_exact = { is_exact_file_set };

    const TYPE_AT: usize = place::FILE_SET;

    fn from_contents(mut contents: Contents, alloc: Global) -> Result<FileDescriptorSet, NoMemory> {
        let file = take_records(&mut contents, 1, alloc)?;
        Ok(FileDescriptorSet {
            file,
            unknown: kept_records(contents),
        })
    }
}

/// File by file, each with 100 levels of its own.
impl DecodeMessage for FileDescriptorSet {
    ghost SHAPE = { descriptor_shape_of };

    ghost TYPE_AT = { 0 };

    ghost DECODING = { ByParts };

    ghost is_exact = { is_exact_file_set };

    fn decode(alloc: Global, bytes: &[u8]) -> Result<FileDescriptorSet, DecodeError> {
        meaning_is_sound();
        let schema = descriptor_shape(alloc)?;
        match decode_parts(alloc, &schema, place::FILE_SET, bytes) {
            Ok(contents) => Ok(FileDescriptorSet::from_contents(contents, alloc)?),
            Err(fault) => Err(fault),
        }
    }
}

impl FromContents for FileDescriptorProto {
    ghost TYPE_AT = { 1 };

    ghost content = { file_content };

    ghost is_exact = { is_exact_file };

    const TYPE_AT: usize = place::FILE;

    fn from_contents(contents: Contents, alloc: Global) -> Result<FileDescriptorProto, NoMemory> {
        let mut file = FileDescriptorProto::new(alloc);
        if let Err(error) = fill(&mut file, contents, alloc) {
            drop(file);
            return Err(error);
        }
        Ok(file)
    }
}

/// Puts what the content holds into the file.
fn fill(
    file: &mut FileDescriptorProto,
    mut contents: Contents,
    alloc: Global,
) -> Result<(), NoMemory>
    ensures { OnOk result (AreTaken file_fields (file_values file.new) (file_exact file.new) file.new.unknown (content_of contents)) }
{
    file.name = take_text(&mut contents, 1);
    file.package = take_text(&mut contents, 2);
    file.dependency = take_texts(&mut contents, 3, alloc)?;
    file.message_type = take_records(&mut contents, 4, alloc)?;
    file.enum_type = take_records(&mut contents, 5, alloc)?;
    file.service = take_records(&mut contents, 6, alloc)?;
    file.extension = take_records(&mut contents, 7, alloc)?;
    file.options = take_options(&mut contents, 8, alloc);
    file.source_code_info = take_record(&mut contents, 9, alloc)?;
    file.public_dependency = take_numbers(&mut contents, 10, alloc)?;
    file.weak_dependency = take_numbers(&mut contents, 11, alloc)?;
    file.syntax = take_text(&mut contents, 12);
    file.unknown = kept_records(contents);
    Ok(())
}

impl DecodeMessage for FileDescriptorProto {
    ghost SHAPE = { descriptor_shape_of };

    ghost TYPE_AT = { 1 };

    ghost DECODING = { Whole };

    ghost is_exact = { is_exact_file };

    fn decode(alloc: Global, bytes: &[u8]) -> Result<FileDescriptorProto, DecodeError> {
        record_from_bytes(alloc, bytes)
    }
}
