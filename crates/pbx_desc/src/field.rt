ghost use Rattle.pbx_desc_shapes.specs.DescriptorShape.{descriptor_shape};
ghost use Rattle.pbx_desc_encoding.specs.Content.{field_content, oneof_content};
ghost use Rattle.pbx_desc.specs.Decoding.{Whole};
ghost use Rattle.pbx_desc.specs.Exact.{is_exact_field, is_exact_oneof};

use crate::decoding::{DecodeMessage, record_from_bytes};
use crate::taking::{FromContents, kept_records, take_number, take_options, take_text, take_truth};
use pbx_content_codec::Contents;
use pbx_desc_records::{FieldDescriptorProto, OneofDescriptorProto};
use pbx_desc_shapes::descriptor_place as place;
use pbx_wire::{DecodeError, NoMemory};
use std::alloc::Global;

impl FromContents for FieldDescriptorProto {
    ghost TYPE_AT = { 3 };

    ghost content = { field_content };

    ghost is_exact = { is_exact_field };

    const TYPE_AT: usize = place::FIELD;

    fn from_contents(
        mut contents: Contents,
        alloc: Global,
    ) -> Result<FieldDescriptorProto, NoMemory> {
        let name = take_text(&mut contents, 1);
        let extendee = take_text(&mut contents, 2);
        let number = take_number(&mut contents, 3);
        let label = take_number(&mut contents, 4);
        let kind = take_number(&mut contents, 5);
        let type_name = take_text(&mut contents, 6);
        let default_value = take_text(&mut contents, 7);
        let options = take_options(&mut contents, 8, alloc);
        let oneof_index = take_number(&mut contents, 9);
        let json_name = take_text(&mut contents, 10);
        let proto3_optional = take_truth(&mut contents, 17);
        Ok(FieldDescriptorProto {
            name,
            extendee,
            number,
            label,
            kind,
            type_name,
            default_value,
            options,
            oneof_index,
            json_name,
            proto3_optional,
            unknown: kept_records(contents),
        })
    }
}

impl DecodeMessage for FieldDescriptorProto {
    ghost SHAPE = { descriptor_shape };

    ghost TYPE_AT = { 3 };

    ghost DECODING = { Whole };

    ghost is_exact = { is_exact_field };

    fn decode(alloc: Global, bytes: &[u8]) -> Result<FieldDescriptorProto, DecodeError> {
        record_from_bytes(alloc, bytes)
    }
}

impl FromContents for OneofDescriptorProto {
    ghost TYPE_AT = { 6 };

    ghost content = { oneof_content };

    ghost is_exact = { is_exact_oneof };

    const TYPE_AT: usize = place::ONEOF;

    fn from_contents(
        mut contents: Contents,
        alloc: Global,
    ) -> Result<OneofDescriptorProto, NoMemory> {
        let name = take_text(&mut contents, 1);
        let options = take_options(&mut contents, 2, alloc);
        Ok(OneofDescriptorProto {
            name,
            options,
            unknown: kept_records(contents),
        })
    }
}

impl DecodeMessage for OneofDescriptorProto {
    ghost SHAPE = { descriptor_shape };

    ghost TYPE_AT = { 6 };

    ghost DECODING = { Whole };

    ghost is_exact = { is_exact_oneof };

    fn decode(alloc: Global, bytes: &[u8]) -> Result<OneofDescriptorProto, DecodeError> {
        record_from_bytes(alloc, bytes)
    }
}
