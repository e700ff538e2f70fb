ghost use Rattle.pbx_desc_shapes.specs.DescriptorShape.{descriptor_shape};
ghost use Rattle.pbx_desc_encoding.specs.Content.{enum_content, enum_reserved_range_content, enum_value_content};
ghost use Rattle.pbx_desc.specs.Decoding.{Whole};
ghost use Rattle.pbx_desc.specs.Exact.{is_exact_enum, is_exact_enum_reserved_range, is_exact_enum_value};

use crate::decoding::{DecodeMessage, record_from_bytes};
use crate::taking::{
    FromContents, kept_records, take_number, take_options, take_records, take_text, take_texts,
};
use pbx_content_codec::Contents;
use pbx_desc_records::{EnumDescriptorProto, EnumReservedRange, EnumValueDescriptorProto};
use pbx_desc_shapes::descriptor_place as place;
use pbx_wire::{DecodeError, NoMemory};
use std::alloc::Global;

impl FromContents for EnumDescriptorProto {
    ghost TYPE_AT = { 7 };

    ghost content = { enum_content };

    ghost is_exact = { is_exact_enum };

    const TYPE_AT: usize = place::ENUM;

    fn from_contents(
        mut contents: Contents,
        alloc: Global,
    ) -> Result<EnumDescriptorProto, NoMemory> {
        let name = take_text(&mut contents, 1);
        let value = take_records(&mut contents, 2, alloc)?;
        let options = take_options(&mut contents, 3, alloc);
        let reserved_range = take_records(&mut contents, 4, alloc)?;
        let reserved_name = take_texts(&mut contents, 5, alloc)?;
        Ok(EnumDescriptorProto {
            name,
            value,
            options,
            reserved_range,
            reserved_name,
            unknown: kept_records(contents),
        })
    }
}

impl DecodeMessage for EnumDescriptorProto {
    ghost SHAPE = { descriptor_shape };

    ghost TYPE_AT = { 7 };

    ghost DECODING = { Whole };

    ghost is_exact = { is_exact_enum };

    fn decode(alloc: Global, bytes: &[u8]) -> Result<EnumDescriptorProto, DecodeError> {
        record_from_bytes(alloc, bytes)
    }
}

impl FromContents for EnumReservedRange {
    ghost TYPE_AT = { 8 };

    ghost content = { enum_reserved_range_content };

    ghost is_exact = { is_exact_enum_reserved_range };

    const TYPE_AT: usize = place::ENUM_RESERVED_RANGE;

    fn from_contents(
        mut contents: Contents,
        _alloc: Global,
    ) -> Result<EnumReservedRange, NoMemory> {
        let start = take_number(&mut contents, 1);
        let end = take_number(&mut contents, 2);
        Ok(EnumReservedRange {
            start,
            end,
            unknown: kept_records(contents),
        })
    }
}

impl DecodeMessage for EnumReservedRange {
    ghost SHAPE = { descriptor_shape };

    ghost TYPE_AT = { 8 };

    ghost DECODING = { Whole };

    ghost is_exact = { is_exact_enum_reserved_range };

    fn decode(alloc: Global, bytes: &[u8]) -> Result<EnumReservedRange, DecodeError> {
        record_from_bytes(alloc, bytes)
    }
}

impl FromContents for EnumValueDescriptorProto {
    ghost TYPE_AT = { 9 };

    ghost content = { enum_value_content };

    ghost is_exact = { is_exact_enum_value };

    const TYPE_AT: usize = place::ENUM_VALUE;

    fn from_contents(
        mut contents: Contents,
        alloc: Global,
    ) -> Result<EnumValueDescriptorProto, NoMemory> {
        let name = take_text(&mut contents, 1);
        let number = take_number(&mut contents, 2);
        let options = take_options(&mut contents, 3, alloc);
        Ok(EnumValueDescriptorProto {
            name,
            number,
            options,
            unknown: kept_records(contents),
        })
    }
}

impl DecodeMessage for EnumValueDescriptorProto {
    ghost SHAPE = { descriptor_shape };

    ghost TYPE_AT = { 9 };

    ghost DECODING = { Whole };

    ghost is_exact = { is_exact_enum_value };

    fn decode(alloc: Global, bytes: &[u8]) -> Result<EnumValueDescriptorProto, DecodeError> {
        record_from_bytes(alloc, bytes)
    }
}
