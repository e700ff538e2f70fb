ghost use Rattle.pbx_desc_shapes.specs.DescriptorShape.{descriptor_shape};
ghost use Rattle.pbx_desc_encoding.specs.Content.{location_content, source_code_info_content};
ghost use Rattle.pbx_desc.specs.Decoding.{Whole};
ghost use Rattle.pbx_desc.specs.Exact.{is_exact_source_code_info, is_exact_location};

use crate::decoding::{DecodeMessage, record_from_bytes};
use crate::taking::{
    FromContents, kept_records, take_numbers, take_records, take_text, take_texts,
};
use pbx_content_codec::Contents;
use pbx_desc_records::{Location, SourceCodeInfo};
use pbx_desc_shapes::descriptor_place as place;
use pbx_wire::{DecodeError, NoMemory};
use std::alloc::Global;

impl FromContents for SourceCodeInfo {
    ghost TYPE_AT = { 12 };

    ghost content = { source_code_info_content };

    ghost is_exact = { is_exact_source_code_info };

    const TYPE_AT: usize = place::SOURCE_CODE_INFO;

    fn from_contents(mut contents: Contents, alloc: Global) -> Result<SourceCodeInfo, NoMemory> {
        let location = take_records(&mut contents, 1, alloc)?;
        Ok(SourceCodeInfo {
            location,
            unknown: kept_records(contents),
        })
    }
}

impl DecodeMessage for SourceCodeInfo {
    ghost SHAPE = { descriptor_shape };

    ghost TYPE_AT = { 12 };

    ghost DECODING = { Whole };

    ghost is_exact = { is_exact_source_code_info };

    fn decode(alloc: Global, bytes: &[u8]) -> Result<SourceCodeInfo, DecodeError> {
        record_from_bytes(alloc, bytes)
    }
}

impl FromContents for Location {
    ghost TYPE_AT = { 13 };

    ghost content = { location_content };

    ghost is_exact = { is_exact_location };

    const TYPE_AT: usize = place::LOCATION;

    fn from_contents(mut contents: Contents, alloc: Global) -> Result<Location, NoMemory> {
        let path = take_numbers(&mut contents, 1, alloc)?;
        let span = take_numbers(&mut contents, 2, alloc)?;
        let leading_comments = take_text(&mut contents, 3);
        let trailing_comments = take_text(&mut contents, 4);
        let leading_detached_comments = take_texts(&mut contents, 6, alloc)?;
        Ok(Location {
            path,
            span,
            leading_comments,
            trailing_comments,
            leading_detached_comments,
            unknown: kept_records(contents),
        })
    }
}

impl DecodeMessage for Location {
    ghost SHAPE = { descriptor_shape };

    ghost TYPE_AT = { 13 };

    ghost DECODING = { Whole };

    ghost is_exact = { is_exact_location };

    fn decode(alloc: Global, bytes: &[u8]) -> Result<Location, DecodeError> {
        record_from_bytes(alloc, bytes)
    }
}
