ghost use Rattle.pbx_desc_shapes.specs.DescriptorShape.{descriptor_shape};
ghost use Rattle.pbx_desc_encoding.specs.Content.{method_content, service_content};
ghost use Rattle.pbx_desc.specs.Decoding.{Whole};
ghost use Rattle.pbx_desc.specs.Exact.{is_exact_service, is_exact_method};

use crate::decoding::{DecodeMessage, record_from_bytes};
use crate::taking::{
    FromContents, kept_records, take_options, take_records, take_text, take_truth,
};
use pbx_content_codec::Contents;
use pbx_desc_records::{MethodDescriptorProto, ServiceDescriptorProto};
use pbx_desc_shapes::descriptor_place as place;
use pbx_wire::{DecodeError, NoMemory};
use std::alloc::Global;

impl FromContents for ServiceDescriptorProto {
    ghost TYPE_AT = { 10 };

    ghost content = { service_content };

    ghost is_exact = { is_exact_service };

    const TYPE_AT: usize = place::SERVICE;

    fn from_contents(
        mut contents: Contents,
        alloc: Global,
    ) -> Result<ServiceDescriptorProto, NoMemory> {
        let name = take_text(&mut contents, 1);
        let method = take_records(&mut contents, 2, alloc)?;
        let options = take_options(&mut contents, 3, alloc);
        Ok(ServiceDescriptorProto {
            name,
            method,
            options,
            unknown: kept_records(contents),
        })
    }
}

impl DecodeMessage for ServiceDescriptorProto {
    ghost SHAPE = { descriptor_shape };

    ghost TYPE_AT = { 10 };

    ghost DECODING = { Whole };

    ghost is_exact = { is_exact_service };

    fn decode(alloc: Global, bytes: &[u8]) -> Result<ServiceDescriptorProto, DecodeError> {
        record_from_bytes(alloc, bytes)
    }
}

impl FromContents for MethodDescriptorProto {
    ghost TYPE_AT = { 11 };

    ghost content = { method_content };

    ghost is_exact = { is_exact_method };

    const TYPE_AT: usize = place::METHOD;

    fn from_contents(
        mut contents: Contents,
        alloc: Global,
    ) -> Result<MethodDescriptorProto, NoMemory> {
        let name = take_text(&mut contents, 1);
        let input_type = take_text(&mut contents, 2);
        let output_type = take_text(&mut contents, 3);
        let options = take_options(&mut contents, 4, alloc);
        let client_streaming = take_truth(&mut contents, 5);
        let server_streaming = take_truth(&mut contents, 6);
        Ok(MethodDescriptorProto {
            name,
            input_type,
            output_type,
            options,
            client_streaming,
            server_streaming,
            unknown: kept_records(contents),
        })
    }
}

impl DecodeMessage for MethodDescriptorProto {
    ghost SHAPE = { descriptor_shape };

    ghost TYPE_AT = { 11 };

    ghost DECODING = { Whole };

    ghost is_exact = { is_exact_method };

    fn decode(alloc: Global, bytes: &[u8]) -> Result<MethodDescriptorProto, DecodeError> {
        record_from_bytes(alloc, bytes)
    }
}
