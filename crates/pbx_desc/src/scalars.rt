ghost use Rattle.std.specs.Prelude.{true};
ghost use Rattle.pbx_desc_shapes.specs.TypesShape.{types_shape as types_shape_of};
ghost use Rattle.pbx_desc.specs.Decoding.{WithoutUnknown};

use crate::decoding::DecodeMessage;
use bytes::Bytes;
use pbx_desc_shapes::well_known_place as place;
use pbx_desc_wrappers::{octets_in, string_in, truth_in, type_contents, wrapped_value};
use pbx_wire::DecodeError;
use std::alloc::Global;

/// Unknown records are dropped.
impl DecodeMessage for () {
    ghost SHAPE = { types_shape_of };

    ghost TYPE_AT = { 2 };

    ghost DECODING = { WithoutUnknown };

    ghost is_exact = { λ _. true };

    fn decode(alloc: Global, bytes: &[u8]) -> Result<(), DecodeError> {
        type_contents(alloc, place::EMPTY, bytes)?;
        Ok(())
    }
}

/// Unknown records are dropped.
impl DecodeMessage for bool {
    ghost SHAPE = { types_shape_of };

    ghost TYPE_AT = { 13 };

    ghost DECODING = { WithoutUnknown };

    ghost is_exact = { λ _. true };

    fn decode(alloc: Global, bytes: &[u8]) -> Result<bool, DecodeError> {
        Ok(truth_in(wrapped_value(alloc, place::BOOL_VALUE, bytes)?))
    }
}

/// Unknown records are dropped.
impl DecodeMessage for String {
    ghost SHAPE = { types_shape_of };

    ghost TYPE_AT = { 14 };

    ghost DECODING = { WithoutUnknown };

    ghost is_exact = { λ _. true };

    fn decode(alloc: Global, bytes: &[u8]) -> Result<String, DecodeError> {
        Ok(string_in(wrapped_value(alloc, place::STRING_VALUE, bytes)?, alloc)?)
    }
}

/// Unknown records are dropped.
impl DecodeMessage for Vec<u8> {
    ghost SHAPE = { types_shape_of };

    ghost TYPE_AT = { 15 };

    ghost DECODING = { WithoutUnknown };

    ghost is_exact = { λ _. true };

    fn decode(alloc: Global, bytes: &[u8]) -> Result<Vec<u8>, DecodeError> {
        let octets = octets_in(wrapped_value(alloc, place::BYTES_VALUE, bytes)?);
        Ok(Vec::from_slice(alloc, octets.as_slice())?)
    }
}

/// Unknown records are dropped.
impl DecodeMessage for Bytes {
    ghost SHAPE = { types_shape_of };

    ghost TYPE_AT = { 15 };

    ghost DECODING = { WithoutUnknown };

    ghost is_exact = { λ _. true };

    fn decode(alloc: Global, bytes: &[u8]) -> Result<Bytes, DecodeError> {
        Ok(octets_in(wrapped_value(alloc, place::BYTES_VALUE, bytes)?))
    }
}
