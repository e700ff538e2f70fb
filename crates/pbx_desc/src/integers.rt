ghost use Rattle.std.specs.Prelude.{true};
ghost use Rattle.pbx_desc_shapes.specs.TypesShape.{types_shape};
ghost use Rattle.pbx_desc.specs.Decoding.{WithoutUnknown};

use crate::decoding::DecodeMessage;
use pbx_desc_shapes::well_known_place as place;
use pbx_desc_wrappers::{i32_in, i64_in, u32_in, u64_in, wrapped_value};
use pbx_wire::DecodeError;
use std::alloc::Global;

/// Unknown records are dropped.
impl DecodeMessage for i32 {
    ghost SHAPE = { types_shape };

    ghost TYPE_AT = { 11 };

    ghost DECODING = { WithoutUnknown };

    ghost is_exact = { λ _. true };

    fn decode(alloc: Global, bytes: &[u8]) -> Result<i32, DecodeError> {
        Ok(i32_in(wrapped_value(alloc, place::INT32_VALUE, bytes)?))
    }
}

/// Unknown records are dropped.
impl DecodeMessage for i64 {
    ghost SHAPE = { types_shape };

    ghost TYPE_AT = { 9 };

    ghost DECODING = { WithoutUnknown };

    ghost is_exact = { λ _. true };

    fn decode(alloc: Global, bytes: &[u8]) -> Result<i64, DecodeError> {
        Ok(i64_in(wrapped_value(alloc, place::INT64_VALUE, bytes)?))
    }
}

/// Unknown records are dropped.
impl DecodeMessage for u32 {
    ghost SHAPE = { types_shape };

    ghost TYPE_AT = { 12 };

    ghost DECODING = { WithoutUnknown };

    ghost is_exact = { λ _. true };

    fn decode(alloc: Global, bytes: &[u8]) -> Result<u32, DecodeError> {
        Ok(u32_in(wrapped_value(alloc, place::UINT32_VALUE, bytes)?))
    }
}

/// Unknown records are dropped.
impl DecodeMessage for u64 {
    ghost SHAPE = { types_shape };

    ghost TYPE_AT = { 10 };

    ghost DECODING = { WithoutUnknown };

    ghost is_exact = { λ _. true };

    fn decode(alloc: Global, bytes: &[u8]) -> Result<u64, DecodeError> {
        Ok(u64_in(wrapped_value(alloc, place::UINT64_VALUE, bytes)?))
    }
}
