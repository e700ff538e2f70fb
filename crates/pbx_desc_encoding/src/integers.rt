ghost use Rattle.std.specs.Prelude.{pos};
ghost use Rattle.pbx_content.specs.Content.{number};
ghost use Rattle.pbx_desc_shapes.specs.TypesShape.{types_shape};
ghost use Rattle.pbx_desc_wrappers.specs.Scalars.{wrapper_content};

use crate::encoding::Message;
use pbx_content_codec::Held;
use pbx_desc_shapes::well_known_place as place;
use pbx_desc_wrappers::wrapper_bytes;
use pbx_wire::NoMemory;
use std::alloc::Global;

/// `google.protobuf.Int32Value`.
impl Message for i32 {
    ghost shape = { λ _. types_shape };

    ghost type_at = { λ _. 11 };

    ghost content = { λ value. wrapper_content (number value) };

    fn encode_to_vec(&self, alloc: Global) -> Result<Vec<u8>, NoMemory> {
        wrapper_bytes(alloc, place::INT32_VALUE, Held::I32(*self))
    }
}

/// `google.protobuf.Int64Value`.
impl Message for i64 {
    ghost shape = { λ _. types_shape };

    ghost type_at = { λ _. 9 };

    ghost content = { λ value. wrapper_content (number value) };

    fn encode_to_vec(&self, alloc: Global) -> Result<Vec<u8>, NoMemory> {
        wrapper_bytes(alloc, place::INT64_VALUE, Held::I64(*self))
    }
}

/// `google.protobuf.UInt32Value`.
impl Message for u32 {
    ghost shape = { λ _. types_shape };

    ghost type_at = { λ _. 12 };

    ghost content = { λ value. wrapper_content (number (pos value)) };

    fn encode_to_vec(&self, alloc: Global) -> Result<Vec<u8>, NoMemory> {
        wrapper_bytes(alloc, place::UINT32_VALUE, Held::U32(*self))
    }
}

/// `google.protobuf.UInt64Value`.
impl Message for u64 {
    ghost shape = { λ _. types_shape };

    ghost type_at = { λ _. 10 };

    ghost content = { λ value. wrapper_content (number (pos value)) };

    fn encode_to_vec(&self, alloc: Global) -> Result<Vec<u8>, NoMemory> {
        wrapper_bytes(alloc, place::UINT64_VALUE, Held::U64(*self))
    }
}
