ghost use Rattle.std.specs.Prelude.{string_bytes};
ghost use Rattle.pbx_content.specs.Content.{empty, truth, text as text_val, octets};
ghost use Rattle.pbx_desc_shapes.specs.TypesShape.{types_shape as types_shape_of};
ghost use Rattle.pbx_desc_wrappers.specs.Scalars.{wrapper_content};

use crate::encoding::Message;
use bytes::Bytes;
use pbx_content_codec::{Contents, Held};
use pbx_desc_shapes::{types_shape, well_known_place as place};
use pbx_desc_wrappers::{contents_bytes, wrapper_bytes};
use pbx_wire::{NoMemory, Text};
use std::alloc::Global;

/// `google.protobuf.Empty`.
impl Message for () {
    ghost shape = { λ _. types_shape_of };

    ghost type_at = { λ _. 2 };

    ghost content = { λ _. empty };

    fn encode_to_vec(&self, alloc: Global) -> Result<Vec<u8>, NoMemory> {
        let schema = types_shape(alloc)?;
        contents_bytes(alloc, &schema, place::EMPTY, &Contents::new(alloc))
    }
}

/// `google.protobuf.BoolValue`.
impl Message for bool {
    ghost shape = { λ _. types_shape_of };

    ghost type_at = { λ _. 13 };

    ghost content = { λ value. wrapper_content (truth value) };

    fn encode_to_vec(&self, alloc: Global) -> Result<Vec<u8>, NoMemory> {
        wrapper_bytes(alloc, place::BOOL_VALUE, Held::Bool(*self))
    }
}

/// `google.protobuf.StringValue`.
impl Message for String {
    ghost shape = { λ _. types_shape_of };

    ghost type_at = { λ _. 14 };

    ghost content = { λ value. wrapper_content (text_val (string_bytes value)) };

    fn encode_to_vec(&self, alloc: Global) -> Result<Vec<u8>, NoMemory> {
        let text = Text::from_str(alloc, self.as_str())?;
        wrapper_bytes(alloc, place::STRING_VALUE, Held::Text(text))
    }
}

/// `google.protobuf.BytesValue`.
impl Message for Vec<u8> {
    ghost shape = { λ _. types_shape_of };

    ghost type_at = { λ _. 15 };

    ghost content = { λ value. wrapper_content (octets value.items) };

    fn encode_to_vec(&self, alloc: Global) -> Result<Vec<u8>, NoMemory> {
        let octets = Bytes::copy_from_slice(alloc, self.as_slice())?;
        wrapper_bytes(alloc, place::BYTES_VALUE, Held::Bytes(octets))
    }
}

/// `google.protobuf.BytesValue`.
impl Message for Bytes {
    ghost shape = { λ _. types_shape_of };

    ghost type_at = { λ _. 15 };

    ghost content = { λ value. wrapper_content (octets value) };

    fn encode_to_vec(&self, alloc: Global) -> Result<Vec<u8>, NoMemory> {
        wrapper_bytes(alloc, place::BYTES_VALUE, Held::Bytes(self.clone()?))
    }
}
