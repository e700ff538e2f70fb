ghost use Rattle.std.specs.Prelude.{◌≡◌, [], IfOk};
ghost use Rattle.pbx_desc_shapes.specs.TypesShape.{types_shape};
ghost use Rattle.pbx_types.specs.PlainContent.{mask_content};
ghost use Rattle.pbx_desc.specs.Decoding.{Whole};
ghost use Rattle.pbx_types.specs.Exact.{is_exact_mask};

use crate::copying::copied_texts;
use crate::{
    FromContents, HasContents, kept_contents, kept_records, put_list, record_bytes,
    record_from_bytes, take_values, text_list, text_values,
};
use pbx_content_codec::Contents;
use pbx_desc::DecodeMessage;
use pbx_desc_encoding::Message;
use pbx_desc_shapes::well_known_place as place;
use pbx_wire::{DecodeError, NoMemory, Recs, Texts, copy_recs};
use std::alloc::Global;

/// Some fields of a message, `google.protobuf.FieldMask`.
#[derive(Drop)]
pub struct FieldMask {
    /// The fields: each is the names on the way to it, with points between them.
    pub paths: Texts,
    /// The records of numbers that are no field of this one, in order of arrival.
    pub unknown: Recs,
}

impl FieldMask {
    /// The record with each field absent; takes no memory.
    pub fn new(alloc: Global) -> FieldMask
        ensures { result ≡ record { paths = []; unknown = [] } }
    {
        FieldMask {
            paths: Texts::new(alloc),
            unknown: Recs::new(alloc),
        }
    }

    /// An equal record. The only error is want of memory.
    pub fn copy(&self, alloc: Global) -> Result<FieldMask, NoMemory>
        ensures { IfOk result (λ copy. copy ≡ self.now) }
    {
        Ok(FieldMask {
            paths: copied_texts(&self.paths, alloc)?,
            unknown: copy_recs(&self.unknown, alloc)?,
        })
    }
}

impl HasContents for FieldMask {
    ghost TYPE_AT = { 3 };

    ghost content = { mask_content };

    const TYPE_AT: usize = place::FIELD_MASK;

    fn to_contents(&self, alloc: Global) -> Result<Contents, NoMemory> {
        let mut contents = kept_contents(&self.unknown, &[1], alloc)?;
        put_list(&mut contents, 1, text_values(&self.paths, alloc)?)?;
        Ok(contents)
    }
}

impl Message for FieldMask {
    ghost shape = { λ _. types_shape };

    ghost type_at = { λ _. 3 };

    ghost content = { mask_content };

    fn encode_to_vec(&self, alloc: Global) -> Result<Vec<u8>, NoMemory> {
        record_bytes(alloc, self)
    }
}

impl FromContents for FieldMask {
    ghost TYPE_AT = { 3 };

    ghost content = { mask_content };

    ghost is_exact = { is_exact_mask };

    const TYPE_AT: usize = place::FIELD_MASK;

    fn from_contents(mut contents: Contents, alloc: Global) -> Result<FieldMask, NoMemory> {
        let paths = text_list(take_values(&mut contents, 1, alloc), alloc)?;
        Ok(FieldMask {
            paths,
            unknown: kept_records(contents),
        })
    }
}

impl DecodeMessage for FieldMask {
    ghost SHAPE = { types_shape };

    ghost TYPE_AT = { 3 };

    ghost DECODING = { Whole };

    ghost is_exact = { is_exact_mask };

    fn decode(alloc: Global, bytes: &[u8]) -> Result<FieldMask, DecodeError> {
        record_from_bytes(alloc, bytes)
    }
}
