ghost use Rattle.std.specs.Prelude.{◌≡◌, None, [], IfOk};
ghost use Rattle.pbx_desc_shapes.specs.TypesShape.{types_shape};
ghost use Rattle.pbx_types.specs.PlainContent.{any_content, empty_content};
ghost use Rattle.pbx_desc.specs.Decoding.{Whole};
ghost use Rattle.pbx_types.specs.Exact.{is_exact_any, is_exact_empty};

use crate::copying::{copied_octets, copied_text};
use crate::{
    FromContents, HasContents, kept_contents, kept_records, put_octets, put_text, record_bytes,
    record_from_bytes, take_octets, take_text,
};
use bytes::Bytes;
use pbx_content_codec::Contents;
use pbx_desc::DecodeMessage;
use pbx_desc_encoding::Message;
use pbx_desc_shapes::well_known_place as place;
use pbx_wire::{DecodeError, NoMemory, Recs, Text, copy_recs};
use std::alloc::Global;

/// A message of whatever type, `google.protobuf.Any`.
#[derive(Drop)]
pub struct Any {
    /// The name of the type, behind the last slash.
    pub type_url: Option<Text>,
    /// The bytes of the message.
    pub value: Option<Bytes>,
    /// The records of numbers that are no field of this one, in order of arrival.
    pub unknown: Recs,
}

impl Any {
    /// The record with each field absent; takes no memory.
    pub fn new(alloc: Global) -> Any
        ensures { result ≡ record { type_url = None; value = None; unknown = [] } }
    {
        Any {
            type_url: None,
            value: None,
            unknown: Recs::new(alloc),
        }
    }

    /// An equal record. The only error is want of memory.
    pub fn copy(&self, alloc: Global) -> Result<Any, NoMemory>
        ensures { IfOk result (λ copy. copy ≡ self.now) }
    {
        Ok(Any {
            type_url: copied_text(&self.type_url, alloc)?,
            value: copied_octets(&self.value)?,
            unknown: copy_recs(&self.unknown, alloc)?,
        })
    }
}

impl HasContents for Any {
    ghost TYPE_AT = { 0 };

    ghost content = { any_content };

    const TYPE_AT: usize = place::ANY;

    fn to_contents(&self, alloc: Global) -> Result<Contents, NoMemory> {
        let mut contents = kept_contents(&self.unknown, &[1, 2], alloc)?;
        put_text(&mut contents, 1, &self.type_url, alloc)?;
        put_octets(&mut contents, 2, &self.value)?;
        Ok(contents)
    }
}

impl Message for Any {
    ghost shape = { λ _. types_shape };

    ghost type_at = { λ _. 0 };

    ghost content = { any_content };

    fn encode_to_vec(&self, alloc: Global) -> Result<Vec<u8>, NoMemory> {
        record_bytes(alloc, self)
    }
}

impl FromContents for Any {
    ghost TYPE_AT = { 0 };

    ghost content = { any_content };

    ghost is_exact = { is_exact_any };

    const TYPE_AT: usize = place::ANY;

    fn from_contents(mut contents: Contents, _alloc: Global) -> Result<Any, NoMemory> {
        let type_url = take_text(&mut contents, 1);
        let value = take_octets(&mut contents, 2);
        Ok(Any {
            type_url,
            value,
            unknown: kept_records(contents),
        })
    }
}

impl DecodeMessage for Any {
    ghost SHAPE = { types_shape };

    ghost TYPE_AT = { 0 };

    ghost DECODING = { Whole };

    ghost is_exact = { is_exact_any };

    fn decode(alloc: Global, bytes: &[u8]) -> Result<Any, DecodeError> {
        record_from_bytes(alloc, bytes)
    }
}

/// A message that has no field, `google.protobuf.Empty`.
#[derive(Drop)]
pub struct Empty {
    /// The records, none of which is that of a field, in order of arrival.
    pub unknown: Recs,
}

impl Empty {
    /// The record without unknown records; takes no memory.
    pub fn new(alloc: Global) -> Empty
        ensures { result ≡ record { unknown = [] } }
    {
        Empty {
            unknown: Recs::new(alloc),
        }
    }

    /// An equal record. The only error is want of memory.
    pub fn copy(&self, alloc: Global) -> Result<Empty, NoMemory>
        ensures { IfOk result (λ copy. copy ≡ self.now) }
    {
        Ok(Empty {
            unknown: copy_recs(&self.unknown, alloc)?,
        })
    }
}

impl HasContents for Empty {
    ghost TYPE_AT = { 2 };

    ghost content = { empty_content };

    const TYPE_AT: usize = place::EMPTY;

    fn to_contents(&self, alloc: Global) -> Result<Contents, NoMemory> {
        kept_contents(&self.unknown, &[], alloc)
    }
}

impl Message for Empty {
    ghost shape = { λ _. types_shape };

    ghost type_at = { λ _. 2 };

    ghost content = { empty_content };

    fn encode_to_vec(&self, alloc: Global) -> Result<Vec<u8>, NoMemory> {
        record_bytes(alloc, self)
    }
}

impl FromContents for Empty {
    ghost TYPE_AT = { 2 };

    ghost content = { empty_content };

    ghost is_exact = { is_exact_empty };

    const TYPE_AT: usize = place::EMPTY;

    fn from_contents(contents: Contents, _alloc: Global) -> Result<Empty, NoMemory> {
        Ok(Empty {
            unknown: kept_records(contents),
        })
    }
}

impl DecodeMessage for Empty {
    ghost SHAPE = { types_shape };

    ghost TYPE_AT = { 2 };

    ghost DECODING = { Whole };

    ghost is_exact = { is_exact_empty };

    fn decode(alloc: Global, bytes: &[u8]) -> Result<Empty, DecodeError> {
        record_from_bytes(alloc, bytes)
    }
}
