ghost use Rattle.std.specs.Prelude.{◌≡◌, ℕ, [], true};
ghost use Rattle.pbx_content.specs.Shape.{fields_of};
ghost use Rattle.pbx_content.specs.Sound.{IsSound};
ghost use Rattle.pbx_content_codec.specs.View.{content_of};
ghost use Rattle.pbx_desc_shapes.specs.DescriptorShape.{descriptor_shape};
ghost use Rattle.pbx_desc_encoding.specs.Content.{options_content};
ghost use Rattle.pbx_desc.specs.Decoding.{Whole};
ghost use Rattle.pbx_desc.specs.Exact.{is_exact_options};

use crate::decoding::{DecodeMessage, record_from_bytes};
use crate::taking::{FromContents, kept_records};
use pbx_content_codec::Contents;
use pbx_desc_records::Options;
use pbx_desc_shapes::descriptor_place as place;
use pbx_wire::{DecodeError, NoMemory};
use std::alloc::Global;

/// The options of a content of whatever type has no field.
pub(crate) fn options_of(contents: Contents) -> Options
    ensures { (type_at : ℕ) → fields_of descriptor_shape type_at ≡ [] → IsSound descriptor_shape type_at (content_of contents)
        → (options_content result ≡ content_of contents) × (is_exact_options result ≡ true) }
{
    Options {
        recs: kept_records(contents),
    }
}

impl FromContents for Options {
    ghost TYPE_AT = { 14 };

    ghost content = { options_content };

    ghost is_exact = { is_exact_options };

    const TYPE_AT: usize = place::FILE_OPTIONS;

    fn from_contents(contents: Contents, _alloc: Global) -> Result<Options, NoMemory> {
        Ok(options_of(contents))
    }
}

/// As a message of any type of options, since all are read alike.
impl DecodeMessage for Options {
    ghost SHAPE = { descriptor_shape };

    ghost TYPE_AT = { 14 };

    ghost DECODING = { Whole };

    ghost is_exact = { is_exact_options };

    fn decode(alloc: Global, bytes: &[u8]) -> Result<Options, DecodeError> {
        record_from_bytes(alloc, bytes)
    }
}
