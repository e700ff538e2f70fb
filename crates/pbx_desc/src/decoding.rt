ghost use Rattle.std.specs.Prelude.{◌≡◌, ℕ, Bool, true, Some, IfOk, IfErr};
ghost use Rattle.pbx_content.specs.declared.shape.Shape.{Shape};
ghost use Rattle.pbx_content.specs.Meaning.{meaning_of};
ghost use Rattle.pbx_content.specs.Faults.{IsFaultOf, IsToldFault};
ghost use Rattle.pbx_desc_shapes.specs.DescriptorShape.{descriptor_shape as descriptor_shape_of};
ghost use Rattle.pbx_desc.specs.Decoding.{Decoding, meaning_by, IsFaultBy};

use crate::taking::FromContents;
use pbx_content::meaning_is_sound;
use pbx_content_codec::decode;
use pbx_desc_encoding::Message;
use pbx_desc_shapes::descriptor_shape;
use pbx_wire::DecodeError;
use std::alloc::Global;

/// A type whose values are read from the bytes of messages.
pub trait DecodeMessage: Message + Sized {
    /// The types among which the message's type stands.
    ghost SHAPE: { Shape };

    /// The place of the message's type.
    ghost TYPE_AT: { ℕ };

    /// How bytes are read.
    ghost DECODING: { Decoding };

    /// Whether nothing stands in a value beside its content. No two such records have the same one: `contents_fix_files`, `contents_fix_types`,
    /// and `contents_fix_records` of the well-known types.
    ghost is_exact: { Self → Bool };

    /// The value that holds what the bytes mean.
    fn decode(alloc: Global, bytes: &[u8]) -> Result<Self, DecodeError>
        ensures found { IfOk result (λ value. meaning_by DECODING SHAPE TYPE_AT bytes.now ≡ Some (Self.content value)) }

        // And nothing beside it: no unknown record that could not be written, and no member that a content leaves out.
        ensures exact { IfOk result (λ value. is_exact value ≡ true) }

        // As a message of the type as which it is written.
        ensures typed { IfOk result (λ value. (Self.shape value ≡ SHAPE) × (Self.type_at value ≡ TYPE_AT)) }

        // Only where they mean nothing. Where there are several faults, the first: none is in a record with a lesser offset.
        ensures fault { IfErr result
            (IsToldFault (meaning_by DECODING SHAPE TYPE_AT bytes.now) (IsFaultBy DECODING SHAPE TYPE_AT bytes.now)) };
}

/// The record of the bytes of a message of its type.
pub(crate) fn record_from_bytes<R: FromContents>(
    alloc: Global,
    bytes: &[u8],
) -> Result<R, DecodeError>
    ensures found { IfOk result (λ value. meaning_of descriptor_shape_of R.TYPE_AT bytes.now ≡ Some (R.content value)) }
    ensures exact { IfOk result (λ value. R.is_exact value ≡ true) }
    ensures fault { IfErr result (IsToldFault (meaning_of descriptor_shape_of R.TYPE_AT bytes.now) (IsFaultOf descriptor_shape_of R.TYPE_AT bytes.now)) }
{
    meaning_is_sound();
    let schema = descriptor_shape(alloc)?;
    let contents = decode(alloc, &schema, R::TYPE_AT, bytes)?;
    Ok(R::from_contents(contents, alloc)?)
}
