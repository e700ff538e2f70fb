ghost use Rattle.std.specs.Prelude.{◌≡◌, ◌≤◌, ℕ, IfOk};
ghost use Rattle.pbx_content.specs.Content.{Content};
ghost use Rattle.pbx_content.specs.declared.shape.Shape.{Shape};
ghost use Rattle.pbx_content.specs.Encoding.{encoded};
ghost use Rattle.pbx_content.specs.Same.{Decodes, DecodesParts};
ghost use Rattle.pbx_content.specs.Sound.{IsSound, PartsFit, depth};
ghost use Rattle.pbx_content_codec.specs.View.{content_of};
ghost use Rattle.pbx_desc_shapes.specs.DescriptorShape.{descriptor_shape as descriptor_shape_of};

use crate::contents::HasContents;
use pbx_content::encoding_decodes;
use pbx_content_codec::{Contents, encode};
use pbx_desc_shapes::descriptor_shape;
use pbx_wire::{Blob, NoMemory};
use std::alloc::Global;

/// A value that is written as a message.
pub trait Message {
    /// The types among which the message's type stands.
    ghost shape: { Self → Shape };

    /// The place of the message's type.
    ghost type_at: { Self → ℕ };

    /// What the message holds.
    ghost content: { Self → Content };

    /// The canonical encoding. The only error is want of memory.
    fn encode_to_vec(&self, alloc: Global) -> Result<Vec<u8>, NoMemory>
        ensures bytes { IfOk result (λ v. v.items ≡ encoded (shape self.now) (type_at self.now) (content self.now)) }

        // It decodes to what the message holds, where that nests no deeper than is read,
        ensures decodes { IfOk result (λ v. depth (content self.now) ≤ 100
            → Decodes (shape self.now) (type_at self.now) v.items (content self.now)) }

        // or, read part by part, where no part does.
        ensures parts { IfOk result (λ v. PartsFit (content self.now)
            → DecodesParts (shape self.now) (type_at self.now) v.items (content self.now)) };
}

/// The canonical encoding of a record.
pub(crate) fn record_bytes<R: HasContents>(alloc: Global, record: &R) -> Result<Vec<u8>, NoMemory>
    ensures bytes { IfOk result (λ v. v.items ≡ encoded descriptor_shape_of R.TYPE_AT (R.content «record».now)) }
    ensures decodes { IfOk result (λ v. depth (R.content «record».now) ≤ 100
        → Decodes descriptor_shape_of R.TYPE_AT v.items (R.content «record».now)) }
    ensures parts { IfOk result (λ v. PartsFit (R.content «record».now)
        → DecodesParts descriptor_shape_of R.TYPE_AT v.items (R.content «record».now)) }
{
    let contents = record.to_contents(alloc)?;
    to_bytes(alloc, R::TYPE_AT, &contents)
}

/// The canonical encoding of a content of a type of the descriptor records.
pub(crate) fn to_bytes(
    alloc: Global,
    type_at: usize,
    contents: &Contents,
) -> Result<Vec<u8>, NoMemory>
    ensures bytes { IfOk result (λ v. v.items ≡ encoded descriptor_shape_of type_at (content_of contents.now)) }
    ensures decodes { IfOk result (λ v. IsSound descriptor_shape_of type_at (content_of contents.now) → depth (content_of contents.now) ≤ 100
        → Decodes descriptor_shape_of type_at v.items (content_of contents.now)) }
    ensures parts { IfOk result (λ v. IsSound descriptor_shape_of type_at (content_of contents.now) → PartsFit (content_of contents.now)
        → DecodesParts descriptor_shape_of type_at v.items (content_of contents.now)) }
{
    encoding_decodes();
    let blob = content_bytes(alloc, type_at, contents)?;
    Ok(Vec::from_slice(alloc, blob.as_slice())?)
}

/// The same, as `encode` gives it.
fn content_bytes(alloc: Global, type_at: usize, contents: &Contents) -> Result<Blob, NoMemory>
    ensures { IfOk result (λ b. b ≡ encoded descriptor_shape_of type_at (content_of contents.now)) }
{
    let schema = descriptor_shape(alloc)?;
    encode(alloc, &schema, type_at, contents)
}
