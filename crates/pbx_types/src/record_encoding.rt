ghost use Rattle.std.specs.Prelude.{◌≡◌, ◌≤◌, IfOk};
ghost use Rattle.pbx_content.specs.Encoding.{encoded};
ghost use Rattle.pbx_content.specs.Same.{Decodes, DecodesParts};
ghost use Rattle.pbx_content.specs.Sound.{IsSound, PartsFit, depth};
ghost use Rattle.pbx_content_codec.specs.View.{content_of};
ghost use Rattle.pbx_desc_shapes.specs.TypesShape.{types_shape as types_shape_of};

use crate::contents::HasContents;
use pbx_content::encoding_decodes;
use pbx_content_codec::{Contents, encode};
use pbx_desc_shapes::types_shape;
use pbx_wire::{Blob, NoMemory};
use std::alloc::Global;

/// The canonical encoding of a record.
pub(crate) fn record_bytes<R: HasContents>(alloc: Global, record: &R) -> Result<Vec<u8>, NoMemory>
    ensures bytes { IfOk result (λ v. v.items ≡ encoded types_shape_of R.TYPE_AT (R.content «record».now)) }
    ensures decodes { IfOk result (λ v. depth (R.content «record».now) ≤ 100
        → Decodes types_shape_of R.TYPE_AT v.items (R.content «record».now)) }
    ensures parts { IfOk result (λ v. PartsFit (R.content «record».now)
        → DecodesParts types_shape_of R.TYPE_AT v.items (R.content «record».now)) }
{
    let contents = record.to_contents(alloc)?;
    to_bytes(alloc, R::TYPE_AT, &contents)
}

/// The canonical encoding of a content of a well-known type.
fn to_bytes(alloc: Global, type_at: usize, contents: &Contents) -> Result<Vec<u8>, NoMemory>
    ensures bytes { IfOk result (λ v. v.items ≡ encoded types_shape_of type_at (content_of contents.now)) }
    ensures decodes { IfOk result (λ v. IsSound types_shape_of type_at (content_of contents.now) → depth (content_of contents.now) ≤ 100
        → Decodes types_shape_of type_at v.items (content_of contents.now)) }
    ensures parts { IfOk result (λ v. IsSound types_shape_of type_at (content_of contents.now) → PartsFit (content_of contents.now)
        → DecodesParts types_shape_of type_at v.items (content_of contents.now)) }
{
    encoding_decodes();
    let blob = content_bytes(alloc, type_at, contents)?;
    Ok(Vec::from_slice(alloc, blob.as_slice())?)
}

/// The same, as `encode` gives it.
fn content_bytes(alloc: Global, type_at: usize, contents: &Contents) -> Result<Blob, NoMemory>
    ensures { IfOk result (λ b. b ≡ encoded types_shape_of type_at (content_of contents.now)) }
{
    let schema = types_shape(alloc)?;
    encode(alloc, &schema, type_at, contents)
}
