ghost use Rattle.std.specs.Prelude.{◌≡◌, true, Some, IfOk, IfErr};
ghost use Rattle.pbx_content.specs.Meaning.{meaning_of};
ghost use Rattle.pbx_content.specs.Faults.{IsFaultOf, IsToldFault};
ghost use Rattle.pbx_desc_shapes.specs.TypesShape.{types_shape as types_shape_of};

use crate::taking::FromContents;
use pbx_content::meaning_is_sound;
use pbx_content_codec::decode;
use pbx_desc_shapes::types_shape;
use pbx_wire::DecodeError;
use std::alloc::Global;

/// The record of the bytes of a message of its type.
pub(crate) fn record_from_bytes<R: FromContents>(
    alloc: Global,
    bytes: &[u8],
) -> Result<R, DecodeError>
    ensures found { IfOk result (λ value. meaning_of types_shape_of R.TYPE_AT bytes.now ≡ Some (R.content value)) }
    ensures exact { IfOk result (λ value. R.is_exact value ≡ true) }
    ensures fault { IfErr result (IsToldFault (meaning_of types_shape_of R.TYPE_AT bytes.now) (IsFaultOf types_shape_of R.TYPE_AT bytes.now)) }
{
    meaning_is_sound();
    let schema = types_shape(alloc)?;
    let contents = decode(alloc, &schema, R::TYPE_AT, bytes)?;
    Ok(R::from_contents(contents, alloc)?)
}
