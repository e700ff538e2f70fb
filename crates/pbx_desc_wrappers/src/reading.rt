ghost use Rattle.std.specs.Prelude.{◌≡◌, Some, option_map, IfOk, IfErr};
ghost use Rattle.pbx_content.specs.declared.shape.Kind.{Kind};
ghost use Rattle.pbx_content.specs.Content.{without_kept};
ghost use Rattle.pbx_content.specs.Meaning.{meaning_of};
ghost use Rattle.pbx_content.specs.Faults.{IsFaultOf, IsToldFault};
ghost use Rattle.pbx_content.specs.Sound.{IsSound};
ghost use Rattle.pbx_content_codec.specs.View.{content_of, val_of};
ghost use Rattle.pbx_desc_shapes.specs.TypesShape.{types_shape as types_shape_of};
ghost use Rattle.pbx_desc_wrappers.specs.Wrapped.{IsRead, IsWrapper};

use pbx_content::meaning_is_sound;
use pbx_content_codec::{Contents, Held, decode};
use pbx_desc_shapes::types_shape;
use pbx_wire::DecodeError;
use std::alloc::Global;

/// The value of the field of a wrapper; None where it is absent.
pub fn wrapped_value(
    alloc: Global,
    type_at: usize,
    bytes: &[u8],
) -> Result<Option<Held>, DecodeError>
    ensures found { IfOk result (λ held. (k : Kind) → IsWrapper type_at k
        → IsRead k (option_map val_of held) (option_map without_kept (meaning_of types_shape_of type_at bytes.now))) }
    ensures fault { IfErr result
        (IsToldFault (option_map without_kept (meaning_of types_shape_of type_at bytes.now)) (IsFaultOf types_shape_of type_at bytes.now)) }
{
    let mut contents = type_contents(alloc, type_at, bytes)?;
    Ok(contents.take(1))
}

/// The content of the bytes, the kept records with it.
pub fn type_contents(alloc: Global, type_at: usize, bytes: &[u8]) -> Result<Contents, DecodeError>
    ensures found { IfOk result (λ contents. meaning_of types_shape_of type_at bytes.now ≡ Some (content_of contents)) }
    ensures sound { IfOk result (λ contents. IsSound types_shape_of type_at (content_of contents)) }
    ensures fault { IfErr result
        (IsToldFault (option_map without_kept (meaning_of types_shape_of type_at bytes.now)) (IsFaultOf types_shape_of type_at bytes.now)) }
{
    meaning_is_sound();
    let schema = types_shape(alloc)?;
    match decode(alloc, &schema, type_at, bytes) {
        Ok(contents) => Ok(contents),
        Err(fault) => Err(fault),
    }
}
