ghost use Rattle.std.specs.Prelude.{◌≡◌, ◌≤◌, IfOk};
ghost use Rattle.pbx_content.specs.Encoding.{encoded};
ghost use Rattle.pbx_content.specs.Same.{Decodes, DecodesParts};
ghost use Rattle.pbx_content.specs.Sound.{IsSound, PartsFit, depth};
ghost use Rattle.pbx_content_codec.specs.View.{content_of, val_of};
ghost use Rattle.pbx_desc_shapes.specs.TypesShape.{types_shape as types_shape_of};
ghost use Rattle.pbx_desc_wrappers.specs.Scalars.{is_zero as is_zero_of, wrapper_content};
ghost use Rattle.pbx_desc_wrappers.specs.Wrapped.{MayHold};

use pbx_content::{Schema, encoding_decodes};
use pbx_content_codec::{Contents, Held, encode};
use pbx_desc_shapes::types_shape;
use pbx_wire::NoMemory;
use std::alloc::Global;

/// The canonical encoding of a content of a type of the schema. The only error is want of memory.
pub fn contents_bytes(
    alloc: Global,
    schema: &Schema,
    type_at: usize,
    contents: &Contents,
) -> Result<Vec<u8>, NoMemory>
    ensures bytes { IfOk result (λ v. v.items ≡ encoded schema.now type_at (content_of contents.now)) }

    // It decodes to the content, where a message of the type may have it and it nests no deeper than is read,
    ensures decodes { IfOk result (λ v. IsSound schema.now type_at (content_of contents.now) → depth (content_of contents.now) ≤ 100
        → Decodes schema.now type_at v.items (content_of contents.now)) }

    // or, read part by part, where no part does.
    ensures parts { IfOk result (λ v. IsSound schema.now type_at (content_of contents.now) → PartsFit (content_of contents.now)
        → DecodesParts schema.now type_at v.items (content_of contents.now)) }
{
    encoding_decodes();
    let _proper = schema.shape();
    let blob = encode(alloc, schema, type_at, contents)?;
    Ok(Vec::from_slice(alloc, blob.as_slice())?)
}

/// The canonical encoding of the wrapper of a value.
pub fn wrapper_bytes(alloc: Global, type_at: usize, held: Held) -> Result<Vec<u8>, NoMemory>
    requires { MayHold type_at (val_of held) }
    ensures bytes { IfOk result (λ v. v.items ≡ encoded types_shape_of type_at (wrapper_content (val_of held))) }
    ensures decodes { IfOk result (λ v. depth (wrapper_content (val_of held)) ≤ 100
        → Decodes types_shape_of type_at v.items (wrapper_content (val_of held))) }
    ensures parts { IfOk result (λ v. PartsFit (wrapper_content (val_of held))
        → DecodesParts types_shape_of type_at v.items (wrapper_content (val_of held))) }
{
    let schema = types_shape(alloc)?;
    let contents = wrapper_contents(alloc, held)?;
    contents_bytes(alloc, &schema, type_at, &contents)
}

/// The content of the wrapper of a value.
fn wrapper_contents(alloc: Global, held: Held) -> Result<Contents, NoMemory>
    ensures { IfOk result (λ contents. content_of contents ≡ wrapper_content (val_of held)) }
{
    let mut contents = Contents::new(alloc);
    if !is_zero(&held) {
        contents.put(1, held)?;
    }
    Ok(contents)
}

/// Whether the value is the default of its kind.
fn is_zero(held: &Held) -> bool
    ensures { result ≡ is_zero_of (val_of held.now) }
{
    match held {
        Held::I32(value) => *value == 0,
        Held::I64(value) => *value == 0,
        Held::U32(value) => *value == 0,
        Held::U64(value) => *value == 0,
        Held::Bool(value) => !*value,
        Held::Text(text) => text.as_str().is_empty(),
        Held::Bytes(bytes) => bytes.is_empty(),
        Held::Message(_) | Held::Many(_) | Held::Pairs(_) => false,
    }
}
