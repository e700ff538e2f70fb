ghost use Rattle.std.specs.Prelude.{◌≡◌, IfOk};

use bytes::Bytes;
use pbx_wire::{NoMemory, Text, Texts};
use std::alloc::Global;

/// An equal text, if there is one. The only error is want of memory.
pub(crate) fn copied_text(text: &Option<Text>, alloc: Global) -> Result<Option<Text>, NoMemory>
    ensures { IfOk result (λ copy. copy ≡ text.now) }
{
    match text {
        Some(text) => Ok(Some(text.copy(alloc)?)),
        None => Ok(None),
    }
}

/// The same bytes, if there are any. The only error is want of memory.
pub(crate) fn copied_octets(octets: &Option<Bytes>) -> Result<Option<Bytes>, NoMemory>
    ensures { IfOk result (λ copy. copy ≡ octets.now) }
{
    match octets {
        Some(octets) => Ok(Some(octets.clone()?)),
        None => Ok(None),
    }
}

/// Equal texts. The only error is want of memory.
pub(crate) fn copied_texts(texts: &Texts, alloc: Global) -> Result<Texts, NoMemory>
    ensures { IfOk result (λ copies. copies ≡ texts.now) }
{
    let mut copies = Texts::with_capacity(alloc, texts.len())?;
    for text in texts.as_slice() {
        copies.add(text.copy(alloc)?)?;
    }
    Ok(copies)
}
