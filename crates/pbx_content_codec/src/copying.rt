ghost use Rattle.std.specs.Prelude.{◌≡◌, IfOk};
ghost use Rattle.pbx_content_codec.specs.declared.contents.Held as held;

use crate::contents::{Contents, Held, Pair};
use crate::key::MapKey;
use bytes::Bytes;
use pbx_content_map::NumberMap;
use pbx_wire::{List, NoMemory, Recs, Text, copy_recs};
use std::alloc::Global;

/// The fields with copies of the kept records.
fn contents_with(alloc: Global, fields: NumberMap<Held>, kept: &Recs) -> Result<Contents, NoMemory>
    ensures fields { IfOk result (λ made. made.fields ≡ fields) }
    ensures kept { IfOk result (λ made. made.kept ≡ kept.now) }
{
    match copy_recs(kept, alloc) {
        Ok(kept) => Ok(Contents { fields, kept }),
        Err(error) => {
            drop(fields);
            Err(error)
        }
    }
}

/// A pair with a copy of the key.
fn pair_with(alloc: Global, key: &MapKey, held: Held) -> Result<Pair, NoMemory>
    ensures key { IfOk result (λ made. made.key ≡ key.now) }
    ensures held { IfOk result (λ made. made.held ≡ held) }
{
    match key.copy(alloc) {
        Ok(key) => Ok(Pair { key, held }),
        Err(error) => {
            drop(held);
            Err(error)
        }
    }
}

/// A value of a text.
fn text_held(alloc: Global, text: &Text) -> Result<Held, NoMemory>
    ensures { IfOk result (λ copy. copy ≡ held.Text text.now) }
{
    Ok(Held::Text(text.copy(alloc)?))
}

/// A value of bytes, which are shared.
fn bytes_held(bytes: &Bytes) -> Result<Held, NoMemory>
    ensures { IfOk result (λ copy. copy ≡ held.Bytes bytes.now) }
{
    Ok(Held::Bytes(bytes.clone()?))
}

/// An equal tree, where the stack holds `room` levels.
#[cycle(copy)]
pub(crate) fn copy_contents(
    contents: &Contents,
    alloc: Global,
    room: u32,
) -> Result<Contents, NoMemory>
    ensures { IfOk result (λ copy. copy ≡ contents.now) }
{
    if room == 0 {
        return Err(NoMemory);
    }
    let fields = copy_fields(&contents.fields, alloc, room - 1)?;
    contents_with(alloc, fields, &contents.kept)
}

#[cycle(copy)]
fn copy_fields(
    fields: &NumberMap<Held>,
    alloc: Global,
    room: u32,
) -> Result<NumberMap<Held>, NoMemory>
    ensures { IfOk result (λ copy. copy ≡ fields.now) }
{
    let mut copies = List::with_capacity(alloc, fields.len())?;
    for field in fields.as_slice() {
        let held = copy_held(&field.1, alloc, room)?;
        copies.add((field.0, held))?;
    }
    NumberMap::from_entries(alloc, copies.into_vec())
}

/// An equal value.
#[cycle(copy)]
fn copy_held(held: &Held, alloc: Global, room: u32) -> Result<Held, NoMemory>
    ensures { IfOk result (λ copy. copy ≡ held.now) }
{
    match held {
        Held::I32(value) => Ok(Held::I32(*value)),
        Held::I64(value) => Ok(Held::I64(*value)),
        Held::U32(value) => Ok(Held::U32(*value)),
        Held::U64(value) => Ok(Held::U64(*value)),
        Held::Bool(value) => Ok(Held::Bool(*value)),
        Held::Text(text) => text_held(alloc, text),
        Held::Bytes(bytes) => bytes_held(bytes),
        Held::Message(contents) => Ok(Held::Message(copy_contents(contents, alloc, room)?)),
        Held::Many(many) => Ok(Held::Many(copy_many(many, alloc, room)?)),
        Held::Pairs(pairs) => Ok(Held::Pairs(copy_pairs(pairs, alloc, room)?)),
    }
}

#[cycle(copy)]
fn copy_many(many: &List<Held>, alloc: Global, room: u32) -> Result<List<Held>, NoMemory>
    ensures { IfOk result (λ copy. copy ≡ many.now) }
{
    let mut copies = List::with_capacity(alloc, many.len())?;
    for held in many.as_slice() {
        copies.add(copy_held(held, alloc, room)?)?;
    }
    Ok(copies)
}

#[cycle(copy)]
fn copy_pair(pair: &Pair, alloc: Global, room: u32) -> Result<Pair, NoMemory>
    ensures { IfOk result (λ copy. copy ≡ pair.now) }
{
    match copy_held(&pair.held, alloc, room) {
        Ok(held) => pair_with(alloc, &pair.key, held),
        Err(error) => Err(error),
    }
}

#[cycle(copy)]
fn copy_pairs(pairs: &List<Pair>, alloc: Global, room: u32) -> Result<List<Pair>, NoMemory>
    ensures { IfOk result (λ copy. copy ≡ pairs.now) }
{
    let mut copies = List::with_capacity(alloc, pairs.len())?;
    for pair in pairs.as_slice() {
        copies.add(copy_pair(pair, alloc, room)?)?;
    }
    Ok(copies)
}
