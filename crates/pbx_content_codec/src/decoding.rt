ghost use Rattle.std.specs.Prelude.{◌≡◌, ◌⊎◌, ◌↔◌, Some, IfOk, IfErr};
ghost use Rattle.pbx_wire.specs.declared.error.DecodeError.TheVariants.{NoMemory as OutOfMemory};
ghost use Rattle.pbx_content.specs.Shape.{fields_of};
ghost use Rattle.pbx_content.specs.Meaning.{meaning_of, meaning_within, parts_meaning_of};
ghost use Rattle.pbx_content.specs.Onto.{merged_of};
ghost use Rattle.pbx_content.specs.Sound.{IsProper};
ghost use Rattle.pbx_content.specs.Faults.{IsFaultOf, IsFaultOfParts, MessageFaults, IsToldFault};
ghost use Rattle.pbx_content.specs.Laws.{meaning_with, IsFirstWith};
ghost use Rattle.pbx_content_codec.specs.View.{content_of};
ghost use Rattle.pbx_content_codec.specs.Stability.{IsStabilizedUnless};

use crate::contents::Contents;
use crate::fields::Owner;
use crate::levels::DEEPEST;
use crate::merging::merge_bytes;
use crate::stabilizing::{is_stable, stabilize_unless};
use pbx_content::Schema;
use pbx_wire::{DecodeError, NoMemory};
use std::alloc::Global;

/// The content of the bytes with so many levels of groups, and so many of messages.
fn decode_with(
    alloc: Global,
    schema: &Schema,
    groups: usize,
    messages: usize,
    type_at: usize,
    bytes: &[u8],
) -> Result<Contents, DecodeError>
    requires { (groups ≡ 0) ↔ (messages ≡ 0) }
    ensures found { IfOk result (λ contents. meaning_with schema.now groups messages (fields_of schema.now type_at) bytes.now ≡ Some (content_of contents)) }
    ensures fault { IfErr result (λ e. (e ≡ OutOfMemory) ⊎ IsFirstWith schema.now groups messages (fields_of schema.now type_at) bytes.now e) }
{
    let _proper = schema.shape();
    let mut contents = Contents::new(alloc);
    match merge_bytes(
        alloc,
        schema,
        true,
        groups,
        messages,
        DEEPEST,
        Owner::Type(type_at),
        bytes.len(),
        &mut contents,
        bytes,
    ) {
        Ok(()) => Ok(contents),
        Err(fault) => {
            drop(contents);
            Err(fault)
        }
    }
}

/// The content that the bytes mean as a message of the type at `type_at`, with at most 100 levels below the top.
pub fn decode(
    alloc: Global,
    schema: &Schema,
    type_at: usize,
    bytes: &[u8],
) -> Result<Contents, DecodeError>
    ensures found { IfOk result (λ contents. meaning_of schema.now type_at bytes.now ≡ Some (content_of contents)) }
    ensures fault { IfErr result (IsToldFault (meaning_of schema.now type_at bytes.now) (IsFaultOf schema.now type_at bytes.now)) }
{
    decode_within(alloc, schema, 100, type_at, bytes)
}

/// The same with at most so many levels.
///
/// The stack is memory too: messages that nest deeper than 1,024, where `levels` lets them, are
/// `DecodeError::NoMemory`, and so are groups.
pub fn decode_within(
    alloc: Global,
    schema: &Schema,
    levels: usize,
    type_at: usize,
    bytes: &[u8],
) -> Result<Contents, DecodeError>
    ensures found { IfOk result (λ contents. meaning_within schema.now levels (fields_of schema.now type_at) bytes.now ≡ Some (content_of contents)) }
    ensures fault { IfErr result (IsToldFault (meaning_within schema.now levels (fields_of schema.now type_at) bytes.now)
        (MessageFaults schema.now levels (fields_of schema.now type_at) bytes.now)) }
{
    decode_with(alloc, schema, levels, levels, type_at, bytes)
}

/// The same part by part, each message in a field of the top with 100 levels of its own.
pub fn decode_parts(
    alloc: Global,
    schema: &Schema,
    type_at: usize,
    bytes: &[u8],
) -> Result<Contents, DecodeError>
    ensures found { IfOk result (λ contents. parts_meaning_of schema.now type_at bytes.now ≡ Some (content_of contents)) }
    ensures fault { IfErr result (IsToldFault (parts_meaning_of schema.now type_at bytes.now) (IsFaultOfParts schema.now type_at bytes.now)) }
{
    decode_with(alloc, schema, 100, 101, type_at, bytes)
}

/// A copy of the content, stable where it is not.
fn stable_copy(
    alloc: Global,
    schema: &Schema,
    stable: bool,
    type_at: usize,
    old: &Contents,
) -> Result<Contents, NoMemory>
    requires { IsProper schema.now }
    ensures { IfOk result (λ copy. IsStabilizedUnless stable schema.now (fields_of schema.now type_at) (content_of old.now) (content_of copy)) }
{
    let mut copy = old.copy(alloc)?;
    stabilize_unless(alloc, schema, stable, type_at, &mut copy)?;
    Ok(copy)
}

/// The content that the bytes mean behind an old one, as if their records followed records that mean it. The levels
/// of the bytes are counted by themselves.
///
/// Any content may be the old one. One that was decoded is copied; of another, where numbers do not ascend or values
/// are not of their fields' kinds, each message is stable where records come to it. As in `Contents::copy`, messages
/// that nest deeper than 1,024 are `DecodeError::NoMemory`.
pub fn merge(
    alloc: Global,
    schema: &Schema,
    type_at: usize,
    old: &Contents,
    bytes: &[u8],
) -> Result<Contents, DecodeError>
    ensures merged { IfOk result (λ contents. merged_of schema.now type_at (content_of old.now) bytes.now ≡ Some (content_of contents)) }
    ensures fault { IfErr result (IsToldFault (merged_of schema.now type_at (content_of old.now) bytes.now) (IsFaultOf schema.now type_at bytes.now)) }
{
    let _proper = schema.shape();
    let stable = is_stable(schema, type_at, old, 100);
    let Ok(mut contents) = stable_copy(alloc, schema, stable, type_at, old) else {
        return Err(DecodeError::NoMemory);
    };
    match merge_bytes(
        alloc,
        schema,
        stable,
        100,
        100,
        DEEPEST,
        Owner::Type(type_at),
        bytes.len(),
        &mut contents,
        bytes,
    ) {
        Ok(()) => Ok(contents),
        Err(fault) => {
            drop(contents);
            Err(fault)
        }
    }
}
