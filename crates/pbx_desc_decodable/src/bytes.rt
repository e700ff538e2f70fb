// Bytes, read record by record.
ghost use Rattle.std.specs.Prelude.{◌≡◌, ◌≢◌, ◌↔◌, ◌∷◌, [], option_map, IfOk};
ghost use Rattle.std.specs.Option.{is_some};
ghost use Rattle.pbx_wire.specs.View.{rec_of};
ghost use Rattle.pbx_content.specs.Meaning.{meaning, meaning_of, parts_meaning_of};
ghost use Rattle.pbx_content.specs.Sound.{IsProper};
ghost use Rattle.pbx_content.specs.Laws.{meaning_with};
ghost use Rattle.pbx_content.proofs.OntoSplits.{inner_at};
ghost use Rattle.pbx_content.proofs.FaultyRecords.{RecFails};
ghost use Rattle.pbx_desc_decodable.specs.Fields.{fields_at};
ghost use Rattle.pbx_desc_decodable.specs.Reading.{RulesOut, GoesOn};

use crate::fields::{FieldView, Owner, is_float, payload, reads, view_in};
use crate::numbers::{are_numbers, is_text};
use pbx_content::{Cardinality, Kind, Schema};
use pbx_wire::{DecodeError, NoMemory, RecRef, read_rec_ref};
use std::alloc::Global;

/// Whether a payload means something as a message or map entry, with a level less.
#[cycle(means)]
fn payload_means(
    alloc: Global,
    schema: &Schema,
    messages: usize,
    owner: Owner,
    bytes: &[u8],
) -> Result<bool, NoMemory>
    requires proper { IsProper schema.now }
    ensures { IfOk result (λ means. means ≡ is_some (inner_at schema.now messages (fields_at schema.now owner) (bytes.now ∷ []))) }
{
    if messages == 0 {
        return Ok(false);
    }
    bytes_mean(alloc, schema, messages - 1, messages - 1, owner, bytes)
}

/// Whether a record of a field means something alone.
#[cycle(means)]
fn field_means(
    alloc: Global,
    schema: &Schema,
    messages: usize,
    view: FieldView,
    rec: &RecRef<'_>,
) -> Result<bool, NoMemory>
    requires proper { IsProper schema.now }
    ensures { IfOk result (λ means. RulesOut means (RecFails schema.now (inner_at schema.now messages) view.cardinality view.kind (rec_of rec.now))) }
{
    if !reads(view, rec) {
        return Ok(false);
    }
    let Some(bytes) = payload(rec) else {
        return Ok(true);
    };
    match view.cardinality {
        Cardinality::Map(key) => {
            payload_means(alloc, schema, messages, Owner::Entry(key, view.kind), bytes)
        }
        _ => match view.kind {
            Kind::String => Ok(is_text(bytes)),
            Kind::Bytes => Ok(true),
            Kind::Message(type_at) => {
                payload_means(alloc, schema, messages, Owner::Type(type_at), bytes)
            }
            _ => Ok(are_numbers(view.kind, bytes)),
        },
    }
}

/// Whether a record means something alone. One that no field reads is kept.
#[cycle(means)]
fn rec_means(
    alloc: Global,
    schema: &Schema,
    messages: usize,
    owner: Owner,
    rec: &RecRef<'_>,
) -> Result<bool, NoMemory>
    requires proper { IsProper schema.now }
    ensures { IfOk result (λ means. means ≡ is_some (meaning schema.now messages (fields_at schema.now owner) (rec_of rec.now ∷ []))) }
{
    let Some(view) = view_in(schema, owner, rec.number()) else {
        return Ok(true);
    };
    if is_float(view.kind) {
        return Ok(true);
    }
    field_means(alloc, schema, messages, view, rec)
}

/// What stands behind the record at the front, unless that means nothing.
#[cycle(means)]
fn front_means<'a>(
    alloc: Global,
    schema: &Schema,
    groups: usize,
    messages: usize,
    owner: Owner,
    bytes: &'a [u8],
) -> Result<Option<&'a [u8]>, NoMemory>
    requires proper { IsProper schema.now }
    requires left { (groups ≡ 0) ↔ (messages ≡ 0) }
    requires some { bytes.now ≢ [] }
    ensures { IfOk result (λ rest. GoesOn schema.now groups messages (fields_at schema.now owner) bytes.now (option_map (λ b. b.now) rest)) }
{
    match read_rec_ref(alloc, 0, bytes, groups) {
        Ok(Some((rec, rest))) => {
            if rec_means(alloc, schema, messages, owner, &rec)? {
                Ok(Some(rest))
            } else {
                Ok(None)
            }
        }
        Ok(None) => Ok(None),
        Err(fault) => match fault {
            DecodeError::NoMemory => Err(NoMemory),
            _ => Ok(None),
        },
    }
}

/// Whether the bytes mean something, with so many levels of groups, and so many of messages.
#[cycle(means)]
fn bytes_mean(
    alloc: Global,
    schema: &Schema,
    groups: usize,
    messages: usize,
    owner: Owner,
    bytes: &[u8],
) -> Result<bool, NoMemory>
    requires proper { IsProper schema.now }
    requires left { (groups ≡ 0) ↔ (messages ≡ 0) }
    ensures { IfOk result (λ means. means ≡ is_some (meaning_with schema.now groups messages (fields_at schema.now owner) bytes.now)) }
{
    let mut rest = bytes;
    while rest.len() > 0 {
        match front_means(alloc, schema, groups, messages, owner, rest)? {
            Some(after) => rest = after,
            None => return Ok(false),
        }
    }
    Ok(true)
}

/// Whether the bytes mean something as a message of the type at `type_at`, with at most 100 levels below the top: whether
/// decoding gives a content. Nothing is kept of what is read, so the only error, want of memory, comes from groups.
pub fn is_decodable(
    alloc: Global,
    schema: &Schema,
    type_at: usize,
    bytes: &[u8],
) -> Result<bool, NoMemory>
    ensures { IfOk result (λ yes. yes ≡ is_some (meaning_of schema.now type_at bytes.now)) }
{
    let _proper = schema.shape();
    bytes_mean(alloc, schema, 100, 100, Owner::Type(type_at), bytes)
}

/// The same part by part, each message in a field of the top with 100 levels of its own.
pub fn is_decodable_by_parts(
    alloc: Global,
    schema: &Schema,
    type_at: usize,
    bytes: &[u8],
) -> Result<bool, NoMemory>
    ensures { IfOk result (λ yes. yes ≡ is_some (parts_meaning_of schema.now type_at bytes.now)) }
{
    let _proper = schema.shape();
    bytes_mean(alloc, schema, 100, 101, Owner::Type(type_at), bytes)
}
