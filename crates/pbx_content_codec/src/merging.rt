ghost use Rattle.std.specs.Prelude.{◌≡◌, ◌≢◌, ◌⊎◌, ◌↔◌, ◌<◌, ◌≤◌, ◌-◌, ◌++◌, ◌∷◌, [], List, ℕ, suc, length};
ghost use Rattle.std.specs.Prelude.{remove, map, true, false, Some, IfOk, IfErr, OnOk, option_map};
ghost use Rattle.pbx_wire.specs.declared.error.DecodeError.TheVariants.{NoMemory as OutOfMemory};
ghost use Rattle.pbx_wire.specs.declared.rec.Rec.{Rec};
ghost use Rattle.pbx_wire.specs.View.{rec_of};
ghost use Rattle.pbx_wire.specs.Faults.{SpellsOne};
ghost use Rattle.pbx_content.specs.declared.shape.Kind.TheVariants.{Message as MessageKind};
ghost use Rattle.pbx_content.specs.declared.shape.Cardinality.TheVariants.{Singular, Repeated, Map};
ghost use Rattle.pbx_content.specs.Content.{Content, message, many as many_of, keyed, vals_of, by_key, get, fields as fields_of_content, without, with_fields};
ghost use Rattle.pbx_content.specs.Shape.{fields_of, field_of, is_float as is_float_of, is_other as is_other_of};
ghost use Rattle.pbx_content.specs.Sound.{IsProper};
ghost use Rattle.pbx_content.specs.Onto.{elements as elements_of, pairs_held as pairs_held_of, value_onto, meaning_onto, message_held as message_held_of};
ghost use Rattle.pbx_content.specs.Laws.{IsFirstWith};
ghost use Rattle.pbx_content.proofs.OntoLaw.{onto_at};
ghost use Rattle.pbx_content.specs.Meaning.{pair_in};
ghost use Rattle.pbx_content_codec.specs.Keyed.{AreInOrder};
ghost use Rattle.pbx_content_codec.specs.View.{content_of, val_of, fields_in, entry_of};
ghost use Rattle.pbx_content_codec.specs.Fields.{fields_at, field_like};
ghost use Rattle.pbx_content_codec.specs.Stability.{HasStable, IsReady, IsStabilizedUnless};
ghost use Rattle.pbx_content_codec.specs.Merging.{put_option, is_rival_to, without_rivals, kept_more, onto_with, GoesOn, HasOrdered};
ghost use Rattle.pbx_content_codec.specs.Merging.{IsToldAt, PayloadFits, PayloadMeans, PayloadFails, ValueFails, RecFails};

use crate::contents::{Contents, Held};
use crate::fields::{FieldView, Owner, is_float, takes_key, view_in};
use crate::pairs::{pairs_held, with_entry};
use crate::scalars::list_held;
use crate::stabilizing::stabilize_unless;
use crate::values::{add_values, payload, set_value};
use pbx_content::{Cardinality, Kind, Schema};
use pbx_content_map::NumberMap;
use pbx_wire::{DecodeError, NoMemory, RecRef, front_key, read_rec_ref};
use std::alloc::Global;

/// Adds a record that no field reads.
#[tactic(auto, using(crate::proofs::Tree::kept_is))]
fn keep(alloc: Global, into: &mut Contents, rec: RecRef<'_>) -> Result<(), DecodeError>
    ensures kept { OnOk result (content_of into.new ≡ kept_more (content_of into.old) (rec_of rec.entry)) }
    ensures fault { IfErr result (λ e. e ≡ OutOfMemory) }
{
    into.kept.add(rec.into_rec(alloc)?)?;
    Ok(())
}

/// Whether both are members of one oneof, and not the same.
fn is_other(other: FieldView, view: FieldView) -> bool
    ensures { result ≡ is_other_of (field_like other) (field_like view) }
{
    match (other.oneof, view.oneof) {
        (Some(its), Some(own)) => its == own && other.number != view.number,
        _ => false,
    }
}

/// Whether the field of the number is another member of the field's oneof.
#[tactic(auto, using(crate::proofs::Likeness::no_rival, crate::proofs::Likeness::rival_found))]
fn is_rival(schema: &Schema, owner: Owner, view: FieldView, number: u32) -> bool
    ensures { result ≡ is_rival_to (field_like view) (field_of number (fields_at schema.now owner)) }
{
    match view_in(schema, owner, number) {
        Some(other) => is_other(other, view),
        None => false,
    }
}

/// Drops the field at the place.
fn drop_field(fields: &mut NumberMap<Held>, place: usize)
    requires { place < length fields.old }
    ensures { fields.new ≡ remove fields.old place }
{
    let number = fields.as_slice()[place].0;
    fields.take(number);
}

/// Drops the values of the other members of the field's oneof, sought among the fields that have a value.
fn clear_rivals(schema: &Schema, owner: Owner, view: FieldView, fields: &mut NumberMap<Held>)
    ensures { fields_in (map entry_of fields.new) ≡ without_rivals (fields_at schema.now owner) (field_like view) (fields_in (map entry_of fields.old)) }
{
    if view.oneof.is_none() {
        return;
    }
    let mut place = fields.len();
    while place > 0 {
        place -= 1;
        let number = fields.as_slice()[place].0;
        if is_rival(schema, owner, view, number) {
            drop_field(fields, place);
        }
    }
}

/// Takes the field's value out, and drops those of the other members of its oneof.
fn take_value(schema: &Schema, owner: Owner, view: FieldView, into: &mut Contents) -> Option<Held>
    ensures value { option_map val_of result ≡ get view.number (fields_of_content (content_of into.old)) }
    ensures rest { content_of into.new ≡ with_fields (content_of into.old)
        (without_rivals (fields_at schema.now owner) (field_like view) (without view.number (fields_of_content (content_of into.old)))) }
{
    let old = into.take(view.number);
    clear_rivals(schema, owner, view, &mut into.fields);
    old
}

/// Puts the value at the number, if there is one.
#[tactic(auto, using(crate::proofs::Rivals::unchanged))]
fn put_value(into: &mut Contents, number: u32, held: Option<Held>) -> Result<(), DecodeError>
    ensures put { OnOk result (content_of into.new
        ≡ with_fields (content_of into.old) (put_option number (option_map val_of held) (fields_of_content (content_of into.old)))) }
    ensures fault { IfErr result (λ e. e ≡ OutOfMemory) }
{
    match held {
        Some(held) => Ok(into.put(number, held)?),
        None => Ok(()),
    }
}

/// Takes the message that a field has out; where it has none, one that holds nothing.
#[tactic(auto, using(crate::proofs::Tree::val_of_message))]
fn take_message(alloc: Global, held: &mut Option<Held>) -> Contents
    ensures { content_of result ≡ message_held_of (option_map val_of held.old) }
{
    match held.take() {
        Some(Held::Message(contents)) => contents,
        other => {
            drop(other);
            Contents::new(alloc)
        }
    }
}

/// Takes the message that a field has out, stable where the tree is not.
fn take_stable(
    alloc: Global,
    schema: &Schema,
    stable: bool,
    type_at: usize,
    held: &mut Option<Held>,
) -> Result<Contents, NoMemory>
    requires { IsProper schema.now }
    ensures { IfOk result (λ contents.
        IsStabilizedUnless stable schema.now (fields_of schema.now type_at) (message_held_of (option_map val_of held.old)) (content_of contents)) }
{
    let mut contents = take_message(alloc, held);
    stabilize_unless(alloc, schema, stable, type_at, &mut contents)?;
    Ok(contents)
}

/// Gives a field the message.
#[tactic(auto, using(crate::proofs::Tree::val_of_message))]
fn set_message(held: &mut Option<Held>, contents: Contents)
    ensures { option_map val_of held.new ≡ Some (message (content_of contents)) }
{
    *held = Some(Held::Message(contents));
}

/// Adds the message to those that a field has.
fn add_message(
    alloc: Global,
    held: &mut Option<Held>,
    contents: Contents,
) -> Result<(), DecodeError>
    ensures added { OnOk result (option_map val_of held.new
        ≡ Some (many_of (vals_of (elements_of (option_map val_of held.old) ++ message (content_of contents) ∷ [])))) }
    ensures fault { IfErr result (λ e. e ≡ OutOfMemory) }
{
    let mut many = list_held(alloc, held.take());
    many.add(Held::Message(contents))?;
    *held = Some(Held::Many(many));
    Ok(())
}

/// Adds the pair of an entry to those that a field has.
fn add_pair(
    alloc: Global,
    schema: &Schema,
    key: Kind,
    kind: Kind,
    held: &mut Option<Held>,
    entry: Contents,
) -> Result<(), DecodeError>
    requires { AreInOrder (pairs_held_of (option_map val_of held.old)) }
    ensures added { OnOk result (option_map val_of held.new
        ≡ Some (keyed (by_key (pairs_held_of (option_map val_of held.old) ++ pair_in schema.now key kind (content_of entry) ∷ [])))) }
    ensures fault { IfErr result (λ e. e ≡ OutOfMemory) }
{
    let pairs = pairs_held(alloc, held.take());
    *held = Some(with_entry(alloc, schema, key, kind, pairs, entry)?);
    Ok(())
}

/// The record's payload as a message or map entry, behind a content that is ready at one level less.
#[cycle(merge)]
fn merge_payload(
    alloc: Global,
    schema: &Schema,
    stable: bool,
    messages: usize,
    room: u32,
    owner: Owner,
    at: usize,
    end: usize,
    into: &mut Contents,
    rec: &RecRef<'_>,
) -> Result<(), DecodeError>
    requires proper { IsProper schema.now }
    requires ends { PayloadFits (rec_of rec.now) end }
    requires ready { (deeper : ℕ) → messages ≡ suc deeper → IsReady stable schema.now deeper (fields_at schema.now owner) (content_of into.old) }
    ensures found { OnOk result (PayloadMeans schema.now messages (fields_at schema.now owner) (content_of into.old) (rec_of rec.now) (content_of into.new)) }
    ensures fault { IfErr result (λ e. (e ≡ OutOfMemory) ⊎ PayloadFails schema.now messages (fields_at schema.now owner) at end (rec_of rec.now) e) }
{
    let Some(bytes) = payload(rec) else {
        return Err(DecodeError::WireType(at));
    };
    if messages == 0 {
        return Err(DecodeError::TooDeep(at));
    }
    if room == 0 {
        return Err(DecodeError::NoMemory);
    }
    merge_bytes(
        alloc,
        schema,
        stable,
        messages - 1,
        messages - 1,
        room - 1,
        owner,
        end,
        into,
        bytes,
    )
}

/// A message behind the one that the field has.
#[cycle(merge)]
fn join_message(
    alloc: Global,
    schema: &Schema,
    stable: bool,
    groups: usize,
    messages: usize,
    room: u32,
    view: FieldView,
    type_at: usize,
    at: usize,
    end: usize,
    held: &mut Option<Held>,
    rec: &RecRef<'_>,
) -> Result<(), DecodeError>
    requires proper { IsProper schema.now }
    requires left { (groups ≡ 0) ↔ (messages ≡ 0) }
    requires kind { view.kind ≡ MessageKind type_at }
    requires once { view.cardinality ≡ Singular }
    requires ends { PayloadFits (rec_of rec.now) end }
    requires stable { HasStable stable schema.now messages (field_like view) (option_map val_of held.old) }
    ensures found { OnOk result (value_onto schema.now (onto_at schema.now messages) (field_like view) (option_map val_of held.old) (rec_of rec.now ∷ [])
        ≡ Some (option_map val_of held.new)) }
    ensures fault { IfErr result (λ e. (e ≡ OutOfMemory) ⊎ ValueFails schema.now groups messages (field_like view) at end (rec_of rec.now) e) }
{
    let Ok(mut inner) = take_stable(alloc, schema, stable, type_at, held) else {
        return Err(DecodeError::NoMemory);
    };
    let owner = Owner::Type(type_at);
    match merge_payload(
        alloc, schema, stable, messages, room, owner, at, end, &mut inner, rec,
    ) {
        Ok(()) => {
            set_message(held, inner);
            Ok(())
        }
        Err(fault) => {
            drop(inner);
            Err(fault)
        }
    }
}

/// A message behind those that the field has.
#[cycle(merge)]
fn push_message(
    alloc: Global,
    schema: &Schema,
    groups: usize,
    messages: usize,
    room: u32,
    view: FieldView,
    type_at: usize,
    at: usize,
    end: usize,
    held: &mut Option<Held>,
    rec: &RecRef<'_>,
) -> Result<(), DecodeError>
    requires proper { IsProper schema.now }
    requires left { (groups ≡ 0) ↔ (messages ≡ 0) }
    requires kind { view.kind ≡ MessageKind type_at }
    requires list { view.cardinality ≡ Repeated }
    requires ends { PayloadFits (rec_of rec.now) end }
    ensures found { OnOk result (value_onto schema.now (onto_at schema.now messages) (field_like view) (option_map val_of held.old) (rec_of rec.now ∷ [])
        ≡ Some (option_map val_of held.new)) }
    ensures fault { IfErr result (λ e. (e ≡ OutOfMemory) ⊎ ValueFails schema.now groups messages (field_like view) at end (rec_of rec.now) e) }
{
    let mut inner = Contents::new(alloc);
    let owner = Owner::Type(type_at);
    match merge_payload(
        alloc, schema, true, messages, room, owner, at, end, &mut inner, rec,
    ) {
        Ok(()) => add_message(alloc, held, inner),
        Err(fault) => {
            drop(inner);
            Err(fault)
        }
    }
}

/// A pair of a map among those that the field has.
#[cycle(merge)]
fn put_entry(
    alloc: Global,
    schema: &Schema,
    groups: usize,
    messages: usize,
    room: u32,
    view: FieldView,
    key: Kind,
    at: usize,
    end: usize,
    held: &mut Option<Held>,
    rec: &RecRef<'_>,
) -> Result<(), DecodeError>
    requires proper { IsProper schema.now }
    requires left { (groups ≡ 0) ↔ (messages ≡ 0) }
    requires read { is_float_of view.kind ≡ false }
    requires map { view.cardinality ≡ Map key }
    requires ends { PayloadFits (rec_of rec.now) end }
    requires ordered { HasOrdered (field_like view) (option_map val_of held.old) }
    ensures found { OnOk result (value_onto schema.now (onto_at schema.now messages) (field_like view) (option_map val_of held.old) (rec_of rec.now ∷ [])
        ≡ Some (option_map val_of held.new)) }
    ensures fault { IfErr result (λ e. (e ≡ OutOfMemory) ⊎ ValueFails schema.now groups messages (field_like view) at end (rec_of rec.now) e) }
{
    let mut entry = Contents::new(alloc);
    let owner = Owner::Entry(key, view.kind);
    match merge_payload(
        alloc, schema, true, messages, room, owner, at, end, &mut entry, rec,
    ) {
        Ok(()) => add_pair(alloc, schema, key, view.kind, held, entry),
        Err(fault) => {
            drop(entry);
            Err(fault)
        }
    }
}

/// What a field has with a record more.
#[cycle(merge)]
fn merge_value(
    alloc: Global,
    schema: &Schema,
    stable: bool,
    groups: usize,
    messages: usize,
    room: u32,
    view: FieldView,
    at: usize,
    end: usize,
    held: &mut Option<Held>,
    rec: &RecRef<'_>,
) -> Result<(), DecodeError>
    requires proper { IsProper schema.now }
    requires left { (groups ≡ 0) ↔ (messages ≡ 0) }
    requires read { is_float_of view.kind ≡ false }
    requires ends { PayloadFits (rec_of rec.now) end }
    requires stable { HasStable stable schema.now messages (field_like view) (option_map val_of held.old) }
    requires ordered { HasOrdered (field_like view) (option_map val_of held.old) }
    ensures found { OnOk result (value_onto schema.now (onto_at schema.now messages) (field_like view) (option_map val_of held.old) (rec_of rec.now ∷ [])
        ≡ Some (option_map val_of held.new)) }
    ensures fault { IfErr result (λ e. (e ≡ OutOfMemory) ⊎ ValueFails schema.now groups messages (field_like view) at end (rec_of rec.now) e) }
{
    match view.cardinality {
        Cardinality::Singular => match view.kind {
            Kind::Message(type_at) => join_message(
                alloc, schema, stable, groups, messages, room, view, type_at, at, end, held, rec,
            ),
            _ => set_value(alloc, schema, view.presence, view.kind, at, held, rec),
        },
        Cardinality::Repeated => match view.kind {
            Kind::Message(type_at) => push_message(
                alloc, schema, groups, messages, room, view, type_at, at, end, held, rec,
            ),
            _ => add_values(alloc, schema, view.kind, at, held, rec),
        },
        Cardinality::Map(key) => put_entry(
            alloc, schema, groups, messages, room, view, key, at, end, held, rec,
        ),
    }
}

/// One record more, whose key stands at `at` and whose payload ends at `end`.
#[cycle(merge)]
fn merge_rec(
    alloc: Global,
    schema: &Schema,
    stable: bool,
    groups: usize,
    messages: usize,
    room: u32,
    owner: Owner,
    at: usize,
    end: usize,
    into: &mut Contents,
    rec: RecRef<'_>,
) -> Result<(), DecodeError>
    requires proper { IsProper schema.now }
    requires left { (groups ≡ 0) ↔ (messages ≡ 0) }
    requires ends { PayloadFits (rec_of rec) end }
    requires ready { IsReady stable schema.now messages (fields_at schema.now owner) (content_of into.old) }
    ensures found { OnOk result (meaning_onto schema.now messages (fields_at schema.now owner) (content_of into.old) (rec_of rec.entry ∷ [])
        ≡ Some (content_of into.new)) }
    ensures fault { IfErr result (λ e. (e ≡ OutOfMemory) ⊎ RecFails schema.now groups messages (fields_at schema.now owner) at end (rec_of rec.entry) e) }
{
    let Some(view) = view_in(schema, owner, rec.number()) else {
        return keep(alloc, into, rec);
    };
    if is_float(view.kind) {
        return keep(alloc, into, rec);
    }
    let mut held = take_value(schema, owner, view, into);
    match merge_value(
        alloc, schema, stable, groups, messages, room, view, at, end, &mut held, &rec,
    ) {
        Ok(()) => put_value(into, view.number, held),
        Err(fault) => {
            drop(held);
            Err(fault)
        }
    }
}

/// The record at the front of the bytes, which end at `end`; the bytes behind it.
#[cycle(merge)]
fn merge_next<'a>(
    alloc: Global,
    schema: &Schema,
    stable: bool,
    groups: usize,
    messages: usize,
    room: u32,
    owner: Owner,
    end: usize,
    into: &mut Contents,
    bytes: &'a [u8],
) -> Result<&'a [u8], DecodeError>
    requires proper { IsProper schema.now }
    requires left { (groups ≡ 0) ↔ (messages ≡ 0) }
    requires ends { length bytes.now ≤ end }
    requires ready { IsReady stable schema.now messages (fields_at schema.now owner) (content_of into.old) }
    ensures found { IfOk result (λ rest.
        GoesOn schema.now groups messages (fields_at schema.now owner) (content_of into.old) (content_of into.new) bytes.now rest.now) }
    ensures fault { IfErr result (IsToldAt (end - length bytes.now) (IsFirstWith schema.now groups messages (fields_at schema.now owner) bytes.now)) }
{
    let at = end - bytes.len();
    if !takes_key(schema, owner, front_key(bytes)) {
        return Err(DecodeError::WireType(at));
    }
    match read_rec_ref(alloc, at, bytes, groups) {
        Ok(Some((rec, rest))) => {
            let last = end - rest.len();
            match merge_rec(
                alloc, schema, stable, groups, messages, room, owner, at, last, into, rec,
            ) {
                Ok(()) => Ok(rest),
                Err(fault) => Err(fault),
            }
        }
        Ok(None) => Err(DecodeError::NoMemory),
        Err(fault) => Err(fault),
    }
}

/// The records of the bytes, which end at `end`, behind a content that stays where no record comes. Of a stable one the
/// messages inside do so, too.
#[cycle(merge)]
pub(crate) fn merge_bytes(
    alloc: Global,
    schema: &Schema,
    stable: bool,
    groups: usize,
    messages: usize,
    room: u32,
    owner: Owner,
    end: usize,
    into: &mut Contents,
    bytes: &[u8],
) -> Result<(), DecodeError>
    requires proper { IsProper schema.now }
    requires left { (groups ≡ 0) ↔ (messages ≡ 0) }
    requires ends { length bytes.now ≤ end }
    requires ready { IsReady stable schema.now messages (fields_at schema.now owner) (content_of into.old) }
    ensures found { OnOk result (onto_with schema.now groups messages (fields_at schema.now owner) (content_of into.old) bytes.now
        ≡ Some (content_of into.new)) }
    ensures fault { IfErr result (IsToldAt (end - length bytes.now) (IsFirstWith schema.now groups messages (fields_at schema.now owner) bytes.now)) }
{
    let mut rest = bytes;
    while rest.len() > 0 {
        match merge_next(
            alloc, schema, stable, groups, messages, room, owner, end, into, rest,
        ) {
            Ok(after) => rest = after,
            Err(fault) => return Err(fault),
        }
    }
    Ok(())
}
