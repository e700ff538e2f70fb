// Messages of well-known types that are told by a value of their own.
ghost use Rattle.std.specs.Prelude.{◌≡◌, ℕ, List as ListOf, Result, Ok, Some, false, map as map_list, option_map, OnOk, IfOk, IfErr, IfSome, IfNone};
ghost use Rattle.serde_json.specs.View.{view};
ghost use Rattle.pbx_content.specs.Content.{get, fields, kept, message, vals_of};
ghost use Rattle.pbx_content.specs.Encoding.{type_of};
ghost use Rattle.pbx_content.specs.Shape.{declared_of};
ghost use Rattle.pbx_content_codec.specs.View.{val_of, content_of};
ghost use Rattle.pbx_text.specs.Timestamp.{timestamp_written};
ghost use Rattle.pbx_text.specs.Duration.{duration_written};
ghost use Rattle.pbx_text.specs.declared.fault.TextFault.{TextFault};
ghost use Rattle.pbx_wkt_types.specs.Shapes.{form_of};
ghost use Rattle.pbx_wkt_types.specs.declared.form.Form.TheVariants as forms;
ghost use Rattle.pbx_json_meaning.specs.Asked.{one};
ghost use Rattle.pbx_json_meaning.specs.Canonical.{tells, scalar_tree as scalar_tree_of, first_field, keeps_float};
ghost use Rattle.pbx_json_meaning.specs.Forms.{is_object_form as is_object_form_of, as_text, number_in, text_in, texts_of, texts_in};
ghost use Rattle.pbx_json_meaning.specs.Forms.{timestamp_tree as timestamp_tree_of, duration_tree as duration_tree_of, mask_tree as mask_tree_of};
ghost use Rattle.pbx_json_meaning.specs.Canonical.{Writing, writing};
ghost use Rattle.pbx_json_writing.specs.Indexes.{AreIndexes};
ghost use Rattle.pbx_json_writing.specs.Kinds.{is_passed_form as is_passed_form_of};
ghost use Rattle.pbx_json_writing.specs.Refusals.{Refused, IsAnswer, IsTextRefused, IsHeldRefused, IsOutOfTime};

use crate::fields::{kept_float, message_type};
use crate::{Indexes, Refusal, scalar_tree, string_tree, zero_tree};
use pbx_content::{Kind, Schema};
use pbx_content_codec::{Contents, Held};
use pbx_json_meaning::{JsonKind, SerializeOptions};
use pbx_json_schema::kind_at;
use pbx_text::{TextFault, write_duration, write_mask, write_timestamp};
use pbx_wire::{List, NoMemory, Text, Texts};
use pbx_wkt_types::Form;
use serde_json::Value;
use std::alloc::Global;

// ---- seconds and nanoseconds

/// The number that is held; of a value that is none, 0.
fn number_held(held: &Held) -> i128
    ensures { result ≡ number_in (Some (val_of held.now)) }
{
    match held {
        Held::I32(value) => i128::from(*value),
        Held::I64(value) => i128::from(*value),
        Held::U32(value) => i128::from(*value),
        Held::U64(value) => i128::from(*value),
        Held::Bool(_)
        | Held::Text(_)
        | Held::Bytes(_)
        | Held::Message(_)
        | Held::Many(_)
        | Held::Pairs(_) => 0,
    }
}

/// The number in a field, and 0 where it is absent.
fn number_at(contents: &Contents, number: u32) -> i128
    ensures { result ≡ number_in (get number (fields (content_of contents.now))) }
{
    match contents.get(number) {
        Some(held) => number_held(held),
        None => 0,
    }
}

/// Seconds and nanoseconds; a number that does not fit is out of every range.
fn time_of(contents: &Contents) -> Option<(i64, i32)>
    ensures seconds { IfSome result (λ time. time.0 ≡ number_in (get 1 (fields (content_of contents.now)))) }
    ensures nanos { IfSome result (λ time. time.1 ≡ number_in (get 2 (fields (content_of contents.now)))) }
    ensures out { IfNone result (IsOutOfTime (number_in (get 1 (fields (content_of contents.now))))
        (number_in (get 2 (fields (content_of contents.now))))) }
{
    let Ok(seconds) = i64::try_from(number_at(contents, 1)) else {
        return None;
    };
    let Ok(nanos) = i32::try_from(number_at(contents, 2)) else {
        return None;
    };
    Some((seconds, nanos))
}

/// The text of a timestamp.
fn timestamp_text(alloc: Global, contents: &Contents) -> Result<Text, TextFault>
    ensures { IsAnswer (timestamp_written (number_in (get 1 (fields (content_of contents.now)))) (number_in (get 2 (fields (content_of contents.now))))) result }
{
    match time_of(contents) {
        Some((seconds, nanos)) => write_timestamp(alloc, seconds, nanos),
        None => Err(TextFault::Range),
    }
}

/// The text of a duration.
fn duration_text(alloc: Global, contents: &Contents) -> Result<Text, TextFault>
    ensures { IsAnswer (duration_written (number_in (get 1 (fields (content_of contents.now)))) (number_in (get 2 (fields (content_of contents.now))))) result }
{
    match time_of(contents) {
        Some((seconds, nanos)) => write_duration(alloc, seconds, nanos),
        None => Err(TextFault::Range),
    }
}

// ---- paths

/// A copy of the text that is held; of a value that is none, the empty one.
fn text_held(alloc: Global, held: &Held) -> Result<Text, NoMemory>
    ensures { IfOk result (λ text. text ≡ text_in (val_of held.now)) }
{
    match held {
        Held::Text(text) => text.copy(alloc),
        Held::I32(_)
        | Held::I64(_)
        | Held::U32(_)
        | Held::U64(_)
        | Held::Bool(_)
        | Held::Bytes(_)
        | Held::Message(_)
        | Held::Many(_)
        | Held::Pairs(_) => Text::from_str(alloc, ""),
    }
}

/// Copies of the texts of a list.
fn texts_listed(alloc: Global, many: &List<Held>) -> Result<Texts, NoMemory>
    ensures { IfOk result (λ texts. texts ≡ texts_of (vals_of (map_list val_of many.now))) }
{
    let mut texts = Texts::new(alloc);
    for held in many.as_slice() {
        let text = text_held(alloc, held)?;
        texts.add(text)?;
    }
    Ok(texts)
}

/// Copies of the texts that are held; of a value that is no list, none.
fn texts_held(alloc: Global, held: &Held) -> Result<Texts, NoMemory>
    ensures { IfOk result (λ texts. texts ≡ texts_in (Some (val_of held.now))) }
{
    match held {
        Held::Many(many) => texts_listed(alloc, many),
        Held::I32(_)
        | Held::I64(_)
        | Held::U32(_)
        | Held::U64(_)
        | Held::Bool(_)
        | Held::Text(_)
        | Held::Bytes(_)
        | Held::Message(_)
        | Held::Pairs(_) => Ok(Texts::new(alloc)),
    }
}

/// Copies of the paths of a mask.
fn paths_of(alloc: Global, contents: &Contents) -> Result<Texts, NoMemory>
    ensures { IfOk result (λ texts. texts ≡ texts_in (get 1 (fields (content_of contents.now)))) }
{
    match contents.get(1) {
        Some(held) => texts_held(alloc, held),
        None => Ok(Texts::new(alloc)),
    }
}

// ---- trees

/// A text that is written as a tree, or the rule that is broken where there is none.
fn told_text(
    alloc: Global,
    rule: JsonKind,
    written: Result<Text, TextFault>,
) -> Result<Value, Refusal>
    ensures written { (wanted : Result (ListOf ℕ) TextFault) → IsAnswer wanted written → IfOk result (λ tree. as_text rule wanted ≡ Ok (view tree)) }
    ensures refused { (wanted : Result (ListOf ℕ) TextFault) → IsAnswer wanted written → IfErr result (IsTextRefused (as_text rule wanted)) }
{
    match written {
        Ok(text) => Ok(string_tree(alloc, text.as_str())?),
        Err(TextFault::NoMemory) => Err(Refusal::Memory),
        Err(TextFault::Form | TextFault::Range) => Err(Refusal::here(alloc, rule)),
    }
}

/// A timestamp.
fn timestamp_tree(alloc: Global, contents: &Contents) -> Result<Value, Refusal>
    ensures written { IfOk result (λ tree. timestamp_tree_of (fields (content_of contents.now)) ≡ Ok (view tree)) }
    ensures refused { IfErr result (IsTextRefused (timestamp_tree_of (fields (content_of contents.now)))) }
{
    let written = timestamp_text(alloc, contents);
    told_text(alloc, JsonKind::Timestamp, written)
}

/// A duration.
fn duration_tree(alloc: Global, contents: &Contents) -> Result<Value, Refusal>
    ensures written { IfOk result (λ tree. duration_tree_of (fields (content_of contents.now)) ≡ Ok (view tree)) }
    ensures refused { IfErr result (IsTextRefused (duration_tree_of (fields (content_of contents.now)))) }
{
    let written = duration_text(alloc, contents);
    told_text(alloc, JsonKind::Duration, written)
}

/// A mask.
fn mask_tree(alloc: Global, contents: &Contents) -> Result<Value, Refusal>
    ensures written { IfOk result (λ tree. mask_tree_of (fields (content_of contents.now)) ≡ Ok (view tree)) }
    ensures refused { IfErr result (IsTextRefused (mask_tree_of (fields (content_of contents.now)))) }
{
    let Ok(paths) = paths_of(alloc, contents) else {
        return Err(Refusal::Memory);
    };
    let written = write_mask(alloc, &paths);
    told_text(alloc, JsonKind::Mask, written)
}

/// The value of a wrapper, of which the field has the kind; where it is absent, the kind's default.
fn wrapper_tree(
    contents: &Contents,
    alloc: Global,
    schema: &Schema,
    options: &SerializeOptions,
    indexes: &mut Indexes,
    kind: Kind,
) -> Result<Value, Refusal>
    requires { AreIndexes schema.now indexes.old }
    ensures written { IfOk result (λ tree. scalar_tree_of schema.now (writing schema.now options.now) kind (get 1 (fields (content_of contents.now)))
        ≡ Some (view tree)) }
    ensures refused { IfErr result (IsHeldRefused schema.now (writing schema.now options.now) kind (get 1 (fields (content_of contents.now)))) }
    ensures known { AreIndexes schema.now indexes.new }
{
    match contents.get(1) {
        Some(held) => scalar_tree(held, alloc, schema, options, indexes, kind),
        None => Ok(zero_tree(alloc, schema, options, kind)?),
    }
}

/// Whether messages of the form are told by the value of a field of theirs, or by their payload.
pub(crate) fn is_passed_form(form: Form) -> bool
    ensures { result ≡ is_passed_form_of form }
{
    matches!(
        form,
        Form::Struct | Form::ListValue | Form::Value | Form::Any
    )
}

/// The number of the first field that has a value; 0 where none has.
fn first_number(contents: &Contents) -> u32
    ensures { result ≡ first_field (fields (content_of contents.now)) }
{
    match contents.fields.as_slice().first() {
        Some(field) => field.0,
        None => 0,
    }
}

/// The number of the field that a `Value` holds, 0 where it holds none, unless it keeps a record of its float field.
pub(crate) fn number_of_value(
    contents: &Contents,
    alloc: Global,
    schema: &Schema,
    kind: Kind,
) -> Result<u32, Refusal>
    requires { form_of schema.now (type_of kind) ≡ forms.Value }
    ensures whole { OnOk result (keeps_float (declared_of schema.now (type_of kind)) (kept (content_of contents.now)) ≡ false) }
    ensures first { IfOk result (λ number. number ≡ first_field (fields (content_of contents.now))) }
    ensures refused { (way : Writing) → IfErr result (Refused schema.now way (message (content_of contents.now)) kind) }
{
    match kept_float(schema, message_type(kind), &contents.kept) {
        Some(_) => Err(Refusal::here(alloc, JsonKind::Float)),
        None => Ok(first_number(contents)),
    }
}

/// A message of a type that is told by a value of its own, and not by fields, the value of one of them or a payload.
pub(crate) fn own_tree(
    contents: &Contents,
    alloc: Global,
    schema: &Schema,
    options: &SerializeOptions,
    indexes: &mut Indexes,
    kind: Kind,
    form: Form,
) -> Result<Value, Refusal>
    requires form { form ≡ form_of schema.now (type_of kind) }
    requires own { is_object_form_of form ≡ false }
    requires alone { is_passed_form_of form ≡ false }
    requires known { AreIndexes schema.now indexes.old }
    ensures written { IfOk result (λ tree. tells schema.now (writing schema.now options.now) (message (content_of contents.now)) (one kind)
        ≡ Some (view tree)) }
    ensures refused { IfErr result (Refused schema.now (writing schema.now options.now) (message (content_of contents.now)) kind) }
    ensures known { AreIndexes schema.now indexes.new }
{
    match form {
        Form::Timestamp => timestamp_tree(alloc, contents),
        Form::Duration => duration_tree(alloc, contents),
        Form::FieldMask => mask_tree(alloc, contents),
        Form::Wrapper => {
            let held = kind_at(schema, message_type(kind), 1);
            wrapper_tree(contents, alloc, schema, options, indexes, held)
        }
        Form::FloatWrapper => Err(Refusal::here(alloc, JsonKind::Float)),
        Form::Misshapen => Err(Refusal::here(alloc, JsonKind::Shape)),
        _ => Err(Refusal::Memory),
    }
}
