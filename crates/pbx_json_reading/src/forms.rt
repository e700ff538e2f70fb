// Messages of well-known types that are told by a value of their own (ProtoJSON Format: the table of types).
ghost use Rattle.std.specs.Prelude.{◌≡◌, ◌⊎◌, [], ◌∷◌, ◌++◌, false, Ok, Err, IfOk, IfErr, OnOk, option_map, map};
ghost use Rattle.serde_json.specs.View.{view};
ghost use Rattle.pbx_content.specs.Content.{text as text_val};
ghost use Rattle.pbx_content.specs.Shape.{field_of, fields_of};
ghost use Rattle.pbx_content_codec.specs.View.{content_of, val_of};
ghost use Rattle.pbx_text.specs.Timestamp.{timestamp_read};
ghost use Rattle.pbx_text.specs.Duration.{duration_read};
ghost use Rattle.pbx_text.specs.Mask.{mask_read};
ghost use Rattle.pbx_json_meaning.specs.Forms.{skips, kind_at as kind_at_of, shown_at as shown_at_of, whole};
ghost use Rattle.pbx_json_meaning.specs.Forms.{made, time_of, mask_of_paths, holding as holding_of, judged, text_form, form_read, own_read};
ghost use Rattle.pbx_json_meaning.specs.declared.kind.JsonKind.TheVariants.{NoMemory as OutOfMemory, Timestamp as NoTimestamp};
ghost use Rattle.pbx_json_meaning.specs.declared.kind.JsonKind.TheVariants.{Duration as NoDuration, Mask as NoMask};
ghost use Rattle.pbx_json_meaning.specs.Scalars.{if_ok, scalar_read};
ghost use Rattle.pbx_wkt_types.specs.Shapes.{form_of};
ghost use Rattle.pbx_json_schema.specs.Index.{AreNamesIn};
ghost use Rattle.pbx_json_reading.specs.Holders.{has_any_parts, own_of};
ghost use Rattle.pbx_json_reading.specs.Entries.{entry_at};

use crate::defaults::unless_field_default;
use crate::holders::{Holder, Own, read_value_tree};
use crate::payload::read_any_tree;
use crate::{contents_with, read_scalar};
use pbx_content::Schema;
use pbx_content_codec::{Contents, Held};
use pbx_json_meaning::JsonKind;
use pbx_json_schema::{SchemaNames, kind_at};
use pbx_text::{TextFault, read_duration, read_mask, read_timestamp};
use pbx_wire::{List, NoMemory, Texts};
use pbx_wkt_types::Form;
use serde_json::Value;
use std::alloc::Global;

/// Whether keys that name no field are skipped: never those of `Empty`.
pub(crate) fn skips_keys(form: Form, allow: bool) -> bool
    ensures { result ≡ skips form allow }
{
    match form {
        Form::Empty => false,
        _ => allow,
    }
}

/// The value, unless it is a default of the field of the number, without presence.
fn shown_at(schema: &Schema, place: usize, number: u32, held: Held) -> Option<Held>
    ensures { option_map val_of result ≡ shown_at_of schema.now (field_of number (fields_of schema.now place)) (val_of held) }
{
    match schema.field_of(place, number) {
        Some(field) => unless_field_default(schema, field, Some(held)),
        None => {
            drop(held);
            None
        }
    }
}

/// With a value at a number, if there is one.
fn add_value(
    values: &mut List<(u32, Held)>,
    number: u32,
    held: Option<Held>,
) -> Result<(), NoMemory>
    ensures { OnOk result (values.new ≡ values.old ++ entry_at number held) }
{
    match held {
        Some(held) => values.add((number, held)),
        None => Ok(()),
    }
}

/// The content of two values at 1 and at 2.
pub(crate) fn two_values(
    alloc: Global,
    schema: &Schema,
    place: usize,
    first: Held,
    second: Held,
) -> Result<Contents, NoMemory>
    ensures { IfOk result (λ contents. content_of contents ≡ made schema.now place ((1, val_of first) ∷ (2, val_of second) ∷ [])) }
{
    let first = shown_at(schema, place, 1, first);
    let second = shown_at(schema, place, 2, second);
    let mut values = List::new(alloc);
    if add_value(&mut values, 1, first).is_err() {
        drop(second);
        drop(values);
        return Err(NoMemory);
    }
    if add_value(&mut values, 2, second).is_err() {
        drop(values);
        return Err(NoMemory);
    }
    contents_with(alloc, values)
}

/// The content of seconds and nanoseconds.
fn time_contents(
    alloc: Global,
    schema: &Schema,
    place: usize,
    seconds: i64,
    nanos: i32,
) -> Result<Contents, NoMemory>
    ensures { IfOk result (λ contents. content_of contents ≡ time_of schema.now place (seconds, nanos)) }
{
    let seconds = Held::I64(seconds);
    two_values(alloc, schema, place, seconds, Held::I32(nanos))
}

/// The content of one value at a number, if there is one.
pub(crate) fn holding(
    alloc: Global,
    schema: &Schema,
    place: usize,
    number: u32,
    held: Option<Held>,
) -> Result<Contents, NoMemory>
    ensures { IfOk result (λ contents. content_of contents ≡ holding_of schema.now place number (option_map val_of held)) }
{
    let mut values = List::new(alloc);
    if let Some(held) = held {
        let held = shown_at(schema, place, number, held);
        add_value(&mut values, number, held)?;
    }
    contents_with(alloc, values)
}

/// What a grammar read as seconds and nanoseconds, as a message, or the rule that its text breaks.
fn read_time(
    alloc: Global,
    schema: &Schema,
    place: usize,
    rule: JsonKind,
    time: Result<(i64, i32), TextFault>,
) -> Result<Contents, JsonKind>
    ensures ok { IfOk result (λ c. judged rule (time_of schema.now place) time ≡ Ok (content_of c)) }
    ensures err { IfErr result (λ e. (e ≡ OutOfMemory) ⊎ (judged rule (time_of schema.now place) time ≡ Err e)) }
{
    match time {
        Ok((seconds, nanos)) => match time_contents(alloc, schema, place, seconds, nanos) {
            Ok(contents) => Ok(contents),
            Err(_) => Err(JsonKind::NoMemory),
        },
        Err(_) => Err(rule),
    }
}

/// A `google.protobuf.Timestamp`.
fn read_timestamp_tree(
    alloc: Global,
    schema: &Schema,
    place: usize,
    tree: &Value,
) -> Result<Contents, JsonKind>
    ensures ok { IfOk result (λ c. text_form NoTimestamp timestamp_read (time_of schema.now place) (view tree.now) ≡ Ok (content_of c)) }
    ensures err { IfErr result (λ e. (e ≡ OutOfMemory)
        ⊎ (text_form NoTimestamp timestamp_read (time_of schema.now place) (view tree.now) ≡ Err e)) }
{
    match tree {
        Value::String(text) => {
            let time = read_timestamp(text.as_str());
            read_time(alloc, schema, place, JsonKind::Timestamp, time)
        }
        _ => Err(JsonKind::WrongKind),
    }
}

/// A `google.protobuf.Duration`.
fn read_duration_tree(
    alloc: Global,
    schema: &Schema,
    place: usize,
    tree: &Value,
) -> Result<Contents, JsonKind>
    ensures ok { IfOk result (λ c. text_form NoDuration duration_read (time_of schema.now place) (view tree.now) ≡ Ok (content_of c)) }
    ensures err { IfErr result (λ e. (e ≡ OutOfMemory)
        ⊎ (text_form NoDuration duration_read (time_of schema.now place) (view tree.now) ≡ Err e)) }
{
    match tree {
        Value::String(text) => {
            let time = read_duration(text.as_str());
            read_time(alloc, schema, place, JsonKind::Duration, time)
        }
        _ => Err(JsonKind::WrongKind),
    }
}

/// Paths as the values of a field.
fn path_values(alloc: Global, paths: Texts) -> Result<List<Held>, NoMemory>
    ensures { IfOk result (λ values. map val_of values ≡ map text_val paths) }
{
    let mut values = List::new(alloc);
    for path in paths.into_vec() {
        values.add(Held::Text(path))?;
    }
    Ok(values)
}

/// The content of a mask.
fn mask_contents(
    alloc: Global,
    schema: &Schema,
    place: usize,
    paths: Texts,
) -> Result<Contents, NoMemory>
    ensures { IfOk result (λ contents. content_of contents ≡ mask_of_paths schema.now place paths) }
{
    let values = path_values(alloc, paths)?;
    holding(alloc, schema, place, 1, Some(Held::Many(values)))
}

/// The mask of a text.
fn read_mask_text(
    alloc: Global,
    schema: &Schema,
    place: usize,
    text: &str,
) -> Result<Contents, JsonKind>
    ensures ok { IfOk result (λ c. judged NoMask (mask_of_paths schema.now place) (mask_read text.now) ≡ Ok (content_of c)) }
    ensures err { IfErr result (λ e. (e ≡ OutOfMemory) ⊎ (judged NoMask (mask_of_paths schema.now place) (mask_read text.now) ≡ Err e)) }
{
    match read_mask(alloc, text) {
        Ok(paths) => match mask_contents(alloc, schema, place, paths) {
            Ok(contents) => Ok(contents),
            Err(_) => Err(JsonKind::NoMemory),
        },
        Err(TextFault::NoMemory) => Err(JsonKind::NoMemory),
        Err(_) => Err(JsonKind::Mask),
    }
}

/// A `google.protobuf.FieldMask`.
fn read_mask_tree(
    alloc: Global,
    schema: &Schema,
    place: usize,
    tree: &Value,
) -> Result<Contents, JsonKind>
    ensures ok { IfOk result (λ c. text_form NoMask mask_read (mask_of_paths schema.now place) (view tree.now) ≡ Ok (content_of c)) }
    ensures err { IfErr result (λ e. (e ≡ OutOfMemory)
        ⊎ (text_form NoMask mask_read (mask_of_paths schema.now place) (view tree.now) ≡ Err e)) }
{
    match tree {
        Value::String(text) => read_mask_text(alloc, schema, place, text.as_str()),
        _ => Err(JsonKind::WrongKind),
    }
}

/// A wrapper of a scalar.
fn read_wrapper(
    alloc: Global,
    schema: &Schema,
    names: &mut SchemaNames,
    allow: bool,
    place: usize,
    tree: &Value,
) -> Result<Contents, JsonKind>
    requires { AreNamesIn schema.now names.old }
    ensures ok { IfOk result (λ c. if_ok (scalar_read schema.now allow (kind_at_of schema.now place 1) (view tree.now))
        (λ o. Ok (holding_of schema.now place 1 o)) ≡ Ok (content_of c)) }
    ensures err { IfErr result (λ e. (e ≡ OutOfMemory)
        ⊎ (if_ok (scalar_read schema.now allow (kind_at_of schema.now place 1) (view tree.now)) (λ o. Ok (holding_of schema.now place 1 o)) ≡ Err e)) }
    ensures names { AreNamesIn schema.now names.new }
{
    let kind = kind_at(schema, place, 1);
    match read_scalar(alloc, schema, names, allow, kind, tree) {
        Ok(held) => match holding(alloc, schema, place, 1, held) {
            Ok(contents) => Ok(contents),
            Err(_) => Err(JsonKind::NoMemory),
        },
        Err(rule) => Err(rule),
    }
}

/// A message of a type of the form, which is read at once.
fn read_whole(
    alloc: Global,
    schema: &Schema,
    names: &mut SchemaNames,
    allow: bool,
    form: Form,
    place: usize,
    tree: &Value,
) -> Result<Contents, JsonKind>
    requires names { AreNamesIn schema.now names.old }
    requires form { has_any_parts form ≡ false }
    ensures ok { IfOk result (λ c. form_read schema.now allow place form (view tree.now) ≡ Ok (whole (content_of c))) }
    ensures err { IfErr result (λ e. (e ≡ OutOfMemory) ⊎ (form_read schema.now allow place form (view tree.now) ≡ Err e)) }
    ensures names { AreNamesIn schema.now names.new }
{
    match form {
        Form::Timestamp => read_timestamp_tree(alloc, schema, place, tree),
        Form::Duration => read_duration_tree(alloc, schema, place, tree),
        Form::FieldMask => read_mask_tree(alloc, schema, place, tree),
        Form::Wrapper => read_wrapper(alloc, schema, names, allow, place, tree),
        Form::FloatWrapper => Err(JsonKind::Float),
        Form::Misshapen => Err(JsonKind::Shape),
        _ => Err(JsonKind::WrongKind),
    }
}

/// What a message of a type, whose form is no object of fields, is read as.
pub(crate) fn read_own<'t>(
    alloc: Global,
    schema: &Schema,
    names: &mut SchemaNames,
    allow: bool,
    form: Form,
    place: usize,
    tree: &'t Value,
) -> Result<Own<'t>, JsonKind>
    requires names { AreNamesIn schema.now names.old }
    requires form { form ≡ form_of schema.now place }
    ensures ok { IfOk result (λ own. own_read schema.now allow place (view tree.now) ≡ Ok (own_of schema.now own)) }
    ensures err { IfErr result (λ e. (e ≡ OutOfMemory) ⊎ (own_read schema.now allow place (view tree.now) ≡ Err e)) }
    ensures names { AreNamesIn schema.now names.new }
{
    match form {
        Form::Struct => Ok(Own::Members(Holder { place, outer: None })),
        Form::ListValue => Ok(Own::Elements(Holder { place, outer: None })),
        Form::Value => read_value_tree(alloc, schema, place, tree),
        Form::Any => read_any_tree(alloc, schema, names, allow, place, tree),
        _ => match read_whole(alloc, schema, names, allow, form, place, tree) {
            Ok(contents) => Ok(Own::Whole(contents)),
            Err(rule) => Err(rule),
        },
    }
}
