ghost use Rattle.std.specs.Prelude.{◌≡◌, ◌⊎◌, None, Ok, Err, not, IfOk, IfErr, option_map, map};
ghost use Rattle.serde_json.specs.View.{view};
ghost use Rattle.pbx_content.specs.Shape.{declared_of};
ghost use Rattle.pbx_content.specs.declared.shape.Kind.TheVariants.{Message};
ghost use Rattle.pbx_content_codec.specs.View.{content_of, val_of, key_of};
ghost use Rattle.pbx_json_meaning.specs.Asked.{field as asked_field, one as asked_one, target_by};
ghost use Rattle.pbx_json_meaning.specs.Names.{field_named};
ghost use Rattle.pbx_json_meaning.specs.Stands.{Stands, content_for};
ghost use Rattle.pbx_json_meaning.specs.Faults.{FirstJsonFault};
ghost use Rattle.pbx_json_meaning.specs.declared.kind.JsonKind.TheVariants.{NoMemory as OutOfMemory};
ghost use Rattle.pbx_json_meaning.specs.declared.place.Step.TheVariants.{Key as to_key};
ghost use Rattle.pbx_json_schema.specs.Index.{AreNamesIn};
ghost use Rattle.pbx_json_walk.specs.Walk.{answers, at_step, key_judged, payload_turn};
ghost use Rattle.pbx_json_walk.specs.Walk.{message_answer, own_answer, list_answer, map_answer, target_answer};
ghost use Rattle.pbx_json_walk.specs.Walk.{parts_in, elements_in, entry_key, entry_turn, item_turn};
ghost use Rattle.pbx_json_reading.specs.States.{state_of, entries_of};
ghost use Rattle.pbx_json_reading.specs.Objects.{fields_object, member_turn, payload_object};
ghost use Rattle.pbx_json_reading.specs.Results.{IsResultOf};
ghost use Rattle.pbx_json_reading.specs.Holders.{own_of};

use crate::opened::{is_left_out, list_items, map_members, object_members};
use crate::reading::Reading;
use crate::told::{
    add_item, add_pair, as_held, held_by, is_passed, note_payload, note_read, packed, read_plain,
    shown_read, skip_or_refuse,
};
use crate::{
    MapEntries, ObjectState, Own, Packing, at_key, at_tree, is_type_key, is_value_key, map_held,
    payload_found, read_key, read_own, skips_keys,
};
use pbx_content::{Cardinality, FieldShape, Kind, Schema};
use pbx_content_codec::{Contents, Held, MapKey};
use pbx_json_meaning::{DeserializeOptions, JsonError, JsonKind};
use pbx_json_schema::{SchemaNames, is_object_form, kind_at};
use pbx_json_walk::{fault_is_first, message_is_told};
use pbx_wire::List;
use serde_json::Value;
use std::alloc::Global;

/// How many messages may nest: the top and 1,024 levels below it.
const LEVELS: u32 = 1025;

/// What the key of an object names, and whether it may be read: None where it is skipped.
fn named_field<'s>(
    reading: &Reading<'s>,
    names: &mut SchemaNames,
    place: usize,
    skips: bool,
    key: &str,
    state: &ObjectState,
) -> Result<Option<&'s FieldShape>, JsonKind>
    requires { AreNamesIn reading.now.schema.now names.old }
    ensures ok { IfOk result (λ found. key_judged skips
        (field_named key.now (declared_of reading.now.schema.now place)) (state_of state.now)
        ≡ Ok (option_map (λ f. f.now) found)) }
    ensures err { IfErr result (λ e. (e ≡ OutOfMemory)
        ⊎ (key_judged skips (field_named key.now (declared_of reading.now.schema.now place)) (state_of state.now) ≡ Err e)) }
    ensures names { AreNamesIn reading.now.schema.now names.new }
{
    match names.find_field(reading.alloc, reading.schema, place, key) {
        Ok(Some(field)) => if state.is_seen(field.number) {
            Err(JsonKind::DuplicateField)
        } else {
            Ok(Some(field))
        },
        Ok(None) => if skips {
            Ok(None)
        } else {
            Err(JsonKind::UnknownField)
        },
        Err(_) => Err(JsonKind::NoMemory),
    }
}

/// What the key of an entry is, where no key before it was read alike.
fn fresh_key(alloc: Global, kind: Kind, key: &str, entries: &MapEntries) -> Result<MapKey, JsonKind>
    ensures ok { IfOk result (λ k. entry_key kind key.now (entries_of entries.now) ≡ Ok (key_of k)) }
    ensures err { IfErr result (λ e. (e ≡ OutOfMemory) ⊎ (entry_key kind key.now (entries_of entries.now) ≡ Err e)) }
{
    match read_key(alloc, kind, key) {
        Ok(read) => if entries.is_used(&read) {
            Err(JsonKind::DuplicateKey)
        } else {
            Ok(read)
        },
        Err(kind) => Err(kind),
    }
}

/// What a tree is as one value of a kind.
#[cycle(tree)]
fn read_value(
    reading: &Reading<'_>,
    names: &mut SchemaNames,
    levels: u32,
    kind: Kind,
    tree: &Value,
) -> Result<Option<Held>, JsonError>
    requires { AreNamesIn reading.now.schema.now names.old }
    ensures told { IsResultOf (option_map val_of) (answers reading.now.schema.now reading.now.allow (view tree.now) (asked_one kind)) result }
    ensures names { AreNamesIn reading.now.schema.now names.new }
{
    match kind {
        Kind::Message(place) => as_held(read_message(reading, names, levels, place, tree)),
        _ => read_plain(reading, names, kind, tree),
    }
}

/// What a tree is as a message of the type at a place.
#[cycle(tree)]
fn read_message(
    reading: &Reading<'_>,
    names: &mut SchemaNames,
    levels: u32,
    place: usize,
    tree: &Value,
) -> Result<Contents, JsonError>
    requires { AreNamesIn reading.now.schema.now names.old }
    ensures told { IsResultOf content_of (message_answer reading.now.schema.now reading.now.allow place (view tree.now)
        (elements_in reading.now.schema.now reading.now.allow (view tree.now))
        (parts_in reading.now.schema.now reading.now.allow (view tree.now))) result }
    ensures names { AreNamesIn reading.now.schema.now names.new }
{
    if levels == 0 {
        return Err(at_tree(reading.alloc, JsonKind::NoMemory));
    }
    let Ok(form) = names.form(reading.schema, place) else {
        return Err(at_tree(reading.alloc, JsonKind::NoMemory));
    };
    if is_object_form(form) {
        let skips = skips_keys(form, reading.allow);
        return read_object(reading, names, levels - 1, place, skips, false, tree);
    }
    match read_own(
        reading.alloc,
        reading.schema,
        names,
        reading.allow,
        form,
        place,
        tree,
    ) {
        Ok(own) => read_parts(reading, names, levels - 1, own, tree),
        Err(rule) => Err(at_tree(reading.alloc, rule)),
    }
}

/// What a tree is as a message of a form of its own.
#[cycle(tree)]
fn read_parts(
    reading: &Reading<'_>,
    names: &mut SchemaNames,
    levels: u32,
    own: Own<'_>,
    tree: &Value,
) -> Result<Contents, JsonError>
    requires { AreNamesIn reading.now.schema.now names.old }
    ensures told { IsResultOf content_of (own_answer reading.now.schema.now (Ok (own_of reading.now.schema.now own.entry)) (view tree.now)
        (elements_in reading.now.schema.now reading.now.allow (view tree.now))
        (parts_in reading.now.schema.now reading.now.allow (view tree.now))) result }
    ensures names { AreNamesIn reading.now.schema.now names.new }
{
    match own {
        Own::Whole(contents) => Ok(contents),
        Own::Elements(holder) => {
            let kind = kind_at(reading.schema, holder.place, 1);
            let read = read_list(reading, names, levels, kind, tree);
            held_by(reading, kind, holder, read)
        }
        Own::Members(holder) => {
            let kind = kind_at(reading.schema, holder.place, 1);
            let read = read_map(reading, names, levels, Kind::String, kind, tree);
            held_by(reading, kind, holder, read)
        }
        Own::Beside(packing) => {
            let Packing { payload, skips, .. } = packing;
            let read = read_object(reading, names, levels, payload, skips, true, tree);
            packed(reading, packing, read)
        }
        Own::Under(packing) => {
            let Packing { payload, skips, .. } = packing;
            let read = read_payload(reading, names, levels, payload, skips, tree);
            packed(reading, packing, read)
        }
    }
}

/// What a tree is as an object of the fields of the type at a place. With `beside` it is the payload of an `Any`, and the key of the type of
/// the `Any` is passed over. Keys that name no field are skipped or not.
#[cycle(tree)]
fn read_object(
    reading: &Reading<'_>,
    names: &mut SchemaNames,
    levels: u32,
    place: usize,
    skips: bool,
    beside: bool,
    tree: &Value,
) -> Result<Contents, JsonError>
    requires { AreNamesIn reading.now.schema.now names.old }
    ensures told { IsResultOf content_of (fields_object beside skips (declared_of reading.now.schema.now place) (view tree.now)
        (parts_in reading.now.schema.now reading.now.allow (view tree.now))) result }
    ensures names { AreNamesIn reading.now.schema.now names.new }
{
    let members = match object_members(tree) {
        Ok(members) => members,
        Err(rule) => return Err(at_tree(reading.alloc, rule)),
    };
    let mut state = ObjectState::new(reading.alloc);
    for (key, member) in members.iter() {
        if let Err(error) = read_member(
            reading,
            names,
            levels,
            place,
            skips,
            beside,
            key.as_str(),
            member,
            &mut state,
        ) {
            drop(state);
            return Err(error);
        }
    }
    state.into_contents(reading.alloc)
}

/// What one key of an object of fields adds; that of the type adds nothing where a payload stands beside it.
#[cycle(tree)]
fn read_member(
    reading: &Reading<'_>,
    names: &mut SchemaNames,
    levels: u32,
    place: usize,
    skips: bool,
    beside: bool,
    key: &str,
    tree: &Value,
    state: &mut ObjectState,
) -> Result<(), JsonError>
    requires { AreNamesIn reading.now.schema.now names.old }
    ensures told { IsResultOf (λ u. state_of state.new) (member_turn beside skips (declared_of reading.now.schema.now place) key.now
        (answers reading.now.schema.now reading.now.allow (view tree.now)) (state_of state.old)) result }
    ensures names { AreNamesIn reading.now.schema.now names.new }
{
    if is_passed(beside, key) {
        return Ok(());
    }
    match named_field(reading, names, place, skips, key, state) {
        Ok(Some(field)) => {
            let read = read_field(reading, names, levels, field, tree);
            note_read(reading, key, state, field, read)
        }
        Ok(None) => Ok(()),
        Err(rule) => Err(at_key(reading.alloc, key, rule)),
    }
}

/// What a tree is for a field: None where the field is absent.
#[cycle(tree)]
fn read_field(
    reading: &Reading<'_>,
    names: &mut SchemaNames,
    levels: u32,
    field: &FieldShape,
    tree: &Value,
) -> Result<Option<Held>, JsonError>
    requires { AreNamesIn reading.now.schema.now names.old }
    ensures told { IsResultOf (option_map val_of)
        (answers reading.now.schema.now reading.now.allow (view tree.now) (asked_field field.now)) result }
    ensures names { AreNamesIn reading.now.schema.now names.new }
{
    if is_left_out(reading.schema, field, tree) {
        return Ok(None);
    }
    let read = read_values(reading, names, levels, field, tree);
    shown_read(reading, field, read)
}

/// What a tree is as the values that a field may have.
#[cycle(tree)]
fn read_values(
    reading: &Reading<'_>,
    names: &mut SchemaNames,
    levels: u32,
    field: &FieldShape,
    tree: &Value,
) -> Result<Option<Held>, JsonError>
    requires { AreNamesIn reading.now.schema.now names.old }
    ensures told { IsResultOf (option_map val_of) (target_answer reading.now.schema.now reading.now.allow
        (target_by field.now field.now.cardinality) (view tree.now) (elements_in reading.now.schema.now reading.now.allow (view tree.now))
        (parts_in reading.now.schema.now reading.now.allow (view tree.now))) result }
    ensures names { AreNamesIn reading.now.schema.now names.new }
{
    match field.cardinality {
        Cardinality::Singular => read_value(reading, names, levels, field.kind, tree),
        Cardinality::Repeated => read_list(reading, names, levels, field.kind, tree),
        Cardinality::Map(key) => read_map(reading, names, levels, key, field.kind, tree),
    }
}

/// What the member `value` of a tree is as a message of the type at a place, where other keys than that of the type are skipped or not.
#[cycle(tree)]
fn read_payload(
    reading: &Reading<'_>,
    names: &mut SchemaNames,
    levels: u32,
    place: usize,
    skips: bool,
    tree: &Value,
) -> Result<Contents, JsonError>
    requires { AreNamesIn reading.now.schema.now names.old }
    ensures told { IsResultOf content_of (payload_object skips (Message place) (view tree.now)
        (parts_in reading.now.schema.now reading.now.allow (view tree.now))) result }
    ensures names { AreNamesIn reading.now.schema.now names.new }
{
    let members = match object_members(tree) {
        Ok(members) => members,
        Err(rule) => return Err(at_tree(reading.alloc, rule)),
    };
    let mut found = None;
    for (key, member) in members.iter() {
        if let Err(error) = read_payload_member(
            reading,
            names,
            levels,
            place,
            skips,
            key.as_str(),
            member,
            &mut found,
        ) {
            drop(found);
            return Err(error);
        }
    }
    payload_found(reading.alloc, found)
}

/// What one key adds beside a payload, or as one.
#[cycle(tree)]
fn read_payload_member(
    reading: &Reading<'_>,
    names: &mut SchemaNames,
    levels: u32,
    place: usize,
    skips: bool,
    key: &str,
    tree: &Value,
    found: &mut Option<Contents>,
) -> Result<(), JsonError>
    requires { AreNamesIn reading.now.schema.now names.old }
    ensures told { IsResultOf (λ u. option_map content_of found.new) (at_step (to_key key.now) (payload_turn skips (Message place) key.now
        (answers reading.now.schema.now reading.now.allow (view tree.now)) (option_map content_of found.old))) result }
    ensures names { AreNamesIn reading.now.schema.now names.new }
{
    if is_type_key(key) {
        return Ok(());
    }
    if is_value_key(key) {
        let read = read_message(reading, names, levels, place, tree);
        return note_payload(reading, key, found, read);
    }
    skip_or_refuse(reading, skips, key)
}

/// What a tree is as a list.
#[cycle(tree)]
fn read_list(
    reading: &Reading<'_>,
    names: &mut SchemaNames,
    levels: u32,
    kind: Kind,
    tree: &Value,
) -> Result<Option<Held>, JsonError>
    requires { AreNamesIn reading.now.schema.now names.old }
    ensures told { IsResultOf (option_map val_of) (list_answer kind (view tree.now)
        (elements_in reading.now.schema.now reading.now.allow (view tree.now))) result }
    ensures names { AreNamesIn reading.now.schema.now names.new }
{
    let items = match list_items(kind, tree) {
        Ok(items) => items,
        Err(rule) => return Err(at_tree(reading.alloc, rule)),
    };
    let mut values = List::new(reading.alloc);
    for index in 0..items.len() {
        if let Err(error) = read_item(
            reading,
            names,
            levels,
            kind,
            index,
            &items[index],
            &mut values,
        ) {
            drop(values);
            return Err(error);
        }
    }
    Ok(Some(Held::Many(values)))
}

/// What one element of a list adds.
#[cycle(tree)]
fn read_item(
    reading: &Reading<'_>,
    names: &mut SchemaNames,
    levels: u32,
    kind: Kind,
    index: usize,
    tree: &Value,
    values: &mut List<Held>,
) -> Result<(), JsonError>
    requires { AreNamesIn reading.now.schema.now names.old }
    ensures told { IsResultOf (λ u. map val_of values.new) (item_turn kind index
        (answers reading.now.schema.now reading.now.allow (view tree.now)) (map val_of values.old)) result }
    ensures names { AreNamesIn reading.now.schema.now names.new }
{
    let read = read_value(reading, names, levels, kind, tree);
    add_item(reading, index, values, read)
}

/// What a tree is as a map.
#[cycle(tree)]
fn read_map(
    reading: &Reading<'_>,
    names: &mut SchemaNames,
    levels: u32,
    key_kind: Kind,
    kind: Kind,
    tree: &Value,
) -> Result<Option<Held>, JsonError>
    requires { AreNamesIn reading.now.schema.now names.old }
    ensures told { IsResultOf (option_map val_of) (map_answer key_kind kind (view tree.now)
        (parts_in reading.now.schema.now reading.now.allow (view tree.now))) result }
    ensures names { AreNamesIn reading.now.schema.now names.new }
{
    let members = match map_members(kind, tree) {
        Ok(members) => members,
        Err(rule) => return Err(at_tree(reading.alloc, rule)),
    };
    let mut entries = MapEntries::new(reading.alloc);
    for (key, member) in members.iter() {
        if let Err(error) = read_entry(
            reading,
            names,
            levels,
            key_kind,
            kind,
            key.as_str(),
            member,
            &mut entries,
        ) {
            drop(entries);
            return Err(error);
        }
    }
    map_held(reading.alloc, entries)
}

/// What one key of an object of entries adds.
#[cycle(tree)]
fn read_entry(
    reading: &Reading<'_>,
    names: &mut SchemaNames,
    levels: u32,
    key_kind: Kind,
    kind: Kind,
    key: &str,
    tree: &Value,
    entries: &mut MapEntries,
) -> Result<(), JsonError>
    requires { AreNamesIn reading.now.schema.now names.old }
    ensures told { IsResultOf (λ u. entries_of entries.new) (at_step (to_key key.now) (entry_turn key_kind kind key.now
        (answers reading.now.schema.now reading.now.allow (view tree.now)) (entries_of entries.old))) result }
    ensures names { AreNamesIn reading.now.schema.now names.new }
{
    match fresh_key(reading.alloc, key_kind, key, entries) {
        Ok(map_key) => {
            let read = read_value(reading, names, levels, kind, tree);
            add_pair(reading, key, entries, map_key, read)
        }
        Err(rule) => Err(at_key(reading.alloc, key, rule)),
    }
}

/// The content that a tree stands for, as a message of the type at a place of the schema; a place outside the schema is a type
/// without fields.
///
/// An error tells the first fault of the tree, in the order of places, or want of memory. The stack is memory too: where messages nest
/// more than 1,024 levels deep, that is the answer.
pub fn read_content(
    alloc: Global,
    schema: &Schema,
    place: usize,
    tree: &Value,
    options: &DeserializeOptions,
) -> Result<Contents, JsonError>
    ensures stands { IfOk result (λ c. Stands schema.now place (not options.now.deny_unknown_fields) (view tree.now) (content_of c)) }
    ensures fault { IfErr result (λ e. (e.kind ≡ OutOfMemory) ⊎ FirstJsonFault schema.now place (not options.now.deny_unknown_fields)
        (view tree.now) e.place e.kind) }
    ensures refused { IfErr result (λ e. (e.kind ≡ OutOfMemory) ⊎ (content_for schema.now place (not options.now.deny_unknown_fields)
        (view tree.now) ≡ None)) }
{
    read_content_by(
        &mut SchemaNames::new(alloc, schema),
        alloc,
        schema,
        place,
        tree,
        options,
    )
}

/// `read_content` by the names of the schema that were looked up before, for callers that read many trees. Names that the tree asks
/// for are kept for the next one.
pub fn read_content_by(
    names: &mut SchemaNames,
    alloc: Global,
    schema: &Schema,
    place: usize,
    tree: &Value,
    options: &DeserializeOptions,
) -> Result<Contents, JsonError>
    requires { AreNamesIn schema.now names.old }
    ensures stands { IfOk result (λ c. Stands schema.now place (not options.now.deny_unknown_fields) (view tree.now) (content_of c)) }
    ensures fault { IfErr result (λ e. (e.kind ≡ OutOfMemory) ⊎ FirstJsonFault schema.now place (not options.now.deny_unknown_fields)
        (view tree.now) e.place e.kind) }
    ensures refused { IfErr result (λ e. (e.kind ≡ OutOfMemory) ⊎ (content_for schema.now place (not options.now.deny_unknown_fields)
        (view tree.now) ≡ None)) }
    ensures names { AreNamesIn schema.now names.new }
{
    // What the proof cites: a schema is proper, and what the answers are.
    schema.shape();
    fault_is_first();
    message_is_told();
    let reading = Reading {
        alloc,
        schema,
        allow: !options.deny_unknown_fields,
    };
    read_message(&reading, names, LEVELS, place, tree)
}
