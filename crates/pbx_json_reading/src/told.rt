// What follows from what was read inside a tree: each function hands on the fault, or makes its own of the value.
ghost use Rattle.std.specs.Prelude.{◌≡◌, false, Ok, option_map, map, if◌then◌else◌, Option};
ghost use Rattle.serde_json.specs.View.{view};
ghost use Rattle.pbx_content.specs.Content.{Content, Val};
ghost use Rattle.pbx_content.specs.Meaning.{shown as shown_of};
ghost use Rattle.pbx_content_codec.specs.View.{content_of, val_of, key_of};
ghost use Rattle.pbx_json_meaning.specs.Asked.{has_presence};
ghost use Rattle.pbx_json_meaning.specs.Scalars.{scalar_read};
ghost use Rattle.pbx_json_meaning.specs.declared.kind.JsonKind.TheVariants.{UnknownField as NoField};
ghost use Rattle.pbx_json_meaning.specs.declared.place.Step.TheVariants.{Key as to_key, Index as to_index};
ghost use Rattle.pbx_json_schema.specs.Index.{AreNamesIn};
ghost use Rattle.pbx_json_walk.specs.Walk.{Answer, answer_map, and_then, as_value, at_step, here, or_here, message_found, noted};
ghost use Rattle.pbx_json_walk.specs.Walk.{with_present, with_entry};
ghost use Rattle.pbx_json_reading.specs.States.{state_of, entries_of};
ghost use Rattle.pbx_json_reading.specs.Holders.{held_in, packed_by};
ghost use Rattle.pbx_json_reading.specs.Objects.{is_passed as is_passed_by};
ghost use Rattle.pbx_json_reading.specs.Results.{IsResultOf};

use crate::reading::Reading;
use crate::{
    Holder, MapEntries, ObjectState, Packing, add_entry, add_value, at_key, at_tree, below_index,
    below_key, hold, is_type_key, note_at, pack, read_scalar, unless_field_default,
};
use pbx_content::{FieldShape, Kind};
use pbx_content_codec::{Contents, Held, MapKey};
use pbx_json_meaning::{JsonError, JsonKind};
use pbx_json_schema::SchemaNames;
use pbx_wire::List;
use serde_json::Value;

/// A message as a value.
pub(crate) fn as_held(read: Result<Contents, JsonError>) -> Result<Option<Held>, JsonError>
    ensures { (a : Answer Content) → IsResultOf content_of a read → IsResultOf (option_map val_of) (answer_map as_value a) result }
{
    match read {
        Ok(contents) => Ok(Some(Held::Message(contents))),
        Err(error) => Err(error),
    }
}

/// What a tree is as one value of a kind that is no message.
pub(crate) fn read_plain(
    reading: &Reading<'_>,
    names: &mut SchemaNames,
    kind: Kind,
    tree: &Value,
) -> Result<Option<Held>, JsonError>
    requires { AreNamesIn reading.now.schema.now names.old }
    ensures told { IsResultOf (option_map val_of) (or_here (scalar_read reading.now.schema.now reading.now.allow kind (view tree.now))) result }
    ensures names { AreNamesIn reading.now.schema.now names.new }
{
    match read_scalar(
        reading.alloc,
        reading.schema,
        names,
        reading.allow,
        kind,
        tree,
    ) {
        Ok(held) => Ok(held),
        Err(rule) => Err(at_tree(reading.alloc, rule)),
    }
}

/// A list or a map as the message that holds it.
pub(crate) fn held_by(
    reading: &Reading<'_>,
    kind: Kind,
    holder: Holder,
    read: Result<Option<Held>, JsonError>,
) -> Result<Contents, JsonError>
    ensures { (a : Answer (Option Val)) → IsResultOf (option_map val_of) a read
        → IsResultOf content_of (answer_map (held_in reading.now.schema.now holder) (answer_map (shown_of reading.now.schema.now false kind) a)) result }
{
    match read {
        Ok(held) => hold(reading.alloc, reading.schema, kind, holder, held),
        Err(error) => Err(error),
    }
}

/// The payload of an `Any` as the `Any`.
pub(crate) fn packed(
    reading: &Reading<'_>,
    packing: Packing<'_>,
    read: Result<Contents, JsonError>,
) -> Result<Contents, JsonError>
    ensures { (a : Answer Content) → IsResultOf content_of a read
        → IsResultOf content_of (answer_map (packed_by reading.now.schema.now packing.entry) a) result }
{
    match read {
        Ok(contents) => pack(reading.alloc, reading.schema, packing, contents),
        Err(error) => Err(error),
    }
}

/// The values of a field, of which defaults are absent where it has no presence.
pub(crate) fn shown_read(
    reading: &Reading<'_>,
    field: &FieldShape,
    read: Result<Option<Held>, JsonError>,
) -> Result<Option<Held>, JsonError>
    ensures { (a : Answer (Option Val)) → IsResultOf (option_map val_of) a read
        → IsResultOf (option_map val_of) (answer_map (shown_of reading.now.schema.now (has_presence field.now) field.now.kind) a) result }
{
    match read {
        Ok(held) => Ok(unless_field_default(reading.schema, field, held)),
        Err(error) => Err(error),
    }
}

/// Whether a key is passed over, as that of the type is where a payload stands beside it.
pub(crate) fn is_passed(beside: bool, key: &str) -> bool
    ensures { result ≡ is_passed_by beside key.now }
{
    beside && is_type_key(key)
}

/// With what was read for the field that a key names.
pub(crate) fn note_read(
    reading: &Reading<'_>,
    key: &str,
    state: &mut ObjectState,
    field: &FieldShape,
    read: Result<Option<Held>, JsonError>,
) -> Result<(), JsonError>
    ensures { (a : Answer (Option Val)) → IsResultOf (option_map val_of) a read
        → IsResultOf (λ u. state_of state.new) (at_step (to_key key.now) (and_then a (noted field.now (state_of state.old)))) result }
{
    match read {
        Ok(held) => note_at(reading.alloc, key, state, field, held),
        Err(error) => Err(below_key(reading.alloc, key, error)),
    }
}

/// Skips a key that names no part of a payload, or tells that it names none.
pub(crate) fn skip_or_refuse(reading: &Reading<'_>, skips: bool, key: &str) -> Result<(), JsonError>
    ensures { (o : Option Content) → IsResultOf (λ u. o) (at_step (to_key key.now) (if skips then Ok o else here NoField)) result }
{
    if skips {
        Ok(())
    } else {
        Err(at_key(reading.alloc, key, JsonKind::UnknownField))
    }
}

/// With what was read as the payload.
pub(crate) fn note_payload(
    reading: &Reading<'_>,
    key: &str,
    found: &mut Option<Contents>,
    read: Result<Contents, JsonError>,
) -> Result<(), JsonError>
    ensures { (a : Answer Content) → IsResultOf content_of a read
        → IsResultOf (λ u. option_map content_of found.new) (at_step (to_key key.now) (answer_map message_found (answer_map as_value a))) result }
{
    match read {
        Ok(contents) => {
            *found = Some(contents);
            Ok(())
        }
        Err(error) => Err(below_key(reading.alloc, key, error)),
    }
}

/// With what was read as an element.
pub(crate) fn add_item(
    reading: &Reading<'_>,
    index: usize,
    values: &mut List<Held>,
    read: Result<Option<Held>, JsonError>,
) -> Result<(), JsonError>
    ensures { (a : Answer (Option Val)) → IsResultOf (option_map val_of) a read
        → IsResultOf (λ u. map val_of values.new) (at_step (to_index index) (answer_map (λ o. with_present o (map val_of values.old)) a)) result }
{
    match read {
        Ok(held) => add_value(reading.alloc, values, held),
        Err(error) => Err(below_index(reading.alloc, index, error)),
    }
}

/// With what was read as the value of a key.
pub(crate) fn add_pair(
    reading: &Reading<'_>,
    key: &str,
    entries: &mut MapEntries,
    map_key: MapKey,
    read: Result<Option<Held>, JsonError>,
) -> Result<(), JsonError>
    ensures { (a : Answer (Option Val)) → IsResultOf (option_map val_of) a read
        → IsResultOf (λ u. entries_of entries.new) (at_step (to_key key.now) (answer_map (with_entry (key_of map_key) (entries_of entries.old)) a)) result }
{
    match read {
        Ok(held) => add_entry(reading.alloc, entries, map_key, held),
        Err(error) => {
            drop(map_key);
            Err(below_key(reading.alloc, key, error))
        }
    }
}
