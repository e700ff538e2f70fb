// What one key or element adds, once its tree is read.
ghost use Rattle.std.specs.Prelude.{◌≡◌, Ok, OnOk, IfOk, IfErr, option_map, map};
ghost use Rattle.pbx_content_codec.specs.View.{val_of, key_of};
ghost use Rattle.pbx_json_meaning.specs.declared.kind.JsonKind.TheVariants.{NoMemory as OutOfMemory};
ghost use Rattle.pbx_json_meaning.specs.declared.place.Step.TheVariants.{Key as to_key};
ghost use Rattle.pbx_json_walk.specs.Walk.{IsFaultOf, at_step, noted, with_present, with_entry, map_value};
ghost use Rattle.pbx_json_reading.specs.States.{state_of, entries_of};

use crate::entries::MapEntries;
use crate::fault::{at_tree, below_key};
use crate::state::ObjectState;
use pbx_content::FieldShape;
use pbx_content_codec::{Held, MapKey};
use pbx_json_meaning::{JsonError, JsonKind};
use pbx_wire::List;
use std::alloc::Global;

/// With what was read for the field that a key names.
pub(crate) fn note_at(
    alloc: Global,
    key: &str,
    state: &mut ObjectState,
    field: &FieldShape,
    held: Option<Held>,
) -> Result<(), JsonError>
    ensures ok { OnOk result (at_step (to_key key.now) (noted field.now (state_of state.old) (option_map val_of held)) ≡ Ok (state_of state.new)) }
    ensures err { IfErr result (λ e. IsFaultOf (at_step (to_key key.now) (noted field.now (state_of state.old) (option_map val_of held))) e) }
{
    match state.note(alloc, field, held) {
        Ok(()) => Ok(()),
        Err(error) => Err(below_key(alloc, key, error)),
    }
}

/// With an element, if it was not dropped.
pub(crate) fn add_value(
    alloc: Global,
    values: &mut List<Held>,
    held: Option<Held>,
) -> Result<(), JsonError>
    ensures ok { OnOk result (with_present (option_map val_of held) (map val_of values.old) ≡ map val_of values.new) }
    ensures err { IfErr result (λ e. e.kind ≡ OutOfMemory) }
{
    match held {
        Some(held) => match values.add(held) {
            Ok(()) => Ok(()),
            Err(_) => Err(at_tree(alloc, JsonKind::NoMemory)),
        },
        None => Ok(()),
    }
}

/// With an entry.
pub(crate) fn add_entry(
    alloc: Global,
    entries: &mut MapEntries,
    key: MapKey,
    held: Option<Held>,
) -> Result<(), JsonError>
    ensures ok { OnOk result (entries_of entries.new ≡ with_entry (key_of key) (entries_of entries.old) (option_map val_of held)) }
    ensures err { IfErr result (λ e. e.kind ≡ OutOfMemory) }
{
    match entries.add(key, held) {
        Ok(()) => Ok(()),
        Err(_) => Err(at_tree(alloc, JsonKind::NoMemory)),
    }
}

/// The entries as a value.
pub(crate) fn map_held(alloc: Global, entries: MapEntries) -> Result<Option<Held>, JsonError>
    ensures ok { IfOk result (λ r. option_map val_of r ≡ map_value (entries_of entries)) }
    ensures err { IfErr result (λ e. e.kind ≡ OutOfMemory) }
{
    match entries.into_value(alloc) {
        Ok(held) => Ok(Some(held)),
        Err(_) => Err(at_tree(alloc, JsonKind::NoMemory)),
    }
}
