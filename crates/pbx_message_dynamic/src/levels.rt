// How deep the messages nest that a caller makes.
ghost use Rattle.std.specs.Prelude.{◌+◌, ◌≤◌, map, IfSome};
ghost use Rattle.pbx_content.specs.Content.{vals_of, pairs_of};
ghost use Rattle.pbx_content.specs.Sound.{depth as depth_of, val_depth, vals_depth, pairs_depth};
ghost use Rattle.pbx_message_dynamic.specs.Typed.{entry_of_value};
ghost use Rattle.pbx_message_dynamic.specs.Values.{val_of_value};

use crate::message::DynamicMessage;
use crate::value::Value;
use pbx_content_codec::{MapKey, depth};

/// How many levels stand below the top of a message at most: each takes stack where the message is walked, copied or let go.
pub(crate) const MOST_LEVELS: u32 = 1024;

/// How many levels stand below the top of what bytes mean at most: they may have 100 themselves, and an entry of a map at the
/// last of these may lack its message, which is there as a default.
pub(crate) const DECODED_LEVELS: u32 = 101;

/// The levels of a message as a value, or a greater number of at most `room`; None where it has more than `room`. They are counted
/// only where the number that the message carries is too great, as it may be after fields were cleared.
fn message_levels(message: &DynamicMessage, room: u32) -> Option<u32>
    ensures { IfSome result (λ levels. (depth_of message.now.content + 1 ≤ levels) × (levels ≤ room)) }
{
    let below = if message.levels < room {
        message.levels
    } else {
        depth(&message.tree)
    };
    if below < room { Some(below + 1) } else { None }
}

/// The same of a value of a list or a map. A list and a map are none.
fn item_levels(value: &Value, room: u32) -> Option<u32>
    ensures { IfSome result (λ levels. (val_depth (val_of_value value.now) ≤ levels) × (levels ≤ room)) }
{
    match value {
        Value::Message(message) => message_levels(message, room),
        Value::List(_) | Value::Map(_) => None,
        _ => Some(0),
    }
}

/// The same of the deepest value of a list.
fn list_levels(values: &[Value]) -> Option<u32>
    ensures { IfSome result (λ levels. (vals_depth (vals_of (map val_of_value values.now)) ≤ levels) × (levels ≤ 1024)) }
{
    let mut deepest = 0;
    for value in values {
        match item_levels(value, MOST_LEVELS) {
            Some(levels) => deepest = levels.max(deepest),
            None => return None,
        }
    }
    Some(deepest)
}

/// The same of the deepest entry of a map, each of which is one level.
fn map_levels(entries: &[(MapKey, Value)]) -> Option<u32>
    ensures { IfSome result (λ levels. (pairs_depth (pairs_of (map entry_of_value entries.now)) ≤ levels) × (levels ≤ 1024)) }
{
    let mut deepest = 0;
    for entry in entries {
        match item_levels(&entry.1, MOST_LEVELS - 1) {
            Some(levels) => deepest = (levels + 1).max(deepest),
            None => return None,
        }
    }
    Some(deepest)
}

/// The levels of the value, or a greater number of at most 1,024; None where it has more, and where it is of no field's kind since
/// lists or maps stand in lists or maps.
pub(crate) fn value_levels(value: &Value) -> Option<u32>
    ensures { IfSome result (λ levels. (val_depth (val_of_value value.now) ≤ levels) × (levels ≤ 1024)) }
{
    match value {
        Value::List(values) => list_levels(values.as_slice()),
        Value::Map(entries) => map_levels(entries.as_slice()),
        _ => item_levels(value, MOST_LEVELS),
    }
}
