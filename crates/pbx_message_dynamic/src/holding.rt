// Values as trees hold them.
ghost use Rattle.std.specs.Prelude.{◌≡◌, IfOk, IfErr};
ghost use Rattle.pbx_message_dynamic.specs.Typed.{IsTyped, IsHeldIf, IsNotHeld, IsListHeld, IsMapHeld, IsKeyHeldIf, IsPairHeldIf, IsFieldHeld, IsMessageHeldIf};
ghost use Rattle.pbx_message_dynamic.specs.Values.{IsOfCardinality, AreOfKind, AreEntriesOfKinds, variant_in, variant_in_key, variant_of, messages};
ghost use Rattle.pbx_message_dynamic.specs.Variants.{variant_number};
ghost use Rattle.pbx_message_dynamic.specs.declared.value.Value.{out-Value};

use crate::error::SetFieldError;
use crate::message::DynamicMessage;
use crate::typed::{ValueType, kind_variant};
use crate::value::{Value, ValueMap};
use pbx_content::{Cardinality, Kind};
use pbx_content_codec::{Held, MapKey, Pair};
use pbx_message_laws::{items_are_of_kinds, messages_are_placed};
use pbx_wire::List;
use std::alloc::Global;

/// The place of the variant of the value.
fn value_variant(value: &Value) -> u8
    ensures { result ≡ variant_number (variant_in (out-Value value.now)) }
{
    match value {
        Value::Bool(_) => 0,
        Value::I32(_) => 1,
        Value::I64(_) => 2,
        Value::U32(_) => 3,
        Value::U64(_) => 4,
        Value::String(_) => 5,
        Value::Bytes(_) => 6,
        Value::EnumNumber(_) => 7,
        Value::Message(_) => 8,
        Value::List(_) => 9,
        Value::Map(_) => 10,
    }
}

/// The place of the variant of the key.
fn key_variant(key: &MapKey) -> u8
    ensures { result ≡ variant_number (variant_in_key key.now) }
{
    match key {
        MapKey::Bool(_) => 0,
        MapKey::I32(_) => 1,
        MapKey::I64(_) => 2,
        MapKey::U32(_) => 3,
        MapKey::U64(_) => 4,
        MapKey::String(_) => 5,
    }
}

/// The key, where it is of the kind.
fn key_held(kind: Kind, key: MapKey) -> Option<MapKey>
    ensures { IsKeyHeldIf kind key result }
{
    if key_variant(&key) != kind_variant(kind) {
        return None;
    }
    match key {
        MapKey::Bool(value) => Some(MapKey::Bool(value)),
        MapKey::I32(value) => Some(MapKey::I32(value)),
        MapKey::I64(value) => Some(MapKey::I64(value)),
        MapKey::U32(value) => Some(MapKey::U32(value)),
        MapKey::U64(value) => Some(MapKey::U64(value)),
        MapKey::String(text) => {
            let _utf8 = text.as_str();
            Some(MapKey::String(text))
        }
    }
}

/// The message, where it is of the kind's message type.
fn message_held(value_type: &ValueType, message: DynamicMessage) -> Option<Held>
    requires typed { IsTyped value_type.now }
    requires variant { variant_of value_type.now.kind ≡ messages }
    ensures { IsMessageHeldIf value_type.now.holder.pool value_type.now.kind message result }
{
    messages_are_placed();
    let _pool = message.desc.parent_pool();
    match &value_type.message {
        Some(wanted) if message.desc.is_same(wanted) => Some(Held::Message(message.tree)),
        _ => None,
    }
}

/// The value, whose variant is that of the kind; none where it is a message of another type.
fn fitting_held(value_type: &ValueType, value: Value) -> Option<Held>
    requires typed { IsTyped value_type.now }
    requires variant { variant_in (out-Value value) ≡ variant_of value_type.now.kind }
    ensures { IsHeldIf value_type.now.holder.pool value_type.now.kind value result }
{
    match value {
        Value::Bool(value) => Some(Held::Bool(value)),
        Value::I32(value) => Some(Held::I32(value)),
        Value::I64(value) => Some(Held::I64(value)),
        Value::U32(value) => Some(Held::U32(value)),
        Value::U64(value) => Some(Held::U64(value)),
        Value::String(text) => {
            let _utf8 = text.as_str();
            Some(Held::Text(text))
        }
        Value::Bytes(bytes) => Some(Held::Bytes(bytes)),
        Value::EnumNumber(number) => Some(Held::I32(number)),
        Value::Message(message) => message_held(value_type, message),
        Value::List(_) => None,
        Value::Map(_) => None,
    }
}

/// The value, where it is of the kind.
pub(crate) fn held_of(value_type: &ValueType, value: Value) -> Option<Held>
    requires { IsTyped value_type.now }
    ensures { IsHeldIf value_type.now.holder.pool value_type.now.kind value result }
{
    if value_variant(&value) == kind_variant(value_type.kind) {
        fitting_held(value_type, value)
    } else {
        None
    }
}

/// The values of a list, where each is of the kind.
fn list_held(
    value_type: &ValueType,
    values: List<Value>,
    alloc: Global,
) -> Result<Held, SetFieldError>
    requires { IsTyped value_type.now }
    ensures ok { IfOk result (IsListHeld value_type.now.holder.pool value_type.now.kind values) }
    ensures err { IfErr result (IsNotHeld (AreOfKind value_type.now.holder.pool value_type.now.kind values)) }
{
    items_are_of_kinds();
    let mut list = List::with_capacity(alloc, values.len())?;
    for value in values.into_vec() {
        match held_of(value_type, value) {
            Some(held) => list.add(held)?,
            None => return Err(SetFieldError::InvalidType),
        }
    }
    Ok(Held::Many(list))
}

/// The key and the value as a pair, where each is of its kind.
fn pair_held(value_type: &ValueType, key_kind: Kind, key: MapKey, value: Value) -> Option<Pair>
    requires { IsTyped value_type.now }
    ensures { IsPairHeldIf value_type.now.holder.pool key_kind value_type.now.kind (key, value) result }
{
    match key_held(key_kind, key) {
        Some(key) => match held_of(value_type, value) {
            Some(held) => Some(Pair { key, held }),
            None => None,
        },
        None => {
            drop(value);
            None
        }
    }
}

/// The pairs of a map, where each key and each value is of its kind.
fn map_held(
    value_type: &ValueType,
    key_kind: Kind,
    map: ValueMap,
    alloc: Global,
) -> Result<Held, SetFieldError>
    requires { IsTyped value_type.now }
    ensures ok { IfOk result (IsMapHeld value_type.now.holder.pool key_kind value_type.now.kind map) }
    ensures err { IfErr result (IsNotHeld (AreEntriesOfKinds value_type.now.holder.pool key_kind value_type.now.kind map)) }
{
    items_are_of_kinds();
    let mut pairs = List::new(alloc);
    for (key, value) in map.into_entries() {
        match pair_held(value_type, key_kind, key, value) {
            Some(pair) => pairs.add(pair)?,
            None => return Err(SetFieldError::InvalidType),
        }
    }
    Ok(Held::Pairs(pairs))
}

/// The value, where a field of the kind and the cardinality may be set to it.
pub(crate) fn field_held(
    value_type: &ValueType,
    cardinality: Cardinality,
    value: Value,
    alloc: Global,
) -> Result<Held, SetFieldError>
    requires { IsTyped value_type.now }
    ensures ok { IfOk result (IsFieldHeld value_type.now.holder.pool cardinality value_type.now.kind value) }
    ensures err { IfErr result (IsNotHeld (IsOfCardinality value_type.now.holder.pool cardinality value_type.now.kind value)) }
{
    match cardinality {
        Cardinality::Singular => match held_of(value_type, value) {
            Some(held) => Ok(held),
            None => Err(SetFieldError::InvalidType),
        },
        Cardinality::Repeated => match value {
            Value::List(values) => list_held(value_type, values, alloc),
            _ => Err(SetFieldError::InvalidType),
        },
        Cardinality::Map(key_kind) => match value {
            Value::Map(map) => map_held(value_type, key_kind, map, alloc),
            _ => Err(SetFieldError::InvalidType),
        },
    }
}
