// What trees hold, as values.
ghost use Rattle.std.specs.Prelude.{◌≡◌, map, false, option_map, IfOk, IfSome};
ghost use Rattle.std.specs.List.{AllByRecursion};
ghost use Rattle.pbx_content.specs.Content.{number, number_key, message};
ghost use Rattle.pbx_content.specs.Shape.{is_float};
ghost use Rattle.pbx_content_codec.specs.View.{val_of, key_of, pair_of, content_of};
ghost use Rattle.pbx_link_meaning.specs.Shapes.{shape_of};
ghost use Rattle.pbx_message_laws.specs.Defaults.{default_of, value_or_default as value_or_default_of};
ghost use Rattle.pbx_message_laws.specs.Pools.{IsReadable};
ghost use Rattle.pbx_message_laws.specs.Settable.{AscendByKey, IsSettable, IsSettableBy};
ghost use Rattle.pbx_message_dynamic.specs.Values.{variant_of, messages};
ghost use Rattle.pbx_message_dynamic.specs.Typed.{IsTyped};
ghost use Rattle.pbx_message_dynamic.specs.Given.{IsGivenNumber, IsGiven, IsGivenList, IsGivenKey, IsGivenMap, IsFieldGiven, HoldsSound, HoldsPair};

use crate::KeyMap;
use crate::defaults::{default_held, default_is_readable};
use crate::message::DynamicMessage;
use crate::typed::ValueType;
use crate::value::Value;
use pbx_content::{Cardinality, FieldShape, Kind, Schema};
use pbx_content_codec::{Contents, Held, MapKey, Pair};
use pbx_message_laws::items_are_of_kinds;
use pbx_wire::{List, NoMemory};
use std::alloc::Global;

/// The number that is held, of whatever width.
fn whole(held: &Held) -> Option<i128>
    ensures { IfSome result (λ z. val_of held.now ≡ number z) }
{
    match held {
        Held::I32(value) => Some(i128::from(*value)),
        Held::I64(value) => Some(i128::from(*value)),
        Held::U32(value) => Some(i128::from(*value)),
        Held::U64(value) => Some(i128::from(*value)),
        _ => None,
    }
}

/// The number as a value of the kind, where it is one of its range.
fn number_value(kind: Kind, whole: i128) -> Option<Value>
    ensures { IfSome result (IsGivenNumber kind whole) }
{
    match kind {
        Kind::Int32 | Kind::Sint32 | Kind::Sfixed32 => Some(Value::I32(i32::try_from(whole).ok()?)),
        Kind::Int64 | Kind::Sint64 | Kind::Sfixed64 => Some(Value::I64(i64::try_from(whole).ok()?)),
        Kind::Uint32 | Kind::Fixed32 => Some(Value::U32(u32::try_from(whole).ok()?)),
        Kind::Uint64 | Kind::Fixed64 => Some(Value::U64(u64::try_from(whole).ok()?)),
        Kind::Enum(_) => Some(Value::EnumNumber(i32::try_from(whole).ok()?)),
        _ => None,
    }
}

/// The message that is held, as a value of the kind's message type.
fn message_value(value_type: &ValueType, tree: &Contents, alloc: Global) -> Result<Value, NoMemory>
    requires typed { IsTyped value_type.now }
    requires variant { variant_of value_type.now.kind ≡ messages }
    requires sound { HoldsSound (shape_of value_type.now.holder.pool) value_type.now.kind (message (content_of tree.now)) }
    ensures { IfOk result (IsGiven value_type.now.holder.pool value_type.now.kind (message (content_of tree.now))) }
{
    match &value_type.message {
        Some(desc) => match DynamicMessage::with_tree(alloc, desc.copy(), tree.copy(alloc)?) {
            Some(message) => Ok(Value::Message(message)),
            None => Err(NoMemory),
        },
        None => Err(NoMemory),
    }
}

/// What is held, as a value of the kind. A message that may hold it holds nothing of another kind: only want of memory
/// is an error.
fn value_of(value_type: &ValueType, held: &Held, alloc: Global) -> Result<Value, NoMemory>
    requires typed { IsTyped value_type.now }
    requires sound { HoldsSound (shape_of value_type.now.holder.pool) value_type.now.kind (val_of held.now) }
    ensures { IfOk result (IsGiven value_type.now.holder.pool value_type.now.kind (val_of held.now)) }
{
    match (value_type.kind, held) {
        (Kind::Bool, Held::Bool(value)) => Ok(Value::Bool(*value)),
        (Kind::String, Held::Text(text)) => Ok(Value::String(text.copy(alloc)?)),
        (Kind::Bytes, Held::Bytes(bytes)) => Ok(Value::Bytes(bytes.clone()?)),
        (Kind::Message(_), Held::Message(tree)) => message_value(value_type, tree, alloc),
        (kind, _) => match whole(held) {
            Some(number) => number_value(kind, number).ok_or(NoMemory),
            None => Err(NoMemory),
        },
    }
}

/// What is held in a list, as values of the kind.
fn list_value(value_type: &ValueType, list: &List<Held>, alloc: Global) -> Result<Value, NoMemory>
    requires typed { IsTyped value_type.now }
    requires sound { AllByRecursion (HoldsSound (shape_of value_type.now.holder.pool) value_type.now.kind) (map val_of list.now) }
    ensures { IfOk result (IsGivenList value_type.now.holder.pool value_type.now.kind (map val_of list.now)) }
{
    let mut values = List::with_capacity(alloc, list.len())?;
    for held in list.as_slice() {
        values.add(value_of(value_type, held, alloc)?)?;
    }
    Ok(Value::List(values))
}

/// The number that a key is, of whatever width.
fn whole_key(key: &MapKey) -> Option<i128>
    ensures { IfSome result (λ z. key_of key.now ≡ number_key z) }
{
    match key {
        MapKey::I32(value) => Some(i128::from(*value)),
        MapKey::I64(value) => Some(i128::from(*value)),
        MapKey::U32(value) => Some(i128::from(*value)),
        MapKey::U64(value) => Some(i128::from(*value)),
        _ => None,
    }
}

/// The number as a key of the kind, where it is one of its range.
fn number_as_key(kind: Kind, whole: i128) -> Option<MapKey>
    ensures { IfSome result (IsGivenKey kind (number_key whole)) }
{
    match kind {
        Kind::Int32 | Kind::Sint32 | Kind::Sfixed32 => Some(MapKey::I32(i32::try_from(
            whole,
        ).ok()?)),
        Kind::Int64 | Kind::Sint64 | Kind::Sfixed64 => Some(MapKey::I64(i64::try_from(
            whole,
        ).ok()?)),
        Kind::Uint32 | Kind::Fixed32 => Some(MapKey::U32(u32::try_from(whole).ok()?)),
        Kind::Uint64 | Kind::Fixed64 => Some(MapKey::U64(u64::try_from(whole).ok()?)),
        _ => None,
    }
}

/// The key as one of the kind, which it is.
fn key_value(kind: Kind, key: &MapKey, alloc: Global) -> Result<MapKey, NoMemory>
    ensures { IfOk result (IsGivenKey kind (key_of key.now)) }
{
    match (kind, key) {
        (Kind::Bool, MapKey::Bool(value)) => Ok(MapKey::Bool(*value)),
        (Kind::String, MapKey::String(text)) => Ok(MapKey::String(text.copy(alloc)?)),
        (kind, _) => match whole_key(key) {
            Some(number) => number_as_key(kind, number).ok_or(NoMemory),
            None => Err(NoMemory),
        },
    }
}

/// What is held in a map, as values of the kind under keys of theirs.
fn map_value(
    value_type: &ValueType,
    key_kind: Kind,
    pairs: &List<Pair>,
    alloc: Global,
) -> Result<Value, NoMemory>
    requires typed { IsTyped value_type.now }
    requires sound { AllByRecursion (HoldsPair (shape_of value_type.now.holder.pool) value_type.now.kind) (map pair_of pairs.now) }
    requires order { AscendByKey (map pair_of pairs.now) }
    ensures { IfOk result (IsGivenMap value_type.now.holder.pool key_kind value_type.now.kind (map pair_of pairs.now)) }
{
    let mut values = KeyMap::new(alloc);
    for pair in pairs.as_slice() {
        let key = key_value(key_kind, &pair.key, alloc)?;
        let value = value_of(value_type, &pair.held, alloc)?;
        match values.insert(key, value) {
            Ok(()) => {}
            Err(_refused) => return Err(NoMemory),
        }
    }
    Ok(Value::Map(values))
}

/// What is held, as a value of the kind and the cardinality.
fn field_value(
    value_type: &ValueType,
    cardinality: Cardinality,
    held: &Held,
    alloc: Global,
) -> Result<Value, NoMemory>
    requires typed { IsTyped value_type.now }
    requires sound { IsSettableBy (shape_of value_type.now.holder.pool) cardinality value_type.now.kind (val_of held.now) }
    ensures { IfOk result (IsFieldGiven value_type.now.holder.pool cardinality value_type.now.kind (val_of held.now)) }
{
    items_are_of_kinds();
    match cardinality {
        Cardinality::Singular => value_of(value_type, held, alloc),
        Cardinality::Repeated => match held {
            Held::Many(list) => list_value(value_type, list, alloc),
            _ => Err(NoMemory),
        },
        Cardinality::Map(key_kind) => match held {
            Held::Pairs(pairs) => map_value(value_type, key_kind, pairs, alloc),
            _ => Err(NoMemory),
        },
    }
}

/// The field's default as a value.
fn default_value(
    value_type: &ValueType,
    schema: &Schema,
    field: &FieldShape,
    alloc: Global,
) -> Result<Value, NoMemory>
    requires typed { IsTyped value_type.now }
    requires kind { value_type.now.kind ≡ field.now.kind }
    requires shape { schema.now ≡ shape_of value_type.now.holder.pool }
    requires plain { is_float field.now.kind ≡ false }
    requires settable { IsReadable schema.now field.now → IsSettable schema.now field.now (default_of schema.now field.now) }
    ensures { IfOk result (IsFieldGiven value_type.now.holder.pool field.now.cardinality field.now.kind (default_of schema.now field.now)) }
{
    default_is_readable(schema, field);
    let held = default_held(alloc, schema, field)?;
    field_value(value_type, field.cardinality, &held, alloc)
}

/// What is held for the field, as a value of its kind, or else its default.
pub(crate) fn value_or_default(
    value_type: &ValueType,
    schema: &Schema,
    field: &FieldShape,
    held: Option<&Held>,
    alloc: Global,
) -> Result<Value, NoMemory>
    requires typed { IsTyped value_type.now }
    requires kind { value_type.now.kind ≡ field.now.kind }
    requires shape { schema.now ≡ shape_of value_type.now.holder.pool }
    requires plain { is_float field.now.kind ≡ false }
    requires sound { IfSome held (λ held. IsSettable schema.now field.now (val_of held.now)) }
    requires settable { IsReadable schema.now field.now → IsSettable schema.now field.now (default_of schema.now field.now) }
    ensures { IfOk result (IsFieldGiven value_type.now.holder.pool field.now.cardinality field.now.kind
        (value_or_default_of schema.now field.now (option_map (λ held. val_of held.now) held.entry))) }
{
    match held {
        Some(held) => field_value(value_type, field.cardinality, held, alloc),
        None => default_value(value_type, schema, field, alloc),
    }
}
