ghost use Rattle.std.specs.Prelude.{◌≡◌, None, [], IfOk};

use crate::TextMap;
use pbx_wire::{List, NoMemory, Recs, Text, copy_recs};
use std::alloc::Global;

/// Values under names, `google.protobuf.Struct`.
#[cycle(tree)]
#[derive(Drop)]
pub struct Struct {
    /// The values, in the order of their names.
    pub fields: TextMap<Value>,
    /// The records of numbers that are no field of this one, in order of arrival.
    pub unknown: Recs,
}

/// A value as JSON has them, `google.protobuf.Value`. All fields are members of one oneof: of several that are present,
/// the one with the greatest number counts.
///
/// Its numbers are floats, which no field of this record holds: records of `number_value` are unknown ones.
#[cycle(tree)]
#[derive(Drop)]
pub struct Value {
    /// Null, as a number of `google.protobuf.NullValue`.
    pub null_value: Option<i32>,
    /// A text.
    pub string_value: Option<Text>,
    /// A truth value.
    pub bool_value: Option<bool>,
    /// An object.
    pub struct_value: Option<Struct>,
    /// An array.
    pub list_value: Option<ListValue>,
    /// The records of numbers that are no field of this one, in order of arrival.
    pub unknown: Recs,
}

/// Values in a row, `google.protobuf.ListValue`.
#[cycle(tree)]
#[derive(Drop)]
pub struct ListValue {
    /// The values, in their order.
    pub values: List<Value>,
    /// The records of numbers that are no field of this one, in order of arrival.
    pub unknown: Recs,
}

impl Struct {
    ghost use Rattle.pbx_types.specs.declared.tree.Struct.{roll-Struct};

    /// The record with each field absent; takes no memory.
    pub fn new(alloc: Global) -> Struct
        ensures { result ≡ roll-Struct (record { fields = []; unknown = [] }) }
    {
        Struct {
            fields: TextMap::new(alloc),
            unknown: Recs::new(alloc),
        }
    }

    /// An equal record. The only error is want of memory.
    pub fn copy(&self, alloc: Global) -> Result<Struct, NoMemory>
        ensures { IfOk result (λ copy. copy ≡ self.now) }
    {
        copy_struct(self, alloc)
    }
}

impl Value {
    ghost use Rattle.pbx_types.specs.declared.tree.Value.{roll-Value};

    /// The record with each field absent; takes no memory.
    pub fn new(alloc: Global) -> Value
        ensures { result ≡ roll-Value (record {
          null_value = None;
          string_value = None;
          bool_value = None;
          struct_value = None;
          list_value = None;
          unknown = [];
        }) }
    {
        Value {
            null_value: None,
            string_value: None,
            bool_value: None,
            struct_value: None,
            list_value: None,
            unknown: Recs::new(alloc),
        }
    }

    /// An equal record. The only error is want of memory.
    pub fn copy(&self, alloc: Global) -> Result<Value, NoMemory>
        ensures { IfOk result (λ copy. copy ≡ self.now) }
    {
        copy_value(self, alloc)
    }
}

impl ListValue {
    ghost use Rattle.pbx_types.specs.declared.tree.ListValue.{roll-ListValue};

    /// The record with each field absent; takes no memory.
    pub fn new(alloc: Global) -> ListValue
        ensures { result ≡ roll-ListValue (record { values = []; unknown = [] }) }
    {
        ListValue {
            values: List::new(alloc),
            unknown: Recs::new(alloc),
        }
    }

    /// An equal record. The only error is want of memory.
    pub fn copy(&self, alloc: Global) -> Result<ListValue, NoMemory>
        ensures { IfOk result (λ copy. copy ≡ self.now) }
    {
        copy_list(self, alloc)
    }
}

/// An equal text, if there is one.
fn copied_text(text: &Option<Text>, alloc: Global) -> Result<Option<Text>, NoMemory>
    ensures { IfOk result (λ copy. copy ≡ text.now) }
{
    match text {
        Some(text) => Ok(Some(text.copy(alloc)?)),
        None => Ok(None),
    }
}

#[cycle(copy)]
fn copy_struct(from: &Struct, alloc: Global) -> Result<Struct, NoMemory>
    ensures { IfOk result (λ copy. copy ≡ from.now) }
{
    Ok(Struct {
        fields: copy_fields(&from.fields, alloc)?,
        unknown: copy_recs(&from.unknown, alloc)?,
    })
}

#[cycle(copy)]
fn copy_fields(fields: &TextMap<Value>, alloc: Global) -> Result<TextMap<Value>, NoMemory>
    ensures { IfOk result (λ copies. copies ≡ fields.now) }
{
    let mut copies = TextMap::new(alloc);
    for field in fields.as_slice() {
        let name = field.0.copy(alloc)?;
        copies.add(name, copy_value(&field.1, alloc)?)?;
    }
    Ok(copies)
}

#[cycle(copy)]
fn copy_value(from: &Value, alloc: Global) -> Result<Value, NoMemory>
    ensures { IfOk result (λ copy. copy ≡ from.now) }
{
    let struct_value = match &from.struct_value {
        Some(value) => Some(copy_struct(value, alloc)?),
        None => None,
    };
    let list_value = match &from.list_value {
        Some(value) => Some(copy_list(value, alloc)?),
        None => None,
    };
    Ok(Value {
        null_value: from.null_value,
        string_value: copied_text(&from.string_value, alloc)?,
        bool_value: from.bool_value,
        struct_value,
        list_value,
        unknown: copy_recs(&from.unknown, alloc)?,
    })
}

#[cycle(copy)]
fn copy_list(from: &ListValue, alloc: Global) -> Result<ListValue, NoMemory>
    ensures { IfOk result (λ copy. copy ≡ from.now) }
{
    Ok(ListValue {
        values: copy_values(&from.values, alloc)?,
        unknown: copy_recs(&from.unknown, alloc)?,
    })
}

#[cycle(copy)]
fn copy_values(values: &List<Value>, alloc: Global) -> Result<List<Value>, NoMemory>
    ensures { IfOk result (λ copies. copies ≡ values.now) }
{
    let mut copies = List::with_capacity(alloc, values.len())?;
    for value in values.as_slice() {
        copies.add(copy_value(value, alloc)?)?;
    }
    Ok(copies)
}
