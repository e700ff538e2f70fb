use crate::KeyMap;
use crate::message::DynamicMessage;
use bytes::Bytes;
use pbx_wire::{List, Text};

/// A value of a field (Protocol Buffers "Language Guide (proto 3)": Scalar Value Types).
#[derive(Drop)]
pub enum Value {
    /// A value of `bool`.
    Bool(bool),
    /// A value of `int32`, `sint32` or `sfixed32`.
    I32(i32),
    /// A value of `int64`, `sint64` or `sfixed64`.
    I64(i64),
    /// A value of `uint32` or `fixed32`.
    U32(u32),
    /// A value of `uint64` or `fixed64`.
    U64(u64),
    /// A value of `string`.
    String(Text),
    /// A value of `bytes`.
    Bytes(Bytes),
    /// The number of a value of an enum.
    EnumNumber(i32),
    /// A message.
    Message(DynamicMessage),
    /// The values of a repeated field.
    List(List<Value>),
    /// The pairs of a map.
    Map(ValueMap),
}

/// Values under keys. Keys of different variants stand in the order of the variants.
pub type ValueMap = KeyMap<Value>;
