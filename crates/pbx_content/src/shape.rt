ghost use Rattle.std.specs.Prelude.{◌≡◌, IfOk, IfErr, option_map};
ghost use Rattle.pbx_content.specs.Shape.{field_of as field_of_type, fields_of, keeps_order_of};
ghost use Rattle.pbx_content.specs.Sound.{IsProper, IsRefused};

use crate::index::{enums_fit, field_in, types_index};
use pbx_wire::{List, NoMemory, Text};
use std::alloc::Global;
use std::marker::Model;

/// What one value of a field is (Protocol Buffers "Language Guide (proto 3)": Scalar Value Types). A
/// message type or an enum is told by its place in the shape.
#[derive(Clone, Copy, Debug, PartialEq, Eq)]
pub enum Kind {
    /// `double`: its records are kept as they stand.
    Double,
    /// `float`: its records are kept as they stand.
    Float,
    /// `int32`: a varint of 64 bits in two's complement.
    Int32,
    /// `int64`: a varint of 64 bits in two's complement.
    Int64,
    /// `uint32`: a varint.
    Uint32,
    /// `uint64`: a varint.
    Uint64,
    /// `sint32`: a zigzag varint.
    Sint32,
    /// `sint64`: a zigzag varint.
    Sint64,
    /// `fixed32`: four bytes.
    Fixed32,
    /// `fixed64`: eight bytes.
    Fixed64,
    /// `sfixed32`: four bytes in two's complement.
    Sfixed32,
    /// `sfixed64`: eight bytes in two's complement.
    Sfixed64,
    /// `bool`: a varint, 0 or 1 where it is written.
    Bool,
    /// `string`: bytes in UTF-8.
    String,
    /// `bytes`.
    Bytes,
    /// A message, by the place of its type in `Shape::messages`.
    Message(usize),
    /// An enum, by its place in `Shape::enums`: a varint of 64 bits in two's complement.
    Enum(usize),
}

/// How many values a field has.
#[derive(Clone, Copy, Debug, PartialEq, Eq)]
pub enum Cardinality {
    /// At most one.
    Singular,
    /// A list.
    Repeated,
    /// One for each key, which is of this kind. The field's own kind is that of the values.
    Map(Kind),
}

/// A field of a message type, or an extension of it.
#[derive(Drop)]
pub struct FieldShape {
    /// The number that stands in the keys of the field's records, 1 to 536,870,911.
    pub number: u32,
    /// The field's name in its source file; of an extension the full name.
    pub name: Text,
    /// The field's key in canonical JSON.
    pub json_name: Text,
    /// Whether it extends the type from outside.
    pub is_extension: bool,
    /// What one value is, of a map what stands under a key.
    pub kind: Kind,
    /// How many values there are.
    pub cardinality: Cardinality,
    /// Whether a value that is the kind's default differs from no value (Protocol Buffers "Field Presence").
    pub presence: bool,
    /// The oneof that the field is a member of, by its place in the message type.
    pub oneof: Option<u32>,
    /// Whether a list of numbers is written as one record.
    pub packed: bool,
    /// The declared default in the words of the source, of proto2 alone.
    pub default: Option<Text>,
    /// Of a map the type of its entries, by its place in `Shape::messages`.
    pub entry: Option<usize>,
}

/// A message type.
#[derive(Drop)]
pub struct MessageShape {
    /// The type's name with its package, without a leading dot.
    pub full_name: Text,
    /// The fields in declared order, and behind them the extensions in the order of the pool.
    pub fields: List<FieldShape>,
    /// Whether the order of kept records of different numbers is a part of the content, as it is of options.
    pub keeps_order: bool,
    /// Whether the type stands in a file of proto3.
    pub proto3: bool,
}

/// A value of an enum.
#[derive(Drop)]
pub struct EnumValueShape {
    /// The value's name.
    pub name: Text,
    /// The value's number.
    pub number: i32,
}

/// An enum.
#[derive(Drop)]
pub struct EnumShape {
    /// The enum's name with its package, without a leading dot.
    pub full_name: Text,
    /// The values in declared order; the number of the first is the default.
    pub values: List<EnumValueShape>,
}

/// Message types and enums, which name one another by their places.
#[derive(Drop)]
pub struct Shape {
    /// The message types; a place outside the list stands for a type without fields.
    pub messages: List<MessageShape>,
    /// The enums; a place outside the list stands for an enum without values.
    pub enums: List<EnumShape>,
}

/// Why a shape makes no schema; the shape is handed back.
#[derive(Drop)]
pub enum SchemaError {
    /// In some type a number stands twice or is none that records may have, or keys of a map are of no kind
    /// that keys may have.
    Improper(Shape),
    /// Memory ran out.
    NoMemory(Shape),
}

/// A proper shape: in each type no number stands twice, each is one that records may have, and keys of
/// maps are of kinds that keys may have. Contracts see the shape.
#[derive(Drop)]
pub struct Schema {
    shape: Shape,
    /// Of each type the fields' numbers with their places, by ascending number.
    index: Vec<Vec<(u32, usize)>>,
}

impl Model for Schema {
    ghost use Rattle.std.specs.Prelude.{map};
    ghost use Rattle.pbx_content.specs.contracts.shape.Shape as shape_type;
    ghost use Rattle.pbx_content.specs.declared.shape.Shape.{Shape as ShapeOf};
    ghost use Rattle.pbx_content.specs.Sound.{IsProper};
    ghost use Rattle.pbx_content.specs.Index.{AreIndexed};

    ghost Value = { ShapeOf };

    ghost coded = { shape_type.the_row.coded };

    ghost view = { λ s. s.shape };

    ghost invariant = { λ s. IsProper s.shape × AreIndexed s.shape.messages (map (λ entries. entries.items) s.index.items) };
}

impl Schema {
    /// The proper shape, with an index of each type's fields.
    pub fn new(alloc: Global, shape: Shape) -> Result<Schema, SchemaError>
        ensures ok { IfOk result (λ schema. (schema ≡ shape) × IsProper shape) }
        ensures err { IfErr result (IsRefused shape) }
    {
        enums_fit(shape.enums.as_slice());
        match types_index(alloc, shape.messages.as_slice()) {
            Ok(Some(index)) => Ok(Schema { shape, index }),
            Ok(None) => Err(SchemaError::Improper(shape)),
            Err(NoMemory) => Err(SchemaError::NoMemory(shape)),
        }
    }

    /// The shape.
    pub fn shape(&self) -> &Shape
        ensures same { result.now ≡ self.now }
        ensures proper { IsProper self.now }
    {
        &self.shape
    }

    /// The field of a number in the type at a place, found by log n comparisons; a type outside the shape has none.
    pub fn field_of(&self, type_at: usize, number: u32) -> Option<&FieldShape>
        ensures { option_map (λ field. field.now) result ≡ field_of_type number (fields_of self.now type_at) }
    {
        let messages = self.shape.messages.as_slice();
        if type_at >= messages.len() || type_at >= self.index.len() {
            return None;
        }
        field_in(
            messages[type_at].fields.as_slice(),
            self.index[type_at].as_slice(),
            number,
        )
    }

    /// Whether the order of kept records of different numbers is a part of a content of the type; of one
    /// outside the shape it is not.
    pub fn keeps_order(&self, type_at: usize) -> bool
        ensures { result ≡ keeps_order_of self.now type_at }
    {
        let messages = self.shape.messages.as_slice();
        type_at < messages.len() && messages[type_at].keeps_order
    }
}
