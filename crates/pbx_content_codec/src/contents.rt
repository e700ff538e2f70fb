ghost use Rattle.std.specs.Prelude.{◌≡◌, [], option_map, IfOk, OnOk, OnErr};
ghost use Rattle.pbx_content.specs.Content.{content, no_fields, get, fields, with_value, without, with_fields};
ghost use Rattle.pbx_content_codec.specs.View.{val_of, content_of};

use crate::copying::copy_contents;
use crate::key::MapKey;
use crate::levels::DEEPEST;
use bytes::Bytes;
use pbx_content_map::NumberMap;
use pbx_wire::{List, NoMemory, Recs, Text};
use std::alloc::Global;

/// What a field holds.
#[cycle(tree)]
#[derive(Drop)]
pub enum Held {
    /// A value of `int32`, `sint32`, `sfixed32` or an enum.
    I32(i32),
    /// A value of `int64`, `sint64` or `sfixed64`.
    I64(i64),
    /// A value of `uint32` or `fixed32`.
    U32(u32),
    /// A value of `uint64` or `fixed64`.
    U64(u64),
    /// A value of `bool`.
    Bool(bool),
    /// A value of `string`.
    Text(Text),
    /// A value of `bytes`.
    Bytes(Bytes),
    /// A message.
    Message(Contents),
    /// The values of a repeated field, in their order.
    Many(List<Held>),
    /// The pairs of a map, by ascending key.
    Pairs(List<Pair>),
}

/// A key of a map and what stands under it.
#[cycle(tree)]
#[derive(Drop)]
pub struct Pair {
    /// The key.
    pub key: MapKey,
    /// The value.
    pub held: Held,
}

/// What a message holds.
#[cycle(tree)]
#[derive(Drop)]
pub struct Contents {
    /// The fields that have a value, by ascending number.
    pub fields: NumberMap<Held>,
    /// The records that no field reads, in order of arrival.
    pub kept: Recs,
}

impl Contents {
    /// The content of a message without fields and kept records; takes no memory.
    pub fn new(alloc: Global) -> Contents
        ensures { content_of result ≡ content no_fields [] }
    {
        Contents {
            fields: NumberMap::new(alloc),
            kept: Recs::new(alloc),
        }
    }

    /// An equal content. The only error is want of memory. The stack is memory too: where messages nest more than 1,024
    /// levels below the top, that is `NoMemory`.
    pub fn copy(&self, alloc: Global) -> Result<Contents, NoMemory>
        ensures { IfOk result (λ copy. copy ≡ self.now) }
    {
        copy_contents(self, alloc, DEEPEST + 1)
    }

    /// The value of a number.
    pub fn get(&self, number: u32) -> Option<&Held>
        ensures { option_map (λ held. val_of held.now) result ≡ get number (fields (content_of self.now)) }
    {
        self.fields.get(number)
    }

    /// Takes the value of a number out.
    pub fn take(&mut self, number: u32) -> Option<Held>
        ensures value { option_map val_of result ≡ get number (fields (content_of self.old)) }
        ensures rest { content_of self.new ≡ with_fields (content_of self.old) (without number (fields (content_of self.old))) }
    {
        self.fields.take(number)
    }

    /// Drops the value of a number.
    pub fn clear(&mut self, number: u32)
        ensures { content_of self.new ≡ with_fields (content_of self.old) (without number (fields (content_of self.old))) }
    {
        self.take(number);
    }

    /// Puts a value at a number, in the place of the one that is there. A refused call changes nothing.
    pub fn put(&mut self, number: u32, held: Held) -> Result<(), NoMemory>
        ensures ok { OnOk result (content_of self.new ≡ with_fields (content_of self.old) (with_value number (val_of held) (fields (content_of self.old)))) }
        ensures err { OnErr result (content_of self.new ≡ content_of self.old) }
    {
        self.fields.put(number, held)
    }
}
