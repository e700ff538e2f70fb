ghost use Rattle.std.specs.Prelude.{◌≡◌, ◌↔◌, IsTrue};
ghost use Rattle.pbx_wire.specs.declared.rec.Rec.TheVariants as variants;

use crate::equals::Equals;
use bytes::Bytes;
use pbx_desc_records::Options;
use pbx_wire::{Rec, Recs};

/// Whether the record is a varint of the number and the value.
fn is_varint(rec: &Rec, number: u32, value: u64) -> bool
    ensures { IsTrue result ↔ variants.Varint number value ≡ rec.now }
{
    match rec {
        Rec::Varint(other, found) => number == *other && value == *found,
        _ => false,
    }
}

/// Whether the record is of eight bytes, of the number and the value.
fn is_fixed64(rec: &Rec, number: u32, value: u64) -> bool
    ensures { IsTrue result ↔ variants.Fixed64 number value ≡ rec.now }
{
    match rec {
        Rec::Fixed64(other, found) => number == *other && value == *found,
        _ => false,
    }
}

/// Whether the record is of the number and the payload.
fn is_bytes(rec: &Rec, number: u32, payload: &Bytes) -> bool
    ensures { IsTrue result ↔ variants.Bytes number payload.now ≡ rec.now }
{
    match rec {
        Rec::Bytes(other, found) => number == *other && payload == found,
        _ => false,
    }
}

/// Whether the record is of four bytes, of the number and the value.
fn is_fixed32(rec: &Rec, number: u32, value: u32) -> bool
    ensures { IsTrue result ↔ variants.Fixed32 number value ≡ rec.now }
{
    match rec {
        Rec::Fixed32(other, found) => number == *other && value == *found,
        _ => false,
    }
}

#[cycle(equal)]
fn is_equal(rec: &Rec, other: &Rec) -> bool
    ensures { IsTrue result ↔ rec.now ≡ other.now }
{
    match rec {
        Rec::Varint(number, value) => is_varint(other, *number, *value),
        Rec::Fixed64(number, value) => is_fixed64(other, *number, *value),
        Rec::Bytes(number, payload) => is_bytes(other, *number, payload),
        Rec::Group(number, recs) => match other {
            Rec::Group(found, others) => *number == *found && are_equal(recs, others),
            _ => false,
        },
        Rec::Fixed32(number, value) => is_fixed32(other, *number, *value),
    }
}

#[cycle(equal)]
fn are_equal(recs: &Recs, others: &Recs) -> bool
    ensures { IsTrue result ↔ recs.now ≡ others.now }
{
    let others = others.as_slice();
    if recs.len() != others.len() {
        return false;
    }
    for (index, rec) in recs.as_slice().iter().enumerate() {
        if !is_equal(rec, &others[index]) {
            return false;
        }
    }
    true
}

impl Equals for Rec {
    fn equals(&self, other: &Rec) -> bool {
        is_equal(self, other)
    }
}

impl Equals for Recs {
    fn equals(&self, other: &Recs) -> bool {
        are_equal(self, other)
    }
}

impl Equals for Options {
    fn equals(&self, other: &Options) -> bool {
        are_equal(&self.recs, &other.recs)
    }
}
