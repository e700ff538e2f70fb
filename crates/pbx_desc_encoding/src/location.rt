// Places written without a content: a file has many of them, more than records of all other kinds. Where memory runs out, a part may be
// appended.

ghost use Rattle.std.specs.Prelude.{◌≡◌, ◌++◌, map, OnOk};
ghost use Rattle.pbx_content.specs.declared.shape.Cardinality.TheVariants.{Repeated};
ghost use Rattle.pbx_content.specs.declared.shape.Kind.TheVariants as kind;
ghost use Rattle.pbx_content.specs.Content.{number as number_val, vals_of};
ghost use Rattle.pbx_content.specs.Encoding.{packed_text};
ghost use Rattle.pbx_desc_shapes.specs.DescriptorShape.{descriptor_shape};
ghost use Rattle.pbx_desc_encoding.specs.Building.{Writes, WritesPacked, IsWritten};
ghost use Rattle.pbx_desc_encoding.specs.Content.{of_numbers, of_records, location_content};
ghost use Rattle.pbx_desc_encoding.specs.Sound.{AreOf};

use crate::parts::{put_by_content, put_payload, put_varint};
use crate::values::{put_text, put_texts, wire_number};
use pbx_content::Schema;
use pbx_desc_records::Location;
use pbx_wire::{List, NoMemory};
use std::alloc::Global;

/// Puts the numbers behind the text, one after another.
fn put_numbers(numbers: &List<i32>, out: &mut Vec<u8>) -> Result<(), NoMemory>
    ensures text { OnOk result
        (out.new.items ≡ out.old.items ++ packed_text kind.Int32 (vals_of (map number_val numbers.now))) }
    ensures sound { OnOk result (AreOf descriptor_shape kind.Int32 (map number_val numbers.now)) }
{
    for number in numbers.as_slice() {
        put_varint(wire_number(*number), out)?;
    }
    Ok(())
}

/// Puts the list behind the text, packed, under this number. An empty list puts nothing there. The payload's memory is
/// lent, as lists are many and short.
fn put_packed(
    number: u32,
    numbers: &List<i32>,
    payload: &mut Vec<u8>,
    out: &mut Vec<u8>,
) -> Result<(), NoMemory>
    ensures { OnOk result (WritesPacked kind.Int32 number (of_numbers numbers.now) out.old.items out.new.items) }
{
    if numbers.is_empty() {
        return Ok(());
    }
    payload.clear();
    put_numbers(numbers, payload)?;
    put_payload(number, payload.as_slice(), out)
}

/// Puts the encoding behind the text, field by field where no unknown record stands among the fields.
fn put_location(
    alloc: Global,
    schema: &Schema,
    location: &Location,
    payload: &mut Vec<u8>,
    out: &mut Vec<u8>,
) -> Result<(), NoMemory>
    requires { schema.now ≡ descriptor_shape }
    ensures { OnOk result (IsWritten 13 (location_content location.now) out.old.items out.new.items) }
{
    if !location.unknown.is_empty() {
        return put_by_content(alloc, schema, location, out);
    }
    put_packed(1, &location.path, payload, out)?;
    put_packed(2, &location.span, payload, out)?;
    put_text(3, &location.leading_comments, out)?;
    put_text(4, &location.trailing_comments, out)?;
    put_texts(6, &location.leading_detached_comments, out)
}

/// Puts the places behind the text, each as a message under this number. All share the memory that each is written in.
pub(crate) fn put_locations(
    alloc: Global,
    schema: &Schema,
    number: u32,
    locations: &List<Location>,
    out: &mut Vec<u8>,
) -> Result<(), NoMemory>
    requires { schema.now ≡ descriptor_shape }
    ensures { OnOk result
        (Writes Repeated (kind.Message 13) number (of_records location_content locations.now) out.old.items out.new.items) }
{
    let mut payload = Vec::new(alloc);
    let mut text = Vec::new(alloc);
    for location in locations.as_slice() {
        text.clear();
        put_location(alloc, schema, location, &mut payload, &mut text)?;
        put_payload(number, text.as_slice(), out)?;
    }
    Ok(())
}
