//! How a step gives a record one of its parts.

use crate::said::{cut, small};
use pbx_desc_encoding::Options;
use pbx_wire::{List, Rec, Recs, Text, Texts, varints_text};
use std::alloc::Global;
use std::mem::replace;
use test_rows::{Done, Stop};

pub(crate) fn put_text(alloc: Global, to: &mut Option<Text>, value: &str) -> Done {
    *to = Some(Text::from_str(alloc, value)?);
    Ok(())
}

pub(crate) fn add_text(alloc: Global, to: &mut Texts, value: &str) -> Done {
    to.add(Text::from_str(alloc, value)?)?;
    Ok(())
}

pub(crate) fn put_number(to: &mut Option<i32>, value: &str) -> Done {
    match value.parse::<i32>() {
        Ok(number) => {
            *to = Some(number);
            Ok(())
        }
        Err(_) => Err(Stop::NoSuchWord),
    }
}

pub(crate) fn add_number(to: &mut List<i32>, value: &str) -> Done {
    match value.parse::<i32>() {
        Ok(number) => Ok(to.add(number)?),
        Err(_) => Err(Stop::NoSuchWord),
    }
}

pub(crate) fn put_truth(to: &mut Option<bool>, value: &str) -> Done {
    match value {
        "true" => *to = Some(true),
        "false" => *to = Some(false),
        _ => return Err(Stop::NoSuchWord),
    }
    Ok(())
}

/// Adds the record that was made last, and begins another.
pub(crate) fn hand_over<T: Drop>(to: &mut List<T>, from: &mut T, fresh: T) -> Done {
    to.add(replace(from, fresh))?;
    Ok(())
}

/// Takes the records that were made last, and begins others.
pub(crate) fn take_records(alloc: Global, to: &mut Recs, from: &mut Recs) -> Done {
    *to = replace(from, Recs::new(alloc));
    Ok(())
}

/// The same, as options.
pub(crate) fn take_options(alloc: Global, to: &mut Option<Options>, from: &mut Recs) -> Done {
    let recs = replace(from, Recs::new(alloc));
    *to = Some(Options { recs });
    Ok(())
}

/// A number of a record and its value.
fn number_and_value(text: &str) -> (u32, u64) {
    let (number, value) = cut(text);
    (
        number.parse::<u32>().unwrap_or(0),
        value.parse::<u64>().unwrap_or(0),
    )
}

fn add_varint(recs: &mut Recs, value: &str) -> Done {
    let (number, value) = number_and_value(value);
    recs.add(Rec::Varint(number, value))?;
    Ok(())
}

fn add_fixed32(recs: &mut Recs, value: &str) -> Done {
    let (number, value) = number_and_value(value);
    recs.add(Rec::Fixed32(number, small(value)))?;
    Ok(())
}

/// A group of the records of `inner`.
fn add_group(alloc: Global, recs: &mut Recs, inner: &mut Recs, value: &str) -> Done {
    let (number, _) = number_and_value(value);
    let inner = replace(inner, Recs::new(alloc));
    recs.add(Rec::Group(number, inner))?;
    Ok(())
}

/// Puts the records into a group of number 1, so many times.
fn add_levels(alloc: Global, recs: &mut Recs, times: &str) -> Done {
    for _ in 0..times.parse::<u32>().unwrap_or(0) {
        let inner = replace(recs, Recs::new(alloc));
        recs.add(Rec::Group(1, inner))?;
    }
    Ok(())
}

/// A record of bytes, the varints of two numbers, before all others.
fn insert_packed(alloc: Global, recs: &mut Recs, value: &str) -> Done {
    let (number, numbers) = cut(value);
    let (first, second) = cut(numbers);
    let numbers = [
        first.parse::<u64>().unwrap_or(0),
        second.parse::<u64>().unwrap_or(0),
    ];
    let payload = varints_text(alloc, &numbers)?;
    let number = number.parse::<u32>().unwrap_or(0);
    recs.insert(0, Rec::from_payload(number, payload)?)?;
    Ok(())
}

/// A step with records: `varint NUMBER VALUE`, `fixed32 NUMBER VALUE`, `inner NUMBER VALUE` (a varint of the next
/// group), `group NUMBER`, `levels NUMBER` (so many groups around all others), or `packed NUMBER VALUE VALUE` (in
/// front of all others).
pub(crate) fn records_step(
    alloc: Global,
    recs: &mut Recs,
    inner: &mut Recs,
    part: &str,
    value: &str,
) -> Done {
    match part {
        "varint" => add_varint(recs, value),
        "fixed32" => add_fixed32(recs, value),
        "inner" => add_varint(inner, value),
        "group" => add_group(alloc, recs, inner, value),
        "levels" => add_levels(alloc, recs, value),
        "packed" => insert_packed(alloc, recs, value),
        _ => Err(Stop::NoSuchWord),
    }
}
