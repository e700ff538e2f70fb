//! Asks of `pbx_wire`: records, texts, lists and blobs. What is wanted follows Protocol Buffers "Encoding".

use crate::said::{shown, small, words};
use pbx_wire::{
    Blob, List, Rec, Recs, Text, copy_recs, front_key, read_rec, read_recs, rec_len, recs_text,
    varints_text, write_rec, write_recs,
};
use std::alloc::{AllocError, Global};
use test_rows::{Done, Row, Stop};

/// The row's fields as numbers, from the one at `from` on.
fn numbers_from(alloc: Global, row: &Row, from: usize) -> Result<Vec<u64>, AllocError> {
    let mut numbers = Vec::new(alloc);
    for at in from..row.len() {
        numbers.push(row.number(at))?;
    }
    Ok(numbers)
}

/// Of numbers: their varints.
pub(crate) fn varints(alloc: Global, row: &Row) -> Result<String, Stop> {
    let numbers = numbers_from(alloc, row, 0)?;
    let text = varints_text(alloc, numbers.as_slice())?;
    shown(alloc, text.as_slice())
}

/// The text of the records.
pub(crate) fn text_of(alloc: Global, recs: &Recs) -> Result<String, Stop> {
    shown(alloc, recs_text(alloc, recs)?.as_slice())
}

/// Two counts and the text of records.
fn counts(alloc: Global, count: usize, recs: &Recs) -> Result<String, Stop> {
    let text = text_of(alloc, recs)?;
    Ok(format!(in alloc; "{count} {} {text}", recs.len())?)
}

/// How many records there are and how many a copy has, and the text of the copy.
fn counted(alloc: Global, recs: &Recs) -> Result<String, Stop> {
    let copy = copy_recs(recs, alloc)?;
    counts(alloc, recs.len(), &copy)
}

/// Of a number of levels and bytes: the records that the bytes spell.
pub(crate) fn read(alloc: Global, row: &Row) -> Result<String, Stop> {
    match read_recs(alloc, row.bytes(1), small(row.number(0))) {
        Ok(recs) => counted(alloc, &recs),
        Err(fault) => Ok(format!(in alloc; "{fault}")?),
    }
}

/// The text of the record.
fn text_of_one(alloc: Global, rec: Rec) -> Result<String, Stop> {
    let mut recs = Recs::new(alloc);
    recs.add(rec)?;
    text_of(alloc, &recs)
}

/// Of an offset, a number of levels and bytes: the text of the record at their front, and the bytes behind it.
pub(crate) fn front(alloc: Global, row: &Row) -> Result<String, Stop> {
    let (at, levels) = (row.number(0) as usize, row.number(1) as usize);
    match read_rec(alloc, at, row.bytes(2), levels) {
        Ok(Some(front)) => {
            let (rec, rest) = front;
            let text = text_of_one(alloc, rec)?;
            let rest = shown(alloc, rest)?;
            Ok(format!(in alloc; "{text} {rest}")?)
        }
        Ok(None) => words(alloc, "none"),
        Err(fault) => Ok(format!(in alloc; "{fault}")?),
    }
}

/// Of bytes: the number and the wire type of the key at their front.
pub(crate) fn key(alloc: Global, row: &Row) -> Result<String, Stop> {
    match front_key(row.bytes(0)) {
        Some((number, kind)) => Ok(format!(in alloc; "{number} {kind}")?),
        None => words(alloc, "none"),
    }
}

/// So many groups of number 1, one in the other.
fn groups(alloc: Global, count: u64) -> Result<Vec<u8>, AllocError> {
    let mut bytes = Vec::new(alloc);
    for _ in 0..count {
        bytes.push(0x0b)?;
    }
    for _ in 0..count {
        bytes.push(0x0c)?;
    }
    Ok(bytes)
}

/// How many records there are, and the lengths of their text as it is written and as that of the first is counted.
fn lengths(alloc: Global, recs: &Recs) -> Result<String, Stop> {
    let text = recs_text(alloc, recs)?;
    let first = match recs.as_slice() {
        [] => None,
        [first, ..] => rec_len(first),
    };
    Ok(format!(in alloc; "{} {} {first:?}", recs.len(), text.as_slice().len())?)
}

/// The same of a copy.
pub(crate) fn lengths_of_copy(alloc: Global, recs: &Recs) -> Result<String, Stop> {
    let copy = copy_recs(recs, alloc)?;
    lengths(alloc, &copy)
}

/// Of a number of levels and a number of groups in one another: what is read of these.
pub(crate) fn nested(alloc: Global, row: &Row) -> Result<String, Stop> {
    let bytes = groups(alloc, row.number(1))?;
    match read_recs(alloc, bytes.as_slice(), small(row.number(0))) {
        Ok(recs) => lengths_of_copy(alloc, &recs),
        Err(fault) => Ok(format!(in alloc; "{fault}")?),
    }
}

/// Of two numbers: the text of a varint record 1 and of a record 3 of four bytes.
pub(crate) fn written(alloc: Global, row: &Row) -> Result<String, Stop> {
    let mut recs = Recs::new(alloc);
    recs.add(Rec::Varint(1, row.number(0)))?;
    recs.add(Rec::Fixed32(3, small(row.number(1))))?;
    let mut text = Blob::new(alloc);
    write_recs(&mut text, &recs)?;
    shown(alloc, text.as_slice())
}

/// Of bytes, more bytes and a number: these with a varint record 1 behind them.
pub(crate) fn appended(alloc: Global, row: &Row) -> Result<String, Stop> {
    let mut text = Blob::from_slice(alloc, row.bytes(0))?;
    text.append(row.bytes(1))?;
    write_rec(&mut text, &Rec::Varint(1, row.number(2)))?;
    shown(alloc, text.as_slice())
}

/// Of bytes: a blob of them, made one by one.
pub(crate) fn pushed(alloc: Global, row: &Row) -> Result<String, Stop> {
    let mut blob = Blob::new(alloc);
    for byte in row.bytes(0) {
        blob.push(*byte)?;
    }
    shown(alloc, blob.as_slice())
}

/// Adds the row's fields from the second on, as numbers.
fn push_each(list: &mut List<u64>, row: &Row) -> Done {
    for at in 1..row.len() {
        if list.push(row.number(at)).is_err() {
            return Err(Stop::NoMemory);
        }
    }
    Ok(())
}

/// Of a capacity and numbers: a list of them, made one by one.
pub(crate) fn numbers(alloc: Global, row: &Row) -> Result<String, Stop> {
    let mut list = List::with_capacity(alloc, row.number(0) as usize)?;
    push_each(&mut list, row)?;
    Ok(format!(in alloc; "{:?}", list.as_slice())?)
}

fn text_answer(alloc: Global, text: &Text) -> Result<String, Stop> {
    Ok(format!(in alloc; "<{}>", text.as_str())?)
}

/// Of at most four texts: them in a row, in brackets.
pub(crate) fn joined(alloc: Global, row: &Row) -> Result<String, Stop> {
    let pieces = [row.text(0), row.text(1), row.text(2), row.text(3)];
    text_answer(alloc, &Text::joined(alloc, &pieces)?)
}

/// Of three texts: the second between the others, in brackets.
pub(crate) fn between(alloc: Global, row: &Row) -> Result<String, Stop> {
    let text = Text::from_str(alloc, row.text(1))?;
    text_answer(
        alloc,
        &Text::between(alloc, row.text(0), &text, row.text(2))?,
    )
}
