//! Asks of records in which groups nest, made level by level.

use super::wire::lengths_of_copy;
use pbx_wire::{Rec, Recs, rec_len};
use std::alloc::Global;
use std::mem::replace;
use test_rows::{Row, Stop};

/// Puts the record in as the word says. Gives the length of its text where it is handed back, and 0 where it is dropped.
fn put(recs: &mut Recs, rec: Rec, word: &str) -> Result<(), usize> {
    match word {
        "add" => match recs.add(rec) {
            Ok(()) => Ok(()),
            Err(_) => Err(0),
        },
        "insert" => match recs.insert(0, rec) {
            Ok(()) => Ok(()),
            Err(_) => Err(0),
        },
        _ => match recs.push(rec) {
            Ok(()) => Ok(()),
            Err(back) => Err(rec_len(&back).unwrap_or(0)),
        },
    }
}

/// A varint of number 2 and value 5, where the word asks for one at this place beside each group.
fn put_beside(recs: &mut Recs, word: &str, place: &str) -> Result<(), usize> {
    if word == place {
        put(recs, Rec::Varint(2, 5), "push")?;
    }
    Ok(())
}

/// Puts the records into a group of number 1 in a list of its own, with what stands beside it.
fn put_level(alloc: Global, recs: &mut Recs, word: &str) -> Result<(), usize> {
    let inner = replace(recs, Recs::new(alloc));
    put_beside(recs, word, "before")?;
    put(recs, Rec::Group(1, inner), word)?;
    put_beside(recs, word, "behind")
}

/// Of a word and a number: so many groups of number 1 in one another. The word is the call that puts each into its list (`push`,
/// `add` or `insert`), or where a varint stands beside each (`before` or `behind` it). Told is how many records a copy has, and
/// the lengths of its text as it is written and as that of its first is counted; or which group is refused, and the length of
/// its text where it is handed back.
pub(crate) fn answer(alloc: Global, row: &Row) -> Result<String, Stop> {
    let mut recs = Recs::new(alloc);
    for level in 0..row.number(1) {
        if let Err(back) = put_level(alloc, &mut recs, row.text(0)) {
            return Ok(format!(in alloc; "group {} refused, {back} bytes handed back", level + 1)?);
        }
    }
    lengths_of_copy(alloc, &recs)
}
