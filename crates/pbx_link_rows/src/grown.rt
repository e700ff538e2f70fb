//! The shape of a pool's types before and after the pool grows, and that of a copy.

use crate::adding::{add_each, add_some};
use crate::told::Told;
use pbx_content::Schema;
use pbx_link::DescriptorPool;
use std::alloc::Global;
use test_rows::Row;

/// Tells the place of the message of this name in the shape, and how many messages it has.
fn tell_place(told: &mut Told, pool: &DescriptorPool, schema: &Schema, name: &str) {
    match pool.get_message_by_name(name) {
        Some(message) => told.add_count(message.place(schema)),
        None => told.add("none"),
    }
    told.add(" of ");
    told.add_count(schema.shape().messages.as_slice().len());
    told.add(", ");
}

/// The word where it holds, and the other where it does not.
fn word_where(holds: bool, word: &'static str, other: &'static str) -> &'static str {
    if holds { word } else { other }
}

/// Tells of the shapes of two pools, and whether they have one.
fn tell_both(told: &mut Told, one: &DescriptorPool, other: &DescriptorPool, name: &str) {
    let Ok(first) = one.schema() else {
        return told.run_short();
    };
    let Ok(second) = other.schema() else {
        return told.run_short();
    };
    tell_place(told, one, first.as_ref(), name);
    tell_place(told, other, second.as_ref(), name);
    let is_one = first.ptr_eq(&second);
    told.add(word_where(is_one, "one shape; ", "two shapes; "));
}

/// Tells of the pool of so many files, and of it where the files behind them were added.
fn alone(alloc: Global, told: &mut Told, pool: &mut DescriptorPool, row: &Row, behind: usize) {
    tell_both(told, pool, pool, row.text(0));
    add_each(alloc, told, pool, row, behind);
    tell_both(told, pool, pool, row.text(0));
}

/// Adds the files behind, and tells of the pool, of a copy of it, and of the one that was made before.
fn later(
    alloc: Global,
    told: &mut Told,
    pool: &mut DescriptorPool,
    before: &DescriptorPool,
    row: &Row,
    behind: usize,
) {
    add_each(alloc, told, pool, row, behind);
    tell_both(told, pool, &pool.copy(), row.text(0));
    tell_both(told, before, &before.copy(), row.text(0));
    tell_both(told, before, pool, row.text(0));
}

/// The same where the shape is asked for before too, and whether the one that was made before has it still in the end.
fn kept(
    alloc: Global,
    told: &mut Told,
    pool: &mut DescriptorPool,
    before: &DescriptorPool,
    row: &Row,
    behind: usize,
) {
    tell_both(told, pool, before, row.text(0));
    let Ok(first) = before.schema() else {
        return told.run_short();
    };
    later(alloc, told, pool, before, row, behind);
    match before.schema() {
        Ok(last) => told.add(word_where(last.ptr_eq(&first), "kept", "made again")),
        Err(_) => told.run_short(),
    }
}

/// Of a full name and a count: what is told of the shape of the pool of so many files, and of it where the files behind them
/// were added; by itself, beside a copy that was made before, or beside one where the shape was asked for before too.
pub(crate) fn grown(alloc: Global, told: &mut Told, pool: &mut DescriptorPool, row: &Row) {
    let Some(behind) = add_some(alloc, told, pool, row, 2, row.number(1)) else {
        return;
    };
    if row.asked() == "shape-alone" {
        return alone(alloc, told, pool, row, behind);
    }
    let before = pool.copy();
    if row.asked() == "shape-late" {
        later(alloc, told, pool, &before, row, behind);
    } else {
        kept(alloc, told, pool, &before, row, behind);
    }
}
