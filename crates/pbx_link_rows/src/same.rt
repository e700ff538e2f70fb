//! Whether messages of two pools are the same.

use crate::adding::{add_from, add_some};
use crate::told::Told;
use pbx_link::{DescriptorPool, MessageDescriptor};
use std::alloc::Global;
use test_rows::Row;

/// What each of two messages tells of the other.
fn compared(one: &MessageDescriptor, other: &MessageDescriptor) -> &'static str {
    let there = one.is_same(other);
    if there != other.is_same(one) {
        return "one way";
    }
    if there { "same" } else { "other" }
}

/// What a message and that of a name in another pool tell of one another.
fn compared_with(one: &MessageDescriptor, pool: &DescriptorPool, name: &str) -> &'static str {
    match pool.get_message_by_name(name) {
        Some(other) => compared(one, &other),
        None => "none",
    }
}

/// Adds the files of the row's fields from one on to the second pool, and tells of the messages of the names.
fn tell_same(
    alloc: Global,
    told: &mut Told,
    pool: &DescriptorPool,
    second: &mut DescriptorPool,
    row: &Row,
    first: usize,
) {
    if add_from(alloc, told, second, row, first) {
        match pool.get_message_by_name(row.text(0)) {
            Some(one) => told.add(compared_with(&one, second, row.text(1))),
            None => told.add("none"),
        }
    }
}

/// Of two full names and a count: whether the messages of the names are the same, the first of the pool of so many files, the
/// second of the pool of the files behind them.
pub(crate) fn same(alloc: Global, told: &mut Told, pool: &mut DescriptorPool, row: &Row) {
    if let Some(behind) = add_some(alloc, told, pool, row, 3, row.number(2)) {
        match DescriptorPool::new(alloc) {
            Ok(mut second) => tell_same(alloc, told, pool, &mut second, row, behind),
            Err(_) => told.run_short(),
        }
    }
}

/// The same where the second pool is a copy of the first, to which the files behind are added.
pub(crate) fn same_grown(alloc: Global, told: &mut Told, pool: &mut DescriptorPool, row: &Row) {
    if let Some(behind) = add_some(alloc, told, pool, row, 3, row.number(2)) {
        let mut second = pool.copy();
        tell_same(alloc, told, pool, &mut second, row, behind);
    }
}
