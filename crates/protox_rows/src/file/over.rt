//! Questions about resolvers over others: a chain, the folders of a disk with the built-in files, and a descriptor set.

use crate::file::resolvers::{filled_member, take_steps};
use crate::file::step::{step_at, steps};
use crate::file::told::Told;
use crate::file::{disks, sets};
use pbx_wire::{NoMemory, Text, Texts};
use protox_file::{ChainFileResolver, StandardResolver};
use protox_io::MemoryDisk;
use std::alloc::Global;
use std::mem::drop;
use test_rows::Row;

/// How many members the steps of a row make: what is put behind a step `next` stands in a further one.
fn members(row: &Row) -> usize {
    let mut count: usize = 1;
    for number in 0..steps(row) {
        if step_at(row, number).word == "next" {
            count = count.saturating_add(1);
        }
    }
    count
}

/// The steps of a row over a chain of resolvers in memory.
pub(crate) fn of_chain(alloc: Global, row: &Row, told: &mut Told) {
    let mut chain = ChainFileResolver::new(alloc);
    for member in 0..members(row) {
        let resolver = filled_member(alloc, row, member, told);
        match Box::new(alloc, resolver) {
            Ok(resolver) => {
                if chain.add(resolver).is_err() {
                    told.say("out of memory");
                }
            }
            Err(_) => told.say("out of memory"),
        }
    }
    take_steps(alloc, row, &mut chain, told);
}

/// What the steps of a row name with that word, in order.
pub(crate) fn named(alloc: Global, row: &Row, word: &str) -> Result<Texts, NoMemory> {
    let mut texts = Texts::new(alloc);
    for number in 0..steps(row) {
        let step = step_at(row, number);
        if step.word == word {
            texts.add(Text::from_str(alloc, step.text)?)?;
        }
    }
    Ok(texts)
}

/// The folders that the steps of a row name, in order.
pub(crate) fn folders(alloc: Global, row: &Row) -> Result<Texts, NoMemory> {
    named(alloc, row, "folder")
}

/// The disk in memory that the steps of a row fill.
pub(crate) fn filled_disk(alloc: Global, row: &Row, told: &mut Told) -> MemoryDisk {
    let mut disk = MemoryDisk::new(alloc);
    disks::fill(row, &mut disk, told);
    disk
}

/// The steps of a row over the folders of a disk in memory and the built-in files, and then those that are taken at the disk.
pub(crate) fn of_folders(alloc: Global, row: &Row, told: &mut Told) {
    let disk = filled_disk(alloc, row, told);
    let Ok(folders) = folders(alloc, row) else {
        told.say("out of memory");
        drop(disk);
        return;
    };
    match StandardResolver::new(alloc, disk, &folders) {
        Ok(mut resolver) => {
            take_steps(alloc, row, &mut resolver, told);
            let mut disk = resolver.into_disk();
            disks::take_steps(alloc, row, &mut disk, told);
            drop(disk);
        }
        Err(_) => told.say("out of memory"),
    }
}

/// The steps of a row over the files of a set, of which the first step has the bytes.
pub(crate) fn of_set(alloc: Global, row: &Row, told: &mut Told) {
    let step = step_at(row, 0);
    match step.word {
        "decoded" => sets::of_bytes(alloc, row, step.bytes, told),
        _ => sets::of_records(alloc, row, step.bytes, told),
    }
}
