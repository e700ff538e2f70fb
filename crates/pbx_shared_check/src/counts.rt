// Many handles made and dropped, and how many.
use pbx_shared::Shared;
use std::alloc::{AllocError, Global};
use std::cell::Cell;

const ROUNDS: u64 = 10_000;

const BATCH: usize = 1_000;

const VALUES: u64 = 100_000;

const PAGE: usize = 65_536;

/// What became of the copies of one handle.
#[derive(Clone, Copy)]
pub struct Copies {
    pub made: u64,
    // How many handles could unwrap the value in the end: the first one can where every copy was counted out again.
    pub alone: u64,
}

/// What became of the values.
#[derive(Clone, Copy)]
pub struct Values {
    pub made: u64,
    pub dropped: u64,
}

// A value of 64 KiB that notes its drop.
struct Page<'a> {
    dropped: &'a Cell<u64>,
    bytes: [u8; PAGE],
}

impl Drop for Page<'_> {
    fn drop(self) {
        let Page { dropped, bytes: _ } = self;
        dropped.set(dropped.get().saturating_add(1));
    }
}

/// Makes copies of one handle and drops them, `BATCH` of them alive at a time.
pub fn make_copies(alloc: Global) -> Result<Copies, AllocError> {
    let one = Shared::new(alloc, 7u64)?;
    let mut made = 0u64;
    for _ in 0..ROUNDS {
        let batch = batch_of(alloc, &one)?;
        made = made.saturating_add(batch.len() as u64);
    }
    let alone = match one.try_unwrap() {
        Ok(_value) => 1,
        Err(_handle) => 0,
    };
    Ok(Copies { made, alone })
}

// `BATCH` copies of a handle.
fn batch_of(alloc: Global, one: &Shared<u64>) -> Result<Vec<Shared<u64>>, AllocError> {
    let mut batch = Vec::new(alloc);
    for _ in 0..BATCH {
        batch.push(one.copy())?;
    }
    Ok(batch)
}

/// Makes values of 64 KiB, each with two handles, and drops both before the next one is made.
pub fn make_values(alloc: Global) -> Result<Values, AllocError> {
    let dropped = Cell::new(0);
    let mut made = 0u64;
    for number in 0..VALUES {
        share_and_drop(alloc, &dropped, number)?;
        made = made.saturating_add(1);
    }
    Ok(Values {
        made,
        dropped: dropped.get(),
    })
}

// One value, whose first handle goes before the second.
fn share_and_drop(alloc: Global, dropped: &Cell<u64>, number: u64) -> Result<(), AllocError> {
    let bytes = [(number % 256) as u8; PAGE];
    let one = Shared::new(alloc, Page { dropped, bytes })?;
    let two = one.copy();
    drop(one);
    drop(two);
    Ok(())
}
