// What no clause of `pbx_shared` says: that a call can succeed, the count, and when the value goes.
use pbx_shared::Shared;
use std::alloc::{AllocError, Global};
use std::cell::Cell;
use std::fmt::Debug;

// A value that notes its drops.
struct Bell<'a> {
    rung: &'a Cell<u64>,
}

impl Drop for Bell<'_> {
    fn drop(self) {
        let Bell { rung } = self;
        rung.set(rung.get().saturating_add(1));
    }
}

/// How many values are gone when the first of three handles is, then the last, then the second.
pub fn drop_three(alloc: Global) -> Result<[u64; 3], AllocError> {
    let rung = Cell::new(0);
    let one = Shared::new(alloc, Bell { rung: &rung })?;
    let two = one.copy();
    let three = two.copy();
    drop(one);
    let first = rung.get();
    drop(three);
    let last = rung.get();
    drop(two);
    Ok([first, last, rung.get()])
}

/// How many handles are refused beside another one and are unwrapped alone, and how many values are gone then, and when
/// the unwrapped one is.
pub fn unwrap_last(alloc: Global) -> Result<[u64; 4], AllocError> {
    let rung = Cell::new(0);
    let one = Shared::new(alloc, Bell { rung: &rung })?;
    let two = one.copy();
    let Err(one) = one.try_unwrap() else {
        return Ok([0; 4]);
    };
    drop(two);
    let Ok(value) = one.try_unwrap() else {
        return Ok([1, 0, 0, 0]);
    };
    let kept = rung.get();
    drop(value);
    Ok([1, 1, kept, rung.get()])
}

/// What is written to a value through its sole handle, what is read of it where another handle keeps it from being
/// written, and whether it is written again when that one is gone.
pub fn write_alone(alloc: Global) -> Result<[u64; 3], AllocError> {
    let one = Shared::new(alloc, 7u64)?;
    let Ok(mut alone) = one.into_unique() else {
        return Ok([0; 3]);
    };
    *alone.get_mut() = 8;
    let written = *alone.as_ref();
    let one = alone.share();
    let two = one.copy();
    let Err(one) = one.into_unique() else {
        return Ok([written, 0, 0]);
    };
    let read = *one;
    drop(two);
    Ok([written, read, u64::from(one.into_unique().is_ok())])
}

/// Whether handles of equal values are equal, and those of others differ.
pub fn compare(alloc: Global) -> Result<[u64; 2], AllocError> {
    let one = Shared::new(alloc, 7u64)?;
    let two = Shared::new(alloc, 7u64)?;
    let three = Shared::new(alloc, 9u64)?;
    Ok([u64::from(one == two), u64::from(one != three)])
}

/// Whether a handle and its copy are of one value, whether those of two equal values are, and whether a handle that was asked can
/// be alone again.
pub fn tell_apart(alloc: Global) -> Result<[u64; 3], AllocError> {
    let one = Shared::new(alloc, 7u64)?;
    let two = Shared::new(alloc, 7u64)?;
    let copy = one.copy();
    let of_copy = one.ptr_eq(&copy);
    let of_equal = one.ptr_eq(&two);
    drop(copy);
    let alone = one.into_unique().is_ok();
    Ok([u64::from(of_copy), u64::from(of_equal), u64::from(alone)])
}

// A clone through the bound, and what is printed of both.
fn printed_twice<T: Clone + Debug + Drop>(alloc: Global, x: &T) -> Result<String, AllocError> {
    let y = x.clone()?;
    format!(in alloc; "{x:?} {y:?}")
}

/// What is printed of a handle and of its clone.
pub fn print_clone(alloc: Global) -> Result<String, AllocError> {
    let one = Shared::new(alloc, 7u64)?;
    printed_twice(alloc, &one)
}
