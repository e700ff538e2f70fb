//! A value on the heap that several handles share, in one thread.
//!
//! A copy of a handle takes no memory and cannot fail. The value and its block go with the last handle. What a handle
//! holds is read through it, and is written only where no other handle has it.
//!
//! A pool and a descriptor are handles to one value. Their `copy(&self) -> Self` takes no memory and has no refusal, so
//! a caller that has a descriptor always gets another one.
//!
//! **Why not `Rc`.** `Rc::clone` of the toolchain answers a `Result`: its count may be full, and no clause says when it
//! is. A copy over it would have to answer something on that branch, and nothing is at hand there: not a second handle,
//! and no memory for a value of its own. A box that is leaked on purpose can be copied as a reference, and is never
//! freed. Nothing else that is safe over the standard library makes two owners out of one without a step that can fail.
//!
//! **What stands in its place.** `pbx_shared::Shared<T>` is a pointer to a block with a count and the value. A copy
//! raises the count by one. When the count has come to the end of its type, `usize::MAX`, it stands still: it is raised
//! and lowered no more, each further copy is a copy all the same, and the block is never freed. So there is no overflow
//! and no failure, and the price is a block that is kept for good once a value has had 2^64 - 1 handles at one time,
//! which no machine reaches. At any other count the value is dropped and the block is freed with the last handle.
//!
//! **The layers.** `node` has the block, and a box of one that is taken apart into its pointer. `handle` has the one
//! word of a handle and the steps on the count: `first`, `as_ref`, `copy`, `is_same_block`, `take` and `release`. These
//! eight functions are the only ones with raw pointers, and are proved by hand. `lib` and `unique` above them are safe
//! code and are proved without a proof file, and so is every user.
//!
//! **What a clause sees.** A clause sees a handle as the value. So `copy` says that the copy is the value again,
//! `try_unwrap` and `into_unique` say on both branches that the value is unchanged, and two handles of equal values are
//! equal whoever else holds them. There is no identity of handles, but `ptr_eq` tells where two are of one block, and
//! its clause says what follows from a yes: the values are equal. What is compared is not the pointers, since pointers
//! into two blocks may not be compared: the count of one block is set to 0, where the count of none is, the other's is
//! read, and the count is set back. That a yes means equal values is owned as follows: the invariant of a block is kept
//! under a number for its place and its value. So either two handles have one number, and then one value, or both their
//! blocks can be open at once, and then the other's count was not the one that was set to 0.
//!
//! **Writing.** What is shared is not written. `into_unique` turns the only handle into a `Unique`, which lends the
//! value for writing and turns into a handle again without memory. A struct that is written through `&mut self` keeps
//! its handle in an `Option`, with the invariant that it is there: it takes the handle out, writes in place where it is
//! the only one, makes a new value whose parts are shared where it is not, and puts the handle back in each case, also
//! where there was no memory.
//!
//! **A type does not lead back to itself through a handle.** `Shared<T>` is no former of recursive types: a pool holds
//! tables whose entries name one another by number, and no chain of nodes. A cycle of handles could not be made anyway,
//! since a shared value is not written.
//!
//! **What no clause says**, and what shows it instead:
//!
//! - the count: `try_unwrap` and `into_unique` that always refuse would meet their contracts: `pbx_shared_check`, the
//!   lines `refused beside another handle, unwrapped alone` and `written alone, read beside another handle, alone
//!   again`; and after ten million copies were made and dropped, the first handle is alone again.
//! - that `ptr_eq` answers yes for a copy, and no for an equal value elsewhere: `pbx_shared_check`, the line `one with
//!   its copy, one with an equal value, alone again`.
//! - that the value is dropped, exactly with its last handle: `pbx_shared_check`, the line `values gone with each of
//!   three handles`, and its 100,000 drops of 100,000 values.
//! - that the block is freed: `checks/flat-memory`: the proved program of `pbx_shared_check` makes, shares and drops
//!   100,000 values of 64 KiB, 6 GiB in all, under a limit of 256 MiB of memory.
//! - that `new` succeeds while there is memory: each line of `pbx_shared_check` calls it.
//! - what happens at the count's end: only the proof: no run gets there. That the count does not overflow, that a copy
//!   there is a handle, and that no handle can then take the block follow from the proof, and the edits
//!   `copy_past_the_end` and `drop_from_the_end` are refused.
//!
//! **The edits that must fail**: `try_unwrap` and `into_unique` hand out what others hold (`unwrap_from_others`); a
//! copy that is not counted (`copy_uncounted`); a drop that frees while the count is above one (`drop_frees_shared`); a
//! count that is raised past its end (`copy_past_the_end`) or lowered from it (`drop_from_the_end`); the right to write
//! to a value whose count says that another handle has it (`write_to_shared`); a first handle of a block that is
//! counted as two (`first_of_two`); a copy of another value (`copy_of_another`); handles of two blocks that are called
//! one (`another_is_same`, `any_is_same`), and a count that is not set back (`count_not_restored`).
#![tactic(auto)]

ghost use Rattle.std.specs.Prelude.{◌≡◌, ⊤, IsTrue, IfOk, IfErr};

mod handle;
mod node;
mod unique;

use handle::Handle;
use node::{Loose, Node};
use std::alloc::{AllocError, AllocFailed, Global};
use std::fmt;
use std::marker::Model;
use std::ops::Deref;
pub use unique::Unique;

/// One of the handles of a value. A clause sees the value itself, so two handles of one value are equal to a clause, and
/// so are the handles of two equal values.
///
/// The handles of a value are counted. The count is no part of any contract. It stays where it is once it has come to
/// `usize::MAX`: the value is then kept for good, and no handle can unwrap it any more.
///
/// A handle stays on its thread, and a type cannot lead back to itself through one.
pub struct Shared<T> {
    handle: Handle<T>,
    alloc: Global,
}

impl<T> Model for Shared<T> {
    ghost Value = { T };

    ghost view = { λ s. s.handle.value };
}

impl<T> Shared<T> {
    /// The value, to read.
    pub fn as_ref(&self) -> &T
        ensures { result.now ≡ self.now }
    {
        self.handle.as_ref()
    }

    /// Another handle of the same value. It takes no memory and cannot fail.
    pub fn copy(&self) -> Shared<T>
        ensures { result ≡ self.now }
    {
        Shared {
            handle: self.handle.copy(),
            alloc: self.alloc,
        }
    }

    /// Whether both are handles of one value on the heap, so that the values are equal. It reads neither value: a no says nothing
    /// of whether they are.
    pub fn ptr_eq(&self, other: &Shared<T>) -> bool
        ensures { IsTrue result → self.now ≡ other.now }
    {
        self.handle.is_same_block(&other.handle)
    }
}

impl<T: Drop> Shared<T> {
    /// Moves `value` to the heap, with one handle.
    ///
    /// Where there is no memory for it, the error hands the value back. It has no other error.
    pub fn new(alloc: Global, value: T) -> Result<Shared<T>, AllocFailed<T>>
        ensures ok { IfOk result (λ s. s ≡ value) }
        ensures value_returned { IfErr result (λ e. e.value ≡ value) }
    {
        match Box::new(alloc, Node { count: 1, value }) {
            Ok(block) => Ok(Shared::first(block, alloc)),
            Err(failed) => {
                let Node { count: _, value } = failed.value;
                Err(AllocFailed { value })
            }
        }
    }

    /// The value itself, where this is its only handle, and else the handle again.
    ///
    /// Where the count is at its end it is the handle, however many others there still are.
    pub fn try_unwrap(self) -> Result<T, Shared<T>>
        ensures ok { IfOk result (λ x. x ≡ self) }
        ensures err { IfErr result (λ s. s ≡ self) }
    {
        let Shared { handle, alloc } = self;
        match handle.take(alloc) {
            Ok(block) => {
                let Node { count: _, value } = Box::into_inner(block.into_box());
                Ok(value)
            }
            Err(handle) => Err(Shared { handle, alloc }),
        }
    }

    /// The right to write to the value, where this is its only handle, and else the handle again, as of
    /// [`Shared::try_unwrap`]. It moves nothing and takes no memory.
    pub fn into_unique(self) -> Result<Unique<T>, Shared<T>>
        ensures ok { IfOk result (λ u. u ≡ self) }
        ensures err { IfErr result (λ s. s ≡ self) }
    {
        let Shared { handle, alloc } = self;
        match handle.take(alloc) {
            Ok(block) => Ok(Unique::of(block.into_box(), alloc)),
            Err(handle) => Err(Shared { handle, alloc }),
        }
    }

    // The first handle of a block.
    pub(crate) fn first(block: Box<Node<T>>, alloc: Global) -> Shared<T>
        requires { block.value.count ≡ 1 }
        ensures { result ≡ block.value.value }
    {
        Shared {
            handle: Handle::first(Loose::of(block)),
            alloc,
        }
    }
}

impl<T: Drop> Drop for Shared<T> {
    fn drop(self) {
        let Shared { handle, alloc } = self;
        if let Some(block) = handle.release(alloc) {
            let Node { count: _, value } = Box::into_inner(block.into_box());
            drop(value);
        }
    }
}

impl<T> Deref for Shared<T> {
    type Target = T;

    ghost deref_gives = { λ s x. x ≡ s };

    fn deref(&self) -> &T
        ensures { result.now ≡ self.now }
    {
        self.as_ref()
    }
}

// `copy` as the bound `Clone` has it: it never fails.
impl<T: Drop> Clone for Shared<T> {
    ghost is_clone = { λ s copy. copy ≡ s };

    ghost is_infallible = { λ _. ⊤ };

    fn clone(&self) -> Result<Shared<T>, AllocError> {
        Ok(self.copy())
    }
}

// The values are compared, and not the handles.
impl<T: PartialEq> PartialEq for Shared<T> {
    ghost eq = { T.eq };

    ghost laws = { T.laws };

    fn eq(&self, other: &Shared<T>) -> bool {
        *self.as_ref() == *other.as_ref()
    }
}

impl<T: Eq> Eq for Shared<T> {
    ghost laws = { T.Eq.laws };
}

impl<T: fmt::Debug> fmt::Debug for Shared<T> {
    ghost debug_output = { λ s. T.debug_output s };

    fn fmt<W: fmt::Write>(&self, f: &mut fmt::Formatter<W>) -> fmt::Result {
        fmt::Debug::fmt(self.as_ref(), f)
    }
}
