// A handle, and the count that all the handles of one block share. Only this file has raw pointers to a block.
ghost use Rattle.std.specs.Prelude.{◌≡◌, IsTrue, IfOk, IfErr, IfSome};
ghost use Rattle.pbx_shared.specs.Block.{alone};

use crate::node::{Loose, Node};
use std::alloc::Global;
use std::marker::Model;

pub(crate) struct Handle<T> {
    ptr: *mut Node<T>,
    pub(crate) ghost value: { T },
}

impl<T> Model for Handle<T> {
    ghost use Rattle.pbx_shared.specs.Ownership.{handle_owns, handle_shares};
    ghost use Rattle.pbx_shared.specs.Block.{block, alone};

    ghost also_owns = { λ h. handle_owns (block T.row) T.row alone h.ptr h.value };

    ghost also_shares = { λ h _ κ. handle_shares (block T.row) T.row alone h.ptr h.value κ };
}

impl<T> Handle<T> {
    // The first handle of a block.
    pub(crate) fn first(block: Loose<Node<T>, Global>) -> Handle<T>
        requires { block.value.count ≡ 1 }
        ensures { result.value ≡ block.value.value }
    {
        let Loose { at, alloc: _ } = block;
        Handle { ptr: at }
    }

    // A `&` to any of the handles is a `&` to the value.
    pub(crate) fn as_ref(&self) -> &T
        ensures { result.now ≡ self.now.value }
    {
        unsafe { &(*self.ptr).value }
    }

    // One handle more. A count at its end stays there, and the block is never freed.
    pub(crate) fn copy(&self) -> Handle<T>
        ensures { result.value ≡ self.now.value }
    {
        let ptr = self.ptr;
        let before = unsafe { (*ptr).count };
        if before != usize::MAX {
            unsafe { (*ptr).count = before + 1 };
        }
        Handle { ptr }
    }

    // Whether the other is a handle of the same block. Pointers into two blocks may not be compared. So one count is set to 0,
    // where no block's is, the other is read, and the first is set back.
    pub(crate) fn is_same_block(&self, other: &Handle<T>) -> bool
        ensures { IsTrue result → self.now.value ≡ other.now.value }
    {
        let ptr = self.ptr;
        let other = other.ptr;
        let count = unsafe { (*ptr).count };
        unsafe { (*ptr).count = 0 };
        let seen = unsafe { (*other).count };
        unsafe { (*ptr).count = count };
        seen == 0
    }

    // The block, if this is its one handle.
    pub(crate) fn take(self, alloc: Global) -> Result<Loose<Node<T>, Global>, Handle<T>>
        ensures block { IfOk result (λ b. b.value ≡ alone self.value) }
        ensures handle { IfErr result (λ h. h.value ≡ self.value) }
    {
        let Handle { ptr } = self;
        let handles = unsafe { (*ptr).count };
        if handles != 1 {
            return Err(Handle { ptr });
        }
        Ok(Loose { at: ptr, alloc })
    }

    // One handle less, and the block if it was the last.
    pub(crate) fn release(self, alloc: Global) -> Option<Loose<Node<T>, Global>>
        ensures { IfSome result (λ b. b.value ≡ alone self.value) }
    {
        let Handle { ptr } = self;
        let count = unsafe { (*ptr).count };
        if count == 1 {
            return Some(Loose { at: ptr, alloc });
        }
        if count != usize::MAX {
            unsafe { (*ptr).count = count - 1 };
        }
        None
    }
}
