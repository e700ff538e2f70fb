// The one handle of a value. It is shared again with no allocation.
ghost use Rattle.std.specs.Prelude.{◌≡◌};
ghost use Rattle.std.specs.Borrow.{Lends, sem};
ghost use Rattle.pbx_shared.specs.contracts.unique.Unique.{the_row};

use crate::Shared;
use crate::node::Node;
use std::alloc::Global;
use std::marker::Model;

/// The only handle of a value, by which the value can be written. A clause sees the value.
#[derive(Drop)]
pub struct Unique<T> {
    block: Box<Node<T>>,
    alloc: Global,
}

impl<T> Model for Unique<T> {
    ghost use Rattle.std.specs.Prelude.{◌≡◌};

    ghost Value = { T };

    ghost view = { λ u. u.block.value.value };

    ghost invariant = { λ u. u.block.value.count ≡ 1 };
}

impl<T: Drop> Unique<T> {
    pub(crate) fn of(block: Box<Node<T>>, alloc: Global) -> Unique<T>
        requires { block.value.count ≡ 1 }
        ensures { result ≡ block.value.value }
    {
        Unique { block, alloc }
    }

    /// The value, to read.
    pub fn as_ref(&self) -> &T
        ensures { result.now ≡ self.now }
    {
        &self.block.value
    }

    /// The value, to write. What is written stands in the value when the loan ends.
    pub fn get_mut(&mut self) -> &mut T
        ensures* writes_back { sem 𝓛 (Lends (the_row T.row) T.row self.entry result (λ w. w)) }
        ensures value { result.now ≡ self.old }
    {
        let node = &mut *self.block;
        &mut node.value
    }

    /// A handle that can be copied again, of the value as it stands. It takes no memory and cannot fail.
    pub fn share(self) -> Shared<T>
        ensures { result ≡ self }
    {
        let Unique { block, alloc } = self;
        Shared::first(block, alloc)
    }
}
