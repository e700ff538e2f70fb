//! The tree to be transcoded.

ghost use Rattle.std.specs.Prelude.{◌≡◌};
ghost use Rattle.serde_json.specs.View.{view};
ghost use Rattle.protox_transcode.specs.Input.{data_of};

use serde_json::Value;

/// A tree that stays the caller's, or one that is let go once it is read, so that it and the written one are never held at once.
#[derive(Drop)]
pub enum InputTree<'a> {
    /// A tree of the caller's.
    Borrowed(&'a Value),
    /// A tree that is let go.
    Owned(Value),
}

impl<'a> InputTree<'a> {
    pub(crate) fn as_value(&self) -> &Value
        ensures { view result.now ≡ data_of self.now }
    {
        match self {
            InputTree::Borrowed(tree) => tree,
            InputTree::Owned(tree) => tree,
        }
    }
}
