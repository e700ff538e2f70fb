ghost use Rattle.std.specs.Prelude.{◌≡◌, ◌↔◌, IsTrue};

use pbx_wire::{List, Text};

/// A value that is compared with others part by part. It takes no memory.
pub trait Equals {
    /// Whether the values are equal.
    fn equals(&self, other: &Self) -> bool
        ensures { IsTrue result ↔ self.now ≡ other.now };
}

impl Equals for i32 {
    fn equals(&self, other: &i32) -> bool {
        *self == *other
    }
}

impl Equals for bool {
    fn equals(&self, other: &bool) -> bool {
        *self == *other
    }
}

impl Equals for Text {
    fn equals(&self, other: &Text) -> bool {
        self.as_str() == other.as_str()
    }
}

impl<T: Equals> Equals for Option<T> {
    fn equals(&self, other: &Option<T>) -> bool {
        match self {
            Some(item) => match other {
                Some(other) => item.equals(other),
                None => false,
            },
            None => other.is_none(),
        }
    }
}

impl<T: Equals> Equals for List<T> {
    fn equals(&self, other: &List<T>) -> bool {
        let others = other.as_slice();
        if self.len() != others.len() {
            return false;
        }
        for (index, item) in self.as_slice().iter().enumerate() {
            if !item.equals(&others[index]) {
                return false;
            }
        }
        true
    }
}
