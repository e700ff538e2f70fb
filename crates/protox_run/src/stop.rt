ghost use Rattle.std.specs.Prelude.{◌≡◌, []};

use pbx_wire::{List, Text, Texts};
use protox_words::WordFault;
use std::alloc::Global;

/// Why an input is refused, with status 1.
#[derive(Debug, Drop)]
pub enum Refusal {
    /// The input has more than 1,073,741,824 bytes.
    TooLong,
    /// The input is no JSON text in UTF-8, or nests deeper than 127.
    NotJson,
    /// The set, a file, the type's name or the tree is refused, with this line.
    Top(Text),
}

/// What stands outside and failed, with status 3.
#[derive(Debug, Drop)]
pub(crate) enum Object<'w> {
    /// Reading the input.
    Input,
    /// Reading a file or the set, with the line that says which and why.
    Reading(Text),
    /// Writing under a path.
    Path(&'w str),
    /// Printing the text.
    Output,
}

/// Which of the paths were given again.
#[derive(Debug, Drop)]
pub(crate) struct Notes {
    /// The paths.
    pub(crate) files: Texts,
    /// The indices of those whose name an earlier one has, in their order.
    pub(crate) repeated: List<u64>,
}

impl Notes {
    /// No paths.
    pub(crate) fn new(alloc: Global) -> Self
        ensures files { result.files ≡ [] }
        ensures repeated { result.repeated ≡ [] }
    {
        Notes {
            files: List::new(alloc),
            repeated: List::new(alloc),
        }
    }
}

/// Why a run ends before all is written.
#[derive(Debug, Drop)]
pub(crate) enum Stop<'w> {
    /// The words are refused, with status 2.
    Words(WordFault<'w>),
    /// The input is refused.
    Refused(Refusal),
    /// Something outside failed.
    Broken(Object<'w>),
    /// Memory ran out, with status 4.
    NoMemory,
}
