ghost use Rattle.protox_compile.specs.Again.{SetOpensAgain};
ghost use Rattle.protox_compile.specs.Repeats.{NamesRepeatAsPaths, RepeatsAreAgain};

use pbx_link_laws::sets_are_read_back;
use protox_compile_walk::{closed_are_ordered, closes_again};

/// Where paths are opened one after another from no files on, and each is accepted, those that are opened again are those
/// whose name is that of an earlier path.
pub fn repeats_are_again()
    ensures { RepeatsAreAgain }
{}

/// The names that paths ask for are given again where the paths are: by a resolver that knows no path, as that of a set.
pub fn names_repeat_as_paths()
    ensures { NamesRepeatAsPaths }
{}

/// The set of compiled files compiles to the same files: where paths were opened from nothing, the names that they ask for
/// open to the same files over `DescriptorSetFileResolver::decode` of the set's bytes, with the same records and marks in the
/// same order, without the paths that they were read from.
pub fn set_opens_again()
    ensures { SetOpensAgain }
{
    sets_are_read_back();
    closed_are_ordered();
    closes_again();
}
