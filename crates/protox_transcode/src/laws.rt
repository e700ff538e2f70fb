ghost use Rattle.protox_compile.specs.Repeats.{NamesRepeatAsPaths};
ghost use Rattle.protox_transcode.specs.Again.{TranscodesAgain, TranscodedIsRead, TranscodedAskFor};
ghost use Rattle.protox_transcode.specs.Laws.{CausesAreTold, KindsAreBroken, RefusedOnce, TranscodedAlone, TranscodedOnce};

use pbx_json_meaning::first_fault_is_one_place;
use protox_compile::{names_repeat_as_paths, opens_once, roots_name_themselves, set_opens_again};

/// Of any paths, any options, and any resolver that tells its files: where `compile_and_transcode` gives a set, wire bytes
/// and a tree, it refuses the paths, the type's name and the tree for no reason, want of memory and faults aside, and the
/// three are determined.
pub fn transcoded_is_determined()
    ensures alone { TranscodedAlone }
    ensures once { TranscodedOnce }
{
    opens_once();
}

/// Of any paths and any resolver that tells its files: where `compile_and_transcode` refuses the same paths, type's name and
/// tree twice, the two errors are one, want of memory and faults aside: of one class, and equal but for the place beside a
/// broken rule, the place and the words of a fault of syntax, and the kind of a fault of the tree, which is one too where no
/// two rules are broken at its place. What `compile_and_transcode_retry` tells of an error's cause implies what `compile_and_transcode`
/// tells, so the law holds of both calls.
pub fn refused_is_determined()
    ensures once { RefusedOnce }
    ensures kinds { KindsAreBroken }
    ensures told { CausesAreTold }
{
    opens_once();
    // The place of a tree's fault is one.
    first_fault_is_one_place();
}

/// The fixpoint: of any paths, any options, and any resolver that tells its files, where `compile_and_transcode` gives a set,
/// wire bytes and a tree, it gives the same three, or wants memory, over `DescriptorSetFileResolver::decode` of the set, by
/// the names that the paths ask for, with the same type's name and options, and the same tree or the written one; the same
/// of the names are given again as of the paths. The set is read, want of memory aside, and each path asks for a name.
pub fn transcodes_again()
    ensures again { TranscodesAgain }
    ensures read { TranscodedIsRead }
    ensures asked { TranscodedAskFor }
    // The same paths are given again.
    ensures repeated { NamesRepeatAsPaths }
{
    opens_once();
    roots_name_themselves();
    set_opens_again();
    names_repeat_as_paths();
}
